// The limits of document 01, each once; specs/Limits.antt has the same for contracts.

// The length of a record, in bytes.
pub const RECORD_LENGTH: usize = 16;

// The records of an expression (document 01: tangle), and its bytes.
pub const EXPR_RECORDS: usize = 1024;

pub const EXPR_BYTES: usize = EXPR_RECORDS * RECORD_LENGTH;

// Variables have numbers below this: two bytes.
pub const VAR_LIMIT: u64 = 65536;

// The atoms of a semilinear form (document 01: sheet), the records of their trees, and the form's
// bytes: a head and a term for each atom, the trees, and the sum record.
pub const ATOM_LIMIT: usize = 256;

pub const TREE_RECORD_LIMIT: usize = 3072;

pub const FORM_BYTES: usize = (2 * ATOM_LIMIT + TREE_RECORD_LIMIT + 1) * RECORD_LENGTH;

// The entries of a group: at most one for each atom.
pub const GROUP_ENTRIES: usize = ATOM_LIMIT;

// The words of the partition classes (document 01: hint columns): for each of 64 places a mask, and
// a word for each atom.
pub const COLUMN_WORDS: usize = 64 * (1 + ATOM_LIMIT);

// A form of at most so many atoms is worked on in short arrays; no limit of document 01.
pub const SHORT_ATOMS: usize = 16;

// The same as words of 64 bits.
pub const RECORD_LENGTH_U64: u64 = RECORD_LENGTH as u64;

pub const ATOM_LIMIT_U64: u64 = ATOM_LIMIT as u64;

pub const TREE_RECORD_LIMIT_U64: u64 = TREE_RECORD_LIMIT as u64;

pub const FORM_BYTES_U64: u64 = FORM_BYTES as u64;

pub const SHORT_ATOMS_U64: u64 = SHORT_ATOMS as u64;
