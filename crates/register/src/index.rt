// The index of the atom table while normalising: what registering asks of each atom.
ghost use Rattle.std.specs.Prelude.{◌≡◌, true, ◌≤◌, length, take};
ghost use Rattle.std.specs.List.{position};
ghost use Rattle.base.specs.Lists.{eq_list};
ghost use Rattle.record.specs.Span.{sized};
ghost use Rattle.record.specs.Decode.{decode};
ghost use Rattle.register.specs.Index.{slot_at, newest_slot, Searchable, EntryIn};
ghost use Rattle.register.specs.Index.{row_by_hash, row_by_key};

use truth::key;

// An atom of the table: its coefficient, its hash, where its tree starts and ends in the result
// slice, and the key by which pure trees are shared, truth table and variables. The key is seven words, as the definition
// `key_of` has it.
#[derive(Clone, Copy)]
pub struct Entry {
    pub coeff: u64,
    pub hash: u64,
    pub start: usize,
    pub end: usize,
    pub key: [u64; 7],
}

impl Entry {
    // An entry of nothing, for places where none stands.
    pub const NONE: Self = Self {
        coeff: 0,
        hash: 0,
        start: 0,
        end: 0,
        key: [0; 7],
    };
}

// Whether an atom has this hash and the variables of t.
fn same_slot(e: &Entry, hash: u64, t: &[u8], out: &[u8]) -> bool
    requires { (sized t.now ≡ true) × EntryIn out.now e.now }
    ensures { result ≡ slot_at hash (decode t.now) out.now e.now }
{
    if e.hash != hash {
        return false;
    }
    let tree = &out[e.start..e.end];
    record::same_bytes(tree, t) || expr::vars::same_vars(tree, t)
}

// The newest of the first n atoms with this hash and the variables of t.
fn newest_slot(n: usize, hash: u64, t: &[u8], index: &[Entry], out: &[u8]) -> Option<usize>
    requires { (sized t.now ≡ true) × Searchable index.now out.now n }
    ensures { result ≡ newest_slot n hash (decode t.now) index.now
        out.now }
{
    for j in (0..n).rev() {
        if same_slot(&index[j], hash, t, out) {
            return Some(j);
        }
    }
    None
}

// The atom of the first n that has the tree t, by its hash.
pub fn row_by_hash(n: usize, hash: u64, t: &[u8], index: &[Entry], out: &[u8]) -> Option<usize>
    requires { (sized t.now ≡ true) × Searchable index.now out.now n }
    ensures { result ≡ row_by_hash n hash t.now index.now
        out.now }
{
    let j = newest_slot(n, hash, t, index, out)?;
    let start = index[j].start;
    let end = index[j].end;
    if record::same_bytes(&out[start..end], t) {
        return Some(j);
    }
    None
}

// Whether an atom has this key.
fn same_key(e: &Entry, key: &[u64; 7]) -> bool
    ensures { result ≡ eq_list e.now.key key.now }
{
    e.key == *key
}

// The first of n atoms with this key.
fn first_by_key(n: usize, key: &[u64; 7], index: &[Entry]) -> Option<usize>
    requires { n ≤ length index.now }
    ensures { result ≡ position (λ e. eq_list e.key key.now) (take n index.now) }
{
    index[..n].iter().position(|e| same_key(e, key))
}

// The same, where the key is that of a pure tree.
pub fn row_by_key(n: usize, key: &[u64; 7], index: &[Entry]) -> Option<usize>
    requires { n ≤ length index.now }
    ensures { result ≡ row_by_key key.now (take n index.now) }
{
    if key[0] == key::NOT_PURE {
        return None;
    }
    first_by_key(n, key, index)
}
