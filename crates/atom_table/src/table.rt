// The atom table while a pass adds atoms to it, beside the lent bytes that hold them; and the
// writers of a form's records.
ghost use Rattle.std.specs.Prelude.{◌≡◌, true, false, ◌+◌, ◌-◌, ◌^◌, ◌<◌, ◌≤◌, length};
ghost use Rattle.record.specs.Span.{sized};
ghost use Rattle.base.specs.Put.{put};
ghost use Rattle.record.specs.Decode.{decode};
ghost use Rattle.expr.specs.Hash.{structural_hash};
ghost use Rattle.semilinear.specs.Form.{term_bytes, sum_bytes};
ghost use Rattle.atom_table.specs.Table.{Placed, store_of, empty_table, atom_span, create_atom};
ghost use Rattle.base.specs.Limits.{record_length};

use base::limits;
use record::kinds::FormKind;

// Byte 1 of every new head.
pub const HEAD_BYTE: u8 = 4;

// Puts an atom, its head and a copy of its tree t, into out from index `at` on. The tree's hash is
// given: who has looked for the tree has it.
pub fn put_atom(out: &mut [u8], at: usize, t: &[u8], hash: u64, w: u8)
    requires { (at + record_length + length t.now ≤ length out.old) × (sized t.now ≡ true)
        × (hash ≡ structural_hash (decode t.now)) }
    ensures { out.new
        ≡ put out.old at (atom_span w t.now) }
{
    record::write::put_record(
        out,
        at,
        FormKind::Head as u8,
        HEAD_BYTE,
        record::size(t),
        w,
        hash,
    );
    base::write::put(out, at + limits::RECORD_LENGTH, t);
}

// Puts the term of atom i with coefficient c into out from index `at` on.
#[tactic(auto, unfolding(semilinear::specs::Form::term_bytes))]
pub fn put_term(out: &mut [u8], at: usize, i: u64, c: u64, w: u8)
    requires { (at + record_length ≤ length out.old) × (i < 2 ^ 16) }
    ensures { out.new ≡ put out.old at (term_bytes w i c) }
{
    record::write::put_record(out, at, FormKind::Term as u8, 0, i, w, c);
}

// Puts the sum record with the constant c into out from index `at` on.
#[tactic(auto, unfolding(semilinear::specs::Form::sum_bytes))]
pub fn put_sum(out: &mut [u8], at: usize, c: u64, w: u8)
    requires { at + record_length ≤ length out.old }
    ensures { out.new ≡ put out.old at (sum_bytes w c) }
{
    record::write::put_record(out, at, FormKind::Sum as u8, 0, 0, w, c);
}

// The bytes, atoms and tree records so far, and whether an atom more would have passed a limit. Kept as a flag: a table
// that is full keeps its numbers, and `store_of` reads all four.
#[derive(Clone, Copy)]
pub struct Table {
    pub at: usize,
    pub count: u64,
    pub records: u64,
    pub full: bool,
}

impl Table {
    // A table without atoms.
    #[tactic(auto, unfolding(crate::specs::Table::empty_table))]
    pub fn empty() -> Self
        ensures { result ≡ empty_table }
    {
        Self {
            at: 0,
            count: 0,
            records: 0,
            full: false,
        }
    }

    // Appends an atom with the tree t; its number is the count before. Corresponds to
    // `create_atom`.
    pub fn create_atom(mut self, out: &mut [u8], t: &[u8], hash: u64, w: u8) -> Self
        requires { Placed self (length out.old) × (sized t.now ≡ true)
            × (hash ≡ structural_hash (decode t.now)) }
        ensures { store_of result out.new
            ≡ create_atom w t.now (store_of self out.old) }
    {
        if self.full {
            return self;
        }
        let size = record::size(t);
        if self.count >= limits::ATOM_LIMIT_U64
            || self.records + size > limits::TREE_RECORD_LIMIT_U64
        {
            self.full = true;
            return self;
        }
        put_atom(out, self.at, t, hash, w);
        self.at += limits::RECORD_LENGTH + t.len();
        self.count += 1;
        self.records += size;
        self
    }
}

// Where what was written ends, and how many terms were written.
#[derive(Drop)]
pub struct Written {
    pub used: usize,
    pub terms: u64,
}
