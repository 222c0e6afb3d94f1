// The atom table of a pass, beside the lent bytes that hold the atoms: a step of a group takes both
// lent.
#![tactic(auto)]

ghost use Rattle.std.specs.Prelude.{◌≡◌, ◌+◌, ◌^◌, ◌<◌, length};
ghost use Rattle.record.specs.Tree.{encode};
ghost use Rattle.record.specs.Tree.Tree.{Constant, Binary};
ghost use Rattle.base.specs.Put.{put};
ghost use Rattle.record.specs.Decode.{decode};
ghost use Rattle.atom_table.specs.Table.{Placed, store_of, atom_span, create_atom};
ghost use Rattle.made.specs.Rows.{create_masked};
ghost use Rattle.made.specs.Made.{made_of, Grew, Basis, Makes, AtomFits};

use atom_table::table;
use atom_table::table::Table;
use base::limits;
use record::kinds::{FormKind, Kind};

// The table, how many rows a table without limits would have, and the constant.
#[derive(Clone, Copy)]
pub struct Made {
    pub table: Table,
    pub rows: u64,
    pub constant: u64,
}

impl Made {
    // This table in place of the one there was, and one row more.
    pub fn store(&mut self, tab: Table)
        requires { self.old.rows + 1 < 2 ^ 64 }
        ensures { self.new
            ≡ made_of tab (self.old.rows + 1) self.old.constant }
    {
        self.table = tab;
        self.rows += 1;
    }
}

// Puts the atom of the And of the basis b and the literal m into out from index `at` on; it has
// `size` tree records.
fn put_masked(out: &mut [u8], at: usize, b: &[u8], m: u64, size: u64, hash: u64, w: u8)
    requires { AtomFits at size b.now out.old × Basis w hash b.now }
    ensures { out.new ≡ put out.old at
        (atom_span w (encode w (Binary 4 (decode b.now) (Constant m)))) }
{
    let end = at + limits::RECORD_LENGTH + b.len();
    record::write::put_record(
        out,
        at,
        FormKind::Head as u8,
        table::HEAD_BYTE,
        size,
        w,
        expr::hash::masked_hash(hash, m),
    );
    base::write::put(out, at + limits::RECORD_LENGTH, b);
    record::write::put_record(out, end, Kind::Constant as u8, 0, 1, w, m);
    record::write::put_record(
        out,
        end + limits::RECORD_LENGTH,
        Kind::And as u8,
        0,
        size,
        w,
        0,
    );
}

// Appends the And of the tree b and the literal m.
fn create_joined(tab: Table, out: &mut [u8], b: &[u8], m: u64, hash: u64, w: u8) -> Table
    requires { Placed tab (length out.old) × Basis w hash b.now }
    ensures { store_of result out.new ≡ create_atom w
        (encode w (Binary 4 (decode b.now) (Constant m)))
        (store_of tab out.old) }
{
    let mut more = tab;
    if more.full {
        return more;
    }
    let size = record::size(b) + 2;
    let count = more.count;
    let records = more.records;
    if count >= limits::ATOM_LIMIT_U64 {
        more.full = true;
        return more;
    }
    if records + size > limits::TREE_RECORD_LIMIT_U64 {
        more.full = true;
        return more;
    }
    let at = more.at;
    put_masked(out, at, b, m, size, hash, w);
    more.at = at + 48 + b.len();
    more.count = count + 1;
    more.records = records + size;
    more
}

// Appends basis & mask, or the basis alone under the full mask.
pub fn create_masked(made: &mut Made, out: &mut [u8], b: &[u8], hash: u64, mask: u64, w: u8)
    requires { Makes w 1 hash b.now made.old out.old }
    ensures { Grew w 1 (create_masked w (decode b.now) mask)
        made.old out.old made.new out.new }
{
    if mask == arith::bitmask(w as u32) {
        let more = made.table.create_atom(out, b, hash, w);
        made.store(more);
        return;
    }
    let more = create_joined(made.table, out, b, mask, hash, w);
    made.store(more);
}
