// The atom `literal ^ basis`, and the constant that recovering it takes along.
ghost use Rattle.std.specs.Prelude.{◌≡◌, length};
ghost use Rattle.record.specs.Tree.{encode, Encodable};
ghost use Rattle.base.specs.Put.{put};
ghost use Rattle.record.specs.Decode.{decode};
ghost use Rattle.atom_table.specs.Table.{Placed, store_of, atom_span, create_atom};
ghost use Rattle.made.specs.Rows.{create_row};
ghost use Rattle.made.specs.Made.{Grew, AtomFits};
ghost use Rattle.pairing.specs.Recovering.{xor_tree, TreeFits, XorMakes};

use atom_table::table;
use atom_table::table::Table;
use base::limits;
use made::Made;
use record::kinds::{FormKind, Kind};

// Puts the Xor of the literal m and the tree b into out from index `at` on; it has `size` records.
fn put_tree(out: &mut [u8], at: usize, b: &[u8], m: u64, size: u64, w: u8)
    requires { TreeFits w at size b.now out.old }
    ensures { out.new
        ≡ put out.old at (encode w (xor_tree m (decode b.now))) }
{
    let end = at + limits::RECORD_LENGTH + b.len();
    record::write::put_record(out, at, Kind::Constant as u8, 0, 1, w, m);
    base::write::put(out, at + limits::RECORD_LENGTH, b);
    record::write::put_record(out, end, Kind::Xor as u8, 0, size, w, 0);
}

// The same with the atom's head before it.
fn put_xored(out: &mut [u8], at: usize, b: &[u8], m: u64, size: u64, w: u8)
    requires { AtomFits at size b.now out.old × (encode w (decode b.now) ≡ b.now)
        × Encodable (decode b.now) }
    ensures { out.new ≡ put out.old at
        (atom_span w (encode w (xor_tree m (decode b.now)))) }
{
    let start = at + limits::RECORD_LENGTH;
    let end = at + 48 + b.len();
    put_tree(out, start, b, m, size, w);
    let hash = expr::hash::structural_hash(&out[start..end]);
    record::write::put_record(
        out,
        at,
        FormKind::Head as u8,
        table::HEAD_BYTE,
        size,
        w,
        hash,
    );
}

// Appends the Xor of the literal m and the tree b.
fn join_xored(tab: Table, out: &mut [u8], b: &[u8], m: u64, w: u8) -> Table
    requires { Placed tab (length out.old) × (encode w (decode b.now) ≡ b.now)
        × Encodable (decode b.now) }
    ensures { store_of result out.new ≡ create_atom w
        (encode w (xor_tree m (decode b.now))) (store_of tab out.old) }
{
    let mut more = tab;
    if more.full {
        return more;
    }
    let size = record::size(b) + 2;
    let count = more.count;
    let records = more.records;
    if count >= limits::ATOM_LIMIT_U64 {
        more.full = true;
        return more;
    }
    if records + size > limits::TREE_RECORD_LIMIT_U64 {
        more.full = true;
        return more;
    }
    let at = more.at;
    put_xored(out, at, b, m, size, w);
    more.at = at + 48 + b.len();
    more.count = count + 1;
    more.records = records + size;
    more
}

// The same among the words of a pass's table.
pub fn create_xored(made: &mut Made, out: &mut [u8], b: &[u8], m: u64, w: u8)
    requires { XorMakes w b.now made.old out.old }
    ensures { Grew w 1 (create_row (xor_tree m (decode b.now)))
        made.old out.old made.new out.new }
{
    let more = join_xored(made.table, out, b, m, w);
    made.store(more);
}
