// The atom table that the collected atoms make: each is shared with an atom that is there, or
// appended.
#![tactic(auto)]

pub mod index;

ghost use Rattle.std.specs.Prelude.{◌≡◌, [], ◌∷◌, ◌++◌, ◌<◌, ◌≤◌, length, set};
ghost use Rattle.base.specs.Put.{padded};
ghost use Rattle.record.specs.Decode.{decode};
ghost use Rattle.expr.specs.Hash.{structural_hash};
ghost use Rattle.truth.specs.Key.{key_of};
ghost use Rattle.normalizer_laws.specs.Register.{register_atom, register_all};
ghost use Rattle.descent.specs.Spots.{spot_tree, atom_of, spots_in};
ghost use Rattle.register.specs.Index.{Registrable, Registers, Built, entry_at, grown, CoeffsPut};
ghost use Rattle.register.specs.Index.{TreeRoom, SpotRoom, SpotsRoom};
ghost use Rattle.register.specs.Index.{index_rows, emitted, appended_row};
ghost use Rattle.base.specs.Limits.{form_bytes};

use crate::index::Entry;
use atom_table::table::Table;
use base::limits;
use descent::collect::Atom;
use record::kinds::Kind;
use truth::key;

// The tree t, or the And of it and a literal, is put into `tree`; returns its length.
fn put_tree(t: &[u8], literal: Option<u64>, w: u8, tree: &mut [u8]) -> usize
    requires { TreeRoom w literal t.now tree.old }
    ensures { Built w (spot_tree (decode t.now) literal)
        tree.old tree.new result }
{
    let n = t.len();
    base::write::put(tree, 0, t);
    let Some(v) = literal else {
        return n;
    };
    record::write::put_record(tree, n, Kind::Constant as u8, 0, 1, w, v);
    record::write::put_record(
        tree,
        n + limits::RECORD_LENGTH,
        Kind::And as u8,
        0,
        record::size(t) + 2,
        w,
        0,
    );
    n + 32
}

// The tree that an atom stands for is put into `tree`; returns its length.
fn build_tree(atom: Atom, file: &[u8], w: u8, tree: &mut [u8]) -> usize
    requires { SpotRoom w atom file.now tree.old }
    ensures { Built w (atom_of file.now atom).tree
        tree.old tree.new result }
{
    let start = atom.spot.start;
    let end = atom.spot.end;
    put_tree(&file[start..end], atom.literal, w, tree)
}

// The coefficient of atom j grows by c.
fn add_coeff(index: &mut [Entry], j: usize, c: u64, w: u8)
    requires { j < length index.old }
    ensures { index.new ≡ set index.old j (grown w c (entry_at index.old j)) }
{
    index[j].coeff = arith::mod_add(index[j].coeff, c, w as u32);
}

// The atom with the tree t and this hash and key is appended, with the coefficient c.
fn append_atom(
    table: Table,
    c: u64,
    t: &[u8],
    hash: u64,
    key: &[u64; 7],
    w: u8,
    index: &mut [Entry],
    out: &mut [u8],
) -> Table
    requires { Registrable w table t.now index.old out.old
        × (hash ≡ structural_hash (decode t.now)) × (key.now ≡ key_of (decode t.now)) }
    ensures { Registers w (index_rows index.old out.old table.count
        ++ (appended_row (emitted c t.now) ∷ [])) index.new out.new result }
{
    let n = table.count as usize;
    let start = table.at + limits::RECORD_LENGTH;
    let more = table.create_atom(out, t, hash, w);
    if more.full {
        return more;
    }
    index[n] = Entry {
        coeff: c,
        hash,
        start,
        end: more.at,
        key: *key,
    };
    more
}

// One atom: the tree t with the coefficient c. Corresponds to `register_atom`.
fn register_atom(
    table: Table,
    c: u64,
    t: &[u8],
    w: u8,
    index: &mut [Entry],
    out: &mut [u8],
) -> Table
    requires { Registrable w table t.now index.old out.old }
    ensures { Registers w (register_atom w (emitted c t.now)
        (index_rows index.old out.old table.count))
        index.new out.new result }
{
    let n = table.count as usize;
    let hash = expr::hash::structural_hash(t);
    if let Some(same) = index::row_by_hash(n, hash, t, index, out) {
        add_coeff(index, same, c, w);
        return table;
    }
    let key = key::key_of(t);
    if let Some(shared) = index::row_by_key(n, &key, index) {
        add_coeff(index, shared, c, w);
        return table;
    }
    append_atom(table, c, t, hash, &key, w, index, out)
}

// All atoms of the first n spots, in order; ends where the table is full.
pub fn register_all(
    n: usize,
    spots: &[Atom],
    file: &[u8],
    w: u8,
    tree: &mut [u8],
    index: &mut [Entry],
    out: &mut [u8],
) -> Table
    requires { SpotsRoom w n spots.now file.now tree.old index.old
        × (out.old ≡ padded form_bytes []) }
    ensures { Registers w
        (register_all w (spots_in file.now spots.now n) [])
        index.new out.new result }
{
    let mut table = Table::empty();
    for i in 0..n {
        let atom = spots[i];
        let size = build_tree(atom, file, w, tree);
        table = register_atom(table, atom.spot.coeff, &tree[..size], w, index, out);
        if table.full {
            return table;
        }
    }
    table
}

// The coefficients of the entries are put into `coeffs`, as many as both hold.
pub fn put_coeffs(index: &[Entry], coeffs: &mut [u64])
    ensures { CoeffsPut index.now coeffs.old coeffs.new }
{
    let n = index.len().min(coeffs.len());
    for i in 0..n {
        coeffs[i] = index[i].coeff;
    }
}
