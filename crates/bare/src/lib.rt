// The number of a tree among the atoms of a pass's table, to which it is added where it has none.
#![tactic(auto)]

pub mod constant;

ghost use Rattle.std.specs.Prelude.{◌≡◌, true, ◌+◌, ◌^◌, ◌<◌, get_or};
ghost use Rattle.record.specs.Decode.{decode};
ghost use Rattle.semilinear.specs.Items.{is_atom};
ghost use Rattle.made.specs.Rows.{create_row};
ghost use Rattle.made.specs.Made.{Room, Grew, Basis, Makes};
ghost use Rattle.bare.specs.Search.{atom_has, IsAtomWith};
ghost use Rattle.bare.specs.Showing.{BareFound};

use made::Made;
use semilinear::items;

// Whether the atom at the front has this hash and the tree t. Bytes are compared only where the
// hashes are equal.
fn has_tree(r: &[u8], t: &[u8], hash: u64) -> bool
    requires { is_atom r.now ≡ true }
    ensures { result ≡ atom_has hash t.now r.now }
{
    items::front_word(r) == hash && record::same_bytes(items::tree_span(r), t)
}

// The number of the first atom at the front of f with the tree t, which has this hash.
fn row_with(f: &[u8], t: &[u8], hash: u64) -> Option<u64>
    ensures { IsAtomWith hash t.now f.now result }
{
    let mut at = 0;
    let mut i = 0;
    // Kept as a `loop`: a `while` on the atom at the front would take the rest from `at` on twice.
    loop {
        let r = items::rest_from(f, at);
        if !items::is_atom(r) {
            return None;
        }
        if has_tree(r, t, hash) {
            return Some(i);
        }
        i += 1;
        at += items::atom_length(r);
    }
}

// Appends an atom with the tree t.
pub fn create_row(made: &mut Made, out: &mut [u8], t: &[u8], hash: u64, w: u8)
    requires { Room made.old out.old × Basis w hash t.now
        × (made.old.rows + 1 < 2 ^ 64) }
    ensures { Grew w 1 (create_row (decode t.now))
        made.old out.old made.new out.new }
{
    let more = made.table.create_atom(out, t, hash, w);
    made.store(more);
}

// The number of the first atom with the tree b; a new one where there is none. Corresponds to
// `find_or_create_bare_atom`.
pub fn find_or_create_bare(made: &mut Made, out: &mut [u8], b: &[u8], hash: u64, w: u8) -> u64
    requires { Makes w 1 hash b.now made.old out.old }
    ensures { BareFound w (decode b.now) result
        made.old out.old made.new out.new }
{
    let at = made.table.at;
    if let Some(i) = row_with(&out[..at], b, hash) {
        return i;
    }
    let i = made.table.count;
    create_row(made, out, b, hash, w);
    i
}
