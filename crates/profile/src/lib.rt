// The profile of a place: a word for each atom.
#![tactic(auto)]

pub mod facts;
pub mod index;

ghost use Rattle.std.specs.Prelude.{◌≡◌, ℕ, ◌<◌, length};
ghost use Rattle.partition_laws.specs.Partition.{profile_word};
ghost use Rattle.profile.specs.Index.{atom_trees, tree_of, IndexReadable};
ghost use Rattle.profile.specs.Profile.{WordsMoved};

use crate::index::AtomFacts;
use semilinear::items;

// The profile word of atom i at place p of w.
fn profile_word(f: &[u8], index: &[AtomFacts], i: usize, p: u32, w: u32) -> u64
    requires { IndexReadable f.now index.now × (i < length (atom_trees f.now)) }
    ensures { result ≡ profile_word w p i (tree_of f.now i) }
{
    let known = &index[i];
    match &known.table {
        None => 0xDEAD_0000_0000_0000 | i as u64,
        Some(table) => {
            let t = items::tree_span(items::rest_from(f, known.at));
            truth::rows_at(t, &table.vars, p, w) & table.rows
        }
    }
}

// The profile of place p of w, made from that of the place before: the word of an atom is made anew
// where it may have changed.
pub fn move_profile(f: &[u8], index: &[AtomFacts], p: u32, w: u32, profile: &mut [u64])
    requires { IndexReadable f.now index.now
        × (length profile.old ≡ length (atom_trees f.now)) }
    ensures { WordsMoved f.now w p profile.old
        profile.new }
{
    for i in 0..profile.len() {
        if arith::bit(index[i].edges, p) == 1 {
            profile[i] = profile_word(f, index, i, p, w);
        }
    }
}
