// The index: what the columns ask of each atom. It is where the atom starts in the form, the places at
// which its profile word may change, and the table that the word is a part of.
ghost use Rattle.std.specs.Prelude.{◌≡◌, true, ℕ, ◌<◌, ◌≤◌, length};
ghost use Rattle.record.specs.Span.{sized};
ghost use Rattle.record.specs.Decode.{decode};
ghost use Rattle.semilinear.specs.Items.{atom_count};
ghost use Rattle.profile.specs.Index.{AtomsValid, atom_facts, AtomsIndexed};

use crate::facts;
use semilinear::items::Atoms;

// The most variables of an atom whose profile word is its table.
const COLUMN_VARS: usize = 5;

// The rows of an atom's table as ones, and its variables.
#[derive(Clone, Copy)]
pub struct Columns {
    pub rows: u64,
    pub vars: [u64; 6],
}

// An opaque atom has no table. `at` is a place and no slice: else the index would borrow the form.
#[derive(Clone, Copy)]
pub struct AtomFacts {
    pub at: usize,
    pub edges: u64,
    pub table: Option<Columns>,
}

// What an index holds before its atoms are put.
pub const NO_FACTS: AtomFacts = AtomFacts {
    at: 0,
    edges: 0,
    table: None,
};

// The facts of the atom with the tree t, which starts at `at`.
fn atom_facts(t: &[u8], at: usize) -> AtomFacts
    requires { sized t.now ≡ true }
    ensures { result ≡ atom_facts at (decode t.now) }
{
    let opaque = AtomFacts {
        at,
        edges: 1,
        table: None,
    };
    if facts::has_shift(t) {
        return opaque;
    }
    let mut vars = [0u64; COLUMN_VARS + 1];
    expr::vars::collect_vars(t, &mut vars);
    let n = truth::place_of(expr::vars::NO_VAR, &vars);
    if COLUMN_VARS < n {
        return opaque;
    }
    AtomFacts {
        at,
        edges: facts::edges_of(t) | 1,
        table: Some(Columns {
            rows: arith::bitmask(1 << n),
            vars,
        }),
    }
}

// The facts of all atoms at the front of f; returns the places at which a word may change.
pub fn put_index(f: &[u8], index: &mut [AtomFacts]) -> u64
    requires { AtomsValid f.now × (atom_count f.now ≤ length index.old) }
    ensures { AtomsIndexed f.now index.new result }
{
    let mut edges: u64 = 0;
    let mut at = 0;
    let mut i = 0;
    for atom in Atoms::of(f) {
        let known = atom_facts(atom.tree, at);
        index[i] = known;
        edges |= known.edges;
        at += atom.len();
        i += 1;
    }
    edges
}
