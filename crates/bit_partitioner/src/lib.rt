// The partition of the places by the profiles of the atoms.
#![tactic(auto)]

pub mod places;

ghost use Rattle.std.specs.Prelude.{◌≡◌, ◌≤◌, true, [], ◌∷◌, length};
ghost use Rattle.base.specs.Put.{padded};
ghost use Rattle.semilinear.specs.Valid.{is_semilinear};
ghost use Rattle.base.specs.Outcome.{Gives};
ghost use Rattle.base.specs.Refusal.{number_of, value_of};
ghost use Rattle.partition_laws.specs.Partition.{compute_partitions};
ghost use Rattle.bit_partitioner.specs.Places.{FewAtoms, AllPlaced, FormPlaced};
ghost use Rattle.base.specs.Limits.{atom_limit, column_words};

use atom_table::read;
use base::limits;
use base::refusal::Refusal;
use profile::index;
use semilinear::scan;

// The classes of n atoms, at most N. Most forms have few, and clearing a long index costs.
fn partition<const N: usize>(f: &[u8], n: usize, w: u32, out: &mut [u64]) -> usize
    requires { FewAtoms N n f.now w out.old × (N ≤ atom_limit) }
    ensures { AllPlaced f.now w out.old out.new result }
{
    let mut index = [index::NO_FACTS; N];
    let mut profile = [0u64; N];
    places::partition_atoms(f, w, &mut index, &mut profile[..n], out)
}

// The classes of the form s, written to out, which is all zeros; returns how many there are.
fn partition_form(s: &[u8], out: &mut [u64]) -> u64
    requires { (is_semilinear s.now ≡ true) × (out.old ≡ padded column_words []) }
    ensures { FormPlaced s.now out.new result }
{
    let w = record::width(s) as u32;
    let f = record::body(s);
    let found = scan::atom_table(f);
    let n = found.count as usize;
    if n == 0 {
        return 0;
    }
    if n <= limits::SHORT_ATOMS {
        return partition::<{ limits::SHORT_ATOMS }>(f, n, w, out) as u64;
    }
    partition::<{ limits::ATOM_LIMIT }>(f, n, w, out) as u64
}

// The classes of the places of s, written to out, and how many there are; or a refusal: 1, 2 or 10.
pub fn compute_partitions(s: &[u8], out: &mut [u64]) -> Result<u64, Refusal>
    ensures { Gives (compute_partitions s.now (length out.old))
        (length out.old) (number_of result) (value_of result ∷ []) out.new }
{
    read::open_words(s, out)?;
    Ok(partition_form(s, out))
}
