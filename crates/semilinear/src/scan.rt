// The validator of a semilinear form: refusals 1 and 10. Each atom's tree is walked once.
ghost use Rattle.std.specs.Prelude.{◌≡◌, true, ℕ, ◌^◌, ltb};
ghost use Rattle.base.specs.Refusal.{number_of};
ghost use Rattle.semilinear.specs.Items.{is_atom, is_term};
ghost use Rattle.semilinear.specs.Valid.{tree_ok, atom_ok, atoms_ok, term_ok, terms_ok, sum_ok};
ghost use Rattle.semilinear.specs.Valid.{front_ok};
ghost use Rattle.semilinear.specs.Atoms.{given_ok, given_term_ok};
ghost use Rattle.semilinear.specs.Scan.{AtomsEnd, IsAtomTable};
ghost use Rattle.semilinear.specs.Valid.{is_semilinear, length_refused, semilinear_refusal};

use crate::items;
use crate::items::{Atom, Atoms, Term, Terms};
use base::limits;
use base::refusal::Refusal;
use record::kinds::FormKind;

// The atoms at the front of some bytes: where they end, how many there are, and their tree records.
#[derive(Drop)]
pub struct AtomTable {
    pub at: usize,
    pub count: u64,
    pub records: u64,
}

// Whether x is a number of w bits.
fn fits_width(x: u64, w: u8) -> bool
    ensures { result ≡ ltb x (2 ^ w) }
{
    let width = w as u32;
    x <= arith::bitmask(width)
}

// Whether an atom of width w may have the tree t, with this hash: all found in one walk.
fn tree_ok(t: &[u8], w: u8, hash: u64) -> bool
    ensures { result ≡ tree_ok w t.now hash }
{
    match bitwise::check_bitwise(t, w) {
        Some(found) => found.variable && hash == found.hash,
        None => false,
    }
}

// Whether an atom is as it must be at width w.
fn atom_ok(a: &Atom<'_>, w: u8) -> bool
    ensures { result ≡ given_ok w a.now }
{
    a.provenance <= 4 && a.width == w && a.spare == 0 && tree_ok(a.tree, w, a.hash)
}

// Whether all atoms at the front are as they must be at width w.
fn atoms_ok(f: &[u8], w: u8) -> bool
    ensures { result ≡ atoms_ok w f.now }
{
    Atoms::of(f).all(|a| atom_ok(&a, w))
}

// The atoms at the front of any bytes.
pub fn atom_table(f: &[u8]) -> AtomTable
    ensures { IsAtomTable f.now result }
{
    let mut at = 0;
    let mut count: u64 = 0;
    let mut records: u64 = 0;
    for atom in Atoms::of(f) {
        count += 1;
        records += atom.size;
        at += atom.len();
    }
    AtomTable { at, count, records }
}

// Where the atoms at the front end.
pub fn terms_at(f: &[u8]) -> usize
    ensures { AtomsEnd f.now result }
{
    atom_table(f).at
}

// Whether a term is as it must be at width w, for n atoms of which those from `next` on may have one.
fn term_ok(x: &Term, w: u8, n: u64, next: u64) -> bool
    ensures { result ≡ given_term_ok w n next x.now }
{
    x.byte1 == 0
        && next <= x.number
        && x.number < n
        && x.width == w
        && x.spare == 0
        && x.coeff != 0
        && fits_width(x.coeff, w)
}

// Whether q is terms of n atoms at width w and nothing else, in order.
fn terms_ok(q: &[u8], w: u8, n: u64) -> bool
    ensures { result ≡ terms_ok w n 0 q.now }
{
    let mut at = 0;
    let mut next: u64 = 0;
    for term in Terms::of(q) {
        if !term_ok(&term, w, n, next) {
            return false;
        }
        next = term.number + 1;
        at += limits::RECORD_LENGTH;
    }
    at == q.len()
}

// Whether the last record is a sum record, with a width of 1 to 64 and a constant that fits.
#[tactic(auto, unfolding(crate::specs::Valid::sum_ok))]
fn sum_ok(s: &[u8]) -> bool
    ensures { result ≡ sum_ok s.now }
{
    if s.len() < limits::RECORD_LENGTH {
        return false;
    }
    let w = record::width(s);
    record::kind(s) == FormKind::Sum as u8
        && record::byte1(s) == 0
        && record::size(s) == 0
        && record::spare(s) == 0
        && 1 <= w
        && w <= 64
        && fits_width(record::literal(s), w)
}

// Whether f is atoms and terms as they must be at width w, within the table's limits.
#[tactic(auto, unfolding(crate::specs::Valid::front_ok))]
fn front_ok(f: &[u8], w: u8) -> bool
    ensures { result ≡ front_ok w f.now }
{
    // First, and by itself: a form whose first atom is wrong is refused without a walk over the others.
    if !atoms_ok(f, w) {
        return false;
    }
    let found = atom_table(f);
    found.count <= limits::ATOM_LIMIT_U64
        && found.records <= limits::TREE_RECORD_LIMIT_U64
        && terms_ok(items::rest_from(f, found.at), w, found.count)
}

// Whether s is a semilinear form.
#[tactic(auto, unfolding(crate::specs::Valid::is_semilinear))]
pub fn is_semilinear(s: &[u8]) -> bool
    ensures { result ≡ is_semilinear s.now }
{
    sum_ok(s) && front_ok(record::body(s), record::width(s))
}

// Whether refusal 1 applies to s.
#[tactic(auto, unfolding(crate::specs::Valid::length_refused))]
pub fn length_refused(s: &[u8]) -> bool
    ensures { result ≡ length_refused s.now }
{
    let n = s.len();
    n == 0 || limits::FORM_BYTES < n || record::odd_bytes(n) != 0
}

// The lowest refusal of s.
pub fn semilinear_refusal(s: &[u8]) -> Result<(), Refusal>
    ensures { number_of result ≡ semilinear_refusal s.now }
{
    if length_refused(s) {
        return Err(Refusal::Length);
    }
    if !is_semilinear(s) {
        return Err(Refusal::NotSemilinear);
    }
    Ok(())
}
