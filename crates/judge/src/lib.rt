// The judge of two sides: their forms are compared under the assignments of one bit place. An
// expression is normalised first; a semilinear form is taken as it is. At a place all indices are
// looked at together: each form has a running sum for each of them.
#![tactic(auto)]

pub mod sides;
pub mod sums;

ghost use Rattle.std.specs.Prelude.{◌≡◌, true, ℕ, ◌<◌, ◌≤◌, length};
ghost use Rattle.base.specs.Refusal.{refusal_number};
ghost use Rattle.record.specs.Span.{body};
ghost use Rattle.base.specs.Limits.{form_bytes};
ghost use Rattle.semilinear_value.specs.Value.{semilinear_value};
ghost use Rattle.judge_laws.specs.Judge.{verdict, compared, judge_sides, judge_of, judge_forms};
ghost use Rattle.judge.specs.Forms.{side_of, FormFor, Unshifted, Comparable};
ghost use Rattle.judge.specs.Sums.{form_rows};
ghost use Rattle.judge.specs.Found.{unlike_sums, unlike_rows, IsFirst, PlaceReady, PlaceFound};
ghost use Rattle.judge.specs.Found.{FormsReady, Found};

use base::limits;
use base::refusal::Refusal;
use judge_laws::Verdict;
use semilinear::scan;
use sides::SideKind;

// The most variables of the two together, and indices at a place.
const JOINT_VARS: usize = 5;

const INDICES: usize = 32;

// A verdict holds the refusal's number: the definitions of judge_laws speak of four numbers.
fn refused(refusal: Refusal) -> Verdict
    ensures { result ≡ verdict (refusal_number refusal) 0 0 0 }
{
    Verdict {
        refusal: refusal.number(),
        equal: 0,
        place: 0,
        index: 0,
    }
}

fn unlike(place: u64, index: u64) -> Verdict
    ensures { result ≡ verdict 0 0 place index }
{
    Verdict {
        refusal: 0,
        equal: 0,
        place,
        index,
    }
}

fn equal() -> Verdict
    ensures { result ≡ verdict 0 1 0 0 }
{
    Verdict {
        refusal: 0,
        equal: 1,
        place: 0,
        index: 0,
    }
}

// The first index whose sums tell two forms apart that have the same value at all zeros.
fn first_unlike(left: &[u64], right: &[u64], place: u32, w: u32) -> Option<usize>
    requires { (length left.now ≡ length right.now) × (0 < length left.now)
        × (place < 64) }
    ensures { IsFirst (unlike_sums w place left.now right.now) (length left.now) result }
{
    let factor: u64 = 1 << place;
    for i in 0..left.len() {
        let x = arith::mod_mul(factor, arith::mod_add(left[i], right[0], w), w);
        let y = arith::mod_mul(factor, arith::mod_add(right[i], left[0], w), w);
        if x != y {
            return Some(i);
        }
    }
    None
}

// The same of the atoms and terms f and g, whose terms begin at `m` and `n`, at a place; the sums
// are made in x and y.
fn place_unlike(
    f: &[u8],
    g: &[u8],
    m: usize,
    n: usize,
    vars: &[u64],
    place: u32,
    w: u32,
    x: &mut [u64],
    y: &mut [u64],
) -> Option<usize>
    requires { PlaceReady w place f.now m g.now n x.old y.old }
    ensures { PlaceFound (unlike_rows w vars.now (form_rows f.now)
        (form_rows g.now) place) x.old y.old x.new
        y.new result }
{
    sums::place_sums(f, m, vars, place, w, x);
    sums::place_sums(g, n, vars, place, w, y);
    first_unlike(x, y, place, w)
}

// The first place and index of two forms that have the same value at all zeros; x and y have a word
// for each index.
fn search_places(
    left: &[u8],
    right: &[u8],
    vars: &[u64],
    w: u32,
    x: &mut [u64],
    y: &mut [u64],
) -> Verdict
    requires { FormsReady w left.now right.now x.old y.old }
    ensures { Found (unlike_rows w vars.now (form_rows (body left.now))
        (form_rows (body right.now))) w (length x.old) result }
{
    let f = record::body(left);
    let g = record::body(right);
    let m = scan::terms_at(f);
    let n = scan::terms_at(g);
    for p in 0..w {
        if let Some(i) = place_unlike(f, g, m, n, vars, p, w, x, y) {
            return unlike(u64::from(p), i as u64);
        }
    }
    equal()
}

// The value of a form under an assignment.
fn form_value(s: &[u8], vars: &[u64], w: u32) -> u64
    requires { Unshifted w s.now }
    ensures { result ≡ semilinear_value s.now vars.now }
{
    let constant = record::literal(s);
    let f = record::body(s);
    let terms = scan::terms_at(f);
    semilinear_value::sum_rows(f, terms, constant, vars, w)
}

// Two forms over the variables of a list: whether they have the same value under the assignments of
// one place, all zeros first.
pub fn compare_forms(f: &[u8], g: &[u8], vars: &[u64], w: u32) -> Verdict
    requires { Comparable w f.now g.now vars.now }
    ensures { result ≡ compared w vars.now (semilinear_value f.now)
        (semilinear_value g.now) }
{
    let a = form_value(f, &vars[..0], w);
    let b = form_value(g, &vars[..0], w);
    if a != b {
        return unlike(0, 0);
    }
    let mut x = [0u64; INDICES];
    let mut y = [0u64; INDICES];
    let indices = 1 << vars.len();
    search_places(f, g, vars, w, &mut x[..indices], &mut y[..indices])
}

// The verdict on two accepted sides with their forms. The shifts are two tests: an edit turns the second alone.
fn judge_pair(kind: SideKind, left: &[u8], right: &[u8], f: &[u8], g: &[u8]) -> Verdict
    requires { FormFor (side_of kind left.now) f.now
        × FormFor (side_of kind right.now) g.now }
    ensures { result ≡ judge_sides (side_of kind left.now)
        (side_of kind right.now) }
{
    let w = record::width(left);
    if w != record::width(right) {
        return refused(Refusal::WidthsDiffer);
    }
    let mut vars = [0u64; JOINT_VARS + 1];
    sides::joint_vars(kind, left, right, &mut vars);
    let n = truth::place_of(expr::vars::NO_VAR, &vars);
    if JOINT_VARS < n {
        return refused(Refusal::Variables);
    }
    if sides::side_shifts(kind, left) {
        return refused(Refusal::ShiftedVariable);
    }
    if sides::side_shifts(kind, right) {
        return refused(Refusal::ShiftedVariable);
    }
    compare_forms(f, g, &vars[..n], w as u32)
}

// The verdict on two semilinear forms.
pub fn judge_forms(left: &[u8], right: &[u8]) -> Verdict
    ensures { result ≡ judge_forms left.now right.now }
{
    if let Err(a) = scan::semilinear_refusal(left) {
        return refused(a);
    }
    if let Err(b) = scan::semilinear_refusal(right) {
        return refused(b);
    }
    judge_pair(SideKind::Form, left, right, left, right)
}

// The verdict on two expressions; f and g are room for their forms.
fn judge_in(left: &[u8], right: &[u8], f: &mut [u8], g: &mut [u8]) -> Verdict
    requires { (length f.old ≡ form_bytes) × (length g.old ≡ form_bytes) }
    ensures { result ≡ judge_of left.now right.now }
{
    let a = match semilinear_normalizer::normalize_to_semilinear(left, f) {
        Ok(a) => a,
        Err(refusal) => return refused(refusal),
    };
    let b = match semilinear_normalizer::normalize_to_semilinear(right, g) {
        Ok(b) => b,
        Err(refusal) => return refused(refusal),
    };
    let m = a.used as usize;
    let n = b.used as usize;
    judge_pair(SideKind::Expression, left, right, &f[..m], &g[..n])
}

// The verdict on two expressions.
pub fn judge(left: &[u8], right: &[u8]) -> Verdict
    ensures { result ≡ judge_of left.now right.now }
{
    let mut f = [0u8; limits::FORM_BYTES];
    let mut g = [0u8; limits::FORM_BYTES];
    judge_in(left, right, &mut f, &mut g)
}
