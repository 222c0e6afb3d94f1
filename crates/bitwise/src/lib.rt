// One walk of a tree that should have no Add, Mul and Neg: its refusals, its variables and its hash
// together.
#![tactic(auto)]

ghost use Rattle.std.specs.Prelude.{◌≡◌, true, ℕ, ◌≤◌, length};
ghost use Rattle.bitwise.specs.Bitwise.{root_ok, last_child, leaf_checked, one_checked};
ghost use Rattle.bitwise.specs.Bitwise.{two_checked, checked};
ghost use Rattle.base.specs.Limits.{record_length};

use base::limits;
use expr::hash;
use record::kinds::Kind;

// Of a tree without Add, Mul and Neg to which no refusal applies: whether it has a variable, and its
// hash.
#[derive(Drop)]
pub struct Checked {
    pub variable: bool,
    pub hash: u64,
}

// Whether no refusal applies to the root, which is no Add, Mul or Neg.
fn root_ok(t: &[u8], w: u8) -> bool
    requires { record_length ≤ length t.now }
    ensures { result ≡ root_ok w t.now }
{
    expr_refusal::root_refusal(t, w).is_ok() && !expr_utils::is_arith(record::kind(t))
}

// A root without children.
#[tactic(auto, unfolding(crate::specs::Bitwise::leaf_checked))]
fn leaf_checked(t: &[u8]) -> Checked
    requires { record_length ≤ length t.now }
    ensures { result ≡ leaf_checked t.now }
{
    Checked {
        variable: record::kind(t) == Kind::Variable as u8,
        hash: hash::leaf_hash(t),
    }
}

// A root of kind k over one child.
#[tactic(auto, unfolding(crate::specs::Bitwise::one_checked))]
fn one_checked(k: u8, a: u64, x: Checked) -> Checked
    ensures { result ≡ one_checked k a x }
{
    Checked {
        variable: x.variable,
        hash: hash::mix_hash(hash::tag_hash(k, a), x.hash),
    }
}

// A root of kind k over two children.
#[tactic(auto, unfolding(crate::specs::Bitwise::two_checked))]
fn two_checked(k: u8, x: Checked, y: Checked) -> Checked
    ensures { result ≡ two_checked k x y }
{
    let first = hash::mix_hash(k as u64, x.hash);
    Checked {
        variable: x.variable || y.variable,
        hash: hash::mix_hash(first, y.hash),
    }
}

// The span of the only child, or of the right one: one place for both, so that a level of the walk
// takes less stack.
fn last_child(t: &[u8]) -> &[u8]
    requires { record_length ≤ length t.now }
    ensures { result.now ≡ last_child t.now }
{
    if record::root_arity(t) == 1 {
        return record::body(t);
    }
    record::right(t)
}

// The tree of t at width w; `None` where a refusal applies to it, or it has an Add, Mul or Neg.
pub fn check_bitwise(t: &[u8], w: u8) -> Option<Checked>
    ensures { result ≡ checked w t.now }
{
    if t.len() < limits::RECORD_LENGTH || !root_ok(t, w) {
        return None;
    }
    let children = record::root_arity(t);
    if children == 0 {
        return Some(leaf_checked(t));
    }
    let last = check_bitwise(last_child(t), w)?;
    let k = record::kind(t);
    if children == 1 {
        return Some(one_checked(k, record::amount(t), last));
    }
    let first = check_bitwise(record::left(t), w)?;
    Some(two_checked(k, first, last))
}
