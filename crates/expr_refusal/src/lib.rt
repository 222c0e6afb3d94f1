// The refusals of an expression file: the lowest that applies to any of its records.
#![tactic(auto)]

ghost use Rattle.std.specs.Prelude.{◌≡◌, ℕ, ◌≤◌, length};
ghost use Rattle.expr_refusal.specs.Refusal.{lowest, uses_byte1, fields_ok, unused, size_ok};
ghost use Rattle.expr_refusal.specs.Refusal.{form_ok, width_ok, root_refusal, tree_refusal, expr_refusal};
ghost use Rattle.base.specs.Limits.{record_length};
ghost use Rattle.base.specs.Refusal.{number_of};

use base::limits;
use base::refusal::Refusal;
use record::kinds::Kind;

// The lower of two refusals, where there are such.
fn lowest(a: Result<(), Refusal>, b: Result<(), Refusal>) -> Result<(), Refusal>
    ensures { number_of result ≡ lowest (number_of a) (number_of b) }
{
    let Err(x) = a else {
        return b;
    };
    let Err(y) = b else {
        return a;
    };
    Err(x.min(y))
}

// Whether the kind k has a use for byte 1.
#[tactic(auto, unfolding(crate::specs::Refusal::uses_byte1))]
fn uses_byte1(k: u8) -> bool
    ensures { result ≡ uses_byte1 k }
{
    k == Kind::Variable as u8 || (k > Kind::Neg as u8 && k < Kind::Concat as u8)
}

// Byte 1 and the literal are 0 where the kind has no use for them.
#[tactic(auto, unfolding(crate::specs::Refusal::fields_ok))]
fn fields_ok(k: u8, a: u8, v: u64) -> bool
    ensures { result ≡ fields_ok k a v }
{
    (k == Kind::Constant as u8 || v == 0) && (uses_byte1(k) || a == 0)
}

// Those of bytes 5 to 7 that the root's kind has no use for. Both numbers are read before the test,
// so that it needs no jump.
#[tactic(auto, unfolding(crate::specs::Refusal::unused))]
fn unused(t: &[u8]) -> u64
    requires { record_length ≤ length t.now }
    ensures { result ≡ unused t.now }
{
    let high = record::spare_high(t);
    let all = record::spare(t);
    if record::kind(t) == Kind::Variable as u8 {
        return high;
    }
    all
}

// The size field of the root is right.
#[tactic(auto, unfolding(crate::specs::Refusal::size_ok))]
fn size_ok(t: &[u8]) -> bool
    requires { record_length ≤ length t.now }
    ensures { result ≡ size_ok t.now }
{
    let n = t.len() as u64;
    record::size(t) * limits::RECORD_LENGTH_U64 == n
        && (record::kind(t) > Kind::Variable as u8 || n == limits::RECORD_LENGTH_U64)
}

// Refusal 3 does not apply to the root.
#[tactic(auto, unfolding(crate::specs::Refusal::form_ok))]
fn form_ok(t: &[u8]) -> bool
    requires { record_length ≤ length t.now }
    ensures { result ≡ form_ok t.now }
{
    let k = record::kind(t);
    k <= Kind::Concat as u8
        && size_ok(t)
        && unused(t) == 0
        && fields_ok(k, record::byte1(t), record::literal(t))
}

// The width v is 1 to 64, and the file's.
#[tactic(auto, unfolding(crate::specs::Refusal::width_ok))]
fn width_ok(w: u8, v: u8) -> bool
    ensures { result ≡ width_ok w v }
{
    v != 0 && v <= 64 && v == w
}

// The lowest refusal that applies to the root, in a file of width w.
#[tactic(auto, unfolding(crate::specs::Refusal::root_refusal))]
pub fn root_refusal(t: &[u8], w: u8) -> Result<(), Refusal>
    requires { record_length ≤ length t.now }
    ensures { number_of result ≡ root_refusal w t.now }
{
    if !form_ok(t) {
        return Err(Refusal::Record);
    }
    if !width_ok(w, record::width(t)) {
        return Err(Refusal::Width);
    }
    let k = record::kind(t);
    if k > Kind::Shr as u8 {
        return Err(Refusal::Cast);
    }
    if k == Kind::Shr as u8 && record::amount(t) > 63 {
        return Err(Refusal::ShiftCount);
    }
    Ok(())
}

// The lowest refusal that applies to a record of the span t, in a file of width w.
pub fn tree_refusal(t: &[u8], w: u8) -> Result<(), Refusal>
    ensures { number_of result ≡ tree_refusal w t.now }
{
    if t.len() < limits::RECORD_LENGTH {
        return Err(Refusal::Record);
    }
    let own = root_refusal(t, w);
    let children = record::root_arity(t);
    if children == 0 {
        return own;
    }
    if children == 1 {
        return lowest(own, tree_refusal(record::body(t), w));
    }
    let first = tree_refusal(record::left(t), w);
    let second = tree_refusal(record::right(t), w);
    lowest(own, lowest(first, second))
}

// The lowest refusal of the expression file t.
#[tactic(auto, unfolding(crate::specs::Refusal::expr_refusal))]
pub fn expr_refusal(t: &[u8]) -> Result<(), Refusal>
    ensures { number_of result ≡ expr_refusal t.now }
{
    let n = t.len();
    if n == 0 || n > limits::EXPR_BYTES || record::odd_bytes(n) != 0 {
        return Err(Refusal::Length);
    }
    tree_refusal(t, record::width(t))
}
