// The value of an expression under an assignment, at w bits.
ghost use Rattle.std.specs.Prelude.{◌≡◌, ◌^◌, ◌<◌, ◌≤◌, true, [], ◌++◌, length, replicate, slice_index};
ghost use Rattle.record.specs.Span.{sized};
ghost use Rattle.record.specs.Decode.{leaf, decode};
ghost use Rattle.expr.specs.Value.{unary, binary, value};
ghost use Rattle.expr.specs.Walk.{ValueAsks};
ghost use Rattle.record.specs.Fields.{kind};
ghost use Rattle.base.specs.Limits.{record_length};

use record::kinds::Kind;

// Word i of the assignment that is 0 below `from` and has the words of vars from there on.
fn word(vars: &[u64], from: u64, i: u64) -> u64
    ensures { result ≡ slice_index (replicate from 0 ++ vars.now) i }
{
    if i < from {
        return 0;
    }
    vars.get((i - from) as usize).copied().unwrap_or(0)
}

// Not, Neg and Shr by a of x.
#[tactic(auto, unfolding(crate::specs::Value::unary))]
fn unary(w: u32, k: u8, a: u64, x: u64) -> u64
    requires { (w ≤ 64) × (x < 2 ^ w) }
    ensures { result ≡ unary w k a x }
{
    if k == Kind::Not as u8 {
        arith::mod_not(x, w)
    } else if k == Kind::Neg as u8 {
        arith::mod_neg(x, w)
    } else if k == Kind::Shr as u8 {
        arith::mod_shr(x, a, w)
    } else {
        0
    }
}

// Add, Mul, And, Or and Xor of x and y.
#[tactic(auto, unfolding(crate::specs::Value::binary))]
fn binary(w: u32, k: u8, x: u64, y: u64) -> u64
    requires { w ≤ 64 }
    ensures { result ≡ binary w k x y }
{
    if k == Kind::Add as u8 {
        arith::mod_add(x, y, w)
    } else if k == Kind::Mul as u8 {
        arith::mod_mul(x, y, w)
    } else if k == Kind::And as u8 {
        x & y
    } else if k == Kind::Or as u8 {
        x | y
    } else if k == Kind::Xor as u8 {
        x ^ y
    } else {
        0
    }
}

// The value of a root without children.
fn leaf_value(t: &[u8], vars: &[u64], from: u64, w: u32) -> u64
    requires { (record_length ≤ length t.now) × (w ≤ 64) }
    ensures { result ≡ value w (replicate from 0 ++ vars.now) (leaf t.now) }
{
    let mask = arith::bitmask(w);
    if record::kind(t) == Kind::Constant as u8 {
        return record::literal(t) & mask;
    }
    word(vars, from, record::var_index(t)) & mask
}

// The value of the tree that t holds, where the variables below `from` are 0 and variable
// `from + i` is word i.
pub fn value_from(t: &[u8], vars: &[u64], from: u64, w: u32) -> u64
    requires { ValueAsks t.now w }
    ensures { result
        ≡ value w (replicate from 0 ++ vars.now) (decode t.now) }
{
    let children = record::root_arity(t);
    if children == 0 {
        return leaf_value(t, vars, from, w);
    }
    let k = record::kind(t);
    if children == 1 {
        let x = value_from(record::body(t), vars, from, w);
        return unary(w, k, record::amount(t), x);
    }
    let x = value_from(record::left(t), vars, from, w);
    let y = value_from(record::right(t), vars, from, w);
    binary(w, k, x, y)
}

// The value of the tree that t holds.
pub fn value_at(t: &[u8], vars: &[u64], w: u32) -> u64
    requires { (sized t.now ≡ true) × (w ≤ 64) }
    ensures { result ≡ value w vars.now (decode t.now) }
{
    value_from(t, vars, 0, w)
}

// The value of a variable-free tree, at w bits.
pub fn constant_value(t: &[u8], w: u32) -> u64
    requires { (sized t.now ≡ true) × (w ≤ 64) }
    ensures { result ≡ value w [] (decode t.now) }
{
    value_at(t, &[], w)
}
