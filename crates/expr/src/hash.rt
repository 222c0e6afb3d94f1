// The structural hash of an expression, as the Rust's, over uncut literals.
ghost use Rattle.std.specs.Prelude.{◌≡◌, ℕ, ◌^◌, ◌<◌, ◌≤◌, true, length};
ghost use Rattle.record.specs.Span.{sized};
ghost use Rattle.record.specs.Decode.{leaf, decode};
ghost use Rattle.expr.specs.Hash.{mix_hash, tag_hash, var_hash, structural_hash};
ghost use Rattle.base.specs.Limits.{record_length, var_limit};

use record::kinds::Kind;

// A hash with a child's hash x joined to it.
pub fn mix_hash(h: u64, x: u64) -> u64
    ensures { result ≡ mix_hash h x }
{
    let seeded = x.wrapping_add(0x9E37_79B9_7F4A_7C15);
    h ^ seeded.wrapping_add(h << 6).wrapping_add(h >> 2)
}

// A kind's tag with its literal, shift count or cast width.
#[tactic(auto, unfolding(crate::specs::Hash::tag_hash, arith::specs::Width::wrapping_mul))]
pub fn tag_hash(k: u8, v: u64) -> u64
    ensures { result ≡ tag_hash k v }
{
    u64::from(k) ^ arith::wrapping_mul(v, 0x9E37_79B9_7F4A_7C15)
}

// The hash of the variable i.
#[tactic(auto, unfolding(crate::specs::Hash::var_hash, arith::specs::Width::wrapping_mul))]
fn var_hash(i: u64) -> u64
    requires { i < var_limit }
    ensures { result ≡ var_hash i }
{
    1 ^ arith::wrapping_mul(i + 1, 0x517C_C1B7_2722_0A95)
}

// The hash of a root without children.
pub fn leaf_hash(t: &[u8]) -> u64
    requires { record_length ≤ length t.now }
    ensures { result ≡ structural_hash (leaf t.now) }
{
    if record::kind(t) == Kind::Constant as u8 {
        return tag_hash(0, record::literal(t));
    }
    var_hash(record::var_index(t))
}

// The structural hash of the tree that t holds.
pub fn structural_hash(t: &[u8]) -> u64
    requires { sized t.now ≡ true }
    ensures { result ≡ structural_hash (decode t.now) }
{
    let children = record::root_arity(t);
    if children == 0 {
        return leaf_hash(t);
    }
    let k = record::kind(t);
    if children == 1 {
        let x = structural_hash(record::body(t));
        return mix_hash(tag_hash(k, record::amount(t)), x);
    }
    let x = structural_hash(record::left(t));
    let y = structural_hash(record::right(t));
    mix_hash(mix_hash(u64::from(k), x), y)
}

// The hash of the And of a tree with the hash h and the literal m.
pub fn masked_hash(h: u64, m: u64) -> u64
    ensures { result ≡ mix_hash (mix_hash 4 h) (tag_hash 0 m) }
{
    mix_hash(mix_hash(4, h), tag_hash(0, m))
}
