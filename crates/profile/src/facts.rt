// What the columns ask of a tree: whether it has a shift, and the edges of its literals. Two walks,
// since a level of a walk that returns one scalar takes less stack than one that returns both.
ghost use Rattle.std.specs.Prelude.{◌≡◌, true, not, ◌&&◌, ◌||◌, ℕ, ◌≤◌, eqb, length};
ghost use Rattle.record.specs.Span.{sized};
ghost use Rattle.record.specs.Decode.{leaf, decode};
ghost use Rattle.truth.specs.Truth.{has_shift};
ghost use Rattle.profile.specs.Edges.{edges_of};
ghost use Rattle.base.specs.Limits.{record_length};

use record::kinds::Kind;

// Whether a root of kind k with one child is a shift by an amount other than 0, or x holds.
fn node_shift(k: u8, amount: u64, x: bool) -> bool
    ensures { result ≡ (eqb k 9 && not (eqb amount 0)) || x }
{
    (k == Kind::Shr as u8 && amount != 0) || x
}

// Whether the tree of t has a shift by an amount other than 0.
pub fn has_shift(t: &[u8]) -> bool
    requires { sized t.now ≡ true }
    ensures { result ≡ has_shift (decode t.now) }
{
    let children = record::root_arity(t);
    if children == 0 {
        return false;
    }
    if children == 1 {
        let x = has_shift(record::body(t));
        return node_shift(record::kind(t), record::amount(t), x);
    }
    has_shift(record::left(t)) || has_shift(record::right(t))
}

// The edges of a root without children.
fn leaf_edges(t: &[u8]) -> u64
    requires { record_length ≤ length t.now }
    ensures { result ≡ edges_of (leaf t.now) }
{
    if record::kind(t) == Kind::Constant as u8 {
        let v = record::literal(t);
        return v ^ (v << 1);
    }
    0
}

// At which places p above 0 a literal of the tree of t has unlike bits at p and p - 1.
pub fn edges_of(t: &[u8]) -> u64
    requires { sized t.now ≡ true }
    ensures { result ≡ edges_of (decode t.now) }
{
    let children = record::root_arity(t);
    if children == 0 {
        return leaf_edges(t);
    }
    if children == 1 {
        return edges_of(record::body(t));
    }
    let x = edges_of(record::left(t));
    let y = edges_of(record::right(t));
    x | y
}
