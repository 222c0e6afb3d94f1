// Tests of a tree, found together in one walk.
#![tactic(auto)]

ghost use Rattle.std.specs.Prelude.{◌≡◌, true, ◌≤◌, length};
ghost use Rattle.record.specs.Span.{sized};
ghost use Rattle.record.specs.Decode.{leaf, decode};
ghost use Rattle.expr_utils.specs.Utils.{is_arith, is_constant_subtree, has_var_dep};
ghost use Rattle.expr_utils.specs.Utils.{traits_of, join_traits, node_traits};
ghost use Rattle.base.specs.Limits.{record_length};

use record::kinds::Kind;

// What a tree holds: a variable, a literal, a Shr.
#[derive(Drop)]
pub struct Traits {
    pub variable: bool,
    pub literal: bool,
    pub shr: bool,
}

// Whether a kind is Add, Mul or Neg.
#[tactic(auto, unfolding(crate::specs::Utils::is_arith))]
pub fn is_arith(k: u8) -> bool
    ensures { result ≡ is_arith k }
{
    k == Kind::Add as u8 || k == Kind::Mul as u8 || k == Kind::Neg as u8
}

// What two children hold together.
#[tactic(auto, unfolding(crate::specs::Utils::join_traits))]
fn join_traits(x: Traits, y: Traits) -> Traits
    ensures { result ≡ join_traits x y }
{
    Traits {
        variable: x.variable || y.variable,
        literal: x.literal || y.literal,
        shr: x.shr || y.shr,
    }
}

// What a root of kind k adds to what its children hold.
#[tactic(auto, unfolding(crate::specs::Utils::node_traits))]
fn node_traits(k: u8, x: Traits) -> Traits
    ensures { result ≡ node_traits k x }
{
    Traits {
        shr: k == Kind::Shr as u8 || x.shr,
        ..x
    }
}

// What a root without children holds.
#[tactic(auto, using(crate::proofs::UtilsLaws::traits_leaf))]
fn leaf_traits(t: &[u8]) -> Traits
    requires { record_length ≤ length t.now }
    ensures { result ≡ traits_of (leaf t.now) }
{
    let literal = record::kind(t) == Kind::Constant as u8;
    Traits {
        variable: !literal,
        literal,
        shr: false,
    }
}

// What the tree of t holds.
pub fn traits_of(t: &[u8]) -> Traits
    requires { sized t.now ≡ true }
    ensures { result ≡ traits_of (decode t.now) }
{
    let children = record::root_arity(t);
    if children == 0 {
        return leaf_traits(t);
    }
    let k = record::kind(t);
    if children == 1 {
        return node_traits(k, traits_of(record::body(t)));
    }
    let first = traits_of(record::left(t));
    let second = traits_of(record::right(t));
    node_traits(k, join_traits(first, second))
}

// Whether the tree of t has no variable.
#[tactic(auto, unfolding(crate::specs::Utils::traits_of))]
pub fn is_constant_subtree(t: &[u8]) -> bool
    requires { sized t.now ≡ true }
    ensures { result ≡ is_constant_subtree (decode t.now) }
{
    !traits_of(t).variable
}

// Whether the tree of t has a variable.
#[tactic(auto, unfolding(crate::specs::Utils::traits_of))]
pub fn has_var_dep(t: &[u8]) -> bool
    requires { sized t.now ≡ true }
    ensures { result ≡ has_var_dep (decode t.now) }
{
    traits_of(t).variable
}
