// What the descent asks of every subtree, found in one walk: a mark for each record, the subtree's
// root, in the order of the records. It is 1 where the tree has a variable, and 2 more where it has
// an Add, a Mul or a Neg.
// Kept as a byte: the marks for the copy of rules 2 stand in the result slice, the caller's bytes, so
// that no array more lies below the recursion.
ghost use Rattle.std.specs.Prelude.{◌≡◌, [], ◌∷◌, ◌<◌, ◌≤◌, length};
ghost use Rattle.record.specs.Decode.{leaf, decode};
ghost use Rattle.base.specs.Put.{put};
ghost use Rattle.base.specs.Limits.{record_length};
ghost use Rattle.ways.specs.Marks.{mark_of, root_mark, mark_variable, mark_arith};
ghost use Rattle.ways.specs.Marks.{MarkRoom, Marked};

use base::limits;
use record::kinds::Kind;

// The mark of a root without children.
fn leaf_mark(t: &[u8]) -> u8
    requires { record_length ≤ length t.now }
    ensures { result ≡ mark_of (leaf t.now) }
{
    if record::kind(t) == Kind::Constant as u8 {
        return 0;
    }
    1
}

// The mark of a root of kind k over children whose marks have the bits of m.
#[tactic(auto, unfolding(crate::specs::Marks::root_mark))]
fn root_mark(k: u8, m: u8) -> u8
    ensures { result ≡ root_mark k m }
{
    if expr_utils::is_arith(k) {
        return m | 2;
    }
    m
}

// Whether the mark m is of a tree with a variable.
#[tactic(auto, unfolding(crate::specs::Marks::mark_variable))]
pub fn has_variable(m: u8) -> bool
    ensures { result ≡ mark_variable m }
{
    m % 2 == 1
}

// Whether the mark m is of a tree with an Add, a Mul or a Neg.
#[tactic(auto, unfolding(crate::specs::Marks::mark_arith))]
pub fn has_arith(m: u8) -> bool
    ensures { result ≡ mark_arith m }
{
    1 < m
}

// Puts the mark m at i.
#[tactic(auto, using(crate::proofs::MarksLaws::put_one))]
fn put_mark(m: u8, marks: &mut [u8], i: usize) -> u8
    requires { i < length marks.old }
    ensures { (result ≡ m) × (marks.new ≡ put marks.old i (m ∷ [])) }
{
    marks[i] = m;
    m
}

// Puts the marks of the tree of t into `marks` from `at` on; returns the tree's own.
pub fn mark_traits(t: &[u8], marks: &mut [u8], at: usize) -> u8
    requires { MarkRoom t.now at marks.old }
    ensures { Marked (decode t.now) at marks.old
        marks.new result }
{
    let children = record::root_arity(t);
    if children == 0 {
        let own = leaf_mark(t);
        return put_mark(own, marks, at);
    }
    let k = record::kind(t);
    let last = at + record::number_of(t.len() - limits::RECORD_LENGTH);
    if children == 1 {
        let below = mark_traits(record::body(t), marks, at);
        let own = root_mark(k, below);
        return put_mark(own, marks, last);
    }
    let first = mark_traits(record::left(t), marks, at);
    let middle = at + record::number_of(record::cut(t));
    let second = mark_traits(record::right(t), marks, middle);
    let own = root_mark(k, first | second);
    put_mark(own, marks, last)
}
