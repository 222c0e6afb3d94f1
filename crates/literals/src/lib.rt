// The variable-free subtrees below a bitwise operator as literals (rules 2): the tree of a file
// written anew, by the marks of its records.
#![tactic(auto)]

ghost use Rattle.std.specs.Prelude.{◌≡◌, not, ◌&&◌};
ghost use Rattle.record.specs.Decode.{decode};
ghost use Rattle.ways.specs.Marks.{mark_variable};
ghost use Rattle.rules_laws.specs.Rules.{is_bitwise};
ghost use Rattle.literals.specs.Folding.{FoldRoom, Folded, RootRoom, RootPut};

use base::{limits, write};
use expr::value;
use record::kinds::Kind;
use ways::marks;

// And, Or, Xor and Not.
#[tactic(auto, unfolding(rules_laws::specs::Rules::is_bitwise))]
fn is_bitwise(k: u8) -> bool
    ensures { result ≡ is_bitwise k }
{
    Kind::And as u8 <= k && k <= Kind::Not as u8
}

// Whether a tree of the mark m becomes a literal: below a bitwise operator, without a variable.
fn is_literal(below: bool, m: u8) -> bool
    ensures { result ≡ below && not (mark_variable m) }
{
    if !below {
        return false;
    }
    !marks::has_variable(m)
}

// Puts the root of kind k behind its children, which stand from `at` to `end`; returns its end.
fn put_root(k: u8, a: u8, at: usize, end: usize, w: u8, out: &mut [u8]) -> usize
    requires { RootRoom at end out.old }
    ensures { RootPut k a at end w out.old out.new result }
{
    let n = record::number_of(end - at) + 1;
    record::write::put_record(out, end, k, a, n as u64, w, 0);
    end + limits::RECORD_LENGTH
}

// Puts the tree of t into `out` from `at` on, with its literals folded, and returns where it ends;
// `below` says that a bitwise operator stands above.
pub fn fold_literals(t: &[u8], marks: &[u8], below: bool, w: u8, out: &mut [u8], at: usize) -> usize
    requires { FoldRoom w t.now marks.now at out.old }
    ensures { Folded w below (decode t.now) at out.old
        out.new result }
{
    let last = marks.len() - 1;
    if is_literal(below, marks[last]) {
        let v = value::constant_value(t, w as u32);
        record::write::put_record(out, at, Kind::Constant as u8, 0, 1, w, v);
        return at + limits::RECORD_LENGTH;
    }
    let children = record::root_arity(t);
    if children == 0 {
        write::put(out, at, t);
        return at + limits::RECORD_LENGTH;
    }
    let deeper = below | is_bitwise(record::kind(t));
    // Each call in the code has its own arguments in the frame, so the only child is folded by the
    // call for the right one of two: it is one before which no record stands. What t tells is read
    // again behind a call, since what is kept over it is in the frame too.
    let mut middle = at;
    if children == 2 {
        let number = record::number_of(record::cut(t));
        middle = fold_literals(record::left(t), &marks[..number], deeper, w, out, at);
    }
    let number = record::number_of(record::cut(t));
    let end = fold_literals(
        record::right(t),
        &marks[number..last],
        deeper,
        w,
        out,
        middle,
    );
    put_root(record::kind(t), record::byte1(t), at, end, w, out)
}
