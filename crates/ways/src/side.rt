// Where the descent stands in the file and where it can go on from there.
ghost use Rattle.std.specs.Prelude.{◌≡◌, true, false, ◌+◌, ◌-◌, ◌*◌, ◌≤◌, length};
ghost use Rattle.arith.specs.Width.{mod_neg};
ghost use Rattle.record.specs.Fields.{kind};
ghost use Rattle.ways.specs.Spans.{span_of};
ghost use Rattle.ways.specs.Sides.{tree_at, AtSpot, AtRoot, is_binary, left_of};
ghost use Rattle.ways.specs.Sides.{right_of, left_side, TwoSides, right_side, SideOf};
ghost use Rattle.ways.specs.Sides.{Places, is_turned, WayOf, WayDown};
ghost use Rattle.base.specs.Limits.{record_length};

use crate::marks;
use base::limits;
use record::kinds::Kind;

// A coefficient, and the bytes of the file that hold a subtree: places and no tree, since the file is lent bytes and a
// tree of its own would need a heap. It, file, marks and w stay parameters of their own below: a struct of them would
// stand in each frame of the descent.
#[derive(Clone, Copy)]
pub struct Spot {
    pub coeff: u64,
    pub start: usize,
    pub end: usize,
}

// The side of a root with two children that has a variable, where the other side has none: its
// bytes, its marks, and the other side's value.
#[derive(Clone, Copy)]
pub struct Side {
    pub start: usize,
    pub end: usize,
    pub from: usize,
    pub to: usize,
    pub value: u64,
}

// Where the descent goes on from a root.
#[derive(Clone, Copy)]
pub enum Way {
    // Nowhere.
    End,
    // To one child with this coefficient, which is added as a constant too where a Not is turned.
    Child {
        coeff: u64,
        turned: bool,
        child: Side,
    },
    // With the same coefficient first to the left side of a sum, then to the right one; or to the
    // child and then to the And of it and a literal.
    Both(Side),
}

// The bytes of the file from start to end.
#[tactic(auto, unfolding(crate::specs::Spans::span_of))]
pub fn span_of(file: &[u8], start: usize, end: usize) -> &[u8]
    requires { (start ≤ end) × (end ≤ length file.now) }
    ensures { result.now ≡ span_of file.now start end }
{
    &file[start..end]
}

// The left child of a root with two children, and its marks.
pub fn left_side(x: Spot, file: &[u8]) -> Side
    requires { TwoSides file.now x }
    ensures { (result ≡ left_side file.now x) × Places x.start result }
{
    let t = span_of(file, x.start, x.end);
    let cut = record::cut(t);
    Side {
        start: x.start,
        end: x.start + cut,
        from: 0,
        to: record::number_of(cut),
        value: 0,
    }
}

// The right child, and its marks.
pub fn right_side(x: Spot, file: &[u8], marks: &[u8]) -> Side
    requires { TwoSides file.now x × (x.start + record_length * length marks.now ≡ x.end) }
    ensures { (result ≡ right_side file.now marks.now x) × Places x.start result }
{
    let t = span_of(file, x.start, x.end);
    let cut = record::cut(t);
    Side {
        start: x.start + cut,
        end: x.end - limits::RECORD_LENGTH,
        from: record::number_of(cut),
        to: marks.len() - 1,
        value: 0,
    }
}

// A side under a coefficient.
pub fn side_spot(coeff: u64, side: Side) -> Spot
    ensures { result ≡ record { coeff = coeff; start = side.start; end = side.end } }
{
    Spot {
        coeff,
        start: side.start,
        end: side.end,
    }
}

// The side of a root with two children that alone has a variable.
pub fn side_of(x: Spot, file: &[u8], marks: &[u8], w: u32) -> Option<Side>
    requires { AtSpot w file.now marks.now x × (w ≤ 64)
        × (is_binary (tree_at file.now x) ≡ true) }
    ensures { SideOf w file.now marks.now x.start
        (left_of (tree_at file.now x)) (right_of (tree_at file.now x)) result }
{
    let start = x.start;
    let end = x.end;
    let t = &file[start..end];
    let cut = record::cut(t);
    let middle = start + cut;
    let number = record::number_of(cut);
    let last = marks.len() - 1;
    if !marks::has_variable(marks[number - 1]) {
        let value = expr::value::constant_value(record::left(t), w);
        return Some(Side {
            start: middle,
            end: end - limits::RECORD_LENGTH,
            from: number,
            to: last,
            value,
        });
    }
    if marks::has_variable(marks[last - 1]) {
        return None;
    }
    let value = expr::value::constant_value(record::right(t), w);
    Some(Side {
        start,
        end: middle,
        from: 0,
        to: number,
        value,
    })
}

// The way on from a Neg, or from a Not that is turned: to its child.
fn way_neg(x: Spot, marks: &[u8], turned: bool, w: u32) -> Way
    requires { (record_length ≤ x.end) × (1 ≤ length marks.now) }
    ensures { result ≡ Way.Child (mod_neg x.coeff w) turned record {
      start = x.start;
      end = x.end - record_length;
      from = 0;
      to = length marks.now - 1;
      value = 0;
    } }
{
    let last = marks.len() - 1;
    let child = Side {
        start: x.start,
        end: x.end - limits::RECORD_LENGTH,
        from: 0,
        to: last,
        value: 0,
    };
    Way::Child {
        coeff: arith::mod_neg(x.coeff, w),
        turned,
        child,
    }
}

// Whether the rule for Not is taken at a root of kind k and of the mark m.
#[tactic(auto, unfolding(crate::specs::Sides::is_turned, crate::specs::Marks::mark_arith))]
fn is_turned(nots: bool, k: u8, m: u8) -> bool
    ensures { result ≡ is_turned nots k m }
{
    nots && k == Kind::Not as u8 && marks::has_arith(m)
}

// The way on from a root with two children that is no Add: a product by a constant, or an Or or
// Xor with one.
fn way_two(x: Spot, k: u8, file: &[u8], marks: &[u8], nots: bool, w: u32) -> Way
    requires { AtRoot w file.now marks.now x k × (is_binary (tree_at file.now x) ≡ true) }
    ensures { WayOf nots w file.now marks.now x.start k x.coeff
        (tree_at file.now x) result }
{
    if k == Kind::Mul as u8 {
        return match side_of(x, file, marks, w) {
            Some(child) => Way::Child {
                coeff: arith::mod_mul(x.coeff, child.value, w),
                turned: false,
                child,
            },
            None => Way::End,
        };
    }
    if k == Kind::And as u8 || marks::has_arith(marks[marks.len() - 1]) {
        return Way::End;
    }
    match side_of(x, file, marks, w) {
        Some(child) => Way::Both(child),
        None => Way::End,
    }
}

// The way on from a root with a variable that is no Add; `nots` says that the rule for Not holds.
pub fn way_on(x: Spot, file: &[u8], marks: &[u8], nots: bool, w: u32) -> Way
    requires { AtRoot w file.now marks.now x (kind (span_of file.now x.start x.end)) }
    ensures { WayOf nots w file.now marks.now x.start
        (kind (span_of file.now x.start x.end)) x.coeff
        (tree_at file.now x) result }
{
    let t = &file[x.start..x.end];
    let k = record::kind(t);
    if k == Kind::Neg as u8 {
        return way_neg(x, marks, false, w);
    }
    if is_turned(nots, k, marks[marks.len() - 1]) {
        return way_neg(x, marks, true, w);
    }
    if record::root_arity(t) != 2 {
        return Way::End;
    }
    way_two(x, k, file, marks, nots, w)
}

// The way on from any root: none under the coefficient 0 or without a variable, the left side of an
// Add, and of another root as above.
pub fn way_down(x: Spot, file: &[u8], marks: &[u8], nots: bool, w: u32) -> Way
    requires { AtSpot w file.now marks.now x × (w ≤ 64) }
    ensures { WayDown nots w file.now marks.now x result }
{
    if x.coeff == 0 || !marks::has_variable(marks[marks.len() - 1]) {
        return Way::End;
    }
    if record::kind(span_of(file, x.start, x.end)) == Kind::Add as u8 {
        return Way::Both(left_side(x, file));
    }
    way_on(x, file, marks, nots, w)
}
