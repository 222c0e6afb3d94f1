// An atom seen as `basis & mask`.
#![tactic(auto)]

ghost use Rattle.std.specs.Prelude.{◌≡◌, true, ◌≤◌};
ghost use Rattle.record.specs.Span.{left, right, sized};
ghost use Rattle.record.specs.Fields.{kind};
ghost use Rattle.record.specs.Decode.{decode};
ghost use Rattle.expr_utils.specs.Utils.{has_var_dep};
ghost use Rattle.decompose.specs.Basis.{free_side, IsDecomposed, Part, Splits};

use base::limits;
use expr::value;
use record::kinds::Kind;

// Where the basis stands in the atom's tree, and the mask.
#[derive(Clone, Copy)]
pub struct Basis {
    pub start: usize,
    pub end: usize,
    pub mask: u64,
}

#[derive(Clone, Copy)]
pub enum Side {
    Left,
    Right,
}

// The side of an And with a variable that has none. The shorter is walked first, and where it has none
// the longer is not walked: so a split in many steps takes a time that is linear in the records.
fn free_side(t: &[u8]) -> Option<Side>
    requires { (sized t.now ≡ true) × (kind t.now ≡ 4) × (has_var_dep (decode t.now) ≡ true) }
    ensures { result ≡ free_side (decode (left t.now)) (decode (right t.now)) }
{
    let l = record::left(t);
    let r = record::right(t);
    if l.len() < r.len() {
        if expr_utils::is_constant_subtree(l) {
            return Some(Side::Left);
        }
        if expr_utils::is_constant_subtree(r) {
            return Some(Side::Right);
        }
        return None;
    }
    if expr_utils::is_constant_subtree(r) {
        return Some(Side::Right);
    }
    if expr_utils::is_constant_subtree(l) {
        return Some(Side::Left);
    }
    None
}

// One mask more, where the part of x is an And with one variable-free side.
fn split(t: &[u8], x: Basis, w: u32) -> Option<Basis>
    requires { (w ≤ 64) × Part w t.now x }
    ensures { Splits w t.now x result }
{
    let b = &t[x.start..x.end];
    if record::kind(b) != Kind::And as u8 {
        return None;
    }
    let cut = x.start + record::cut(b);
    match free_side(b)? {
        Side::Left => Some(Basis {
            start: cut,
            end: x.end - limits::RECORD_LENGTH,
            mask: x.mask & value::constant_value(record::left(b), w),
        }),
        Side::Right => Some(Basis {
            start: x.start,
            end: cut,
            mask: x.mask & value::constant_value(record::right(b), w),
        }),
    }
}

// The view of the tree of t, which has a variable, if it has one: the split goes on while the basis is
// an And with one variable-free side, and joins the masks. A variable is its own basis under the full
// mask.
pub fn decompose_atom(t: &[u8], w: u32) -> Option<Basis>
    requires { (sized t.now ≡ true) × (w ≤ 64) × (has_var_dep (decode t.now) ≡ true) }
    ensures { IsDecomposed w t.now result }
{
    let whole = Basis {
        start: 0,
        end: t.len(),
        mask: arith::bitmask(w),
    };
    if record::kind(t) == Kind::Variable as u8 {
        return Some(whole);
    }
    let mut x = split(t, whole, w)?;
    while let Some(next) = split(t, x, w) {
        x = next;
    }
    Some(x)
}
