// The descent: what an expression comes to as a constant and weighted atoms, in the order in which
// the Rust makes them, or that it is not linear. An atom is named by the bytes of the file that
// hold its tree; one that the descent makes itself is a subtree of the file and a literal.
ghost use Rattle.std.specs.Prelude.{◌≡◌, true, false, ◌+◌, ◌*◌, ◌^◌, ◌<◌, ◌≤◌, length};
ghost use Rattle.arith.specs.Width.{mod_add, mod_mul, mod_neg};
ghost use Rattle.record.specs.Tree.{size_of};
ghost use Rattle.record.specs.Tree.Tree.{Constant};
ghost use Rattle.normalizer_laws.specs.Collect.{collect_and, and_coeff};
ghost use Rattle.rules_laws.specs.Descend.{descend};
ghost use Rattle.descent.specs.Spots.{Collects, Pushed, Ready, AtEnd, BesideLiteral};
ghost use Rattle.descent.specs.Spots.{turn_by, collect_end, not_atom};
ghost use Rattle.ways.specs.Sides.{tree_at, AtSpot, side_tree, left_of};
ghost use Rattle.ways.specs.Sides.{right_of, IsAnd, collect_whole};
ghost use Rattle.ways.specs.Sides.{collect_literal};

use base::limits;
use record::kinds::Kind;
use ways::side::{Side, Spot, Way};
use ways::{marks, side};

// One atom: the subtree of a spot under the spot's coefficient, or the And of that and a literal.
#[derive(Clone, Copy)]
pub struct Atom {
    pub spot: Spot,
    pub literal: Option<u64>,
}

// A descent on its way, all linear so far: the constant, and how many atoms there are.
#[derive(Clone, Copy)]
pub struct Descent {
    pub constant: u64,
    pub count: usize,
}

// The coefficient of x & k beside x and k: -2c of an Xor, -c of an Or.
fn and_coeff(k: u8, c: u64, w: u32) -> u64
    ensures { result ≡ and_coeff w k c }
{
    if k == Kind::Xor as u8 {
        return arith::mod_neg(arith::mod_mul(c, 2, w), w);
    }
    arith::mod_neg(c, w)
}

impl Atom {
    // An atom of nothing, for places where none stands.
    pub const NONE: Self = Self {
        spot: Spot {
            coeff: 0,
            start: 0,
            end: 0,
        },
        literal: None,
    };
}

impl Descent {
    // Nothing yet.
    pub fn start() -> Self
        ensures { result ≡ record { constant = 0; count = 0 } }
    {
        Self {
            constant: 0,
            count: 0,
        }
    }

    // c times v is added to the constant.
    fn add_constant(mut self, c: u64, v: u64, w: u32) -> Self
        ensures { result ≡ record {
          constant = mod_add self.constant (mod_mul c v w) w;
          count = self.count;
        } }
    {
        self.constant = arith::mod_add(self.constant, arith::mod_mul(c, v, w), w);
        self
    }

    // One atom more: the subtree of a spot, alone or with a literal.
    fn push_spot(mut self, spot: Spot, literal: Option<u64>, spots: &mut [Atom]) -> Self
        requires { self.count < length spots.old }
        ensures { Pushed self.constant (record { spot = spot; literal = literal })
            spots.old self spots.new result }
    {
        spots[self.count] = Atom { spot, literal };
        self.count += 1;
        self
    }

    // ~x & v is v less x & v; x is what stands from start to end.
    fn collect_not(
        self,
        c: u64,
        start: usize,
        end: usize,
        v: u64,
        w: u32,
        spots: &mut [Atom],
    ) -> Self
        requires { self.count < length spots.old }
        ensures { Pushed (mod_add self.constant (mod_mul c v w) w)
            (not_atom w c start end v) spots.old self spots.new result }
    {
        let inner = Spot {
            coeff: arith::mod_neg(c, w),
            start,
            end,
        };
        self.add_constant(c, v, w).push_spot(inner, Some(v), spots)
    }

    // An And without Add, Mul and Neg, with a variable.
    fn collect_and(self, x: Spot, file: &[u8], marks: &[u8], w: u32, spots: &mut [Atom]) -> Self
        requires { AtEnd w file.now marks.now x spots.old self
            × IsAnd (tree_at file.now x) }
        ensures { Collects w file.now 1
            (collect_and w x.coeff (left_of (tree_at file.now x))
            (right_of (tree_at file.now x)))
            spots.old self spots.new (Some result) }
    {
        let Some(side) = side::side_of(x, file, marks, w) else {
            return self.push_spot(x, None, spots);
        };
        let start = side.start;
        let end = side.end;
        if record::kind(side::span_of(file, start, end)) != Kind::Not as u8 {
            return self.push_spot(x, None, spots);
        }
        self.collect_not(
            x.coeff,
            start,
            end - limits::RECORD_LENGTH,
            side.value,
            w,
            spots,
        )
    }

    // The And of the subtree of x and the literal v, which the descent makes.
    fn collect_literal_and(self, x: Spot, v: u64, file: &[u8], w: u32, spots: &mut [Atom]) -> Self
        requires { BesideLiteral w file.now x.start x.end v spots.old self }
        ensures { Collects w file.now 1
            (collect_and w x.coeff (tree_at file.now x) (Constant v))
            spots.old self spots.new (Some result) }
    {
        if x.coeff == 0 {
            return self;
        }
        let start = x.start;
        let end = x.end;
        if record::kind(&file[start..end]) != Kind::Not as u8 {
            return self.push_spot(x, Some(v), spots);
        }
        self.collect_not(x.coeff, start, end - limits::RECORD_LENGTH, v, w, spots)
    }

    // What x ^ v and x | v have beside x, for an Or or Xor of kind k with coefficient c.
    fn collect_masked(
        self,
        k: u8,
        c: u64,
        side: Side,
        file: &[u8],
        w: u32,
        spots: &mut [Atom],
    ) -> Self
        requires { BesideLiteral w file.now side.start side.end side.value
            spots.old self }
        ensures { Collects w file.now 1
            (collect_literal w k c (side_tree file.now side) side.value)
            spots.old self spots.new (Some result) }
    {
        let v = side.value;
        let x = Spot {
            coeff: and_coeff(k, c, w),
            start: side.start,
            end: side.end,
        };
        self.add_constant(c, v, w)
            .collect_literal_and(x, v, file, w, spots)
    }

    // A tree with a variable where the descent ends: not linear, or an atom.
    fn collect_whole(
        self,
        x: Spot,
        file: &[u8],
        marks: &[u8],
        w: u32,
        spots: &mut [Atom],
    ) -> Option<Self>
        requires { AtEnd w file.now marks.now x spots.old self }
        ensures { Collects w file.now 1
            (collect_whole w x.coeff (tree_at file.now x))
            spots.old self spots.new result }
    {
        if marks::has_arith(marks[marks.len() - 1]) {
            return None;
        }
        if record::kind(&file[x.start..x.end]) == Kind::And as u8 {
            return Some(self.collect_and(x, file, marks, w, spots));
        }
        Some(self.push_spot(x, None, spots))
    }

    // Where the descent ends: nothing under the coefficient 0, the value of a tree without a
    // variable, or the tree as it stands.
    fn collect_end(
        self,
        x: Spot,
        file: &[u8],
        marks: &[u8],
        w: u32,
        spots: &mut [Atom],
    ) -> Option<Self>
        requires { AtSpot w file.now marks.now x
            × Ready w (size_of (tree_at file.now x)) spots.old self }
        ensures { Collects w file.now (size_of (tree_at file.now x))
            (collect_end w x.coeff (tree_at file.now x))
            spots.old self spots.new result }
    {
        if x.coeff == 0 {
            return Some(self);
        }
        if !marks::has_variable(marks[marks.len() - 1]) {
            let t = side::span_of(file, x.start, x.end);
            return Some(self.add_constant(x.coeff, expr::value::constant_value(t, w), w));
        }
        self.collect_whole(x, file, marks, w, spots)
    }

    // From a Not that is turned, -e - 1: the coefficient c, that of e, is added to the constant.
    fn turn(mut self, turned: bool, c: u64, w: u32) -> Self
        ensures { result ≡ turn_by turned c w self }
    {
        if turned {
            self.constant = arith::mod_add(self.constant, c, w);
        }
        self
    }

    // What the subtree of x comes to, times its coefficient, added to what was collected before it,
    // or None where it is not linear; with `nots` a Not over an Add, Mul or Neg is turned.
    // The loop goes below a Neg and a product by a constant, and to the right side of a sum. The
    // left side of a sum, and what stands in an Or or Xor beside a literal, are calls; they are one
    // call in the code, since each has its own arguments in the frame.
    // Kept as parameters of their own: on the way the spot and its marks change, the file and the
    // width do not, and a struct of them all would be made anew in the frame at each step.
    // Corresponds to `collect_terms`.
    pub fn collect_terms(
        self,
        x: Spot,
        file: &[u8],
        marks: &[u8],
        nots: bool,
        w: u32,
        spots: &mut [Atom],
    ) -> Option<Self>
        requires { AtSpot w file.now marks.now x
            × Ready w (size_of (tree_at file.now x)) spots.old self }
        ensures { Collects w file.now (size_of (tree_at file.now x))
            (descend nots w x.coeff (tree_at file.now x))
            spots.old self spots.new result }
    {
        let mut done = self;
        let mut here = x;
        let mut seen = marks;
        loop {
            let first = match side::way_down(here, file, seen, nots, w) {
                Way::End => return done.collect_end(here, file, seen, w, spots),
                Way::Child {
                    coeff,
                    turned,
                    child,
                } => {
                    done = done.turn(turned, coeff, w);
                    here = side::side_spot(coeff, child);
                    seen = &seen[child.from..child.to];
                    continue;
                }
                Way::Both(first) => first,
            };
            let next = side::side_spot(here.coeff, first);
            done = done.collect_terms(next, file, &seen[first.from..first.to], nots, w, spots)?;
            let k = record::kind(side::span_of(file, here.start, here.end));
            if k != Kind::Add as u8 {
                return Some(done.collect_masked(k, here.coeff, first, file, w, spots));
            }
            let right = side::right_side(here, file, seen);
            here = side::side_spot(here.coeff, right);
            seen = &seen[right.from..right.to];
        }
    }
}
