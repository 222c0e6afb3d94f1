// Tests on one entry at a time.
ghost use Rattle.std.specs.Prelude.{◌≡◌, false, ℕ, ◌<◌, ◌≤◌, length, get_or};
ghost use Rattle.entries.specs.Marks.{blank, is_live};
ghost use Rattle.entries.specs.Tests.{cut_of, drops_of, becomes_minus_one};

use crate::{Entry, Mark};

impl Entry {
    // Whether the entry is neither joined to another nor dropped.
    #[tactic(auto, unfolding(crate::specs::Marks::is_live))]
    pub fn is_live(&self) -> bool
        ensures { result ≡ is_live self.now }
    {
        self.mark != Mark::Consumed
    }

    // The mask of an entry cut to the bits that count; that of a consumed entry as it is.
    #[tactic(auto, unfolding(crate::specs::Tests::cut_of))]
    pub fn cut_mask(&self, w: u32) -> u64
        ensures { result ≡ cut_of self.now w }
    {
        if self.is_live() {
            arith::reduce_mask(self.coeff, self.mask, w)
        } else {
            self.mask
        }
    }

    // Whether the coefficient of a live entry may as well be 0.
    #[tactic(auto, unfolding(crate::specs::Tests::drops_of))]
    pub fn drops(&self, w: u32) -> bool
        ensures { result ≡ drops_of self.now w }
    {
        self.is_live() && arith::can_change_coefficient_to(self.coeff, 0, self.mask, w)
    }

    // Whether the coefficient of a live entry is not 2^w - 1 and may become it.
    #[tactic(auto, using(arith::proofs::WidthLaws::bitmask_ones), unfolding(crate::specs::Tests::becomes_minus_one))]
    pub fn becomes_minus_one(&self, w: u32) -> bool
        requires { w ≤ 64 }
        ensures { result ≡ becomes_minus_one self.now w }
    {
        let minus = arith::bitmask(w);
        self.is_live()
            && self.coeff != minus
            && arith::can_change_coefficient_to(self.coeff, minus, self.mask, w)
    }
}

// Whether the mask of an entry has bits that do not count.
pub fn any_cut(entries: &[Entry], w: u32) -> bool
    ensures { result ≡ false → (k : ℕ) → k < length entries.now
        → cut_of (get_or entries.now k blank) w ≡ (get_or entries.now k blank).mask }
{
    entries.iter().any(|e| e.cut_mask(w) != e.mask)
}

// Whether the coefficient of an entry may as well be 0.
pub fn any_zero(entries: &[Entry], w: u32) -> bool
    ensures { result ≡ false → (k : ℕ) → k < length entries.now
        → drops_of (get_or entries.now k blank) w ≡ false }
{
    entries.iter().any(|e| e.drops(w))
}

// Whether the coefficient of an entry is not 2^w - 1 and may become it.
pub fn any_minus_one(entries: &[Entry], w: u32) -> bool
    requires { w ≤ 64 }
    ensures { result ≡ false → (k : ℕ) → k < length entries.now
        → becomes_minus_one (get_or entries.now k blank) w ≡ false }
{
    entries.iter().any(|e| e.becomes_minus_one(w))
}
