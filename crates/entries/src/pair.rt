// Tests on two entries.
ghost use Rattle.std.specs.Prelude.{◌≡◌, false, ℕ, ◌<◌, length, None};
ghost use Rattle.entries.specs.Tests.{pair_of, pair_in};

use crate::Entry;

impl Entry {
    // At which coefficient two entries of one basis become one, where they may: the first one's where
    // the second one's may become it, else the second one's where the first one's may.
    #[tactic(auto, unfolding(crate::specs::Tests::pair_of))]
    pub fn joined(&self, other: &Entry, w: u32) -> Option<u64>
        ensures { result ≡ pair_of self.now other.now w }
    {
        if !self.is_live() || !other.is_live() || self.mask & other.mask != 0 {
            return None;
        }
        let c = self.coeff;
        let d = other.coeff;
        if c == d || arith::can_change_coefficient_to(d, c, other.mask, w) {
            return Some(c);
        }
        if arith::can_change_coefficient_to(c, d, self.mask, w) {
            return Some(d);
        }
        None
    }
}

// Whether two entries may become one.
pub fn any_pair(entries: &[Entry], w: u32) -> bool
    ensures { result ≡ false → (i j : ℕ) → i < j → j < length entries.now
        → pair_in entries.now w i j ≡ None }
{
    for i in 0..entries.len() {
        for j in i + 1..entries.len() {
            if entries[i].joined(&entries[j], w).is_some() {
                return true;
            }
        }
    }
    false
}
