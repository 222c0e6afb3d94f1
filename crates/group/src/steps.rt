// The steps of refining that look at one entry at a time, on the group in place, each behind a test on lent entries.
ghost use Rattle.std.specs.Prelude.{◌≡◌, ◌≤◌};
ghost use Rattle.record.specs.Decode.{decode};
ghost use Rattle.group.specs.Steps.{cut_masks, drop_zero, to_minus_one};
ghost use Rattle.group.specs.Ready.{StepReady};
ghost use Rattle.group.specs.Made.{Stepped};
ghost use Rattle.base.specs.Limits.{group_entries};

use crate::{Basis, Group};
use entries::{Entry, Mark};
use made::Made;

impl Group {
    // Each mask is cut to the bits that count; a cut mask gets a new atom.
    pub fn cut_masks(&mut self, b: Basis<'_>, w: u8, made: &mut Made, out: &mut [u8])
        requires { StepReady w group_entries b.hash b.bytes.now self.old made.old out.old }
        ensures { Stepped w group_entries (cut_masks w (decode b.entry.bytes.now))
            self.old made.old out.old self.new made.new out.new }
    {
        for i in 0..self.len {
            let e = self.entries[i];
            let cut = e.cut_mask(u32::from(w));
            if cut != e.mask {
                self.entries[i] = Entry {
                    mask: cut,
                    atom: made.rows,
                    ..e
                };
                made::create_masked(made, out, b.bytes, b.hash, cut, w);
            }
        }
    }

    // A term whose coefficient may as well be 0 is consumed.
    pub fn drop_zero(&mut self, w: u32)
        requires { self.old.len ≤ group_entries }
        ensures { self.new ≡ drop_zero w self.old }
    {
        for i in 0..self.len {
            if self.entries[i].drops(w) {
                self.entries[i].mark = Mark::Consumed;
            }
        }
    }

    // Coefficients become 2^w - 1 where they may.
    pub fn to_minus_one(&mut self, w: u32)
        requires { (self.old.len ≤ group_entries) × (w ≤ 64) }
        ensures { self.new ≡ to_minus_one w self.old }
    {
        let minus = arith::bitmask(w);
        for i in 0..self.len {
            if self.entries[i].becomes_minus_one(w) {
                self.entries[i].coeff = minus;
            }
        }
    }
}
