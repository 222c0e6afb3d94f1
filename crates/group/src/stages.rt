// The steps of refining in stages, on the group in place; a test on lent entries says whether a stage would change it.
ghost use Rattle.record.specs.Decode.{decode};
ghost use Rattle.group.specs.Ready.{StepReady};
ghost use Rattle.group.specs.Made.{Stepped};
ghost use Rattle.group.specs.Stages.{cut_and_drop, merge_all};
ghost use Rattle.base.specs.Limits.{group_entries};

use crate::{Basis, Group};
use made::Made;

impl Group {
    // The masks cut, and the terms without effect dropped.
    pub fn cut_and_drop(&mut self, b: Basis<'_>, w: u8, made: &mut Made, out: &mut [u8])
        requires { StepReady w group_entries b.hash b.bytes.now self.old made.old out.old }
        ensures { Stepped w group_entries (cut_and_drop w (decode b.entry.bytes.now))
            self.old made.old out.old self.new made.new out.new }
    {
        self.cut_masks(b, w, made, out);
        self.drop_zero(u32::from(w));
    }

    // Entries joined, by coefficient and by pairs; then again where coefficients became 2^w - 1.
    pub fn merge_all(&mut self, b: Basis<'_>, w: u8, made: &mut Made, out: &mut [u8])
        requires { StepReady w 196608 b.hash b.bytes.now self.old made.old out.old }
        ensures { Stepped w 196608 (merge_all w (decode b.entry.bytes.now))
            self.old made.old out.old self.new made.new out.new }
    {
        self.bucket_merge(b, w, made, out);
        self.pair_merge(b, w, made, out);
        self.to_minus_one(u32::from(w));
        self.pair_merge(b, w, made, out);
    }
}
