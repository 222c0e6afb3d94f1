// The three-term collapse: c * (x & a) + d * (x & b) + (c + d) * (x & m), where m shares no bit
// with a or b, becomes c * (x & (a | m)) + d * (x & (b | m)).
ghost use Rattle.record.specs.Decode.{decode};
ghost use Rattle.group.specs.Collapse.{collapse_at};
ghost use Rattle.group.specs.Ready.{CollapseReady};
ghost use Rattle.group.specs.Made.{Stepped};

use crate::{Basis, Group};
use entries::{Entry, Mark};
use made::Made;

impl Group {
    // Entries i and j take the bits of entry k, each with a new atom; k is consumed.
    pub fn collapse(
        &mut self,
        i: usize,
        j: usize,
        k: usize,
        b: Basis<'_>,
        w: u8,
        made: &mut Made,
        out: &mut [u8],
    )
        requires { CollapseReady w i j k b.hash b.bytes.now made.old out.old }
        ensures { Stepped w 2 (collapse_at w (decode b.entry.bytes.now) i j k)
            self.old made.old out.old self.new made.new out.new }
    {
        let rows = made.rows;
        let first = self.entries[i];
        let second = self.entries[j];
        let third = self.entries[k];
        let one = first.mask | third.mask;
        let two = second.mask | third.mask;
        self.entries[i] = Entry {
            mask: one,
            atom: rows,
            ..first
        };
        self.entries[j] = Entry {
            mask: two,
            atom: rows + 1,
            ..second
        };
        self.entries[k] = Entry {
            mark: Mark::Consumed,
            ..third
        };
        made::create_masked(made, out, b.bytes, b.hash, one, w);
        made::create_masked(made, out, b.bytes, b.hash, two, w);
    }
}
