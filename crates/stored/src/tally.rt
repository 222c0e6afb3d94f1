// How many entries of each type there were, and how many of them differ.
ghost use Rattle.std.specs.Prelude.{◌≡◌, ◌<◌, OnErr};

use crate::answer::{Answer, Fault};
use crate::kind::EntryKind;
use crate::report;
use std::io;

// By number of the type. Kept as two arrays: the clause of `compare` speaks of the differences alone.
#[derive(Clone, Copy, Debug)]
pub struct Tally {
    pub entries: [u64; 18],
    pub differences: [u64; 18],
}

impl Tally {
    pub const NONE: Tally = Tally {
        entries: [0; 18],
        differences: [0; 18],
    };

    // Counts a difference; the first five of a type are printed. No count wraps, since the number of
    // entries is bounded.
    fn differ(
        &mut self,
        rt: &impl Print,
        at: u64,
        kind: u8,
        expected: Answer,
        found: Result<Answer, Fault>,
    ) -> io::Result<()>
        requires { kind < 18 }
        ensures err { OnErr result (self.new.differences ≡ self.old.differences) }
    {
        let k = kind as usize;
        if self.differences[k] < 5 {
            report::difference(rt, at, kind, expected, found)?;
        }
        self.differences[k] = self.differences[k].wrapping_add(1);
        Ok(())
    }

    // Counts the entry with the number at, of the type with the number kind, and compares what was
    // found with what is expected. An error leaves the entry counted, and no difference.
    pub fn compare(
        &mut self,
        rt: &impl Print,
        at: u64,
        kind: u8,
        expected: Answer,
        found: Result<Answer, Fault>,
    ) -> io::Result<()>
        requires { kind < 18 }
        ensures err { OnErr result (self.new.differences ≡ self.old.differences) }
    {
        let k = kind as usize;
        self.entries[k] = self.entries[k].wrapping_add(1);
        match found {
            Ok(answer) if answer == expected => Ok(()),
            _ => self.differ(rt, at, kind, expected, found),
        }
    }

    // A line for each type.
    pub fn print(&self, rt: &impl Print) -> io::Result<()> {
        for kind in EntryKind::ALL {
            let k = kind.number() as usize;
            report::summary(rt, k, self.entries[k], self.differences[k])?;
        }
        Ok(())
    }
}
