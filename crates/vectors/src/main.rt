// Replays the vector file on standard input (docs/VECTORS.md): runs the function that each entry
// names, compares refusal and value with the expected ones, and prints a line for each type. It
// ends with an error where a read or a write fails.
#![tactic(auto)]

mod calls;
mod columns;
mod lists;
mod one_entry;
mod pairs;
mod parts;
mod room;
mod rules;

use room::Room;
use std::io;
use std::io::Read;
use stored::report;
use stored::tally::Tally;

// A file of more entries is malformed. The bound makes the loop end on any input.
const MOST_ENTRIES: u64 = 1_000_000;

// Replays entries up to the end entry, or to the first thing that is no entry. An error leaves what
// was read and counted before it in what is lent.
fn replay<R: Read>(
    rt: &impl Print,
    reader: &mut R,
    bytes: &mut [u8; 193056],
    room: &mut Room,
    tally: &mut Tally,
) -> io::Result<()> {
    for at in 0..MOST_ENTRIES {
        if !one_entry::step(rt, reader, at, bytes, room, tally)? {
            return Ok(());
        }
    }
    report::malformed(rt, MOST_ENTRIES, b"too many entries")
}

// Room for the longest payload and for the longest result slices is lent to every entry.
fn main(rt: HostRuntime) -> io::Result<()> {
    let mut bytes = [0u8; 193056];
    let mut room = Room {
        out: [0; 57376],
        classes: [0; 16464],
    };
    let mut tally = Tally::NONE;
    replay(&rt, &mut rt.reader(), &mut bytes, &mut room, &mut tally)?;
    tally.print(&rt)
}
