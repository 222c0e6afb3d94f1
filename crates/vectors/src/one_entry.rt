// One entry: its function run, and the answer compared.
ghost use Rattle.std.specs.Prelude.{◌+◌, ◌*◌, ◌<◌, ◌≤◌, length};

use crate::calls;
use crate::room::Room;
use std::io;
use std::io::Read;
use stored::answer::{Answer, Fault};
use stored::entry::Head;
use stored::kind::EntryKind;
use stored::tally::Tally;
use stored::{entry, report};

const MOST_BYTES: u32 = 188960;

// What the function under test gives for an entry whose words and bytes stand in bytes.
fn run(kind: EntryKind, head: Head, bytes: &[u8], room: &mut Room) -> Result<Answer, Fault>
    requires { (head.words ≤ 512) × (8 * head.words + head.size ≤ length bytes.now) }
{
    let mut words = [0; entry::MOST_WORDS];
    let count = head.words as usize;
    let start = 8 * count;
    let stop = start + head.size as usize;
    entry::read_words(bytes, &mut words, count);
    let value = head.expected.value;
    calls::answer_of(kind, value, &bytes[start..stop], &words[..count], room)
}

// Reads the rest of an entry, runs and compares it; false where it is not whole. An error leaves what
// was read and counted before it in what is lent; so in `step`.
fn body<R: Read>(
    rt: &impl Print,
    reader: &mut R,
    at: u64,
    kind: EntryKind,
    head: Head,
    bytes: &mut [u8; 193056],
    room: &mut Room,
    tally: &mut Tally,
) -> io::Result<bool> {
    if head.words as usize > entry::MOST_WORDS {
        report::malformed(rt, at, b"too many words")?;
        return Ok(false);
    }
    if head.size > MOST_BYTES {
        report::malformed(rt, at, b"too many bytes")?;
        return Ok(false);
    }
    let payload = 8 * (head.words as usize) + head.size as usize;
    if !entry::read_payload(reader, bytes, entry::padded(payload))? {
        report::malformed(rt, at, b"the file ends in an entry")?;
        return Ok(false);
    }
    let found = run(kind, head, bytes, room);
    tally.compare(rt, at, kind.number(), head.expected, found)?;
    Ok(true)
}

// Replays the entry with the number at; false after the end entry and on a malformed file.
pub fn step<R: Read>(
    rt: &impl Print,
    reader: &mut R,
    at: u64,
    bytes: &mut [u8; 193056],
    room: &mut Room,
    tally: &mut Tally,
) -> io::Result<bool> {
    let mut front = [0u8; 16];
    if io_form::read_full(reader, &mut front)? != 16 {
        report::malformed(rt, at, b"the file ends without an end entry")?;
        return Ok(false);
    }
    let head = entry::read_head(&front);
    if head.kind == 0 {
        entry::end(rt, reader, at, head.expected.value)?;
        return Ok(false);
    }
    let Ok(kind) = EntryKind::try_from(head.kind) else {
        report::malformed(rt, at, b"unknown type")?;
        return Ok(false);
    };
    body(rt, reader, at, kind, head, bytes, room, tally)
}
