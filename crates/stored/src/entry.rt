// One entry, as it is read.
ghost use Rattle.std.specs.Prelude.{◌≡◌, ◌+◌, ◌-◌, ◌*◌, ◌%◌, ◌^◌, ◌<◌, ◌≤◌, length, OnErr};
ghost use Rattle.io_form.specs.Reads.{HoldsRead};

use crate::answer::Answer;
use crate::report;
use std::io;
use std::io::Read;

// The head of an entry: the number of its type, how many words and bytes follow, what is expected. The type is kept as a
// number here: 0 is the end entry, and no type.
#[derive(Clone, Copy, Debug, PartialEq, Eq)]
pub struct Head {
    pub kind: u8,
    pub words: u16,
    pub size: u32,
    pub expected: Answer,
}

// The most words of an entry.
pub const MOST_WORDS: usize = 512;

// The head that 16 bytes hold.
pub fn read_head(bytes: &[u8]) -> Head
    requires { length bytes.now ≡ 16 }
{
    let kind = bytes[0];
    let refusal = u64::from(bytes[1]);
    let words = record::read_u16(bytes, 2) as u16;
    let size = record::read_u32(bytes, 4) as u32;
    let value = record::read_u64(bytes, 8);
    let expected = Answer { refusal, value };
    Head {
        kind,
        words,
        size,
        expected,
    }
}

// The length of an entry of n bytes behind its head: zeros fill its last 16 bytes up.
pub fn padded(n: usize) -> usize
    requires { n + 15 < 2 ^ 64 }
    ensures { result ≡ n + 15 - (n + 15) % 16 }
{
    let up = n + 15;
    up - record::odd_bytes(up)
}

// Reads size bytes to the front of bytes; false where the file ends before.
pub fn read_payload<R: Read>(reader: &mut R, bytes: &mut [u8], size: usize) -> io::Result<bool>
    requires { size ≤ length bytes.old }
    ensures err { OnErr result (HoldsRead (R.remaining reader.old) (R.remaining reader.new) bytes.new) }
{
    Ok(io_form::read_full(reader, &mut bytes[..size])? == size)
}

// Copies the first count words of bytes, little-endian.
pub fn read_words(bytes: &[u8], words: &mut [u64], count: usize)
    requires { (count ≤ length words.old) × (8 * count ≤ length bytes.now) }
{
    for i in 0..count {
        words[i] = record::read_u64(bytes, 8 * i);
    }
}

// The end entry: its value is the number of entries before it, and nothing follows.
pub fn end<R: Read>(rt: &impl Print, reader: &mut R, at: u64, value: u64) -> io::Result<()> {
    if value != at {
        return report::malformed(rt, at, b"the end entry has another count");
    }
    let mut rest = [0u8; 1];
    if io_form::read_full(reader, &mut rest)? != 0 {
        return report::malformed(rt, at, b"the file goes on after the end entry");
    }
    Ok(())
}
