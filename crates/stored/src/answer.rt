// What is expected of an entry, and what was found.
use std::fmt;

// A refusal, and a value. A refusal is kept as a number here: entries of the file hold numbers.
#[derive(Clone, Copy, Debug, PartialEq, Eq)]
pub struct Answer {
    pub refusal: u64,
    pub value: u64,
}

impl fmt::Display for Answer {
    fn fmt<W: fmt::Write>(&self, f: &mut fmt::Formatter<W>) -> fmt::Result {
        write!(f, "refusal {} value 0x{:016x}", self.refusal, self.value)
    }
}

// Why an entry has no answer that could be the expected one.
#[derive(Clone, Copy, Debug, PartialEq, Eq)]
pub enum Fault {
    // Its words or lengths are not those of its type.
    Malformed,
    // Other results than expected were found, with these numbers.
    OtherBytes(u64),
}

// As a refusal that no entry expects: each of those fits a byte.
impl fmt::Display for Fault {
    fn fmt<W: fmt::Write>(&self, f: &mut fmt::Formatter<W>) -> fmt::Result {
        let (refusal, value) = match self {
            Fault::Malformed => (256, 0),
            Fault::OtherBytes(value) => (257, *value),
        };
        let answer = Answer { refusal, value };
        write!(f, "{answer}")
    }
}

// What stands in a result before a call, so that one which is not written shows.
pub const UNWRITTEN: u64 = 0xBAD0_BAD0_BAD0_BAD0;

pub const UNWRITTEN_BYTE: u8 = 0xBA;

// The used length in the low half, then the count of terms or classes, and the flag in the highest
// bit; of a verdict the index, the place, and whether the two are equal. Where one is too long for
// its place, the answer is a number that no entry expects.
pub fn packed(used: u64, count: u64, flag: u64) -> u64 {
    if used > 0xFFFF_FFFF || count > 0x7FFF_FFFF || flag > 1 {
        return UNWRITTEN;
    }
    (flag << 63) | (count << 32) | used
}
