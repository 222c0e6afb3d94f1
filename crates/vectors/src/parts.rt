// The parts of an entry, and the numbers that a function writes.
ghost use Rattle.std.specs.Prelude.{◌≡◌, ◌≤◌, ◌^◌, ◌<◌, IfOk};

use stored::answer::{Answer, Fault};
use stored::{answer, result};

// The length of a result slice that is lent out of room for `most` elements.
pub fn fitting(length: u64, most: usize) -> Result<usize, Fault>
    ensures { IfOk result (λ n. n ≤ most) }
{
    let n = length as usize;
    if n > most {
        return Err(Fault::Malformed);
    }
    Ok(n)
}

// The bytes that a function reads, and behind them the last `used`, its expected result.
pub fn split_wanted(bytes: &[u8], used: usize) -> Result<(&[u8], &[u8]), Fault> {
    if used > bytes.len() {
        return Err(Fault::Malformed);
    }
    Ok(bytes.split_at(bytes.len() - used))
}

// The numbers that a function writes beside its result slice.
#[derive(Clone, Copy, Debug, PartialEq, Eq)]
pub struct Numbers {
    pub used: u64,
    pub terms: u64,
    pub flag: u64,
}

impl Numbers {
    // Before the call: a flag is there only where the function has one.
    pub const UNWRITTEN: Numbers = Numbers {
        used: answer::UNWRITTEN,
        terms: answer::UNWRITTEN,
        flag: 0,
    };

    // The answer of a function that refused, or wrote these numbers and the bytes of out.
    pub fn answer(self, refusal: u64, out: &[u8], wanted: &[u8]) -> Result<Answer, Fault> {
        let value = answer::packed(self.used, self.terms, self.flag);
        if !result::result_ok(refusal, out, wanted) {
            return Err(Fault::OtherBytes(value));
        }
        Ok(Answer { refusal, value })
    }
}
