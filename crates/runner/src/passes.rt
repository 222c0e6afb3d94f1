// The passes, and the calls of a list: each is two words, the number of its pass and the length of
// the result slice that is lent to it.
ghost use Rattle.std.specs.Prelude.{◌≡◌};
ghost use Rattle.runner.specs.Passes.{number_of, IsPassAt, IsCallRead};

use std::error::Error;
use std::fmt;

#[derive(Clone, Copy, Debug, PartialEq, Eq)]
pub enum Pass {
    Refine,
    Recover,
    Coalesce,
    Flatten,
    Compact,
}

// A number that no pass has.
#[derive(Clone, Copy, Debug, PartialEq, Eq)]
pub struct NoPass(pub u64);

impl fmt::Display for NoPass {
    fn fmt<W: fmt::Write>(&self, f: &mut fmt::Formatter<W>) -> fmt::Result {
        write!(f, "no pass has the number {}", self.0)
    }
}

impl Error for NoPass {}

impl TryFrom<u64> for Pass {
    type Error = NoPass;

    ghost try_from_gives = { IsPassAt };

    fn try_from(number: u64) -> Result<Pass, NoPass> {
        match number {
            1 => Ok(Pass::Refine),
            2 => Ok(Pass::Recover),
            3 => Ok(Pass::Coalesce),
            4 => Ok(Pass::Flatten),
            5 => Ok(Pass::Compact),
            _ => Err(NoPass(number)),
        }
    }
}

impl From<Pass> for u64 {
    ghost from_gives = { λ pass n. n ≡ number_of pass };

    fn from(pass: Pass) -> u64 {
        match pass {
            Pass::Refine => 1,
            Pass::Recover => 2,
            Pass::Coalesce => 3,
            Pass::Flatten => 4,
            Pass::Compact => 5,
        }
    }
}

// A pass, and the length of the result slice that is lent to it.
#[derive(Clone, Copy, Debug, PartialEq, Eq)]
pub struct Call {
    pub pass: Pass,
    pub len: usize,
}

// The call that two words are.
pub fn read_call(words: [u64; 2]) -> Option<Call>
    ensures { IsCallRead words result }
{
    let pass = Pass::try_from(words[0]).ok()?;
    Some(Call {
        pass,
        len: words[1] as usize,
    })
}
