// The front door of what reads a form and has a result slice: refusals 1, 2 and 10 in this order, and
// a cleared slice.
ghost use Rattle.std.specs.Prelude.{◌≡◌, [], length};
ghost use Rattle.base.specs.Outcome.{refusal_of, Gives};
ghost use Rattle.base.specs.Refusal.{number_of};
ghost use Rattle.semilinear.specs.PassOutcome.{open_outcome};
ghost use Rattle.base.specs.Limits.{column_words, form_bytes};

use base::limits;
use base::refusal::Refusal;
use semilinear::scan;

// The refusal of s beside a result slice of len elements, which must be `whole`.
fn read_refusal(s: &[u8], len: usize, whole: usize) -> Result<(), Refusal>
    ensures { number_of result ≡ refusal_of (open_outcome whole s.now len) }
{
    if scan::length_refused(s) {
        return Err(Refusal::Length);
    }
    if len != whole {
        return Err(Refusal::ResultLength);
    }
    if !scan::is_semilinear(s) {
        return Err(Refusal::NotSemilinear);
    }
    Ok(())
}

// The refusal of a pass on s; all of out is zero.
pub fn open_bytes(s: &[u8], out: &mut [u8]) -> Result<(), Refusal>
    ensures { Gives (open_outcome form_bytes s.now (length out.old))
        (length out.old) (number_of result) [] out.new }
{
    out.fill(0);
    read_refusal(s, out.len(), limits::FORM_BYTES)
}

// The refusal of the partition of s; all of out is zero. Kept beside `open_bytes`: one for both would need the zero of
// its element, and `Gives` speaks of numbers.
pub fn open_words(s: &[u8], out: &mut [u64]) -> Result<(), Refusal>
    ensures { Gives (open_outcome column_words s.now (length out.old))
        (length out.old) (number_of result) [] out.new }
{
    out.fill(0);
    read_refusal(s, out.len(), limits::COLUMN_WORDS)
}
