// What the programs share: an expression is read from standard input and normalised, and a refusal
// is printed.
#![tactic(auto)]

ghost use Rattle.std.specs.Prelude.{◌<◌, length, take, IfOk, OnErr};
ghost use Rattle.std.specs.Io.{ReadsAtMost};
ghost use Rattle.std.specs.Io.KnownBytes.{Consumes, IsAtEnd};
ghost use Rattle.io_form.specs.Reads.{HoldsRead};
ghost use Rattle.io_form.specs.Used.{IsUsed, IsCleared, HoldsNoForm};

use base::limits;
use std::io;
use std::io::Read;

// An expression's bytes, and one more, by which a longer input is told.
pub const INPUT_BYTES: usize = limits::EXPR_BYTES + 1;

// Reads until buf is full or the input ends, and gives how many bytes it put at the start of buf.
pub fn read_full<R: Read>(reader: &mut R, buf: &mut [u8]) -> io::Result<usize>
    ensures in_bounds { ReadsAtMost result buf.new }
    ensures bytes { IfOk result (λ n. Consumes (R.remaining reader.old) (R.remaining reader.new)
        (take n buf.new)) }
    ensures end { IfOk result (λ n. n < length buf.new → IsAtEnd (R.remaining reader.new)) }
    ensures err { OnErr result (HoldsRead (R.remaining reader.old) (R.remaining reader.new) buf.new) }
{
    // Kept as a loop over `read`: std's `read_exact` says less of an input that ends before, and of an error.
    let mut done = 0;
    while done < buf.len() {
        let n = reader.read(&mut buf[done..])?;
        if n == 0 {
            return Ok(done);
        }
        done += n;
    }
    Ok(done)
}

// R and the refusal's number.
pub fn print_refusal(rt: &impl Print, number: u64) -> io::Result<()> {
    print!(rt; "R {number}\n")
}

// The bytes of out that the form of t uses; or none, and its refusal is printed.
fn normalize_or_print(rt: &impl Print, t: &[u8], out: &mut [u8]) -> io::Result<usize>
    ensures ok { IfOk result (λ n. IsUsed n out.new) }
    ensures err { OnErr result (IsCleared out.old out.new) }
{
    match semilinear_normalizer::normalize_to_semilinear(t, out) {
        Ok(answer) => Ok(answer.used as usize),
        Err(refusal) => {
            print_refusal(rt, refusal.number())?;
            Ok(0)
        }
    }
}

// The same of the expression on standard input. Room for one byte more than the longest has, so
// that input past it is refused.
pub fn normalize_input(rt: &(impl Input + Print), out: &mut [u8]) -> io::Result<usize>
    ensures ok { IfOk result (λ n. IsUsed n out.new) }
    ensures err { OnErr result (HoldsNoForm out.old out.new) }
{
    let mut bytes = [0u8; INPUT_BYTES];
    let n = read_full(&mut rt.reader(), &mut bytes)?;
    normalize_or_print(rt, &bytes[..n], out)
}
