// A run of played days: the fields of its records, and its refusals.
ghost use Rattle.std.specs.Prelude.{◌≡◌, ◌+◌, ◌*◌, ◌^◌, ◌<◌, ◌≤◌, length};
ghost use Rattle.base.specs.Limits.{record_length};
ghost use Rattle.base.specs.Loop.{first_in};
ghost use Rattle.base.specs.Refusal.{number_of};
ghost use Rattle.best_week.specs.Run.{day, par, moves, rest, filled, falls, run_refusal};
ghost use Rattle.best_week.specs.BestWeek.{over_par};
ghost use Rattle.best_week.specs.Walk.{Inside};

use base::limits;
use base::refusal::Refusal;

// The records of the longest run, and its bytes.
const RUN_RECORDS: usize = 4096;

const RUN_BYTES: usize = RUN_RECORDS * limits::RECORD_LENGTH;

// The day of record i.
pub fn day(run: &[u8], i: usize) -> u64
    requires { Inside run.now i }
    ensures { (result ≡ day run.now i) × (result < 2 ^ 32) }
{
    record::read_u32(run, limits::RECORD_LENGTH * i)
}

// The par of record i.
fn par(run: &[u8], i: usize) -> u64
    requires { Inside run.now i }
    ensures { (result ≡ par run.now i) × (result < 2 ^ 16) }
{
    record::read_u16(run, limits::RECORD_LENGTH * i + 4)
}

// The moves of record i.
fn moves(run: &[u8], i: usize) -> u64
    requires { Inside run.now i }
    ensures { (result ≡ moves run.now i) × (result < 2 ^ 16) }
{
    record::read_u16(run, limits::RECORD_LENGTH * i + 6)
}

// Moves minus par of record i.
pub fn over_par(run: &[u8], i: usize) -> i64
    requires { Inside run.now i }
    ensures { result ≡ over_par run.now i }
{
    let m = moves(run, i) as i64;
    let p = par(run, i) as i64;
    m - p
}

// The eight bytes of record i that must be 0.
fn rest(run: &[u8], i: usize) -> u64
    requires { Inside run.now i }
    ensures { result ≡ rest run.now i }
{
    record::read_u64(run, limits::RECORD_LENGTH * i + 8)
}

// The first of n records that has a non-zero byte that must be 0, or n.
fn first_filled(run: &[u8], n: usize) -> usize
    requires { record_length * n ≤ length run.now }
    ensures { result ≡ first_in (filled run.now) 0 n }
{
    for i in 0..n {
        if rest(run, i) != 0 {
            return i;
        }
    }
    n
}

// The first of n records, from the second on, whose day is not above the one before; n or more where there is none.
fn first_fall(run: &[u8], n: usize) -> usize
    requires { record_length * n ≤ length run.now }
    ensures { result ≡ first_in (falls run.now) 1 n }
{
    for i in 1..n {
        if day(run, i) <= day(run, i - 1) {
            return i;
        }
    }
    n.max(1)
}

// Whether a run is accepted: else it is no whole records, too long, or has a non-zero byte that must be 0; or a day is
// not above the one before.
pub fn run_refusal(run: &[u8]) -> Result<(), Refusal>
    ensures { number_of result ≡ run_refusal run.now }
{
    let len = run.len();
    if RUN_BYTES < len {
        return Err(Refusal::Run);
    }
    if record::odd_bytes(len) != 0 {
        return Err(Refusal::Run);
    }
    let n = record::number_of(len);
    if first_filled(run, n) < n {
        return Err(Refusal::Run);
    }
    if first_fall(run, n) < n {
        return Err(Refusal::Days);
    }
    Ok(())
}
