// Runs a list of passes on the form that normalising gives.
#![tactic(auto)]

ghost use Rattle.std.specs.Prelude.{◌≡◌, true, ◌≤◌, length, take};
ghost use Rattle.semilinear.specs.Answers.{GivesForm};
ghost use Rattle.claims.specs.Calls.{pass_gives, after_call, in_use};
ghost use Rattle.runner.specs.Passes.{claimed, claimed_call, is_call_of};
ghost use Rattle.runner.specs.RunPasses.{calls_of, is_list};
ghost use Rattle.runner.specs.RunPasses.{bytes_outcome, run_passes};
ghost use Rattle.runner.specs.Placed.{Lies, bytes_in, InSlices};
ghost use Rattle.base.specs.Limits.{form_bytes};

pub mod passes;

use base::refusal::Refusal;
use passes::{Call, Pass, read_call};
use semilinear::outcome::Answer;

// The form in use: whether it is in the first slice, how many bytes it has, and its count of terms.
#[derive(Drop)]
pub struct InUse {
    pub first: bool,
    pub used: usize,
    pub terms: u64,
}

// Whether the words are a call whose result slice fits both slices, of a and b bytes.
fn is_call(words: [u64; 2], a: usize, b: usize) -> bool
    ensures { result ≡ is_call_of a b words }
{
    let Some(call) = read_call(words) else {
        return false;
    };
    call.len <= a && call.len <= b
}

// Whether the words are a list of calls whose result slices fit both slices, of a and b bytes. Kept as a `for`: with
// `iter().all(..)` no proof was found for the closure over arrays.
fn is_list(words: &[u64], a: usize, b: usize) -> bool
    ensures { result ≡ is_list a b words.now }
{
    let (calls, odd) = words.as_chunks::<2>();
    for call in calls {
        if !is_call(*call, a, b) {
            return false;
        }
    }
    odd.is_empty()
}

// A pass on the form s.
fn make_call(pass: Pass, s: &[u8], out: &mut [u8]) -> Result<Answer, Refusal>
    ensures { GivesForm (pass_gives (claimed pass) s.now (length out.old))
        (length out.old) result out.new }
{
    match pass {
        Pass::Refine => term_refiner::refine_terms(s, out),
        Pass::Recover => structure_recovery::recover::recover_structure(s, out),
        Pass::Coalesce => coalesce::coalesce_terms(s, out),
        Pass::Flatten => flatten::flatten_complex_atoms(s, out),
        Pass::Compact => compaction::compact_atom_table(s, out),
    }
}

// One call: it reads the first used bytes of from and writes to the front of to.
fn call_part(call: Call, from: &[u8], used: usize, to: &mut [u8]) -> Result<Answer, Refusal>
    requires { (used ≤ length from.now) × (call.len ≤ length to.old) }
    ensures { GivesForm (pass_gives (claimed call.pass) (take used from.now) call.len) call.len
        result (take call.len to.new) }
{
    make_call(call.pass, &from[..used], &mut to[..call.len])
}

// One call on the form in use, into the other slice.
fn turn(call: Call, x: InUse, sheet: &mut [u8], spare: &mut [u8]) -> InUse
    requires { (call.len ≤ length sheet.old) × (call.len ≤ length spare.old)
        × InSlices (bytes_in x.first x.used sheet.old spare.old) x.first x.used x.terms
        sheet.old spare.old }
    ensures { InSlices
        (after_call (claimed_call call) (bytes_in x.first x.used sheet.old spare.old))
        result.first result.used result.terms sheet.new spare.new }
{
    let used = x.used;
    let turned = if x.first {
        call_part(call, sheet, used, spare)
    } else {
        call_part(call, spare, used, sheet)
    };
    let Ok(made) = turned else {
        return x;
    };
    InUse {
        first: !x.first,
        used: made.used as usize,
        terms: made.terms,
    }
}

// Each call of the list, one after the other.
fn run_list(words: &[u64], start: InUse, sheet: &mut [u8], spare: &mut [u8]) -> InUse
    requires { (is_list (length sheet.old) (length spare.old) words.now ≡ true)
        × InSlices (bytes_in start.first start.used sheet.old spare.old) start.first start.used
        start.terms sheet.old spare.old }
    ensures { InSlices
        (in_use (calls_of words.now)
        (bytes_in start.first start.used sheet.old spare.old))
        result.first result.used result.terms sheet.new spare.new }
{
    let mut x = start;
    let (calls, _) = words.as_chunks::<2>();
    for call in calls {
        x = turn(read_call(*call).unwrap(), x, sheet, spare);
    }
    x
}

// The form in use is left in sheet.
fn settle(first: bool, used: usize, terms: u64, sheet: &mut [u8], spare: &[u8])
    requires { (length sheet.old ≡ form_bytes)
        × InSlices (bytes_in first used sheet.old spare.now) first used terms sheet.old spare.now }
    ensures { Lies (bytes_in first used sheet.old spare.now) used terms
        sheet.new }
{
    if first {
        return;
    }
    let n = sheet.len();
    base::write::put(sheet, 0, &spare[..n]);
}

// The list run from the form in sheet, which is left there.
fn run_from(
    calls: &[u64],
    used: usize,
    terms: u64,
    sheet: &mut [u8],
    spare: &mut [u8],
) -> Result<Answer, Refusal>
    requires { (is_list (length sheet.old) (length spare.old) calls.now ≡ true)
        × Lies (take used sheet.old) used terms sheet.old }
    ensures { GivesForm (bytes_outcome (in_use (calls_of calls.now) (take used sheet.old)))
        form_bytes result sheet.new }
{
    let start = InUse {
        first: true,
        used,
        terms,
    };
    let last = run_list(calls, start, sheet, spare);
    let last_used = last.used;
    let last_terms = last.terms;
    settle(last.first, last_used, last_terms, sheet, spare);
    Ok(Answer {
        used: last_used as u64,
        terms: last_terms,
        flag: false,
    })
}

// Normalises into sheet, and runs the list; or a refusal: 1, 2, 32, 3 to 6, 8 and 9.
pub fn run_passes(
    expr: &[u8],
    calls: &[u64],
    sheet: &mut [u8],
    spare: &mut [u8],
) -> Result<Answer, Refusal>
    ensures { GivesForm (run_passes expr.now calls.now (length sheet.old)
        (length spare.old)) (length sheet.old) result sheet.new }
{
    match semilinear_normalizer::normalize_to_semilinear(expr, sheet) {
        Ok(start) => {
            if !is_list(calls, sheet.len(), spare.len()) {
                return semilinear::outcome::refuse(sheet, Refusal::Passes);
            }
            run_from(calls, start.used as usize, start.terms, sheet, spare)
        }
        Err(refusal) => {
            if refusal == Refusal::Length {
                return Err(refusal);
            }
            if refusal == Refusal::ResultLength {
                return Err(refusal);
            }
            if !is_list(calls, sheet.len(), spare.len()) {
                return semilinear::outcome::refuse(sheet, Refusal::Passes);
            }
            Err(refusal)
        }
    }
}
