// Reads an expression on standard input (document 01: a tangle), runs the passes that the arguments
// name on its semilinear form, in their order, and writes the bytes of the last form (document 01:
// sheet); or R and the refusal: that of normalising, or 32 where the arguments are no list of
// passes. The first byte tells which: that of a form is 32 or 33. A pass that is refused on the way
// leaves the form as it is.
//
// Without arguments each of the five runs once, in the order in which document 01 names them:
// refining, recovering, coalescing, flattening, and compacting last, since the others leave atoms
// that no term uses.
//
// It ends with an error where a read or a write fails.
#![tactic(auto)]

mod names;

ghost use Rattle.std.specs.Prelude.{◌≤◌, IfOk, OnErr};
ghost use Rattle.std.specs.Counts.{IsPrefixLen};
ghost use Rattle.io_form.specs.Used.{IsCleared};

use base::limits;
use runner::passes::Pass;
use std::env::{Env, FillError};
use std::io;

// The list that is run where there are no arguments.
const USUAL: [Pass; 5] = [
    Pass::Refine,
    Pass::Recover,
    Pass::Coalesce,
    Pass::Flatten,
    Pass::Compact,
];

// The most arguments that are counted, the program's name and one too many among them.
const MOST_COUNTED: usize = 258;

// How many arguments there are, and the program's name; no more than MOST_COUNTED are counted.
fn arg_count(rt: &impl Env) -> usize {
    let mut name = [0u8; 32];
    for i in 0..MOST_COUNTED {
        if let Err(FillError::NotPresent) = rt.arg(i, &mut name) {
            return i;
        }
    }
    MOST_COUNTED
}

// The pass that argument i names. A name that is longer than any pass's is none.
fn arg_pass(rt: &(impl Env + Eprint), i: usize) -> io::Result<Option<Pass>> {
    let mut name = [0u8; 32];
    let pass = match rt.arg(i, &mut name) {
        Ok(n) => names::pass_named(&name[..n]),
        Err(_) => None,
    };
    if pass.is_none() {
        eprint!(rt; "passes: no pass is named by argument {i}\n")?;
    }
    Ok(pass)
}

// The words of a call: the pass, or 0, which no pass has as its number; and a result slice of the
// one length that is accepted.
fn call_words(pass: Option<Pass>) -> [u64; 2] {
    [pass.map_or(0, u64::from), limits::FORM_BYTES_U64]
}

// Puts the list in calls and gives how many calls it has. With too many arguments it is a call of
// no pass. An error leaves some of it put.
fn read_list(rt: &(impl Env + Eprint), calls: &mut [[u64; 2]; 256]) -> io::Result<usize>
    ensures { IfOk result (λ n. n ≤ 256) }
{
    let count = arg_count(rt);
    if count < 2 {
        for i in 0..USUAL.len() {
            calls[i] = call_words(Some(USUAL[i]));
        }
        return Ok(USUAL.len());
    }
    let n = count - 1;
    if n > calls.len() {
        eprint!(rt; "passes: more than 256 arguments\n")?;
        calls[0] = call_words(None);
        return Ok(1);
    }
    for i in 0..n {
        calls[i] = call_words(arg_pass(rt, i + 1)?);
    }
    Ok(n)
}

// The bytes of sheet that the last form uses; or none, and the refusal is printed.
fn run_or_print(
    rt: &impl Print,
    t: &[u8],
    calls: &[u64],
    sheet: &mut [u8],
    spare: &mut [u8],
) -> io::Result<usize>
    ensures ok { IfOk result (λ n. IsPrefixLen n sheet.new) }
    ensures err { OnErr result (IsCleared sheet.old sheet.new) }
{
    match runner::run_passes(t, calls, sheet, spare) {
        Ok(answer) => Ok(answer.used as usize),
        Err(refusal) => {
            io_form::print_refusal(rt, refusal.number())?;
            Ok(0)
        }
    }
}

// Room for one byte more than the longest expression has, so that input past it is refused.
fn main(rt: HostRuntime) -> io::Result<()> {
    let mut bytes = [0u8; io_form::INPUT_BYTES];
    let mut calls = [[0u64; 2]; 256];
    let mut sheet = [0u8; limits::FORM_BYTES];
    let mut spare = [0u8; limits::FORM_BYTES];
    let n = io_form::read_full(&mut rt.reader(), &mut bytes)?;
    let count = read_list(&rt, &mut calls)?;
    let calls = calls[..count].as_flattened();
    let used = run_or_print(&rt, &bytes[..n], calls, &mut sheet, &mut spare)?;
    rt.write_all(&sheet[..used])
}
