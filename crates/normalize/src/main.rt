// Reads an expression on standard input (document 01: a tangle) and writes the bytes of its
// semilinear form (document 01: sheet); or R and the refusal. The first byte tells which: that of a
// form is 32 or 33. It ends with an error where a read or a write fails.
#![tactic(auto)]

use base::limits;
use std::io;

fn main(rt: HostRuntime) -> io::Result<()> {
    let mut out = [0u8; limits::FORM_BYTES];
    let used = io_form::normalize_input(&rt, &mut out)?;
    rt.write_all(&out[..used])
}
