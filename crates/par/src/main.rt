// Reads an expression on standard input (document 01: a tangle) and prints its semilinear form: C
// and the constant, then for each term T, the atom's number and the coefficient; or R and the
// refusal. It ends with an error where a read or a write fails.
#![tactic(auto)]

ghost use Rattle.std.specs.Prelude.{◌≤◌, length};
ghost use Rattle.base.specs.Limits.{record_length};

use base::limits;
use base::limits::RECORD_LENGTH;
use std::io;

// The term q.
fn print_term(rt: &impl Print, q: &[u8]) -> io::Result<()>
    requires { record_length ≤ length q.now }
{
    let number = semilinear::items::front_number(q);
    let coefficient = semilinear::items::front_word(q);
    print!(rt; "T {number} {coefficient:016x}\n")
}

// The form s: the constant stands in its last record, and behind the atoms every record is a term.
fn print_form(rt: &impl Print, s: &[u8]) -> io::Result<()>
    requires { record_length ≤ length s.now }
{
    let constant = record::literal(s);
    print!(rt; "C {constant:016x}\n")?;
    let f = record::body(s);
    let (terms, _) = f[semilinear::scan::terms_at(f)..].as_chunks::<RECORD_LENGTH>();
    for term in terms {
        print_term(rt, term)?;
    }
    Ok(())
}

fn main(rt: HostRuntime) -> io::Result<()> {
    let mut out = [0u8; limits::FORM_BYTES];
    let used = io_form::normalize_input(&rt, &mut out)?;
    if used != 0 {
        print_form(&rt, &out[..used])?;
    }
    Ok(())
}
