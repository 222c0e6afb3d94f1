// A list of passes from an expression, run on an entry's words and bytes.
use crate::parts::{Numbers, fitting, split_wanted};
use stored::answer::{Answer, Fault};
use stored::{answer, result};

// The refusal and the numbers found, over both slices: the second must be left all zeros.
fn ran(
    expr: &[u8],
    calls: &[u64],
    wanted: &[u8],
    sheet: &mut [u8],
    spare: &mut [u8],
) -> Result<Answer, Fault> {
    sheet.fill(answer::UNWRITTEN_BYTE);
    spare.fill(answer::UNWRITTEN_BYTE);
    let mut n = Numbers::UNWRITTEN;
    let refusal = hogzelt::hogzelt_run_passes(expr, calls, sheet, spare, &mut n.used, &mut n.terms);
    let answer = n.answer(refusal, sheet, wanted)?;
    if !spare.iter().all(|b| *b == 0) {
        return Err(Fault::OtherBytes(answer.value));
    }
    Ok(answer)
}

// An entry has two words, the lengths of both slices, and then those of the list: the last `used`
// bytes are the expected result, those before them the expression.
pub fn running(bytes: &[u8], words: &[u64], used: usize, out: &mut [u8]) -> Result<Answer, Fault> {
    let [length, spare_length, calls @ ..] = words else {
        return Err(Fault::Malformed);
    };
    let n = fitting(*length, out.len())?;
    let (expr, wanted) = split_wanted(bytes, used)?;
    let mut spare = result::spare_room();
    let m = fitting(*spare_length, spare.len())?;
    ran(expr, calls, wanted, &mut out[..n], &mut spare[..m])
}
