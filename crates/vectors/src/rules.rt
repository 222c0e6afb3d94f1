// An expression normalised by rules, run on an entry's words and bytes.
use crate::parts::{Numbers, fitting, split_wanted};
use stored::answer;
use stored::answer::{Answer, Fault};

// An entry has two words, the number of the rules and the length of the result slice: the last
// `used` bytes are the expected result, those before them the expression.
pub fn normalizing(
    bytes: &[u8],
    words: &[u64],
    used: usize,
    out: &mut [u8],
) -> Result<Answer, Fault> {
    let [rules, length] = words else {
        return Err(Fault::Malformed);
    };
    let n = fitting(*length, out.len())?;
    let (expr, wanted) = split_wanted(bytes, used)?;
    let out = &mut out[..n];
    out.fill(answer::UNWRITTEN_BYTE);
    let mut n = Numbers::UNWRITTEN;
    let refusal = hogzelt::hogzelt_normalize_by_rules(*rules, expr, out, &mut n.used, &mut n.terms);
    n.answer(refusal, out, wanted)
}
