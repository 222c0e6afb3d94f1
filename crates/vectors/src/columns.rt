// The classes and columns of a form, run on an entry's words and bytes.
use crate::parts::{fitting, split_wanted};
use stored::answer::{Answer, Fault};
use stored::{answer, result};

// An entry has one word, the length of the result slice in words: the last `used` bytes are the
// expected words, those before them the form.
pub fn partitioning(
    bytes: &[u8],
    words: &[u64],
    used: usize,
    out: &mut [u64],
) -> Result<Answer, Fault> {
    let [length] = words else {
        return Err(Fault::Malformed);
    };
    let n = fitting(*length, out.len())?;
    let (form, wanted) = split_wanted(bytes, used)?;
    let out = &mut out[..n];
    out.fill(answer::UNWRITTEN);
    let mut classes = answer::UNWRITTEN;
    let refusal = hogzelt::hogzelt_compute_partitions(form, out, &mut classes);
    let value = answer::packed(wanted.len() as u64, classes, 0);
    if !stored::words::result_ok(refusal, out, wanted) {
        return Err(Fault::OtherBytes(value));
    }
    Ok(Answer { refusal, value })
}
