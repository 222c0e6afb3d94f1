// Two expressions or two semilinear forms judged, run on an entry's words and bytes.
use crate::parts::fitting;
use judge_laws::Verdict;
use stored::answer;
use stored::answer::{Answer, Fault};

// The verdict on two expressions, as it is exported.
pub fn of_expressions(left: &[u8], right: &[u8]) -> Verdict {
    let mut equal = answer::UNWRITTEN;
    let mut place = answer::UNWRITTEN;
    let mut index = answer::UNWRITTEN;
    let refusal = hogzelt::hogzelt_judge(left, right, &mut equal, &mut place, &mut index);
    Verdict {
        refusal,
        equal,
        place,
        index,
    }
}

// An entry has one word, the length of the left in bytes: the bytes behind the left are the right.
// The refusal of a verdict, and its index, place and equal in one number.
pub fn judging<F: FnOnce(&[u8], &[u8]) -> Verdict>(
    bytes: &[u8],
    words: &[u64],
    judge: F,
) -> Result<Answer, Fault>
    requires { F.IsAlwaysCallable judge }
{
    let [length] = words else {
        return Err(Fault::Malformed);
    };
    let n = fitting(*length, bytes.len())?;
    let verdict = judge(&bytes[..n], &bytes[n..]);
    Ok(Answer {
        refusal: verdict.refusal,
        value: answer::packed(verdict.index, verdict.place, verdict.equal),
    })
}
