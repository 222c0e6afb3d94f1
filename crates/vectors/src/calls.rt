// The functions under test, each run on an entry's words and bytes.
ghost use Rattle.std.specs.Prelude.{◌≡◌};

use crate::parts::{Numbers, fitting, split_wanted};
use crate::room::Room;
use crate::{columns, lists, pairs, rules};
use stored::answer;
use stored::answer::{Answer, Fault};
use stored::kind::EntryKind;

fn expr_value(expr: &[u8], words: &[u64]) -> Answer {
    let mut value = answer::UNWRITTEN;
    let refusal = hogzelt::hogzelt_expr_value(expr, words, &mut value);
    Answer { refusal, value }
}

fn hash(expr: &[u8]) -> Answer {
    match expr_refusal::expr_refusal(expr) {
        Ok(()) => Answer {
            refusal: 0,
            value: expr::hash::structural_hash(expr),
        },
        Err(refusal) => Answer {
            refusal: refusal.number(),
            value: 0,
        },
    }
}

// A function of masks, which has four words, the last of them a 32-bit width.
fn masks<F: Fn(u64, u64, u64, u32) -> u64>(words: &[u64], f: F) -> Result<Answer, Fault>
    requires { F.IsAlwaysCallable f }
{
    let [a, b, c, width] = words else {
        return Err(Fault::Malformed);
    };
    let Ok(w) = u32::try_from(*width) else {
        return Err(Fault::Malformed);
    };
    let value = f(*a, *b, *c, w);
    Ok(Answer { refusal: 0, value })
}

fn form_value(form: &[u8], words: &[u64]) -> Answer {
    let mut value = answer::UNWRITTEN;
    let refusal = hogzelt::hogzelt_semilinear_value(form, words, &mut value);
    Answer { refusal, value }
}

// A function that writes a form, which has one word, the length of the result slice: the last `used`
// bytes are the expected result, those before them the form or the expression.
fn writing<F: FnOnce(&[u8], &mut [u8], &mut Numbers) -> u64>(
    bytes: &[u8],
    words: &[u64],
    used: usize,
    out: &mut [u8],
    f: F,
) -> Result<Answer, Fault>
    requires { F.IsAlwaysCallable f }
{
    let [length] = words else {
        return Err(Fault::Malformed);
    };
    let n = fitting(*length, out.len())?;
    let (input, wanted) = split_wanted(bytes, used)?;
    let out = &mut out[..n];
    out.fill(answer::UNWRITTEN_BYTE);
    let mut numbers = Numbers::UNWRITTEN;
    let refusal = f(input, out, &mut numbers);
    numbers.answer(refusal, out, wanted)
}

// What the function of a type gives. `value` is the expected value. A match: the arms have unlike arguments.
pub fn answer_of(
    kind: EntryKind,
    value: u64,
    bytes: &[u8],
    words: &[u64],
    room: &mut Room,
) -> Result<Answer, Fault> {
    let used = (value % 0x1_0000_0000) as usize;
    match kind {
        EntryKind::ExprValue => Ok(expr_value(bytes, words)),
        EntryKind::StructuralHash => Ok(hash(bytes)),
        EntryKind::ReduceMask => masks(words, |a, b, _, w| hogzelt::hogzelt_reduce_mask(a, b, w)),
        EntryKind::CanChangeMask => masks(words, |a, b, c, w| {
            u64::from(hogzelt::hogzelt_can_change_mask_to(a, b, c, w))
        }),
        EntryKind::CanChangeCoefficient => masks(words, |a, b, c, w| {
            u64::from(hogzelt::hogzelt_can_change_coefficient_to(a, b, c, w))
        }),
        EntryKind::SemilinearValue => Ok(form_value(bytes, words)),
        EntryKind::CompactAtomTable => writing(bytes, words, used, &mut room.out, |s, out, n| {
            hogzelt::hogzelt_compact_atom_table(s, out, &mut n.used, &mut n.terms)
        }),
        EntryKind::NormalizeToSemilinear => writing(
            bytes,
            words,
            used,
            &mut room.out,
            |s, out, n| {
                hogzelt::hogzelt_normalize_to_semilinear(s, out, &mut n.used, &mut n.terms)
            },
        ),
        EntryKind::RefineTerms => writing(bytes, words, used, &mut room.out, |s, out, n| {
            hogzelt::hogzelt_refine_terms(s, out, &mut n.used, &mut n.terms)
        }),
        EntryKind::FlattenComplexAtoms => writing(bytes, words, used, &mut room.out, |s, out, n| {
            n.flag = answer::UNWRITTEN;
            hogzelt::hogzelt_flatten_complex_atoms(s, out, &mut n.used, &mut n.terms, &mut n.flag)
        }),
        EntryKind::RecoverStructure => writing(bytes, words, used, &mut room.out, |s, out, n| {
            hogzelt::hogzelt_recover_structure(s, out, &mut n.used, &mut n.terms)
        }),
        EntryKind::CoalesceTerms => writing(bytes, words, used, &mut room.out, |s, out, n| {
            hogzelt::hogzelt_coalesce_terms(s, out, &mut n.used, &mut n.terms)
        }),
        EntryKind::ComputePartitions => columns::partitioning(
            bytes,
            words,
            used,
            &mut room.classes,
        ),
        EntryKind::RunPasses => lists::running(bytes, words, used, &mut room.out),
        EntryKind::NormalizeByRules => rules::normalizing(bytes, words, used, &mut room.out),
        EntryKind::Judge => pairs::judging(bytes, words, pairs::of_expressions),
        EntryKind::JudgeForms => pairs::judging(bytes, words, judge::judge_forms),
    }
}
