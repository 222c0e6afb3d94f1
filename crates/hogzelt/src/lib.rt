// Every entry point. The crate hogzelt_c exports them for C, each with the same clauses. Refusals are numbers here, and
// what is found is handed over through references: the C interface.
#![tactic(auto)]

ghost use Rattle.std.specs.Prelude.{◌≡◌, [], ◌∷◌, length, replicate};
ghost use Rattle.arith.specs.Effective.{reduce_mask, can_change_mask_to, can_change_coefficient_to};
ghost use Rattle.expr.specs.ExprValue.{IsExprValue};
ghost use Rattle.semilinear_value.specs.Value.{IsSemilinearValue};
ghost use Rattle.base.specs.Outcome.{flag_number, Gives};
ghost use Rattle.base.specs.Refusal.{number_of, value_of};
ghost use Rattle.semilinear.specs.Answers.{in_numbers};
ghost use Rattle.compaction.specs.Compact.{compact_atom_table};
ghost use Rattle.normalizer_laws.specs.Normalize.{normalize_to_semilinear};
ghost use Rattle.rules_laws.specs.Rules.{normalize_by_rules};
ghost use Rattle.refiner_laws.specs.RefineTerms.{refine_terms};
ghost use Rattle.structure_laws.specs.RecoverStructure.{recover_structure};
ghost use Rattle.structure_laws.specs.CoalesceTerms.{coalesce_terms};
ghost use Rattle.structure_laws.specs.FlattenComplexAtoms.{flatten_complex_atoms};
ghost use Rattle.partition_laws.specs.Partition.{compute_partitions};
ghost use Rattle.runner.specs.RunPasses.{run_passes};
ghost use Rattle.best_week.specs.BestWeek.{IsBestWeek};
ghost use Rattle.judge_laws.specs.Judge.{judge_of};
ghost use Rattle.judge_laws.specs.Judged.{IsVerdict};

use base::refusal::Refusal;
use semilinear::outcome::Answer;

// A value is handed over, 0 beside a refusal; returns the refusal's number, 0 where there is none.
fn report_value(found: Result<u64, Refusal>, value: &mut u64) -> u64
    ensures number { result ≡ number_of found }
    ensures beside { value.new ≡ value_of found }
{
    match found {
        Ok(x) => {
            *value = x;
            0
        }
        Err(refusal) => {
            *value = 0;
            refusal.number()
        }
    }
}

// The bytes used and the terms of an answer are handed over in the same way.
fn report(answer: Result<Answer, Refusal>, used: &mut u64, terms: &mut u64) -> u64
    ensures number { result ≡ (in_numbers answer).refusal }
    ensures used_is { used.new ≡ (in_numbers answer).used }
    ensures terms_are { terms.new ≡ (in_numbers answer).terms }
{
    match answer {
        Ok(given) => {
            *used = given.used;
            *terms = given.terms;
            0
        }
        Err(refusal) => {
            *used = 0;
            *terms = 0;
            refusal.number()
        }
    }
}

// The flag of an answer as a number, 0 beside a refusal.
fn flag_of(answer: &Result<Answer, Refusal>) -> u64
    ensures { result ≡ flag_number (in_numbers answer.now).flag }
{
    match answer {
        Ok(given) => u64::from(given.flag),
        Err(_) => 0,
    }
}

// The value of an expression under an assignment; returns the refusal, 0 where it is accepted.
pub fn hogzelt_expr_value(expr: &[u8], vars: &[u64], value: &mut u64) -> u64
    ensures { IsExprValue expr.now vars.now result value.new }
{
    report_value(expr::expr_value(expr, vars), value)
}

// The bits of a mask that count beside a coefficient, at w bits.
pub fn hogzelt_reduce_mask(coeff: u64, mask: u64, w: u32) -> u64
    ensures { result ≡ reduce_mask coeff mask w }
{
    arith::reduce_mask(coeff, mask, w)
}

// Whether one mask may stand for another beside a coefficient, at w bits.
pub fn hogzelt_can_change_mask_to(coeff: u64, old_mask: u64, new_mask: u64, w: u32) -> bool
    ensures { result ≡ can_change_mask_to coeff old_mask new_mask w }
{
    arith::can_change_mask_to(coeff, old_mask, new_mask, w)
}

// Whether one coefficient may stand for another before a masked number, at w bits.
pub fn hogzelt_can_change_coefficient_to(old_coeff: u64, new_coeff: u64, mask: u64, w: u32) -> bool
    ensures { result ≡ can_change_coefficient_to old_coeff new_coeff mask w }
{
    arith::can_change_coefficient_to(old_coeff, new_coeff, mask, w)
}

// The value of a semilinear form under an assignment; returns the refusal, 0 where it is accepted.
pub fn hogzelt_semilinear_value(s: &[u8], vars: &[u64], value: &mut u64) -> u64
    ensures { IsSemilinearValue s.now vars.now result value.new }
{
    report_value(semilinear_value::semilinear_value(s, vars), value)
}

// The form s without the atoms that have no term; returns the refusal, 0 where it is accepted.
pub fn hogzelt_compact_atom_table(s: &[u8], out: &mut [u8], used: &mut u64, terms: &mut u64) -> u64
    ensures { Gives (compact_atom_table s.now (length out.old))
        (length out.old) result (used.new ∷ terms.new ∷ []) out.new }
{
    report(compaction::compact_atom_table(s, out), used, terms)
}

// The semilinear form of an expression; returns the refusal, 0 where it is accepted.
pub fn hogzelt_normalize_to_semilinear(
    expr: &[u8],
    out: &mut [u8],
    used: &mut u64,
    terms: &mut u64,
) -> u64
    ensures { Gives (normalize_to_semilinear expr.now (length out.old))
        (length out.old) result (used.new ∷ terms.new ∷ []) out.new }
{
    let found = semilinear_normalizer::normalize_to_semilinear(expr, out);
    report(found, used, terms)
}

// The semilinear form of an expression by the rules that the caller names, 1 or 2; returns the
// refusal, 0 where it is accepted.
pub fn hogzelt_normalize_by_rules(
    rules: u64,
    expr: &[u8],
    out: &mut [u8],
    used: &mut u64,
    terms: &mut u64,
) -> u64
    ensures { Gives (normalize_by_rules rules expr.now (length out.old))
        (length out.old) result (used.new ∷ terms.new ∷ []) out.new }
{
    let ruled = semilinear_normalizer::normalize_by_rules(rules, expr, out);
    report(ruled, used, terms)
}

// The form s with its terms refined; returns the refusal, 0 where it is accepted.
pub fn hogzelt_refine_terms(s: &[u8], out: &mut [u8], used: &mut u64, terms: &mut u64) -> u64
    ensures { Gives (refine_terms s.now (length out.old))
        (length out.old) result (used.new ∷ terms.new ∷ []) out.new }
{
    report(term_refiner::refine_terms(s, out), used, terms)
}

// The form s with its structure recovered; returns the refusal, 0 where it is accepted.
pub fn hogzelt_recover_structure(s: &[u8], out: &mut [u8], used: &mut u64, terms: &mut u64) -> u64
    ensures { Gives (recover_structure s.now (length out.old))
        (length out.old) result (used.new ∷ terms.new ∷ []) out.new }
{
    report(
        structure_recovery::recover::recover_structure(s, out),
        used,
        terms,
    )
}

// The form s with its terms coalesced; returns the refusal, 0 where it is accepted.
pub fn hogzelt_coalesce_terms(s: &[u8], out: &mut [u8], used: &mut u64, terms: &mut u64) -> u64
    ensures { Gives (coalesce_terms s.now (length out.old))
        (length out.old) result (used.new ∷ terms.new ∷ []) out.new }
{
    report(coalesce::coalesce_terms(s, out), used, terms)
}

// The form s with its complex atoms flattened, and whether there was one; returns the refusal, 0
// where it is accepted.
pub fn hogzelt_flatten_complex_atoms(
    s: &[u8],
    out: &mut [u8],
    used: &mut u64,
    terms: &mut u64,
    flattened: &mut u64,
) -> u64
    ensures { Gives (flatten_complex_atoms s.now (length out.old))
        (length out.old) result (used.new ∷ terms.new ∷ flattened.new ∷ [])
        out.new }
{
    let flat = flatten::flatten_complex_atoms(s, out);
    *flattened = flag_of(&flat);
    report(flat, used, terms)
}

// The classes of the places of s; returns the refusal, 0 where it is accepted.
pub fn hogzelt_compute_partitions(s: &[u8], out: &mut [u64], classes: &mut u64) -> u64
    ensures { Gives (compute_partitions s.now (length out.old))
        (length out.old) result (classes.new ∷ []) out.new }
{
    report_value(bit_partitioner::compute_partitions(s, out), classes)
}

// The form in use after a list of passes, run from an expression; two words of calls for each: the
// number of the pass and the length of its result slice. Returns the refusal, 0 where it is accepted.
pub fn hogzelt_run_passes(
    expr: &[u8],
    calls: &[u64],
    sheet: &mut [u8],
    spare: &mut [u8],
    used: &mut u64,
    terms: &mut u64,
) -> u64
    ensures gives { Gives (run_passes expr.now calls.now (length sheet.old)
        (length spare.old)) (length sheet.old) result (used.new ∷ terms.new ∷ [])
        sheet.new }
    ensures spare_after { spare.new ≡ replicate (length spare.old) 0 }
{
    let ran = runner::run_passes(expr, calls, sheet, spare);
    spare.fill(0);
    report(ran, used, terms)
}

// The best seven days of a run: 1 in found where there are such, their total and the first day.
// Returns the refusal, 0 where the run is accepted.
pub fn hogzelt_best_week(run: &[u8], found: &mut u64, total: &mut i64, day: &mut u64) -> u64
    ensures { IsBestWeek run.now result found.new total.new day.new }
{
    *found = 0;
    *total = 0;
    *day = 0;
    match best_week::best_week(run) {
        Ok(Some(week)) => {
            *found = 1;
            *total = week.total;
            *day = week.day;
            0
        }
        Ok(None) => 0,
        Err(refusal) => refusal.number(),
    }
}

// Whether two expressions have the same value under every assignment: 1 in equal where they have;
// where they have not, the place and the index of the first assignment that tells them apart.
// Returns the refusal, 0 where they are judged.
pub fn hogzelt_judge(
    left: &[u8],
    right: &[u8],
    equal: &mut u64,
    place: &mut u64,
    index: &mut u64,
) -> u64
    ensures { IsVerdict (judge_of left.now right.now) result
        equal.new place.new index.new }
{
    let verdict = judge::judge(left, right);
    *equal = verdict.equal;
    *place = verdict.place;
    *index = verdict.index;
    verdict.refusal
}
