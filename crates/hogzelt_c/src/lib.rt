// What users link: every entry point of hogzelt, exported for C with the clauses that it has there, word for word.
// include/hogzelt.h declares them.
#![tactic(auto)]

ghost use Rattle.std.specs.Prelude.{◌≡◌, [], ◌∷◌, length, replicate};
ghost use Rattle.arith.specs.Effective.{reduce_mask, can_change_mask_to, can_change_coefficient_to};
ghost use Rattle.expr.specs.ExprValue.{IsExprValue};
ghost use Rattle.semilinear_value.specs.Value.{IsSemilinearValue};
ghost use Rattle.base.specs.Outcome.{Gives};
ghost use Rattle.compaction.specs.Compact.{compact_atom_table};
ghost use Rattle.normalizer_laws.specs.Normalize.{normalize_to_semilinear};
ghost use Rattle.rules_laws.specs.Rules.{normalize_by_rules};
ghost use Rattle.refiner_laws.specs.RefineTerms.{refine_terms};
ghost use Rattle.structure_laws.specs.RecoverStructure.{recover_structure};
ghost use Rattle.structure_laws.specs.CoalesceTerms.{coalesce_terms};
ghost use Rattle.structure_laws.specs.FlattenComplexAtoms.{flatten_complex_atoms};
ghost use Rattle.partition_laws.specs.Partition.{compute_partitions};
ghost use Rattle.runner.specs.RunPasses.{run_passes};
ghost use Rattle.best_week.specs.BestWeek.{IsBestWeek};
ghost use Rattle.judge_laws.specs.Judge.{judge_of};
ghost use Rattle.judge_laws.specs.Judged.{IsVerdict};

// The value of an expression under an assignment; returns the refusal, 0 where it is accepted.
#[unsafe(no_mangle)]
pub extern "C" fn hogzelt_expr_value(expr: &[u8], vars: &[u64], value: &mut u64) -> u64
    ensures { IsExprValue expr.now vars.now result value.new }
{
    hogzelt::hogzelt_expr_value(expr, vars, value)
}

// The bits of a mask that count beside a coefficient, at w bits.
#[unsafe(no_mangle)]
pub extern "C" fn hogzelt_reduce_mask(coeff: u64, mask: u64, w: u32) -> u64
    ensures { result ≡ reduce_mask coeff mask w }
{
    hogzelt::hogzelt_reduce_mask(coeff, mask, w)
}

// Whether one mask may stand for another beside a coefficient, at w bits.
#[unsafe(no_mangle)]
pub extern "C" fn hogzelt_can_change_mask_to(
    coeff: u64,
    old_mask: u64,
    new_mask: u64,
    w: u32,
) -> bool
    ensures { result ≡ can_change_mask_to coeff old_mask new_mask w }
{
    hogzelt::hogzelt_can_change_mask_to(coeff, old_mask, new_mask, w)
}

// Whether one coefficient may stand for another before a masked number, at w bits.
#[unsafe(no_mangle)]
pub extern "C" fn hogzelt_can_change_coefficient_to(
    old_coeff: u64,
    new_coeff: u64,
    mask: u64,
    w: u32,
) -> bool
    ensures { result ≡ can_change_coefficient_to old_coeff new_coeff mask w }
{
    hogzelt::hogzelt_can_change_coefficient_to(old_coeff, new_coeff, mask, w)
}

// The value of a semilinear form under an assignment; returns the refusal, 0 where it is accepted.
#[unsafe(no_mangle)]
pub extern "C" fn hogzelt_semilinear_value(s: &[u8], vars: &[u64], value: &mut u64) -> u64
    ensures { IsSemilinearValue s.now vars.now result value.new }
{
    hogzelt::hogzelt_semilinear_value(s, vars, value)
}

// The form s without the atoms that have no term; returns the refusal, 0 where it is accepted.
#[unsafe(no_mangle)]
pub extern "C" fn hogzelt_compact_atom_table(
    s: &[u8],
    out: &mut [u8],
    used: &mut u64,
    terms: &mut u64,
) -> u64
    ensures { Gives (compact_atom_table s.now (length out.old))
        (length out.old) result (used.new ∷ terms.new ∷ []) out.new }
{
    hogzelt::hogzelt_compact_atom_table(s, out, used, terms)
}

// The semilinear form of an expression; returns the refusal, 0 where it is accepted.
#[unsafe(no_mangle)]
pub extern "C" fn hogzelt_normalize_to_semilinear(
    expr: &[u8],
    out: &mut [u8],
    used: &mut u64,
    terms: &mut u64,
) -> u64
    ensures { Gives (normalize_to_semilinear expr.now (length out.old))
        (length out.old) result (used.new ∷ terms.new ∷ []) out.new }
{
    hogzelt::hogzelt_normalize_to_semilinear(expr, out, used, terms)
}

// The semilinear form of an expression by the rules that the caller names, 1 or 2; returns the
// refusal, 0 where it is accepted.
#[unsafe(no_mangle)]
pub extern "C" fn hogzelt_normalize_by_rules(
    rules: u64,
    expr: &[u8],
    out: &mut [u8],
    used: &mut u64,
    terms: &mut u64,
) -> u64
    ensures { Gives (normalize_by_rules rules expr.now (length out.old))
        (length out.old) result (used.new ∷ terms.new ∷ []) out.new }
{
    hogzelt::hogzelt_normalize_by_rules(rules, expr, out, used, terms)
}

// The form s with its terms refined; returns the refusal, 0 where it is accepted.
#[unsafe(no_mangle)]
pub extern "C" fn hogzelt_refine_terms(
    s: &[u8],
    out: &mut [u8],
    used: &mut u64,
    terms: &mut u64,
) -> u64
    ensures { Gives (refine_terms s.now (length out.old))
        (length out.old) result (used.new ∷ terms.new ∷ []) out.new }
{
    hogzelt::hogzelt_refine_terms(s, out, used, terms)
}

// The form s with its structure recovered; returns the refusal, 0 where it is accepted.
#[unsafe(no_mangle)]
pub extern "C" fn hogzelt_recover_structure(
    s: &[u8],
    out: &mut [u8],
    used: &mut u64,
    terms: &mut u64,
) -> u64
    ensures { Gives (recover_structure s.now (length out.old))
        (length out.old) result (used.new ∷ terms.new ∷ []) out.new }
{
    hogzelt::hogzelt_recover_structure(s, out, used, terms)
}

// The form s with its terms coalesced; returns the refusal, 0 where it is accepted.
#[unsafe(no_mangle)]
pub extern "C" fn hogzelt_coalesce_terms(
    s: &[u8],
    out: &mut [u8],
    used: &mut u64,
    terms: &mut u64,
) -> u64
    ensures { Gives (coalesce_terms s.now (length out.old))
        (length out.old) result (used.new ∷ terms.new ∷ []) out.new }
{
    hogzelt::hogzelt_coalesce_terms(s, out, used, terms)
}

// The form s with its complex atoms flattened, and whether there was one; returns the refusal, 0
// where it is accepted.
#[unsafe(no_mangle)]
pub extern "C" fn hogzelt_flatten_complex_atoms(
    s: &[u8],
    out: &mut [u8],
    used: &mut u64,
    terms: &mut u64,
    flattened: &mut u64,
) -> u64
    ensures { Gives (flatten_complex_atoms s.now (length out.old))
        (length out.old) result (used.new ∷ terms.new ∷ flattened.new ∷ [])
        out.new }
{
    hogzelt::hogzelt_flatten_complex_atoms(s, out, used, terms, flattened)
}

// The classes of the places of s; returns the refusal, 0 where it is accepted.
#[unsafe(no_mangle)]
pub extern "C" fn hogzelt_compute_partitions(s: &[u8], out: &mut [u64], classes: &mut u64) -> u64
    ensures { Gives (compute_partitions s.now (length out.old))
        (length out.old) result (classes.new ∷ []) out.new }
{
    hogzelt::hogzelt_compute_partitions(s, out, classes)
}

// The form in use after a list of passes, run from an expression; two words of calls for each: the
// number of the pass and the length of its result slice. Returns the refusal, 0 where it is accepted.
#[unsafe(no_mangle)]
pub extern "C" fn hogzelt_run_passes(
    expr: &[u8],
    calls: &[u64],
    sheet: &mut [u8],
    spare: &mut [u8],
    used: &mut u64,
    terms: &mut u64,
) -> u64
    ensures gives { Gives (run_passes expr.now calls.now (length sheet.old)
        (length spare.old)) (length sheet.old) result (used.new ∷ terms.new ∷ [])
        sheet.new }
    ensures spare_after { spare.new ≡ replicate (length spare.old) 0 }
{
    hogzelt::hogzelt_run_passes(expr, calls, sheet, spare, used, terms)
}

// The best seven days of a run: 1 in found where there are such, their total and the first day.
// Returns the refusal, 0 where the run is accepted.
#[unsafe(no_mangle)]
pub extern "C" fn hogzelt_best_week(
    run: &[u8],
    found: &mut u64,
    total: &mut i64,
    day: &mut u64,
) -> u64
    ensures { IsBestWeek run.now result found.new total.new day.new }
{
    hogzelt::hogzelt_best_week(run, found, total, day)
}

// Whether two expressions have the same value under every assignment: 1 in equal where they have;
// where they have not, the place and the index of the first assignment that tells them apart.
// Returns the refusal, 0 where they are judged.
#[unsafe(no_mangle)]
pub extern "C" fn hogzelt_judge(
    left: &[u8],
    right: &[u8],
    equal: &mut u64,
    place: &mut u64,
    index: &mut u64,
) -> u64
    ensures { IsVerdict (judge_of left.now right.now) result
        equal.new place.new index.new }
{
    hogzelt::hogzelt_judge(left, right, equal, place, index)
}
