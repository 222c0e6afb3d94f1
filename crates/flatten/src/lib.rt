// Flattening the atoms of one variable: f(0), and the bits that the variable passes or inverts. The
// table of the result is lent beside its bytes, the coefficients in words of their own.
#![tactic(auto)]

ghost use Rattle.std.specs.Prelude.{◌≡◌, true, [], ◌-◌, ◌^◌, ◌<◌, ◌≤◌, length, get_or};
ghost use Rattle.std.specs.Int.Bits.{bit_and};
ghost use Rattle.base.specs.Put.{padded};
ghost use Rattle.record.specs.Span.{sized};
ghost use Rattle.record.specs.Decode.{decode};
ghost use Rattle.expr_utils.specs.Utils.{has_var_dep};
ghost use Rattle.expr.specs.Vars.{next_var};
ghost use Rattle.semilinear.specs.Items.{after_atoms};
ghost use Rattle.semilinear.specs.Valid.{is_semilinear};
ghost use Rattle.semilinear.specs.DecodeForm.{read_form, read_rows};
ghost use Rattle.semilinear.specs.Answers.{GivesForm};
ghost use Rattle.semilinear.specs.PassOutcome.{limit_outcome};
ghost use Rattle.structure_laws.specs.FlattenComplexAtoms.{is_plain, at_ones, flat_row, flattened};
ghost use Rattle.structure_laws.specs.FlattenComplexAtoms.{flatten_form, flatten_complex_atoms};
ghost use Rattle.flatten.specs.Flattening.{complex_tree, flat_tree, flat_constant, Extended};
ghost use Rattle.flatten.specs.Flattening.{VariableReady, FrontReady};
ghost use Rattle.flatten.specs.Flattening.{RowsFlattened};
ghost use Rattle.base.specs.Limits.{form_bytes};

use atom_table::{pass, read};
use bare::constant;
use base::limits;
use base::refusal::Refusal;
use made::Made;
use record::kinds::Kind;
use semilinear::items::Rows;
use semilinear::outcome::Answer;

// Whether the tree of t, which has a variable, is a variable or a variable under masks.
fn is_plain(t: &[u8], w: u32) -> bool
    requires { (sized t.now ≡ true) × (w ≤ 64) × (has_var_dep (decode t.now) ≡ true) }
    ensures { result ≡ is_plain w (decode t.now) }
{
    match decompose::decompose_atom(t, w) {
        Some(found) => record::kind(&t[found.start..found.end]) == Kind::Variable as u8,
        None => false,
    }
}

// Whether the tree of t, which has a variable, has one alone, is not plain and has no Shr. No variable is a number, as in
// the definition `next_var`.
fn is_complex(t: &[u8], w: u32) -> bool
    requires { (sized t.now ≡ true) × (w ≤ 64) × (has_var_dep (decode t.now) ≡ true) }
    ensures { result ≡ complex_tree w (decode t.now) }
{
    if is_plain(t, w) {
        return false;
    }
    let first = expr::vars::next_var(t, 0);
    if first == expr::vars::NO_VAR {
        return false;
    }
    if expr::vars::next_var(t, first + 1) != expr::vars::NO_VAR {
        return false;
    }
    let found = expr_utils::traits_of(t);
    !found.shr
}

// The value of t where all bits of variable v are 1, and every other variable is 0.
fn at_ones(t: &[u8], v: u64, w: u32) -> u64
    requires { (sized t.now ≡ true) × (w ≤ 64) }
    ensures { result ≡ at_ones w v (decode t.now) }
{
    let ones = [arith::bitmask(w)];
    expr::value::value_from(t, &ones, v, w)
}

// The bits of a that b does not have, at w bits.
fn bits_without(a: u64, b: u64, w: u32) -> u64
    requires { (w ≤ 64) × (b < 2 ^ w) }
    ensures { result ≡ bit_and a (2 ^ w - 1 - b) }
{
    a & arith::mod_not(b, w)
}

// A new row for the bits m of variable v, with the coefficient c, unless there are none.
fn flat_row(v: u64, m: u64, c: u64, w: u8, made: &mut Made, coeffs: &mut [u64], out: &mut [u8])
    requires { VariableReady w 1 v made.old out.old }
    ensures { Extended w 1 (flat_row w v m c) (λ k. k)
        made.old out.old coeffs.old
        made.new out.new coeffs.new }
{
    if m == 0 {
        return;
    }
    let row = made.rows as usize;
    let mut b = [0u8; limits::RECORD_LENGTH];
    record::write::put_variable(&mut b, 0, v, w);
    made::create_masked(made, out, &b, expr::hash::structural_hash(&b), m, w);
    if row >= coeffs.len() {
        return;
    }
    coeffs[row] = c;
}

// The atom with the tree t and the coefficient c, flattened: the bits passed before those inverted.
fn flatten_atom(t: &[u8], c: u64, w: u8, made: &mut Made, coeffs: &mut [u64], out: &mut [u8])
    requires { (sized t.now ≡ true)
        × VariableReady w 2 (next_var 0 (decode t.now)) made.old out.old }
    ensures { Extended w 2 (flat_tree w (decode t.now) c)
        (flat_constant w (decode t.now) c)
        made.old out.old coeffs.old
        made.new out.new coeffs.new }
{
    let width = w as u32;
    let v = expr::vars::next_var(t, 0);
    let zeroed = expr::value::constant_value(t, width);
    let raised = at_ones(t, v, width);
    constant::add_constant(made, arith::mod_mul(c, zeroed, width), width);
    let passed = bits_without(raised, zeroed, width);
    let inverted = bits_without(zeroed, raised, width);
    flat_row(v, passed, c, w, made, coeffs, out);
    let negated = arith::mod_neg(c, width);
    flat_row(v, inverted, negated, w, made, coeffs, out);
}

// All rows of f in turn; returns whether one was flattened. The terms begin at `terms`. An atom is
// flattened where it is complex, and else keeps its coefficient.
fn flatten_rows(
    f: &[u8],
    terms: usize,
    w: u8,
    made: &mut Made,
    coeffs: &mut [u64],
    out: &mut [u8],
) -> bool
    requires { FrontReady w f.now terms made.old coeffs.old out.old }
    ensures { RowsFlattened w (read_rows 0 f.now (after_atoms f.now))
        made.old.constant (length out.old) result
        made.new out.new coeffs.new }
{
    let mut flag = false;
    for row in Rows::of(f, terms) {
        if let Some(coeff) = row.coeff {
            if is_complex(row.atom.tree, w as u32) {
                flatten_atom(row.atom.tree, coeff, w, made, coeffs, out);
                flag = true;
            } else {
                coeffs[row.number as usize] = coeff;
            }
        }
    }
    flag
}

// Flattens a form into a slice of 57,360 bytes, which is all zeros.
fn flatten_form(s: &[u8], out: &mut [u8]) -> Result<Answer, Refusal>
    requires { (is_semilinear s.now ≡ true) × (out.old ≡ padded form_bytes []) }
    ensures { GivesForm (limit_outcome (flatten_form (read_form s.now))
        (flattened (read_form s.now)).flag) form_bytes result out.new }
{
    let w = record::width(s);
    let constant = record::literal(s);
    let tab = pass::copy_atoms(s, out);
    let terms = tab.at;
    let count = tab.count;
    let mut made = Made {
        table: tab,
        rows: count,
        constant,
    };
    let mut coeffs = [0u64; limits::ATOM_LIMIT];
    let flag = flatten_rows(record::body(s), terms, w, &mut made, &mut coeffs, out);
    pass::finish(made.table, &coeffs, 1, made.constant, w, flag, out)
}

// The form s with its complex atoms flattened, written to out; or a refusal: 1, 2, 9 or 10.
// Each pass has its own such function: two lines, and a clause of its own.
pub fn flatten_complex_atoms(s: &[u8], out: &mut [u8]) -> Result<Answer, Refusal>
    ensures { GivesForm (flatten_complex_atoms s.now (length out.old))
        (length out.old) result out.new }
{
    read::open_bytes(s, out)?;
    flatten_form(s, out)
}
