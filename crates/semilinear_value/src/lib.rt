// The value of a semilinear form under an assignment: atoms and terms are read side by side, once.
#![tactic(auto)]

ghost use Rattle.std.specs.Prelude.{◌≡◌, ◌+◌, ◌%◌, ◌^◌};
ghost use Rattle.base.specs.Refusal.{number_of, value_of};
ghost use Rattle.semilinear.specs.Form.{sum_rows};
ghost use Rattle.semilinear.specs.Items.{after_atoms};
ghost use Rattle.semilinear.specs.DecodeForm.{rows_of};
ghost use Rattle.semilinear_value.specs.Running.{SumReady};
ghost use Rattle.semilinear_value.specs.Value.{IsSemilinearValue};

use base::refusal::Refusal;
use semilinear::items::Rows;
use semilinear::scan;

// The constant and each coefficient times its atom, modulo 2^w; the terms begin at `terms`.
pub fn sum_rows(f: &[u8], terms: usize, constant: u64, vars: &[u64], w: u32) -> u64
    requires { SumReady w f.now terms constant }
    ensures { result ≡ (constant + sum_rows w vars.now (rows_of 0 f.now (after_atoms f.now))) % 2 ^ w }
{
    let mut sum = constant;
    for row in Rows::of(f, terms) {
        if let Some(coeff) = row.coeff {
            let atom = expr::value::value_at(row.atom.tree, vars, w);
            sum = arith::mod_add(sum, arith::mod_mul(coeff, atom, w), w);
        }
    }
    sum
}

// The value of the form s under an assignment; or a refusal: 1 or 10.
pub fn semilinear_value(s: &[u8], vars: &[u64]) -> Result<u64, Refusal>
    ensures { IsSemilinearValue s.now vars.now (number_of result) (value_of result) }
{
    scan::semilinear_refusal(s)?;
    let w = record::width(s);
    let constant = record::literal(s);
    let f = record::body(s);
    let terms = scan::terms_at(f);
    Ok(sum_rows(f, terms, constant, vars, w as u32))
}
