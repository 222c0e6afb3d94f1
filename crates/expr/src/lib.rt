// Expressions in 16-byte records: their value, structural hash and variables.
#![tactic(auto)]

pub mod hash;
pub mod value;
pub mod vars;

ghost use Rattle.base.specs.Refusal.{number_of, value_of};
ghost use Rattle.expr.specs.ExprValue.{IsExprValue};

use base::refusal::Refusal;

// The value of the expression t under an assignment; or a refusal: 1 or 3 to 6.
pub fn expr_value(t: &[u8], vars: &[u64]) -> Result<u64, Refusal>
    ensures { IsExprValue t.now vars.now (number_of result) (value_of result) }
{
    expr_refusal::expr_refusal(t)?;
    let w = record::width(t);
    Ok(value::value_at(t, vars, w as u32))
}
