//! Values of expressions.

ghost use Rattle.std.specs.Prelude.{◌≡◌, ◌<◌, length, option_map};
ghost use Rattle.std.specs.Result.{result_ok};
ghost use Rattle.loops.specs.WellFormed.{Uses};
ghost use Rattle.frac128.specs.FracMeaning.{fraction_of};
ghost use Rattle.loop_model.specs.ExpressionView.{expr_of, IsDefined};
ghost use Rattle.loop_runs.specs.Checked as checked;
ghost use Rattle.loop_runs.specs.Checked.{checked_value, checked_power};
ghost use Rattle.loop_runs.specs.Seen.{numbers_of};

use frac128::Frac;
use loop_model::{BinaryOperator, Expr, UnaryOperator};
use ring_laws::{Field, Ring, Wide};

/// The value of the expression at the state. `Wide` exactly where an operation on the way is too wide.
pub fn value_at(expr: &Expr, state: &[Frac]) -> Result<Frac, Wide>
    requires { Uses (λ i. i < length state.now) (expr_of expr.now) }
    ensures { option_map fraction_of (result_ok result) ≡ checked_value (expr_of expr.now)
        (numbers_of state.now) }
{
    let mut value = Frac::zero();
    put_value(expr, state, &mut value)?;
    Ok(value)
}

/// Puts the value of the expression in place, so that what waits for an operand holds one number.
#[tactic(auto, unfolding(loops::specs::WellFormed::Uses, loop_model::specs::ExpressionView::expr_of), using(crate::proofs::CheckedValues::values_of_parts))]
fn put_value(expr: &Expr, state: &[Frac], value: &mut Frac) -> Result<(), Wide>
    requires { Uses (λ i. i < length state.now) (expr_of expr.now) }
    ensures { option_map (λ _. fraction_of value.new) (result_ok result)
        ≡ checked_value (expr_of expr.now) (numbers_of state.now) }
{
    match expr {
        Expr::Number { value: number } => {
            *value = Frac::whole(*number);
            Ok(())
        }
        Expr::Variable { index } => {
            *value = state[*index];
            Ok(())
        }
        Expr::Unary { operator, of, .. } => {
            put_value(of, state, value)?;
            *value = unary_value(operator, value)?;
            Ok(())
        }
        Expr::Binary {
            operator,
            left,
            right,
            ..
        } => {
            put_value(left, state, value)?;
            let mut second = Frac::zero();
            put_value(right, state, &mut second)?;
            *value = binary_value(operator, value, &second)?;
            Ok(())
        }
    }
}

/// What an operator with one operand gives. `Wide` exactly where it is too wide.
fn unary_value(operator: &UnaryOperator, of: &Frac) -> Result<Frac, Wide>
    requires { IsDefined operator.now }
    ensures { option_map fraction_of (result_ok result)
        ≡ checked.unary_value operator.now (fraction_of of.now) }
{
    match operator {
        UnaryOperator::Neg => Ok(of.neg()),
        UnaryOperator::Div { by } => of.div(&Frac::whole(*by)),
        UnaryOperator::Power { exponent } => power_of(of, *exponent),
    }
}

/// What an operator with two operands gives. `Wide` exactly where it is too wide.
fn binary_value(operator: &BinaryOperator, left: &Frac, right: &Frac) -> Result<Frac, Wide>
    ensures { option_map fraction_of (result_ok result)
        ≡ checked.binary_value operator.now (fraction_of left.now) (fraction_of right.now) }
{
    match operator {
        BinaryOperator::Add => left.add(right),
        BinaryOperator::Sub => left.sub(right),
        BinaryOperator::Mul => left.mul(right),
    }
}

/// The power, multiplied from left to right.
fn power_of(base: &Frac, exponent: u32) -> Result<Frac, Wide>
    ensures { option_map fraction_of (result_ok result)
        ≡ checked_power (fraction_of base.now) exponent }
{
    let mut product = Frac::one();
    for _iteration in 0..exponent {
        product = product.mul(base)?;
    }
    Ok(product)
}
