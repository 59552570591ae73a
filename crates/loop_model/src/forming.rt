//! Forms polynomials from expressions.

ghost use Rattle.std.specs.Prelude.{◌≡◌, ◌≢◌, ◌<◌, ◌≤◌, ◌↔◌, ℕ, List, pos, [], length, get_or, All, Ok, IfOk, IfErr, IfSome, IsTrue};
ghost use Rattle.algebra.specs.Fraction.{ℚ, whole, inverse};
ghost use Rattle.polynomials.specs.Terms.{constant, times};
ghost use Rattle.frac128.specs.FracMeaning.{fraction_of};
ghost use Rattle.loops.specs.Program as program;
ghost use Rattle.loops.specs.WellFormed.{Uses};
ghost use Rattle.poly.specs.Seen.{terms_in, terms_each, arity_of};
ghost use Rattle.poly.specs.Standing.{IsInVariables};
ghost use Rattle.monos.specs.Variables.{most_variables};
ghost use Rattle.loop_model.specs.FracPoly.{FracPoly};
ghost use Rattle.loop_model.specs.ExpressionView.{expr_of, unary_of, binary_of, IsDefined};
ghost use Rattle.loop_model.specs.Operations.{opposite_at, sum_at, difference_at, product_at, quotient_at, partial_powers, power_of, HasHighDegree};
ghost use Rattle.loop_model.specs.Spine.{first_operand};
ghost use Rattle.loop_model.specs.Stops as stops;
ghost use Rattle.loop_model.specs.Stops.{Forms, Does, IsFormed, IsValueAt, IsFreeAt, StopsAt};

use crate::{BinaryOperator, Expr, MapError, UnaryOperator};
use frac128::{Frac, Whole};
use monos::Grevlex;
use poly::Poly;
use ring_laws::ArithmeticError;
use std::alloc::Global;

/// The greatest degree of a product or a partial power.
const MOST_DEGREE: u64 = 64;

/// The greatest number of terms of a result.
const MOST_TERMS: usize = 4096;

/// The polynomial of the expression, where the variables have the values of `state`, which share one arity; the result has it too,
/// or the arity 0 where the state is empty. Each operator is tested in turn, operands from left to right and then the operator:
/// the degree of a product, the weight of the operation, and the number of terms.
#[cycle(expr_poly)]
pub fn expr_poly(
    alloc: Global,
    expr: &Expr,
    state: &Vec<Poly<Frac, Grevlex>>,
) -> Result<Poly<Frac, Grevlex>, MapError>
    requires state { All (IsInVariables (arity_of state.now.items)) state.now.items }
    requires uses { Uses (λ i. i < length state.now.items) (expr_of expr.now) }
    ensures value { IfOk result (IsValueAt state.now.items (expr_of expr.now)) }
    ensures free { IfOk result (λ _. IsFreeAt state.now.items (expr_of expr.now)) }
    ensures stops { IfErr result (StopsAt state.now.items (expr_of expr.now)) }
{
    let mut parts = expr.left_spine(alloc)?;
    let mut poly = Poly::zero(alloc, Grevlex, 0);
    while let Some(part) = parts.pop() {
        poly = part_poly(alloc, part, &poly, state)?;
    }
    Ok(poly)
}

/// The polynomial of the expression, where `first` is that of its first operand.
#[cycle(expr_poly)]
fn part_poly(
    alloc: Global,
    part: &Expr,
    first: &Poly<Frac, Grevlex>,
    state: &Vec<Poly<Frac, Grevlex>>,
) -> Result<Poly<Frac, Grevlex>, MapError>
    requires state { All (IsInVariables (arity_of state.now.items)) state.now.items }
    requires uses { Uses (λ i. i < length state.now.items) (expr_of part.now) }
    requires first { IfSome (first_operand (expr_of part.now))
        (λ e. IsFormed state.now.items e (Ok first.now)) }
    ensures { IsFormed state.now.items (expr_of part.now) result }
{
    match part {
        Expr::Number { value } => number(alloc, state, value),
        Expr::Variable { index } => variable(alloc, state, *index),
        Expr::Unary { at, operator, .. } => unary_poly(alloc, *at, operator, first),
        Expr::Binary {
            at,
            operator,
            right,
            ..
        } => {
            let right = expr_poly(alloc, right, state)?;
            binary_poly(alloc, *at, operator, first, &right)
        }
    }
}

/// The answer of an operator with one operand.
fn unary_poly(
    alloc: Global,
    at: usize,
    operator: &UnaryOperator,
    of: &Poly<Frac, Grevlex>,
) -> Result<Poly<Frac, Grevlex>, MapError>
    requires { IsDefined operator.now }
    ensures { (ps : List FracPoly) (e : program.Expr ℕ) → IsFormed ps e (Ok of.now)
        → IsFormed ps (unary_of operator.now at e) result }
{
    match operator {
        UnaryOperator::Neg => opposite(alloc, at, of),
        UnaryOperator::Div { by } => quotient(alloc, at, of, by),
        UnaryOperator::Power { exponent } => power(alloc, at, of, *exponent),
    }
}

/// The answer of an operator with two operands.
fn binary_poly(
    alloc: Global,
    at: usize,
    operator: &BinaryOperator,
    left: &Poly<Frac, Grevlex>,
    right: &Poly<Frac, Grevlex>,
) -> Result<Poly<Frac, Grevlex>, MapError>
    requires { IsInVariables left.now.arity right.now }
    ensures { (ps : List FracPoly) (e f : program.Expr ℕ) → IsFormed ps e (Ok left.now)
        → IsFormed ps f (Ok right.now) → IsFormed ps (binary_of operator.now at e f) result }
{
    match operator {
        BinaryOperator::Add => sum(alloc, at, left, right),
        BinaryOperator::Sub => difference(alloc, at, left, right),
        BinaryOperator::Mul => product(alloc, at, left, right),
    }
}

/// The number as a polynomial in the variables of the state.
fn number(
    alloc: Global,
    state: &Vec<Poly<Frac, Grevlex>>,
    value: &Whole,
) -> Result<Poly<Frac, Grevlex>, MapError>
    ensures { let m = arity_of state.now.items in
        Forms m [] (constant m (whole value.now.value)) result }
{
    let arity = state.first().map_or(0, Poly::arity);
    Ok(Poly::constant(alloc, Grevlex, arity, &Frac::whole(*value))?)
}

/// One over the number.
fn inverse(value: &Whole) -> Frac
    requires { value.now.value ≢ pos 0 }
    ensures { fraction_of result ≡ inverse (whole value.now.value) }
{
    Frac::whole(*value).reciprocal()
}

/// The value of the variable with this index.
fn variable(
    alloc: Global,
    state: &Vec<Poly<Frac, Grevlex>>,
    index: usize,
) -> Result<Poly<Frac, Grevlex>, MapError>
    requires state { All (IsInVariables (arity_of state.now.items)) state.now.items }
    requires index { index < length state.now.items }
    ensures { Forms (arity_of state.now.items) [] (get_or (terms_each state.now.items) index [])
        result }
{
    Ok(state[index].copy(alloc)?)
}

/// The answer of the operator at this offset, whose operation was done.
fn answer_at(
    at: usize,
    done: Result<Poly<Frac, Grevlex>, ArithmeticError>,
) -> Result<Poly<Frac, Grevlex>, MapError>
    ensures { result ≡ stops.answer_at at done }
{
    match done {
        Ok(poly) if poly.terms().len() <= MOST_TERMS => Ok(poly),
        Ok(_) => Err(MapError::Limit { at }),
        Err(ArithmeticError::Wide) => Err(MapError::Wide { at }),
        Err(ArithmeticError::Memory) => Err(MapError::Memory),
    }
}

fn opposite(
    alloc: Global,
    at: usize,
    of: &Poly<Frac, Grevlex>,
) -> Result<Poly<Frac, Grevlex>, MapError>
    ensures { Does of.now.arity (opposite_at at (terms_in of.now)) result }
{
    answer_at(at, Ok(of.neg(alloc)?))
}

/// The sum of two polynomials of one arity, as the operator at this offset forms it. `Limit` and
/// `Wide` tell the offset: the result has more than 4,096 terms, or a number may not fit.
pub fn sum(
    alloc: Global,
    at: usize,
    left: &Poly<Frac, Grevlex>,
    right: &Poly<Frac, Grevlex>,
) -> Result<Poly<Frac, Grevlex>, MapError>
    requires { IsInVariables left.now.arity right.now }
    ensures { Does left.now.arity (sum_at at (terms_in left.now) (terms_in right.now)) result }
{
    answer_at(at, left.add(alloc, right))
}

/// Their difference, in the same way.
pub fn difference(
    alloc: Global,
    at: usize,
    left: &Poly<Frac, Grevlex>,
    right: &Poly<Frac, Grevlex>,
) -> Result<Poly<Frac, Grevlex>, MapError>
    requires { IsInVariables left.now.arity right.now }
    ensures { Does left.now.arity (difference_at at (terms_in left.now) (terms_in right.now))
        result }
{
    answer_at(at, left.sub(alloc, right))
}

/// Their product, in the same way. `Limit` comes also where its degree is above 64, and this is
/// tested first.
pub fn product(
    alloc: Global,
    at: usize,
    left: &Poly<Frac, Grevlex>,
    right: &Poly<Frac, Grevlex>,
) -> Result<Poly<Frac, Grevlex>, MapError>
    requires { IsInVariables left.now.arity right.now }
    ensures { Does left.now.arity (product_at at (terms_in left.now) (terms_in right.now)) result }
{
    if has_high_product(left, right) {
        return Err(MapError::Limit { at });
    }
    answer_at(at, left.mul(alloc, right))
}

/// Whether the degree of the product is above the limit.
fn has_high_product(left: &Poly<Frac, Grevlex>, right: &Poly<Frac, Grevlex>) -> bool
    requires { IsInVariables left.now.arity right.now }
    ensures { IsTrue
        result ↔ HasHighDegree left.now.arity (times ℚ (terms_in left.now) (terms_in right.now)) }
{
    match (left.degree(), right.degree()) {
        (Some(left), Some(right)) => u64::from(left) + u64::from(right) > MOST_DEGREE,
        _ => false,
    }
}

fn quotient(
    alloc: Global,
    at: usize,
    of: &Poly<Frac, Grevlex>,
    by: &Whole,
) -> Result<Poly<Frac, Grevlex>, MapError>
    requires { by.now.value ≢ pos 0 }
    ensures { Does of.now.arity (quotient_at of.now.arity at (terms_in of.now) by.now.value)
        result }
{
    answer_at(at, of.scale(alloc, &inverse(by)))
}

/// The power, by one product with the base after another.
fn power(
    alloc: Global,
    at: usize,
    base: &Poly<Frac, Grevlex>,
    exponent: u32,
) -> Result<Poly<Frac, Grevlex>, MapError>
    ensures { let m = base.now.arity in let q = terms_in base.now in
        Forms m (partial_powers m at q exponent) (power_of m q exponent) result }
{
    let mut power = one(alloc, base.arity())?;
    for _step in 0..exponent {
        power = product(alloc, at, base, &power)?;
    }
    Ok(power)
}

fn one(alloc: Global, arity: usize) -> Result<Poly<Frac, Grevlex>, MapError>
    requires { arity ≤ most_variables }
    ensures { Forms arity [] (constant arity ℚ.one) result }
{
    match Poly::one(alloc, Grevlex, arity) {
        Ok(poly) => Ok(poly),
        Err(_) => Err(MapError::Memory),
    }
}
