//! The solution of a recurrence with one term.
ghost use Rattle.std.specs.Prelude.{◌≡◌, ◌≢◌, ◌≤◌, length, IfOk, IsErrOf};
ghost use Rattle.algebra.specs.Fraction.{ℚ};
ghost use Rattle.frac128.specs.FracMeaning.{fraction_of};
ghost use Rattle.poly.specs.View.{terms_of};
ghost use Rattle.coprime_base.specs.Sizes.{sizes};
ghost use Rattle.solvable_maps.specs.Expo.{power_terms as terms_with};
ghost use Rattle.solvable_maps.specs.Iterations.{width};
ghost use Rattle.monos.specs.Variables.{most_variables};
ghost use Rattle.expo.specs.Bases.{IsCoprimeBase};
ghost use Rattle.expo.specs.Numbers.{number_at};
ghost use Rattle.expo.specs.Powers.{key_in, arity_with};
ghost use Rattle.expo.specs.Rows.{IsPastOther, IsPastEqual};
ghost use Rattle.expo.specs.Solutions.{AreOther, AreEqual, AreTabled, IsPastTable, IsTabled, IsSolutionOf, IsPastSolution, most_degree, most_numbers};

use crate::Expo;
use crate::powers::{Evaluated, Key, Power};
use crate::table::{equal_numbers, other_numbers};
use crate::widths::width;
use frac128::{Frac, Whole};
use monos::Grevlex;
use poly::{Poly, Term};
use ring_laws::{ArithmeticError, Ring};
use std::alloc::{AllocError, Global};

/// The solution y of y(n+1) = λ y(n) + n^degree σ^n with y(0) = 0, where σ is the number of `inhomogeneity` and λ that of `own`.
/// `Wide` only where a number of it, or an operation with them, is past.
pub fn solve_term(
    alloc: Global,
    base: &Vec<Whole>,
    vars: usize,
    degree: u32,
    inhomogeneity: &Power,
    own: &Power,
) -> Result<Expo, ArithmeticError>
    requires base { IsCoprimeBase (sizes base.now.items) }
    requires degree { degree ≤ most_degree }
    requires inhomogeneity { length inhomogeneity.now.exponents.items ≡ length base.now.items }
    requires own { length own.now.exponents.items ≡ length base.now.items }
    requires arity { width (length base.now.items) vars ≤ most_variables }
    ensures table { IfOk result (IsTabled (sizes base.now.items) vars degree inhomogeneity.now
        own.now) }
    ensures solves { IfOk result
        (IsSolutionOf (sizes base.now.items) vars degree inhomogeneity.now own.now) }
    ensures wide { IsErrOf result ArithmeticError.Wide
        → IsPastSolution (sizes base.now.items) degree inhomogeneity.now own.now }
{
    let inhomogeneity = inhomogeneity.evaluate(alloc, base)?;
    let own = own.evaluate(alloc, base)?;
    let terms = terms_of_table(alloc, vars, degree, &inhomogeneity, &own)?;
    let arity = width(base.len(), vars);
    let body = Poly::from_distinct(alloc, Grevlex, arity, terms)?;
    Ok(Expo::of(alloc, base, vars, body)?)
}

/// The terms, by the number of `inhomogeneity` and that of `own`.
fn terms_of_table(
    alloc: Global,
    vars: usize,
    degree: u32,
    inhomogeneity: &Evaluated,
    own: &Evaluated,
) -> Result<Vec<Term<Frac>>, ArithmeticError>
    requires degree { degree ≤ most_degree }
    requires nonzero { fraction_of own.now.number ≢ ℚ.zero }
    requires inhomogeneity { arity_with inhomogeneity.now.key vars ≤ most_variables }
    requires own { arity_with own.now.key vars ≤ most_variables }
    ensures terms { IfOk result (λ out. AreTabled vars degree
        (fraction_of inhomogeneity.now.number) (fraction_of own.now.number)
        (key_in inhomogeneity.now.key) (key_in own.now.key) (terms_of fraction_of out.items)) }
    ensures wide { IsErrOf result ArithmeticError.Wide
        → IsPastTable (fraction_of inhomogeneity.now.number) (fraction_of own.now.number) degree }
{
    if inhomogeneity.number == own.number {
        equal_terms(alloc, vars, degree, own)
    } else {
        other_terms(alloc, vars, degree, inhomogeneity, own)
    }
}

/// The terms where σ is not λ.
fn other_terms(
    alloc: Global,
    vars: usize,
    degree: u32,
    inhomogeneity: &Evaluated,
    own: &Evaluated,
) -> Result<Vec<Term<Frac>>, ArithmeticError>
    requires degree { degree ≤ most_degree }
    requires different { fraction_of inhomogeneity.now.number ≢ fraction_of own.now.number }
    requires inhomogeneity { arity_with inhomogeneity.now.key vars ≤ most_variables }
    requires own { arity_with own.now.key vars ≤ most_variables }
    ensures terms { IfOk result (λ out. AreOther vars degree
        (fraction_of inhomogeneity.now.number) (fraction_of own.now.number)
        (key_in inhomogeneity.now.key) (key_in own.now.key) (terms_of fraction_of out.items)) }
    ensures wide { IsErrOf result ArithmeticError.Wide
        → IsPastOther (fraction_of inhomogeneity.now.number) (fraction_of own.now.number) degree }
{
    let numbers = other_numbers(alloc, degree, &inhomogeneity.number, &own.number)?;
    let first = numbers[0];
    let mut terms = terms_by_power(alloc, vars, &inhomogeneity.key, &numbers)?;
    let mono = own.key.monomial(alloc, 0, vars)?;
    terms.push(Term {
        mono,
        coef: first.neg(),
    })?;
    Ok(terms)
}

/// The terms where σ is λ.
fn equal_terms(
    alloc: Global,
    vars: usize,
    degree: u32,
    own: &Evaluated,
) -> Result<Vec<Term<Frac>>, ArithmeticError>
    requires degree { degree ≤ most_degree }
    requires nonzero { fraction_of own.now.number ≢ ℚ.zero }
    requires own { arity_with own.now.key vars ≤ most_variables }
    ensures terms { IfOk result (λ out. AreEqual vars degree
        (fraction_of own.now.number) (key_in own.now.key) (terms_of fraction_of out.items)) }
    ensures wide { IsErrOf result ArithmeticError.Wide
        → IsPastEqual (fraction_of own.now.number) degree }
{
    let numbers = equal_numbers(alloc, degree, &own.number)?;
    Ok(terms_by_power(alloc, vars, &own.key, &numbers)?)
}

/// The numbers with the powers of n, each times a power.
fn terms_by_power(
    alloc: Global,
    vars: usize,
    key: &Key,
    numbers: &[Frac],
) -> Result<Vec<Term<Frac>>, AllocError>
    requires few { length numbers.now ≤ most_numbers }
    requires key { arity_with key.now vars ≤ most_variables }
    ensures terms { IfOk result (λ out. terms_of fraction_of out.items
        ≡ terms_with vars (key_in key.now) (number_at numbers.now) 0 (length numbers.now)) }
{
    let mut terms = Vec::with_capacity(alloc, numbers.len())?;
    for iterations in 0..numbers.len() {
        let mono = key.monomial(alloc, iterations as u16, vars)?;
        terms.push(Term {
            mono,
            coef: numbers[iterations],
        })?;
    }
    Ok(terms)
}
