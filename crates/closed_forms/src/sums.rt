//! Sums of polynomials, each times a number.
ghost use Rattle.std.specs.Prelude.{◌≡◌, ◌≤◌, ◌<◌, ◌++◌, All, length, IfOk, OnOk, IsErrOf};
ghost use Rattle.algebra.specs.Fraction.{rationals};
ghost use Rattle.frac128.specs.FracMeaning.{fraction_of};
ghost use Rattle.linear.specs.Rows.{fractions_of};
ghost use Rattle.machines.specs.Collect.{scale_terms};
ghost use Rattle.poly.specs.Seen.{terms_in, terms_each};
ghost use Rattle.poly.specs.View.{terms_of};
ghost use Rattle.solvable_maps.specs.AfterIterations.{mine, rest_of as without};
ghost use Rattle.monos.specs.Variables.{most_variables};
ghost use Rattle.closed_forms.specs.Inhomogeneities.{part};
ghost use Rattle.closed_forms.specs.Sums.{mix, IsPastScaled, IsPastProducts, IsPastMix};

use frac128::Frac;
use monos::Grevlex;
use poly::{Poly, Term};
use ring_laws::{ArithmeticError, Ring};
use std::alloc::{AllocError, Global};

/// The sum of the polynomials, each times its number, as far as there are both.
/// `Wide` only where a product of numbers does not fit, or the weight of the sum is past.
pub(crate) fn weighted_sum(
    alloc: Global,
    numbers: &[Frac],
    polys: &[Poly<Frac, Grevlex>],
    arity: usize,
) -> Result<Poly<Frac, Grevlex>, ArithmeticError>
    requires few { arity ≤ most_variables }
    requires arities { All (λ p. p.arity ≡ arity) polys.now }
    ensures arity { IfOk result (λ p. p.arity ≡ arity) }
    ensures terms { IfOk result (λ p. terms_in p
        ≡ part (fractions_of numbers.now) (terms_each polys.now)) }
    ensures wide { IsErrOf result ArithmeticError.Wide
        → IsPastMix (fractions_of numbers.now) (terms_each polys.now) }
{
    let mut terms = Vec::new(alloc);
    push_mixed(alloc, &mut terms, numbers, polys)?;
    Poly::from_terms(alloc, Grevlex, arity, terms)
}

/// Puts the terms of the polynomials, each times its number, behind the others.
fn push_mixed(
    alloc: Global,
    out: &mut Vec<Term<Frac>>,
    numbers: &[Frac],
    polys: &[Poly<Frac, Grevlex>],
) -> Result<(), ArithmeticError>
    ensures terms { OnOk result (terms_of fraction_of out.new.items
        ≡ terms_of fraction_of out.old.items
        ++ mix (fractions_of numbers.now) (terms_each polys.now)) }
    ensures wide { IsErrOf result ArithmeticError.Wide
        → IsPastProducts (fractions_of numbers.now) (terms_each polys.now) }
{
    let (Some((number, numbers)), Some((poly, polys))) = (
        numbers.split_first(),
        polys.split_first(),
    ) else {
        return Ok(());
    };
    push_scaled(alloc, out, number, poly.terms())?;
    push_mixed(alloc, out, numbers, polys)
}

/// Puts the terms, each times the number, behind the others. `Wide` only where a product of numbers does not fit.
fn push_scaled(
    alloc: Global,
    out: &mut Vec<Term<Frac>>,
    number: &Frac,
    terms: &[Term<Frac>],
) -> Result<(), ArithmeticError>
    ensures terms { OnOk result (terms_of fraction_of out.new.items
        ≡ terms_of fraction_of out.old.items
        ++ scale_terms rationals (fraction_of number.now) (terms_of fraction_of terms.now)) }
    ensures wide { IsErrOf result ArithmeticError.Wide
        → IsPastScaled (fraction_of number.now) (terms_of fraction_of terms.now) }
{
    for term in terms {
        let mono = term.mono.copy(alloc)?;
        let coef = number.mul(&term.coef)?;
        out.push(Term { mono, coef })?;
    }
    Ok(())
}

/// The terms of a polynomial that have no variable of a class.
pub(crate) fn rest_of(
    alloc: Global,
    poly: &Poly<Frac, Grevlex>,
    group: &[usize],
) -> Result<Poly<Frac, Grevlex>, AllocError>
    requires { All (λ j. j < poly.now.arity) group.now }
    ensures arity { IfOk result (λ p. p.arity ≡ poly.now.arity) }
    ensures terms { IfOk result (λ p. terms_in p ≡ without group.now (terms_in poly.now)) }
{
    let mut rest = Vec::new(alloc);
    for term in poly.terms() {
        if has_any(term, group) {
            continue;
        }
        let mono = term.mono.copy(alloc)?;
        rest.push(Term {
            mono,
            coef: term.coef,
        })?;
    }
    Ok(Poly::from_descending(Grevlex, poly.arity(), rest))
}

/// Whether a term has some variable of a class.
fn has_any(term: &Term<Frac>, group: &[usize]) -> bool
    requires { All (λ j. j < length term.now.mono) group.now }
    ensures { result ≡ mine group.now term.now.mono }
{
    let Some((variable, group)) = group.split_first() else {
        return false;
    };
    if term.mono.exponent(*variable) > 0 {
        return true;
    }
    has_any(term, group)
}
