//! Products of polynomials.
ghost use Rattle.std.specs.Prelude.{◌≡◌, [], ◌∷◌, length, All, IfOk, IsErrOf};
ghost use Rattle.polynomials.specs.Exponent.{plus};
ghost use Rattle.polynomials.specs.Terms.{shift, times};
ghost use Rattle.polynomials.specs.Weight.{degrees, FitsMonomial, IsPastProduct};
ghost use Rattle.poly.specs.Operations.{IsLike, multiple, shift_by as shifted_in, product as product_in, power as power_in, MultipleIsPast, ShiftIsPast, ProductIsPast, PowerIsPast};
ghost use Rattle.poly.specs.Seen.{terms_in};
ghost use Rattle.poly.specs.View.{term_of, terms_of};

use crate::grid::{dense_product, grid_for};
use crate::sums::put_nonzero;
use crate::{Poly, Term};
use monos::{Mono, Order};
use ring_laws::{ArithmeticError, Ring};
use std::alloc::Global;

impl<K: Ring, O: Order> Poly<K, O> {
    /// The product with a number. `Wide` only where its weight is past.
    pub fn scale(&self, alloc: Global, by: &K) -> Result<Poly<K, O>, ArithmeticError>
        ensures product { IfOk result (IsLike self.now (multiple (K.meaning by.now) self.now)) }
        ensures wide { IsErrOf result ArithmeticError.Wide
            → MultipleIsPast (K.meaning by.now) self.now }
    {
        let mut out = Vec::with_capacity(alloc, self.terms.len())?;
        for term in &self.terms {
            let coef = by.mul(&term.coef)?;
            put_nonzero(&mut out, term.mono.copy(alloc)?, coef);
        }
        Ok(Poly {
            order: self.order,
            arity: self.arity,
            terms: out,
        })
    }

    /// The product with a monomial. `Wide` only where a sum of exponents is above 65,535.
    pub fn shift(&self, alloc: Global, by: &Mono) -> Result<Poly<K, O>, ArithmeticError>
        requires { length by.now ≡ self.now.arity }
        ensures product { IfOk result (IsLike self.now (shifted_in by.now self.now)) }
        ensures wide { IsErrOf result ArithmeticError.Wide → ShiftIsPast by.now self.now }
    {
        Ok(Poly {
            order: self.order,
            arity: self.arity,
            terms: shift_terms(alloc, by, &self.terms)?,
        })
    }

    /// The product. `Wide` only where its weight is past, or a sum of exponents of the factors is above 65,535.
    pub fn mul(&self, alloc: Global, other: &Poly<K, O>) -> Result<Poly<K, O>, ArithmeticError>
        requires order { self.now.order ≡ other.now.order }
        requires arity { self.now.arity ≡ other.now.arity }
        ensures product { IfOk result (IsLike self.now (product_in self.now other.now)) }
        ensures wide { IsErrOf result ArithmeticError.Wide → ProductIsPast self.now other.now }
    {
        if let Some(clearing) = self.clearing(other) {
            match self.cleared_product(alloc, other, clearing) {
                Ok(product) => return Ok(product),
                Err(ArithmeticError::Memory) => return Err(ArithmeticError::Memory),
                Err(ArithmeticError::Wide) => {}
            }
        }
        self.plain_product(alloc, other)
    }

    /// The product, made of the factors as they are.
    pub(crate) fn plain_product(
        &self,
        alloc: Global,
        other: &Poly<K, O>,
    ) -> Result<Poly<K, O>, ArithmeticError>
        requires order { self.now.order ≡ other.now.order }
        requires arity { self.now.arity ≡ other.now.arity }
        ensures product { IfOk result (IsLike self.now (product_in self.now other.now)) }
        ensures wide { IsErrOf result ArithmeticError.Wide → ProductIsPast self.now other.now }
    {
        if self.terms.len() <= other.terms.len() {
            product_with(alloc, &self.terms, other)
        } else {
            product_with(alloc, &other.terms, self)
        }
    }

    /// The power with this exponent, by squares. `Wide` only where its weight is past, or a product of the exponent with one of the polynomial's is above 65,535.
    pub fn power(&self, alloc: Global, exponent: u16) -> Result<Poly<K, O>, ArithmeticError>
        ensures power { IfOk result (IsLike self.now (power_in self.now exponent)) }
        ensures wide { IsErrOf result ArithmeticError.Wide → PowerIsPast self.now exponent }
    {
        let arity = self.arity;
        if exponent == 0 {
            return Ok(Poly::one(alloc, self.order, arity)?);
        }
        if exponent == 1 {
            return Ok(self.copy(alloc)?);
        }
        let half = self.power(alloc, exponent / 2)?;
        let square = half.mul(alloc, &half)?;
        if exponent % 2 == 0 {
            return Ok(square);
        }
        self.mul(alloc, &square)
    }
}

/// The product of a sum of terms with a polynomial: on a grid where one is worth it, and else by halves.
fn product_with<K: Ring, O: Order>(
    alloc: Global,
    terms: &[Term<K>],
    factor: &Poly<K, O>,
) -> Result<Poly<K, O>, ArithmeticError>
    requires arities { All (λ t. length t.mono ≡ factor.now.arity) terms.now }
    ensures product { IfOk result (IsLike factor.now
        (times K.scalars.arithmetic (terms_of K.meaning terms.now) (terms_in factor.now))) }
    ensures wide { IsErrOf result ArithmeticError.Wide
        → IsPastProduct K.scalars (terms_of K.meaning terms.now) (terms_in factor.now) }
{
    let (order, arity) = (factor.order, factor.arity);
    match grid_for(terms, &factor.terms, arity) {
        Some((base, places)) => {
            dense_product(alloc, order, arity, base, places, terms, &factor.terms)
        }
        None => product_of(alloc, terms, factor),
    }
}

/// The product of a sum of terms with a polynomial, by halves of the sum.
fn product_of<K: Ring, O: Order>(
    alloc: Global,
    terms: &[Term<K>],
    factor: &Poly<K, O>,
) -> Result<Poly<K, O>, ArithmeticError>
    requires arities { All (λ t. length t.mono ≡ factor.now.arity) terms.now }
    ensures product { IfOk result (IsLike factor.now
        (times K.scalars.arithmetic (terms_of K.meaning terms.now) (terms_in factor.now))) }
    ensures wide { IsErrOf result ArithmeticError.Wide
        → IsPastProduct K.scalars (terms_of K.meaning terms.now) (terms_in factor.now) }
{
    match terms {
        [] => Ok(Poly::zero(alloc, factor.order, factor.arity)),
        [term] => term_product(alloc, term, factor),
        _ => {
            let (front, back) = terms.split_at(terms.len() / 2);
            let left = product_of(alloc, front, factor)?;
            let right = product_of(alloc, back, factor)?;
            left.plus(alloc, right)
        }
    }
}

/// The product of one term with a polynomial.
fn term_product<K: Ring, O: Order>(
    alloc: Global,
    term: &Term<K>,
    factor: &Poly<K, O>,
) -> Result<Poly<K, O>, ArithmeticError>
    requires { length term.now.mono ≡ factor.now.arity }
    ensures product { IfOk result (IsLike factor.now (shift K.scalars.arithmetic
        term.now.mono (K.meaning term.now.coef) (terms_in factor.now))) }
    ensures wide { IsErrOf result ArithmeticError.Wide
        → IsPastProduct K.scalars (term_of K.meaning term.now ∷ []) (terms_in factor.now) }
{
    let mut out = Vec::with_capacity(alloc, factor.terms.len())?;
    for other in &factor.terms {
        let mono = product(alloc, &term.mono, &other.mono)?;
        let coef = term.coef.mul(&other.coef)?;
        put_nonzero(&mut out, mono, coef);
    }
    Ok(Poly {
        order: factor.order,
        arity: factor.arity,
        terms: out,
    })
}

/// The terms with the monomial of each multiplied by one.
fn shift_terms<K: Ring>(
    alloc: Global,
    by: &Mono,
    terms: &[Term<K>],
) -> Result<Vec<Term<K>>, ArithmeticError>
    requires { All (λ t. length t.mono ≡ length by.now) terms.now }
    ensures ok { IfOk result (λ out. terms_of K.meaning out.items
        ≡ shift K.scalars.arithmetic by.now K.scalars.one (terms_of K.meaning terms.now)) }
    ensures wide { IsErrOf result ArithmeticError.Wide
        → ¬ (FitsMonomial (plus by.now (degrees (terms_of K.meaning terms.now)))) }
{
    let mut out = Vec::with_capacity(alloc, terms.len())?;
    for term in terms {
        let mono = product(alloc, by, &term.mono)?;
        out.push_reserved(Term {
            mono,
            coef: term.coef,
        });
    }
    Ok(out)
}

/// The product of two monomials.
#[inline(always)]
pub(crate) fn product(alloc: Global, left: &Mono, right: &Mono) -> Result<Mono, ArithmeticError>
    requires { length left.now ≡ length right.now }
    ensures ok { IfOk result (λ mono. mono ≡ plus left.now right.now) }
    ensures wide { IsErrOf result ArithmeticError.Wide
        → ¬ (FitsMonomial (plus left.now right.now)) }
{
    left.times(alloc, right)
}
