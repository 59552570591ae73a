//! Polynomials of given terms.
ghost use Rattle.std.specs.Prelude.{◌≡◌, ◌≤◌, ◌<◌, length, [], ◌∷◌, slice_get, All, IfOk, IsErrOf, IsSomeAnd, IsTrue, ◌↔◌};
ghost use Rattle.algebra.specs.Size.{IsPast};
ghost use Rattle.polynomials.specs.Terms.{constant, variables};
ghost use Rattle.polynomials.specs.Polynomial.{IsPolynomial};
ghost use Rattle.polynomials.specs.Weight.{weight};
ghost use Rattle.polynomials.specs.Polynomial.{IsDistinct};
ghost use Rattle.monos.specs.Variables.{most_variables};
ghost use Rattle.poly.specs.Operations.{IsVariable, AreDistinct};
ghost use Rattle.poly.specs.Seen.{Is, terms_in};
ghost use Rattle.poly.specs.View.{terms_of};

use crate::sums::push_nonzero;
use crate::{Poly, Term};
use monos::{Mono, Order};
use ring_laws::{ArithmeticError, Ring};
use std::alloc::{AllocError, Global};

impl<K: Ring, O: Order> Poly<K, O> {
    /// The constant `value` in `arity` variables.
    pub fn constant(
        alloc: Global,
        order: O,
        arity: usize,
        value: &K,
    ) -> Result<Poly<K, O>, AllocError>
        requires { arity ≤ most_variables }
        ensures constant { IfOk result (Is order arity (constant arity (K.meaning value.now))) }
    {
        single(alloc, order, arity, Mono::one(alloc, arity)?, *value)
    }

    /// The polynomial 1 in `arity` variables.
    pub fn one(alloc: Global, order: O, arity: usize) -> Result<Poly<K, O>, AllocError>
        requires { arity ≤ most_variables }
        ensures one { IfOk result (Is order arity (constant arity K.scalars.one)) }
    {
        single(alloc, order, arity, Mono::one(alloc, arity)?, K::one())
    }

    /// The variable with this index, of `arity` variables.
    pub fn variable(
        alloc: Global,
        order: O,
        arity: usize,
        index: usize,
    ) -> Result<Poly<K, O>, AllocError>
        requires few { arity ≤ most_variables }
        requires index { index < arity }
        ensures variable { IfOk result (IsVariable order arity index) }
    {
        single(
            alloc,
            order,
            arity,
            Mono::variable(alloc, arity, index)?,
            K::one(),
        )
    }

    /// The sum of some terms, which may have the same monomials.
    /// `Wide` only where the weight of the sum is past, and two terms have the same monomial.
    pub fn from_terms(
        alloc: Global,
        order: O,
        arity: usize,
        terms: Vec<Term<K>>,
    ) -> Result<Poly<K, O>, ArithmeticError>
        requires few { arity ≤ most_variables }
        requires arities { All (λ t. length t.mono ≡ arity) terms.items }
        ensures sum { IfOk result (Is order arity (terms_of K.meaning terms.items)) }
        ensures wide { IsErrOf result ArithmeticError.Wide
            → IsPast (weight K.scalars.size (terms_of K.meaning terms.items)) }
        ensures distinct { AreDistinct terms.items → ¬ IsErrOf result ArithmeticError.Wide }
    {
        sum_of(alloc, order, arity, terms)
    }

    /// The polynomial of terms with different monomials, which stand in any order.
    pub fn from_distinct(
        alloc: Global,
        order: O,
        arity: usize,
        terms: Vec<Term<K>>,
    ) -> Result<Poly<K, O>, AllocError>
        requires few { arity ≤ most_variables }
        requires arities { All (λ t. length t.mono ≡ arity) terms.items }
        requires distinct { AreDistinct terms.items }
        ensures { IfOk result (Is order arity (terms_of K.meaning terms.items)) }
    {
        sum_of_distinct(alloc, order, arity, terms)
    }

    /// The polynomial of terms that stand in descending order, none with the coefficient 0.
    pub fn from_descending(order: O, arity: usize, terms: Vec<Term<K>>) -> Poly<K, O>
        requires few { arity ≤ most_variables }
        requires descending { IsPolynomial K.scalars.arithmetic (O.order order) arity
            (terms_of K.meaning terms.items) }
        ensures order { result.order ≡ order }
        ensures arity { result.arity ≡ arity }
        ensures terms { terms_in result ≡ terms_of K.meaning terms.items }
    {
        Poly {
            order,
            arity,
            terms,
        }
    }

    /// The same polynomial with its terms in another order.
    pub fn reorder<P: Order>(&self, alloc: Global, order: P) -> Result<Poly<K, P>, AllocError>
        ensures same { IfOk result (Is order self.now.arity (terms_in self.now)) }
    {
        let copy = self.copy(alloc)?;
        sum_of_distinct(alloc, order, self.arity, copy.terms)
    }
}

/// The polynomial of one term.
fn single<K: Ring, O: Order>(
    alloc: Global,
    order: O,
    arity: usize,
    mono: Mono,
    coef: K,
) -> Result<Poly<K, O>, AllocError>
    requires few { arity ≤ most_variables }
    requires arity { length mono ≡ arity }
    ensures term { IfOk result (Is order arity ((mono, K.meaning coef) ∷ [])) }
{
    let mut terms = Vec::new(alloc);
    push_nonzero(&mut terms, mono, coef)?;
    Ok(Poly {
        order,
        arity,
        terms,
    })
}

/// The sum of some terms, by halves.
pub(crate) fn sum_of<K: Ring, O: Order>(
    alloc: Global,
    order: O,
    arity: usize,
    mut terms: Vec<Term<K>>,
) -> Result<Poly<K, O>, ArithmeticError>
    requires few { arity ≤ most_variables }
    requires arities { All (λ t. length t.mono ≡ arity) terms.items }
    ensures sum { IfOk result (Is order arity (terms_of K.meaning terms.items)) }
    ensures wide { IsErrOf result ArithmeticError.Wide
        → IsPast (weight K.scalars.size (terms_of K.meaning terms.items)) }
    ensures distinct { IsDistinct (terms_of K.meaning terms.items)
        → ¬ IsErrOf result ArithmeticError.Wide }
{
    if terms.len() < 2 {
        return Ok(at_most_one(alloc, order, arity, terms));
    }
    let back = terms.split_off(terms.len() / 2)?;
    let left = sum_of(alloc, order, arity, terms)?;
    let right = sum_of(alloc, order, arity, back)?;
    left.plus(alloc, right)
}

/// The sum of some terms with different monomials.
pub(crate) fn sum_of_distinct<K: Ring, O: Order>(
    alloc: Global,
    order: O,
    arity: usize,
    terms: Vec<Term<K>>,
) -> Result<Poly<K, O>, AllocError>
    requires few { arity ≤ most_variables }
    requires arities { All (λ t. length t.mono ≡ arity) terms.items }
    requires distinct { IsDistinct (terms_of K.meaning terms.items) }
    ensures { IfOk result (Is order arity (terms_of K.meaning terms.items)) }
{
    match sum_of(alloc, order, arity, terms) {
        Ok(sum) => Ok(sum),
        Err(ArithmeticError::Memory) => Err(AllocError),
        Err(ArithmeticError::Wide) => unreachable!(),
    }
}

/// The polynomial of one term or none.
fn at_most_one<K: Ring, O: Order>(
    alloc: Global,
    order: O,
    arity: usize,
    terms: Vec<Term<K>>,
) -> Poly<K, O>
    requires few { arity ≤ most_variables }
    requires arities { All (λ t. length t.mono ≡ arity) terms.items }
    requires one { length terms.items ≤ 1 }
    ensures { Is order arity (terms_of K.meaning terms.items) result }
{
    if begins_with_zero(&terms) {
        return Poly::zero(alloc, order, arity);
    }
    Poly {
        order,
        arity,
        terms,
    }
}

/// Whether the first term has the coefficient 0.
fn begins_with_zero<K: Ring>(terms: &[Term<K>]) -> bool
    ensures { IsTrue result
        ↔ IsSomeAnd (slice_get terms.now 0) (λ t. K.meaning t.coef ≡ K.scalars.zero) }
{
    match terms.first() {
        Some(term) => term.coef.is_zero(),
        None => false,
    }
}
