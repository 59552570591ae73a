//! Sums of polynomials.
ghost use Rattle.std.specs.Prelude.{◌≡◌, ◌<◌, ◌≤◌, ◌+◌, ◌++◌, length, vec_capacity, IfOk, OnOk, IsErrOf};
ghost use Rattle.polynomials.specs.Terms.{negate};
ghost use Rattle.polynomials.specs.Polynomial.{IsPolynomial};
ghost use Rattle.polynomials.specs.Weight.{weight, IsPastSum};
ghost use Rattle.monos.specs.Variables.{most_variables};
ghost use Rattle.poly.specs.Operations.{IsLike, difference, opposite, SumIsPast, ShareMonomial};
ghost use Rattle.poly.specs.Seen.{Is, terms_in};
ghost use Rattle.poly.specs.View.{terms_of};
ghost use Rattle.poly.specs.Pushed.{Takes};
ghost use Rattle.poly.specs.Shared.{Share};

use crate::source::Source;
use crate::{Poly, Term};
use monos::{Mono, Order};
use ring_laws::{ArithmeticError, Ring};
use std::alloc::{AllocError, Global};
use std::cmp::Ordering;
use std::collections::VecDeque;

impl<K: Ring, O: Order> Poly<K, O> {
    /// A polynomial with the same terms.
    pub fn copy(&self, alloc: Global) -> Result<Poly<K, O>, AllocError>
        ensures order { IfOk result (λ p. p.order ≡ self.now.order) }
        ensures arity { IfOk result (λ p. p.arity ≡ self.now.arity) }
        ensures terms { IfOk result (λ p. terms_in p ≡ terms_in self.now) }
    {
        Ok(Poly {
            order: self.order,
            arity: self.arity,
            terms: copies(alloc, &self.terms)?,
        })
    }

    /// The sum. `Wide` only where its weight is past, and some monomial is in both.
    pub fn add(&self, alloc: Global, other: &Poly<K, O>) -> Result<Poly<K, O>, ArithmeticError>
        requires order { self.now.order ≡ other.now.order }
        requires arity { self.now.arity ≡ other.now.arity }
        ensures sum { IfOk result (IsLike self.now (terms_in self.now ++ terms_in other.now)) }
        ensures wide { IsErrOf result ArithmeticError.Wide → SumIsPast self.now other.now }
        ensures shared { IsErrOf result ArithmeticError.Wide → ShareMonomial self.now other.now }
    {
        let (left, right) = (self.terms.as_slice(), other.terms.as_slice());
        merge(alloc, self.order, self.arity, left, right)
    }

    /// The sum, made of the terms of both.
    pub(crate) fn plus(
        self,
        alloc: Global,
        other: Poly<K, O>,
    ) -> Result<Poly<K, O>, ArithmeticError>
        requires order { self.order ≡ other.order }
        requires arity { self.arity ≡ other.arity }
        ensures sum { IfOk result (IsLike self (terms_in self ++ terms_in other)) }
        ensures wide { IsErrOf result ArithmeticError.Wide → SumIsPast self other }
        ensures shared { IsErrOf result ArithmeticError.Wide → ShareMonomial self other }
    {
        let left = VecDeque::from_vec(self.terms);
        let right = VecDeque::from_vec(other.terms);
        merge(alloc, self.order, self.arity, left, right)
    }

    /// The same polynomial, in no more memory than its terms take.
    pub(crate) fn without_spare_room(self) -> Poly<K, O>
        ensures order { result.order ≡ self.order }
        ensures arity { result.arity ≡ self.arity }
        ensures terms { terms_in result ≡ terms_in self }
    {
        let Poly {
            order,
            arity,
            mut terms,
            ..
        } = self;
        terms.shrink_to_fit();
        Poly {
            order,
            arity,
            terms,
        }
    }

    /// The difference. `Wide` only where the weight of the sum is past.
    pub fn sub(&self, alloc: Global, other: &Poly<K, O>) -> Result<Poly<K, O>, ArithmeticError>
        requires order { self.now.order ≡ other.now.order }
        requires arity { self.now.arity ≡ other.now.arity }
        ensures difference { IfOk result (IsLike self.now (difference self.now other.now)) }
        ensures wide { IsErrOf result ArithmeticError.Wide → SumIsPast self.now other.now }
    {
        let left = self.terms.as_slice();
        let right = opposites(alloc, &other.terms)?;
        merge(
            alloc,
            self.order,
            self.arity,
            left,
            VecDeque::from_vec(right),
        )
    }

    /// The opposite, which always fits.
    pub fn neg(&self, alloc: Global) -> Result<Poly<K, O>, AllocError>
        ensures opposite { IfOk result (IsLike self.now (opposite self.now)) }
    {
        Ok(Poly {
            order: self.order,
            arity: self.arity,
            terms: opposites(alloc, &self.terms)?,
        })
    }
}

/// The sum of the terms of two sources, each in descending order.
fn merge<K: Ring, O: Order, L: Source<K>, R: Source<K>>(
    alloc: Global,
    order: O,
    arity: usize,
    left: L,
    right: R,
) -> Result<Poly<K, O>, ArithmeticError>
    requires few { arity ≤ most_variables }
    requires left { IsPolynomial K.scalars.arithmetic (O.order order) arity
        (terms_of K.meaning (L.items left)) }
    requires right { IsPolynomial K.scalars.arithmetic (O.order order) arity
        (terms_of K.meaning (R.items right)) }
    ensures sum { IfOk result (Is order arity
        (terms_of K.meaning (L.items left) ++ terms_of K.meaning (R.items right))) }
    ensures wide { IsErrOf result ArithmeticError.Wide → IsPastSum K.scalars
        (terms_of K.meaning (L.items left)) (terms_of K.meaning (R.items right)) }
    ensures shared { IsErrOf result ArithmeticError.Wide
        → Share (terms_of K.meaning (L.items left)) (terms_of K.meaning (R.items right)) }
{
    // room for all terms, so that none needs a test whether there is some
    let Some(room) = left.count().checked_add(right.count()) else {
        return Err(ArithmeticError::Memory);
    };
    let mut terms = Vec::with_capacity(alloc, room)?;
    let (mut lefts, mut rights) = (left, right);
    while let Some(x) = lefts.peek() {
        let Some(y) = rights.peek() else {
            break;
        };
        match order.compare(&x.mono, &y.mono) {
            Ordering::Greater => terms.push_reserved(lefts.take(alloc)?),
            Ordering::Less => terms.push_reserved(rights.take(alloc)?),
            Ordering::Equal => {
                let coef = x.coef.add(&y.coef)?;
                let mono = lefts.take(alloc)?.mono;
                rights.skip();
                put_nonzero(&mut terms, mono, coef);
            }
        }
    }
    put_rest(alloc, &mut terms, lefts)?;
    put_rest(alloc, &mut terms, rights)?;
    Ok(Poly {
        order,
        arity,
        terms,
    })
}

/// Puts what is left of a source at the end of a list that has room for it.
fn put_rest<K: Ring, S: Source<K>>(
    alloc: Global,
    out: &mut Vec<Term<K>>,
    mut rest: S,
) -> Result<(), AllocError>
    requires room { length out.old.items + length (S.items rest) ≤ vec_capacity out.old }
    ensures ok { OnOk result (out.new.items ≡ out.old.items ++ S.items rest) }
    ensures room { OnOk result (vec_capacity out.new ≡ vec_capacity out.old) }
{
    while rest.peek().is_some() {
        out.push_reserved(rest.take(alloc)?);
    }
    Ok(())
}

/// Copies of the terms.
fn copies<K: Ring>(alloc: Global, terms: &[Term<K>]) -> Result<Vec<Term<K>>, AllocError>
    ensures ok { IfOk result (λ out. out.items ≡ terms.now) }
{
    let mut out = Vec::with_capacity(alloc, terms.len())?;
    for term in terms {
        let mono = term.mono.copy(alloc)?;
        let coef = term.coef;
        out.push_reserved(Term { mono, coef });
    }
    Ok(out)
}

/// Puts a term behind the others, unless its coefficient is zero.
pub(crate) fn push_nonzero<K: Ring>(
    out: &mut Vec<Term<K>>,
    mono: Mono,
    coef: K,
) -> Result<(), AllocError>
    ensures ok { OnOk result (Takes K.scalars mono (K.meaning coef)
        (terms_of K.meaning out.old.items) (terms_of K.meaning out.new.items)) }
{
    if coef.is_zero() {
        return Ok(());
    }
    out.push(Term { mono, coef })?;
    Ok(())
}

/// Puts a term at the end of a list that has room for it, unless its coefficient is zero.
pub(crate) fn put_nonzero<K: Ring>(out: &mut Vec<Term<K>>, mono: Mono, coef: K)
    requires room { length out.old.items < vec_capacity out.old }
    ensures term { Takes K.scalars mono (K.meaning coef)
        (terms_of K.meaning out.old.items) (terms_of K.meaning out.new.items) }
    ensures count { length out.new.items ≤ length out.old.items + 1 }
    ensures room { vec_capacity out.new ≡ vec_capacity out.old }
{
    if !coef.is_zero() {
        out.push_reserved(Term { mono, coef });
    }
}

/// The terms with the opposite of each coefficient.
fn opposites<K: Ring>(alloc: Global, terms: &[Term<K>]) -> Result<Vec<Term<K>>, AllocError>
    ensures ok { IfOk result (λ out. terms_of K.meaning out.items
        ≡ negate K.scalars.arithmetic (terms_of K.meaning terms.now)) }
{
    let mut out = Vec::with_capacity(alloc, terms.len())?;
    for term in terms {
        let coef = term.coef.neg();
        let mono = term.mono.copy(alloc)?;
        out.push_reserved(Term { mono, coef });
    }
    Ok(out)
}
