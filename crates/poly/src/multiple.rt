//! What divisions make: a polynomial less a multiple of another, and polynomials whose lead has the number 1.
ghost use Rattle.std.specs.Prelude.{◌≡◌, ◌≢◌, ◌<◌, ◌≤◌, ◌+◌, ◌⊎◌, [], ◌++◌, length, vec_capacity, All, IfOk, OnOk, IsErrOf};
ghost use Rattle.algebra.specs.Scalars.{IsPastAdd};
ghost use Rattle.polynomials.specs.Exponent.{plus};
ghost use Rattle.polynomials.specs.Polynomial.{IsPolynomial};
ghost use Rattle.polynomials.specs.Terms.{coefficient};
ghost use Rattle.poly.specs.Operations.{IsLike, LeadIsMultiple, less_multiple, quotient, lead_number, LessMultipleIsPast, SumIsPast, ShiftIsPast, QuotientIsPast};
ghost use Rattle.poly.specs.Raised.{Exceeds, Begins, IsRaised, IsPastRaise};
ghost use Rattle.poly.specs.Seen.{terms_in};
ghost use Rattle.poly.specs.View.{term_of, terms_of};

use crate::product::product;
use crate::sums::put_nonzero;
use crate::{Poly, Term};
use monos::{Mono, Order};
use ring_laws::{ArithmeticError, Field, Ring};
use std::alloc::Global;
use std::cmp::Ordering;
use std::collections::VecDeque;

impl<K: Ring, O: Order> Poly<K, O> {
    /// The difference with a term times another polynomial, made of this one's terms in one pass over both.
    /// `Wide` only where the sum of the polynomial and the number times the other is past, or an exponent of the multiple is above 65,535.
    /// Where the number is 1, the sum is that of both polynomials.
    pub fn sub_multiple(
        self,
        alloc: Global,
        factor: &Term<K>,
        other: &Poly<K, O>,
    ) -> Result<Poly<K, O>, ArithmeticError>
        requires order { self.order ≡ other.now.order }
        requires arity { self.arity ≡ other.now.arity }
        requires factor { length factor.now.mono ≡ self.arity }
        ensures difference { IfOk result (IsLike self (less_multiple self factor.now other.now)) }
        ensures wide { IsErrOf result ArithmeticError.Wide
            → LessMultipleIsPast self factor.now other.now }
        ensures shifted { K.meaning factor.now.coef ≡ K.scalars.one
            → IsErrOf result ArithmeticError.Wide
            → SumIsPast self other.now ⊎ ShiftIsPast factor.now.mono other.now }
    {
        let (order, arity) = (self.order, self.arity);
        let number = factor.coef.neg();
        // room for all terms, so that none needs a test whether there is some
        let Some(room) = self.terms.len().checked_add(other.terms.len()) else {
            return Err(ArithmeticError::Memory);
        };
        let mut front = Vec::with_capacity(alloc, room)?;
        let mut back = VecDeque::from_vec(self.terms);
        for term in &other.terms {
            put_product(
                alloc,
                order,
                &mut front,
                &mut back,
                &factor.mono,
                &number,
                term,
            )?;
        }
        front.append(&mut back.into_vec())?;
        Ok(Poly {
            order,
            arity,
            terms: front,
        })
    }

    /// The difference with a term times another polynomial, where both have the same lead, and the list that its own terms left.
    /// The leads cancel each other: they are let go, neither multiplied nor compared. The difference is made on the list `spare`, whose terms are dropped. So a polynomial is reduced step by step on two lists, and no step asks for a new one while there is room.
    /// `Wide` only where the sum of the polynomial and the number times the other is past, or an exponent of the multiple is above 65,535.
    pub fn cancel_lead(
        self,
        alloc: Global,
        factor: &Term<K>,
        other: &Poly<K, O>,
        spare: Vec<Term<K>>,
    ) -> Result<(Poly<K, O>, Vec<Term<K>>), ArithmeticError>
        requires order { self.order ≡ other.now.order }
        requires arity { self.arity ≡ other.now.arity }
        requires factor { length factor.now.mono ≡ self.arity }
        requires lead { LeadIsMultiple self factor.now other.now }
        ensures difference { IfOk result
            (λ left. IsLike self (less_multiple self factor.now other.now) left.0) }
        ensures wide { IsErrOf result ArithmeticError.Wide
            → LessMultipleIsPast self factor.now other.now }
    {
        let (order, arity) = (self.order, self.arity);
        let opposite = factor.coef.neg();
        let Some((_, others)) = other.terms.split_first() else {
            unreachable!()
        };
        let Some(room) = self.terms.len().checked_add(others.len()) else {
            return Err(ArithmeticError::Memory);
        };
        let mut front = spare;
        front.clear();
        front.reserve(room)?;
        let mut back = VecDeque::from_vec(self.terms);
        let Some(_) = back.pop_front() else {
            unreachable!()
        };
        for term in others {
            put_product(
                alloc,
                order,
                &mut front,
                &mut back,
                &factor.mono,
                &opposite,
                term,
            )?;
        }
        let mut rest = back.into_vec();
        front.append(&mut rest)?;
        let left = Poly {
            order,
            arity,
            terms: front,
        };
        Ok((left, rest))
    }
}

impl<K: Field, O: Order> Poly<K, O> {
    /// The polynomial divided by the number of its lead.
    /// `Wide` only where the weight of that division is past, and never where the number is 1 already.
    pub fn monic(&self, alloc: Global) -> Result<Poly<K, O>, ArithmeticError>
        requires { terms_in self.now ≢ [] }
        ensures quotient { IfOk result
            (IsLike self.now (quotient (lead_number self.now) self.now)) }
        ensures wide { IsErrOf result ArithmeticError.Wide
            → QuotientIsPast (lead_number self.now) self.now }
        ensures narrow { lead_number self.now ≡ K.scalars.one
            → ¬ IsErrOf result ArithmeticError.Wide }
    {
        let Some(lead) = self.terms.first() else {
            unreachable!()
        };
        if lead.coef == K::one() {
            return Ok(self.copy(alloc)?);
        }
        self.divide_by(alloc, &lead.coef)
    }

    /// The quotient by a number that isn't 0. `Wide` only where its weight is past.
    fn divide_by(&self, alloc: Global, by: &K) -> Result<Poly<K, O>, ArithmeticError>
        requires { K.meaning by.now ≢ K.scalars.zero }
        ensures quotient { IfOk result (IsLike self.now (quotient (K.meaning by.now) self.now)) }
        ensures wide { IsErrOf result ArithmeticError.Wide
            → QuotientIsPast (K.meaning by.now) self.now }
    {
        let mut out = Vec::with_capacity(alloc, self.terms.len())?;
        for term in &self.terms {
            let coef = term.coef.div(by)?;
            put_nonzero(&mut out, term.mono.copy(alloc)?, coef);
        }
        Ok(Poly {
            order: self.order,
            arity: self.arity,
            terms: out,
        })
    }
}

/// Puts the product of a term with a monomial and a number into a polynomial that stands in two parts, where it is below all of the first part.
#[inline(always)]
fn put_product<K: Ring, O: Order>(
    alloc: Global,
    order: O,
    front: &mut Vec<Term<K>>,
    back: &mut VecDeque<Term<K>>,
    by: &Mono,
    number: &K,
    term: &Term<K>,
) -> Result<(), ArithmeticError>
    requires long { length by.now ≡ length term.now.mono }
    requires descending { IsPolynomial K.scalars.arithmetic (O.order order) (length by.now)
        (terms_of K.meaning front.old.items ++ terms_of K.meaning back.old.items) }
    requires above { Exceeds (O.order order) (plus by.now term.now.mono)
        (terms_of K.meaning front.old.items) }
    requires room { length front.old.items + length back.old.items < vec_capacity front.old }
    ensures count { OnOk result (length front.new.items + length back.new.items
        ≤ length front.old.items + length back.old.items + 1) }
    ensures room { OnOk result (vec_capacity front.new ≡ vec_capacity front.old) }
    ensures ok { OnOk result (IsRaised K.scalars (O.order order) (plus by.now term.now.mono)
        (K.scalars.mul (K.meaning number.now) (K.meaning term.now.coef))
        (terms_of K.meaning front.old.items ++ terms_of K.meaning back.old.items)
        (terms_of K.meaning front.new.items) (terms_of K.meaning back.new.items)) }
    ensures wide { IsErrOf result ArithmeticError.Wide → IsPastRaise K.scalars
        (terms_of K.meaning front.old.items ++ terms_of K.meaning back.old.items)
        by.now (K.meaning number.now) (term_of K.meaning term.now) }
{
    let mono = product(alloc, by, &term.mono)?;
    let coef = number.mul(&term.coef)?;
    if coef.is_zero() {
        return Ok(());
    }
    put(order, front, back, mono, coef)
}

/// Puts a term that isn't zero into a polynomial that stands in two parts, where it is below all of the first part. The greater terms of the second go there first.
#[inline(always)]
fn put<K: Ring, O: Order>(
    order: O,
    front: &mut Vec<Term<K>>,
    back: &mut VecDeque<Term<K>>,
    mono: Mono,
    coef: K,
) -> Result<(), ArithmeticError>
    requires nonzero { K.meaning coef ≢ K.scalars.zero }
    requires descending { IsPolynomial K.scalars.arithmetic (O.order order) (length mono)
        (terms_of K.meaning front.old.items ++ terms_of K.meaning back.old.items) }
    requires above { Exceeds (O.order order) mono (terms_of K.meaning front.old.items) }
    requires room { length front.old.items + length back.old.items < vec_capacity front.old }
    ensures count { OnOk result (length front.new.items + length back.new.items
        ≤ length front.old.items + length back.old.items + 1) }
    ensures room { OnOk result (vec_capacity front.new ≡ vec_capacity front.old) }
    ensures ok { OnOk result (IsRaised K.scalars (O.order order) mono (K.meaning coef)
        (terms_of K.meaning front.old.items ++ terms_of K.meaning back.old.items)
        (terms_of K.meaning front.new.items) (terms_of K.meaning back.new.items)) }
    ensures wide { IsErrOf result ArithmeticError.Wide → IsPastAdd K.scalars
        (coefficient K.scalars.arithmetic
        (terms_of K.meaning front.old.items ++ terms_of K.meaning back.old.items) mono)
        (K.meaning coef) }
{
    if !pass_greater(order, front, back, &mono) {
        front.push_reserved(Term { mono, coef });
        return Ok(());
    }
    let Some(like) = back.pop_front() else {
        unreachable!()
    };
    let sum = like.coef.add(&coef)?;
    put_nonzero(front, like.mono, sum);
    Ok(())
}

/// Moves the terms above a monomial from the second part of a polynomial to the first, which has room for them. Whether the next has that monomial.
#[inline(always)]
fn pass_greater<K: Ring, O: Order>(
    order: O,
    front: &mut Vec<Term<K>>,
    back: &mut VecDeque<Term<K>>,
    mono: &Mono,
) -> bool
    requires long { All (λ t. length t.mono ≡ length mono.now) back.old.items }
    requires room { length front.old.items + length back.old.items ≤ vec_capacity front.old }
    ensures terms { front.new.items ++ back.new.items ≡ front.old.items ++ back.old.items }
    ensures above { Exceeds (O.order order) mono.now (terms_of K.meaning front.old.items)
        → Exceeds (O.order order) mono.now (terms_of K.meaning front.new.items) }
    ensures begins { Begins (O.order order) mono.now result (terms_of K.meaning back.new.items) }
    ensures room { vec_capacity front.new ≡ vec_capacity front.old }
{
    while let Some(next) = back.front() {
        match order.compare(&next.mono, mono) {
            Ordering::Greater => {}
            Ordering::Equal => return true,
            Ordering::Less => return false,
        }
        let Some(term) = back.pop_front() else {
            unreachable!()
        };
        front.push_reserved(term);
    }
    false
}
