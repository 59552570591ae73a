//! `Poly<K, O>`: polynomials over a ring of checked numbers, with their terms in descending order.
//!
//! Proved: each operation gives the one sorted list of the definition's polynomial, and is `Wide` only where its weight is past or an
//! exponent that it forms doesn't fit; equal polynomials have equal terms.
//!
//! Notion: polynomials, 1.1; leads, 2.2.
#![tactic(auto)]

ghost use Rattle.std.specs.Prelude.{◌≡◌, ◌≤◌, [], IsTrue, ◌↔◌, IsNone, IfSome};
ghost use Rattle.polynomials.specs.Polynomial.{IsPolynomial};
ghost use Rattle.polynomials.proofs.Canonical.{polynomial_prop};
ghost use Rattle.monos.specs.Variables.{most_variables};
ghost use Rattle.poly.specs.View.{terms_of};

mod blending;
mod build;
mod clearing;
mod composition;
mod equality;
mod evaluation;
mod front;
mod grid;
pub mod laws;
mod measures;
mod multiple;
mod product;
mod source;
mod sums;

pub use blending::{times_one_less_t, times_t};
use monos::{Mono, Order};
use ring_laws::Ring;
use std::alloc::Global;

/// A monomial with its coefficient.
#[derive(Drop, PartialEq, Eq)]
pub struct Term<K> {
    pub mono: Mono,
    pub coef: K,
}

/// A polynomial in at most 4,096 variables: terms with different monomials, the greatest first, and none with the coefficient 0.
#[derive(Drop)]
pub struct Poly<K: Ring, O: Order> {
    order: O,
    arity: usize,
    terms: Vec<Term<K>>,
    pub ghost few: { arity ≤ most_variables },
    pub ghost polynomial: { IsPolynomial K.scalars.arithmetic (O.order order) arity
        (terms_of K.meaning terms.items) } by { polynomial_prop K.scalars.arithmetic
            (O.order order) arity (terms_of K.meaning terms.items) },
}

impl<K: Ring, O: Order> Poly<K, O> {
    ghost use Rattle.poly.specs.Operations.{IsLeadOf};
    ghost use Rattle.poly.specs.Seen.{terms_in};

    /// The polynomial 0 in `arity` variables.
    pub fn zero(alloc: Global, order: O, arity: usize) -> Poly<K, O>
        requires { arity ≤ most_variables }
        ensures order { result.order ≡ order }
        ensures arity { result.arity ≡ arity }
        ensures terms { terms_in result ≡ [] }
    {
        Poly {
            order,
            arity,
            terms: Vec::new(alloc),
        }
    }

    /// The order of the terms.
    pub fn order(&self) -> O
        ensures { result ≡ self.now.order }
    {
        self.order
    }

    /// The number of variables.
    pub fn arity(&self) -> usize
        ensures arity { result ≡ self.now.arity }
        ensures few { result ≤ most_variables }
    {
        self.arity
    }

    /// The terms, the greatest first.
    pub fn terms(&self) -> &Vec<Term<K>>
        ensures { result.now ≡ self.now.terms }
    {
        &self.terms
    }

    /// The terms, the greatest first, which are no polynomial any more.
    pub fn into_terms(self) -> Vec<Term<K>>
        ensures { result ≡ self.terms }
    {
        self.terms
    }

    /// The greatest term. None exactly for the polynomial 0.
    pub fn lead(&self) -> Option<&Term<K>>
        ensures some { IfSome result (λ t. IsLeadOf self.now t.now) }
        ensures none { IsNone result ↔ (terms_in self.now ≡ []) }
    {
        self.terms.first()
    }

    /// Whether this is the polynomial 0.
    pub fn is_zero(&self) -> bool
        ensures { IsTrue result ↔ (terms_in self.now ≡ []) }
    {
        self.terms.is_empty()
    }
}
