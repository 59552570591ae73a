//! Polynomials with other variables in front, and without their first ones.
ghost use Rattle.std.specs.Prelude.{◌≡◌, ◌≤◌, ◌+◌, ◌-◌, ◌++◌, length, drop, All, IsTrue, ◌↔◌, IfOk};
ghost use Rattle.polynomials.specs.Terms.{retold};
ghost use Rattle.monos.specs.Variables.{most_variables};
ghost use Rattle.machines.specs.Front.{IsFreeOfFirst};
ghost use Rattle.poly.specs.Seen.{Is, terms_in};
ghost use Rattle.poly.specs.View.{terms_of};

use crate::build::sum_of_distinct;
use crate::{Poly, Term};
use monos::{Mono, Order};
use ring_laws::Ring;
use std::alloc::{AllocError, Global};

impl<K: Ring, O: Order> Poly<K, O> {
    /// The product with a monomial in other variables, which stand in front of the polynomial's own. Its terms stand in this order.
    pub fn behind<P: Order>(
        &self,
        alloc: Global,
        order: P,
        front: &Mono,
    ) -> Result<Poly<K, P>, AllocError>
        requires { length front.now + self.now.arity ≤ most_variables }
        ensures product { IfOk result (Is order (length front.now + self.now.arity)
            (retold (λ e. front.now ++ e) (terms_in self.now))) }
    {
        let terms = terms_behind(alloc, front, &self.terms)?;
        sum_of_distinct(alloc, order, front.arity() + self.arity, terms)
    }

    /// Whether none of the first `count` variables is in it.
    pub fn is_free_of_first(&self, count: usize) -> bool
        requires { count ≤ self.now.arity }
        ensures { IsTrue result ↔ IsFreeOfFirst count (terms_in self.now) }
    {
        for term in &self.terms {
            if !term.mono.is_free_of_first(count) {
                return false;
            }
        }
        true
    }

    /// The polynomial in the other variables alone, where the first `count` are left out. Its terms stand in this order.
    pub fn without_first<P: Order>(
        &self,
        alloc: Global,
        order: P,
        count: usize,
    ) -> Result<Poly<K, P>, AllocError>
        requires count { count ≤ self.now.arity }
        requires free { IsFreeOfFirst count (terms_in self.now) }
        ensures rest { IfOk result (Is order (self.now.arity - count)
            (retold (drop count) (terms_in self.now))) }
    {
        let terms = terms_without_first(alloc, count, &self.terms)?;
        sum_of_distinct(alloc, order, self.arity - count, terms)
    }
}

/// The products of the terms with a monomial in front.
fn terms_behind<K: Ring>(
    alloc: Global,
    front: &Mono,
    terms: &[Term<K>],
) -> Result<Vec<Term<K>>, AllocError>
    requires { All (λ t. length front.now + length t.mono ≤ most_variables) terms.now }
    ensures ok { IfOk result (λ out. terms_of K.meaning out.items
        ≡ retold (λ e. front.now ++ e) (terms_of K.meaning terms.now)) }
{
    let mut out = Vec::with_capacity(alloc, terms.len())?;
    for term in terms {
        let mono = front.concat(alloc, &term.mono)?;
        let coef = term.coef;
        out.push_reserved(Term { mono, coef });
    }
    Ok(out)
}

/// The terms without the first variables.
fn terms_without_first<K: Ring>(
    alloc: Global,
    count: usize,
    terms: &[Term<K>],
) -> Result<Vec<Term<K>>, AllocError>
    requires { All (λ t. count ≤ length t.mono) terms.now }
    ensures ok { IfOk result (λ out. terms_of K.meaning out.items
        ≡ retold (drop count) (terms_of K.meaning terms.now)) }
{
    let mut out = Vec::with_capacity(alloc, terms.len())?;
    for term in terms {
        let mono = term.mono.without_first(alloc, count)?;
        let coef = term.coef;
        out.push_reserved(Term { mono, coef });
    }
    Ok(out)
}
