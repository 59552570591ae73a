//! The current polynomial of a division.
ghost use Rattle.std.specs.Prelude.{◌≡◌, ◌≢◌, ◌<◌, ◌≤◌, ℕ, List, [], ◌++◌, true, length, map, take, drop, position, All, IfOk, OnOk, IfSome, IsErrOf, IsTrue, ◌↔◌};
ghost use Rattle.algebra.specs.Scalars.{field};
ghost use Rattle.polynomials.specs.Exponent.{plus};
ghost use Rattle.polynomials.specs.Polynomial.{IsPolynomial};
ghost use Rattle.machines.specs.Cut.{lead_of, lead_number, divides};
ghost use Rattle.machines.specs.Past.{IsPastCut, IsPastReduction};
ghost use Rattle.poly.specs.Seen.{terms_in, terms_each};
ghost use Rattle.divide.specs.Current.{done_of, left_of, AreUndivided, IsCurrent, IsLike, AreDivisors, IsNextCut, CutsFirst};
ghost use Rattle.divide.specs.Cutting.{term_at, cutting_of, FindsTerm, Cuts};
ghost use Rattle.divide.specs.Limits.{list_limit};

use monos::{Mono, Order};
use poly::{Poly, Term};
use ring_laws::{ArithmeticError, Field, Ring};
use std::alloc::{AllocError, Global};
use std::mem;

/// What is left of a polynomial on its way through a division: its first terms, which no lead divides, and the others. A list is kept beside them for its
/// room: each cancellation writes what it leaves there, and leaves the list that it read.
#[derive(Drop)]
pub struct Current<K: Ring, O: Order> {
    done: Vec<Term<K>>,
    rest: Poly<K, O>,
    spare: Vec<Term<K>>,
}

/// One cancellation: the factor that the element was multiplied by, and the element's place.
#[derive(Drop)]
pub struct Cut<K: Ring> {
    pub factor: Term<K>,
    pub element: u32,
}

/// The place of a term, and of an element whose lead divides it.
#[derive(Clone, Copy, PartialEq, Eq)]
struct CutPlace {
    term: usize,
    element: usize,
}

impl<K: Ring, O: Order> Current<K, O> {
    /// The polynomial, of which nothing is cancelled yet.
    pub fn new(alloc: Global, poly: Poly<K, O>) -> Current<K, O>
        ensures left { left_of result ≡ terms_in poly }
        ensures order { result.rest.order ≡ poly.order }
        ensures arity { result.rest.arity ≡ poly.arity }
        ensures current { (ls : List (List ℕ)) → IsCurrent ls result }
    {
        Current {
            done: Vec::new(alloc),
            rest: poly,
            spare: Vec::new(alloc),
        }
    }

    /// What is left.
    pub fn into_poly(self) -> Result<Poly<K, O>, AllocError>
        requires descending { IsPolynomial K.scalars.arithmetic (O.order self.rest.order)
            self.rest.arity (left_of self) }
        ensures terms { IfOk result (λ p. terms_in p ≡ left_of self) }
        ensures order { IfOk result (λ p. p.order ≡ self.rest.order) }
        ensures arity { IfOk result (λ p. p.arity ≡ self.rest.arity) }
    {
        let (order, arity) = (self.rest.order(), self.rest.arity());
        let mut terms = self.done;
        terms.append(&mut self.rest.into_terms())?;
        Ok(Poly::from_descending(order, arity, terms))
    }

    /// Whether nothing is left.
    pub fn is_zero(&self) -> bool
        ensures { IsTrue result ↔ (left_of self.now ≡ []) }
    {
        self.done.is_empty() && self.rest.is_zero()
    }

    /// Puts so many of the other terms behind those that are done.
    fn finish(&mut self, alloc: Global, count: usize) -> Result<(), AllocError>
        requires { count ≤ length (terms_in self.old.rest) }
        ensures done { OnOk result
            (done_of self.new ≡ done_of self.old ++ take count (terms_in self.old.rest)) }
        ensures rest { OnOk result (terms_in self.new.rest ≡ drop count (terms_in self.old.rest)) }
        ensures like { OnOk result (IsLike self.old self.new) }
    {
        if count == 0 {
            return Ok(());
        }
        let (order, arity) = (self.rest.order(), self.rest.arity());
        let zero = Poly::zero(alloc, order, arity);
        let mut front = mem::replace(&mut self.rest, zero).into_terms();
        let back = front.split_off(count)?;
        self.done.append(&mut front)?;
        self.rest = Poly::from_descending(order, arity, back);
        Ok(())
    }
}

impl<K: Field, O: Order> Current<K, O> {
    /// Makes the next cancellation by a list, whose leads stand beside it. None exactly where no lead divides a term.
    /// `Wide` only where the weight of the cancellation is past.
    pub fn next_cut(
        &mut self,
        alloc: Global,
        list: &[Poly<K, O>],
        leads: &[Mono],
    ) -> Result<Option<Cut<K>>, ArithmeticError>
        requires divisors { AreDivisors self.old.rest.order self.old.rest.arity list.now }
        requires few { length list.now ≤ list_limit }
        requires leads { leads.now ≡ map lead_of (terms_each list.now) }
        requires current { IsCurrent leads.now self.old }
        ensures ok { IfOk result (IsNextCut list.now self.old self.new) }
        ensures current { IfOk result (λ _. IsCurrent leads.now self.new) }
        ensures like { IfOk result (λ _. IsLike self.old self.new) }
        ensures wide { IsErrOf result ArithmeticError.Wide
            → IsPastReduction K.scalars (field K.scalars) (terms_each list.now) (left_of self.old) }
    {
        let Some(place) = self.find(leads) else {
            return Ok(None);
        };
        let Ok(element) = u32::try_from(place.element) else {
            unreachable!()
        };
        self.finish(alloc, place.term)?;
        let factor = self.cancel_first(alloc, &list[place.element])?;
        Ok(Some(Cut { factor, element }))
    }

    /// The first of the terms that aren't done that a lead divides, with the first lead that does.
    fn find(&self, leads: &[Mono]) -> Option<CutPlace>
        requires { All (λ d. length d ≡ self.now.rest.arity) leads.now }
        ensures found { FindsTerm K.scalars leads.now (terms_in self.now.rest) result }
        ensures before { IfSome result (λ a.
            AreUndivided leads.now (take a.term (terms_in self.now.rest))) }
    {
        for (term, found) in self.rest.terms().iter().enumerate() {
            if let Some(element) = first_divisor(&found.mono, leads) {
                return Some(CutPlace { term, element });
            }
        }
        None
    }

    /// Cancels the first term that isn't done by a polynomial whose lead divides it, and gives the factor.
    /// `Wide` only where the weight of that is past.
    fn cancel_first(&mut self, alloc: Global, g: &Poly<K, O>) -> Result<Term<K>, ArithmeticError>
        requires order { g.now.order ≡ self.old.rest.order }
        requires arity { g.now.arity ≡ self.old.rest.arity }
        requires nonzero { terms_in g.now ≢ [] }
        requires first { 0 < length (terms_in self.old.rest) }
        requires divided { divides (lead_of (terms_in g.now))
            (term_at K.scalars (terms_in self.old.rest) 0).0 ≡ true }
        requires descending { IsPolynomial K.scalars.arithmetic (O.order self.old.rest.order)
            self.old.rest.arity (left_of self.old) }
        ensures cutting { IfOk result (CutsFirst self.old g.now self.new) }
        ensures descending { IfOk result (λ _. IsPolynomial K.scalars.arithmetic
            (O.order self.new.rest.order) self.new.rest.arity (left_of self.new)) }
        ensures done { IfOk result (λ _. self.new.done ≡ self.old.done) }
        ensures like { IfOk result (λ _. IsLike self.old self.new) }
        ensures wide { IsErrOf result ArithmeticError.Wide
            → IsPastCut K.scalars (field K.scalars) (left_of self.old) (cutting_of K.scalars 0
            (term_at K.scalars (terms_in self.old.rest) 0) (terms_in g.now)) }
    {
        let factor = factor_at(alloc, &self.rest, 0, g)?;
        let zero = Poly::zero(alloc, self.rest.order(), self.rest.arity());
        let rest = mem::replace(&mut self.rest, zero);
        let spare = mem::replace(&mut self.spare, Vec::new(alloc));
        let (left, spare) = rest.cancel_lead(alloc, &factor, g, spare)?;
        self.rest = left;
        self.spare = spare;
        Ok(factor)
    }
}

/// The polynomial less the multiple of `g` that has the term at this place, with the factor of `g`.
/// `Wide` only where the weight of that is past.
pub fn cancel<K: Field, O: Order>(
    alloc: Global,
    p: Poly<K, O>,
    at: usize,
    g: &Poly<K, O>,
) -> Result<(Poly<K, O>, Term<K>), ArithmeticError>
    requires order { g.now.order ≡ p.order }
    requires arity { g.now.arity ≡ p.arity }
    requires nonzero { terms_in g.now ≢ [] }
    requires at { at < length (terms_in p) }
    requires divided { divides (lead_of (terms_in g.now))
        (term_at K.scalars (terms_in p) at).0 ≡ true }
    ensures order { IfOk result (λ c. c.0.order ≡ p.order) }
    ensures arity { IfOk result (λ c. c.0.arity ≡ p.arity) }
    ensures cutting { IfOk result (λ c. Cuts K.scalars (O.order p.order) (terms_in p)
        (term_at K.scalars (terms_in p) at) (terms_in g.now)
        c.1.mono (K.meaning c.1.coef) (terms_in c.0)) }
    ensures wide { IsErrOf result ArithmeticError.Wide
        → IsPastCut K.scalars (field K.scalars) (terms_in p)
        (cutting_of K.scalars 0 (term_at K.scalars (terms_in p) at) (terms_in g.now)) }
{
    let factor = factor_at(alloc, &p, at, g)?;
    let poly = p.sub_multiple(alloc, &factor, g)?;
    Ok((poly, factor))
}

/// The factor of `g` whose multiple has the term at this place of the polynomial as its first.
/// `Wide` only where the weight of the quotient of both numbers is past.
fn factor_at<K: Field, O: Order>(
    alloc: Global,
    p: &Poly<K, O>,
    at: usize,
    g: &Poly<K, O>,
) -> Result<Term<K>, ArithmeticError>
    requires arity { g.now.arity ≡ p.now.arity }
    requires nonzero { terms_in g.now ≢ [] }
    requires at { at < length (terms_in p.now) }
    requires divided { divides (lead_of (terms_in g.now))
        (term_at K.scalars (terms_in p.now) at).0 ≡ true }
    ensures long { IfOk result (λ f. length f.mono ≡ p.now.arity) }
    ensures by { IfOk result (λ f. f.mono
        ≡ (cutting_of K.scalars 0 (term_at K.scalars (terms_in p.now) at) (terms_in g.now)).by) }
    ensures number { IfOk result (λ f. K.meaning f.coef
        ≡ (cutting_of K.scalars 0 (term_at K.scalars (terms_in p.now) at)
        (terms_in g.now)).number) }
    ensures term { IfOk result (λ f. term_at K.scalars (terms_in p.now) at
        ≡ (
          plus f.mono (lead_of (terms_in g.now)),
          K.scalars.mul (K.meaning f.coef)
              (lead_number (field K.scalars) (terms_in g.now)),
        )) }
    ensures wide { IsErrOf result ArithmeticError.Wide
        → IsPastCut K.scalars (field K.scalars) (terms_in p.now)
        (cutting_of K.scalars 0 (term_at K.scalars (terms_in p.now) at) (terms_in g.now)) }
{
    let term = &p.terms()[at];
    let Some(lead) = g.terms().first() else {
        unreachable!()
    };
    let coef = term.coef.div(&lead.coef)?;
    let mono = term.mono.quotient(alloc, &lead.mono)?;
    Ok(Term { mono, coef })
}

/// The place of the first lead that divides the monomial.
fn first_divisor(mono: &Mono, leads: &[Mono]) -> Option<usize>
    requires { All (λ d. length d ≡ length mono.now) leads.now }
    ensures { result ≡ position (λ d. divides d mono.now) leads.now }
{
    leads.iter().position(|lead| is_divisor(lead, mono))
}

/// Whether the lead divides the monomial.
fn is_divisor(lead: &Mono, mono: &Mono) -> bool
    requires { length lead.now ≡ length mono.now }
    ensures { result ≡ divides lead.now mono.now }
{
    lead.divides(mono)
}
