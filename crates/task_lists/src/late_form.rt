//! The lists of a closed form that isn't the state from the start on.
ghost use Rattle.std.specs.Prelude.{◌≡◌, ◌<◌, ◌+◌, ◌++◌, ℕ, List, length, map, All, Any, IfOk, OnOk, IsErrOf};
ghost use Rattle.algebra.specs.Fraction.{Fraction, fractions, fraction_size};
ghost use Rattle.algebra.specs.Size.{IsPast};
ghost use Rattle.polynomials.specs.Order.{grevlex};
ghost use Rattle.polynomials.specs.Terms.{Terms};
ghost use Rattle.polynomials.specs.Weight.{weight, IsPastComposition};
ghost use Rattle.poly.specs.Seen.{terms_in, terms_each};
ghost use Rattle.poly.specs.Standing.{IsInVariables, StandsFor, AllStandFor};
ghost use Rattle.expo.specs.View.{base_of};
ghost use Rattle.expo.specs.declared.exponential.Expo.{Expo};
ghost use Rattle.rounds.specs.Form.{front, inverse_form, at_minus_one};
ghost use Rattle.rounds.specs.Past.{iteration_images, IsPastComposed};
ghost use Rattle.task_lists.specs.Placed.{HaveBlock};
ghost use Rattle.task_lists.specs.Shapes.{width_of};
ghost use Rattle.task_lists.specs.Late.{FitsForm, HasShape, numbers_in, orbit_graph_of, iteration_graph_of, orbit_of, iteration_of, IsPastOrbitOf, IsPastIterationOf, copies_in, front_in, vars_in, bodies_in, form_over, IsExpoOver};

use crate::before::{before, passers};
use crate::front;
use crate::graph::graph;
use crate::placed::{push_normal, push_placed, push_relations};
use crate::shape::Shape;
use expo::Expo;
use frac128::{Frac, Whole};
use monos::{Blocks, Grevlex};
use poly::Poly;
use ring_laws::ArithmeticError;
use std::alloc::{AllocError, Global};

/// A closed form that isn't the state from the start on: what its lists are made of.
#[derive(Clone, Copy)]
pub struct LateForm<'a> {
    /// The numbers whose powers are in it.
    pub base: &'a Vec<Whole>,
    /// The state from some number of iterations on, a polynomial for each variable.
    pub polys: &'a Vec<Expo>,
    /// The same backward.
    pub back: &'a Vec<Poly<Frac, Grevlex>>,
    /// Which variables aren't themselves at n = 0.
    pub passing: &'a Vec<bool>,
}

impl<'a> LateForm<'a> {
    /// What the orbit of a list from that number of iterations on begins with: the elements at what was, each variable less its form there, and the relations between the powers.
    /// `Wide` only where the weight of one of these compositions or differences is past.
    pub fn orbit_list(
        &self,
        alloc: Global,
        list: &[Poly<Frac, Grevlex>],
    ) -> Result<Vec<Poly<Frac, Blocks>>, ArithmeticError>
        requires fits { FitsForm self.now }
        requires list { All (IsInVariables (vars_in self.now)) list.now }
        ensures list { IfOk result (λ gens. terms_each gens.items ≡ orbit_of self.now list.now) }
        ensures block { let n = front_in self.now in
            IfOk result (λ gens. HaveBlock n (n + vars_in self.now) gens.items) }
        ensures wide { IsErrOf result ArithmeticError.Wide → IsPastOrbitOf self.now list.now }
    {
        let numbers = self.base.len();
        let shape = self.shape(front(numbers));
        let graph = self.orbit_graph(alloc, shape, list)?;
        let mut gens = Vec::new(alloc);
        let first = shape.front + shape.copies;
        push_normal(alloc, &mut gens, self.base, first, &graph)?;
        push_relations(alloc, &mut gens, numbers, shape.copies, shape.variables)?;
        Ok(gens)
    }

    /// The graph of any number of iterations from that number on.
    fn orbit_graph(
        &self,
        alloc: Global,
        shape: Shape,
        list: &[Poly<Frac, Grevlex>],
    ) -> Result<Vec<Poly<Frac, Grevlex>>, ArithmeticError>
        requires fits { FitsForm self.now }
        requires shape { HasShape self.now (front (numbers_in self.now)) shape }
        requires list { All (IsInVariables (vars_in self.now)) list.now }
        ensures graph { IfOk result (λ out.
            AllStandFor (width_of shape) out.items (orbit_graph_of self.now list.now)) }
        ensures wide { IsErrOf result ArithmeticError.Wide → IsPastOrbitOf self.now list.now }
        ensures heavy { IfOk result (λ out.
            Any (λ p. IsPast (weight fraction_size p)) (terms_each out.items)
            → IsPastOrbitOf self.now list.now) }
    {
        let before = before(alloc, shape, self.passing.as_slice(), self.back.as_slice())?;
        let forms = bodies(alloc, self.polys.as_slice())?;
        graph(alloc, shape, before, &forms, list)
    }

    /// What is a member of a list's ideal after one iteration of the branch with these polynomials begins with: the elements at what was, and each variable less the branch's polynomial there.
    /// `Wide` only where the weight of one of these compositions or differences is past, or that of the form at -1.
    pub fn iteration_list(
        &self,
        alloc: Global,
        images: &[Poly<Frac, Grevlex>],
        list: &[Poly<Frac, Grevlex>],
    ) -> Result<Vec<Poly<Frac, Blocks>>, ArithmeticError>
        requires fits { FitsForm self.now }
        requires count { length images.now ≡ vars_in self.now }
        requires images { All (IsInVariables (vars_in self.now)) images.now }
        requires list { All (IsInVariables (vars_in self.now)) list.now }
        ensures list { IfOk result (λ gens.
            terms_each gens.items ≡ iteration_of self.now images.now list.now) }
        ensures block { let n = copies_in self.now in
            IfOk result (λ gens. HaveBlock n (n + vars_in self.now) gens.items) }
        ensures wide { IsErrOf result ArithmeticError.Wide
            → IsPastIterationOf self.now images.now list.now }
    {
        let shape = self.shape(0);
        let graph = self.iteration_graph(alloc, shape, images, list)?;
        let mut gens = Vec::new(alloc);
        push_placed(alloc, &mut gens, shape.copies, &graph)?;
        Ok(gens)
    }

    /// The graph of one iteration.
    fn iteration_graph(
        &self,
        alloc: Global,
        shape: Shape,
        images: &[Poly<Frac, Grevlex>],
        list: &[Poly<Frac, Grevlex>],
    ) -> Result<Vec<Poly<Frac, Grevlex>>, ArithmeticError>
        requires fits { FitsForm self.now }
        requires shape { HasShape self.now 0 shape }
        requires count { length images.now ≡ vars_in self.now }
        requires images { All (IsInVariables (vars_in self.now)) images.now }
        requires list { All (IsInVariables (vars_in self.now)) list.now }
        ensures graph { IfOk result (λ out. AllStandFor (width_of shape) out.items
            (iteration_graph_of self.now images.now list.now)) }
        ensures wide { IsErrOf result ArithmeticError.Wide
            → IsPastIterationOf self.now images.now list.now }
    {
        let mut told = Vec::new(alloc);
        push_told(alloc, &mut told, self.polys.as_slice())?;
        let before = before(alloc, shape, self.passing.as_slice(), &told)?;
        graph(alloc, shape, before, images, list)
    }

    /// The variables of a graph with so many in front.
    fn shape(&self, front: usize) -> Shape
        ensures shape { HasShape self.now front result }
    {
        Shape {
            front,
            copies: passers(self.passing.as_slice()),
            variables: self.passing.len(),
        }
    }
}

/// Copies of the polynomials themselves.
fn bodies(alloc: Global, polys: &[Expo]) -> Result<Vec<Poly<Frac, Grevlex>>, AllocError>
    ensures terms { IfOk result (λ out. terms_each out.items ≡ bodies_in polys.now) }
    ensures arities { IfOk result (λ out.
        map (λ p. p.arity) out.items ≡ map (λ (e : Expo). e.body.arity) polys.now) }
{
    let mut out = Vec::new(alloc);
    for poly in polys {
        out.push(poly.body().copy(alloc)?)?;
    }
    Ok(out)
}

/// What the polynomials tell of one iteration before: they at n = -1, behind the others.
fn push_told(
    alloc: Global,
    out: &mut Vec<Poly<Frac, Grevlex>>,
    polys: &[Expo],
) -> Result<(), ArithmeticError>
    ensures told { (bs : List ℕ) (m : ℕ) → All (IsExpoOver bs m) polys.now
        → (qs : List (Terms Fraction)) → AllStandFor m out.old.items qs
        → OnOk result (AllStandFor m out.new.items (qs
        ++ map (at_minus_one (form_over bs) m) (bodies_in polys.now))) }
    ensures wide { (bs : List ℕ) (m : ℕ) → All (IsExpoOver bs m) polys.now
        → IsErrOf result ArithmeticError.Wide
        → IsPastComposed (iteration_images (form_over bs) m)
        (map (inverse_form grevlex (length bs)) (bodies_in polys.now)) }
{
    let Some((poly, polys)) = polys.split_first() else {
        return Ok(());
    };
    out.push(told_by(alloc, poly)?)?;
    push_told(alloc, out, polys)
}

/// The polynomial at n = -1.
fn told_by(alloc: Global, poly: &Expo) -> Result<Poly<Frac, Grevlex>, ArithmeticError>
    ensures told { IfOk result (λ p. StandsFor poly.now.vars p
        (at_minus_one (form_over (base_of poly.now)) poly.now.vars (terms_in poly.now.body))) }
    ensures wide { IsErrOf result ArithmeticError.Wide → IsPastComposition fractions
        (inverse_form grevlex (length (base_of poly.now)) (terms_in poly.now.body))
        (iteration_images (form_over (base_of poly.now)) poly.now.vars) }
{
    poly.inverse_form(alloc)?.at_iteration(alloc, 1)
}
