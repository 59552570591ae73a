//! A basis with its variables in the order of an elimination.

ghost use Rattle.std.specs.Prelude.{◌≡◌, ◌≤◌, ◌<◌, ◌++◌, length, IfOk, OnOk, IsErrOf};
ghost use Rattle.std.specs.Prelude.{[], get_or};
ghost use Rattle.algebra.specs.Fraction.{ℚ, rationals, fractions};
ghost use Rattle.polynomials.specs.Terms.{variables, compose};
ghost use Rattle.polynomials.specs.Order.{grevlex, blocks};
ghost use Rattle.polynomials.specs.Weight.{IsPastComposition};
ghost use Rattle.corollaries.specs.Journal.{IsPastOrdering};
ghost use Rattle.machines.specs.Collect.{collect};
ghost use Rattle.poly.specs.Seen.{arity_of, terms_in, terms_each};
ghost use Rattle.ideal_ops.specs.Calls.{AreOver};
ghost use Rattle.monos.specs.Variables.{most_variables};
ghost use Rattle.corollaries.specs.Order.{hidden, visible, order, place_in};
ghost use Rattle.invariant_fix.specs.Ordering.{AreImages, HaveHidden, IsStarting};

use frac128::Frac;
use monos::{Blocks, Grevlex};
use poly::Poly;
use ring_laws::ArithmeticError;
use std::alloc::{AllocError, Global};

/// Which variables are shown, of a loop with so many: those at these positions.
#[derive(Clone, Copy)]
pub(crate) struct ShownVariables<'a> {
    pub(crate) vars: usize,
    pub(crate) shown: &'a [usize],
}

impl ShownVariables<'_> {
    /// Adds the positions that aren't shown.
    fn push_hidden(&self, places: &mut Vec<usize>) -> Result<(), AllocError>
        ensures { OnOk result (places.new.items
            ≡ places.old.items ++ hidden self.now.vars self.now.shown.now) }
    {
        for place in 0..self.vars {
            if !self.shown.contains(&place) {
                places.push(place)?;
            }
        }
        Ok(())
    }

    /// Adds those that are.
    fn push_visible(&self, places: &mut Vec<usize>) -> Result<(), AllocError>
        ensures { OnOk result (places.new.items
            ≡ places.old.items ++ visible self.now.vars self.now.shown.now) }
    {
        for place in 0..self.vars {
            if self.shown.contains(&place) {
                places.push(place)?;
            }
        }
        Ok(())
    }

    /// The positions that aren't shown, and then those that are; and how many aren't.
    fn order(&self, alloc: Global) -> Result<(Vec<usize>, usize), AllocError>
        ensures order { IfOk result (λ r. r.0.items ≡ order self.now.vars self.now.shown.now) }
        ensures hidden { IfOk result (λ r. r.1 ≡ length (hidden self.now.vars self.now.shown.now)) }
    {
        let mut places = Vec::new(alloc);
        self.push_hidden(&mut places)?;
        let hidden = places.len();
        self.push_visible(&mut places)?;
        Ok((places, hidden))
    }

    /// For each variable the variable at its place in the order.
    fn images(
        &self,
        alloc: Global,
        places: &[usize],
    ) -> Result<Vec<Poly<Frac, Grevlex>>, AllocError>
        requires few { self.now.vars ≤ most_variables }
        requires order { places.now ≡ order self.now.vars self.now.shown.now }
        ensures images { IfOk result (λ ps. AreImages self.now.vars self.now.shown.now ps.items) }
    {
        let mut images = Vec::new(alloc);
        for var in 0..self.vars {
            images.push(image(alloc, places, var)?)?;
        }
        Ok(images)
    }

    /// The elements with their variables in the order.
    pub(crate) fn ordered(
        &self,
        alloc: Global,
        basis: &[Poly<Frac, Grevlex>],
    ) -> Result<Vec<Poly<Frac, Blocks>>, ArithmeticError>
        requires some { 0 < self.now.vars }
        requires few { self.now.vars ≤ most_variables }
        requires basis { AreOver self.now.vars basis.now }
        ensures starting { IfOk result (λ hs.
            IsStarting self.now.vars self.now.shown.now basis.now hs.items) }
        ensures block { IfOk result (λ hs. HaveHidden self.now.vars self.now.shown.now hs.items) }
        ensures wide { IsErrOf result ArithmeticError.Wide
            → IsPastOrdering self.now.vars self.now.shown.now (terms_each basis.now) }
    {
        let (places, hidden) = self.order(alloc)?;
        let images = self.images(alloc, &places)?;
        let mut gens = Vec::new(alloc);
        for element in basis {
            gens.push(moved(alloc, hidden, &images, element)?)?;
        }
        Ok(gens)
    }
}

/// Where the position stands first; behind all where it doesn't.
fn place_in(places: &[usize], var: usize) -> usize
    ensures { result ≡ place_in places.now var }
{
    let mut at = 0;
    for place in places {
        if *place == var {
            return at;
        }
        at += 1;
    }
    at
}

/// The variable at the place of another in an order.
fn image(alloc: Global, places: &[usize], var: usize) -> Result<Poly<Frac, Grevlex>, AllocError>
    requires few { length places.now ≤ most_variables }
    requires place { place_in places.now var < length places.now }
    ensures image { IfOk result (λ p. terms_in p
        ≡ get_or (variables ℚ (length places.now)) (place_in places.now var) []) }
    ensures arity { IfOk result (λ p. p.arity ≡ length places.now) }
{
    Poly::variable(alloc, Grevlex, places.len(), place_in(places, var))
}

/// A polynomial with images in place of its variables, in the order with so many of these in its first block.
fn moved(
    alloc: Global,
    first: usize,
    images: &Vec<Poly<Frac, Grevlex>>,
    element: &Poly<Frac, Grevlex>,
) -> Result<Poly<Frac, Blocks>, ArithmeticError>
    requires some { 0 < element.now.arity }
    requires count { length images.now.items ≡ element.now.arity }
    requires arities { AreOver (arity_of images.now.items) images.now.items }
    ensures moved { IfOk result (λ p. terms_in p ≡ collect rationals (blocks first grevlex grevlex)
        (compose ℚ (arity_of images.now.items) (terms_in element.now)
        (terms_each images.now.items))) }
    ensures block { IfOk result (λ p. (p.order.first ≡ first)
        × (p.arity ≡ arity_of images.now.items)) }
    ensures wide { IsErrOf result ArithmeticError.Wide
        → IsPastComposition fractions (terms_in element.now) (terms_each images.now.items) }
{
    let composed = element.compose(alloc, images)?;
    Ok(composed.reorder(alloc, Blocks { first })?)
}
