//! What a transition makes of the elements of a list, and the rests of these images.
ghost use Rattle.std.specs.Prelude.{◌≡◌, ◌≤◌, [], ◌∷◌, List, length, IfOk};
ghost use Rattle.algebra.specs.Fraction.{Fraction};
ghost use Rattle.polynomials.specs.Terms.{Terms};
ghost use Rattle.machines.specs.Journal.{Entry};
ghost use Rattle.poly.specs.Seen.{terms_in, terms_each};
ghost use Rattle.divide.specs.Limits.{list_limit};
ghost use Rattle.ideal_ops.specs.Eliminating.{AreKept};
ghost use Rattle.loop_model.specs.Stops.{Forms};
ghost use Rattle.ideal_ops.specs.Calls.{AreOver};
ghost use Rattle.flows.specs.Family.{after};
ghost use Rattle.flows.specs.Tasks.{by_rest, from_images, from_rests};
ghost use Rattle.program_families.specs.Views.{job_of, transition_in, arity_in, IsJob};
ghost use Rattle.program_families.specs.Following.{ComesNext};
ghost use Rattle.program_families.specs.Operations.{image_operations, AreImagesBehind};
ghost use Rattle.program_families.specs.Causes.{Takes};
ghost use Rattle.program_families.specs.Refusals.{in_image};
ghost use Rattle.program_families.specs.Ends.{kept_or};

use crate::dividing::rest_of;
use crate::{Job, TaskError};
use counter_run::compose_anew;
use divide::EngineError;
use frac128::Frac;
use journal::Meter;
use loop_model::MapError;
use monos::{Grevlex, Mono};
use poly::Poly;
use std::alloc::{AllocError, Global};

impl Job<'_> {
    /// The images, behind one for each unknown.
    fn images_behind(&self, alloc: Global) -> Result<Vec<Poly<Frac, Grevlex>>, AllocError>
        requires { IsJob self.now }
        ensures over { IfOk result (λ gs. AreOver (arity_in self.now) gs.items) }
        ensures behind { IfOk result (λ gs. AreImagesBehind (transition_in self.now)
            (terms_each gs.items)) }
    {
        let mut images = Vec::new(alloc);
        for _unknown in 0..self.transition.unknowns {
            images.push(Poly::zero(alloc, Grevlex, self.arity()))?;
        }
        for image in &self.transition.images {
            images.push(image.copy(alloc)?)?;
        }
        Ok(images)
    }

    /// The polynomial with the images for its variables: with the unknowns put in front, which it hasn't, it has as many variables as there are images.
    fn image_of(
        &self,
        alloc: Global,
        images: &Vec<Poly<Frac, Grevlex>>,
        polynomial: &Poly<Frac, Grevlex>,
    ) -> Result<Poly<Frac, Grevlex>, MapError>
        requires job { IsJob self.now }
        requires arity { polynomial.now.arity ≡ self.now.variables }
        requires over { AreOver (arity_in self.now) images.now.items }
        requires behind { AreImagesBehind (transition_in self.now) (terms_each images.now.items) }
        ensures { let n = self.now.variables in let t = transition_in self.now in
            let p = terms_in polynomial.now in
            Forms (arity_in self.now) (image_operations n t p) (after n t p) result }
    {
        let front = Mono::one(alloc, self.transition.unknowns)?;
        let padded = polynomial.behind(alloc, Grevlex, &front)?;
        compose_anew(alloc, &padded, images)
    }

    /// The rest of the image of this element of the target's list.
    fn rest_of_image(
        &self,
        alloc: Global,
        images: &Vec<Poly<Frac, Grevlex>>,
        basis: &Vec<Poly<Frac, Grevlex>>,
        element: usize,
        polynomial: &Poly<Frac, Grevlex>,
        meter: &mut Meter,
    ) -> Result<Poly<Frac, Grevlex>, TaskError>
        requires job { IsJob self.now }
        requires arity { polynomial.now.arity ≡ self.now.variables }
        requires over { AreOver (arity_in self.now) images.now.items }
        requires behind { AreImagesBehind (transition_in self.now) (terms_each images.now.items) }
        requires divisors { AreKept (arity_in self.now) basis.now.items }
        requires few { length basis.now.items ≤ list_limit }
        ensures limit { meter.new.limit ≡ meter.old.limit }
        ensures takes { let n = self.now.variables in let j = job_of self.now in
            let gs = terms_each basis.now.items in
            (start : List Entry) (waiting : List (Terms Fraction))
            → ComesNext n j start meter.old.entries
            (from_images n j gs element (terms_in polynomial.now ∷ waiting))
            → Takes n j (λ rest. by_rest n j gs element waiting (terms_in rest)) start
            meter.new.limit meter.new.entries result }
    {
        let image = match self.image_of(alloc, images, polynomial) {
            Ok(image) => image,
            Err(MapError::Limit { .. }) => return Err(TaskError::LimitImage { element }),
            Err(MapError::Wide { .. }) => return Err(TaskError::WideImage { element }),
            Err(MapError::Memory) => return Err(TaskError::Memory),
        };
        match rest_of(alloc, self.place, &image, basis, meter) {
            Ok(rest) => Ok(rest),
            Err(error) => Err(in_image(element, error)),
        }
    }

    /// Whether the rests of the images of all elements are 0. What stands behind the first that isn't isn't divided.
    pub(crate) fn keeps(
        &self,
        alloc: Global,
        basis: &Vec<Poly<Frac, Grevlex>>,
        elements: &Vec<Poly<Frac, Grevlex>>,
        meter: &mut Meter,
    ) -> Result<bool, TaskError>
        requires job { IsJob self.now }
        requires elements { AreOver self.now.variables elements.now.items }
        requires divisors { AreKept (arity_in self.now) basis.now.items }
        requires few { length basis.now.items ≤ list_limit }
        ensures limit { meter.new.limit ≡ meter.old.limit }
        ensures takes { let n = self.now.variables in let j = job_of self.now in
            let gs = terms_each basis.now.items in
            (start : List Entry)
            → ComesNext n j start meter.old.entries
            (from_images n j gs 0 (terms_each elements.now.items))
            → Takes n j (kept_or (from_rests n j gs [] j.monomials)) start meter.new.limit
            meter.new.entries result }
    {
        let images = self.images_behind(alloc)?;
        for (element, polynomial) in elements.iter().enumerate() {
            let rest = self.rest_of_image(alloc, &images, basis, element, polynomial, meter)?;
            if !rest.is_zero() {
                return Ok(false);
            }
        }
        Ok(true)
    }
}

/// The refusal of the division of this element's image.
fn in_image(element: usize, error: EngineError) -> TaskError
    ensures { result ≡ in_image element error }
{
    match error {
        EngineError::Wide => TaskError::WideImage { element },
        EngineError::Budget => TaskError::Budget,
        EngineError::Memory => TaskError::Memory,
    }
}
