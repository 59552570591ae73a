//! The polynomials of a closing, and what becomes of them under a branch and at the start.
ghost use Rattle.std.specs.Prelude.{◌≡◌, ℕ, List, [], All, IfOk, IfErr};
ghost use Rattle.algebra.specs.Fraction.{Fraction};
ghost use Rattle.polynomials.specs.Terms.{Terms};
ghost use Rattle.polynomials.specs.Polynomial.{AllArity};
ghost use Rattle.rounds.specs.Word.{IsLetter};
ghost use Rattle.poly.specs.Seen.{terms_in};
ghost use Rattle.poly.specs.Standing.{IsInVariables, AllStandFor};
ghost use Rattle.counter_run.specs.Composition.{composition_operations};
ghost use Rattle.closing.specs.LoopMaps.{program_in, arity_in};
ghost use Rattle.closing.specs.Compositions.{IsComposed, IfComposing, IsTurned, IfIterationStops, IsFromStart, IfStartStops};

use crate::{ClosingError, LoopMaps};
use counter_run::{compose_anew, prepend};
use frac128::Frac;
use loop_model::MapError;
use monos::Grevlex;
use poly::Poly;
use std::alloc::Global;

/// A polynomial in a closing.
#[derive(Drop)]
pub struct Candidate {
    /// The place, in the list that is closed, of the polynomial that it comes from.
    pub of: usize,
    /// The word in which it comes from it: letters are numbers of branches, which count from 1.
    pub word: Vec<u32>,
    pub polynomial: Poly<Frac, Grevlex>,
}

impl LoopMaps<'_> {
    /// The candidate composed with the map of the branch with this number.
    pub(crate) fn after_iteration(
        &self,
        alloc: Global,
        letter: u32,
        from: &Candidate,
    ) -> Result<Candidate, ClosingError>
        requires letter { IsLetter (program_in self.now) letter }
        requires arity { from.now.polynomial.arity ≡ arity_in self.now }
        ensures turned { IfOk result (IsTurned (program_in self.now) letter from.now) }
        ensures stopped { IfErr result (IfIterationStops (program_in self.now) letter from.now) }
    {
        let word = prepend(alloc, letter, &from.word)?;
        let images = self.branch(letter);
        let polynomial = composition_of(alloc, &from.polynomial, images, &word)?;
        Ok(Candidate {
            of: from.of,
            word,
            polynomial,
        })
    }

    /// The candidate's polynomial composed with the map of the start.
    pub(crate) fn from_start(
        &self,
        alloc: Global,
        candidate: &Candidate,
    ) -> Result<Poly<Frac, Grevlex>, ClosingError>
        requires { candidate.now.polynomial.arity ≡ arity_in self.now }
        ensures image { IfOk result (IsFromStart (program_in self.now) candidate.now) }
        ensures stopped { IfErr result (IfStartStops (program_in self.now) candidate.now) }
    {
        let images = &self.maps.start;
        composition_of(alloc, &candidate.polynomial, images, &candidate.word)
    }
}

/// The polynomial with the images in place of its variables; a refusal tells the word.
fn composition_of(
    alloc: Global,
    polynomial: &Poly<Frac, Grevlex>,
    images: &Vec<Poly<Frac, Grevlex>>,
    word: &Vec<u32>,
) -> Result<Poly<Frac, Grevlex>, ClosingError>
    requires images { All (IsInVariables polynomial.now.arity) images.now.items }
    ensures composed { (m : ℕ) (maps : List (Terms Fraction)) → polynomial.now.arity ≡ m
        → AllStandFor m images.now.items maps → AllArity m maps
        → IfOk result (IsComposed m maps (terms_in polynomial.now)) }
    ensures stopped { (m : ℕ) (maps : List (Terms Fraction)) → polynomial.now.arity ≡ m
        → AllStandFor m images.now.items maps → AllArity m maps
        → IfErr result (IfComposing m (composition_operations m maps [] (terms_in polynomial.now))
        word.now.items) }
{
    match compose_anew(alloc, polynomial, images) {
        Ok(composition) => Ok(composition),
        Err(MapError::Limit { .. }) => Err(ClosingError::Limit {
            word: word.clone()?,
        }),
        Err(MapError::Wide { .. }) => Err(ClosingError::Wide {
            word: word.clone()?,
        }),
        Err(MapError::Memory) => Err(ClosingError::Memory),
    }
}
