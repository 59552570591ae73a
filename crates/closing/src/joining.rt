//! One candidate of a closing: its division by the list, and what follows of its rest.
ghost use Rattle.std.specs.Prelude.{◌≡◌, ◌<◌, ◌≤◌, List, length, IfOk};
ghost use Rattle.algebra.specs.Fraction.{Fraction};
ghost use Rattle.polynomials.specs.Terms.{Terms};
ghost use Rattle.machines.specs.Journal.{units_of};
ghost use Rattle.poly.specs.Seen.{terms_in, terms_each};
ghost use Rattle.closures.specs.Closing as seen;
ghost use Rattle.closures.specs.Closing.{with_polynomial};
ghost use Rattle.closing.specs.Causes.{HasRest, AreJoined};
ghost use Rattle.closing.specs.LoopMaps.{program_in, arity_in};
ghost use Rattle.closing.specs.Progress.{candidate_of, candidates_of, Fits, FitsSequel, Grows, Reaches, Takes};

use crate::candidates::Candidate;
use crate::tasks::{extended_list, in_task, rest_of};
use crate::{ClosingError, LoopMaps};
use frac128::Frac;
use journal::Meter;
use monos::Grevlex;
use poly::Poly;
use std::alloc::Global;

/// How far a closing is: how many candidates were divided, the reduced basis of what they are, and those of the level that left a rest, each with its rest.
#[derive(Drop)]
pub(crate) struct Progress {
    pub(crate) number: u32,
    pub(crate) list: Vec<Poly<Frac, Grevlex>>,
    pub(crate) kept: Vec<Candidate>,
}

/// A candidate whose rest, composed with the map of the start, isn't 0, and this image of it.
#[derive(Drop)]
pub struct Counter {
    pub candidate: Candidate,
    pub image: Poly<Frac, Grevlex>,
}

/// What follows a candidate.
#[derive(Drop)]
pub(crate) enum Sequel {
    /// The closing goes on.
    On(Progress),
    /// It ends.
    Counter(Counter),
}

impl LoopMaps<'_> {
    /// Divides the candidate by the list, and joins its rest to the list.
    pub(crate) fn take(
        &self,
        alloc: Global,
        progress: Progress,
        candidate: Candidate,
        meter: &mut Meter,
    ) -> Result<Sequel, ClosingError>
        requires arity { candidate.polynomial.arity ≡ arity_in self.now }
        requires fits { Fits (arity_in self.now) (units_of meter.old.entries) progress }
        ensures limit { meter.new.limit ≡ meter.old.limit }
        ensures units { IfOk result (λ _. units_of meter.old.entries < units_of meter.new.entries) }
        ensures grows { IfOk result (λ _. Grows meter.old.entries meter.new.entries) }
        ensures fits { IfOk result
            (FitsSequel (arity_in self.now) (units_of meter.new.entries)) }
        ensures takes { (P : List (Terms Fraction)) (waiting : List seen.Candidate)
            → Reaches (program_in self.now) P meter.old.entries progress (candidate_of P candidate)
            waiting → Takes (program_in self.now) P waiting meter.new.limit meter.new.entries
            result }
    {
        meter.within_limit();
        let division = match rest_of(
            alloc,
            progress.number,
            &candidate.polynomial,
            &progress.list,
            meter,
        ) {
            Ok(division) => division,
            Err(error) => return Err(in_task(error, candidate.word)),
        };
        if division.remainder.is_zero() {
            return Ok(Sequel::On(Progress {
                number: progress.number + 1,
                list: progress.list,
                kept: progress.kept,
            }));
        }
        let rest = Candidate {
            of: candidate.of,
            word: candidate.word,
            polynomial: division.remainder,
        };
        self.join(alloc, progress, rest, meter)
    }

    /// Joins the candidate's rest, which isn't 0, to the list, where it is 0 at the starts.
    fn join(
        &self,
        alloc: Global,
        progress: Progress,
        rest: Candidate,
        meter: &mut Meter,
    ) -> Result<Sequel, ClosingError>
        requires arity { rest.polynomial.arity ≡ arity_in self.now }
        requires fits { Fits (arity_in self.now) (units_of meter.old.entries) progress }
        requires few { length progress.list.items < units_of meter.old.entries }
        requires number { progress.number < units_of meter.old.entries }
        ensures limit { meter.new.limit ≡ meter.old.limit }
        ensures units { IfOk result (λ _. units_of meter.old.entries ≤ units_of meter.new.entries) }
        ensures grows { IfOk result (λ _. Grows meter.old.entries meter.new.entries) }
        ensures fits { IfOk result
            (FitsSequel (arity_in self.now) (units_of meter.new.entries)) }
        ensures takes { (P : List (Terms Fraction)) (whole : Terms Fraction)
            (waiting : List seen.Candidate)
            → HasRest (program_in self.now) P meter.old.entries progress.number
            (terms_each progress.list.items) (candidates_of P progress.kept.items)
            (with_polynomial whole (candidate_of P rest)) waiting (terms_in rest.polynomial)
            → AreJoined (program_in self.now) P meter.old.entries
            (candidates_of P progress.kept.items)
            → Takes (program_in self.now) P waiting meter.new.limit meter.new.entries result }
    {
        let image = self.from_start(alloc, &rest)?;
        if !image.is_zero() {
            return Ok(Sequel::Counter(Counter {
                candidate: rest,
                image,
            }));
        }
        meter.within_limit();
        let list = match extended_list(
            alloc,
            progress.number,
            &progress.list,
            &rest.polynomial,
            meter,
        ) {
            Ok(list) => list,
            Err(error) => return Err(in_task(error, rest.word)),
        };
        let mut kept = progress.kept;
        kept.push(rest)?;
        Ok(Sequel::On(Progress {
            number: progress.number + 1,
            list,
            kept,
        }))
    }
}
