//! The levels of a closing: the words of one length after those of the length before.
ghost use Rattle.std.specs.Prelude.{◌≡◌, ◌≢◌, ◌<◌, ◌≤◌, ◌+◌, ◌++◌, [], List, length, map, IfOk, IfErr};
ghost use Rattle.algebra.specs.Fraction.{Fraction};
ghost use Rattle.polynomials.specs.Terms.{Terms};
ghost use Rattle.rounds.specs.Word.{IsLetter};
ghost use Rattle.machines.specs.Journal.{units_of};
ghost use Rattle.poly.specs.Seen.{terms_each};
ghost use Rattle.ideal_ops.specs.Calls.{AreOver};
ghost use Rattle.closures.specs.Closing as seen;
ghost use Rattle.closures.specs.Closing.{turned};
ghost use Rattle.closing.specs.Causes.{AreJoined};
ghost use Rattle.closing.specs.LoopMaps.{program_in, arity_in};
ghost use Rattle.closing.specs.Progress.{candidates_of, Awaits, AreIn, Fits, Grows, IsOn, FitsSequel, FitsVerdict, IfStops, Takes, Closes};

use crate::candidates::Candidate;
use crate::joining::{Counter, Progress, Sequel};
use crate::{ClosingError, LoopMaps};
use frac128::Frac;
use journal::Meter;
use monos::Grevlex;
use poly::Poly;
use std::alloc::Global;

/// What a closing ends with.
#[derive(Drop)]
pub enum Verdict {
    /// The reduced basis of all that becomes of the polynomials in words: they are invariants.
    Basis(Vec<Poly<Frac, Grevlex>>),
    /// The first word that counters one of them.
    Counter(Counter),
}

impl LoopMaps<'_> {
    /// Closes polynomials in the loop's variables under its branches (M. Müller-Olm and H. Seidl, "Computing polynomial program invariants", Information Processing Letters 91, 2004).
    ///
    /// A basis comes exactly where all of them are invariants, which is decided for every loop, but for refusals. The entries that are made are those of the closing of the polynomials (docs/DEFINITIONS.md, section 11), up to the end or to the refusal. `Limit` and `Wide` tell the word of the candidate at which it stops.
    pub fn close(
        &self,
        alloc: Global,
        polynomials: &[Poly<Frac, Grevlex>],
        meter: &mut Meter,
    ) -> Result<Verdict, ClosingError>
        requires over { AreOver (arity_in self.now) polynomials.now }
        requires unbegun { meter.old.entries ≡ [] }
        ensures limit { meter.new.limit ≡ meter.old.limit }
        ensures closes { IfOk result
            (Closes (program_in self.now) (terms_each polynomials.now) meter.new.entries) }
        ensures fits { IfOk result
            (FitsVerdict (arity_in self.now) (units_of meter.new.entries)) }
        ensures stopped { IfErr result (IfStops (program_in self.now) (terms_each polynomials.now)
            meter.new.limit meter.new.entries) }
    {
        let mut progress = match self.first_level(alloc, polynomials, meter)? {
            Sequel::On(progress) => progress,
            Sequel::Counter(counter) => return Ok(Verdict::Counter(counter)),
        };
        while !progress.kept.is_empty() {
            meter.within_limit();
            match self.next_level(alloc, progress, meter)? {
                Sequel::On(next) => progress = next,
                Sequel::Counter(counter) => return Ok(Verdict::Counter(counter)),
            }
        }
        Ok(Verdict::Basis(progress.list))
    }

    /// Takes the polynomials themselves, each of the empty word.
    fn first_level(
        &self,
        alloc: Global,
        polynomials: &[Poly<Frac, Grevlex>],
        meter: &mut Meter,
    ) -> Result<Sequel, ClosingError>
        requires over { AreOver (arity_in self.now) polynomials.now }
        requires unbegun { meter.old.entries ≡ [] }
        ensures limit { meter.new.limit ≡ meter.old.limit }
        ensures fits { IfOk result
            (FitsSequel (arity_in self.now) (units_of meter.new.entries)) }
        ensures takes { Takes (program_in self.now) (terms_each polynomials.now) [] meter.new.limit
            meter.new.entries result }
    {
        let list = Vec::new(alloc);
        let kept = Vec::new(alloc);
        let mut progress = Progress {
            number: 0,
            list,
            kept,
        };
        for of in 0..polynomials.len() {
            let word = Vec::new(alloc);
            let polynomial = polynomials[of].copy(alloc)?;
            let candidate = Candidate {
                of,
                word,
                polynomial,
            };
            match self.take(alloc, progress, candidate, meter)? {
                Sequel::On(next) => progress = next,
                Sequel::Counter(counter) => return Ok(Sequel::Counter(counter)),
            }
        }
        Ok(Sequel::On(progress))
    }

    /// Takes what was kept of the last level after an iteration of each branch.
    fn next_level(
        &self,
        alloc: Global,
        last: Progress,
        meter: &mut Meter,
    ) -> Result<Sequel, ClosingError>
        requires fits { Fits (arity_in self.now) (units_of meter.old.entries) last }
        ensures limit { meter.new.limit ≡ meter.old.limit }
        ensures units { IfOk result (λ s. IsOn s → last.kept.items ≢ []
            → units_of meter.old.entries < units_of meter.new.entries) }
        ensures fits { IfOk result
            (FitsSequel (arity_in self.now) (units_of meter.new.entries)) }
        ensures takes { (P : List (Terms Fraction))
            → Awaits (program_in self.now) P meter.old.entries last []
            → Takes (program_in self.now) P [] meter.new.limit meter.new.entries result }
    {
        let level = last.kept;
        let kept = Vec::new(alloc);
        let mut progress = Progress {
            number: last.number,
            list: last.list,
            kept,
        };
        for index in 0..self.lp.branches().len() {
            let letter = index as u32 + 1;
            match self.take_iterations(alloc, letter, &level, progress, meter)? {
                Sequel::On(next) => progress = next,
                Sequel::Counter(counter) => return Ok(Sequel::Counter(counter)),
            }
        }
        Ok(Sequel::On(progress))
    }

    /// Takes the candidates of the level before after an iteration of the branch with this number.
    fn take_iterations(
        &self,
        alloc: Global,
        letter: u32,
        level: &Vec<Candidate>,
        mut progress: Progress,
        meter: &mut Meter,
    ) -> Result<Sequel, ClosingError>
        requires letter { IsLetter (program_in self.now) letter }
        requires level { AreIn (arity_in self.now) level.now.items }
        requires fits { Fits (arity_in self.now) (units_of meter.old.entries) progress }
        ensures limit { meter.new.limit ≡ meter.old.limit }
        ensures units { IfOk result (λ s. IsOn s →
            units_of meter.old.entries + length level.now.items ≤ units_of meter.new.entries) }
        ensures grows { IfOk result (λ _. Grows meter.old.entries meter.new.entries) }
        ensures fits { IfOk result
            (FitsSequel (arity_in self.now) (units_of meter.new.entries)) }
        ensures takes { (P : List (Terms Fraction)) (waiting : List seen.Candidate)
            → AreJoined (program_in self.now) P meter.old.entries (candidates_of P level.now.items)
            → Awaits (program_in self.now) P meter.old.entries progress
            (map (turned (program_in self.now) letter) (candidates_of P level.now.items) ++ waiting)
            → Takes (program_in self.now) P waiting meter.new.limit meter.new.entries result }
    {
        for from in level {
            let candidate = self.after_iteration(alloc, letter, from)?;
            match self.take(alloc, progress, candidate, meter)? {
                Sequel::On(next) => progress = next,
                Sequel::Counter(counter) => return Ok(Sequel::Counter(counter)),
            }
        }
        Ok(Sequel::On(progress))
    }
}
