//! What proves a closed list: the cofactors of its divisions, for the polynomials that were closed and for the list itself.
ghost use Rattle.std.specs.Prelude.{◌≡◌, ◌<◌, ◌≤◌, ◌+◌, ◌++◌, ◌∷◌, List, length, IfOk, IfErr};
ghost use Rattle.algebra.specs.Fraction.{Fraction};
ghost use Rattle.polynomials.specs.Terms.{Terms};
ghost use Rattle.rounds.specs.Word.{IsLetter};
ghost use Rattle.journal.specs.View.{task_of};
ghost use Rattle.poly.specs.Seen.{terms_each};
ghost use Rattle.divide.specs.Current.{AreDivisors};
ghost use Rattle.divide.specs.Division.{HasCofactors};
ghost use Rattle.divide.specs.Limits.{list_limit};
ghost use Rattle.divide.specs.Outcomes.{outcome_of};
ghost use Rattle.ideal_ops.specs.Calls.{AreOver};
ghost use Rattle.closures.specs.Closing.{closed};
ghost use Rattle.closures.specs.Ends.{ComesNext};
ghost use Rattle.closures.specs.Proving.{Test, tests_of, AwaitsTests};
ghost use Rattle.closing.specs.LoopMaps.{program_in, arity_in};
ghost use Rattle.closing.specs.Proving.{IsInWork, program_by, list_by, closure_by, IsSquare, FitsProof, IsRow, AreRows, seen_rows, test_at, iteration_test, Passes, HasProof, IfUnproved};
ghost use Rattle.closing.specs.Tasks.{RanTask};

use crate::LoopMaps;
use crate::listing::{Elements, elements_of, placed_row};
use divide::{Division, EngineError, divide};
use frac128::Frac;
use journal::{Meter, Task};
use monos::Grevlex;
use poly::Poly;
use std::alloc::{AllocError, AllocFailed, Global};

/// What proves that each iteration of a loop leads a closed list into its ideal.
#[derive(Drop)]
pub struct ClosureProof {
    /// The polynomials that were closed, and then those of the closed list that aren't among them.
    pub list: Vec<Poly<Frac, Grevlex>>,
    /// For each branch and each of these what it becomes there, by cofactors: one for each of them.
    pub steps: Vec<Vec<Vec<Poly<Frac, Grevlex>>>>,
}

/// A proof in work: of the list with which a closing has ended, and with the list of the certificate.
#[derive(Drop)]
struct ProofInWork<'p, 'l> {
    loop_maps: &'p LoopMaps<'l>,
    elements: Elements,
    closure: &'p [Poly<Frac, Grevlex>],
}

/// Why a closed list was not proved.
#[derive(Drop, Debug)]
pub enum ProvingError {
    /// In the division of what this element becomes in this branch, both of which count from 1, a
    /// number may not fit.
    Wide { branch: u32, element: u32 },
    /// As many of the entries are units as are allowed, and what comes next is one.
    Budget,
    /// No memory was left.
    Memory,
}

impl From<AllocError> for ProvingError {
    ghost use Rattle.closing.specs.declared.proving.ProvingError.TheVariants.{Memory};

    ghost from_gives = { λ _ e. e ≡ Memory };

    fn from(_: AllocError) -> Self {
        ProvingError::Memory
    }
}

impl<T: Drop> From<AllocFailed<T>> for ProvingError {
    ghost use Rattle.closing.specs.declared.proving.ProvingError.TheVariants.{Memory};

    ghost from_gives = { λ _ e. e ≡ Memory };

    fn from(_: AllocFailed<T>) -> Self {
        ProvingError::Memory
    }
}

impl LoopMaps<'_> {
    /// Proves the list with which the closing of some polynomials has ended, by the divisions behind it.
    ///
    /// The entries that are made are those of these divisions, up to their end or to the refusal (docs/DEFINITIONS.md, section 11).
    pub fn proof_of(
        &self,
        alloc: Global,
        polynomials: &[Poly<Frac, Grevlex>],
        closure: &[Poly<Frac, Grevlex>],
        meter: &mut Meter,
    ) -> Result<ClosureProof, ProvingError>
        requires over { AreOver (arity_in self.now) polynomials.now }
        requires closure_over { AreOver (arity_in self.now) closure.now }
        requires few { length polynomials.now + length closure.now < list_limit }
        requires closes { ComesNext (program_in self.now) (terms_each polynomials.now)
            meter.old.entries (closed (terms_each closure.now)) }
        ensures limit { meter.new.limit ≡ meter.old.limit }
        ensures proof { IfOk result (HasProof (program_in self.now) (terms_each polynomials.now)
            (terms_each closure.now) meter.new.entries) }
        ensures fits { IfOk result (FitsProof (arity_in self.now)) }
        ensures unproved { IfErr result (IfUnproved (program_in self.now)
            (terms_each polynomials.now) (terms_each closure.now) meter.new.limit
            meter.new.entries) }
    {
        let elements = elements_of(alloc, polynomials, closure)?;
        let proof = ProofInWork {
            loop_maps: self,
            elements,
            closure,
        };
        let mut steps = Vec::new(alloc);
        for place in 0..self.lp.branches().len() {
            let letter = place as u32 + 1;
            steps.push(proof.branch_rows(alloc, letter, meter)?)?;
        }
        Ok(ClosureProof {
            list: proof.elements.list,
            steps,
        })
    }
}

impl ProofInWork<'_, '_> {
    /// The rows of the branch with this number.
    fn branch_rows(
        &self,
        alloc: Global,
        letter: u32,
        meter: &mut Meter,
    ) -> Result<Vec<Vec<Poly<Frac, Grevlex>>>, ProvingError>
        requires letter { IsLetter (program_by self.now) letter }
        requires work { IsInWork self.now }
        ensures limit { meter.new.limit ≡ meter.old.limit }
        ensures rows { IfOk result (λ rows. AreRows (program_by self.now) self.now.closure.now
            self.now.elements letter (seen_rows rows.items)) }
        ensures square { IfOk result (λ rows. IsSquare (arity_in self.now.loop_maps.now)
            (length self.now.elements.list.items) rows.items) }
        ensures passes { (P : List (Terms Fraction)) (waiting : List Test)
            → AwaitsTests (program_by self.now) P (closure_by self.now) (list_by self.now)
            meter.old.entries (tests_of letter 1 (list_by self.now) ++ waiting)
            → Passes (program_by self.now) P (closure_by self.now) (list_by self.now) waiting
            meter.new.limit meter.new.entries result }
    {
        let mut rows = Vec::new(alloc);
        for place in 0..self.elements.list.len() {
            rows.push(self.row(alloc, letter, place, meter)?)?;
        }
        Ok(rows)
    }

    /// The row of the element at this place: the cofactors of its division, at the places of the closed list.
    fn row(
        &self,
        alloc: Global,
        letter: u32,
        place: usize,
        meter: &mut Meter,
    ) -> Result<Vec<Poly<Frac, Grevlex>>, ProvingError>
        requires letter { IsLetter (program_by self.now) letter }
        requires work { IsInWork self.now }
        requires place { place < length self.now.elements.list.items }
        ensures limit { meter.new.limit ≡ meter.old.limit }
        ensures row { IfOk result (λ row. IsRow (program_by self.now) self.now.closure.now
            self.now.elements letter place row.items) }
        ensures width { IfOk result (λ row.
            length row.items ≡ length self.now.elements.list.items) }
        ensures over { IfOk result (λ row. AreOver (arity_in self.now.loop_maps.now) row.items) }
        ensures passes { (P : List (Terms Fraction)) (waiting : List Test)
            → AwaitsTests (program_by self.now) P (closure_by self.now) (list_by self.now)
            meter.old.entries (test_at letter place self.now.elements.list.items ∷ waiting)
            → Passes (program_by self.now) P (closure_by self.now) (list_by self.now) waiting
            meter.new.limit meter.new.entries result }
    {
        let element = &self.elements.list[place];
        let images = self.loop_maps.branch(letter);
        let number = place as u32 + 1;
        let task = Task::Closed {
            round: 0,
            branch: letter,
            element: number,
        };
        match test(alloc, task, images, element, self.closure, meter) {
            Ok(division) => {
                Ok(placed_row(alloc, &self.elements, element.arity(), &division.cofactors)?)
            }
            Err(EngineError::Wide) => Err(ProvingError::Wide {
                branch: letter,
                element: number,
            }),
            Err(EngineError::Budget) => Err(ProvingError::Budget),
            Err(EngineError::Memory) => Err(ProvingError::Memory),
        }
    }
}

/// The task that divides the element, with the images for its variables, by the closed list.
fn test(
    alloc: Global,
    task: Task,
    images: &Vec<Poly<Frac, Grevlex>>,
    element: &Poly<Frac, Grevlex>,
    closure: &[Poly<Frac, Grevlex>],
    meter: &mut Meter,
) -> Result<Division<Frac, Grevlex>, EngineError>
    requires some { 0 < element.now.arity }
    requires images { AreOver element.now.arity images.now.items }
    requires count { length images.now.items ≡ element.now.arity }
    requires divisors { AreDivisors element.now.order element.now.arity closure.now }
    requires few { length closure.now ≤ list_limit }
    ensures ran { RanTask (task_of task)
        (iteration_test element.now images.now.items closure.now)
        (HasCofactors element.now.order element.now.arity) meter.old meter.new
        (outcome_of result) }
{
    meter.begin(task)?;
    let turned = element.compose(alloc, images)?;
    divide(alloc, &turned, closure, meter)
}
