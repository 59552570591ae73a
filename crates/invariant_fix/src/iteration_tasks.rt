//! The first iterations of a branch, one by one, where its form isn't the state from the start on.
ghost use Rattle.std.specs.Prelude.{◌≡◌, ◌≤◌, ◌<◌, suc, List, length, IfOk, IfErr};
ghost use Rattle.algebra.specs.Fraction.{Fraction};
ghost use Rattle.polynomials.specs.Terms.{Terms};
ghost use Rattle.rounds.specs.Results.{IsReducedList};
ghost use Rattle.poly.specs.Seen.{terms_each};
ghost use Rattle.machines.specs.Machine.{Ran};
ghost use Rattle.divide.specs.Outcomes.{outcome_of};
ghost use Rattle.ideal_ops.specs.Calls.{IsListOf, AreOver};
ghost use Rattle.invariant_fix.specs.Orbits.{vars_of, turning, iteration_of};
ghost use Rattle.invariant_fix.specs.InWork.{IsInWork, Awaits, Knows, KnowsIterations, Stops, iteration_begins, iteration_ends, iteration_meets, iteration_met, branching, orbiting};
ghost use Rattle.invariant_fix.specs.Setting.{FitsBranch, most_iterations, most_starting_elements};
ghost use Rattle.invariant_fix.specs.Steps.{Follow, HasIterations};

use crate::AnalyseError;
use crate::branch_in_work::BranchInWork;
use crate::branches::Branch;
use crate::errors::{in_task, number_of_place};
use crate::lengths::iteration_length;
use divide::EngineError;
use frac128::Frac;
use ideal_ops::{eliminate, meet};
use journal::{Meter, Task};
use monos::Grevlex;
use poly::Poly;
use std::alloc::Global;

impl BranchInWork<'_> {
    /// The meet of the list so far with what is a member of the round's after each of the iterations of the branch that are taken one by one: one less than from which on its form is the state.
    pub(crate) fn iterations(
        &self,
        alloc: Global,
        so_far: &[Poly<Frac, Grevlex>],
        meter: &mut Meter,
    ) -> Result<Vec<Poly<Frac, Grevlex>>, AnalyseError>
        requires at { IsInWork self.now meter.old }
        requires iterations { HasIterations self.now.setting.now self.now.place }
        requires so_far { Knows self.now meter.old so_far.now }
        requires next { Awaits self.now meter.old (branching self.now so_far.now) }
        ensures limit { meter.new.limit ≡ meter.old.limit }
        ensures next { IfOk result (λ ls.
            Awaits self.now meter.new (orbiting self.now (terms_each ls.items))) }
        ensures list { IfOk result (λ ls. Knows self.now meter.new ls.items) }
        ensures units { IfOk result (λ _. Follow meter.old meter.new) }
        ensures err { IfErr result (Stops self.now meter.new) }
    {
        let since = self.setting.branches[self.place].form.since;
        let mut before = self.iteration(alloc, 0, self.basis, meter)?;
        let mut so_far = self.meet_with_iteration(alloc, 0, so_far, &before, meter)?;
        for taken in 1..since - 1 {
            before = self.iteration(alloc, taken, &before, meter)?;
            so_far = self.meet_with_iteration(alloc, taken, &so_far, &before, meter)?;
        }
        Ok(so_far)
    }

    /// What is a member after one iteration more of the branch than `taken`, from what is one after these.
    fn iteration(
        &self,
        alloc: Global,
        taken: u32,
        before: &[Poly<Frac, Grevlex>],
        meter: &mut Meter,
    ) -> Result<Vec<Poly<Frac, Grevlex>>, AnalyseError>
        requires at { IsInWork self.now meter.old }
        requires few { taken < most_iterations }
        requires before { KnowsIterations self.now taken meter.old before.now }
        ensures limit { meter.new.limit ≡ meter.old.limit }
        ensures next { (hs : List (Terms Fraction))
            → Awaits self.now meter.old (iteration_begins self.now taken before.now hs)
            → IfOk result (λ ls.
            Awaits self.now meter.new (iteration_ends self.now taken before.now hs ls.items)) }
        ensures list { IfOk result (λ ls. KnowsIterations self.now (suc taken) meter.new ls.items) }
        ensures units { IfOk result (λ _. Follow meter.old meter.new) }
        ensures err { (hs : List (Terms Fraction))
            → Awaits self.now meter.old (iteration_begins self.now taken before.now hs)
            → IfErr result (Stops self.now meter.new) }
    {
        let task = Task::Iteration {
            round: self.round,
            branch: number_of_place(self.place),
            iteration: taken + 1,
        };
        meter.begin(task)?;
        let branch = &self.setting.branches[self.place];
        if iteration_length(branch, before).is_none() {
            return Err(AnalyseError::Limit { task });
        }
        match eliminated_iteration(alloc, branch, before, meter) {
            Ok(list) => Ok(list),
            Err(error) => Err(in_task(task, error)),
        }
    }

    /// The meet of the list so far with what is a member after one iteration more than `taken`.
    fn meet_with_iteration(
        &self,
        alloc: Global,
        taken: u32,
        so_far: &[Poly<Frac, Grevlex>],
        turned: &[Poly<Frac, Grevlex>],
        meter: &mut Meter,
    ) -> Result<Vec<Poly<Frac, Grevlex>>, AnalyseError>
        requires at { IsInWork self.now meter.old }
        requires few { taken < most_iterations }
        requires so_far { Knows self.now meter.old so_far.now }
        requires turned { KnowsIterations self.now (suc taken) meter.old turned.now }
        requires next { Awaits self.now meter.old
            (iteration_meets self.now taken so_far.now turned.now) }
        ensures limit { meter.new.limit ≡ meter.old.limit }
        ensures met { IfOk result (λ ls. Awaits self.now meter.new
            (iteration_met self.now taken so_far.now turned.now ls.items)) }
        ensures list { IfOk result (λ ls. Knows self.now meter.new ls.items) }
        ensures units { IfOk result (λ _. Follow meter.old meter.new) }
        ensures err { IfErr result (Stops self.now meter.new) }
    {
        let task = Task::IterationMeet {
            round: self.round,
            branch: number_of_place(self.place),
            iteration: taken + 1,
        };
        meter.begin(task)?;
        match meet(alloc, so_far, turned, meter) {
            Ok(met) => Ok(met),
            Err(error) => Err(in_task(task, error)),
        }
    }
}

/// The copies are eliminated.
fn eliminated_iteration(
    alloc: Global,
    branch: &Branch,
    before: &[Poly<Frac, Grevlex>],
    meter: &mut Meter,
) -> Result<Vec<Poly<Frac, Grevlex>>, EngineError>
    requires branch { FitsBranch (vars_of branch.now) branch.now }
    requires some { 0 < vars_of branch.now }
    requires before { AreOver (vars_of branch.now) before.now }
    requires few { length before.now ≤ most_starting_elements }
    ensures ran { Ran (iteration_of branch.now before.now) (IsListOf
        (turning branch.now before.now))
        meter.old meter.new (outcome_of result) }
    ensures arity { IfOk result (λ ks. AreOver (vars_of branch.now) ks.items) }
    ensures reduced { IfOk result (λ ks.
        IsReducedList (vars_of branch.now) (terms_each ks.items)) }
{
    let gens = branch
        .late_form()
        .iteration_list(alloc, &branch.images, before)?;
    eliminate(alloc, &gens, meter)
}
