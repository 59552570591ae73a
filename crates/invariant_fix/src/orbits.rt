//! The orbit of a list along a branch: what is in its ideal after any number of iterations of the branch, from where its form begins to be the state.
ghost use Rattle.std.specs.Prelude.{◌≡◌, ◌≤◌, ◌<◌, ◌+◌, List, length, IfOk, IfErr, IsErrOf};
ghost use Rattle.algebra.specs.Fraction.{Fraction};
ghost use Rattle.polynomials.specs.Terms.{Terms};
ghost use Rattle.rounds.specs.Results.{IsReducedList};
ghost use Rattle.poly.specs.Seen.{terms_each};
ghost use Rattle.machines.specs.Machine.{Ran};
ghost use Rattle.divide.specs.Outcomes.{outcome_of};
ghost use Rattle.ideal_ops.specs.Calls.{IsListOf, AreOver};
ghost use Rattle.ideal_ops.specs.Eliminating.{HaveBlock};
ghost use Rattle.invariant_fix.specs.Orbits.{vars_of, pulling_back, orbit_of, orbit_front_of, orbit_list_of, IsPastPullingBack};
ghost use Rattle.invariant_fix.specs.InWork.{IsInWork, Awaits, Knows, KnowsIterations, Stops, orbiting, orbited};
ghost use Rattle.invariant_fix.specs.Setting.{FitsBranch, most_starting_elements};
ghost use Rattle.invariant_fix.specs.Steps.{Follow, HasWhole};

use crate::AnalyseError;
use crate::branch_in_work::BranchInWork;
use crate::branches::Branch;
use crate::errors::{in_task, number_of_place};
use crate::lengths::orbit_length;
use divide::EngineError;
use frac128::Frac;
use ideal_ops::eliminate;
use journal::{Meter, Task};
use monos::{Blocks, Grevlex};
use poly::Poly;
use ring_laws::ArithmeticError;
use std::alloc::Global;
use task_lists::{LateForm, orbit_list};

impl BranchInWork<'_> {
    /// The orbit of the round's list along the branch.
    pub(crate) fn orbit(
        &self,
        alloc: Global,
        meter: &mut Meter,
    ) -> Result<Vec<Poly<Frac, Grevlex>>, AnalyseError>
        requires at { IsInWork self.now meter.old }
        ensures limit { meter.new.limit ≡ meter.old.limit }
        ensures next { (hs : List (Terms Fraction))
            → Awaits self.now meter.old (orbiting self.now hs)
            → IfOk result (λ ls. Awaits self.now meter.new (orbited self.now hs ls.items)) }
        ensures list { IfOk result (λ ls. KnowsIterations self.now 1 meter.new ls.items) }
        ensures whole { HasWhole self.now.setting.now self.now.place
            → IfOk result (λ ls. Knows self.now meter.new ls.items) }
        ensures units { IfOk result (λ _. Follow meter.old meter.new) }
        ensures err { (hs : List (Terms Fraction))
            → Awaits self.now meter.old (orbiting self.now hs)
            → IfErr result (Stops self.now meter.new) }
    {
        let task = Task::Orbit {
            round: self.round,
            branch: number_of_place(self.place),
        };
        meter.begin(task)?;
        let branch = &self.setting.branches[self.place];
        if orbit_length(branch, self.basis).is_none() {
            return Err(AnalyseError::Limit { task });
        }
        match eliminated_orbit(alloc, branch, self.basis, meter) {
            Ok(orbit) => Ok(orbit),
            Err(error) => Err(in_task(task, error)),
        }
    }
}

/// The number of iterations and the powers that go with it are eliminated.
fn eliminated_orbit(
    alloc: Global,
    branch: &Branch,
    basis: &[Poly<Frac, Grevlex>],
    meter: &mut Meter,
) -> Result<Vec<Poly<Frac, Grevlex>>, EngineError>
    requires branch { FitsBranch (vars_of branch.now) branch.now }
    requires some { 0 < vars_of branch.now }
    requires basis { AreOver (vars_of branch.now) basis.now }
    requires few { length basis.now ≤ most_starting_elements }
    ensures ran { Ran (orbit_of branch.now basis.now) (IsListOf (pulling_back branch.now basis.now))
        meter.old meter.new (outcome_of result) }
    ensures arity { IfOk result (λ hs. AreOver (vars_of branch.now) hs.items) }
    ensures reduced { IfOk result (λ hs.
        IsReducedList (vars_of branch.now) (terms_each hs.items)) }
{
    let gens = branch.starting_list(alloc, basis)?;
    eliminate(alloc, &gens, meter)
}

impl Branch {
    /// The list that an orbit begins with.
    fn starting_list(
        &self,
        alloc: Global,
        basis: &[Poly<Frac, Grevlex>],
    ) -> Result<Vec<Poly<Frac, Blocks>>, ArithmeticError>
        requires branch { FitsBranch (vars_of self.now) self.now }
        requires some { 0 < vars_of self.now }
        requires basis { AreOver (vars_of self.now) basis.now }
        ensures list { IfOk result (λ gens.
            terms_each gens.items ≡ orbit_list_of self.now basis.now) }
        ensures block { let n = orbit_front_of self.now in
            IfOk result (λ gens. HaveBlock n (n + vars_of self.now) gens.items) }
        ensures wide { IsErrOf result ArithmeticError.Wide
            → IsPastPullingBack self.now basis.now }
    {
        if self.form.since == 0 {
            let vars = self.images.len();
            return orbit_list(alloc, &self.form.base, &self.back, vars, basis);
        }
        self.late_form().orbit_list(alloc, basis)
    }

    /// What the lists of the branch are made of where its form isn't the state from the start on.
    pub(crate) fn late_form(&self) -> LateForm<'_>
        ensures base { result.base.now ≡ self.now.form.base }
        ensures polys { result.polys.now ≡ self.now.form.polys }
        ensures back { result.back.now ≡ self.now.back }
        ensures passing { result.passing.now ≡ self.now.form.passing }
    {
        LateForm {
            base: &self.form.base,
            polys: &self.form.polys,
            back: &self.back,
            passing: &self.form.passing,
        }
    }
}
