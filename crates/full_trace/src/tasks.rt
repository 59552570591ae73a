//! The tasks of a trace that have a stage: the orbit of a list along a branch, and its intersection with the
//! list so far.
ghost use Rattle.std.specs.Prelude.{◌≡◌, ◌<◌, ◌≤◌, ℕ, List, length, get_or, IfOk, IfErr};
ghost use Rattle.algebra.specs.Fraction.{Fraction};
ghost use Rattle.polynomials.specs.Terms.{Terms};
ghost use Rattle.rounds.specs.Form.{front};
ghost use Rattle.poly.specs.Seen.{terms_each};
ghost use Rattle.divide.specs.Outcomes.{refusal_of};
ghost use Rattle.ideal_ops.specs.Calls.{AreOver};
ghost use Rattle.corollaries.specs.Making.{IsStageMade};
ghost use Rattle.corollaries.specs.Rounds.{OrbitBegins, OrbitEnds, MeetBegins, MeetEnds};
ghost use Rattle.corollaries.specs.Trace.{Results};
ghost use Rattle.task_lists.specs.Images.{IsStageIn};
ghost use Rattle.task_lists.specs.View.{stage_in};
ghost use Rattle.invariant_fix.specs.Orbits.{numbers_of, vars_of, pulled_back_list, IsPastPulledBack};
ghost use Rattle.invariant_fix.specs.Setting.{FitsSetting, FitsBranch};
ghost use Rattle.invariant_fix.specs.Steps.{Follow};
ghost use Rattle.full_trace.specs.Tasks.{Along, Stops, IsBegunRefused, Knows, IsInWork, most_begun, fronts_of};

use crate::round_in_work::RoundInWork;
use crate::stage::stage;
use divide::EngineError;
use frac128::Frac;
use ideal_ops::blend;
use invariant_fix::{AnalyseError, Branch, in_task, number_of_place};
use journal::{Meter, Task};
use monos::Grevlex;
use poly::Poly;
use std::alloc::Global;
use task_lists::{FullStage, front, orbit_list};

/// The stage of the orbit of a list along a branch. `Wide` only where the weight of a composition is past, or as that of `stage`.
fn orbit_stage(
    alloc: Global,
    branch: &Branch,
    basis: &[Poly<Frac, Grevlex>],
    meter: &mut Meter,
) -> Result<FullStage, EngineError>
    requires branch { FitsBranch (vars_of branch.now) branch.now }
    requires some { 0 < vars_of branch.now }
    requires basis { AreOver (vars_of branch.now) basis.now }
    requires few { length basis.now ≤ most_begun }
    ensures limit { meter.new.limit ≡ meter.old.limit }
    ensures made { IfOk result (λ s. IsStageMade (front (numbers_of branch.now))
        (pulled_back_list branch.now basis.now) (stage_in s) meter.old.entries meter.new.entries) }
    ensures over { IfOk result (IsStageIn (front (numbers_of branch.now)) (vars_of branch.now)) }
    ensures refused { IfErr result (λ e. IsBegunRefused (IsPastPulledBack branch.now basis.now)
        (front (numbers_of branch.now)) (pulled_back_list branch.now basis.now) meter.old meter.new
        (refusal_of e)) }
{
    let base = &branch.form.base;
    let vars = branch.images.len();
    let begin = orbit_list(alloc, base, &branch.back, vars, basis)?;
    stage(alloc, front(base.len()), vars, &begin, meter)
}

impl RoundInWork<'_> {
    /// The orbit of the list of the round before along the branch at this place.
    pub(crate) fn orbit(
        &self,
        alloc: Global,
        place: usize,
        meter: &mut Meter,
    ) -> Result<FullStage, AnalyseError>
        requires round { IsInWork self.now meter.old }
        requires place { place < length self.now.setting.now.branches.items }
        ensures limit { meter.new.limit ≡ meter.old.limit }
        ensures next { (rounds : ℕ) (d : Results) (hs : List (Terms Fraction))
            → Along self.now.setting.now (λ A.
            OrbitBegins A rounds d meter.old.entries self.now.round place
            (terms_each self.now.basis.now.items) hs
            → IfOk result (λ s. OrbitEnds A rounds d meter.new.entries self.now.round place
            (terms_each self.now.basis.now.items) hs (stage_in s))) }
        ensures over { IfOk result
            (IsStageIn (get_or (fronts_of self.now.setting.now) place 0)
            self.now.setting.now.arity) }
        ensures list { IfOk result (λ s. Knows self.now.setting.now meter.new s.out.items) }
        ensures units { IfOk result (λ _. Follow meter.old meter.new) }
        ensures refused { (rounds : ℕ) (d : Results) (hs : List (Terms Fraction))
            → Along self.now.setting.now (λ A.
            OrbitBegins A rounds d meter.old.entries self.now.round place
            (terms_each self.now.basis.now.items) hs
            → IfErr result (Stops A rounds meter.new)) }
    {
        let task = Task::Orbit {
            round: self.round,
            branch: number_of_place(place),
        };
        meter.begin(task)?;
        match orbit_stage(alloc, &self.setting.branches[place], self.basis, meter) {
            Ok(stage) => Ok(stage),
            Err(error) => Err(in_task(task, error)),
        }
    }

    /// The intersection of the list so far with the orbit along the branch at this place.
    pub(crate) fn meet(
        &self,
        alloc: Global,
        place: usize,
        so_far: &[Poly<Frac, Grevlex>],
        next: &[Poly<Frac, Grevlex>],
        meter: &mut Meter,
    ) -> Result<FullStage, AnalyseError>
        requires fits { FitsSetting self.now.setting.now }
        requires place { place < length self.now.setting.now.branches.items }
        requires so_far { Knows self.now.setting.now meter.old so_far.now }
        requires next { Knows self.now.setting.now meter.old next.now }
        ensures limit { meter.new.limit ≡ meter.old.limit }
        ensures met { (rounds : ℕ) (d : Results) (gs : List (Terms Fraction))
            → Along self.now.setting.now (λ A.
            MeetBegins A rounds d meter.old.entries self.now.round place gs
            (terms_each so_far.now) (terms_each next.now)
            → IfOk result (λ s. MeetEnds A rounds d meter.new.entries self.now.round place gs
            (terms_each so_far.now) (terms_each next.now) (stage_in s))) }
        ensures over { IfOk result (IsStageIn 1 self.now.setting.now.arity) }
        ensures list { IfOk result (λ s. Knows self.now.setting.now meter.new s.out.items) }
        ensures units { IfOk result (λ _. Follow meter.old meter.new) }
        ensures refused { (rounds : ℕ) (d : Results) (gs : List (Terms Fraction))
            → Along self.now.setting.now (λ A.
            MeetBegins A rounds d meter.old.entries self.now.round place gs
            (terms_each so_far.now) (terms_each next.now)
            → IfErr result (Stops A rounds meter.new)) }
    {
        let task = Task::Meet {
            round: self.round,
            branch: number_of_place(place),
        };
        meter.begin(task)?;
        let Ok(begin) = blend(alloc, self.setting.arity, so_far, next) else {
            return Err(AnalyseError::Memory);
        };
        match stage(alloc, 1, self.setting.arity, &begin, meter) {
            Ok(stage) => Ok(stage),
            Err(error) => Err(in_task(task, error)),
        }
    }
}
