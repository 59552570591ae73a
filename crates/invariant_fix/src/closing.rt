//! The closing tests of a round: whether each element, with each branch's polynomials for its variables, has the rest 0.
ghost use Rattle.std.specs.Prelude.{◌≡◌, ◌≢◌, ◌↔◌, ◌<◌, ◌≤◌, suc, length, [], IfOk, IfErr, IfSome, IsSome, IsNone, All};
ghost use Rattle.divide.specs.Limits.{list_limit};
ghost use Rattle.poly.specs.Seen.{terms_in};
ghost use Rattle.machines.specs.Machine.{Ran};
ghost use Rattle.divide.specs.Current.{AreDivisors};
ghost use Rattle.divide.specs.Division.{HasCofactors};
ghost use Rattle.divide.specs.Outcomes.{outcome_of};
ghost use Rattle.ideal_ops.specs.Calls.{AreOver};
ghost use Rattle.invariant_fix.specs.Closing.{HasStep, HasBranchSteps, HasSteps, test_of};
ghost use Rattle.invariant_fix.specs.InWork as here;
ghost use Rattle.invariant_fix.specs.InWork.{IsInWork, testing, tested, opened};
ghost use Rattle.invariant_fix.specs.Setting.{FitsSetting};
ghost use Rattle.invariant_fix.specs.Steps.{Awaits, Knows, Stops, Follow, closing, closed, turning};

use crate::AnalyseError;
use crate::branch_in_work::BranchInWork;
use crate::branches::Branch;
use crate::errors::{in_task, number_of_place};
use crate::setting::Setting;
use divide::{Division, EngineError, divide};
use expansion::composition_length;
use frac128::Frac;
use journal::{Meter, Task};
use monos::Grevlex;
use poly::Poly;
use std::alloc::Global;

/// For each branch and each element the cofactors of its closing division. None where a rest isn't 0.
pub(crate) fn closing_steps(
    alloc: Global,
    setting: &Setting,
    round: u32,
    basis: &[Poly<Frac, Grevlex>],
    meter: &mut Meter,
) -> Result<Option<Vec<Vec<Vec<Poly<Frac, Grevlex>>>>>, AnalyseError>
    requires fits { FitsSetting setting.now }
    requires basis { Knows setting.now meter.old basis.now }
    requires next { Awaits setting.now meter.old (closing setting.now round 0 0 basis.now) }
    ensures limit { meter.new.limit ≡ meter.old.limit }
    ensures open_ { IfOk result (λ o. IsNone o
        → Awaits setting.now meter.new (turning (suc round) basis.now)) }
    ensures closed { IfOk result (λ o. IsSome o
        → Awaits setting.now meter.new (closed round basis.now)) }
    ensures steps { IfOk result (λ o.
        IfSome o (λ steps. HasSteps setting.now basis.now steps.items)) }
    ensures over { IfOk result (λ o. IfSome o (λ steps.
        All (λ rows. All (λ row. AreOver setting.now.arity row.items) rows.items) steps.items)) }
    ensures list { IfOk result (λ _. Knows setting.now meter.new basis.now) }
    ensures units { IfOk result (λ _. Follow meter.old meter.new) }
    ensures err { IfErr result (Stops setting.now meter.new) }
{
    let mut steps = Vec::new(alloc);
    for place in 0..setting.branches.len() {
        let branch = BranchInWork {
            setting,
            round,
            place,
            basis,
        };
        let Some(cofactors) = branch.branch_steps(alloc, meter)? else {
            return Ok(None);
        };
        steps.push(cofactors)?;
    }
    Ok(Some(steps))
}

impl BranchInWork<'_> {
    /// The same for the branch.
    fn branch_steps(
        &self,
        alloc: Global,
        meter: &mut Meter,
    ) -> Result<Option<Vec<Vec<Poly<Frac, Grevlex>>>>, AnalyseError>
        requires at { IsInWork self.now meter.old }
        requires next { here.Awaits self.now meter.old (tested self.now 0) }
        ensures limit { meter.new.limit ≡ meter.old.limit }
        ensures open_ { IfOk result (λ o.
            IsNone o → here.Awaits self.now meter.new (opened self.now)) }
        ensures next { IfOk result (λ o. IsSome o
            → here.Awaits self.now meter.new (tested self.now (length self.now.basis.now))) }
        ensures steps { IfOk result (λ o. IfSome o (λ steps.
            HasBranchSteps self.now.setting.now self.now.place self.now.basis.now steps.items)) }
        ensures over { IfOk result (λ o. IfSome o (λ rows.
            All (λ row. AreOver self.now.setting.now.arity row.items) rows.items)) }
        ensures list { IfOk result (λ _. here.Knows self.now meter.new self.now.basis.now) }
        ensures units { IfOk result (λ _. Follow meter.old meter.new) }
        ensures err { IfErr result (here.Stops self.now meter.new) }
    {
        let mut steps = Vec::new(alloc);
        for element in 0..self.basis.len() {
            let Some(cofactors) = self.closing_step(alloc, element, meter)? else {
                return Ok(None);
            };
            steps.push(cofactors)?;
        }
        Ok(Some(steps))
    }

    /// The cofactors of the closing division of one element with the branch. None where its rest isn't 0.
    fn closing_step(
        &self,
        alloc: Global,
        element: usize,
        meter: &mut Meter,
    ) -> Result<Option<Vec<Poly<Frac, Grevlex>>>, AnalyseError>
        requires at { IsInWork self.now meter.old }
        requires element { element < length self.now.basis.now }
        requires next { here.Awaits self.now meter.old (testing self.now element) }
        ensures limit { meter.new.limit ≡ meter.old.limit }
        ensures open_ { IfOk result (λ o.
            IsNone o → here.Awaits self.now meter.new (opened self.now)) }
        ensures next { IfOk result (λ o.
            IsSome o → here.Awaits self.now meter.new (tested self.now (suc element))) }
        ensures step { IfOk result (λ o. IfSome o (λ qs.
            HasStep self.now.setting.now self.now.place element self.now.basis.now qs.items)) }
        ensures over { IfOk result (λ o.
            IfSome o (λ qs. AreOver self.now.setting.now.arity qs.items)) }
        ensures list { IfOk result (λ _. here.Knows self.now meter.new self.now.basis.now) }
        ensures units { IfOk result (λ _. Follow meter.old meter.new) }
        ensures err { IfErr result (here.Stops self.now meter.new) }
    {
        meter.within_limit();
        let task = Task::Closed {
            round: self.round,
            branch: number_of_place(self.place),
            element: number_of_place(element),
        };
        meter.begin(task)?;
        let basis = self.basis;
        let branch = &self.setting.branches[self.place];
        let tested = &basis[element];
        if composition_length(tested, branch.images.as_slice()).is_none() {
            return Err(AnalyseError::Limit { task });
        }
        match closing_division(alloc, branch, tested, basis, meter) {
            Ok(division) => Ok(cofactors_of(division)),
            Err(error) => Err(in_task(task, error)),
        }
    }
}

/// The division of an element with the branch's polynomials for its variables.
fn closing_division(
    alloc: Global,
    branch: &Branch,
    element: &Poly<Frac, Grevlex>,
    basis: &[Poly<Frac, Grevlex>],
    meter: &mut Meter,
) -> Result<Division<Frac, Grevlex>, EngineError>
    requires some { 0 < element.now.arity }
    requires images { AreOver element.now.arity branch.now.images.items }
    requires count { length branch.now.images.items ≡ element.now.arity }
    requires divisors { AreDivisors element.now.order element.now.arity basis.now }
    requires few { length basis.now ≤ list_limit }
    ensures ran { Ran (test_of branch.now element.now basis.now)
        (HasCofactors element.now.order element.now.arity)
        meter.old meter.new (outcome_of result) }
{
    let turned = element.compose(alloc, &branch.images)?;
    divide(alloc, &turned, basis, meter)
}

/// The cofactors of a division. None exactly where its rest isn't 0.
pub(crate) fn cofactors_of(division: Division<Frac, Grevlex>) -> Option<Vec<Poly<Frac, Grevlex>>>
    ensures some { IfSome result (λ qs.
        (terms_in division.remainder ≡ []) × (qs ≡ division.cofactors)) }
    ensures none { IsNone result ↔ (terms_in division.remainder ≢ []) }
{
    if division.remainder.is_zero() {
        Some(division.cofactors)
    } else {
        None
    }
}
