//! The rounds of an analysis.
ghost use Rattle.std.specs.Prelude.{All, ◌<◌, ◌≡◌, IfOk, IfErr};
ghost use Rattle.machines.specs.Journal.{units_of};
ghost use Rattle.poly.specs.Seen.{terms_each};
ghost use Rattle.ideal_ops.specs.Calls.{AreOver};
ghost use Rattle.invariant_fix.specs.Closing.{HasSteps};
ghost use Rattle.invariant_fix.specs.InWork as here;
ghost use Rattle.invariant_fix.specs.InWork.{IsInWork, branching, branched, orbiting, meeting, met};
ghost use Rattle.invariant_fix.specs.Setting.{FitsSetting, most_iterations};
ghost use Rattle.invariant_fix.specs.Steps.{Awaits, Knows, Stops, Follow, HasMeet, started, closing, closed, turning};

use crate::branch_in_work::BranchInWork;
use crate::closing::closing_steps;
use crate::errors::{in_task, number_of_place};
use crate::setting::Setting;
use crate::{AnalyseError, Analysis};
use frac128::Frac;
use ideal_ops::meet;
use journal::{Meter, Task};
use monos::Grevlex;
use poly::Poly;
use std::alloc::Global;

/// All rounds from this basis on, up to the first that is closed.
pub(crate) fn rounds(
    alloc: Global,
    setting: &Setting,
    start: Vec<Poly<Frac, Grevlex>>,
    meter: &mut Meter,
) -> Result<Analysis, AnalyseError>
    requires fits { FitsSetting setting.now }
    requires start { Knows setting.now meter.old start.items }
    requires next { Awaits setting.now meter.old (started setting.now start.items) }
    ensures limit { meter.new.limit ≡ meter.old.limit }
    ensures closed { IfOk result (λ a.
        Awaits setting.now meter.new (closed a.rounds a.basis.items)) }
    ensures steps { IfOk result (λ a. HasSteps setting.now a.basis.items a.steps.items) }
    ensures over { IfOk result (λ a.
        All (λ rows. All (λ row. AreOver setting.now.arity row.items) rows.items) a.steps.items) }
    ensures list { IfOk result (λ a. Knows setting.now meter.new a.basis.items) }
    ensures err { IfErr result (Stops setting.now meter.new) }
{
    let mut round = 0;
    let mut basis = start;
    loop {
        meter.within_limit();
        if let Some(steps) = closing_steps(alloc, setting, round, &basis, meter)? {
            return Ok(Analysis {
                basis,
                rounds: round,
                steps,
            });
        }
        round += 1;
        basis = next_basis(alloc, setting, round, &basis, meter)?;
    }
}

/// The basis of this round, from that of the round before: what is a member of that after any number of iterations of each branch.
fn next_basis(
    alloc: Global,
    setting: &Setting,
    round: u32,
    basis: &[Poly<Frac, Grevlex>],
    meter: &mut Meter,
) -> Result<Vec<Poly<Frac, Grevlex>>, AnalyseError>
    requires fits { FitsSetting setting.now }
    requires basis { Knows setting.now meter.old basis.now }
    requires next { Awaits setting.now meter.old (turning round basis.now) }
    ensures limit { meter.new.limit ≡ meter.old.limit }
    ensures next { IfOk result (λ hs.
        Awaits setting.now meter.new (closing setting.now round 0 0 hs.items)) }
    ensures list { IfOk result (λ hs. Knows setting.now meter.new hs.items) }
    ensures units { IfOk result (λ _. units_of meter.old.entries < units_of meter.new.entries) }
    ensures err { IfErr result (Stops setting.now meter.new) }
{
    meter.begin(Task::Round { round })?;
    let first = BranchInWork {
        setting,
        round,
        place: 0,
        basis,
    };
    let mut so_far = first.first_list(alloc, meter)?;
    for place in 1..setting.branches.len() {
        let branch = BranchInWork {
            setting,
            round,
            place,
            basis,
        };
        so_far = branch.list_behind(alloc, &so_far, meter)?;
    }
    Ok(so_far)
}

impl BranchInWork<'_> {
    /// The list so far behind the first branch: its orbit, where its form is the state from the start on.
    fn first_list(
        &self,
        alloc: Global,
        meter: &mut Meter,
    ) -> Result<Vec<Poly<Frac, Grevlex>>, AnalyseError>
        requires at { IsInWork self.now meter.old }
        requires first { self.now.place ≡ 0 }
        requires next { here.Awaits self.now meter.old (branching self.now self.now.basis.now) }
        ensures limit { meter.new.limit ≡ meter.old.limit }
        ensures next { IfOk result (λ ls.
            here.Awaits self.now meter.new (branched self.now ls.items)) }
        ensures list { IfOk result (λ ls. here.Knows self.now meter.new ls.items) }
        ensures units { IfOk result (λ _. Follow meter.old meter.new) }
        ensures err { IfErr result (here.Stops self.now meter.new) }
    {
        if self.setting.branches[self.place].form.since == 0 {
            return self.orbit(alloc, meter);
        }
        self.list_behind(alloc, self.basis, meter)
    }

    /// The list so far behind the branch: its meet with what is a member of the round's after each number of iterations.
    fn list_behind(
        &self,
        alloc: Global,
        so_far: &[Poly<Frac, Grevlex>],
        meter: &mut Meter,
    ) -> Result<Vec<Poly<Frac, Grevlex>>, AnalyseError>
        requires at { IsInWork self.now meter.old }
        requires meets { HasMeet self.now.setting.now self.now.place }
        requires so_far { here.Knows self.now meter.old so_far.now }
        requires next { here.Awaits self.now meter.old (branching self.now so_far.now) }
        ensures limit { meter.new.limit ≡ meter.old.limit }
        ensures next { IfOk result (λ ls.
            here.Awaits self.now meter.new (branched self.now ls.items)) }
        ensures list { IfOk result (λ ls. here.Knows self.now meter.new ls.items) }
        ensures units { IfOk result (λ _. Follow meter.old meter.new) }
        ensures err { IfErr result (here.Stops self.now meter.new) }
    {
        if self.setting.branches[self.place].form.since < 2 {
            return self.meet_orbit(alloc, so_far, meter);
        }
        let turned = self.iterations(alloc, so_far, meter)?;
        self.meet_orbit(alloc, &turned, meter)
    }

    /// The meet of the list so far with the orbit along the branch.
    fn meet_orbit(
        &self,
        alloc: Global,
        so_far: &[Poly<Frac, Grevlex>],
        meter: &mut Meter,
    ) -> Result<Vec<Poly<Frac, Grevlex>>, AnalyseError>
        requires at { IsInWork self.now meter.old }
        requires meets { HasMeet self.now.setting.now self.now.place }
        requires so_far { here.Knows self.now meter.old so_far.now }
        requires next { here.Awaits self.now meter.old (orbiting self.now (terms_each so_far.now)) }
        ensures limit { meter.new.limit ≡ meter.old.limit }
        ensures next { IfOk result (λ ls.
            here.Awaits self.now meter.new (branched self.now ls.items)) }
        ensures list { IfOk result (λ ls. here.Knows self.now meter.new ls.items) }
        ensures units { IfOk result (λ _. Follow meter.old meter.new) }
        ensures err { IfErr result (here.Stops self.now meter.new) }
    {
        let next = self.orbit(alloc, meter)?;
        self.meet_with_orbit(alloc, so_far, &next, meter)
    }

    /// The meet of the list so far with the orbit along the branch.
    fn meet_with_orbit(
        &self,
        alloc: Global,
        so_far: &[Poly<Frac, Grevlex>],
        next: &[Poly<Frac, Grevlex>],
        meter: &mut Meter,
    ) -> Result<Vec<Poly<Frac, Grevlex>>, AnalyseError>
        requires at { IsInWork self.now meter.old }
        requires so_far { here.Knows self.now meter.old so_far.now }
        requires next { here.KnowsIterations self.now most_iterations meter.old next.now }
        requires due { here.Awaits self.now meter.old (meeting self.now so_far.now next.now) }
        ensures limit { meter.new.limit ≡ meter.old.limit }
        ensures met { IfOk result (λ ls.
            here.Awaits self.now meter.new (met self.now so_far.now next.now ls.items)) }
        ensures list { IfOk result (λ ls. here.Knows self.now meter.new ls.items) }
        ensures units { IfOk result (λ _. Follow meter.old meter.new) }
        ensures err { IfErr result (here.Stops self.now meter.new) }
    {
        let task = Task::Meet {
            round: self.round,
            branch: number_of_place(self.place),
        };
        meter.begin(task)?;
        match meet(alloc, so_far, next, meter) {
            Ok(met) => Ok(met),
            Err(error) => Err(in_task(task, error)),
        }
    }
}
