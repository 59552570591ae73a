//! The rounds of a trace.
ghost use Rattle.std.specs.Prelude.{◌≡◌, ◌<◌, ◌≤◌, ◌+◌, ◌∷◌, ◌++◌, [], ℕ, List, All, map, length, get_or, IfOk, IfErr};
ghost use Rattle.algebra.specs.Fraction.{Fraction};
ghost use Rattle.polynomials.specs.Terms.{Terms};
ghost use Rattle.corollaries.specs.Full.{BranchStages};
ghost use Rattle.poly.specs.Seen.{terms_each};
ghost use Rattle.corollaries.specs.Coming.{Comes};
ghost use Rattle.corollaries.specs.Rounds.{behind, OrbitBegins, ComesBehind};
ghost use Rattle.corollaries.specs.Trace.{Results, finished, after_round};
ghost use Rattle.task_lists.specs.View.{branch_in, round_in};
ghost use Rattle.invariant_fix.specs.Setting.{FitsSetting};
ghost use Rattle.invariant_fix.specs.Steps.{Follow};
ghost use Rattle.full_trace.specs.Tasks.{Along, Stops, Knows, IsInWork, given_in, after_row, after_rows, fronts_of, IsBranchOver, AreBranchesOver};

use crate::round_in_work::RoundInWork;
use frac128::Frac;
use invariant_fix::{AnalyseError, Setting};
use journal::Meter;
use monos::Grevlex;
use poly::Poly;
use std::alloc::Global;
use task_lists::{FullBranch, Polys};

/// The list behind the branch with these stages.
fn given(branch: &FullBranch) -> &Polys
    ensures { result.now ≡ given_in branch.now }
{
    match &branch.meet {
        Some(meet) => &meet.out,
        None => &branch.orbit.out,
    }
}

impl RoundInWork<'_> {
    /// The stages of a branch that isn't the first of the round: the orbit along it, and the intersection of the
    /// list so far with that.
    fn branch_stages(
        &self,
        alloc: Global,
        place: usize,
        so_far: &[Poly<Frac, Grevlex>],
        meter: &mut Meter,
    ) -> Result<FullBranch, AnalyseError>
        requires round { IsInWork self.now meter.old }
        requires place { place < length self.now.setting.now.branches.items }
        requires behind { 1 ≤ place }
        requires so_far { Knows self.now.setting.now meter.old so_far.now }
        ensures limit { meter.new.limit ≡ meter.old.limit }
        ensures next { (rounds : ℕ) (d : Results) (bs : List BranchStages)
            → Along self.now.setting.now (λ A.
            ComesBehind A rounds d meter.old.entries self.now.round place
            (terms_each self.now.basis.now.items) bs (terms_each so_far.now)
            → IfOk result (λ b.
            ComesBehind A rounds d meter.new.entries self.now.round (place + 1)
            (terms_each self.now.basis.now.items) (bs ++ branch_in b ∷ [])
            (terms_each (given_in b).items))) }
        ensures over { IfOk result (IsBranchOver self.now.setting.now.arity
            (get_or (fronts_of self.now.setting.now) place 0)) }
        ensures list { IfOk result (λ b. Knows self.now.setting.now meter.new (given_in b).items) }
        ensures units { IfOk result (λ _. Follow meter.old meter.new) }
        ensures refused { (rounds : ℕ) (d : Results) (bs : List BranchStages)
            → Along self.now.setting.now (λ A.
            ComesBehind A rounds d meter.old.entries self.now.round place
            (terms_each self.now.basis.now.items) bs (terms_each so_far.now)
            → IfErr result (Stops A rounds meter.new)) }
    {
        let turned = self.orbit(alloc, place, meter)?;
        let met = self.meet(alloc, place, so_far, &turned.out, meter)?;
        Ok(FullBranch {
            orbit: turned,
            meet: Some(met),
        })
    }

    /// The stages of all branches.
    fn stages(&self, alloc: Global, meter: &mut Meter) -> Result<Vec<FullBranch>, AnalyseError>
        requires round { IsInWork self.now meter.old }
        ensures limit { meter.new.limit ≡ meter.old.limit }
        ensures next { (rounds : ℕ) (d : Results) → Along self.now.setting.now (λ A.
            OrbitBegins A rounds d meter.old.entries self.now.round 0
            (terms_each self.now.basis.now.items) []
            → IfOk result (λ bs. Comes A rounds meter.new.entries (after_round A rounds
            (behind d.start_out d.start_links (d.rounds ++ round_in bs ∷ [])) self.now.round
            (terms_each (after_row self.now.basis.now bs.items).items)))) }
        ensures some { IfOk result (λ bs. 0 < length bs.items) }
        ensures over { IfOk result (λ bs. AreBranchesOver self.now.setting.now.arity
            (fronts_of self.now.setting.now) bs.items) }
        ensures list { IfOk result (λ bs. Knows self.now.setting.now meter.new
            (after_row self.now.basis.now bs.items).items) }
        ensures refused { (rounds : ℕ) (d : Results) → Along self.now.setting.now (λ A.
            OrbitBegins A rounds d meter.old.entries self.now.round 0
            (terms_each self.now.basis.now.items) []
            → IfErr result (Stops A rounds meter.new)) }
    {
        let mut done = Vec::new(alloc);
        let first = self.orbit(alloc, 0, meter)?;
        done.push(FullBranch {
            orbit: first,
            meet: None,
        })?;
        for place in 1..self.setting.branches.len() {
            let so_far = given(&done[place - 1]);
            let branch = self.branch_stages(alloc, place, so_far, meter)?;
            done.push(branch)?;
        }
        Ok(done)
    }
}

/// The list behind these rounds, each of which has a branch, where `start` is that before them.
fn list_behind<'a>(start: &'a Polys, rounds: &'a [Vec<FullBranch>]) -> &'a Polys
    requires { All (λ row. 0 < length row.items) rounds.now }
    ensures { result.now ≡ after_rows start.now rounds.now }
{
    if rounds.is_empty() {
        return start;
    }
    let row = &rounds[rounds.len() - 1];
    given(&row[row.len() - 1])
}

/// So many rounds, from the list of the start.
pub(crate) fn all_rounds(
    alloc: Global,
    setting: &Setting,
    rounds: u32,
    start: &Polys,
    meter: &mut Meter,
) -> Result<Vec<Vec<FullBranch>>, AnalyseError>
    requires fits { FitsSetting setting.now }
    requires start { Knows setting.now meter.old start.now.items }
    ensures limit { meter.new.limit ≡ meter.old.limit }
    ensures next { (links : List (List (Terms Fraction))) → Along setting.now (λ A.
        let out = terms_each start.now.items in
        Comes A rounds meter.old.entries (after_round A rounds (behind out links []) 0 out)
        → IfOk result (λ rows. Comes A rounds meter.new.entries
        (finished (behind out links (map round_in rows.items))))) }
    ensures over { IfOk result (λ rows. All (λ row.
        AreBranchesOver setting.now.arity (fronts_of setting.now) row.items) rows.items) }
    ensures refused { (links : List (List (Terms Fraction))) → Along setting.now (λ A.
        let out = terms_each start.now.items in
        Comes A rounds meter.old.entries (after_round A rounds (behind out links []) 0 out)
        → IfErr result (Stops A rounds meter.new)) }
{
    let mut found = Vec::new(alloc);
    for round in 0..rounds {
        let basis = list_behind(start, &found);
        let next = RoundInWork {
            setting,
            round: round + 1,
            basis,
        };
        let row = next.stages(alloc, meter)?;
        found.push(row)?;
    }
    Ok(found)
}
