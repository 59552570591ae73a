//! The stages of branches and rounds, judged.
ghost use Rattle.std.specs.Prelude.{◌≡◌, ◌<◌, ◌≤◌, ℕ, length, OnOk, IfErr};
ghost use Rattle.poly.specs.Seen.{terms_each};
ghost use Rattle.corollaries.specs.Full.{orbit, meet, before};
ghost use Rattle.task_lists.specs.Images.{ArePolys};
ghost use Rattle.task_lists.specs.View.{branch_in};
ghost use Rattle.cert_checker.specs.InverseForm.{given_list, IsGivenOver, IsInverseForm, AreInverseForm};
ghost use Rattle.cert_checker.specs.FullJudge.{program_by, cert_by, IsFullJudge, Hold, StopsAmong, stage_by, round_by, rounds_by};

use crate::full_judge::FullJudge;
use crate::full_part::{Kind, Part, in_stage};
use crate::full_stage::StageJudge;
use crate::full_stop::Stop;
use std::alloc::Global;
use task_lists::{FullBranch, Polys, Starting, front};

/// The list behind the branch with these stages.
fn list_of(branch: &FullBranch) -> &Polys
    ensures given { terms_each result.now.items ≡ given_list (branch_in branch.now) }
    ensures over { (m : ℕ) → IsGivenOver m branch.now → ArePolys m result.now }
{
    match &branch.meet {
        Some(meet) => &meet.out,
        None => &branch.orbit.out,
    }
}

impl FullJudge<'_> {
    /// The list before this round.
    pub(crate) fn list_before(&self, round: usize) -> &Polys
        requires judge { IsFullJudge self.now }
        requires round { round ≤ length (cert_by self.now).rounds }
        ensures before { terms_each result.now.items
            ≡ before (program_by self.now) (cert_by self.now) round }
        ensures over { ArePolys (length (program_by self.now).names) result.now }
    {
        if round == 0 {
            return &self.cert.start.out;
        }
        list_of(&self.cert.rounds[round - 1][self.lp.branches().len() - 1])
    }

    /// Whether the orbit of this branch holds. `back` has the branch's form, backward.
    fn judge_orbit<'a>(
        &'a self,
        alloc: Global,
        back: &'a Polys,
        round: usize,
        branch: usize,
    ) -> Result<(), Stop<Part>>
        requires judge { IsFullJudge self.now }
        requires back { IsInverseForm (program_by self.now) self.now.cert.now branch back.now }
        requires round { round < length (cert_by self.now).rounds }
        requires branch { branch < length (program_by self.now).branches }
        ensures holds { OnOk result (Hold self.now (stage_by self.now round branch orbit)) }
        ensures stops { IfErr result
            (StopsAmong self.now (stage_by self.now round branch orbit)) }
    {
        let (base, list) = (&self.cert.forms[branch].base, self.list_before(round));
        let stage = StageJudge {
            begin: Starting::Orbit(base, back, list),
            front: front(base.len()),
            variables: self.lp.names().len(),
            stage: &self.cert.rounds[round][branch].orbit,
        };
        in_stage(round, branch, Kind::Orbit, stage.judge(alloc))
    }

    /// Whether the intersection of this branch, which isn't the first, holds.
    fn judge_meet(&self, alloc: Global, round: usize, branch: usize) -> Result<(), Stop<Part>>
        requires judge { IsFullJudge self.now }
        requires round { round < length (cert_by self.now).rounds }
        requires branch { branch < length (program_by self.now).branches }
        requires behind { 0 < branch }
        ensures holds { OnOk result (Hold self.now (stage_by self.now round branch meet)) }
        ensures stops { IfErr result (StopsAmong self.now (stage_by self.now round branch meet)) }
    {
        let round_stages = &self.cert.rounds[round];
        let stages = &round_stages[branch];
        let Some(stage) = &stages.meet else {
            unreachable!()
        };
        let stage = StageJudge {
            begin: Starting::Meet(list_of(&round_stages[branch - 1]), &stages.orbit.out),
            front: 1,
            variables: self.lp.names().len(),
            stage,
        };
        in_stage(round, branch, Kind::Meet, stage.judge(alloc))
    }

    /// Whether the stages of this round hold. `back` has the forms of the branches, backward.
    fn judge_round(&self, alloc: Global, back: &Vec<Polys>, round: usize) -> Result<(), Stop<Part>>
        requires judge { IsFullJudge self.now }
        requires back { AreInverseForm (program_by self.now) self.now.cert.now back.now }
        requires round { round < length (cert_by self.now).rounds }
        ensures holds { OnOk result (Hold self.now (round_by self.now round)) }
        ensures stops { IfErr result (StopsAmong self.now (round_by self.now round)) }
    {
        for branch in 0..self.lp.branches().len() {
            (&*self).judge_orbit(alloc, &back[branch], round, branch)?;
            if branch > 0 {
                self.judge_meet(alloc, round, branch)?;
            }
        }
        Ok(())
    }

    /// Whether the stages of all rounds hold.
    pub(crate) fn judge_rounds(&self, alloc: Global, back: &Vec<Polys>) -> Result<(), Stop<Part>>
        requires judge { IsFullJudge self.now }
        requires back { AreInverseForm (program_by self.now) self.now.cert.now back.now }
        ensures holds { OnOk result (Hold self.now (rounds_by self.now)) }
        ensures stops { IfErr result (StopsAmong self.now (rounds_by self.now)) }
    {
        for round in 0..self.cert.rounds.len() {
            self.judge_round(alloc, back, round)?;
        }
        Ok(())
    }
}
