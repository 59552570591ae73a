//! The judge of a full certificate, and the parts behind the certificate itself, judged in their order.
ghost use Rattle.std.specs.Prelude.{◌∷◌, [], OnOk, IfErr};
ghost use Rattle.corollaries.specs.Parts.{at_end};
ghost use Rattle.cert_checker.specs.FullJudge.{IsFullJudge, Hold, StopsAmong, further_by};

use crate::full_part::{Part, in_forms, in_starts};
use crate::full_stop::Stop;
use loop_model::Loop;
use std::alloc::Global;
use task_lists::{FullCert, Polys, are_equal};

/// The judge of a full certificate of a loop.
#[derive(Drop)]
pub(crate) struct FullJudge<'a> {
    pub(crate) lp: &'a Loop,
    pub(crate) cert: &'a FullCert,
    /// The value of each variable at a start.
    pub(crate) values: Polys,
    /// The maps of the branches.
    pub(crate) maps: Vec<Polys>,
}

impl FullJudge<'_> {
    /// Whether the forms, the start, the rounds and the end hold.
    pub(crate) fn judge_behind(&self, alloc: Global) -> Result<(), Stop<Part>>
        requires judge { IsFullJudge self.now }
        ensures holds { OnOk result (Hold self.now (further_by self.now)) }
        ensures stops { IfErr result (StopsAmong self.now (further_by self.now)) }
    {
        let back = match self.judge_forms(alloc) {
            Ok(back) => back,
            Err(stop) => return Err(in_forms(stop)),
        };
        if let Err(stop) = self.judge_starts(alloc) {
            return Err(in_starts(stop));
        }
        self.judge_rounds(alloc, &back)?;
        self.judge_end()
    }

    /// Whether the last list is the list of the certificate.
    fn judge_end(&self) -> Result<(), Stop<Part>>
        requires judge { IsFullJudge self.now }
        ensures holds { OnOk result (Hold self.now (at_end ∷ [])) }
        ensures stops { IfErr result (StopsAmong self.now (at_end ∷ [])) }
    {
        if are_equal(self.list_before(self.cert.rounds.len()), &self.cert.basis) {
            Ok(())
        } else {
            Err(Stop::Fails(Part::End))
        }
    }
}
