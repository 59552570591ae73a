//! The equations of init, judged.
ghost use Rattle.std.specs.Prelude.{◌<◌, ℕ, length, OnOk, IfErr};
ghost use Rattle.rounds.specs.Start.{start_list};
ghost use Rattle.corollaries.specs.Parts.{Holds, in_start};
ghost use Rattle.cert_checker.specs.FullJudge.{program_by, cert_by, IsFullJudge};
ghost use Rattle.cert_checker.specs.FullStops.{StopsAt};
ghost use Rattle.cert_checker.specs.FullWide.{IsPastPart};

use crate::full_judge::FullJudge;
use crate::full_stop::{Stop, told};
use std::alloc::Global;
use task_lists::{is_combination, start_list};

impl FullJudge<'_> {
    /// Whether each variable that init sets, less its value, is made of what the start gives.
    pub(crate) fn judge_starts(&self, alloc: Global) -> Result<(), Stop<usize>>
        requires judge { IsFullJudge self.now }
        ensures holds { OnOk result ((i : ℕ) → i < length (start_list (program_by self.now))
            → Holds (program_by self.now) (cert_by self.now) (in_start i)) }
        ensures stops { let program = program_by self.now in let c = cert_by self.now in
            IfErr result (StopsAt (λ i. Holds program c (in_start i))
            (λ i. IsPastPart program c (in_start i)) (length (start_list program))) }
    {
        let start = &self.cert.start;
        let Ok(list) = start_list(alloc, self.lp, &self.values) else {
            return Err(Stop::Memory);
        };
        for (i, p) in list.iter().enumerate() {
            told(i, is_combination(alloc, p, &start.links[i], &start.out))?;
        }
        Ok(())
    }
}
