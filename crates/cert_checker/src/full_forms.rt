//! The forms of the branches, judged.
ghost use Rattle.std.specs.Prelude.{◌<◌, ℕ, length, IfOk, IfErr};
ghost use Rattle.corollaries.specs.Parts.{Holds, in_forms};
ghost use Rattle.cert_checker.specs.InverseForm.{AreInverseForm};
ghost use Rattle.cert_checker.specs.FullJudge.{program_by, cert_by, IsFullJudge};
ghost use Rattle.cert_checker.specs.FullStops.{StopsAt};
ghost use Rattle.cert_checker.specs.FullWide.{IsPastPart};

use crate::closed_form;
use crate::full_judge::FullJudge;
use crate::full_stop::Stop;
use ring_laws::ArithmeticError;
use std::alloc::Global;
use task_lists::Polys;

impl FullJudge<'_> {
    /// The forms of the branches, backward, where each is the closed form of its map.
    pub(crate) fn judge_forms(&self, alloc: Global) -> Result<Vec<Polys>, Stop<usize>>
        requires judge { IsFullJudge self.now }
        ensures holds { IfOk result (λ back. (b : ℕ) → b < length (program_by self.now).branches
            → Holds (program_by self.now) (cert_by self.now) (in_forms b)) }
        ensures back { IfOk result (AreInverseForm (program_by self.now) self.now.cert.now) }
        ensures stops { let program = program_by self.now in let c = cert_by self.now in
            IfErr result (StopsAt (λ b. Holds program c (in_forms b))
            (λ b. IsPastPart program c (in_forms b)) (length program.branches)) }
    {
        let mut found = Vec::new(alloc);
        for (b, images) in self.maps.iter().enumerate() {
            let form = &self.cert.forms[b];
            match closed_form(alloc, images, &form.base, &form.polys) {
                Ok(Some(back)) => match found.push(back) {
                    Ok(()) => {}
                    Err(_) => return Err(Stop::Memory),
                },
                Ok(None) => return Err(Stop::Fails(b)),
                Err(ArithmeticError::Wide) => return Err(Stop::Wide(b)),
                Err(ArithmeticError::Memory) => return Err(Stop::Memory),
            }
        }
        Ok(found)
    }
}
