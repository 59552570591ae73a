// The analysis of a loop, the trace behind it, and what is answered to them.
ghost use Rattle.std.specs.Prelude.{◌≡◌, IfOk};
ghost use Rattle.loop_model.specs.View.{program_of};
ghost use Rattle.io_edge.specs.Views.{answer_view};
ghost use Rattle.certificate_commands.specs.FullCertified.{Certifies, HasWorked};
ghost use Rattle.certificate_commands.specs.FullTexts as texts;

use crate::full_certificates::{certificate_of, found_answer};
use analysis_commands::answer_to_refusal;
use command_parts::Budget;
use full_trace::{TraceError, trace, traceable_setting};
use invariant_fix::analyse;
use io_edge::{Answer, Status};
use journal::Meter;
use loop_model::Loop;
use std::alloc::{AllocError, Global};

/// The answer to a loop, whose analysis and whose trace of as many rounds have this budget each.
pub(crate) fn answer_to_loop(
    alloc: Global,
    lp: &Loop,
    budget: Budget,
    meter: &mut Meter,
) -> Result<Answer, AllocError>
    ensures answer { IfOk result (λ a.
        Certifies (program_of lp.now) budget.units meter.new (answer_view a)) }
    ensures worked { HasWorked (program_of lp.now) budget.units meter.new }
{
    meter.open(budget.units);
    let setting = match traceable_setting(alloc, lp) {
        Ok(setting) => setting,
        Err(TraceError::Late { branch }) => return late_answer(alloc, branch),
        Err(TraceError::Analysis(error)) => {
            return answer_to_refusal(alloc, lp.names(), budget.units, &error);
        }
    };
    let found = match analyse(alloc, lp, meter) {
        Ok(found) => found,
        Err(error) => return answer_to_refusal(alloc, lp.names(), budget.units, &error),
    };
    meter.within_limit();
    meter.open(budget.units);
    match trace(alloc, setting, found.rounds, meter) {
        Ok(told) => found_answer(alloc, lp.names(), &certificate_of(found, told)),
        Err(error) => answer_to_refusal(alloc, lp.names(), budget.units, &error),
    }
}

/// The answer to a loop whose first branch that begins late is this one, counted from 0.
fn late_answer(alloc: Global, branch: usize) -> Result<Answer, AllocError>
    ensures { IfOk result (λ a. answer_view a ≡ texts.late_answer branch) }
{
    let number = branch as u128 + 1;
    let text = format!(in alloc; "branch {number}: begins late\n")?;
    Ok(Answer::new(Status::Fault, text))
}
