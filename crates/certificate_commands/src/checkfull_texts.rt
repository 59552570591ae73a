// What the answers of `checkfull` say.
ghost use Rattle.std.specs.Prelude.{◌≡◌, Some, option_map, IfOk};
ghost use Rattle.io_edge.specs.Views.{answer_view};
ghost use Rattle.certificate_commands.specs.CheckfullTexts.{judgement_answer};
ghost use Rattle.certificate_commands.specs.CheckfullViews.{judgement_in, judgement_of};

use cert_checker::{FullError, FullVerdict};
use command_parts::map_refusal;
use io_edge::{Answer, Status, line};
use std::alloc::{AllocError, Global};

/// To a full certificate that was judged.
pub(crate) fn verdict_answer(alloc: Global, outcome: FullVerdict) -> Result<Answer, AllocError>
    ensures { IfOk result (λ a. answer_view a ≡ judgement_answer (judgement_in outcome)) }
{
    match outcome {
        FullVerdict::Complete => line(alloc, Status::Yes, "complete", ""),
        FullVerdict::Fails { path } => line(alloc, Status::No, "fails: ", path.as_str()),
    }
}

/// To a full certificate that wasn't.
pub(crate) fn judge_refusal(alloc: Global, why: FullError) -> Result<Answer, AllocError>
    ensures { IfOk result (λ a. option_map judgement_answer (judgement_of why) ≡
        Some (answer_view a)) }
{
    match why {
        FullError::Map(stop) => map_refusal(alloc, "loop: ", &stop),
        FullError::Limit { path } => line(alloc, Status::Fault, "limit: ", path.as_str()),
        FullError::Wide { path } => line(alloc, Status::Wide, "wide: ", path.as_str()),
        FullError::Memory => Err(AllocError),
    }
}
