// What the answers of `check` say.
ghost use Rattle.std.specs.Prelude.{◌≡◌, Some, option_map, IfOk};
ghost use Rattle.loops.specs.Certificate as certificate;
ghost use Rattle.cert_checker.specs.Views.{verdict_of, place_view};
ghost use Rattle.io_edge.specs.Views.{answer_view};
ghost use Rattle.certificate_commands.specs.CheckViews.{judgement_of};
ghost use Rattle.certificate_commands.specs.CheckTexts as texts;
ghost use Rattle.certificate_commands.specs.CheckTexts.{verdict, limit_identity, wide_identity, judgement_answer};

use cert_checker::{CheckError, Place, Verdict};
use command_parts::{map_refusal, ordinal};
use io_edge::{Answer, Status, line};
use std::alloc::{AllocError, Global};

/// To a certificate that was judged.
pub(crate) fn verdict_answer(alloc: Global, outcome: Verdict) -> Result<Answer, AllocError>
    ensures { IfOk result (λ a. answer_view a ≡ judgement_answer (verdict (verdict_of outcome))) }
{
    match outcome {
        Verdict::Valid => line(alloc, Status::Yes, "valid", ""),
        Verdict::StartFails { element } => start_fails(alloc, element),
        Verdict::StepFails { branch, element } => step_fails(alloc, branch, element),
    }
}

/// To a certificate that wasn't.
pub(crate) fn check_refusal(alloc: Global, why: CheckError) -> Result<Answer, AllocError>
    ensures { IfOk result (λ a. option_map judgement_answer (judgement_of why) ≡
        Some (answer_view a)) }
{
    match why {
        CheckError::Map(stop) => map_refusal(alloc, "loop: ", &stop),
        CheckError::Limit { place, element } => limit_at(alloc, place, element),
        CheckError::Wide { place, element } => wide_at(alloc, place, element),
        CheckError::Memory => Err(AllocError),
    }
}

fn start_fails(alloc: Global, element: usize) -> Result<Answer, AllocError>
    ensures { IfOk result (λ a. answer_view a ≡
        judgement_answer (verdict (certificate.start_fails element))) }
{
    let element = ordinal(element);
    let text = format!(in alloc; "start fails: element {element}\n")?;
    Ok(Answer::new(Status::No, text))
}

fn step_fails(alloc: Global, branch: usize, element: usize) -> Result<Answer, AllocError>
    ensures { IfOk result (λ a. answer_view a ≡
        judgement_answer (verdict (certificate.step_fails branch element))) }
{
    let branch = ordinal(branch);
    let element = ordinal(element);
    let text = format!(in alloc; "step fails: branch {branch}, element {element}\n")?;
    Ok(Answer::new(Status::No, text))
}

/// The number of the branch in texts, where 0 is the start.
fn branch_number(place: Place) -> u128
    ensures { result ≡ texts.branch_number (place_view place) }
{
    match place {
        Place::Start => 0,
        Place::Branch(branch) => ordinal(branch),
    }
}

fn limit_at(alloc: Global, place: Place, element: usize) -> Result<Answer, AllocError>
    ensures { IfOk result (λ a. answer_view a ≡
        judgement_answer (limit_identity (place_view place) element)) }
{
    let branch = branch_number(place);
    let element = ordinal(element);
    let text = format!(in alloc; "limit: branch {branch}, element {element}\n")?;
    Ok(Answer::new(Status::Fault, text))
}

fn wide_at(alloc: Global, place: Place, element: usize) -> Result<Answer, AllocError>
    ensures { IfOk result (λ a. answer_view a ≡
        judgement_answer (wide_identity (place_view place) element)) }
{
    let branch = branch_number(place);
    let element = ordinal(element);
    let text = format!(in alloc; "wide: branch {branch}, element {element}\n")?;
    Ok(Answer::new(Status::Wide, text))
}
