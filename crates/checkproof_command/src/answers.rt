// The answers of `checkproof`.
ghost use Rattle.std.specs.Prelude.{◌≡◌, ◌++◌, Some, option_map, IfOk};
ghost use Rattle.io_edge.specs.Texts.{answer};
ghost use Rattle.io_edge.specs.Views.{answer_view};
ghost use Rattle.checkproof_command.specs.Texts as texts;
ghost use Rattle.checkproof_command.specs.Views.{fault_of};

use cert_form::CertError;
use io_edge::{Answer, Status, line};
use std::alloc::{AllocError, Global};

/// To the first fault of CERT.
pub(crate) fn certificate_refusal(alloc: Global, why: CertError) -> Result<Answer, AllocError>
    ensures { IfOk result (λ a. option_map texts.certificate_refusal (fault_of why) ≡
        Some (answer_view a)) }
{
    match why {
        CertError::NotJson => line(alloc, Status::Fault, "certificate: not json", ""),
        CertError::Shape { path } => {
            line(
                alloc,
                Status::Fault,
                "certificate: shape at ",
                path.as_str(),
            )
        }
        CertError::Poly { path } => {
            line(
                alloc,
                Status::Fault,
                "certificate: polynomial at ",
                path.as_str(),
            )
        }
        CertError::Memory => Err(AllocError),
    }
}

/// What is said of the identity of an element behind a transition, by its path.
pub(crate) fn step_line(
    alloc: Global,
    status: Status,
    cause: &str,
    transition: usize,
    element: usize,
) -> Result<Answer, AllocError>
    ensures { IfOk result (λ a. answer_view a ≡
        answer status (cause.now ++ texts.step_path transition element)) }
{
    let text = format!(in alloc; "{cause}/steps/{transition}/{element}\n")?;
    Ok(Answer::new(status, text))
}
