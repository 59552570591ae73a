// What is answered to a fault of CERT.
ghost use Rattle.std.specs.Prelude.{◌≡◌, Some, option_map, IfOk};
ghost use Rattle.io_edge.specs.Views.{answer_view};
ghost use Rattle.certificate_commands.specs.CertificateTexts as texts;
ghost use Rattle.certificate_commands.specs.CertificateViews.{fault_of};

use cert_form::CertError;
use io_edge::{Answer, Status, line};
use std::alloc::{AllocError, Global};

/// To the first fault of CERT.
pub fn certificate_refusal(alloc: Global, why: CertError) -> Result<Answer, AllocError>
    ensures { IfOk result (λ a. option_map texts.certificate_refusal (fault_of why) ≡
        Some (answer_view a)) }
{
    match why {
        CertError::NotJson => line(alloc, Status::Fault, "certificate: not json", ""),
        CertError::Shape { path } => {
            line(
                alloc,
                Status::Fault,
                "certificate: shape at ",
                path.as_str(),
            )
        }
        CertError::Poly { path } => {
            line(
                alloc,
                Status::Fault,
                "certificate: polynomial at ",
                path.as_str(),
            )
        }
        CertError::Memory => Err(AllocError),
    }
}
