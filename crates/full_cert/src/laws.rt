//! Laws of full certificates as texts, one function each.
ghost use Rattle.std.specs.Prelude.{◌≡◌, length, IfOk, IfErr};
ghost use Rattle.cert_form.specs.declared.error.CertError.TheVariants.{Memory};
ghost use Rattle.loop_model.specs.View.{program_of};
ghost use Rattle.corollaries.specs.Counts.{IsCounted};
ghost use Rattle.task_lists.specs.Images.{IsFullIn};
ghost use Rattle.task_lists.specs.View.{full_of};

use crate::{read_full, write_full};
use cert_form::CertError;
use loop_model::Loop;
use std::alloc::Global;
use task_lists::FullCert;

/// A full certificate that is written is read as the same full certificate, and refused for want of memory alone.
pub fn written_full_certificates_are_read(
    alloc: Global,
    lp: &Loop,
    cert: &FullCert,
) -> Result<FullCert, CertError>
    requires images { IsFullIn (length (program_of lp.now).names) cert.now }
    requires counted { IsCounted (program_of lp.now) (full_of cert.now) }
    ensures same { IfOk result (λ c. full_of c ≡ full_of cert.now) }
    ensures memory { IfErr result (λ e. e ≡ Memory) }
{
    let text = write_full(alloc, cert, lp.names())?;
    read_full(alloc, text.as_bytes(), lp)
}
