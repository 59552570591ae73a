//! Laws of certificates as texts, one function each.
ghost use Rattle.std.specs.Prelude.{◌≡◌, ◌≤◌, length, IfOk, IfErr};
ghost use Rattle.loops.specs.Certificate.{SameCertificate};
ghost use Rattle.cert_form.specs.Form.{most_elements};
ghost use Rattle.cert_form.specs.declared.error.CertError.TheVariants.{Memory};

use crate::{Cert, CertError, read_cert, write_cert};
use loop_model::Names;
use std::alloc::Global;

/// A certificate of at most 512 polynomials that is written is read as the same certificate, and refused for want of memory alone.
pub fn written_certificates_are_read(
    alloc: Global,
    cert: &Cert,
    names: &Names,
) -> Result<Cert, CertError>
    requires arity { length names.now ≡ cert.now.arity }
    requires few { length cert.now.certificate.basis ≤ most_elements }
    ensures same { IfOk result (λ c. SameCertificate c.certificate cert.now.certificate) }
    ensures memory { IfErr result (λ e. e ≡ Memory) }
{
    let text = write_cert(alloc, cert, names)?;
    read_cert(alloc, text.as_bytes(), names, cert.steps().len())
}
