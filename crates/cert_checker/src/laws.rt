//! Laws of judgements, one function each.
ghost use Rattle.std.specs.Prelude.{◌≡◌, ◌≤◌, length, IfOk, IfErr};
ghost use Rattle.loops.specs.Certificate.{Certificate, IsVerdict, SameCertificate};
ghost use Rattle.loop_model.specs.View.{program_of};
ghost use Rattle.cert_form.specs.Cert.{IsComplete};
ghost use Rattle.cert_form.specs.Form.{most_elements};
ghost use Rattle.cert_checker.specs.Views.{verdict_of};
ghost use Rattle.cert_checker.specs.Wide.{IfCheckRefused};

use crate::{CheckError, Verdict, check};
use cert_form::{Cert, read_cert, write_cert};
use loop_model::Loop;
use std::alloc::Global;

/// The file that is written of a certificate of at most 512 polynomials has the verdict of this certificate. What refuses it is a cause of
/// `check`, for a certificate with the same polynomials, each kept as its one list, and a list of cofactors for each branch and element.
pub fn files_have_the_verdict_of_their_certificate(
    alloc: Global,
    lp: &Loop,
    cert: &Cert,
) -> Result<Verdict, CheckError>
    requires arity { cert.now.arity ≡ length (program_of lp.now).names }
    requires branches { length cert.now.certificate.steps ≡ length (program_of lp.now).branches }
    requires few { length cert.now.certificate.basis ≤ most_elements }
    ensures verdict { IfOk result (λ v. IsVerdict (program_of lp.now) cert.now.certificate
        (verdict_of v)) }
    ensures refused { IfErr result (λ e. ¬ (e ≡ CheckError.Memory) → (kept : Certificate)
        × IsComplete (length (program_of lp.now).names) (length (program_of lp.now).branches) kept
        × SameCertificate kept cert.now.certificate × IfCheckRefused (program_of lp.now) kept e) }
{
    // for its contract, which tells the prover in how many variables the polynomials are
    let _ = cert.basis();
    let Ok(text) = write_cert(alloc, cert, lp.names()) else {
        return Err(CheckError::Memory);
    };
    let Ok(kept) = read_cert(alloc, text.as_bytes(), lp.names(), lp.branches().len()) else {
        return Err(CheckError::Memory);
    };
    check(alloc, lp, &kept)
}
