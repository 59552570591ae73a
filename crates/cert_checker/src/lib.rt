//! Judges certificates (`check`) and full certificates (`check_full`), by identities of polynomials alone: it stands on no crate that
//! completes lists or finds closed forms.
//!
//! Proved: there is one verdict. `check`: valid, or the first identity that is false. `check_full`: complete, and then the polynomials
//! generate all invariants, or the path of the first part that doesn't hold. Each refusal has its cause.
//!
//! Notion: certificates; lcm representations, 2.9.
#![tactic(auto)]

ghost use Rattle.std.specs.Prelude.{◌≡◌, ◌<◌, ℕ, length, IfOk, IfErr};
ghost use Rattle.loops.specs.Certificate.{IsVerdict, element};
ghost use Rattle.loops.specs.Inv.{Inv};
ghost use Rattle.loop_model.specs.Maps.{AreFree};
ghost use Rattle.loop_model.specs.View.{program_of};
ghost use Rattle.cert_form.specs.Cert.{IsWellSized, certificate_of};
ghost use Rattle.cert_checker.specs.FormedMaps.{AreMapsOf};
ghost use Rattle.cert_checker.specs.Views.{verdict_of};
ghost use Rattle.cert_checker.specs.Short.{AreShort};
ghost use Rattle.cert_checker.specs.Wide.{IfCheckRefused};

mod base;
mod error;
mod form_check;
mod full_error;
mod full_forms;
mod full_judge;
mod full_part;
mod full_round;
mod full_stage;
mod full_starts;
mod full_stop;
mod full_verdict;
mod identity;
pub mod laws;
mod limits;
mod long_parts;
mod maps;
mod search;

use cert_form::Cert;
pub use error::{CheckError, Place};
pub use form_check::closed_form;
use frac128::Frac;
pub use full_error::FullError;
pub use full_verdict::{FullVerdict, check_full};
use identity::Step;
use limits::test_start;
use loop_model::Loop;
use maps::{Maps, maps_of};
use monos::Grevlex;
use poly::Poly;
use search::first_failing_start;
use std::alloc::Global;

/// What a certificate is worth. Branches and elements count from 0.
#[derive(Clone, Copy, PartialEq, Eq)]
pub enum Verdict {
    /// Each of its polynomials is an invariant.
    Valid,
    /// The first element that is not zero at each start.
    StartFails { element: usize },
    /// All starts hold, and so do all branches before this one; this is its first element whose cofactors don't combine to it
    /// after the branch.
    StepFails { branch: usize, element: usize },
}

/// Judges a certificate of the loop: valid, or the first of its identities that fails.
///
/// The polynomials are in the loop's variables, with a list of cofactors for each of the loop's branches.
pub fn check(alloc: Global, lp: &Loop, cert: &Cert) -> Result<Verdict, CheckError>
    requires arity { cert.now.arity ≡ length (program_of lp.now).names }
    requires branches { length cert.now.certificate.steps ≡ length (program_of lp.now).branches }
    ensures verdict { IfOk result (λ v. IsVerdict (program_of lp.now) cert.now.certificate
        (verdict_of v)) }
    ensures valid { let c = cert.now.certificate in IfOk result (λ v. v ≡ Verdict.Valid →
        (i : ℕ) → i < length c.basis → Inv (program_of lp.now) (element c i)) }
    ensures free { IfOk result (λ v. AreFree (program_of lp.now)) }
    ensures short { IfOk result (λ v. AreShort (program_of lp.now) cert.now.certificate
        (verdict_of v)) }
    ensures refused { IfErr result (IfCheckRefused (program_of lp.now) cert.now.certificate) }
{
    let maps = maps_of(alloc, lp)?;
    judge(alloc, lp, &maps, cert.basis(), cert.steps())
}

/// Judges the certificate of these polynomials and cofactors, as `check` does: for each branch a list of as many entries as there
/// are polynomials, and in it, for each polynomial, the list of its cofactors. The maps are the loop's.
pub(crate) fn judge(
    alloc: Global,
    lp: &Loop,
    maps: &Maps,
    basis: &Vec<Poly<Frac, Grevlex>>,
    steps: &Vec<Vec<Vec<Poly<Frac, Grevlex>>>>,
) -> Result<Verdict, CheckError>
    requires maps { AreMapsOf (program_of lp.now) maps.now }
    requires kept { IsWellSized (length (program_of lp.now).names) basis.now steps.now }
    requires branches { length steps.now.items ≡ length (program_of lp.now).branches }
    ensures verdict { IfOk result (λ v. IsVerdict (program_of lp.now)
        (certificate_of basis.now steps.now) (verdict_of v)) }
    ensures valid { let c = certificate_of basis.now steps.now in IfOk result (λ v.
        v ≡ Verdict.Valid → (i : ℕ) → i < length c.basis
        → Inv (program_of lp.now) (element c i)) }
    ensures short { IfOk result (λ v. AreShort (program_of lp.now)
        (certificate_of basis.now steps.now) (verdict_of v)) }
    ensures refused { IfErr result (IfCheckRefused (program_of lp.now)
        (certificate_of basis.now steps.now)) }
{
    test_start(basis, &maps.start)?;
    if let Some(element) = first_failing_start(alloc, basis, &maps.start)? {
        return Ok(Verdict::StartFails { element });
    }
    for (branch, images) in maps.branches.iter().enumerate() {
        let rows = &steps[branch];
        let step = Step {
            branch,
            basis,
            images,
            rows,
        };
        step.test()?;
        if let Some(element) = step.first_failing(alloc)? {
            return Ok(Verdict::StepFails { branch, element });
        }
    }
    Ok(Verdict::Valid)
}
