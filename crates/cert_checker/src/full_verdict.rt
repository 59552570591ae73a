//! Full certificates judged: the first part that doesn't hold, or that the polynomials listed generate all
//! invariants. No crate of completions or closed forms is below.

ghost use Rattle.std.specs.Prelude.{◌≡◌, length, IfOk, IfErr};
ghost use Rattle.loops.specs.Certificate.{IsValid};
ghost use Rattle.loops.specs.Inv.{Inv};
ghost use Rattle.loop_model.specs.Maps.{AreFree};
ghost use Rattle.loop_model.specs.View.{program_of};
ghost use Rattle.rounds.specs.Generate.{Generates};
ghost use Rattle.corollaries.specs.Full.{certificate};
ghost use Rattle.task_lists.specs.Images.{IsFullIn};
ghost use Rattle.task_lists.specs.View.{full_of};
ghost use Rattle.corollaries.specs.Counts.{IsCounted};
ghost use Rattle.cert_checker.specs.LongParts.{AreFew};
ghost use Rattle.cert_checker.specs.Parts.{part_of};
ghost use Rattle.cert_checker.specs.Paths.{path_of};
ghost use Rattle.cert_checker.specs.Verdicts.{IsFailing, IsVerdictOf};
ghost use Rattle.cert_checker.specs.FullWide.{IfFullCheckRefused, IsLimitAt, IsRefusalOf, IsWideAt};

use crate::full_error::FullError;
use crate::full_judge::FullJudge;
use crate::full_part::{Part, identity_part, text_of};
use crate::full_stop::Stop;
use crate::maps::maps_of;
use crate::{CheckError, Verdict, judge};
use loop_model::Loop;
use std::alloc::Global;
use task_lists::FullCert;

/// What a full certificate is worth.
#[derive(Drop)]
pub enum FullVerdict {
    /// Its polynomials generate all invariants.
    Complete,
    /// The part with this path is the first that doesn't hold.
    Fails { path: String },
}

/// Judges a full certificate of the loop: complete, or the path of the first part that doesn't hold. Where it
/// is complete, its polynomials generate the invariants: each of them is one, and each invariant is a sum of
/// products with them.
///
/// `Limit` where the identities of the certificate itself are too long, as `check` says, or it is valid and the parts behind it multiply
/// out to more than 2^20 terms: these are counted before any of them is judged, and the first up to which they are too many is named.
/// `Wide` only where the parts before hold, and the weight of a composition, a product, a sum or a difference of the
/// named part is past.
pub fn check_full(alloc: Global, lp: &Loop, cert: &FullCert) -> Result<FullVerdict, FullError>
    requires images { IsFullIn (length (program_of lp.now).names) cert.now }
    requires counted { IsCounted (program_of lp.now) (full_of cert.now) }
    ensures verdict { IfOk result (IsVerdictOf (program_of lp.now) (full_of cert.now)) }
    ensures complete { let program = program_of lp.now in let c = full_of cert.now in
        IfOk result (λ v. v ≡ FullVerdict.Complete
        → Generates (length program.names) c.basis (Inv program)) }
    ensures free { IfOk result (λ v. AreFree (program_of lp.now)) }
    ensures few { let program = program_of lp.now in let c = full_of cert.now in
        IfOk result (λ v. IsValid program (certificate c) → AreFew program c) }
    ensures refused { IfErr result (IfFullCheckRefused (program_of lp.now) (full_of cert.now)) }
{
    let maps = match maps_of(alloc, lp) {
        Ok(maps) => maps,
        Err(error) => return Err(refused(alloc, error)),
    };
    match judge(alloc, lp, &maps, &cert.basis, &cert.steps) {
        Ok(Verdict::Valid) => {}
        Ok(Verdict::StartFails { element }) => return fails(alloc, Part::Basis(element)),
        Ok(Verdict::StepFails { branch, element }) => {
            return fails(alloc, Part::Step(branch, element));
        }
        Err(error) => return Err(refused(alloc, error)),
    }
    let full = FullJudge {
        lp,
        cert,
        values: maps.start,
        maps: maps.branches,
    };
    if let Some(part) = full.first_long_part() {
        return Err(limit(alloc, part));
    }
    match full.judge_behind(alloc) {
        Ok(()) => Ok(FullVerdict::Complete),
        Err(Stop::Fails(part)) => fails(alloc, part),
        Err(Stop::Wide(part)) => Err(wide(alloc, part)),
        Err(Stop::Memory) => Err(FullError::Memory),
    }
}

/// The verdict that this part doesn't hold.
fn fails(alloc: Global, part: Part) -> Result<FullVerdict, FullError>
    ensures fails { IfOk result (IsFailing (path_of (part_of part))) }
    ensures memory { IfErr result (λ e. e ≡ FullError.Memory) }
{
    match text_of(alloc, part) {
        Ok(path) => Ok(FullVerdict::Fails { path }),
        Err(_) => Err(FullError::Memory),
    }
}

/// The refusal of a part that is too wide.
fn wide(alloc: Global, part: Part) -> FullError
    ensures { IsWideAt (path_of (part_of part)) result }
{
    match text_of(alloc, part) {
        Ok(path) => FullError::Wide { path },
        Err(_) => FullError::Memory,
    }
}

/// The refusal of a part that is too long.
fn limit(alloc: Global, part: Part) -> FullError
    ensures { IsLimitAt (path_of (part_of part)) result }
{
    match text_of(alloc, part) {
        Ok(path) => FullError::Limit { path },
        Err(_) => FullError::Memory,
    }
}

/// The refusal of the certificate's first parts.
fn refused(alloc: Global, error: CheckError) -> FullError
    ensures { IsRefusalOf error result }
{
    match error {
        CheckError::Map(error) => FullError::Map(error),
        CheckError::Limit { place, element } => limit(alloc, identity_part(place, element)),
        CheckError::Wide { place, element } => wide(alloc, identity_part(place, element)),
        CheckError::Memory => FullError::Memory,
    }
}
