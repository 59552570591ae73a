//! Reads full certificates.
ghost use Rattle.std.specs.Prelude.{◌≡◌, ◌<◌, Ok, Err, length, IfOk, IfErr};
ghost use Rattle.serde_json.specs.View.{view};
ghost use Rattle.loop_model.specs.View.{program_of};
ghost use Rattle.cert_form.specs.Faults.{IfFault, Reads};
ghost use Rattle.corollaries.specs.Counts.{IsCounted};
ghost use Rattle.task_lists.specs.Images.{IsFullIn};
ghost use Rattle.full_cert.specs.Form as spec;
ghost use Rattle.task_lists.specs.View.{full_of};

use crate::round::RoundReader;
use crate::{read_forms, read_raws, read_start, read_steps};
use cert_form::{CertError, Path, has_names, has_version, shape_at};
use loop_model::Loop;
use monos::Grevlex;
use serde_json::Value;
use std::alloc::Global;
use task_lists::{FullCert, FullForm, FullStart, Polys};

const VERSION: u64 = 1;

// Whether it is of the kind that has what shows that its polynomials generate all invariants.
fn has_kind(value: &Value) -> bool
    ensures { result ≡ spec.has_kind (view value.now) }
{
    match value.get("kind") {
        Some(kind) => kind.as_str() == Some("full"),
        None => false,
    }
}

// The parts of an object with the right version, kind and names.
fn read_parts(alloc: Global, value: &Value, lp: &Loop) -> Result<FullCert, CertError>
    ensures images { IfOk result (IsFullIn (length (program_of lp.now).names)) }
    ensures reads { Reads full_of (spec.parts_of (program_of lp.now) (view value.now)) result }
{
    let (names, branches) = (lp.names().len(), lp.branches().len());
    let path = Path::Root("/basis");
    let basis = read_raws(alloc, &path, value.get("basis"), Grevlex, names)?;
    let path = Path::Root("/steps");
    let steps = value.get("steps");
    let steps = read_steps(alloc, &path, steps, names, basis.len(), branches)?;
    let path = Path::Root("/forms");
    let forms = read_forms(alloc, &path, value.get("forms"), names, branches)?;
    let path = Path::Root("/start");
    let Some(start) = value.get("start") else {
        return Err(shape_at(alloc, &path));
    };
    let start = read_start(alloc, &path, start, names, lp.start().len())?;
    let path = Path::Root("/rounds");
    let reader = RoundReader {
        alloc,
        variables: names,
        before: start.out.len(),
        forms: &forms,
    };
    let rounds = reader.read_rounds(&path, value.get("rounds"))?;
    Ok(FullCert {
        basis,
        steps,
        forms,
        start,
        rounds,
    })
}

fn read_value(alloc: Global, value: &Value, lp: &Loop) -> Result<FullCert, CertError>
    ensures images { IfOk result (IsFullIn (length (program_of lp.now).names)) }
    ensures reads { Reads full_of (spec.full_value (program_of lp.now) (view value.now)) result }
{
    if !value.is_object() {
        return Err(shape_at(alloc, &Path::Root("/")));
    }
    if !has_version(value, VERSION) {
        return Err(shape_at(alloc, &Path::Root("/version")));
    }
    if !has_kind(value) {
        return Err(shape_at(alloc, &Path::Root("/kind")));
    }
    if !has_names(value, lp.names()) {
        return Err(shape_at(alloc, &Path::Root("/vars")));
    }
    read_parts(alloc, value, lp)
}

/// The full certificate in the bytes of a file, for this loop, or its first fault. Its polynomials are
/// those of the file, in the same places, as many as they must be, and have the variables that they should have.
pub fn read_full(alloc: Global, bytes: &[u8], lp: &Loop) -> Result<FullCert, CertError>
    ensures ok { IfOk result (λ c. spec.full_in (program_of lp.now) bytes.now ≡ Ok (full_of c)) }
    ensures images { IfOk result (IsFullIn (length (program_of lp.now).names)) }
    ensures counted { IfOk result (λ c. IsCounted (program_of lp.now) (full_of c)) }
    ensures fault { IfErr result (λ e. IfFault e (λ f.
        spec.full_in (program_of lp.now) bytes.now ≡ Err f)) }
{
    match Value::from_slice(alloc, bytes) {
        Ok(value) => read_value(alloc, &value, lp),
        Err(e) if e.is_memory() => Err(CertError::Memory),
        Err(_) => Err(CertError::NotJson),
    }
}
