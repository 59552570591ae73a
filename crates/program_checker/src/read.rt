//! Reads certificates of programs.
ghost use Rattle.std.specs.Prelude.{◌≡◌, length};
ghost use Rattle.serde_json.specs.View.{view};
ghost use Rattle.cert_form.specs.Faults.{ReadsLike};
ghost use Rattle.program_model.specs.GraphView.{graph_of};
ghost use Rattle.program_model.specs.Names.{HasNoUnknown};
ghost use Rattle.program_model.specs.Graphs.{IsGraphOf};
ghost use Rattle.program_checker.specs.Form as form;
ghost use Rattle.program_checker.specs.ReadAs.{IsCertOf};

use crate::ProgramCert;
use crate::lists::read_lists;
use crate::steps::StepReader;
use cert_form::{CertError, Path, has_names, has_version, shape_at};
use loop_model::Names;
use program_model::Graph;
use serde_json::Value;
use std::alloc::Global;

/// The version of certificates of programs.
const VERSION: u64 = 1;

/// Whether it is a certificate of a program.
fn has_kind(value: &Value) -> bool
    ensures { result ≡ form.has_kind (view value.now) }
{
    match value.get("kind") {
        Some(kind) => kind.as_str() == Some("program"),
        None => false,
    }
}

fn read_value(
    alloc: Global,
    value: &Value,
    names: &Names,
    graph: &Graph,
) -> Result<ProgramCert, CertError>
    requires graph { IsGraphOf graph.now }
    requires named { length names.now ≡ graph.now.variables }
    requires free { HasNoUnknown names.now }
    ensures { ReadsLike (IsCertOf graph.now)
        (form.cert_of names.now (graph_of graph.now) (view value.now)) result }
{
    if !value.is_object() {
        return Err(shape_at(alloc, &Path::Root("/")));
    }
    if !has_version(value, VERSION) {
        return Err(shape_at(alloc, &Path::Root("/version")));
    }
    if !has_kind(value) {
        return Err(shape_at(alloc, &Path::Root("/kind")));
    }
    if !has_names(value, names) {
        return Err(shape_at(alloc, &Path::Root("/vars")));
    }
    let lists = read_lists(alloc, value, names, graph.nodes - 1)?;
    let reader = StepReader {
        alloc,
        names,
        graph,
        lists: &lists,
    };
    let steps = reader.read_steps(value)?;
    Ok(ProgramCert { lists, steps })
}

/// The certificate in the bytes of a file, for a program with these variables and this graph, or its first fault. Its lists and cofactors
/// are those of the file, at their places; the start has no list in the file, and an empty one here.
pub fn read_program_cert(
    alloc: Global,
    bytes: &[u8],
    names: &Names,
    graph: &Graph,
) -> Result<ProgramCert, CertError>
    requires graph { IsGraphOf graph.now }
    requires named { length names.now ≡ graph.now.variables }
    requires free { HasNoUnknown names.now }
    ensures { ReadsLike (IsCertOf graph.now)
        (form.cert_in names.now (graph_of graph.now) bytes.now) result }
{
    match Value::from_slice(alloc, bytes) {
        Ok(value) => read_value(alloc, &value, names, graph),
        Err(e) if e.is_memory() => Err(CertError::Memory),
        Err(_) => Err(CertError::NotJson),
    }
}
