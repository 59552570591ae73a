//! Reads certificates.

ghost use Rattle.std.specs.Prelude.{◌≡◌, Err, length, string_bytes, IfOk, IfErr};
ghost use Rattle.std.specs.Option.{option_map};
ghost use Rattle.serde_json.specs.View.{view, items_view};
ghost use Rattle.loops.specs.Certificate.{AreOver};
ghost use Rattle.cert_form.specs.Form as form;
ghost use Rattle.cert_form.specs.Form.{ReadsAs};
ghost use Rattle.cert_form.specs.Faults.{IfFault, ReadsLike};
ghost use Rattle.cert_form.specs.Cert.{ArePolysOf, IsCertOf, IsComplete};

use crate::cert::Polys;
use crate::cofactors::CofactorReader;
use crate::fault::{Path, shape_at};
use crate::parts::{list_within, read_polys};
use crate::{Cert, CertError};
use loop_model::Names;
use serde_json::Value;
use std::alloc::Global;

// The version in which each cofactor is written, and the one in which those that are 0 may be left out.
const FULL_VERSION: u64 = 1;

pub(crate) const SPARSE_VERSION: u64 = 2;

/// Whether it has the version of this number.
pub fn has_version(value: &Value, number: u64) -> bool
    ensures { result ≡ form.has_version number (view value.now) }
{
    match value.get("version") {
        Some(version) => version.as_u64() == Some(number),
        None => false,
    }
}

fn has_known_version(value: &Value) -> bool
    ensures { result ≡ form.has_known_version (view value.now) }
{
    has_version(value, FULL_VERSION) || has_version(value, SPARSE_VERSION)
}

/// Whether it is this text.
pub fn is_text(value: &Value, text: &String) -> bool
    ensures { result ≡ form.is_text (string_bytes text.now) (view value.now) }
{
    value.as_str() == Some(text.as_str())
}

// Whether each value is the name at its place.
fn agree(list: &[Value], names: &Names) -> bool
    requires { length list.now ≡ length names.now }
    ensures { result ≡ form.are_texts names.now (items_view list.now) }
{
    for (i, value) in list.iter().enumerate() {
        if !is_text(value, names.name(i)) {
            return false;
        }
    }
    true
}

#[tactic(auto, using(crate::proofs::Texts::other_count))]
fn are_names(list: &[Value], names: &Names) -> bool
    ensures { result ≡ form.are_texts names.now (items_view list.now) }
{
    list.len() == names.len() && agree(list, names)
}

/// Whether it lists just the names.
pub fn has_names(value: &Value, names: &Names) -> bool
    ensures { result ≡ form.has_names names.now (view value.now) }
{
    match value.get("vars") {
        Some(vars) => is_list_of(vars, names),
        None => false,
    }
}

fn is_list_of(value: &Value, names: &Names) -> bool
    ensures { result ≡ form.is_list_of names.now (view value.now) }
{
    match value.as_array() {
        Some(list) => are_names(list, names),
        None => false,
    }
}

// The list of the elements, where it is short enough for the version.
fn elements_in(value: &Value, sparse: bool) -> Option<&Vec<Value>>
    ensures { option_map (λ list. items_view list.now.items) result
        ≡ form.elements_in sparse (view value.now) }
{
    if sparse {
        list_within(value)
    } else {
        value.as_array()
    }
}

fn read_basis(alloc: Global, value: &Value, names: &Names, sparse: bool) -> Result<Polys, CertError>
    ensures { ReadsLike (ArePolysOf (length names.now))
        (form.basis_of names.now sparse (view value.now)) result }
{
    let path = Path::Root("/basis");
    let Some(basis) = value.get("basis") else {
        return Err(shape_at(alloc, &path));
    };
    let Some(list) = elements_in(basis, sparse) else {
        return Err(shape_at(alloc, &path));
    };
    read_polys(alloc, &path, list, names)
}

fn read_value(
    alloc: Global,
    value: &Value,
    names: &Names,
    branches: usize,
) -> Result<Cert, CertError>
    ensures { ReadsLike (IsCertOf (length names.now) branches)
        (form.cert_of names.now branches (view value.now)) result }
{
    if !value.is_object() {
        return Err(shape_at(alloc, &Path::Root("/")));
    }
    if !has_known_version(value) {
        return Err(shape_at(alloc, &Path::Root("/version")));
    }
    if !has_names(value, names) {
        return Err(shape_at(alloc, &Path::Root("/vars")));
    }
    let sparse = has_version(value, SPARSE_VERSION);
    let basis = read_basis(alloc, value, names, sparse)?;
    let cofactors = CofactorReader {
        alloc,
        names,
        sparse,
        elements: basis.len(),
    };
    let steps = cofactors.read_steps(value, branches)?;
    Ok(Cert::new(names.len(), basis, steps))
}

/// The certificate in the bytes of a file, with version 1 or 2, for a loop with these variables and so many branches, or its first
/// fault.
/// The certificate's polynomials are those of the file, in the same places.
pub fn read_cert(
    alloc: Global,
    bytes: &[u8],
    names: &Names,
    branches: usize,
) -> Result<Cert, CertError>
    ensures ok { IfOk result (λ c. ReadsAs
        (form.cert_in names.now branches bytes.now) c.certificate) }
    ensures arity { IfOk result (λ c. c.arity ≡ length names.now) }
    ensures over { IfOk result (λ c. AreOver (length names.now) c.certificate) }
    ensures complete { IfOk result (λ c. IsComplete (length names.now) branches c.certificate) }
    ensures fault { IfErr result (λ e. IfFault e (λ f.
        form.cert_in names.now branches bytes.now ≡ Err f)) }
{
    match Value::from_slice(alloc, bytes) {
        Ok(value) => read_value(alloc, &value, names, branches),
        Err(e) if e.is_memory() => Err(CertError::Memory),
        Err(_) => Err(CertError::NotJson),
    }
}
