//! Polynomials and lists of them, at their paths.
ghost use Rattle.std.specs.Prelude.{◌≡◌, length, vec_len, IfOk, IfSome};
ghost use Rattle.std.specs.Option.{option_map};
ghost use Rattle.serde_json.specs.View.{view, items_view};
ghost use Rattle.poly.specs.Standing.{StandsFor};
ghost use Rattle.cert_form.specs.Form.{each, list_with, list_within, poly_at};
ghost use Rattle.cert_form.specs.Faults.{ReadsLike};
ghost use Rattle.cert_form.specs.Path.{path_bytes};
ghost use Rattle.cert_form.specs.Cert.{ArePolysOf};

use crate::CertError;
use crate::cert::Polys;
use crate::fault::{Path, polynomial_at, shape_at};
use frac128::Frac;
use loop_model::Names;
use monos::Grevlex;
use poly::Poly;
use poly_text::{FlatError, read_flat};
use serde_json::Value;
use std::alloc::Global;

// A certificate with version 2 has at most so many polynomials.
const MOST_ELEMENTS: usize = 512;

/// The list that the value is, where it has `count` entries.
#[tactic(auto, using(crate::proofs::Each::count_is))]
pub fn list_with(value: &Value, count: usize) -> Option<&Vec<Value>>
    ensures list { option_map (λ list. items_view list.now.items) result
        ≡ list_with count (view value.now) }
    ensures count { IfSome result (λ list. vec_len list.now ≡ count) }
{
    let list = value.as_array()?;
    if list.len() == count {
        Some(list)
    } else {
        None
    }
}

// The list that the value is, where it has at most 512 entries.
#[tactic(auto, using(crate::proofs::Each::count_is))]
pub(crate) fn list_within(value: &Value) -> Option<&Vec<Value>>
    ensures { option_map (λ list. items_view list.now.items) result ≡ list_within (view value.now) }
{
    let list = value.as_array()?;
    if list.len() <= MOST_ELEMENTS {
        Some(list)
    } else {
        None
    }
}

pub(crate) fn read_poly<'a>(
    alloc: Global,
    path: &'a Path<'a>,
    value: &Value,
    names: &Names,
) -> Result<Poly<Frac, Grevlex>, CertError>
    ensures { ReadsLike (StandsFor (length names.now))
        (poly_at names.now (path_bytes path.now) (view value.now)) result }
{
    let Some(text) = value.as_str() else {
        return Err(shape_at(alloc, path));
    };
    match read_flat(alloc, text.as_bytes(), names) {
        Ok(poly) => Ok(poly),
        Err(FlatError::NotFlat) => Err(polynomial_at(alloc, path)),
        Err(FlatError::Memory) => Err(CertError::Memory),
    }
}

/// The polynomials over the names in a list, in order, or the fault of the first that is none.
pub fn read_polys<'a>(
    alloc: Global,
    path: &'a Path<'a>,
    list: &[Value],
    names: &Names,
) -> Result<Polys, CertError>
    ensures count { IfOk result (λ ps. vec_len ps ≡ length list.now) }
    ensures reads { ReadsLike (ArePolysOf (length names.now))
        (each (poly_at names.now) (path_bytes path.now) 0 (items_view list.now)) result }
{
    let mut found = Vec::new(alloc);
    for (i, value) in list.iter().enumerate() {
        let poly = read_poly(alloc, &Path::Place(path, i), value, names)?;
        found.push(poly)?;
    }
    Ok(found)
}
