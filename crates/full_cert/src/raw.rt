//! Reads raw polynomials: lists of terms in any order.
ghost use Rattle.std.specs.Prelude.{◌≤◌, IfOk};
ghost use Rattle.serde_json.specs.View.{view};
ghost use Rattle.monos.specs.Variables.{most_variables};
ghost use Rattle.poly.specs.Seen.{terms_in, IsImage};
ghost use Rattle.cert_form.specs.Faults.{Reads};
ghost use Rattle.cert_form.specs.Path.{path_bytes};
ghost use Rattle.full_cert.specs.Raw as spec;

use crate::raw_form::have_term_form;
use crate::terms::all_terms;
use cert_form::{CertError, Path, polynomial_at, shape_at};
use frac128::Frac;
use monos::Order;
use poly::Poly;
use serde_json::Value;
use std::alloc::Global;

/// The polynomial in `arity` variables that the value is: a list of terms, each a list of the text
/// of a number and a list of exponents, in any order. `Shape` where the value has another form; `Poly`
/// where a number is above 2^127 - 1, 0 or divided by 0, an exponent is no whole number up to 65,535,
/// there are more or fewer exponents than variables, or two terms have the same.
pub fn read_raw<'a, O: Order>(
    alloc: Global,
    path: &'a Path<'a>,
    value: &Value,
    order: O,
    arity: usize,
) -> Result<Poly<Frac, O>, CertError>
    requires few { arity ≤ most_variables }
    ensures image { IfOk result (IsImage order arity) }
    ensures reads { Reads terms_in
        (spec.raw_at (O.order order) arity (path_bytes path.now) (view value.now)) result }
{
    let Some(list) = value.as_array() else {
        return Err(shape_at(alloc, path));
    };
    if !have_term_form(list) {
        return Err(shape_at(alloc, path));
    }
    let Some(terms) = all_terms(alloc, list, arity)? else {
        return Err(polynomial_at(alloc, path));
    };
    Ok(Poly::from_distinct(alloc, order, arity, terms)?)
}
