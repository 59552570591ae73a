//! Lists of raw polynomials, and lists of these, read.
ghost use Rattle.std.specs.Prelude.{◌≡◌, ◌≤◌, All, length, vec_len, option_and_then, IfOk, IfSome};
ghost use Rattle.std.specs.Option.{option_map};
ghost use Rattle.serde_json.specs.Find.{as_array};
ghost use Rattle.serde_json.specs.View.{view, items_view};
ghost use Rattle.monos.specs.Variables.{most_variables};
ghost use Rattle.poly.specs.Seen.{terms_each, IsImage};
ghost use Rattle.cert_form.specs.Form as form;
ghost use Rattle.cert_form.specs.Form.{each};
ghost use Rattle.cert_form.specs.Faults.{Reads};
ghost use Rattle.cert_form.specs.Path.{path_bytes};
ghost use Rattle.full_cert.specs.Raw.{raw_at};
ghost use Rattle.full_cert.specs.Tables.{raws_at, raws_with, row_at, table_at};
ghost use Rattle.task_lists.specs.Rows.{rows_of, HaveImages};

use crate::raw::read_raw;
use cert_form::{CertError, Path, list_with, shape_at};
use frac128::Frac;
use monos::Order;
use poly::Poly;
use serde_json::Value;
use std::alloc::Global;

/// The list that the value is, where there is one.
pub fn list_in(value: Option<&Value>) -> Option<&Vec<Value>>
    ensures { option_map (λ list. items_view list.now.items) result
        ≡ option_and_then as_array (option_map (λ v. view v.now) value.entry) }
{
    value?.as_array()
}

/// The list of `count` entries that the value is, where there is one.
pub fn list_of(value: Option<&Value>, count: usize) -> Option<&Vec<Value>>
    ensures list { option_map (λ list. items_view list.now.items) result
        ≡ option_and_then (form.list_with count) (option_map (λ v. view v.now) value.entry) }
    ensures count { IfSome result (λ list. vec_len list.now ≡ count) }
{
    list_with(value?, count)
}

// The polynomials that the values are.
fn read_each<'a, O: Order>(
    alloc: Global,
    path: &'a Path<'a>,
    list: &[Value],
    order: O,
    arity: usize,
) -> Result<Vec<Poly<Frac, O>>, CertError>
    requires few { arity ≤ most_variables }
    ensures count { IfOk result (λ ps. vec_len ps ≡ length list.now) }
    ensures images { IfOk result (λ ps. All (IsImage order arity) ps.items) }
    ensures reads { Reads (λ ps. terms_each ps.items)
        (each (raw_at (O.order order) arity) (path_bytes path.now) 0 (items_view list.now)) result }
{
    let mut found = Vec::new(alloc);
    for (i, value) in list.iter().enumerate() {
        let poly = read_raw(alloc, &Path::Place(path, i), value, order, arity)?;
        found.push(poly)?;
    }
    Ok(found)
}

/// The polynomials in `arity` variables that the value is a list of.
pub fn read_raws<'a, O: Order>(
    alloc: Global,
    path: &'a Path<'a>,
    value: Option<&Value>,
    order: O,
    arity: usize,
) -> Result<Vec<Poly<Frac, O>>, CertError>
    requires few { arity ≤ most_variables }
    ensures images { IfOk result (λ ps. All (IsImage order arity) ps.items) }
    ensures reads { Reads (λ ps. terms_each ps.items)
        (raws_at (O.order order) arity (path_bytes path.now)
        (option_map (λ v. view v.now) value.entry)) result }
{
    let Some(list) = list_in(value) else {
        return Err(shape_at(alloc, path));
    };
    read_each(alloc, path, list, order, arity)
}

/// The `count` polynomials in `arity` variables that the value is a list of.
pub fn read_row<'a, O: Order>(
    alloc: Global,
    path: &'a Path<'a>,
    value: Option<&Value>,
    count: usize,
    order: O,
    arity: usize,
) -> Result<Vec<Poly<Frac, O>>, CertError>
    requires few { arity ≤ most_variables }
    ensures count { IfOk result (λ ps. vec_len ps ≡ count) }
    ensures images { IfOk result (λ ps. All (IsImage order arity) ps.items) }
    ensures reads { Reads (λ ps. terms_each ps.items)
        (row_at count (O.order order) arity (path_bytes path.now)
        (option_map (λ v. view v.now) value.entry)) result }
{
    let Some(list) = list_of(value, count) else {
        return Err(shape_at(alloc, path));
    };
    read_each(alloc, path, list, order, arity)
}

// The `count` polynomials in `arity` variables that the value is a list of.
fn read_raws_with<'a, O: Order>(
    alloc: Global,
    path: &'a Path<'a>,
    value: &Value,
    count: usize,
    order: O,
    arity: usize,
) -> Result<Vec<Poly<Frac, O>>, CertError>
    requires few { arity ≤ most_variables }
    ensures count { IfOk result (λ ps. vec_len ps ≡ count) }
    ensures images { IfOk result (λ ps. All (IsImage order arity) ps.items) }
    ensures reads { Reads (λ ps. terms_each ps.items)
        (raws_with count (O.order order) arity (path_bytes path.now) (view value.now)) result }
{
    let Some(list) = list_with(value, count) else {
        return Err(shape_at(alloc, path));
    };
    read_each(alloc, path, list, order, arity)
}

/// The lists of `count` polynomials in `arity` variables that the values are.
pub fn read_rows<'a, O: Order>(
    alloc: Global,
    path: &'a Path<'a>,
    list: &[Value],
    count: usize,
    order: O,
    arity: usize,
) -> Result<Vec<Vec<Poly<Frac, O>>>, CertError>
    requires few { arity ≤ most_variables }
    ensures count { IfOk result (λ rows. vec_len rows ≡ length list.now) }
    ensures images { IfOk result (λ rows. HaveImages order arity rows.items) }
    ensures reads { Reads (λ rows. rows_of rows.items)
        (each (raws_with count (O.order order) arity) (path_bytes path.now) 0 (items_view list.now))
        result }
{
    let mut found = Vec::new(alloc);
    for (i, value) in list.iter().enumerate() {
        let row = read_raws_with(alloc, &Path::Place(path, i), value, count, order, arity)?;
        found.push(row)?;
    }
    Ok(found)
}

/// The `rows` lists of `count` polynomials in `arity` variables that the value is a list of.
pub fn read_table<'a, O: Order>(
    alloc: Global,
    path: &'a Path<'a>,
    value: Option<&Value>,
    rows: usize,
    count: usize,
    order: O,
    arity: usize,
) -> Result<Vec<Vec<Poly<Frac, O>>>, CertError>
    requires few { arity ≤ most_variables }
    ensures count { IfOk result (λ table. vec_len table ≡ rows) }
    ensures images { IfOk result (λ table. HaveImages order arity table.items) }
    ensures reads { Reads (λ table. rows_of table.items)
        (table_at rows count (O.order order) arity (path_bytes path.now)
        (option_map (λ v. view v.now) value.entry)) result }
{
    let Some(list) = list_of(value, rows) else {
        return Err(shape_at(alloc, path));
    };
    read_rows(alloc, path, list, count, order, arity)
}
