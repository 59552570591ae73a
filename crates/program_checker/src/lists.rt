//! The lists of nodes, read.
ghost use Rattle.std.specs.Prelude.{◌≡◌, ◌+◌, suc, length, vec_len, nat_le, IfOk, IfSome};
ghost use Rattle.std.specs.Option.{option_map};
ghost use Rattle.serde_json.specs.View.{view, items_view};
ghost use Rattle.cert_form.specs.Cert.{ArePolysOf};
ghost use Rattle.cert_form.specs.Faults.{ReadsLike};
ghost use Rattle.cert_form.specs.Form.{each};
ghost use Rattle.cert_form.specs.Path.{path_bytes};
ghost use Rattle.program_checker.specs.Form as form;
ghost use Rattle.program_checker.specs.Form.{entries, most_entries, list_at};
ghost use Rattle.program_checker.specs.ReadAs.{AreListsBehind};

use cert_form::{CertError, Path, list_with, read_polys, shape_at};
use frac128::Frac;
use loop_model::Names;
use monos::Grevlex;
use poly::Poly;
use serde_json::Value;
use std::alloc::Global;

/// The lists of a certificate have at most so many entries in all.
const MOST_ENTRIES: usize = 512;

/// How many entries the value has, where it is a list.
fn count_of(value: &Value) -> usize
    ensures { result ≡ form.count_of (view value.now) }
{
    match value.as_array() {
        Some(list) => list.len(),
        None => 0,
    }
}

/// Whether those of the values that are lists have at most 512 entries in all.
fn are_few(list: &[Value]) -> bool
    ensures { result ≡ nat_le (entries (items_view list.now)) most_entries }
{
    let mut total = 0;
    for value in list {
        let count = count_of(value);
        if count > MOST_ENTRIES - total {
            return false;
        }
        total += count;
    }
    true
}

/// The list of so many lists with few entries that the value is.
fn lists_in(value: &Value, count: usize) -> Option<&Vec<Value>>
    ensures list { option_map (λ list. items_view list.now.items) result
        ≡ form.lists_in count (view value.now) }
    ensures count { IfSome result (λ list. vec_len list.now ≡ count) }
{
    let list = list_with(value, count)?;
    if are_few(list) { Some(list) } else { None }
}

/// The polynomials of a node.
fn read_list<'a>(
    alloc: Global,
    path: &'a Path<'a>,
    value: &Value,
    names: &Names,
) -> Result<Vec<Poly<Frac, Grevlex>>, CertError>
    ensures { ReadsLike (ArePolysOf (length names.now))
        (list_at names.now (path_bytes path.now) (view value.now)) result }
{
    let Some(list) = value.as_array() else {
        return Err(shape_at(alloc, path));
    };
    read_polys(alloc, path, list, names)
}

/// Behind the empty list of the start, the lists of the nodes behind it.
fn read_all<'a>(
    alloc: Global,
    path: &'a Path<'a>,
    list: &[Value],
    names: &Names,
) -> Result<Vec<Vec<Poly<Frac, Grevlex>>>, CertError>
    ensures count { IfOk result (λ lists. vec_len lists ≡ suc (length list.now)) }
    ensures reads { ReadsLike (AreListsBehind (length names.now))
        (each (list_at names.now) (path_bytes path.now) 0 (items_view list.now)) result }
{
    let mut lists = Vec::new(alloc);
    lists.push(Vec::new(alloc))?;
    for (i, value) in list.iter().enumerate() {
        let found = read_list(alloc, &Path::Place(path, i), value, names)?;
        lists.push(found)?;
    }
    Ok(lists)
}

/// The lists of a certificate for so many nodes behind the start.
pub(crate) fn read_lists(
    alloc: Global,
    value: &Value,
    names: &Names,
    nodes: usize,
) -> Result<Vec<Vec<Poly<Frac, Grevlex>>>, CertError>
    ensures count { IfOk result (λ lists. vec_len lists ≡ suc nodes) }
    ensures reads { ReadsLike (AreListsBehind (length names.now))
        (form.lists_from names.now nodes (view value.now)) result }
{
    let path = Path::Root("/lists");
    let Some(lists) = value.get("lists") else {
        return Err(shape_at(alloc, &path));
    };
    let Some(list) = lists_in(lists, nodes) else {
        return Err(shape_at(alloc, &path));
    };
    read_all(alloc, &path, list, names)
}
