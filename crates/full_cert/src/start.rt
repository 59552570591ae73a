//! The start, the steps and the forms, read.
ghost use Rattle.std.specs.Prelude.{◌≡◌, ◌≤◌, All, length, vec_len, map, IfOk};
ghost use Rattle.std.specs.Option.{option_map};
ghost use Rattle.serde_json.specs.View.{view, items_view};
ghost use Rattle.cert_form.specs.Form.{each};
ghost use Rattle.cert_form.specs.Faults.{Reads};
ghost use Rattle.cert_form.specs.Path.{path_bytes};
ghost use Rattle.task_lists.specs.Rows.{rows_of};
ghost use Rattle.full_cert.specs.PartsForm as spec;
ghost use Rattle.full_cert.specs.PartsForm.{most_loop_variables};
ghost use Rattle.task_lists.specs.Images.{ArePolys, AreRows, IsFormOver};
ghost use Rattle.task_lists.specs.View.{form_in, start_in};

use crate::form::read_form;
use crate::{list_of, read_raws, read_table};
use cert_form::{CertError, Path, shape_at};
use monos::Grevlex;
use serde_json::Value;
use std::alloc::Global;
use task_lists::{FullForm, FullStart, Polys};

/// What the equations of init are made of, for so many of them.
pub fn read_start<'a>(
    alloc: Global,
    path: &'a Path<'a>,
    value: &Value,
    variables: usize,
    equations: usize,
) -> Result<FullStart, CertError>
    requires variables { variables ≤ most_loop_variables }
    ensures images { IfOk result (λ s. ArePolys variables s.out × AreRows variables s.links) }
    ensures reads { Reads start_in
        (spec.start_at variables equations (path_bytes path.now) (view value.now)) result }
{
    if !value.is_object() {
        return Err(shape_at(alloc, path));
    }
    let place = Path::Member(path, "out");
    let out = read_raws(alloc, &place, value.get("out"), Grevlex, variables)?;
    let place = Path::Member(path, "links");
    let links = value.get("links");
    let links = read_table(
        alloc,
        &place,
        links,
        equations,
        out.len(),
        Grevlex,
        variables,
    )?;
    Ok(FullStart { out, links })
}

// The cofactors of branches: squares of so many rows.
fn read_blocks<'a>(
    alloc: Global,
    path: &'a Path<'a>,
    list: &[Value],
    variables: usize,
    elements: usize,
) -> Result<Vec<Vec<Polys>>, CertError>
    requires variables { variables ≤ most_loop_variables }
    ensures count { IfOk result (λ blocks. vec_len blocks ≡ length list.now) }
    ensures images { IfOk result (λ blocks. All (AreRows variables) blocks.items) }
    ensures reads { Reads (λ blocks. map (λ b. rows_of b.items) blocks.items)
        (each (spec.block_at variables elements) (path_bytes path.now) 0 (items_view list.now))
        result }
{
    let mut found = Vec::new(alloc);
    for (i, value) in list.iter().enumerate() {
        let place = Path::Place(path, i);
        let block = read_table(
            alloc,
            &place,
            Some(value),
            elements,
            elements,
            Grevlex,
            variables,
        )?;
        found.push(block)?;
    }
    Ok(found)
}

/// The cofactors of so many branches, squares of so many elements.
pub fn read_steps<'a>(
    alloc: Global,
    path: &'a Path<'a>,
    value: Option<&Value>,
    variables: usize,
    elements: usize,
    branches: usize,
) -> Result<Vec<Vec<Polys>>, CertError>
    requires variables { variables ≤ most_loop_variables }
    ensures images { IfOk result (λ blocks. All (AreRows variables) blocks.items) }
    ensures reads { Reads (λ blocks. map (λ b. rows_of b.items) blocks.items)
        (spec.steps_at variables elements branches (path_bytes path.now)
        (option_map (λ v. view v.now) value.entry)) result }
{
    let Some(list) = list_of(value, branches) else {
        return Err(shape_at(alloc, path));
    };
    read_blocks(alloc, path, list, variables, elements)
}

// The forms that the values are.
fn forms_in<'a>(
    alloc: Global,
    path: &'a Path<'a>,
    list: &[Value],
    variables: usize,
) -> Result<Vec<FullForm>, CertError>
    requires variables { variables ≤ most_loop_variables }
    ensures count { IfOk result (λ forms. vec_len forms ≡ length list.now) }
    ensures images { IfOk result (λ forms. All (IsFormOver variables) forms.items) }
    ensures reads { Reads (λ forms. map form_in forms.items)
        (each (spec.form_at variables) (path_bytes path.now) 0 (items_view list.now)) result }
{
    let mut found = Vec::new(alloc);
    for (i, value) in list.iter().enumerate() {
        let form = read_form(alloc, &Path::Place(path, i), value, variables)?;
        found.push(form)?;
    }
    Ok(found)
}

/// The forms of so many branches.
pub fn read_forms<'a>(
    alloc: Global,
    path: &'a Path<'a>,
    value: Option<&Value>,
    variables: usize,
    branches: usize,
) -> Result<Vec<FullForm>, CertError>
    requires variables { variables ≤ most_loop_variables }
    ensures count { IfOk result (λ forms. vec_len forms ≡ branches) }
    ensures images { IfOk result (λ forms. All (IsFormOver variables) forms.items) }
    ensures reads { Reads (λ forms. map form_in forms.items)
        (spec.forms_at variables branches (path_bytes path.now)
        (option_map (λ v. view v.now) value.entry)) result }
{
    let Some(list) = list_of(value, branches) else {
        return Err(shape_at(alloc, path));
    };
    forms_in(alloc, path, list, variables)
}
