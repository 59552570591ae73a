//! The forms of branches, read.
ghost use Rattle.std.specs.Prelude.{◌≡◌, ◌≤◌, length, vec_len, unsigned_abs, option_and_then, IfOk, IfSome};
ghost use Rattle.std.specs.Option.{option_map};
ghost use Rattle.serde_json.specs.Find.{as_array, as_str};
ghost use Rattle.serde_json.specs.View.{view, items_view};
ghost use Rattle.coprime_base.specs.Sizes.{sizes};
ghost use Rattle.solvable_maps.specs.Iterations.{width};
ghost use Rattle.poly_text.specs.Number.{numeral_of};
ghost use Rattle.cert_form.specs.Form.{each};
ghost use Rattle.cert_form.specs.Faults.{Reads};
ghost use Rattle.cert_form.specs.Path.{path_bytes};
ghost use Rattle.full_cert.specs.PartsForm as spec;
ghost use Rattle.full_cert.specs.PartsForm.{most_loop_variables};
ghost use Rattle.task_lists.specs.Images.{most_bases, ArePolys};
ghost use Rattle.task_lists.specs.View.{form_in};

use crate::{list_in, read_row};
use cert_form::{CertError, Path, shape_at};
use frac128::Whole;
use monos::Grevlex;
use poly_text::read_numeral;
use serde_json::Value;
use std::alloc::Global;
use task_lists::FullForm;

// A base has at most so many numbers.
const MOST_BASES: usize = 1024;

// The whole number that the digits of a text are.
fn base_number(value: &Value) -> Option<Whole>
    ensures { option_map (λ w. unsigned_abs w.value) result
        ≡ option_and_then numeral_of (as_str (view value.now)) }
{
    let text = value.as_str()?;
    Whole::new(read_numeral(text.as_bytes())?)
}

// The numbers that the texts are.
fn base_numbers<'a>(
    alloc: Global,
    path: &'a Path<'a>,
    list: &[Value],
) -> Result<Vec<Whole>, CertError>
    ensures count { IfOk result (λ base. vec_len base ≡ length list.now) }
    ensures reads { Reads (λ base. sizes base.items)
        (each spec.base_number_at (path_bytes path.now) 0 (items_view list.now)) result }
{
    let mut found = Vec::new(alloc);
    for (i, value) in list.iter().enumerate() {
        let Some(number) = base_number(value) else {
            return Err(shape_at(alloc, &Path::Place(path, i)));
        };
        found.push(number)?;
    }
    Ok(found)
}

// The list, where it has at most 1,024 entries.
#[tactic(auto, using(cert_form::proofs::Each::count_is))]
fn few_in(value: Option<&Value>) -> Option<&Vec<Value>>
    ensures list { option_map (λ list. items_view list.now.items) result ≡ option_and_then spec.few
        (option_and_then as_array (option_map (λ v. view v.now) value.entry)) }
    ensures few { IfSome result (λ list. vec_len list.now ≤ most_bases) }
{
    let list = list_in(value)?;
    if list.len() <= MOST_BASES {
        Some(list)
    } else {
        None
    }
}

// The base in a list of texts.
fn read_base<'a>(
    alloc: Global,
    path: &'a Path<'a>,
    value: Option<&Value>,
) -> Result<Vec<Whole>, CertError>
    ensures few { IfOk result (λ base. vec_len base ≤ most_bases) }
    ensures reads { Reads (λ base. sizes base.items)
        (spec.base_at (path_bytes path.now) (option_map (λ v. view v.now) value.entry)) result }
{
    let Some(list) = few_in(value) else {
        return Err(shape_at(alloc, path));
    };
    base_numbers(alloc, path, list)
}

// The form of a branch over so many variables.
pub(crate) fn read_form<'a>(
    alloc: Global,
    path: &'a Path<'a>,
    value: &Value,
    variables: usize,
) -> Result<FullForm, CertError>
    requires variables { variables ≤ most_loop_variables }
    ensures few { IfOk result (λ f. vec_len f.base ≤ most_bases) }
    ensures images { IfOk result (λ f. ArePolys (width (vec_len f.base) variables) f.polys) }
    ensures reads { Reads form_in
        (spec.form_at variables (path_bytes path.now) (view value.now)) result }
{
    if !value.is_object() {
        return Err(shape_at(alloc, path));
    }
    let base = read_base(alloc, &Path::Member(path, "base"), value.get("base"))?;
    let numbers = base.len();
    let arity = 2 + (numbers + (numbers + variables));
    let place = Path::Member(path, "polys");
    let polys = read_row(alloc, &place, value.get("polys"), variables, Grevlex, arity)?;
    Ok(FullForm { base, polys })
}
