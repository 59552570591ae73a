//! Stages, read.
ghost use Rattle.std.specs.Prelude.{◌≡◌, ◌≤◌, ◌+◌, ◌==◌, All, length, vec_len, option_and_then, IfOk, IfSome};
ghost use Rattle.std.specs.Option.{option_map};
ghost use Rattle.serde_json.specs.View.{view, items_view};
ghost use Rattle.machines.specs.Elimination.{all_free, free_part};
ghost use Rattle.monos.specs.Variables.{most_variables};
ghost use Rattle.poly.specs.Seen.{terms_in, terms_each};
ghost use Rattle.cert_form.specs.Form as form;
ghost use Rattle.cert_form.specs.Faults.{Reads};
ghost use Rattle.corollaries.specs.Representation.{pairs_of};
ghost use Rattle.corollaries.specs.Stage.{block_order};
ghost use Rattle.cert_form.specs.Path.{path_bytes};
ghost use Rattle.full_cert.specs.Tables.{table_at};
ghost use Rattle.task_lists.specs.Rows.{rows_of};
ghost use Rattle.full_cert.specs.PartsForm as spec;
ghost use Rattle.task_lists.specs.Images.{AreBlockRows, IsStageIn};
ghost use Rattle.task_lists.specs.View.{stage_in};

use crate::{list_in, read_raws, read_rows, read_table};
use cert_form::{CertError, Path, shape_at};
use frac128::Frac;
use monos::{Blocks, Grevlex};
use poly::Poly;
use serde_json::Value;
use std::alloc::Global;
use task_lists::{BlockPolys, FullStage, Polys};

// Whether none of the first variables is in it.
fn is_free(p: &Poly<Frac, Blocks>, front: usize) -> bool
    requires { front ≤ p.now.arity }
    ensures { result ≡ all_free front (terms_in p.now) }
{
    p.is_free_of_first(front)
}

// How many have none of the first variables.
fn free_count(list: &[Poly<Frac, Blocks>], front: usize) -> usize
    requires { All (λ p. front ≤ p.arity) list.now }
    ensures { result ≡ length (free_part front (terms_each list.now)) }
{
    let mut count = 0;
    for p in list {
        if is_free(p, front) {
            count += 1;
        }
    }
    count
}

// Whether so many are the pairs of a list of `count`.
fn are_pairs(pairs: usize, count: usize) -> bool
    ensures { result ≡ (pairs == length (pairs_of count)) }
{
    let (pairs, count) = (pairs as u128, count as u128);
    pairs + pairs + count == count * count
}

// The list that the value is, where it has an entry for each pair of a list of `count`.
#[tactic(auto, using(cert_form::proofs::Each::count_is))]
fn list_of_pairs(value: Option<&Value>, count: usize) -> Option<&Vec<Value>>
    ensures list { option_map (λ list. items_view list.now.items) result ≡ option_and_then
        (form.list_with (length (pairs_of count))) (option_map (λ v. view v.now) value.entry) }
    ensures count { IfSome result (λ list. vec_len list.now ≡ length (pairs_of count)) }
{
    let list = list_in(value)?;
    if are_pairs(list.len(), count) {
        Some(list)
    } else {
        None
    }
}

// The cofactors of the pairs of a list of `count`.
fn read_pairs<'a>(
    alloc: Global,
    path: &'a Path<'a>,
    value: Option<&Value>,
    count: usize,
    front: usize,
    arity: usize,
) -> Result<Vec<BlockPolys>, CertError>
    requires few { arity ≤ most_variables }
    ensures images { IfOk result (AreBlockRows front arity) }
    ensures reads { Reads (λ pairs. rows_of pairs.items)
        (table_at (length (pairs_of count)) count (block_order front) arity (path_bytes path.now)
        (option_map (λ v. view v.now) value.entry)) result }
{
    let Some(list) = list_of_pairs(value, count) else {
        return Err(shape_at(alloc, path));
    };
    read_rows(alloc, path, list, count, Blocks { first: front }, arity)
}

/// The stage that eliminates the first variables and begins with so many polynomials.
pub fn read_stage<'a>(
    alloc: Global,
    path: &'a Path<'a>,
    value: &Value,
    front: usize,
    variables: usize,
    gens: usize,
) -> Result<FullStage, CertError>
    requires few { front + variables ≤ most_variables }
    ensures images { IfOk result (IsStageIn front variables) }
    ensures reads { Reads stage_in
        (spec.stage_at front variables gens (path_bytes path.now) (view value.now)) result }
{
    if !value.is_object() {
        return Err(shape_at(alloc, path));
    }
    let (order, arity) = (Blocks { first: front }, front + variables);
    let place = Path::Member(path, "list");
    let list = read_raws(alloc, &place, value.get("list"), order, arity)?;
    let count = list.len();
    let place = Path::Member(path, "gens");
    let rows = value.get("gens");
    let gens = read_table(alloc, &place, rows, gens, count, order, arity)?;
    let place = Path::Member(path, "pairs");
    let pairs = read_pairs(alloc, &place, value.get("pairs"), count, front, arity)?;
    let place = Path::Member(path, "out");
    let out = read_raws(alloc, &place, value.get("out"), Grevlex, variables)?;
    let place = Path::Member(path, "links");
    let free = free_count(&list, front);
    let rows = value.get("links");
    let links = read_table(alloc, &place, rows, free, out.len(), Grevlex, variables)?;
    Ok(FullStage {
        list,
        gens,
        pairs,
        out,
        links,
    })
}
