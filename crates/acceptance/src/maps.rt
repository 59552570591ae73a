// Loops as texts, and their maps.
use crate::rows::no_such_row;
use frac128::Frac;
use loop_model::{Loop, MapError, Names};
use loop_text::read_loop;
use monos::Grevlex;
use poly::Poly;
use poly_text::print_poly;
use std::alloc::{AllocError, Global};
use worked_rows::push_item;

/// What is told of the loop that the bytes are, or their refusal.
pub(crate) fn answer(alloc: Global, bytes: &[u8], values: &[&str]) -> Result<String, AllocError> {
    match read_loop(alloc, bytes) {
        Ok(lp) => answer_of(alloc, &lp, values),
        Err(error) => error.to_string(alloc),
    }
}

fn answer_of(alloc: Global, lp: &Loop, values: &[&str]) -> Result<String, AllocError> {
    match values {
        ["parts"] => parts(alloc, lp),
        ["start"] => polynomials(alloc, lp.start_map(alloc), lp.names()),
        ["first branch"] => polynomials(alloc, lp.branch_map(alloc, 0), lp.names()),
        _ => no_such_row(alloc),
    }
}

// The names, and how many statements each of `init` and the branches has.
fn parts(alloc: Global, lp: &Loop) -> Result<String, AllocError> {
    let names = lp.names();
    let mut text = String::new(alloc);
    for index in 0..names.len() {
        push_item(&mut text, ", ", names.name(index).as_str())?;
    }
    write!(text, "; init of {}", lp.start().len())?;
    for branch in lp.branches() {
        write!(text, "; branch of {}", branch.len())?;
    }
    Ok(text)
}

// The polynomials of a map, as printed, or its refusal.
fn polynomials(
    alloc: Global,
    map: Result<Vec<Poly<Frac, Grevlex>>, MapError>,
    names: &Names,
) -> Result<String, AllocError> {
    let map = match map {
        Ok(map) => map,
        Err(error) => return error.to_string(alloc),
    };
    let mut text = String::new(alloc);
    for poly in &map {
        if poly.arity() == names.len() {
            push_item(&mut text, ", ", print_poly(alloc, poly, names)?.as_str())?;
        }
    }
    Ok(text)
}
