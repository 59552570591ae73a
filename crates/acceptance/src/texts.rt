// Names, expressions, polynomials and certificates as texts.
use crate::rows::no_such_row;
use cert_form::{read_cert, write_cert};
use loop_model::{BinaryOperator, Expr, Names, NamesError, expr_poly};
use poly_text::{
    Cursor, Refusal, SumReader, print_poly, read_equation, read_flat, read_poly, read_sum,
};
use std::alloc::{AllocError, Global};
use worked_rows::push_item;

/// What a text over the names of a list is, or its refusal.
pub(crate) fn answer(alloc: Global, question: &str, values: &[&str]) -> Result<String, AllocError> {
    let [list, text] = values else {
        return no_such_row(alloc);
    };
    let names = match names_of(alloc, list) {
        Ok(names) => names,
        Err(error) => return error.to_string(alloc),
    };
    match question {
        "position" => position(alloc, text, &names),
        "expression" => expression(alloc, text, &names),
        "flat" => flat(alloc, text, &names),
        "sum" => sum(alloc, text, &names),
        "equation" => equation(alloc, text, &names),
        "certificate" => certificate(alloc, text, &names),
        "written" => written(alloc, text, &names),
        _ => no_such_row(alloc),
    }
}

/// At most eight names, with commas between them.
fn names_of(alloc: Global, list: &str) -> Result<Names, NamesError> {
    let mut texts = Vec::new(alloc);
    for name in list.split(',') {
        texts.push(String::from_str(alloc, name)?)?;
    }
    if texts.len() > 8 {
        return Err(NamesError::Memory);
    }
    Names::new(alloc, &texts)
}

fn position(alloc: Global, name: &str, names: &Names) -> Result<String, AllocError> {
    match names.position(name.as_bytes()) {
        Some(index) => format!(in alloc; "{index} of {}", names.len()),
        None => String::from_str(alloc, "none"),
    }
}

fn expression(alloc: Global, text: &str, names: &Names) -> Result<String, AllocError> {
    let reader = SumReader {
        alloc,
        names,
        refused: &[],
        refusal: Refusal::InitUses,
    };
    match reader.sum(Cursor::new(text.as_bytes()), 0, 0) {
        Ok((sum, end)) => head(alloc, &Box::into_inner(sum.value), end.token.at, names),
        Err(error) => error.to_string(alloc),
    }
}

// Where the operator of a sum stands, the names in the sum, and where it ends.
fn head(alloc: Global, expr: &Expr, end: usize, names: &Names) -> Result<String, AllocError> {
    let Expr::Binary {
        at,
        operator: BinaryOperator::Add,
        ..
    } = expr
    else {
        return String::from_str(alloc, "no sum");
    };
    let mut used = String::new(alloc);
    for index in 0..names.len() {
        if expr.uses(index) {
            push_item(&mut used, ", ", names.name(index).as_str())?;
        }
    }
    format!(in alloc; "sum at {at} with {used}, end at {end}")
}

fn flat(alloc: Global, text: &str, names: &Names) -> Result<String, AllocError> {
    match read_flat(alloc, text.as_bytes(), names) {
        Ok(poly) => print_poly(alloc, &poly, names),
        Err(error) => error.to_string(alloc),
    }
}

fn sum(alloc: Global, text: &str, names: &Names) -> Result<String, AllocError> {
    match read_poly(alloc, text.as_bytes(), names) {
        Ok(poly) => print_poly(alloc, &poly, names),
        Err(error) => error.to_string(alloc),
    }
}

fn equation(alloc: Global, text: &str, names: &Names) -> Result<String, AllocError> {
    match read_equation(alloc, text.as_bytes(), names) {
        Ok(poly) => print_poly(alloc, &poly, names),
        Err(error) => error.to_string(alloc),
    }
}

fn certificate(alloc: Global, text: &str, names: &Names) -> Result<String, AllocError> {
    match read_cert(alloc, text.as_bytes(), names, 1) {
        Ok(_) => String::from_str(alloc, "read"),
        Err(error) => error.to_string(alloc),
    }
}

fn written(alloc: Global, text: &str, names: &Names) -> Result<String, AllocError> {
    let cert = match read_cert(alloc, text.as_bytes(), names, 1) {
        Ok(cert) => cert,
        Err(error) => return error.to_string(alloc),
    };
    write_cert(alloc, &cert, names)
}

/// The polynomial of a sum in `x` where `x` is a polynomial in `x` itself.
pub(crate) fn form_sum(alloc: Global, values: &[&str]) -> Result<String, AllocError> {
    match (names_of(alloc, "x"), values) {
        (Ok(names), [sum, state]) => form_over(alloc, sum, state, &names),
        _ => no_such_row(alloc),
    }
}

fn form_over(alloc: Global, sum: &str, state: &str, names: &Names) -> Result<String, AllocError> {
    if names.len() != 1 {
        return no_such_row(alloc);
    }
    let Ok(state) = read_poly(alloc, state.as_bytes(), names) else {
        return no_such_row(alloc);
    };
    let state = vec![in alloc; state]?;
    let Ok(sum) = read_sum(alloc, sum.as_bytes(), names) else {
        return no_such_row(alloc);
    };
    match expr_poly(alloc, &sum, &state) {
        Ok(poly) => print_poly(alloc, &poly, names),
        Err(error) => error.to_string(alloc),
    }
}
