// What columns have: names between commas, polynomials in them, and lists of these with `; ` between.
ghost use Rattle.std.specs.Prelude.{◌≡◌, ◌≤◌, length, IfOk};
ghost use Rattle.complete.specs.Completing.{AreLike};
ghost use Rattle.computation_rows.specs.RowLimits.{most_polynomials};

use crate::number::Number;
use crate::row_error::RowError;
use frac128::Frac;
use loop_model::Names;
use monos::{Grevlex, Order};
use poly::{Poly, Term};
use poly_text::{print_poly, read_flat};
use std::alloc::Global;

const MOST_NAMES: usize = 4096;

const MOST_POLYNOMIALS: usize = 1000;

/// The names of a list behind the first ones.
pub(crate) fn names_of(alloc: Global, list: &str, first: usize) -> Result<Names, RowError> {
    let mut names = Names::empty(alloc);
    add_names(&mut names, list, first)?;
    Ok(names)
}

/// The names of n, s, the u and the v, and of variables behind them.
pub(crate) fn names_with(alloc: Global, front: &str, variables: &str) -> Result<Names, RowError> {
    let mut names = names_of(alloc, front, 0)?;
    add_names(&mut names, variables, 0)?;
    Ok(names)
}

fn add_names(names: &mut Names, list: &str, first: usize) -> Result<(), RowError> {
    for name in list.split_terminator(',').skip(first) {
        if names.len() >= MOST_NAMES {
            return Err(RowError::TooManyNames);
        }
        if names.push(name.as_bytes()).is_err() {
            return Err(RowError::Unreadable);
        }
    }
    Ok(())
}

/// The polynomials of a list, at most 1,000.
pub(crate) fn list_of<K: Number, O: Order>(
    alloc: Global,
    order: O,
    names: &Names,
    text: &str,
) -> Result<Vec<Poly<K, O>>, RowError>
    ensures like { IfOk result (λ ps. AreLike order (length names.now) ps.items) }
    ensures few { IfOk result (λ ps. length ps.items ≤ most_polynomials) }
{
    let mut list = Vec::new(alloc);
    for item in text.split("; ") {
        list.push(poly_of(alloc, order, names, item)?)?;
    }
    if list.len() > MOST_POLYNOMIALS {
        return Err(RowError::TooManyPolynomials);
    }
    Ok(list)
}

/// The polynomial that the text is.
pub(crate) fn poly_of<K: Number, O: Order>(
    alloc: Global,
    order: O,
    names: &Names,
    text: &str,
) -> Result<Poly<K, O>, RowError>
    ensures { IfOk result (λ p. (p.order ≡ order) × (p.arity ≡ length names.now)) }
{
    match read_flat(alloc, text.as_bytes(), names) {
        Ok(read) => over_others(alloc, &read, order),
        Err(_) => Err(RowError::Unreadable),
    }
}

// The polynomial of this order over the numbers that stand for those of another.
fn over_others<K: Number, L: Number, O: Order, P: Order>(
    alloc: Global,
    p: &Poly<K, O>,
    order: P,
) -> Result<Poly<L, P>, RowError>
    ensures { IfOk result (λ q. (q.order ≡ order) × (q.arity ≡ p.now.arity)) }
{
    let mut terms = Vec::new(alloc);
    for term in p.terms() {
        terms.push(term_over_others(alloc, p.arity(), term)?)?;
    }
    Ok(Poly::from_terms(alloc, order, p.arity(), terms)?)
}

fn term_over_others<K: Number, L: Number>(
    alloc: Global,
    arity: usize,
    term: &Term<K>,
) -> Result<Term<L>, RowError>
    ensures { IfOk result (λ t. length t.mono ≡ arity) }
{
    match L::of(&term.coef.frac()) {
        Some(coef) if term.mono.arity() == arity => Ok(Term {
            mono: term.mono.copy(alloc)?,
            coef,
        }),
        _ => Err(RowError::Unreadable),
    }
}

/// The texts of the polynomials, or `none`.
pub(crate) fn polys_text<K: Number, O: Order>(
    alloc: Global,
    list: &[Poly<K, O>],
    names: &Names,
) -> Result<String, RowError> {
    let mut text = String::new(alloc);
    if list.is_empty() {
        text.push_str("none")?;
    }
    for p in list {
        push_poly(
            alloc,
            if text.is_empty() { "" } else { "; " },
            p,
            names,
            &mut text,
        )?;
    }
    Ok(text)
}

/// Writes the polynomial, and before it what begins.
pub(crate) fn push_poly<K: Number, O: Order>(
    alloc: Global,
    begin: &str,
    p: &Poly<K, O>,
    names: &Names,
    text: &mut String,
) -> Result<(), RowError> {
    if p.arity() != names.len() {
        return Err(RowError::Unreadable);
    }
    let p: Poly<Frac, Grevlex> = over_others(alloc, p, Grevlex)?;
    let printed = print_poly(alloc, &p, names)?;
    text.push_str(begin)?;
    text.push_str(&printed)?;
    Ok(())
}
