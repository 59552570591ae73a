//! The terms of lists that have the form of raw polynomials.
ghost use Rattle.std.specs.Prelude.{◌≡◌, ◌≢◌, ◌≤◌, ◌++◌, ◌∷◌, [], not, length, vec_len, All, AllPairs, option_map, option_and_then, IfOk, IfSome, OnOk, IsTrue};
ghost use Rattle.serde_json.specs.Find.{as_array, as_str};
ghost use Rattle.serde_json.specs.View.{view, items_view};
ghost use Rattle.algebra.specs.Fraction.{is_zero as number_is_zero};
ghost use Rattle.frac128.specs.FracMeaning.{fraction_of};
ghost use Rattle.monos.specs.Variables.{most_variables};
ghost use Rattle.poly_text.specs.Number.{number_of};
ghost use Rattle.poly_text.specs.Flat.{stands};
ghost use Rattle.poly_text.specs.Seen.{read_terms, HasRead};
ghost use Rattle.full_cert.specs.Raw as spec;
ghost use Rattle.full_cert.specs.Term.{exponents_and_number};

use cert_form::list_with;
use frac128::Frac;
use monos::Mono;
use poly::Term;
use poly_text::read_number;
use ring_laws::Ring;
use serde_json::Value;
use std::alloc::{AllocError, Global};
use std::collections::BTreeSet;

// The exponent that the value is: a whole number up to 65,535.
fn exponent(value: &Value) -> Option<u16>
    ensures { result ≡ spec.exponent_of (view value.now) }
{
    u16::try_from(value.as_u64()?).ok()
}

// The exponents that the values are, if each is one.
fn exponents(alloc: Global, list: &[Value]) -> Result<Option<Vec<u16>>, AllocError>
    ensures { IfOk result (λ found. option_map (λ e. e.items) found
        ≡ spec.exponents_of (items_view list.now)) }
{
    let mut found = Vec::new(alloc);
    for value in list {
        let Some(exponent) = exponent(value) else {
            return Ok(None);
        };
        found.push(exponent)?;
    }
    Ok(Some(found))
}

fn exponents_in(alloc: Global, value: &Value) -> Result<Option<Vec<u16>>, AllocError>
    ensures { IfOk result (λ found. option_map (λ e. e.items) found
        ≡ option_and_then spec.exponents_of (as_array (view value.now))) }
{
    match value.as_array() {
        Some(list) => exponents(alloc, list),
        None => Ok(None),
    }
}

fn number_in(value: &Value) -> Option<Frac>
    ensures { option_map fraction_of result
        ≡ option_and_then number_of (as_str (view value.now)) }
{
    match value.as_str() {
        Some(text) => read_number(text.as_bytes()),
        None => None,
    }
}

// The exponents and the number in a list of the text of a number and a list of exponents.
#[tactic(auto, using(cert_form::proofs::Each::entry_is))]
fn term_parts(alloc: Global, parts: &[Value]) -> Result<Option<(Vec<u16>, Frac)>, AllocError>
    requires { length parts.now ≡ 2 }
    ensures { IfOk result (λ found. option_map exponents_and_number found
        ≡ spec.term_parts (items_view parts.now)) }
{
    match number_in(&parts[0]) {
        Some(coef) => with_exponents(alloc, &parts[1], coef),
        None => Ok(None),
    }
}

fn with_exponents(
    alloc: Global,
    value: &Value,
    coef: Frac,
) -> Result<Option<(Vec<u16>, Frac)>, AllocError>
    ensures { IfOk result (λ found. option_map exponents_and_number found
        ≡ spec.pair_of (Some (fraction_of coef))
        (option_and_then spec.exponents_of (as_array (view value.now)))) }
{
    match exponents_in(alloc, value)? {
        Some(exponents) => Ok(Some((exponents, coef))),
        None => Ok(None),
    }
}

fn is_zero(coef: &Frac) -> bool
    ensures { result ≡ number_is_zero (fraction_of coef.now) }
{
    coef.is_zero()
}

// The exponents and the number, where there are as many exponents as variables and the number isn't 0.
fn checked(arity: usize, exponents: Vec<u16>, coef: Frac) -> Option<(Vec<u16>, Frac)>
    ensures same { option_map exponents_and_number result
        ≡ spec.valid_term arity (exponents.items, fraction_of coef) }
    ensures arity { IfSome result (λ term. vec_len term.0 ≡ arity) }
{
    if !is_zero(&coef) && exponents.len() == arity {
        Some((exponents, coef))
    } else {
        None
    }
}

// The exponents and the number of the term in so many variables that the value is, if it is one.
fn term(alloc: Global, value: &Value, arity: usize) -> Result<Option<(Vec<u16>, Frac)>, AllocError>
    ensures same { IfOk result (λ found. option_map exponents_and_number found
        ≡ spec.term_of arity (view value.now)) }
    ensures arity { IfOk result (λ found. IfSome found (λ term. vec_len term.0 ≡ arity)) }
{
    let Some(parts) = list_with(value, 2) else {
        return Ok(None);
    };
    match term_parts(alloc, parts)? {
        Some((exponents, coef)) => Ok(checked(arity, exponents, coef)),
        None => Ok(None),
    }
}

// Puts the term behind the others, and gives whether none of them has its exponents. If one has, they stay as they are.
fn add_term(
    alloc: Global,
    terms: &mut Vec<Term<Frac>>,
    seen: &mut BTreeSet<Vec<u16>>,
    exponents: Vec<u16>,
    coef: Frac,
) -> Result<bool, AllocError>
    requires few { vec_len exponents ≤ most_variables }
    requires read { HasRead (vec_len exponents) terms.old.items seen.old }
    ensures stands { IfOk result (λ added.
        stands (read_terms terms.old.items) exponents.items ≡ not added) }
    ensures added { IfOk result (λ added. IsTrue added → read_terms terms.new.items
        ≡ read_terms terms.old.items ++ (exponents.items, fraction_of coef) ∷ []) }
    ensures read { OnOk result (HasRead (vec_len exponents) terms.new.items seen.new) }
{
    let mono = match Mono::new(alloc, &exponents) {
        Ok(mono) => mono,
        Err(_) => return Err(AllocError),
    };
    if !seen.insert(exponents)? {
        return Ok(false);
    }
    terms.push(Term { mono, coef })?;
    Ok(true)
}

// The terms in so many variables that the values are, if each is one and no two have the same exponents.
pub(crate) fn all_terms(
    alloc: Global,
    list: &[Value],
    arity: usize,
) -> Result<Option<Vec<Term<Frac>>>, AllocError>
    requires few { arity ≤ most_variables }
    ensures same { IfOk result (λ found. option_map (λ terms. read_terms terms.items) found
        ≡ spec.terms_of arity (items_view list.now)) }
    ensures arities { IfOk result (λ found. IfSome found (λ terms.
        All (λ t. length t.mono ≡ arity) terms.items)) }
    ensures distinct { IfOk result (λ found. IfSome found (λ terms.
        AllPairs (λ s t. s.mono ≢ t.mono) terms.items)) }
{
    let mut found = Vec::new(alloc);
    let mut seen = BTreeSet::new(alloc);
    for value in list {
        let Some((exponents, coef)) = term(alloc, value, arity)? else {
            return Ok(None);
        };
        if !add_term(alloc, &mut found, &mut seen, exponents, coef)? {
            return Ok(None);
        }
    }
    Ok(Some(found))
}
