//! Reads the parts of an item of a flat polynomial.

ghost use Rattle.std.specs.Prelude.{◌≡◌, ℕ, ◌<◌, ◌≤◌, ◌^◌, Bool, List, length, vec_len, is_some, IfOk, IfSome};
ghost use Rattle.algebra.specs.Fraction.{Fraction};
ghost use Rattle.polynomials.specs.Terms.{Terms};
ghost use Rattle.grammars.specs.Grammar.{many, rule};
ghost use Rattle.monos.specs.Variables.{most_variables};
ghost use Rattle.poly_text.specs.CursorView.{bytes_left};
ghost use Rattle.poly_text.specs.Telling.{Reads};
ghost use Rattle.poly_text.specs.Tokens.{number_limit};
ghost use Rattle.poly_text.specs.Flat as grammar;
ghost use Rattle.poly_text.specs.Flat.{FlatContext, flat_language};
ghost use Rattle.poly_text.specs.FlatReads.{state_of, at_power, divided_by, behind_item};

use crate::item::Item;
use crate::{Cursor, Lexeme, TextError};
use loop_model::Names;
use std::alloc::Global;

/// The highest exponent of a name in an item.
const MOST_POWER: u128 = 65535;

/// The exponents with a power more. None where an exponent is then too high.
fn with_power(mut exponents: Vec<u16>, place: usize, exponent: u128) -> Option<Vec<u16>>
    requires place { place < vec_len exponents }
    requires small { exponent < number_limit }
    ensures fits { is_some result ≡ grammar.fits exponents.items place exponent }
    ensures raised { IfSome result (λ e. e.items ≡ grammar.raise exponents.items place exponent) }
    ensures len { IfSome result (λ e. vec_len e ≡ vec_len exponents) }
{
    let sum = u128::from(exponents[place]) + exponent;
    if sum > MOST_POWER {
        return None;
    }
    exponents[place] = sum as u16;
    Some(exponents)
}

/// Reads a `^` and an exponent behind a name, or else takes the exponent 1.
fn read_raising<'t>(
    exponents: Vec<u16>,
    place: usize,
    cursor: Cursor<'t>,
) -> Result<(Vec<u16>, Cursor<'t>), TextError>
    requires { place < vec_len exponents }
    ensures reads { (c : FlatContext) (ns : List (List ℕ)) → Reads flat_language
        (rule grammar.an_exponent) (at_power c ns exponents.items place)
        (λ e. at_power c ns e.items 0) cursor.entry result }
    ensures len { IfOk result (λ r. vec_len r.0 ≡ vec_len exponents) }
    ensures falls { IfOk result (λ r. bytes_left r.1 ≤ bytes_left cursor.entry) }
{
    if !cursor.token.lexeme.is_sign(b'^') {
        let at = cursor.token.at;
        return match with_power(exponents, place, 1) {
            Some(raised) => Ok((raised, cursor)),
            None => Err(TextError::Syntax { at }),
        };
    }
    let next = cursor.next();
    let at = next.token.at;
    match next.token.lexeme {
        Lexeme::Number(value) => match with_power(exponents, place, value) {
            Some(raised) => Ok((raised, next.next())),
            None => Err(TextError::Limit { at }),
        },
        _ => Err(TextError::Syntax { at }),
    }
}

/// Reads a power of a name, and puts it to the exponents.
fn read_power<'t>(
    names: &Names,
    exponents: Vec<u16>,
    cursor: Cursor<'t>,
) -> Result<(Vec<u16>, Cursor<'t>), TextError>
    requires { vec_len exponents ≡ length names.now }
    ensures reads { (c : FlatContext) → Reads flat_language grammar.power
        (at_power c names.now exponents.items 0) (λ e. at_power c names.now e.items 0)
        cursor.entry result }
    ensures len { IfOk result (λ r. vec_len r.0 ≡ length names.now) }
    ensures falls { IfOk result (λ r. bytes_left r.1 < bytes_left cursor.entry) }
{
    let at = cursor.token.at;
    match cursor.token.lexeme {
        Lexeme::Name(word) => match names.position(word) {
            Some(place) => read_raising(exponents, place, cursor.next()),
            None => Err(TextError::Unknown { at }),
        },
        _ => Err(TextError::Syntax { at }),
    }
}

/// Reads each power that follows behind a `*`.
fn read_factors<'t>(
    names: &Names,
    exponents: Vec<u16>,
    cursor: Cursor<'t>,
) -> Result<(Vec<u16>, Cursor<'t>), TextError>
    requires { vec_len exponents ≡ length names.now }
    ensures reads { (c : FlatContext) → Reads flat_language (many grammar.factor)
        (at_power c names.now exponents.items 0) (λ e. at_power c names.now e.items 0)
        cursor.entry result }
    ensures len { IfOk result (λ r. vec_len r.0 ≡ length names.now) }
    ensures falls { IfOk result (λ r. bytes_left r.1 ≤ bytes_left cursor.entry) }
{
    let mut found = exponents;
    let mut at = cursor;
    loop {
        if !at.token.lexeme.is_sign(b'*') {
            return Ok((found, at));
        }
        let (next, end) = read_power(names, found, at.next())?;
        found = next;
        at = end;
    }
}

/// Reads a `/` and a denominator behind a number, or else takes the denominator 1.
fn read_division<'t>(cursor: Cursor<'t>) -> Result<(u128, Cursor<'t>), TextError>
    ensures reads { (c : FlatContext) → Reads flat_language grammar.division (divided_by c 1)
        (divided_by c) cursor.entry result }
    ensures some { IfOk result (λ r. 0 < r.0) }
    ensures small { IfOk result (λ r. r.0 < number_limit) }
    ensures falls { IfOk result (λ r. bytes_left r.1 ≤ bytes_left cursor.entry) }
{
    if !cursor.token.lexeme.is_sign(b'/') {
        return Ok((1, cursor));
    }
    let next = cursor.next();
    let at = next.token.at;
    match next.token.lexeme {
        Lexeme::Number(value) => {
            if value == 0 {
                return Err(TextError::Divisor { at });
            }
            Ok((value, next.next()))
        }
        _ => Err(TextError::Syntax { at }),
    }
}

/// Reads what an item begins with: a fraction, or a power. No name has an exponent in `none`.
fn read_first<'t>(
    names: &Names,
    none: Vec<u16>,
    cursor: Cursor<'t>,
) -> Result<(Item, Cursor<'t>), TextError>
    requires { none.items ≡ grammar.no_exponents names.now }
    ensures reads { (found : Terms Fraction) (negative : Bool) → Reads flat_language
        grammar.first_part (state_of (grammar.at_item names.now found negative))
        (behind_item names.now found negative) cursor.entry result }
    ensures len { IfOk result (λ r. vec_len r.0.exponents ≡ length names.now) }
    ensures falls { IfOk result (λ r. bytes_left r.1 < bytes_left cursor.entry) }
{
    match cursor.token.lexeme {
        Lexeme::Number(numerator) => {
            let (denominator, end) = read_division(cursor.next())?;
            let exponents = none;
            Ok((
                Item {
                    exponents,
                    numerator,
                    denominator,
                },
                end,
            ))
        }
        _ => {
            let (exponents, end) = read_power(names, none, cursor)?;
            Ok((
                Item {
                    exponents,
                    numerator: 1,
                    denominator: 1,
                },
                end,
            ))
        }
    }
}

/// Reads an item.
pub fn read_item<'t>(
    alloc: Global,
    names: &Names,
    cursor: Cursor<'t>,
) -> Result<(Item, Cursor<'t>), TextError>
    ensures reads { (found : Terms Fraction) (negative : Bool) → Reads flat_language grammar.item
        (state_of (grammar.at_item names.now found negative)) (behind_item names.now found negative)
        cursor.entry result }
    ensures len { IfOk result (λ r. vec_len r.0.exponents ≡ length names.now) }
    ensures few { IfOk result (λ r. vec_len r.0.exponents ≤ most_variables) }
    ensures falls { IfOk result (λ r. bytes_left r.1 < bytes_left cursor.entry) }
{
    let none = vec![in alloc; 0; names.len()]?;
    let (first, end) = read_first(names, none, cursor)?;
    let (exponents, end) = read_factors(names, first.exponents, end)?;
    let item = Item {
        exponents,
        numerator: first.numerator,
        denominator: first.denominator,
    };
    Ok((item, end))
}
