//! Reads flat polynomials: their items, as terms.

ghost use Rattle.std.specs.Prelude.{◌≡◌, ◌≢◌, ℕ, ◌<◌, ◌≤◌, List, ◌∷◌, ◌++◌, [], not, pos, ◌<ℤ◌, unsigned_abs, length, vec_len, All, AllPairs, Ok, IfOk, OnOk, IfSome, IsTrue};
ghost use Rattle.algebra.specs.Fraction.{over};
ghost use Rattle.frac128.specs.FracMeaning.{fraction_of};
ghost use Rattle.grammars.specs.Grammar.{optional};
ghost use Rattle.monos.specs.Variables.{most_variables};
ghost use Rattle.poly_text.specs.CursorView.{rest};
ghost use Rattle.poly_text.specs.Telling.{reading};
ghost use Rattle.poly_text.specs.Tokens.{number_limit};
ghost use Rattle.poly_text.specs.Flat.{flat_of, flat_language, minus_token, at_item, start, stands, signed_over};
ghost use Rattle.poly_text.specs.FlatReads.{state_of, term_with, polynomial_told};
ghost use Rattle.poly_text.specs.Seen.{read_terms, HasRead};

use crate::item::Item;
use crate::item_text::read_item;
use crate::{Cursor, Lexeme, TextError};
use frac128::Frac;
use loop_model::Names;
use monos::Mono;
use poly::Term;
use std::alloc::{AllocError, Global};
use std::collections::BTreeSet;

/// The numerator over the denominator.
fn quotient(numerator: i128, denominator: i128) -> Frac
    requires numerator { unsigned_abs numerator < number_limit }
    requires denominator { pos 0 <ℤ denominator }
    ensures { fraction_of result ≡ over numerator (unsigned_abs denominator) }
{
    Frac::new(numerator, denominator).unwrap()
}

/// The fraction of this sign, numerator and denominator.
fn ratio(negative: bool, numerator: u128, denominator: u128) -> Frac
    requires numerator { numerator < number_limit }
    requires denominator { denominator < number_limit }
    requires some { 0 < denominator }
    ensures { fraction_of result ≡ signed_over negative numerator denominator }
{
    let size = numerator as i128;
    quotient(if negative { -size } else { size }, denominator as i128)
}

/// Puts the item's term behind the others, and gives whether none of them has its exponents. If one has, they stay as they are.
fn add_item(
    alloc: Global,
    terms: &mut Vec<Term<Frac>>,
    seen: &mut BTreeSet<Vec<u16>>,
    negative: bool,
    item: Item,
) -> Result<bool, AllocError>
    requires few { vec_len item.exponents ≤ most_variables }
    requires read { HasRead (vec_len item.exponents) terms.old.items seen.old }
    ensures stands { IfOk result (λ added.
        stands (read_terms terms.old.items) item.exponents.items ≡ not added) }
    ensures added { IfOk result (λ added. IsTrue added → read_terms terms.new.items
        ≡ read_terms terms.old.items ++ term_with negative item ∷ []) }
    ensures read { OnOk result (HasRead (vec_len item.exponents) terms.new.items seen.new) }
{
    let coef = ratio(negative, item.numerator, item.denominator);
    let mono = match Mono::new(alloc, &item.exponents) {
        Ok(mono) => mono,
        Err(_) => return Err(AllocError),
    };
    if !seen.insert(item.exponents)? {
        return Ok(false);
    }
    terms.push(Term { mono, coef })?;
    Ok(true)
}

/// Goes on behind a leading `-`, and gives whether it is there.
fn behind_minus(cursor: Cursor<'_>) -> (bool, Cursor<'_>)
    ensures { (names : List (List ℕ)) → reading flat_language (optional minus_token) (start names)
        (rest cursor.entry) ≡ Ok (state_of (at_item names [] result.0), rest result.1) }
{
    if cursor.token.lexeme.is_sign(b'-') {
        (true, cursor.next())
    } else {
        (false, cursor)
    }
}

/// The terms of the flat polynomial that the text is, one for each item and with different monomials.
pub fn read_items(alloc: Global, text: &[u8], names: &Names) -> Result<Vec<Term<Frac>>, TextError>
    ensures reads { IfSome (polynomial_told result) (λ p. p ≡ flat_of names.now text.now) }
    ensures arities { IfOk result (λ terms.
        All (λ t. length t.mono ≡ length names.now) terms.items) }
    ensures distinct { IfOk result (λ terms. AllPairs (λ s t. s.mono ≢ t.mono) terms.items) }
{
    let mut terms = Vec::new(alloc);
    let mut seen = BTreeSet::new(alloc);
    let (mut negative, mut cursor) = behind_minus(Cursor::new(text));
    loop {
        let (item, end) = read_item(alloc, names, cursor)?;
        let at = end.token.at;
        if !add_item(alloc, &mut terms, &mut seen, negative, item)? {
            return Err(TextError::Twice { at });
        }
        if end.token.lexeme.is_sign(b'+') {
            negative = false;
            cursor = end.next();
        } else if end.token.lexeme.is_sign(b'-') {
            negative = true;
            cursor = end.next();
        } else {
            return match end.token.lexeme {
                Lexeme::End => Ok(terms),
                _ => Err(TextError::Syntax { at }),
            };
        }
    }
}
