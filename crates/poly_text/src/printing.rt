//! Prints polynomials.

ghost use Rattle.std.specs.Prelude.{◌≡◌, ◌≤◌, ◌++◌, length, string_bytes, decimal, unsigned_abs, if◌then◌else◌, codes, [], All, IfOk, OnOk, IsSomeAnd};
ghost use Rattle.std.specs.Int.{is_negative};
ghost use Rattle.algebra.specs.Fraction.{ℚ};
ghost use Rattle.polynomials.specs.Terms.{Same};
ghost use Rattle.frac128.specs.FracMeaning.{fraction_of};
ghost use Rattle.poly.specs.View.{term_of, terms_of};
ghost use Rattle.poly.specs.Seen.{terms_in};
ghost use Rattle.poly_text.specs.Printed as text_of;
ghost use Rattle.poly_text.specs.PrintedParts.{joined_behind};
ghost use Rattle.poly_text.specs.Narrow.{IsNarrow};
ghost use Rattle.poly_text.specs.Flat.{flat_of};

use frac128::Frac;
use itoa::Buffer;
use loop_model::Names;
use monos::Grevlex;
use poly::{Poly, Term};
use std::alloc::{AllocError, Global};

/// The text of the polynomial: its terms in descending order, each a coefficient and powers of the names joined by `*`.
/// A coefficient 1 is left out before a power, and an exponent 1 behind a name.
pub fn print_poly(
    alloc: Global,
    p: &Poly<Frac, Grevlex>,
    names: &Names,
) -> Result<String, AllocError>
    requires { length names.now ≡ p.now.arity }
    ensures text { IfOk result (λ text. string_bytes text
        ≡ text_of.polynomial_text names.now (terms_in p.now)) }
    ensures read_back { IfOk result (λ text. IsSomeAnd (flat_of names.now (string_bytes text))
        (λ q. Same ℚ q (terms_in p.now))) }
{
    prove_eq!(names.len(), p.arity());
    let mut text = String::new(alloc);
    push_terms(&mut text, p.terms(), names)?;
    Ok(text)
}

#[tactic(auto, unfolding(crate::specs::Printed::polynomial_text))]
fn push_terms(text: &mut String, terms: &[Term<Frac>], names: &Names) -> Result<(), AllocError>
    requires { All (λ t. length t.mono ≤ length names.now) terms.now }
    ensures text { OnOk result (string_bytes text.new ≡ string_bytes text.old
        ++ text_of.polynomial_text names.now (terms_of fraction_of terms.now)) }
    ensures narrow { OnOk result (All (λ t. IsNarrow (term_of fraction_of t)) terms.now) }
{
    let Some((first, rest)) = terms.split_first() else {
        return text.push('0');
    };
    push_signed(text, "-", "", first, names)?;
    push_later(text, rest, names)
}

fn push_later(text: &mut String, terms: &[Term<Frac>], names: &Names) -> Result<(), AllocError>
    requires { All (λ t. length t.mono ≤ length names.now) terms.now }
    ensures text { OnOk result (string_bytes text.new ≡ string_bytes text.old
        ++ text_of.later_text names.now (terms_of fraction_of terms.now)) }
    ensures narrow { OnOk result (All (λ t. IsNarrow (term_of fraction_of t)) terms.now) }
{
    let mut rest = terms;
    while let Some((term, later)) = rest.split_first() {
        push_signed(text, " - ", " + ", term, names)?;
        rest = later;
    }
    Ok(())
}

/// The term without its sign, behind `minus` where it is negative, or else behind `plus`.
fn push_signed(
    text: &mut String,
    minus: &str,
    plus: &str,
    term: &Term<Frac>,
    names: &Names,
) -> Result<(), AllocError>
    requires { length term.now.mono ≤ length names.now }
    ensures text { OnOk result (string_bytes text.new ≡ string_bytes text.old
        ++ ((if is_negative (fraction_of term.now.coef).num then minus.now else plus.now)
        ++ text_of.term_text names.now (term_of fraction_of term.now))) }
    ensures narrow { OnOk result (IsNarrow (term_of fraction_of term.now)) }
{
    let sign = if term.coef.num().is_negative() {
        minus
    } else {
        plus
    };
    text.push_str(sign)?;
    push_term(text, term, names)
}

/// The term without its sign.
#[tactic(auto, unfolding(frac128::specs::FracMeaning::fraction_of))]
fn push_term(text: &mut String, term: &Term<Frac>, names: &Names) -> Result<(), AllocError>
    requires { length term.now.mono ≤ length names.now }
    ensures text { OnOk result (string_bytes text.new ≡ string_bytes text.old
        ++ text_of.term_text names.now (term_of fraction_of term.now)) }
    ensures narrow { IsNarrow (term_of fraction_of term.now) }
{
    let list = term.mono.exponents();
    let exponents = list.as_slice();
    if is_bare(term) {
        return push_powers(text, names, exponents, false);
    }
    push_size(text, &term.coef)?;
    push_powers(text, names, exponents, true)
}

/// Whether the coefficient is left out.
fn is_bare(term: &Term<Frac>) -> bool
    ensures { result ≡ text_of.is_bare (term_of fraction_of term.now) }
{
    term.coef.num().unsigned_abs() == 1 && term.coef.den() == 1 && term.mono.degree() != 0
}

/// The powers that aren't 1, with `*` between each two, and before the first where a factor stands there.
fn push_powers(
    text: &mut String,
    names: &Names,
    exponents: &[u16],
    behind_factor: bool,
) -> Result<(), AllocError>
    requires { length exponents.now ≤ length names.now }
    ensures { OnOk result (string_bytes text.new ≡ string_bytes text.old
        ++ joined_behind behind_factor (text_of.powers names.now exponents.now)) }
{
    let mut between = behind_factor;
    for (index, exponent) in exponents.iter().enumerate() {
        if *exponent != 0 {
            push_factor(text, between, names.name(index).as_str(), *exponent)?;
            between = true;
        }
    }
    Ok(())
}

#[tactic(auto, unfolding(crate::specs::Printed::power_text))]
fn push_factor(
    text: &mut String,
    behind_factor: bool,
    name: &str,
    exponent: u16,
) -> Result<(), AllocError>
    ensures { OnOk result (string_bytes text.new ≡ string_bytes text.old
        ++ ((if behind_factor then codes "*" else []) ++ text_of.power_text name.now exponent)) }
{
    if behind_factor {
        text.push('*')?;
    }
    text.push_str(name)?;
    if exponent == 1 {
        return Ok(());
    }
    text.push('^')?;
    push_number(text, u128::from(exponent))
}

/// The number without its sign.
#[tactic(auto, unfolding(crate::specs::Printed::fraction_text))]
fn push_size(text: &mut String, number: &Frac) -> Result<(), AllocError>
    ensures { OnOk result (string_bytes text.new ≡ string_bytes text.old
        ++ text_of.fraction_text (unsigned_abs (fraction_of number.now).num)
        (fraction_of number.now).den) }
{
    push_number(text, number.num().unsigned_abs())?;
    if number.den() == 1 {
        return Ok(());
    }
    text.push('/')?;
    push_number(text, number.den().unsigned_abs())
}

fn push_number(text: &mut String, number: u128) -> Result<(), AllocError>
    ensures { OnOk result (string_bytes text.new ≡ string_bytes text.old ++ decimal number) }
{
    let mut buffer = Buffer::new();
    text.push_str(buffer.format(number))
}
