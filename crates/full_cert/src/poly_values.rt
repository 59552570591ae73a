//! Polynomials as lists of terms, written.
ghost use Rattle.std.specs.Prelude.{◌≡◌, ◌≤◌, All, IfOk};
ghost use Rattle.serde_json.specs.Data.{string};
ghost use Rattle.serde_json.specs.View.{view};
ghost use Rattle.frac128.specs.FracMeaning.{fraction_of};
ghost use Rattle.poly_text.specs.Text.{number_text};
ghost use Rattle.poly.specs.Seen.{terms_in};
ghost use Rattle.poly.specs.View.{term_of, terms_of};
ghost use Rattle.poly_text.specs.Flat.{most_power};
ghost use Rattle.poly_text.specs.Narrow.{IsNarrow};
ghost use Rattle.cert_form.specs.Written.{IsWritten};
ghost use Rattle.full_cert.specs.RawWritten.{exponent_data, exponents_data, term_data, raw_data};

use frac128::Frac;
use monos::Order;
use poly::{Poly, Term};
use poly_text::push_number;
use serde_json::Value;
use std::alloc::{AllocError, Global};

fn number_value(alloc: Global, number: &Frac) -> Result<Value, AllocError>
    ensures { IfOk result (λ v. view v ≡ string (number_text (fraction_of number.now))) }
{
    let mut text = String::new(alloc);
    push_number(&mut text, number)?;
    Ok(Value::from(text))
}

fn exponent_value(exponent: u16) -> Value
    ensures value { view result ≡ exponent_data exponent }
    ensures narrow { exponent ≤ most_power }
{
    Value::from(u64::from(exponent))
}

fn exponents_value(alloc: Global, exponents: &[u16]) -> Result<Value, AllocError>
    ensures { IfOk result (IsWritten exponents_data (All (λ n. n ≤ most_power)) exponents.now) }
{
    let mut values = Vec::new(alloc);
    for exponent in exponents {
        values.push(exponent_value(*exponent))?;
    }
    Ok(Value::from(values))
}

#[tactic(auto, unfolding(frac128::specs::FracMeaning::fraction_of))]
fn term_value(alloc: Global, term: &Term<Frac>) -> Result<Value, AllocError>
    ensures value { IfOk result (λ v. view v ≡ term_data (term_of fraction_of term.now)) }
    ensures narrow { IfOk result (λ v. IsNarrow (term_of fraction_of term.now)) }
{
    let number = number_value(alloc, &term.coef)?;
    let exponents = exponents_value(alloc, term.mono.exponents().as_slice())?;
    let mut parts = Vec::new(alloc);
    parts.push(number)?;
    parts.push(exponents)?;
    Ok(Value::from(parts))
}

fn terms_value(alloc: Global, terms: &[Term<Frac>]) -> Result<Value, AllocError>
    ensures { IfOk result (IsWritten raw_data (All IsNarrow) (terms_of fraction_of terms.now)) }
{
    let mut values = Vec::new(alloc);
    for term in terms {
        values.push(term_value(alloc, term)?)?;
    }
    Ok(Value::from(values))
}

/// The polynomial as a list of its terms in descending order, each a list of the text of its number and
/// its exponents.
pub(crate) fn raw_value<O: Order>(alloc: Global, p: &Poly<Frac, O>) -> Result<Value, AllocError>
    ensures { IfOk result (IsWritten raw_data (All IsNarrow) (terms_in p.now)) }
{
    terms_value(alloc, p.terms())
}
