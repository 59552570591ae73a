//! Polynomials with one variable more, which stands in none of their terms.

ghost use Rattle.std.specs.Prelude.{◌≡◌, ◌≤◌, ◌<◌, ◌+◌, length, map, All, IfOk};
ghost use Rattle.std.specs.List.{insert, AllZip};
ghost use Rattle.polynomials.specs.Terms.{retold};
ghost use Rattle.frac128.specs.FracMeaning.{fraction_of};
ghost use Rattle.monos.specs.Variables.{most_variables};
ghost use Rattle.poly.specs.Seen.{terms_each};
ghost use Rattle.poly.specs.View.{terms_of};
ghost use Rattle.program_model.specs.Widening.{widen, IsWidened};

use frac128::Frac;
use monos::{Grevlex, Mono};
use poly::{Poly, Term};
use std::alloc::{AllocError, Global};

/// The monomial with the exponent 0 at this place.
fn widened_mono(alloc: Global, at: usize, mono: &Mono) -> Result<Mono, AllocError>
    requires room { length mono.now < most_variables }
    requires at { at ≤ length mono.now }
    ensures ok { IfOk result (λ m. m ≡ widen at mono.now) }
{
    let list = mono.exponents();
    let mut exponents = Vec::from_slice(alloc, list.as_slice())?;
    exponents.insert(at, 0)?;
    Mono::new(alloc, &exponents)
}

fn widened_terms(
    alloc: Global,
    at: usize,
    terms: &[Term<Frac>],
) -> Result<Vec<Term<Frac>>, AllocError>
    requires room { All (λ t. length t.mono < most_variables) terms.now }
    requires at { All (λ t. at ≤ length t.mono) terms.now }
    ensures ok { IfOk result (λ out. terms_of fraction_of out.items
        ≡ retold (widen at) (terms_of fraction_of terms.now)) }
{
    let mut out = Vec::new(alloc);
    for term in terms {
        let mono = widened_mono(alloc, at, &term.mono)?;
        let coef = term.coef;
        out.push(Term { mono, coef })?;
    }
    Ok(out)
}

/// The polynomial with one variable more at this place.
fn widened(
    alloc: Global,
    at: usize,
    poly: &Poly<Frac, Grevlex>,
) -> Result<Poly<Frac, Grevlex>, AllocError>
    requires room { poly.now.arity < most_variables }
    requires at { at ≤ poly.now.arity }
    ensures ok { IfOk result (IsWidened at poly.now) }
{
    let terms = widened_terms(alloc, at, poly.terms())?;
    Poly::from_distinct(alloc, Grevlex, poly.arity() + 1, terms)
}

/// Each with one variable more at this place.
pub(crate) fn widened_all(
    alloc: Global,
    at: usize,
    polys: &Vec<Poly<Frac, Grevlex>>,
) -> Result<Vec<Poly<Frac, Grevlex>>, AllocError>
    requires room { All (λ p. p.arity < most_variables) polys.now.items }
    requires at { All (λ p. at ≤ p.arity) polys.now.items }
    ensures ok { IfOk result (λ out. AllZip (IsWidened at) polys.now.items out.items) }
{
    let mut out = Vec::new(alloc);
    for poly in polys {
        out.push(widened(alloc, at, poly)?)?;
    }
    Ok(out)
}

/// Each of them again.
pub(crate) fn copies(
    alloc: Global,
    polys: &Vec<Poly<Frac, Grevlex>>,
) -> Result<Vec<Poly<Frac, Grevlex>>, AllocError>
    ensures terms { IfOk result (λ out. terms_each out.items ≡ terms_each polys.now.items) }
    ensures arities { IfOk result (λ out. map (λ p. p.arity) out.items
        ≡ map (λ p. p.arity) polys.now.items) }
{
    let mut out = Vec::new(alloc);
    for poly in polys {
        out.push(poly.copy(alloc)?)?;
    }
    Ok(out)
}
