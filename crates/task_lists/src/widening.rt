//! Polynomials with copies of variables behind their first ones.
ghost use Rattle.std.specs.Prelude.{◌≡◌, ◌≤◌, ◌+◌, length, All, IfOk};
ghost use Rattle.polynomials.specs.Terms.{retold};
ghost use Rattle.frac128.specs.FracMeaning.{fraction_of};
ghost use Rattle.monos.specs.Variables.{most_variables};
ghost use Rattle.poly.specs.Seen.{terms_in};
ghost use Rattle.poly.specs.Standing.{StandsFor};
ghost use Rattle.poly.specs.View.{terms_of};
ghost use Rattle.rounds.specs.Form.{with_room_for};
ghost use Rattle.task_lists.specs.Shapes.{width_of, wider};

use crate::shape::Shape;
use frac128::Frac;
use monos::{Grevlex, Mono};
use poly::{Poly, Term};
use std::alloc::{AllocError, Global};

/// The polynomial, in the variables in front and those behind the copies, with the copies, of which it has none.
pub(crate) fn widened(
    alloc: Global,
    shape: Shape,
    p: &Poly<Frac, Grevlex>,
) -> Result<Poly<Frac, Grevlex>, AllocError>
    requires arity { p.now.arity ≡ shape.front + shape.variables }
    requires few { width_of shape ≤ most_variables }
    ensures widened { IfOk result (λ q. StandsFor (width_of shape) q
        (with_room_for shape.front shape.copies shape.variables (terms_in p.now))) }
{
    let terms = wider_terms(alloc, shape, p.terms())?;
    Poly::from_distinct(alloc, Grevlex, shape.width(), terms)
}

/// The terms with the exponents of the copies.
fn wider_terms(
    alloc: Global,
    shape: Shape,
    terms: &[Term<Frac>],
) -> Result<Vec<Term<Frac>>, AllocError>
    requires long { All (λ t. shape.front ≤ length t.mono) terms.now }
    requires few { All (λ t. shape.copies + length t.mono ≤ most_variables) terms.now }
    ensures terms { IfOk result (λ out. terms_of fraction_of out.items
        ≡ retold (wider shape.front shape.copies) (terms_of fraction_of terms.now)) }
{
    let mut out = Vec::with_capacity(alloc, terms.len())?;
    for term in terms {
        let mono = wider_mono(alloc, shape, &term.mono)?;
        let coef = term.coef;
        out.push(Term { mono, coef })?;
    }
    Ok(out)
}

/// The monomial with the exponents of the copies.
fn wider_mono(alloc: Global, shape: Shape, mono: &Mono) -> Result<Mono, AllocError>
    requires long { shape.front ≤ length mono.now }
    requires few { shape.copies + length mono.now ≤ most_variables }
    ensures wider { IfOk result (λ found. found ≡ wider shape.front shape.copies mono.now) }
{
    let list = mono.exponents();
    let (front, behind) = list.as_slice().split_at(shape.front);
    let mut exponents = front.to_vec(alloc)?;
    exponents.resize(shape.front + shape.copies, 0)?;
    exponents.extend_from_slice(behind)?;
    Mono::new(alloc, &exponents)
}
