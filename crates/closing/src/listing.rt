//! The list of a certificate: the polynomials that were closed, and those of the closed list that aren't among them.
ghost use Rattle.std.specs.Prelude.{◌≡◌, ◌≤◌, ◌<◌, ◌+◌, ℕ, Some, [], length, replicate, slice_get, All, IfOk, IfSome, IsNone, List};
ghost use Rattle.algebra.specs.In.{In};
ghost use Rattle.monos.specs.Variables.{most_variables};
ghost use Rattle.poly.specs.Seen.{terms_in, terms_each};
ghost use Rattle.loop_model.specs.FracPoly.{FracPoly};
ghost use Rattle.ideal_ops.specs.Calls.{AreOver};
ghost use Rattle.closures.specs.Certified.{IsListOf, StandAt, placed};
ghost use Rattle.closing.specs.Proving.{FitsElements};

use frac128::Frac;
use monos::Grevlex;
use poly::Poly;
use std::alloc::{AllocError, Global};

/// The list, and for each element of the closed list its place in it.
#[derive(Drop)]
pub(crate) struct Elements {
    pub(crate) list: Vec<Poly<Frac, Grevlex>>,
    pub(crate) places: Vec<usize>,
}

/// The polynomials, and behind them those of the closed list that aren't among them.
pub(crate) fn elements_of(
    alloc: Global,
    polynomials: &[Poly<Frac, Grevlex>],
    closure: &[Poly<Frac, Grevlex>],
) -> Result<Elements, AllocError>
    requires alike { All (λ g. AreOver g.arity polynomials.now) closure.now }
    ensures list { IfOk result (λ e. IsListOf (terms_each polynomials.now)
        (terms_each closure.now) (terms_each e.list.items)) }
    ensures stand { IfOk result (λ e.
        StandAt (terms_each e.list.items) (terms_each closure.now) e.places.items) }
    ensures count { IfOk result (λ e. length e.places.items ≡ length closure.now) }
    ensures few { IfOk result (λ e.
        length e.list.items ≤ length polynomials.now + length closure.now) }
    ensures over { (m : ℕ) → AreOver m polynomials.now → AreOver m closure.now
        → IfOk result (λ e. AreOver m e.list.items) }
{
    let mut list = copies(alloc, polynomials)?;
    let mut places = Vec::new(alloc);
    for element in closure {
        match place_in(polynomials, element) {
            Some(place) => places.push(place)?,
            None => {
                places.push(list.len())?;
                list.push(element.copy(alloc)?)?;
            }
        }
    }
    Ok(Elements { list, places })
}

/// The same polynomials.
fn copies(
    alloc: Global,
    polynomials: &[Poly<Frac, Grevlex>],
) -> Result<Vec<Poly<Frac, Grevlex>>, AllocError>
    ensures terms { IfOk result (λ list. terms_each list.items ≡ terms_each polynomials.now) }
    ensures over { (m : ℕ) → AreOver m polynomials.now
        → IfOk result (λ list. AreOver m list.items) }
{
    let mut list = Vec::new(alloc);
    for polynomial in polynomials {
        list.push(polynomial.copy(alloc)?)?;
    }
    Ok(list)
}

/// A place where the element stands among the polynomials, if there is one.
fn place_in(polynomials: &[Poly<Frac, Grevlex>], element: &Poly<Frac, Grevlex>) -> Option<usize>
    requires alike { AreOver element.now.arity polynomials.now }
    ensures some { IfSome result (λ place.
        slice_get (terms_each polynomials.now) place ≡ Some (terms_in element.now)) }
    ensures none { IsNone result → ¬ (In (terms_in element.now) (terms_each polynomials.now)) }
{
    for place in 0..polynomials.len() {
        if polynomials[place] == *element {
            return Some(place);
        }
    }
    None
}

/// The cofactors by the closed list, each at the place of its element in a row of the list's length.
pub(crate) fn placed_row(
    alloc: Global,
    elements: &Elements,
    arity: usize,
    cofactors: &[Poly<Frac, Grevlex>],
) -> Result<Vec<Poly<Frac, Grevlex>>, AllocError>
    requires arity { arity ≤ most_variables }
    requires over { AreOver arity cofactors.now }
    requires count { length cofactors.now ≡ length elements.now.places.items }
    requires within { All (λ place. place < length elements.now.list.items)
        elements.now.places.items }
    ensures over { IfOk result (λ row. AreOver arity row.items) }
    ensures width { IfOk result (λ row. length row.items ≡ length elements.now.list.items) }
    ensures placed { (m : ℕ) (closure : List FracPoly) → FitsElements m closure elements.now
        → IfOk result (λ row. terms_each row.items ≡ placed elements.now.places.items
        (terms_each cofactors.now) (replicate (length elements.now.list.items) [])) }
{
    let mut row = zeros(alloc, arity, elements.list.len())?;
    for index in 0..cofactors.len() {
        row[elements.places[index]] = cofactors[index].copy(alloc)?;
    }
    Ok(row)
}

/// So many polynomials that are 0.
fn zeros(alloc: Global, arity: usize, count: usize) -> Result<Vec<Poly<Frac, Grevlex>>, AllocError>
    requires { arity ≤ most_variables }
    ensures terms { IfOk result (λ row. terms_each row.items ≡ replicate count []) }
    ensures over { IfOk result (λ row. AreOver arity row.items) }
{
    let mut row = Vec::with_capacity(alloc, count)?;
    for _ in 0..count {
        row.push(Poly::zero(alloc, Grevlex, arity))?;
    }
    Ok(row)
}
