//! New unknowns of paths, and what has to be 0.

ghost use Rattle.std.specs.Prelude.{◌≡◌, ◌<◌, [], ◌∷◌, ℕ, List, length, All};
ghost use Rattle.algebra.specs.Fraction.{Fraction};
ghost use Rattle.polynomials.specs.Terms.{Terms};
ghost use Rattle.loops.specs.WellFormed.{Uses};
ghost use Rattle.poly.specs.Seen.{arity_of};
ghost use Rattle.poly.specs.Standing.{IsInVariables, StandsFor, AllStandFor};
ghost use Rattle.loop_model.specs.ExpressionView.{expr_of};
ghost use Rattle.loop_model.specs.Operations.{value, operations};
ghost use Rattle.loop_model.specs.Stops.{Forms};
ghost use Rattle.program_model.specs.SyntaxView.{comparison_of};
ghost use Rattle.program_model.specs.Events.{Makes};
ghost use Rattle.program_model.specs.PathEvents.{side, less_one, inverse_events};
ghost use Rattle.program_model.specs.Inverses.{IsInverse};

use crate::Comparison;
use frac128::Frac;
use loop_model::{MapError, difference, expr_poly, product};
use monos::Grevlex;
use poly::Poly;
use std::alloc::Global;

/// The most unknowns of a path.
pub(crate) const MOST_UNKNOWNS: usize = 16;

/// A new unknown that is the inverse of a polynomial, and what has to be 0 then.
#[derive(Drop)]
pub(crate) struct Inverse {
    pub(crate) unknown: Poly<Frac, Grevlex>,
    pub(crate) zero: Poly<Frac, Grevlex>,
}

/// The variable with this index as the inverse of the polynomial, by the operator at this offset.
pub(crate) fn invert(
    alloc: Global,
    at: usize,
    index: usize,
    of: &Poly<Frac, Grevlex>,
) -> Result<Inverse, MapError>
    requires { index < of.now.arity }
    ensures { (h : Terms Fraction) → StandsFor of.now.arity of.now h
        → Makes (inverse_events of.now.arity at index h) (IsInverse of.now.arity at index h)
        result }
{
    if index >= MOST_UNKNOWNS {
        return Err(MapError::Limit { at });
    }
    let unknown = Poly::variable(alloc, Grevlex, of.arity(), index)?;
    let zero = less_one(alloc, at, &unknown, of)?;
    Ok(Inverse { unknown, zero })
}

/// Their product less 1.
fn less_one(
    alloc: Global,
    at: usize,
    left: &Poly<Frac, Grevlex>,
    right: &Poly<Frac, Grevlex>,
) -> Result<Poly<Frac, Grevlex>, MapError>
    requires { IsInVariables left.now.arity right.now }
    ensures { (m : ℕ) (y h : Terms Fraction) → StandsFor m left.now y → StandsFor m right.now h
        → Forms m (operations m (y ∷ h ∷ []) (less_one at)) (value m (y ∷ h ∷ []) (less_one at))
        result }
{
    let product = product(alloc, at, left, right)?;
    let one = Poly::one(alloc, Grevlex, product.arity())?;
    difference(alloc, at, &product, &one)
}

/// The left side less the right side, where the variables have these values.
pub(crate) fn side(
    alloc: Global,
    comparison: &Comparison,
    state: &Vec<Poly<Frac, Grevlex>>,
) -> Result<Poly<Frac, Grevlex>, MapError>
    requires state { All (IsInVariables (arity_of state.now.items)) state.now.items }
    requires left { Uses (λ i. i < length state.now.items) (expr_of comparison.now.left) }
    requires right { Uses (λ i. i < length state.now.items) (expr_of comparison.now.right) }
    ensures { (m : ℕ) (qs : List (Terms Fraction)) → arity_of state.now.items ≡ m
        → AllStandFor m state.now.items qs
        → Forms m (operations m qs (side (comparison_of comparison.now)))
        (value m qs (side (comparison_of comparison.now))) result }
{
    let left = expr_poly(alloc, &comparison.left, state)?;
    let right = expr_poly(alloc, &comparison.right, state)?;
    difference(alloc, comparison.at, &left, &right)
}
