//! Transitions that are followed from a state.
ghost use Rattle.std.specs.Prelude.{◌≡◌, ◌⊎◌, length, map, All, IfOk, IfSome, IfNone, IsErrOf};
ghost use Rattle.algebra.specs.Fraction.{ℚ};
ghost use Rattle.polynomials.specs.Terms.{value_at};
ghost use Rattle.poly.specs.Seen.{terms_each};
ghost use Rattle.poly.specs.Standing.{IsInVariables};
ghost use Rattle.program_families.specs.Moves.{fractions_in, point_of, IsTransitionOver, LeadsBy, HasOther, HasPast};

use frac128::Frac;
use monos::Grevlex;
use poly::Poly;
use program_model::Transition;
use ring_laws::{ArithmeticError, Ring};
use std::alloc::Global;

/// The values of the polynomials at the point. `Wide` only where the weight of one of them is past.
fn values_at(
    alloc: Global,
    polynomials: &Vec<Poly<Frac, Grevlex>>,
    point: &Vec<Frac>,
) -> Result<Vec<Frac>, ArithmeticError>
    requires { All (IsInVariables (length point.now.items)) polynomials.now.items }
    ensures values { IfOk result (λ vs. fractions_in vs.items
        ≡ map (λ p. value_at ℚ p (fractions_in point.now.items))
        (terms_each polynomials.now.items)) }
    ensures wide { IsErrOf result ArithmeticError.Wide
        → HasPast (terms_each polynomials.now.items) (fractions_in point.now.items) }
{
    let mut values = Vec::new(alloc);
    for polynomial in polynomials {
        values.push(polynomial.value_at(point)?)?;
    }
    Ok(values)
}

/// The state to which the transition leads from this one, with these values of its unknowns. None where one of its zeros isn't 0 there; `Wide` only where the weight of the value of a zero or of an image is past.
pub fn follow(
    alloc: Global,
    transition: &Transition,
    values: &Vec<Frac>,
    state: &Vec<Frac>,
) -> Result<Option<Vec<Frac>>, ArithmeticError>
    requires over { IsTransitionOver (length state.now.items) transition.now }
    requires count { length values.now.items ≡ transition.now.unknowns }
    ensures leads { IfOk result (λ found. IfSome found (λ z.
        LeadsBy transition.now values.now.items state.now.items z.items)) }
    ensures other { IfOk result (λ found. IfNone found
        (HasOther (terms_each transition.now.zeros.items)
        (point_of values.now.items state.now.items))) }
    ensures wide { let x = point_of values.now.items state.now.items in
        IsErrOf result ArithmeticError.Wide
        → HasPast (terms_each transition.now.zeros.items) x
        ⊎ HasPast (terms_each transition.now.images.items) x }
{
    let mut point = Vec::from_slice(alloc, values)?;
    point.extend_from_slice(state)?;
    for value in &values_at(alloc, &transition.zeros, &point)? {
        if !value.is_zero() {
            return Ok(None);
        }
    }
    Ok(Some(values_at(alloc, &transition.images, &point)?))
}
