//! S-polynomials as sums of products below the least common multiple of the leads.
ghost use Rattle.std.specs.Prelude.{◌≡◌, ◌≢◌, ◌<◌, ◌≤◌, ◌↔◌, [], length, All, IfOk, IsErrOf, IsTrue, ◌⊎◌};
ghost use Rattle.algebra.specs.Fraction.{ℚ, fractions, rationals};
ghost use Rattle.polynomials.specs.Terms.{times};
ghost use Rattle.polynomials.specs.Weight.{IsPastProduct};
ghost use Rattle.machines.specs.Past.{IsPastPair};
ghost use Rattle.monos.specs.Variables.{most_variables};
ghost use Rattle.poly.specs.Seen.{terms_in, terms_each, IsImage};
ghost use Rattle.corollaries.specs.Representation.{IsLeadBelow, AreBelow, IsLcmRepresentation};
ghost use Rattle.task_lists.specs.Past.{IsPastCombination};

use crate::combination::combination;
use crate::s_polynomial::{multiple_of, s_polynomial};
use frac128::Frac;
use monos::{Mono, Order};
use poly::Poly;
use ring_laws::ArithmeticError;
use std::alloc::Global;

/// Whether the lead of the product is below the monomial.
fn is_below<O: Order>(
    alloc: Global,
    cofactor: &Poly<Frac, O>,
    element: &Poly<Frac, O>,
    multiple: &Mono,
) -> Result<bool, ArithmeticError>
    requires order { cofactor.now.order ≡ element.now.order }
    requires arity { cofactor.now.arity ≡ element.now.arity }
    requires long { length multiple.now ≡ element.now.arity }
    ensures below { IfOk result (λ below. IsTrue below ↔ IsLeadBelow rationals
        (O.order element.now.order) multiple.now
        (times ℚ (terms_in cofactor.now) (terms_in element.now))) }
    ensures wide { IsErrOf result ArithmeticError.Wide
        → IsPastProduct fractions (terms_in cofactor.now) (terms_in element.now) }
{
    let product = cofactor.mul(alloc, element)?;
    match product.lead() {
        Some(lead) => Ok(product.order().compare(&lead.mono, multiple).is_lt()),
        None => Ok(true),
    }
}

/// Whether the leads of the products of the cofactors with the elements of the list, place by place, are all
/// below the monomial.
fn are_below<O: Order>(
    alloc: Global,
    order: O,
    arity: usize,
    cofactors: &[Poly<Frac, O>],
    list: &[Poly<Frac, O>],
    multiple: &Mono,
) -> Result<bool, ArithmeticError>
    requires count { length cofactors.now ≡ length list.now }
    requires cofactors { All (IsImage order arity) cofactors.now }
    requires list { All (IsImage order arity) list.now }
    requires long { length multiple.now ≡ arity }
    ensures below { IfOk result (λ below. IsTrue below ↔ AreBelow rationals (O.order order)
        multiple.now (terms_each cofactors.now) (terms_each list.now)) }
    ensures wide { IsErrOf result ArithmeticError.Wide
        → IsPastCombination (terms_each cofactors.now) (terms_each list.now) }
{
    for (i, cofactor) in cofactors.iter().enumerate() {
        let below = is_below(alloc, cofactor, &list[i], multiple)?;
        if !below {
            return Ok(false);
        }
    }
    Ok(true)
}

/// Whether the S-polynomial of two elements of the list is the sum of the products of the cofactors with the
/// elements, place by place, and each of these is below the least common multiple of the two leads. `Wide`
/// only where the weight of the S-polynomial, of a product or of their sum is past.
pub fn is_lcm_representation<O: Order>(
    alloc: Global,
    order: O,
    arity: usize,
    list: &[Poly<Frac, O>],
    left: usize,
    right: usize,
    cofactors: &[Poly<Frac, O>],
) -> Result<bool, ArithmeticError>
    requires few { arity ≤ most_variables }
    requires left { left < length list.now }
    requires right { right < length list.now }
    requires count { length cofactors.now ≡ length list.now }
    requires cofactors { All (IsImage order arity) cofactors.now }
    requires list { All (IsImage order arity) list.now }
    requires nonzero { All (λ p. terms_in p ≢ []) list.now }
    ensures holds { IfOk result (λ holds. IsTrue holds ↔ IsLcmRepresentation rationals
        (O.order order) (terms_each list.now) (left, right) (terms_each cofactors.now)) }
    ensures wide { IsErrOf result ArithmeticError.Wide
        → IsPastPair fractions rationals (terms_each list.now) (left, right)
        ⊎ IsPastCombination (terms_each cofactors.now) (terms_each list.now) }
{
    let (f, g) = (&list[left], &list[right]);
    let multiple = multiple_of(alloc, f, g)?;
    let pair = s_polynomial(alloc, f, g, &multiple)?;
    let sum = combination(alloc, order, arity, cofactors, list)?;
    if pair == sum {
        return are_below(alloc, order, arity, cofactors, list, &multiple);
    }
    Ok(false)
}
