//! Combinations of lists of polynomials.
ghost use Rattle.std.specs.Prelude.{◌≡◌, ◌≤◌, ◌↔◌, length, All, IfOk, IsErrOf, IsTrue};
ghost use Rattle.algebra.specs.Fraction.{ℚ};
ghost use Rattle.polynomials.specs.Terms.{Same, combination};
ghost use Rattle.monos.specs.Variables.{most_variables};
ghost use Rattle.poly.specs.Seen.{terms_in, terms_each, Is, IsImage};
ghost use Rattle.task_lists.specs.Past.{IsPastCombination};

use frac128::Frac;
use monos::Order;
use poly::Poly;
use ring_laws::ArithmeticError;
use std::alloc::Global;

/// The sum of the products of the cofactors with the elements of the list, place by place.
pub(crate) fn combination<O: Order>(
    alloc: Global,
    order: O,
    arity: usize,
    cofactors: &[Poly<Frac, O>],
    list: &[Poly<Frac, O>],
) -> Result<Poly<Frac, O>, ArithmeticError>
    requires few { arity ≤ most_variables }
    requires count { length cofactors.now ≡ length list.now }
    requires cofactors { All (IsImage order arity) cofactors.now }
    requires list { All (IsImage order arity) list.now }
    ensures sum { IfOk result (Is order arity
        (combination ℚ (terms_each cofactors.now) (terms_each list.now))) }
    ensures wide { IsErrOf result ArithmeticError.Wide
        → IsPastCombination (terms_each cofactors.now) (terms_each list.now) }
{
    let mut sum = Poly::zero(alloc, order, arity);
    for (i, cofactor) in cofactors.iter().enumerate() {
        sum = sum.add(alloc, &cofactor.mul(alloc, &list[i])?)?;
    }
    Ok(sum)
}

/// Whether the polynomial is the sum of the products of the cofactors with the elements of the list, place
/// by place. `Wide` only where the weight of a product or of their sum is past.
pub fn is_combination<O: Order>(
    alloc: Global,
    p: &Poly<Frac, O>,
    cofactors: &[Poly<Frac, O>],
    list: &[Poly<Frac, O>],
) -> Result<bool, ArithmeticError>
    requires count { length cofactors.now ≡ length list.now }
    requires cofactors { All (IsImage p.now.order p.now.arity) cofactors.now }
    requires list { All (IsImage p.now.order p.now.arity) list.now }
    ensures holds { IfOk result (λ holds. IsTrue holds ↔
        Same ℚ (terms_in p.now) (combination ℚ (terms_each cofactors.now) (terms_each list.now))) }
    ensures wide { IsErrOf result ArithmeticError.Wide
        → IsPastCombination (terms_each cofactors.now) (terms_each list.now) }
{
    let sum = combination(alloc, p.order(), p.arity(), cofactors, list)?;
    Ok(*p == sum)
}
