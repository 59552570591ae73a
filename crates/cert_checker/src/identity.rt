//! One identity of a certificate.
ghost use Rattle.std.specs.Prelude.{◌≡◌, ◌<◌, ◌↔◌, ◌⊎◌, [], length, All, IfOk, IsErrOf, IsTrue};
ghost use Rattle.algebra.specs.Fraction.{ℚ, fractions};
ghost use Rattle.polynomials.specs.Terms.{Same, combination, compose};
ghost use Rattle.polynomials.specs.Weight.{IsPastComposition};
ghost use Rattle.poly.specs.Seen.{terms_in};
ghost use Rattle.poly.specs.Standing.{IsInVariables};
ghost use Rattle.cert_form.specs.Cert.{HaveArity, IsSquare, polys_in};
ghost use Rattle.task_lists.specs.Past.{IsPastCombination};

use frac128::Frac;
use monos::Grevlex;
use poly::Poly;
use ring_laws::ArithmeticError;
use std::alloc::Global;
use task_lists::is_combination;

/// The identities of a branch, counted from 0: each element, with these images for the variables, is the combination of its row of cofactors
/// with the elements.
#[derive(Drop)]
pub(crate) struct Step<'a> {
    pub(crate) branch: usize,
    pub(crate) basis: &'a Vec<Poly<Frac, Grevlex>>,
    pub(crate) images: &'a Vec<Poly<Frac, Grevlex>>,
    pub(crate) rows: &'a Vec<Vec<Poly<Frac, Grevlex>>>,
    ghost some: { 0 < length images.now.items },
    ghost over: { All (IsInVariables (length images.now.items)) images.now.items },
    ghost arity: { HaveArity (length images.now.items) basis.now },
    ghost square: { IsSquare (length images.now.items) (length basis.now.items) rows.now },
}

/// Whether the element composed with the start map is 0.
pub(crate) fn start_holds(
    alloc: Global,
    element: &Poly<Frac, Grevlex>,
    images: &Vec<Poly<Frac, Grevlex>>,
) -> Result<bool, ArithmeticError>
    requires some { 0 < length images.now.items }
    requires arity { element.now.arity ≡ length images.now.items }
    requires images { All (IsInVariables (length images.now.items)) images.now.items }
    ensures holds { let m = length images.now.items in IfOk result (λ holds. IsTrue holds ↔
        Same ℚ (compose ℚ m (terms_in element.now) (polys_in images.now)) []) }
    ensures wide { IsErrOf result ArithmeticError.Wide →
        IsPastComposition fractions (terms_in element.now) (polys_in images.now) }
{
    Ok(element.compose(alloc, images)?.is_zero())
}

/// Whether the element composed with a branch's map is the combination of its cofactors with the basis.
pub(crate) fn step_holds(
    alloc: Global,
    element: &Poly<Frac, Grevlex>,
    images: &Vec<Poly<Frac, Grevlex>>,
    cofactors: &Vec<Poly<Frac, Grevlex>>,
    basis: &Vec<Poly<Frac, Grevlex>>,
) -> Result<bool, ArithmeticError>
    requires some { 0 < length images.now.items }
    requires arity { element.now.arity ≡ length images.now.items }
    requires images { All (IsInVariables (length images.now.items)) images.now.items }
    requires count { length cofactors.now.items ≡ length basis.now.items }
    requires cofactors { HaveArity (length images.now.items) cofactors.now }
    requires basis { HaveArity (length images.now.items) basis.now }
    ensures holds { let m = length images.now.items in IfOk result (λ holds. IsTrue holds ↔
        Same ℚ (compose ℚ m (terms_in element.now) (polys_in images.now))
        (combination ℚ (polys_in cofactors.now) (polys_in basis.now))) }
    ensures wide { IsErrOf result ArithmeticError.Wide →
        IsPastComposition fractions (terms_in element.now) (polys_in images.now)
        ⊎ IsPastCombination (polys_in cofactors.now) (polys_in basis.now) }
{
    let composed = element.compose(alloc, images)?;
    is_combination(alloc, &composed, cofactors, basis)
}
