//! Whether polynomials are the closed form of a map.
ghost use Rattle.std.specs.Prelude.{◌≡◌, ◌<◌, ◌≤◌, ◌↔◌, ◌⊎◌, [], length, get_or, All, IfOk, IsErrOf, IsTrue};
ghost use Rattle.algebra.specs.Fraction.{ℚ, fractions, fraction_size};
ghost use Rattle.algebra.specs.Size.{IsPast};
ghost use Rattle.polynomials.specs.Order.{grevlex};
ghost use Rattle.polynomials.specs.Terms.{Same, variables, compose};
ghost use Rattle.polynomials.specs.Weight.{weight, IsPastComposition};
ghost use Rattle.solvable_maps.specs.Iterations.{width};
ghost use Rattle.solvable_maps.specs.Expo.{with_normal_keys, next_images, zero_images};
ghost use Rattle.corollaries.specs.FormIdentities.{IsRightForm};
ghost use Rattle.rounds.specs.Form.{inverse_form, inverse_of_form};
ghost use Rattle.monos.specs.Variables.{most_variables};
ghost use Rattle.poly.specs.Seen.{terms_in, terms_each};
ghost use Rattle.poly.specs.Standing.{IsInVariables};
ghost use Rattle.coprime_base.specs.Sizes.{sizes};
ghost use Rattle.expo.specs.Bases.{IsCoprimeBase};
ghost use Rattle.cert_checker.specs.Passing.{form_with, FitsForm, IsExpoWhereNormal, Passes, PassesAt, IsPastAt, IsPastForm};

use crate::base::is_base;
use expo::Expo;
use frac128::{Frac, Whole};
use monos::Grevlex;
use poly::Poly;
use ring_laws::ArithmeticError;
use std::alloc::Global;

/// The polynomial as one over this base, where it is normal.
fn normal_in(
    alloc: Global,
    base: &Vec<Whole>,
    p: &Poly<Frac, Grevlex>,
) -> Result<Option<Expo>, ArithmeticError>
    requires base { IsCoprimeBase (sizes base.now.items) }
    requires front { width (length (sizes base.now.items)) 0 ≤ p.now.arity }
    ensures normal { IfOk result (λ found. IsExpoWhereNormal (sizes base.now.items) p.now found) }
    ensures wide { IsErrOf result ArithmeticError.Wide
        → IsPast (weight fraction_size (terms_in p.now)) }
{
    let normal = Expo::normal(alloc, base, p)?;
    if *normal.body() == *p {
        return Ok(Some(normal));
    }
    Ok(None)
}

/// Whether it is the variable at this place where n is 0.
fn starts(alloc: Global, e: &Expo, place: usize) -> Result<bool, ArithmeticError>
    requires few { e.now.vars ≤ most_variables }
    requires place { place < e.now.vars }
    ensures holds { IfOk result (λ holds. IsTrue holds ↔
        Same ℚ (compose ℚ e.now.vars (terms_in e.now.body)
        (zero_images (length (sizes e.now.base.items)) e.now.vars))
        (get_or (variables ℚ e.now.vars) place [])) }
    ensures wide { IsErrOf result ArithmeticError.Wide → IsPastComposition fractions
        (terms_in e.now.body) (zero_images (length (sizes e.now.base.items)) e.now.vars) }
{
    let start = e.at_zero(alloc)?;
    let variable = Poly::variable(alloc, Grevlex, e.vars(), place)?;
    Ok(start == variable)
}

/// Whether the image with the form's polynomials for the variables, made normal, is the polynomial at n + 1.
fn goes_on(
    alloc: Global,
    e: &Expo,
    polys: &Vec<Poly<Frac, Grevlex>>,
    image: &Poly<Frac, Grevlex>,
) -> Result<bool, ArithmeticError>
    requires some { 0 < image.now.arity }
    requires vars { e.now.vars ≡ image.now.arity }
    requires few { width (length (sizes e.now.base.items)) image.now.arity ≤ most_variables }
    requires count { length polys.now.items ≡ image.now.arity }
    requires polys { let r = length (sizes e.now.base.items) in
        All (IsInVariables (width r image.now.arity)) polys.now.items }
    ensures holds { let r = length (sizes e.now.base.items) in let m = image.now.arity in
        IfOk result (λ holds. IsTrue holds ↔ Same ℚ
        (with_normal_keys r (compose ℚ (width r m) (terms_in image.now)
        (terms_each polys.now.items)))
        (compose ℚ (width r m) (terms_in e.now.body) (next_images (sizes e.now.base.items) m))) }
    ensures wide { IsErrOf result ArithmeticError.Wide
        → IsPastComposition fractions (terms_in image.now) (terms_each polys.now.items)
        ⊎ IsPastComposition fractions (terms_in e.now.body)
        (next_images (sizes e.now.base.items) image.now.arity) }
{
    let moved = image.compose(alloc, polys)?;
    let normal = Expo::normal(alloc, e.base(), &moved)?;
    let next = e.shift_n(alloc)?;
    Ok(*normal.body() == *next.body())
}

/// The polynomial backward, where it passes as that of the variable at this place.
fn inverse_form_of(
    alloc: Global,
    base: &Vec<Whole>,
    polys: &Vec<Poly<Frac, Grevlex>>,
    images: &Vec<Poly<Frac, Grevlex>>,
    place: usize,
) -> Result<Option<Poly<Frac, Grevlex>>, ArithmeticError>
    requires fits { FitsForm (length images.now.items) base.now polys.now images.now }
    requires base { IsCoprimeBase (sizes base.now.items) }
    requires place { place < length images.now.items }
    ensures passes { let r = length (sizes base.now.items) in IfOk result (λ found. Passes
        (PassesAt (sizes base.now.items) (terms_each images.now.items) (terms_each polys.now.items)
        place)
        (λ q. (terms_in q ≡ inverse_form grevlex r (get_or (terms_each polys.now.items) place []))
        × IsInVariables (width r (length images.now.items)) q) found) }
    ensures wide { IsErrOf result ArithmeticError.Wide → IsPastAt (sizes base.now.items)
        (terms_each images.now.items) (terms_each polys.now.items) place }
{
    let Some(e) = normal_in(alloc, base, &polys[place])? else {
        return Ok(None);
    };
    let begins = starts(alloc, &e, place)?;
    if !begins {
        return Ok(None);
    }
    let follows = goes_on(alloc, &e, polys, &images[place])?;
    if !follows {
        return Ok(None);
    }
    Ok(Some(e.inverse_form(alloc)?.into_body()))
}

/// The polynomials backward, where they are the closed form over this base of the map with these images, by
/// identities alone: the base ascends, its numbers are above 1 and pairwise coprime; no monomial has s s or both u and v
/// of one number; at 0 they are the variables; and at n + 1 the images of what they are at n. `Wide` only where the weight
/// of one of them or of a composition is past.
pub fn closed_form(
    alloc: Global,
    images: &Vec<Poly<Frac, Grevlex>>,
    base: &Vec<Whole>,
    polys: &Vec<Poly<Frac, Grevlex>>,
) -> Result<Option<Vec<Poly<Frac, Grevlex>>>, ArithmeticError>
    requires fits { FitsForm (length images.now.items) base.now polys.now images.now }
    ensures passes { let f = form_with base.now polys.now in IfOk result (λ found. Passes
        (IsRightForm (terms_each images.now.items) (length images.now.items) f)
        (λ back. (terms_each back.items ≡ inverse_of_form f)
        × All (IsInVariables (width (length f.base) (length images.now.items))) back.items
        × IsCoprimeBase f.base) found) }
    ensures wide { IsErrOf result ArithmeticError.Wide → IsPastForm (terms_each images.now.items)
        (length images.now.items) (form_with base.now polys.now) }
{
    let proper = is_base(base);
    if !proper {
        return Ok(None);
    }
    let mut found = Vec::new(alloc);
    for place in 0..polys.len() {
        let next = inverse_form_of(alloc, base, polys, images, place)?;
        match next {
            Some(back) => found.push(back)?,
            None => return Ok(None),
        }
    }
    Ok(Some(found))
}
