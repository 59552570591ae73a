//! What stands for n, s, u, v and the variables at n + 1 and at 0.
ghost use Rattle.std.specs.Prelude.{◌≡◌, ◌≢◌, ◌≤◌, ◌<◌, ◌+◌, ◌++◌, pos, All, drop, length, unsigned_abs, IfOk, OnOk};
ghost use Rattle.algebra.specs.Fraction.{ℚ, whole};
ghost use Rattle.polynomials.specs.Terms.{variables};
ghost use Rattle.exponentials.specs.Base.{Coprime};
ghost use Rattle.frac128.specs.FracMeaning.{fraction_of};
ghost use Rattle.poly.specs.Seen.{terms_in, terms_each};
ghost use Rattle.coprime_base.specs.Sizes.{sizes};
ghost use Rattle.solvable_maps.specs.Expo.{next_images, zero_images};
ghost use Rattle.solvable_maps.specs.Iterations.{width};
ghost use Rattle.monos.specs.Variables.{most_variables};
ghost use Rattle.expo.specs.Bases.{IsCoprimeBase};
ghost use Rattle.expo.specs.Images.{IsMultiple, LikeIn, more, multiples, factor, factors_of};

use crate::widths::width;
use frac128::{Frac, Whole};
use monos::{Grevlex, Mono};
use poly::{Poly, Term};
use ring_laws::Ring;
use std::alloc::{AllocError, Global};

/// n + 1, -s, b_j u_j, v_j / b_j, and the variables.
pub(crate) fn images_at_next(
    alloc: Global,
    base: &[Whole],
    vars: usize,
) -> Result<Vec<Poly<Frac, Grevlex>>, AllocError>
    requires base { IsCoprimeBase (sizes base.now) }
    requires few { width (length (sizes base.now)) vars ≤ most_variables }
    ensures images { let b = sizes base.now in
        IfOk result (λ images. LikeIn (next_images b vars) (terms_each images.items)) }
    ensures arities { let w = width (length (sizes base.now)) vars in
        IfOk result (λ images. All (λ p. p.arity ≡ w) images.items) }
{
    let arity = width(base.len(), vars);
    let mut images = Vec::with_capacity(alloc, arity)?;
    images.push(one_more(alloc, arity)?)?;
    images.push(multiple(alloc, arity, 1, Frac::one().neg())?)?;
    push_multiples(alloc, &mut images, arity, 2, base, false)?;
    push_multiples(alloc, &mut images, arity, 2 + base.len(), base, true)?;
    push_variables(alloc, &mut images, arity, width(base.len(), 0))?;
    Ok(images)
}

/// 0 for n, 1 for s, the u and the v, and the variables.
pub(crate) fn images_at_zero(
    alloc: Global,
    count: usize,
    vars: usize,
) -> Result<Vec<Poly<Frac, Grevlex>>, AllocError>
    requires few { width count vars ≤ most_variables }
    ensures images { IfOk result (λ images. terms_each images.items ≡ zero_images count vars) }
    ensures arities { IfOk result (λ images. All (λ p. p.arity ≡ vars) images.items) }
{
    let mut images = Vec::with_capacity(alloc, width(count, vars))?;
    images.push(Poly::zero(alloc, Grevlex, vars))?;
    for _ in 0..2 * count + 1 {
        images.push(Poly::one(alloc, Grevlex, vars)?)?;
    }
    push_variables(alloc, &mut images, vars, 0)?;
    Ok(images)
}

/// Puts multiples of the variables from a place on behind the others, for each number of the base by its size, or by the inverse of that.
fn push_multiples(
    alloc: Global,
    images: &mut Vec<Poly<Frac, Grevlex>>,
    arity: usize,
    from: usize,
    base: &[Whole],
    inverted: bool,
) -> Result<(), AllocError>
    requires few { arity ≤ most_variables }
    requires base { Coprime (sizes base.now) }
    requires places { from + length base.now ≤ arity }
    requires arities { All (λ p. p.arity ≡ arity) images.old.items }
    ensures images { let cs = factors_of inverted (sizes base.now) in
        OnOk result (terms_each images.new.items
        ≡ terms_each images.old.items ++ multiples arity cs (drop from (variables ℚ arity))) }
    ensures arities { OnOk result (All (λ p. p.arity ≡ arity) images.new.items) }
{
    for place in 0..base.len() {
        let factor = factor_of(&base[place], inverted);
        images.push(multiple(alloc, arity, from + place, factor)?)?;
    }
    Ok(())
}

/// Puts the variables from a place on behind the others.
pub(crate) fn push_variables(
    alloc: Global,
    images: &mut Vec<Poly<Frac, Grevlex>>,
    arity: usize,
    from: usize,
) -> Result<(), AllocError>
    requires few { arity ≤ most_variables }
    requires from { from ≤ arity }
    requires arities { All (λ p. p.arity ≡ arity) images.old.items }
    ensures images { OnOk result (terms_each images.new.items
        ≡ terms_each images.old.items ++ drop from (variables ℚ arity)) }
    ensures arities { OnOk result (All (λ p. p.arity ≡ arity) images.new.items) }
{
    for place in from..arity {
        images.push(multiple(alloc, arity, place, Frac::one())?)?;
    }
    Ok(())
}

/// n + 1.
fn one_more(alloc: Global, arity: usize) -> Result<Poly<Frac, Grevlex>, AllocError>
    requires few { arity ≤ most_variables }
    requires some { 0 < arity }
    ensures arity { IfOk result (λ p. p.arity ≡ arity) }
    ensures terms { IfOk result (λ p. terms_in p ≡ more arity) }
{
    let variable = Mono::variable(alloc, arity, 0)?;
    let one = Mono::one(alloc, arity)?;
    let terms = vec![in alloc;
        Term {
            mono: variable,
            coef: Frac::one()
        },
        Term {
            mono: one,
            coef: Frac::one()
        },
    ]?;
    Ok(Poly::from_descending(Grevlex, arity, terms))
}

/// A multiple of a variable.
fn multiple(
    alloc: Global,
    arity: usize,
    place: usize,
    coef: Frac,
) -> Result<Poly<Frac, Grevlex>, AllocError>
    requires few { arity ≤ most_variables }
    requires place { place < arity }
    requires nonzero { fraction_of coef ≢ ℚ.zero }
    ensures arity { IfOk result (λ p. p.arity ≡ arity) }
    ensures terms { IfOk result (λ p. IsMultiple arity (fraction_of coef) place (terms_in p)) }
{
    let mono = Mono::variable(alloc, arity, place)?;
    let terms = vec![in alloc; Term { mono, coef }]?;
    Poly::from_distinct(alloc, Grevlex, arity, terms)
}

/// The number's size, or its inverse.
pub(crate) fn factor_of(number: &Whole, inverted: bool) -> Frac
    requires { 0 < unsigned_abs number.now.value }
    ensures { fraction_of result ≡ factor inverted (unsigned_abs number.now.value) }
{
    let size = size_of(number);
    if inverted { size.reciprocal() } else { size }
}

/// The number's size, as a fraction.
fn size_of(number: &Whole) -> Frac
    ensures { fraction_of result ≡ whole (pos (unsigned_abs number.now.value)) }
{
    match Whole::new(number.value().abs()) {
        Some(size) => Frac::whole(size),
        None => unreachable!(),
    }
}
