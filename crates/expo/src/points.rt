//! What stands for n, s, u, v and the variables at a number of iterations.
ghost use Rattle.std.specs.Prelude.{◌≡◌, ◌<◌, ◌≤◌, ◌++◌, All, length, map, IfOk, OnOk, IsErr, IsErrOf};
ghost use Rattle.algebra.specs.Arithmetic.{power as power_in};
ghost use Rattle.algebra.specs.Fraction.{ℚ};
ghost use Rattle.polynomials.specs.Terms.{constant};
ghost use Rattle.exponentials.specs.Base.{Coprime};
ghost use Rattle.frac128.specs.FracMeaning.{fraction_of};
ghost use Rattle.poly.specs.Seen.{terms_in, terms_each};
ghost use Rattle.coprime_base.specs.Sizes.{sizes};
ghost use Rattle.solvable_maps.specs.Iterations.{width, sign as sign_at};
ghost use Rattle.monos.specs.Variables.{most_variables};
ghost use Rattle.expo.specs.Points.{number_image, iteration_images, powers_by, IsPastPower, IsPastPoint};

use crate::images::{factor_of, push_variables};
use crate::table::frac_of_usize;
use crate::widths::width;
use frac128::{Frac, Whole};
use monos::Grevlex;
use poly::Poly;
use ring_laws::{ArithmeticError, Ring, Wide};
use std::alloc::{AllocError, Global};

/// A power of a number. `Wide` only where it or one with a smaller exponent does not fit.
pub fn power(number: &Frac, exponent: u32) -> Result<Frac, Wide>
    ensures ok { IfOk result
        (λ x. fraction_of x ≡ power_in ℚ (fraction_of number.now) exponent) }
    ensures wide { IsErr result → IsPastPower (fraction_of number.now) exponent }
{
    let mut found = Frac::one();
    for _ in 0..exponent {
        found = number.mul(&found)?;
    }
    Ok(found)
}

/// The number of iterations, the powers of -1, of the base's numbers and of their inverses with this exponent, as constants, and the variables.
/// `Wide` only where a power does not fit.
pub(crate) fn images_at_iteration(
    alloc: Global,
    base: &[Whole],
    vars: usize,
    iterations: u32,
) -> Result<Vec<Poly<Frac, Grevlex>>, ArithmeticError>
    requires base { Coprime (sizes base.now) }
    requires few { width (length (sizes base.now)) vars ≤ most_variables }
    ensures images { IfOk result
        (λ images. terms_each images.items ≡ iteration_images (sizes base.now) vars iterations) }
    ensures arities { IfOk result (λ images. All (λ p. p.arity ≡ vars) images.items) }
    ensures wide { IsErrOf result ArithmeticError.Wide → IsPastPoint (sizes base.now) iterations }
{
    let mut images = Vec::with_capacity(alloc, width(base.len(), vars))?;
    images.push(number_of(alloc, vars, iterations)?)?;
    images.push(Poly::constant(alloc, Grevlex, vars, &sign(iterations))?)?;
    push_powers(alloc, &mut images, vars, base, iterations, false)?;
    push_powers(alloc, &mut images, vars, base, iterations, true)?;
    push_variables(alloc, &mut images, vars, 0)?;
    Ok(images)
}

/// A number of iterations, as a constant.
fn number_of(alloc: Global, vars: usize, iterations: u32) -> Result<Poly<Frac, Grevlex>, AllocError>
    requires { vars ≤ most_variables }
    ensures arity { IfOk result (λ p. p.arity ≡ vars) }
    ensures terms { IfOk result (λ p. terms_in p ≡ number_image vars iterations) }
{
    let number = frac_of_usize(iterations as usize);
    Poly::constant(alloc, Grevlex, vars, &number)
}

/// A power of -1.
fn sign(iterations: u32) -> Frac
    ensures { fraction_of result ≡ sign_at iterations }
{
    let mut found = Frac::one();
    for _ in 0..iterations {
        found = found.neg();
    }
    found
}

/// Puts the powers of the base's numbers, or of their inverses, as constants behind the others. `Wide` only where one does not fit.
fn push_powers(
    alloc: Global,
    images: &mut Vec<Poly<Frac, Grevlex>>,
    vars: usize,
    base: &[Whole],
    iterations: u32,
    inverted: bool,
) -> Result<(), ArithmeticError>
    requires few { vars ≤ most_variables }
    requires base { Coprime (sizes base.now) }
    requires arities { All (λ p. p.arity ≡ vars) images.old.items }
    ensures images { OnOk result (terms_each images.new.items ≡ terms_each images.old.items
        ++ map (constant vars) (powers_by inverted (sizes base.now) iterations)) }
    ensures arities { OnOk result (All (λ p. p.arity ≡ vars) images.new.items) }
    ensures wide { IsErrOf result ArithmeticError.Wide → IsPastPoint (sizes base.now) iterations }
{
    let Some((number, base)) = base.split_first() else {
        return Ok(());
    };
    let power = power(&factor_of(number, inverted), iterations)?;
    images.push(Poly::constant(alloc, Grevlex, vars, &power)?)?;
    push_powers(alloc, images, vars, base, iterations, inverted)
}
