//! Signed products of powers of a base.
ghost use Rattle.std.specs.Prelude.{◌≡◌, ◌<◌, ◌≤◌, ◌*◌, ◌^◌, ◌⊎◌, pos, All, length, map, replicate, IfOk, IsErr, IsErrOf};
ghost use Rattle.algebra.specs.Gcd.{gcd};
ghost use Rattle.algebra.specs.Limits.{number_limit, word_limit, word_bits};
ghost use Rattle.exponentials.specs.Base.{Coprime};
ghost use Rattle.exponentials.specs.Powers.{negate_if};
ghost use Rattle.frac128.specs.FracMeaning.{fraction_of};
ghost use Rattle.frac128.specs.Sums.{over};
ghost use Rattle.coprime_base.specs.Sizes.{sizes};
ghost use Rattle.solvable_maps.specs.Expo.{with_key};
ghost use Rattle.monos.specs.Variables.{most_variables};
ghost use Rattle.expo.specs.Powers.{number_of, key_of_power, key_in, arity_with, IsPastNumber, side_of, side_product};

use frac128::{Frac, Whole};
use monos::Mono;
use ring_laws::{ArithmeticError, Ring, Wide};
use std::alloc::{AllocError, Global};

/// A product of whole powers of a base, with a sign: its exponents, one for each number of the base.
#[derive(Drop)]
pub struct Power {
    pub negative: bool,
    pub exponents: Vec<i32>,
}

/// The exponents of s, u and v in the n-th power of a number.
#[derive(Drop)]
pub(crate) struct Key {
    sign: u16,
    up: Vec<u16>,
    down: Vec<u16>,
}

/// The number of a power, and the exponents of its own n-th power.
#[derive(Drop)]
pub(crate) struct Evaluated {
    pub(crate) number: Frac,
    pub(crate) key: Key,
}

impl Power {
    /// The number, and the exponents of its n-th power. `Wide` only where the number does not fit.
    pub(crate) fn evaluate(
        &self,
        alloc: Global,
        base: &[Whole],
    ) -> Result<Evaluated, ArithmeticError>
        requires base { Coprime (sizes base.now) }
        requires count { length self.now.exponents.items ≡ length base.now }
        ensures number { IfOk result
            (λ v. fraction_of v.number ≡ number_of (sizes base.now) self.now) }
        ensures key { IfOk result (λ v. key_in v.key ≡ key_of_power self.now) }
        ensures wide { IsErrOf result ArithmeticError.Wide
            → IsPastNumber (sizes base.now) self.now }
    {
        let num = product_of(base, &self.exponents, false)?;
        let den = product_of(base, &self.exponents, true)?;
        let number = signed_ratio(self.negative, num, den)?;
        let key = Key {
            sign: u16::from(self.negative),
            up: sides(alloc, &self.exponents, false)?,
            down: sides(alloc, &self.exponents, true)?,
        };
        Ok(Evaluated { number, key })
    }
}

impl Key {
    /// The monomial of this power of n and these of s, u and v, without a variable.
    pub(crate) fn monomial(
        &self,
        alloc: Global,
        iterations: u16,
        vars: usize,
    ) -> Result<Mono, AllocError>
        requires { arity_with self.now vars ≤ most_variables }
        ensures ok { IfOk result
            (λ mono. mono ≡ with_key iterations (key_in self.now) (replicate vars 0)) }
    {
        let none = vec![in alloc; 0; vars]?;
        let mut exponents = vec![in alloc; iterations, self.sign]?;
        exponents.extend_from_slice(&self.up)?;
        exponents.extend_from_slice(&self.down)?;
        exponents.extend_from_slice(&none)?;
        Mono::new(alloc, &exponents)
    }
}

/// The product of the powers above the line, or of those below it.
fn product_of(base: &[Whole], exponents: &[i32], below: bool) -> Result<u128, Wide>
    requires base { Coprime (sizes base.now) }
    requires count { length exponents.now ≡ length base.now }
    ensures product { IfOk result (λ p. p ≡ side_product (sizes base.now) below exponents.now) }
    ensures few { IfOk result (λ _. All (λ z. side_of below z < word_bits) exponents.now) }
    ensures wide { IsErr result → word_limit ≤ side_product (sizes base.now) below exponents.now }
{
    let (Some((number, numbers)), Some((exponent, exponents))) = (
        base.split_first(),
        exponents.split_first(),
    ) else {
        return Ok(1);
    };
    let rest = product_of(numbers, exponents, below)?;
    times_power(rest, number.value().unsigned_abs(), side(*exponent, below))
}

/// A number times the power of another.
fn times_power(number: u128, by: u128, times: u32) -> Result<u128, Wide>
    requires number { 0 < number }
    requires by { 1 < by }
    ensures product { IfOk result (λ p. p ≡ by ^ times * number) }
    ensures few { IfOk result (λ _. times < word_bits) }
    ensures wide { IsErr result → word_limit ≤ by ^ times * number }
{
    let mut found = number;
    for _ in 0..times {
        let Some(product) = found.checked_mul(by) else {
            return Err(Wide);
        };
        found = product;
    }
    Ok(found)
}

/// The exponent above the line, or the one below it.
fn side(exponent: i32, below: bool) -> u32
    ensures { result ≡ side_of below exponent }
{
    if (exponent < 0) == below {
        exponent.unsigned_abs()
    } else {
        0
    }
}

/// The exponents above the line, or those below it.
fn sides(alloc: Global, exponents: &[i32], below: bool) -> Result<Vec<u16>, AllocError>
    requires { All (λ z. side_of below z < word_bits) exponents.now }
    ensures { IfOk result (λ found. found.items ≡ map (side_of below) exponents.now) }
{
    let mut found = Vec::with_capacity(alloc, exponents.len())?;
    for exponent in exponents {
        found.push(side(*exponent, below) as u16)?;
    }
    Ok(found)
}

/// The quotient with a sign. `Wide` only where it does not fit.
fn signed_ratio(negative: bool, num: u128, den: u128) -> Result<Frac, Wide>
    requires den { 0 < den }
    requires coprime { gcd num den ≡ 1 }
    ensures ok { IfOk result
        (λ ratio. fraction_of ratio ≡ negate_if negative (over (pos num) (pos den))) }
    ensures wide { IsErr result → (number_limit ≤ num) ⊎ (number_limit ≤ den) }
{
    let (Ok(num), Ok(den)) = (i128::try_from(num), i128::try_from(den)) else {
        return Err(Wide);
    };
    let Ok(ratio) = Frac::new(num, den) else {
        return Err(Wide);
    };
    if negative { Ok(ratio.neg()) } else { Ok(ratio) }
}
