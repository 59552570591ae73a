//! Finds the coarsest base of pairwise coprime numbers for a list of numbers, by greatest common divisors alone.
//!
//! Proved: `base` gives that base, and `exponents` the one list of exponents of a fraction over it.
//!
//! Notion: coprime bases: Bach, Driscoll and Shallit, *Factor refinement* (1993).
#![tactic(auto)]

ghost use Rattle.std.specs.Prelude.{◌≡◌, ◌<◌, ◌<ℤ◌, pos, ℤ, List, IfOk, IsErrOf, All, length, unsigned_abs};
ghost use Rattle.algebra.specs.Limits.{number_limit};
ghost use Rattle.exponentials.specs.Base.{Coprime, IsTheBase};
ghost use Rattle.frac128.specs.FracMeaning.{fraction_of};
ghost use Rattle.coprime_base.specs.Sizes.{sizes, ArePositive, Makes};

mod division;
mod refine;

use division::{exponent, taken_out};
use frac128::{Frac, Whole};
use refine::coarsest;
use std::alloc::{AllocError, AllocFailed, Global};
use thiserror::Error;

/// Why a base or exponents were not made.
#[derive(Clone, Copy, Debug, PartialEq, Eq, Error)]
pub enum BaseError {
    /// The value is no product of whole powers of the base.
    #[error("the value is no product of powers of the base")]
    NotInBase,
    #[error("out of memory")]
    Memory,
}

impl From<AllocError> for BaseError {
    ghost use Rattle.coprime_base.specs.declared.BaseError.TheVariants.{Memory};

    ghost from_gives = { λ _ e. e ≡ Memory };

    fn from(_: AllocError) -> BaseError {
        BaseError::Memory
    }
}

impl<T: Drop> From<AllocFailed<T>> for BaseError {
    ghost use Rattle.coprime_base.specs.declared.BaseError.TheVariants.{Memory};

    ghost from_gives = { λ _ e. e ≡ Memory };

    fn from(_: AllocFailed<T>) -> BaseError {
        BaseError::Memory
    }
}

/// The coarsest list of numbers above 1, pairwise coprime and ascending, of whose powers each number of the list is a product
/// (Bach, Driscoll, Shallit, "Factor refinement", 1993).
pub fn base(alloc: Global, list: &Vec<Whole>) -> Result<Vec<Whole>, AllocError>
    requires { ArePositive list.now.items }
    ensures base { IfOk result (λ base. IsTheBase (sizes list.now.items) (sizes base.items)) }
{
    let waiting = magnitudes(alloc, list.as_slice())?;
    let found = coarsest(alloc, waiting)?;
    numbers_of_sizes(alloc, found.as_slice())
}

/// The exponents of the base's numbers that make the value, which is above zero: it is the product of these powers. `NotInBase` exactly where it is no such product.
pub fn exponents(alloc: Global, base: &Vec<Whole>, value: &Frac) -> Result<Vec<i32>, BaseError>
    requires base { Coprime (sizes base.now.items) }
    requires positive { pos 0 <ℤ (fraction_of value.now).num }
    ensures count { IfOk result (λ found. length found.items ≡ length base.now.items) }
    ensures exponents { IfOk result (λ found. Makes base.now.items found.items value.now) }
    ensures none { IsErrOf result BaseError.NotInBase → (e : List ℤ)
        → ¬ (Makes base.now.items e value.now) }
{
    let mut found = Vec::new(alloc);
    let (mut num, mut den) = parts(value);
    for whole in base {
        let by = size(whole);
        let (over, num_left) = taken_out(num, by);
        let (under, den_left) = taken_out(den, by);
        found.push(exponent(over, under))?;
        num = num_left;
        den = den_left;
    }
    if num == 1 && den == 1 {
        Ok(found)
    } else {
        Err(BaseError::NotInBase)
    }
}

/// The sizes of the numerator and of the denominator.
fn parts(value: &Frac) -> (u128, u128)
    ensures num { result.0 ≡ unsigned_abs (fraction_of value.now).num }
    ensures den { result.1 ≡ (fraction_of value.now).den }
{
    (value.num().unsigned_abs(), value.den().unsigned_abs())
}

/// The size of a number.
fn size(whole: &Whole) -> u128
    ensures { result ≡ unsigned_abs whole.now.value }
{
    whole.value().unsigned_abs()
}

/// The sizes of the numbers.
fn magnitudes(alloc: Global, list: &[Whole]) -> Result<Vec<u128>, AllocError>
    ensures ok { IfOk result (λ found. found.items ≡ sizes list.now) }
{
    let mut found = Vec::new(alloc);
    for whole in list {
        found.push(size(whole))?;
    }
    Ok(found)
}

/// The numbers of these sizes.
fn numbers_of_sizes(alloc: Global, list: &[u128]) -> Result<Vec<Whole>, AllocError>
    requires { All (λ n. n < number_limit) list.now }
    ensures ok { IfOk result (λ found. sizes found.items ≡ list.now) }
{
    let mut found = Vec::new(alloc);
    for size in list {
        if let Some(whole) = Whole::new(*size as i128) {
            found.push(whole)?;
        }
    }
    Ok(found)
}
