//! The traits of checked numbers: rings, ordered rings and fields whose elements mean numbers without bounds, with the error `Wide` for a
//! result that doesn't fit.
//!
//! Proved: results mean the exact ones and lie within the weights of their operations; `Wide` comes only where that weight is past.
//!
//! Notion: rings and fields, 1.1.
#![tactic(auto)]

ghost use Rattle.std.specs.Prelude.{◌≡◌, ◌≢◌, true, pos, ◌≤ℤ◌, ◌<◌, unsigned_abs, IsTrue, ◌↔◌, IfOk, IfSome, IsErr};
ghost use Rattle.algebra.specs.Integers.{integer_in};
ghost use Rattle.algebra.specs.Ring.{IsRing, IsOrderOf, IsFieldOf};
ghost use Rattle.algebra.specs.Scalars.{Scalars, IsBounded, BoundsQuotients, IsPastAdd, IsPastMul, IsPastDiv, AreInverses};
ghost use Rattle.algebra.specs.Size.{size, sum_size, product_size, factor_size, SomeIf};
ghost use Rattle.ring_laws.specs.Sign.{sign_of};
ghost use Rattle.ring_laws.specs.declared.ArithmeticError.TheVariants.{Wide as WideError, Memory as MemoryError};

pub use euclid::gcd;
use std::alloc::{AllocError, AllocFailed};
use std::cmp::Ordering;
use thiserror::Error;

mod euclid;
pub mod laws;

/// The refusal of an operation that has a number that does not fit its type.
#[derive(Clone, Copy, PartialEq, Eq)]
pub struct Wide;

/// Why a number, a monomial or a polynomial was not made.
#[derive(Clone, Copy, Debug, PartialEq, Eq, Error)]
pub enum ArithmeticError {
    /// A number does not fit its type, or an exponent is above 65,535.
    #[error("a number or an exponent is too wide")]
    Wide,
    #[error("out of memory")]
    Memory,
}

impl From<Wide> for ArithmeticError {
    ghost from_gives = { λ _ e. e ≡ WideError };

    fn from(_: Wide) -> ArithmeticError {
        ArithmeticError::Wide
    }
}

impl From<AllocError> for ArithmeticError {
    ghost from_gives = { λ _ e. e ≡ MemoryError };

    fn from(_: AllocError) -> ArithmeticError {
        ArithmeticError::Memory
    }
}

impl<T: Drop> From<AllocFailed<T>> for ArithmeticError {
    ghost from_gives = { λ _ e. e ≡ MemoryError };

    fn from(_: AllocFailed<T>) -> ArithmeticError {
        ArithmeticError::Memory
    }
}

/// A weight with both its numbers at most 2^127 - 1: what bounds the numbers of a computation, as a size over a denominator.
#[derive(Clone, Copy, PartialEq, Eq)]
pub struct Weight {
    pub size: i128,
    pub den: i128,
    pub ghost size_low: { pos 0 ≤ℤ size },
    pub ghost den_low: { pos 1 ≤ℤ den },
}

impl Weight {
    ghost use Rattle.ring_laws.specs.WeightSize.{size_of};

    /// The weight of a sum or a difference of what two weights bound. None exactly where it is past.
    #[tactic(auto, unfolding(algebra::specs::Gcd::lcm))]
    pub fn plus(&self, other: &Weight) -> Option<Weight>
        ensures { SomeIf result size_of (sum_size (size_of self.now) (size_of other.now)) }
    {
        let left_den = self.den.unsigned_abs();
        let right_den = other.den.unsigned_abs();
        let den = left_den.checked_mul(right_den / gcd(left_den, right_den))?;
        let left = self.size.unsigned_abs().checked_mul(den / left_den)?;
        let right = other.size.unsigned_abs().checked_mul(den / right_den)?;
        Weight::from_sizes(left.checked_add(right)?, den)
    }

    /// The weight of a product of what two weights bound. None exactly where it is past.
    pub fn times(&self, other: &Weight) -> Option<Weight>
        ensures { SomeIf result size_of (product_size (size_of self.now) (size_of other.now)) }
    {
        let (left, left_den) = self.factor();
        let (right, right_den) = other.factor();
        Weight::from_sizes(left.checked_mul(right)?, left_den.checked_mul(right_den)?)
    }

    /// The weight of two numbers. None exactly where one is above 2^127 - 1.
    fn from_sizes(size: u128, den: u128) -> Option<Weight>
        requires { 0 < den }
        ensures { SomeIf result size_of (record { size = size; den = den }) }
    {
        let size = i128::try_from(size).ok()?;
        let den = i128::try_from(den).ok()?;
        Some(Weight { size, den })
    }

    /// Size and denominator of the weight as a factor, where 0 counts as 1.
    fn factor(&self) -> (u128, u128)
        ensures is { size result.0 result.1 ≡ factor_size (size_of self.now) }
        ensures positive { 0 < result.1 }
    {
        if self.size == 0 {
            (1, 1)
        } else {
            (self.size.unsigned_abs(), self.den.unsigned_abs())
        }
    }
}

/// A commutative ring of checked numbers. Each element means a number with no bound, and no two mean the same.
/// An operation answers the element that means the exact result, or `Wide`, which comes only where the weight of the operation is past.
pub trait Ring: Copy + Eq {
    ghost use Rattle.ring_laws.specs.WeightSize.{size_of};

    /// The numbers that elements mean, and how to compute with them.
    ghost scalars: { Scalars };

    /// The number that an element means.
    ghost meaning: { Self → scalars.Elem };

    /// The weight of the element: its size and its denominator, or 0 over 1 where there is no width.
    fn weight(&self) -> Weight
        ensures { size_of result ≡ scalars.size (meaning self.now) };

    fn zero() -> Self
        ensures { meaning result ≡ scalars.zero };

    fn one() -> Self
        ensures { meaning result ≡ scalars.one };

    /// A whole number and its inverse, by which fractions over that denominator are cleared. `None` says nothing of either.
    fn unit(value: i128) -> Option<(Self, Self)>
        ensures number { IfSome result (λ u. meaning u.0 ≡ integer_in scalars.arithmetic value) }
        ensures inverse { IfSome result (λ u. AreInverses scalars (meaning u.0) (meaning u.1)) }
    {
        None
    }

    fn is_zero(&self) -> bool
        ensures { IsTrue result ↔ (meaning self.now ≡ scalars.zero) };

    /// The sum. `Wide` only where the weight of the sum is past.
    fn add(&self, other: &Self) -> Result<Self, Wide>
        ensures ok { IfOk result (λ sum. meaning sum
            ≡ scalars.add (meaning self.now) (meaning other.now)) }
        ensures wide { IsErr result → IsPastAdd scalars (meaning self.now) (meaning other.now) };

    /// The difference. `Wide` only where the weight of the sum is past.
    fn sub(&self, other: &Self) -> Result<Self, Wide>
        ensures ok { IfOk result (λ rest. meaning rest
            ≡ scalars.add (meaning self.now) (scalars.neg (meaning other.now))) }
        ensures wide { IsErr result → IsPastAdd scalars (meaning self.now) (meaning other.now) };

    /// The product. `Wide` only where the weight of the product is past.
    fn mul(&self, other: &Self) -> Result<Self, Wide>
        ensures ok { IfOk result (λ product. meaning product
            ≡ scalars.mul (meaning self.now) (meaning other.now)) }
        ensures wide { IsErr result → IsPastMul scalars (meaning self.now) (meaning other.now) };

    /// The opposite, which always fits.
    fn neg(&self) -> Self
        ensures { meaning result ≡ scalars.neg (meaning self.now) };

    ghost ring: { IsRing scalars.arithmetic };

    ghost meaning_decides: { (x y : Self) → meaning x ≡ meaning y → x ≡ y };

    ghost zero_is: { (a : scalars.Elem) → (scalars.is_zero a ≡ true) ↔ (a ≡ scalars.zero) };

    ghost eq_is: { (x y : Self) → (Self.eq x y ≡ true) ↔ (x ≡ y) };

    ghost bounded: { IsBounded scalars.arithmetic scalars.size };
}

/// A ring with a total order that sums keep, and products with what is above zero.
pub trait OrderedRing: Ring {
    /// Where the element stands to the other.
    fn compare(&self, other: &Self) -> Ordering
        ensures { result ≡ Self.scalars.order (Self.meaning self.now) (Self.meaning other.now) };

    /// -1, 0 or 1 where the element is below zero, zero or above it.
    fn sign(&self) -> i8
        ensures { result ≡ sign_of (Self.scalars.order (Self.meaning self.now) Self.scalars.zero) };

    ghost ordered: { IsOrderOf Self.scalars.arithmetic Self.scalars.order };
}

/// A ring where each element but zero has an inverse.
pub trait Field: Ring {
    /// The quotient by what is not zero. `Wide` only where the weight of the quotient is past.
    fn div(&self, other: &Self) -> Result<Self, Wide>
        requires { Self.meaning other.now ≢ Self.scalars.zero }
        ensures ok { IfOk result (λ c. Self.scalars.mul (Self.meaning c) (Self.meaning other.now)
            ≡ Self.meaning self.now) }
        ensures wide { IsErr result
            → IsPastDiv Self.scalars (Self.meaning self.now) (Self.meaning other.now) };

    ghost field: { IsFieldOf Self.scalars.arithmetic Self.scalars.inverse };

    ghost quotients_bounded: { BoundsQuotients Self.scalars.arithmetic
        Self.scalars.size Self.scalars.inverse };
}
