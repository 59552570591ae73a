//! Fractions of 128 bits.
ghost use Rattle.std.specs.Prelude.{◌≡◌, ◌≢◌, pos, ◌≤ℤ◌, ◌<◌, true, unsigned_abs, IsErr, IfOk, IfSome, IsSome, IsNone, IsErrOf, neg_ℤ, ◌^◌, ◌↔◌, ◌⊎◌};
ghost use Rattle.algebra.specs.Gcd.{gcd as gcd_of};
ghost use Rattle.algebra.specs.Ratio.{ratio};
ghost use Rattle.algebra.specs.Fraction.{fraction, fractions, whole};
ghost use Rattle.algebra.specs.Limits.{number_limit};
ghost use Rattle.frac128.specs.Sums.{over, negate_if, DoesNotFit, SumIsPast};

use crate::Whole;
use crate::ratio::compare_ratios;
use crate::short::{common_divisor, divisor, quotient};
use ring_laws::{Field, OrderedRing, Ring, Weight, Wide};
use std::cmp::Ordering;
use thiserror::Error;

/// Why a fraction was not made.
#[derive(Clone, Copy, Debug, PartialEq, Eq, Error)]
pub enum FracError {
    /// The denominator is 0.
    #[error("the denominator is 0")]
    ZeroDenominator,
    /// In lowest terms the numerator or the denominator is above 2^127 - 1.
    #[error("a number is above 2^127 - 1")]
    Wide,
}

/// A fraction in lowest terms, with a numerator from -(2^127 - 1) to 2^127 - 1 and a denominator from 1 to 2^127 - 1.
#[derive(Clone, Copy, PartialEq, Eq)]
pub struct Frac {
    num: Whole,
    den: Whole,
    pub ghost den_low: { pos 1 ≤ℤ den.value },
    pub ghost lowest: { gcd_of (unsigned_abs num.value) (unsigned_abs den.value) ≡ 1 },
}

impl Frac {
    ghost use Rattle.frac128.specs.FracMeaning.{fraction_of};

    /// `num` over `den`, in lowest terms.
    pub fn new(num: i128, den: i128) -> Result<Frac, FracError>
        ensures ok { IfOk result (λ frac. fraction_of frac ≡ over num den) }
        ensures zero { IsErrOf result FracError.ZeroDenominator ↔ (den ≡ pos 0) }
        ensures wide { IsErrOf result FracError.Wide ↔ ((den ≢ pos 0) × DoesNotFit (over num den)) }
    {
        if den == 0 {
            return Err(FracError::ZeroDenominator);
        }
        match Frac::in_lowest_terms(
            (num < 0) != (den < 0),
            num.unsigned_abs(),
            den.unsigned_abs(),
        ) {
            Ok(frac) => Ok(frac),
            Err(_) => Err(FracError::Wide),
        }
    }

    /// The numerator.
    #[tactic(auto, unfolding(crate::specs::FracMeaning::fraction_of))]
    pub fn num(&self) -> i128
        ensures { result ≡ (fraction_of self.now).num }
    {
        self.num.value()
    }

    /// The denominator.
    #[tactic(auto, unfolding(crate::specs::FracMeaning::fraction_of))]
    pub fn den(&self) -> i128
        ensures { result ≡ pos (fraction_of self.now).den }
    {
        self.den.value()
    }

    /// The fraction of this sign and these sizes, in lowest terms.
    fn in_lowest_terms(negative: bool, size: u128, den: u128) -> Result<Frac, Wide>
        requires { 0 < den }
        ensures ok { IfOk result (λ frac.
            fraction_of frac ≡ over (negate_if negative (pos size)) (pos den)) }
        ensures wide { IsErr result ↔ DoesNotFit (over (negate_if negative (pos size)) (pos den)) }
    {
        let common = common_divisor(size, den);
        let num = Whole::with_sign(negative, size / common)?;
        let den = Whole::with_sign(false, den / common)?;
        Ok(Frac { num, den })
    }

    /// The whole number `num`.
    pub fn whole(num: Whole) -> Frac
        ensures { fraction_of result ≡ whole num.value }
    {
        Frac {
            num,
            den: Whole { value: 1 },
        }
    }

    /// The numerators, where both fractions are whole.
    fn wholes(&self, other: &Frac) -> Option<(Whole, Whole)>
        ensures { IfSome result (λ nums. (fraction_of self.now ≡ whole nums.0.value)
            × (fraction_of other.now ≡ whole nums.1.value)) }
    {
        if self.den.value == 1 && other.den.value == 1 {
            Some((self.num, other.num))
        } else {
            None
        }
    }

    /// The numerator and the denominator, where both have 64 bits.
    fn short(&self) -> Option<(i64, i64)>
        ensures { IfSome result (λ parts.
            (parts.0 ≡ self.now.num.value) × (parts.1 ≡ self.now.den.value)) }
    {
        let num = i64::try_from(self.num.value).ok()?;
        let den = i64::try_from(self.den.value).ok()?;
        Some((num, den))
    }

    /// `num` over `den`, which have no common divisor.
    fn coprime(num: i64, den: i64) -> Frac
        requires low { pos 1 ≤ℤ den }
        requires lowest { gcd_of (unsigned_abs num) (unsigned_abs den) ≡ 1 }
        ensures { fraction_of result ≡ fraction (ratio num (unsigned_abs den)) }
    {
        Frac {
            num: Whole {
                value: i128::from(num),
            },
            den: Whole {
                value: i128::from(den),
            },
        }
    }

    /// `num` over `den`, in lowest terms.
    fn small_in_lowest_terms(num: i64, den: i64) -> Frac
        requires { pos 1 ≤ℤ den }
        ensures { fraction_of result ≡ over num den }
    {
        let common = divisor(num, den);
        Frac::coprime(quotient(num, common), quotient(den, common))
    }

    /// The sum, where numbers of 64 bits suffice on the way. What it can be lowered by divides what the denominators have in common.
    fn short_sum(&self, other: &Frac) -> Option<Frac>
        ensures sum { IfSome result (λ sum.
            fraction_of sum ≡ fractions.add (fraction_of self.now) (fraction_of other.now)) }
        ensures fits { IsSome result
            → ¬ (SumIsPast (fraction_of self.now) (fraction_of other.now)) }
    {
        let (num, den) = self.short()?;
        let (other_num, other_den) = other.short()?;
        if den == other_den {
            let sum = num.checked_add(other_num)?;
            return Some(Frac::small_in_lowest_terms(sum, den));
        }
        let common = divisor(den, other_den);
        let factor = quotient(other_den, common);
        let other_factor = quotient(den, common);
        let left = num.checked_mul(factor)?;
        let right = other_num.checked_mul(other_factor)?;
        let top = left.checked_add(right)?;
        let shared = divisor(top, common);
        let bottom = other_factor.checked_mul(quotient(other_den, shared))?;
        Some(Frac::coprime(quotient(top, shared), bottom))
    }

    /// The product with a whole number, where numbers of 64 bits suffice on the way. What it can be lowered by divides the whole number.
    fn short_multiple(&self, factor: &Frac) -> Option<Frac>
        requires { factor.now.den.value ≡ pos 1 }
        ensures { IfSome result (λ product.
            fraction_of product ≡ fractions.mul (fraction_of self.now) (fraction_of factor.now)) }
    {
        let (num, den) = self.short()?;
        let (number, _) = factor.short()?;
        if number == 1 {
            return Some(*self);
        }
        let common = divisor(number, den);
        let top = num.checked_mul(quotient(number, common))?;
        Some(Frac::coprime(top, quotient(den, common)))
    }

    /// The product, where numbers of 64 bits suffice on the way.
    fn short_product(&self, other: &Frac) -> Option<Frac>
        ensures { IfSome result (λ product.
            fraction_of product ≡ fractions.mul (fraction_of self.now) (fraction_of other.now)) }
    {
        if other.den.value == 1 {
            return self.short_multiple(other);
        }
        if self.den.value == 1 {
            return other.short_multiple(self);
        }
        let (num, den) = self.short()?;
        let (other_num, other_den) = other.short()?;
        let top = num.checked_mul(other_num)?;
        let bottom = den.checked_mul(other_den)?;
        Some(Frac::small_in_lowest_terms(top, bottom))
    }

    /// One over the fraction, which isn't zero.
    pub fn reciprocal(&self) -> Frac
        requires { fraction_of self.now ≢ fractions.zero }
        ensures { fraction_of result ≡ fractions.inverse (fraction_of self.now) }
    {
        if self.num.value < 0 {
            return Frac {
                num: self.den.opposite(),
                den: self.num.opposite(),
            };
        }
        Frac {
            num: self.den,
            den: self.num,
        }
    }
}

impl Ring for Frac {
    ghost use Rattle.algebra.proofs.Fractions.{fractions_ring, zero_is};
    ghost use Rattle.algebra.proofs.SizeLaws.{fractions_bounded};
    ghost use Rattle.frac128.specs.FracMeaning.{fraction_of, fraction_decides, frac_eq_is};

    ghost scalars = { fractions };

    ghost meaning = { fraction_of };

    #[tactic(auto, unfolding(crate::specs::FracMeaning::fraction_of))]
    fn weight(&self) -> Weight {
        Weight {
            size: self.num.value.abs(),
            den: self.den.value,
        }
    }

    #[tactic(auto, unfolding(algebra::specs::Gcd::gcd))]
    fn zero() -> Frac {
        Frac {
            num: Whole { value: 0 },
            den: Whole { value: 1 },
        }
    }

    #[tactic(auto, unfolding(algebra::specs::Gcd::gcd))]
    fn one() -> Frac {
        Frac {
            num: Whole { value: 1 },
            den: Whole { value: 1 },
        }
    }

    /// `value` over 1, and 1 over `value`. None exactly for 0 and -2^127.
    fn unit(value: i128) -> Option<(Frac, Frac)>
        ensures number { IfSome result (λ unit. fraction_of unit.0 ≡ whole value) }
        ensures inverse { IfSome result (λ unit. fraction_of unit.1
            ≡ fractions.inverse (whole value)) }
        ensures none { IsNone result ↔ ((value ≡ pos 0) ⊎ (value ≡ neg_ℤ (pos number_limit))) }
    {
        if value == 0 {
            return None;
        }
        let whole = Frac::whole(Whole::new(value)?);
        Some((whole, whole.reciprocal()))
    }

    fn is_zero(&self) -> bool {
        self.num.is_zero()
    }

    /// The sum. `Wide` exactly where one of its two parts over the least common denominator, their sum, or the sum's denominator in lowest terms does not fit.
    fn add(&self, other: &Frac) -> Result<Frac, Wide>
        ensures ok { IfOk result (λ sum. fraction_of sum
            ≡ fractions.add (fraction_of self.now) (fraction_of other.now)) }
        ensures wide { IsErr result ↔ SumIsPast (fraction_of self.now) (fraction_of other.now) }
    {
        if let Some((num, other_num)) = self.wholes(other) {
            return Ok(Frac::whole(num.add(&other_num)?));
        }
        if let Some(sum) = self.short_sum(other) {
            return Ok(sum);
        }
        let common = self.den.gcd(&other.den);
        let left = self.num.mul(&other.den.over(&common))?;
        let right = other.num.mul(&self.den.over(&common))?;
        let top = left.add(&right)?;
        let shared = top.gcd(&common);
        let den = self.den.over(&common).mul(&other.den.over(&shared))?;
        Ok(Frac {
            num: top.over(&shared),
            den,
        })
    }

    /// The difference, which is the sum with the opposite.
    fn sub(&self, other: &Frac) -> Result<Frac, Wide>
        ensures ok { IfOk result (λ rest. fraction_of rest
            ≡ fractions.add (fraction_of self.now) (fractions.neg (fraction_of other.now))) }
        ensures wide { IsErr result
            ↔ SumIsPast (fraction_of self.now) (fractions.neg (fraction_of other.now)) }
    {
        self.add(&other.neg())
    }

    /// The product. `Wide` exactly where it does not fit in lowest terms.
    fn mul(&self, other: &Frac) -> Result<Frac, Wide>
        ensures ok { IfOk result (λ product. fraction_of product
            ≡ fractions.mul (fraction_of self.now) (fraction_of other.now)) }
        ensures wide { IsErr result
            ↔ DoesNotFit (fractions.mul (fraction_of self.now) (fraction_of other.now)) }
    {
        if let Some((num, other_num)) = self.wholes(other) {
            return Ok(Frac::whole(num.mul(&other_num)?));
        }
        if let Some(product) = self.short_product(other) {
            return Ok(product);
        }
        let left = self.num.gcd(&other.den);
        let right = other.num.gcd(&self.den);
        let num = self.num.over(&left).mul(&other.num.over(&right))?;
        let den = self.den.over(&right).mul(&other.den.over(&left))?;
        Ok(Frac { num, den })
    }

    /// The opposite, which always fits.
    fn neg(&self) -> Frac
        ensures { fraction_of result ≡ fractions.neg (fraction_of self.now) }
    {
        Frac {
            num: self.num.opposite(),
            den: self.den,
        }
    }

    ghost ring = { fractions_ring };

    ghost meaning_decides = { fraction_decides };

    ghost zero_is = { zero_is };

    ghost eq_is = { frac_eq_is };

    ghost bounded = { fractions_bounded };
}

impl OrderedRing for Frac {
    ghost use Rattle.algebra.proofs.Fractions.{fractions_ordered};

    #[tactic(auto, unfolding(crate::specs::FracMeaning::fraction_of))]
    fn compare(&self, other: &Frac) -> Ordering {
        let (size, den) = (self.num.size(), self.den.size());
        let (other_size, other_den) = (other.num.size(), other.den.size());
        match (self.num.value < 0, other.num.value < 0) {
            (false, false) => compare_ratios(size, den, other_size, other_den),
            (true, true) => compare_ratios(other_size, other_den, size, den),
            (true, false) => Ordering::Less,
            (false, true) => Ordering::Greater,
        }
    }

    #[tactic(auto, unfolding(crate::specs::FracMeaning::fraction_of, crate::specs::WholeMeaning::whole_of, algebra::specs::Fraction::fraction, algebra::specs::Ratio::is_lowest, algebra::specs::Gcd::gcd))]
    fn sign(&self) -> i8 {
        self.num.sign()
    }

    ghost ordered = { fractions_ordered };
}

impl Field for Frac {
    ghost use Rattle.algebra.proofs.Fractions.{fractions_field};
    ghost use Rattle.algebra.proofs.ProductSizes.{fraction_quotients_bounded};
    ghost use Rattle.frac128.specs.FracMeaning.{fraction_of};

    /// The quotient. `Wide` exactly where it does not fit in lowest terms.
    fn div(&self, other: &Frac) -> Result<Frac, Wide>
        requires { fraction_of other.now ≢ fractions.zero }
        ensures ok { IfOk result (λ quotient. fraction_of quotient
            ≡ fractions.mul (fraction_of self.now) (fractions.inverse (fraction_of other.now))) }
        ensures wide { IsErr result
            ↔ DoesNotFit (fractions.mul (fraction_of self.now)
            (fractions.inverse (fraction_of other.now))) }
    {
        self.mul(&other.reciprocal())
    }

    ghost field = { fractions_field };

    ghost quotients_bounded = { fraction_quotients_bounded };
}
