//! Residues modulo 2^127 - 1: sums, products and inverses.
ghost use Rattle.std.specs.Prelude.{◌≡◌, ◌<◌, ◌+◌, ◌*◌, pos, ◌+ℤ◌, ◌-ℤ◌, ◌*ℤ◌, neg_ℤ, ◌↔◌, true, IfSome, IsNone};
ghost use Rattle.closures.specs.Modulo.{AreCongruent, HasPivot, IsResidueOf};
ghost use Rattle.frac128.specs.FracMeaning.{fraction_of};
ghost use Rattle.frac128.specs.Sums.{negate_if};
ghost use Rattle.residue_rows.specs.Modulus.{modulus, half_limit};

use crate::euclid::rests_within;
use frac128::Frac;

/// The modulus: 2^127 - 1.
pub(crate) const MODULUS: u128 = (1 << 127) - 1;

/// The base of halves, 2^64, and half of it, which times it is one more than the modulus.
const BASE: u128 = 1 << 64;

const HALF: u128 = 1 << 63;

/// A number below 2^127 - 1, which stands for all that are congruent to it.
#[derive(Clone, Copy, PartialEq, Eq)]
pub struct Residue {
    value: u128,
    pub ghost low: { value < modulus },
}

impl Residue {
    ghost use Rattle.residue_rows.specs.Numbers.{number_of};

    /// The residue 0.
    pub fn zero() -> Residue
        ensures { number_of result ≡ pos 0 }
    {
        Residue { value: 0 }
    }

    /// The residue 1.
    pub fn one() -> Residue
        ensures { number_of result ≡ pos 1 }
    {
        Residue { value: 1 }
    }

    /// The residue of this value.
    pub fn from_number(number: u64) -> Residue
        ensures { number_of result ≡ pos number }
    {
        Residue {
            value: u128::from(number),
        }
    }

    /// Whether it is 0.
    pub fn is_zero(&self) -> bool
        ensures { (result ≡ true) ↔ (number_of self.now ≡ pos 0) }
    {
        self.value == 0
    }

    /// The number that it has.
    pub(crate) fn value(&self) -> u128
        ensures { result ≡ self.now.value }
    {
        self.value
    }

    /// The residue of a number below twice the modulus.
    fn short_rest(number: u128) -> Residue
        requires { number < 2 * modulus }
        ensures { AreCongruent (pos modulus) (number_of result) (pos number) }
    {
        if number < MODULUS {
            return Residue { value: number };
        }
        Residue {
            value: number - MODULUS,
        }
    }

    /// The sum.
    pub fn add(&self, other: &Residue) -> Residue
        ensures { AreCongruent (pos modulus) (number_of result)
            (number_of self.now +ℤ number_of other.now) }
    {
        Residue::short_rest(self.value + other.value)
    }

    /// The opposite.
    pub fn neg(&self) -> Residue
        ensures { AreCongruent (pos modulus) (number_of result) (neg_ℤ (number_of self.now)) }
    {
        Residue::short_rest(MODULUS - self.value)
    }

    /// The difference: `self` less `other`.
    pub fn sub(&self, other: &Residue) -> Residue
        ensures { AreCongruent (pos modulus) (number_of result)
            (number_of self.now -ℤ number_of other.now) }
    {
        Residue::short_rest(self.value + (MODULUS - other.value))
    }

    /// The product, by halves of 64 bits.
    pub fn mul(&self, other: &Residue) -> Residue
        ensures { AreCongruent (pos modulus) (number_of result)
            (number_of self.now *ℤ number_of other.now) }
    {
        let (high, low) = halves(self.value);
        let (other_high, other_low) = halves(other.value);
        let top = Residue {
            value: 2 * product(high, other_high),
        };
        let middle = Residue::middle(product(high, other_low) + product(low, other_high));
        let bottom = Residue::short_rest(product(low, other_low));
        top.add(&middle).add(&bottom)
    }

    /// The residue of a number times 2^64.
    fn middle(number: u128) -> Residue
        ensures { AreCongruent (pos modulus) (number_of result) (pos (number * half_limit)) }
    {
        Residue::short_rest(number / HALF + number % HALF * BASE)
    }

    /// What times the residue is congruent to 1. None exactly where nothing is.
    pub fn inverse(&self) -> Option<Residue>
        ensures some { IfSome result (λ inverse. AreCongruent (pos modulus)
            (number_of self.now *ℤ number_of inverse) (pos 1)) }
        ensures none { IsNone result → ¬ HasPivot (pos modulus) (number_of self.now) }
    {
        let rests = rests_within(self.value, 0);
        if rests.high != 1 {
            return None;
        }
        Some(Residue::short_rest(rests.high_factor).with_sign(!rests.negative))
    }

    /// It, or its opposite.
    fn with_sign(&self, negative: bool) -> Residue
        ensures { AreCongruent (pos modulus) (number_of result)
            (negate_if negative (number_of self.now)) }
    {
        if negative { self.neg() } else { *self }
    }

    /// The residue of a whole number.
    fn of_whole(number: i128) -> Residue
        ensures { AreCongruent (pos modulus) (number_of result) number }
    {
        Residue::short_rest(number.unsigned_abs()).with_sign(number < 0)
    }

    /// The residue of a fraction. None exactly where its denominator has no inverse.
    pub fn of_fraction(fraction: &Frac) -> Option<Residue>
        ensures some { IfSome result (λ residue. IsResidueOf (pos modulus)
            (fraction_of fraction.now) (number_of residue)) }
        ensures none { IsNone result
            → ¬ HasPivot (pos modulus) (pos (fraction_of fraction.now).den) }
    {
        let inverse = Residue::of_whole(fraction.den()).inverse()?;
        Some(Residue::of_whole(fraction.num()).mul(&inverse))
    }
}

/// The halves of 64 bits of a number below the modulus: by the base, and what is left.
fn halves(number: u128) -> (u64, u64)
    requires { number < modulus }
    ensures number { number ≡ result.0 * half_limit + result.1 }
    ensures high { 2 * result.0 < half_limit }
{
    ((number / BASE) as u64, (number % BASE) as u64)
}

/// The product of numbers of 64 bits.
fn product(a: u64, b: u64) -> u128
    ensures { result ≡ a * b }
{
    u128::from(a) * u128::from(b)
}
