//! Numbers of 128 bits: `Whole`, and `Frac`, a fraction in lowest terms. Both mean elements of the field of fractions.
//!
//! Proved: results are exact; `Wide` comes exactly where the result doesn't fit, and for a sum of fractions also where one of its two parts
//! over the least common denominator, or their sum, doesn't.
#![tactic(auto)]

ghost use Rattle.std.specs.Prelude.{◌≡◌, pos, ◌<◌, ◌≤◌, ◌+ℤ◌, ◌-ℤ◌, ◌*ℤ◌, neg_ℤ, unsigned_abs, MatchOption, IfSome, IsNone, ◌↔◌, IsErr, IfOk, ◌<ℤ◌};
ghost use Rattle.algebra.specs.Gcd.{gcd as gcd_of};
ghost use Rattle.algebra.specs.Ratio.{exact};
ghost use Rattle.algebra.specs.Limits.{number_limit};
ghost use Rattle.frac128.specs.Sums.{negate_if};

mod fraction;
pub mod laws;
mod ratio;
mod short;

pub use fraction::{Frac, FracError};
use ring_laws::{OrderedRing, Ring, Weight, Wide};
use short::{common_divisor, quotient};
use std::cmp::Ordering;

/// A whole number from -(2^127 - 1) to 2^127 - 1, which means the fraction over 1.
#[derive(Clone, Copy, PartialEq, Eq)]
pub struct Whole {
    value: i128,
    pub ghost in_range: { unsigned_abs value < number_limit },
}

impl Whole {
    /// The number of this value. None exactly for -2^127.
    pub fn new(value: i128) -> Option<Whole>
        ensures some { IfSome result (λ whole. whole.value ≡ value) }
        ensures none { IsNone result ↔ (value ≡ neg_ℤ (pos number_limit)) }
    {
        if value == i128::MIN {
            None
        } else {
            Some(Whole { value })
        }
    }

    /// The value.
    pub fn value(&self) -> i128
        ensures { result ≡ self.now.value }
    {
        self.value
    }

    /// The greatest common divisor with `other`. It is 0 only of two zeros.
    pub fn gcd(&self, other: &Whole) -> Whole
        ensures value { result.value
            ≡ pos (gcd_of (unsigned_abs self.now.value) (unsigned_abs other.now.value)) }
        ensures positive { pos 0 <ℤ other.now.value → pos 0 <ℤ result.value }
    {
        let common = common_divisor(self.size(), other.size());
        Whole {
            value: common as i128,
        }
    }

    /// The size of the value.
    fn size(&self) -> u128
        ensures value { result ≡ unsigned_abs self.now.value }
        ensures bound { result < number_limit }
    {
        self.value.unsigned_abs()
    }

    /// The quotient by a divisor above zero, rounded toward zero.
    fn over(&self, divisor: &Whole) -> Whole
        requires { pos 0 <ℤ divisor.now.value }
        ensures { result.value ≡ exact self.now.value (unsigned_abs divisor.now.value) }
    {
        if divisor.value == 1 {
            return *self;
        }
        if let (Ok(value), Ok(divisor)) = (
            i64::try_from(self.value),
            i64::try_from(divisor.value),
        ) {
            return Whole {
                value: i128::from(quotient(value, divisor)),
            };
        }
        Whole {
            value: self.value / divisor.value,
        }
    }

    /// The number of this size, with a sign.
    fn with_sign(negative: bool, size: u128) -> Result<Whole, Wide>
        ensures ok { IfOk result (λ whole. whole.value ≡ negate_if negative (pos size)) }
        ensures wide { IsErr result ↔ (number_limit ≤ size) }
    {
        match i128::try_from(size) {
            Ok(value) if negative => Ok(Whole { value: -value }),
            Ok(value) => Ok(Whole { value }),
            Err(_) => Err(Wide),
        }
    }

    /// The product of numbers of 64 bits, which always fits.
    fn short_product(a: i64, b: i64) -> Whole
        ensures { result.value ≡ a *ℤ b }
    {
        Whole {
            value: i128::from(a) * i128::from(b),
        }
    }

    /// The opposite.
    fn opposite(&self) -> Whole
        ensures { result.value ≡ neg_ℤ self.now.value }
    {
        Whole { value: -self.value }
    }
}

/// The number of a checked result. `Wide` exactly where there is none, or it is -2^127.
fn whole_or_wide(value: Option<i128>) -> Result<Whole, Wide>
    ensures ok { IfOk result (λ whole. value ≡ Some whole.value) }
    ensures wide { IsErr result ↔ MatchOption value (Unit {0}) (λ v. v ≡ neg_ℤ (pos number_limit)) }
{
    value.and_then(Whole::new).ok_or(Wide)
}

impl Ring for Whole {
    ghost use Rattle.algebra.specs.Fraction.{fractions};
    ghost use Rattle.algebra.proofs.Fractions.{fractions_ring, zero_is};
    ghost use Rattle.algebra.proofs.SizeLaws.{fractions_bounded};
    ghost use Rattle.frac128.specs.WholeMeaning.{whole_of, whole_decides, whole_eq_is};

    ghost scalars = { fractions };

    ghost meaning = { whole_of };

    #[tactic(auto, unfolding(crate::specs::WholeMeaning::whole_of))]
    fn weight(&self) -> Weight {
        Weight {
            size: self.value.abs(),
            den: 1,
        }
    }

    #[tactic(auto, unfolding(crate::specs::WholeMeaning::whole_of))]
    fn zero() -> Whole {
        Whole { value: 0 }
    }

    #[tactic(auto, unfolding(crate::specs::WholeMeaning::whole_of))]
    fn one() -> Whole {
        Whole { value: 1 }
    }

    #[tactic(auto, unfolding(crate::specs::WholeMeaning::whole_of))]
    fn is_zero(&self) -> bool {
        self.value == 0
    }

    /// The sum. `Wide` exactly where it does not fit.
    fn add(&self, other: &Whole) -> Result<Whole, Wide>
        ensures ok { IfOk result (λ whole. whole.value ≡ self.now.value +ℤ other.now.value) }
        ensures wide { IsErr result
            ↔ (number_limit ≤ unsigned_abs (self.now.value +ℤ other.now.value)) }
    {
        whole_or_wide(self.value.checked_add(other.value))
    }

    /// The difference. `Wide` exactly where it does not fit.
    fn sub(&self, other: &Whole) -> Result<Whole, Wide>
        ensures ok { IfOk result (λ whole. whole.value ≡ self.now.value -ℤ other.now.value) }
        ensures wide { IsErr result
            ↔ (number_limit ≤ unsigned_abs (self.now.value -ℤ other.now.value)) }
    {
        whole_or_wide(self.value.checked_sub(other.value))
    }

    /// The product. `Wide` exactly where it does not fit.
    fn mul(&self, other: &Whole) -> Result<Whole, Wide>
        ensures ok { IfOk result (λ whole. whole.value ≡ self.now.value *ℤ other.now.value) }
        ensures wide { IsErr result
            ↔ (number_limit ≤ unsigned_abs (self.now.value *ℤ other.now.value)) }
    {
        if let (Ok(a), Ok(b)) = (i64::try_from(self.value), i64::try_from(other.value)) {
            return Ok(Whole::short_product(a, b));
        }
        whole_or_wide(self.value.checked_mul(other.value))
    }

    /// The opposite, which always fits.
    fn neg(&self) -> Whole
        ensures { result.value ≡ neg_ℤ self.now.value }
    {
        self.opposite()
    }

    ghost ring = { fractions_ring };

    ghost meaning_decides = { whole_decides };

    ghost zero_is = { zero_is };

    ghost eq_is = { whole_eq_is };

    ghost bounded = { fractions_bounded };
}

impl OrderedRing for Whole {
    ghost use Rattle.algebra.proofs.Fractions.{fractions_ordered};

    #[tactic(auto, unfolding(crate::specs::WholeMeaning::whole_of))]
    fn compare(&self, other: &Whole) -> Ordering {
        self.value.cmp(&other.value)
    }

    #[tactic(auto, unfolding(crate::specs::WholeMeaning::whole_of, algebra::specs::Fraction::fraction, algebra::specs::Ratio::is_lowest, algebra::specs::Gcd::gcd))]
    fn sign(&self) -> i8 {
        match self.value.cmp(&0) {
            Ordering::Less => -1,
            Ordering::Equal => 0,
            Ordering::Greater => 1,
        }
    }

    ghost ordered = { fractions_ordered };
}
