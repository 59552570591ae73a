//! The fraction that a residue is of: von zur Gathen and Gerhard, *Modern Computer Algebra*, 5.10.
ghost use Rattle.std.specs.Prelude.{◌≡◌, ◌<◌, ◌≤◌, pos, unsigned_abs, IfSome, IsNone};
ghost use Rattle.algebra.specs.Fraction.{Fraction, over};
ghost use Rattle.frac128.specs.FracMeaning.{fraction_of as meaning_of};
ghost use Rattle.frac128.specs.Sums.{negate_if};
ghost use Rattle.residue_rows.specs.Modulus.{fraction_limit};
ghost use Rattle.residue_rows.specs.Numbers.{number_of};
ghost use Rattle.residue_rows.specs.Limited.{IsFractionOf};

use crate::euclid::rests_within;
use crate::residue::Residue;
use frac128::Frac;

/// What numerator and denominator may be: 2^62.
const LIMIT: u128 = 1 << 62;

/// The fraction with numerator and denominator of at most 2^62 that it is a residue of. None exactly where there is no such fraction.
pub fn fraction_of(residue: &Residue) -> Option<Frac>
    ensures some { IfSome result (λ fraction.
        IsFractionOf (meaning_of fraction) (number_of residue.now)) }
    ensures none { IsNone result → (f : Fraction) → ¬ IsFractionOf f (number_of residue.now) }
{
    let rests = rests_within(residue.value(), LIMIT);
    if rests.low_factor > LIMIT {
        return None;
    }
    let den = rests.low_factor as u64;
    Residue::from_number(den).inverse()?;
    Some(quotient(with_sign(rests.negative, rests.low as u64), den))
}

/// The number of this size, with a sign.
fn with_sign(negative: bool, size: u64) -> i64
    requires { size ≤ fraction_limit }
    ensures { result ≡ negate_if negative (pos size) }
{
    let size = size as i64;
    if negative { -size } else { size }
}

/// `num` over `den`.
fn quotient(num: i64, den: u64) -> Frac
    requires num { unsigned_abs num ≤ fraction_limit }
    requires den { den ≤ fraction_limit }
    requires some { 0 < den }
    ensures { meaning_of result ≡ over num den }
{
    Frac::new(i128::from(num), i128::from(den)).unwrap()
}
