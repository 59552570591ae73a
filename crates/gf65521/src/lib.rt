//! `Gf`, the field of the residues modulo the prime 65,521.
//!
//! Proved: it is a field without a width: no result is `Wide`.
#![tactic(auto)]

ghost use Rattle.std.specs.Prelude.{◌≡◌, ◌<◌, ◌≤◌, ◌*◌, ◌%◌, ◌+◌, ◌-◌, ◌≢◌, IsOkAnd, IfSome, IsNone, ◌↔◌};
ghost use Rattle.algebra.specs.Residue.{prime};

pub mod laws;

use ring_laws::{Field, Ring, Weight, Wide};

/// The prime: the greatest below 2^16.
const PRIME: u32 = 65521;

/// A remainder modulo 65,521.
#[derive(Clone, Copy, PartialEq, Eq)]
pub struct Gf {
    value: u16,
    pub ghost in_range: { value < prime },
}

impl Gf {
    /// The remainder of this value. None exactly where it is 65,521 or more.
    pub fn new(value: u16) -> Option<Gf>
        ensures some { IfSome result (λ gf. gf.value ≡ value) }
        ensures none { IsNone result ↔ (prime ≤ value) }
    {
        if u32::from(value) < PRIME {
            Some(Gf { value })
        } else {
            None
        }
    }

    /// The value.
    pub fn value(&self) -> u16
        ensures { result ≡ self.now.value }
    {
        self.value
    }

    /// What a number leaves.
    fn rest(number: u32) -> Gf
        ensures { result.value ≡ number % prime }
    {
        Gf {
            value: (number % PRIME) as u16,
        }
    }

    /// What a number below twice the prime leaves, with no division.
    fn short_rest(number: u32) -> Gf
        requires { number < 2 * prime }
        ensures { result.value ≡ number % prime }
    {
        let value = if number < PRIME {
            number
        } else {
            number - PRIME
        };
        Gf {
            value: value as u16,
        }
    }
}

/// The inverse modulo the prime, by Euclid's algorithm.
fn inverse(value: u32) -> u32
    requires low { 0 < value }
    requires high { value < prime }
    ensures inverse { (value * result) % prime ≡ 1 }
    ensures bound { result < prime }
{
    if value == 1 {
        return 1;
    }
    (PRIME - PRIME / value) * inverse(PRIME % value) % PRIME
}

impl Ring for Gf {
    ghost use Rattle.algebra.specs.Residue.{residues};
    ghost use Rattle.algebra.proofs.ResidueLaws.{residues_ring, residue_zero_is, residues_bounded};
    ghost use Rattle.gf65521.specs.GfMeaning.{residue_of, residue_decides, gf_eq_is};

    ghost scalars = { residues prime tt };

    ghost meaning = { residue_of };

    fn weight(&self) -> Weight {
        Weight { size: 0, den: 1 }
    }

    fn zero() -> Gf {
        Gf { value: 0 }
    }

    fn one() -> Gf {
        Gf { value: 1 }
    }

    fn is_zero(&self) -> bool {
        self.value == 0
    }

    /// The sum, never `Wide`.
    fn add(&self, other: &Gf) -> Result<Gf, Wide>
        ensures { IsOkAnd result (λ sum. sum.value ≡ (self.now.value + other.now.value) % prime) }
    {
        Ok(Gf::short_rest(u32::from(self.value) + u32::from(other.value)))
    }

    /// The difference, never `Wide`.
    fn sub(&self, other: &Gf) -> Result<Gf, Wide>
        ensures { IsOkAnd result (λ rest. rest.value
            ≡ (self.now.value + (prime - other.now.value)) % prime) }
    {
        Ok(Gf::short_rest(u32::from(self.value) + (PRIME - u32::from(other.value))))
    }

    /// The product, never `Wide`.
    fn mul(&self, other: &Gf) -> Result<Gf, Wide>
        ensures { IsOkAnd result (λ product. product.value
            ≡ (self.now.value * other.now.value) % prime) }
    {
        Ok(Gf::rest(u32::from(self.value) * u32::from(other.value)))
    }

    /// The opposite.
    fn neg(&self) -> Gf
        ensures { result.value ≡ (prime - self.now.value) % prime }
    {
        Gf::short_rest(PRIME - u32::from(self.value))
    }

    ghost ring = { residues_ring prime tt };

    ghost meaning_decides = { residue_decides };

    ghost zero_is = { residue_zero_is prime tt };

    ghost eq_is = { gf_eq_is };

    ghost bounded = { residues_bounded prime tt };
}

impl Field for Gf {
    ghost use Rattle.algebra.specs.Residue.{residues};
    ghost use Rattle.algebra.proofs.ResidueLaws.{residues_field, residue_quotients_bounded, prime_65521};
    ghost use Rattle.gf65521.specs.GfMeaning.{residue_of};

    /// The quotient, never `Wide`.
    fn div(&self, other: &Gf) -> Result<Gf, Wide>
        requires { residue_of other.now ≢ (residues prime tt).zero }
        ensures { IsOkAnd result (λ quotient. (quotient.value * other.now.value) % prime
            ≡ self.now.value) }
    {
        Ok(Gf::rest(u32::from(self.value) * inverse(u32::from(other.value))))
    }

    ghost field = { residues_field prime tt prime_65521 };

    ghost quotients_bounded = { residue_quotients_bounded prime tt };
}
