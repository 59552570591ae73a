//! Euclid's algorithm from the modulus and a number.
ghost use Rattle.std.specs.Prelude.{◌<◌, ◌≤◌};
ghost use Rattle.residue_rows.specs.Modulus.{modulus};
ghost use Rattle.residue_rows.specs.EuclidRests.{AreRests};

use crate::residue::MODULUS;

/// Two rests that follow each other, with the sizes of the factors by which the number gives them modulo 2^127 - 1, whose signs differ.
#[derive(Clone, Copy)]
pub(crate) struct Rests {
    pub(crate) high: u128,
    pub(crate) low: u128,
    pub(crate) high_factor: u128,
    pub(crate) low_factor: u128,
    /// Whether the low rest's factor is below zero.
    pub(crate) negative: bool,
}

/// The first two rests of which the lower one is within the limit.
pub(crate) fn rests_within(number: u128, limit: u128) -> Rests
    requires number { number < modulus }
    requires limit { limit < modulus }
    ensures rests { AreRests modulus number limit result.high result.low result.high_factor
        result.low_factor result.negative }
    ensures low { result.low ≤ limit }
    ensures high { limit < result.high }
{
    let mut rests = Rests {
        high: MODULUS,
        low: number,
        high_factor: 0,
        low_factor: 1,
        negative: false,
    };
    while rests.low > limit {
        let quotient = rests.high / rests.low;
        rests = Rests {
            high: rests.low,
            low: rests.high - quotient * rests.low,
            high_factor: rests.low_factor,
            low_factor: rests.high_factor + quotient * rests.low_factor,
            negative: !rests.negative,
        };
    }
    rests
}
