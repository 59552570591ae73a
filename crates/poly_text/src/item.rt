//! An item of a flat polynomial.

ghost use Rattle.std.specs.Prelude.{◌<◌};
ghost use Rattle.poly_text.specs.Tokens.{number_limit};

/// What an item is without its sign: its exponents, one for each name, and its number.
#[derive(Drop)]
pub struct Item {
    pub exponents: Vec<u16>,
    pub numerator: u128,
    pub denominator: u128,
    ghost narrow: { numerator < number_limit },
    ghost some: { 0 < denominator },
    ghost small: { denominator < number_limit },
}
