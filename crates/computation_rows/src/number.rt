// The numbers that rows are over.
use frac128::Frac;
use gf65521::Gf;
use ring_laws::{Field, Ring};

/// Numbers that stand for fractions.
pub(crate) trait Number: Field {
    /// The number that stands for the fraction, if one does.
    fn of(frac: &Frac) -> Option<Self>;

    /// A fraction that the number stands for.
    fn frac(&self) -> Frac;
}

impl Number for Frac {
    fn of(frac: &Frac) -> Option<Frac> {
        Some(*frac)
    }

    fn frac(&self) -> Frac {
        *self
    }
}

impl Number for Gf {
    fn of(frac: &Frac) -> Option<Gf> {
        let den = remainder(frac.den());
        if den.is_zero() {
            return None;
        }
        remainder(frac.num()).div(&den).ok()
    }

    /// The whole number of the least size.
    fn frac(&self) -> Frac {
        let value = i128::from(self.value());
        let least = if value > 32760 { value - 65521 } else { value };
        Frac::new(least, 1).unwrap_or(Frac::zero())
    }
}

fn remainder(number: i128) -> Gf {
    match u16::try_from(number.rem_euclid(65521)) {
        Ok(rest) => Gf::new(rest).unwrap_or(Gf::zero()),
        Err(_) => Gf::zero(),
    }
}
