// Products and sums of dense polynomials in three variables: work to be timed.
ghost use Rattle.std.specs.Prelude.{◌≡◌, ◌<◌, IfOk};

use crate::row_error::RowError;
use crate::rows::Row;
use frac128::Frac;
use gf65521::Gf;
use monos::Grevlex;
use poly::Poly;
use ring_laws::{ArithmeticError, Ring};
use std::alloc::Global;

/// Numbers to compute with.
pub(crate) trait Sample: Ring {
    /// Some number other than zero, by its place in the list and the greatest denominator.
    fn sample(place: u16, denominators: u16) -> Self;
}

impl Sample for Frac {
    /// From 1 to 19, over 1 to the greatest denominator.
    fn sample(place: u16, denominators: u16) -> Frac {
        let num = place % 19 + 1;
        let den = place % denominators.max(1) + 1;
        Frac::new(i128::from(num), i128::from(den)).unwrap_or(Frac::one())
    }
}

impl Sample for Gf {
    fn sample(place: u16, _: u16) -> Gf {
        Gf::new(place % 61 * 997 + 1).unwrap_or(Gf::one())
    }
}

// What is done, how often, and to polynomials with how many powers of each variable.
#[derive(Drop)]
struct Work {
    adds: bool,
    denominators: u16,
    sides: [u16; 3],
    times: u32,
}

impl Row<'_> {
    /// How many terms the product or the sum (`mul` or `add`) of two dense polynomials has, over `gf` or over fractions up to a greatest
    /// denominator, with as many powers of each variable as `sides` says; the work is done some times over.
    pub(crate) fn push_dense(&self, text: &mut String) -> Result<(), RowError> {
        let [what, numbers, sides, times] = self.values else {
            return Err(RowError::Unreadable);
        };
        let mut sides = sides.split(',');
        let work = Work {
            adds: *what == "add",
            denominators: numbers.parse().unwrap_or(1),
            sides: [
                side_of(sides.next()),
                side_of(sides.next()),
                side_of(sides.next()),
            ],
            times: times.parse().unwrap_or(1),
        };
        let count = match *numbers {
            "gf" => terms::<Gf>(self.alloc, &work),
            _ => terms::<Frac>(self.alloc, &work),
        };
        let count = count?;
        Ok(write!(text, "{count} terms")?)
    }
}

fn side_of(word: Option<&str>) -> u16 {
    match word {
        Some(word) => word.parse().unwrap_or(1),
        None => 1,
    }
}

// The number of terms of the last result.
fn terms<K: Sample>(alloc: Global, work: &Work) -> Result<usize, ArithmeticError> {
    let left = dense::<K>(alloc, work, 1)?;
    let right = dense::<K>(alloc, work, 5)?;
    let mut count = 0;
    for _ in 0..work.times {
        let result = if work.adds {
            left.add(alloc, &right)
        } else {
            left.mul(alloc, &right)
        };
        count = result?.terms().len();
    }
    Ok(count)
}

// The product of a polynomial in each of three variables.
fn dense<K: Sample>(
    alloc: Global,
    work: &Work,
    seed: u16,
) -> Result<Poly<K, Grevlex>, ArithmeticError>
    ensures { IfOk result (λ p. p.arity ≡ 3) }
{
    let mut product = Poly::one(alloc, Grevlex, 3)?;
    for variable in 0..3 {
        product = product.mul(alloc, &line(alloc, work, variable, seed)?)?;
    }
    Ok(product)
}

// The sum of the first powers of one variable, each with a number.
fn line<K: Sample>(
    alloc: Global,
    work: &Work,
    variable: usize,
    seed: u16,
) -> Result<Poly<K, Grevlex>, ArithmeticError>
    requires { variable < 3 }
    ensures { IfOk result (λ p. p.arity ≡ 3) }
{
    let x = Poly::variable(alloc, Grevlex, 3, variable)?;
    let mut sum = Poly::zero(alloc, Grevlex, 3);
    for place in 0..work.sides[variable] {
        let number = K::sample((place + 1).wrapping_mul(seed), work.denominators);
        let last = Poly::constant(alloc, Grevlex, 3, &number)?;
        sum = sum.mul(alloc, &x)?.add(alloc, &last)?;
    }
    Ok(sum)
}
