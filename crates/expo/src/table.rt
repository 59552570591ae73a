//! The numbers of the table that solves y(n+1) = λ y(n) + n^a σ^n.
ghost use Rattle.std.specs.Prelude.{◌≡◌, ◌≢◌, ◌<◌, ◌≤◌, ◌+◌, ◌-◌, pos, length, IfOk, IsErr, IsErrOf};
ghost use Rattle.algebra.specs.Fraction.{ℚ, fraction_size, whole};
ghost use Rattle.algebra.specs.Size.{IsPast};
ghost use Rattle.algebra.proofs.Fractions.{ℚ_field};
ghost use Rattle.expo.specs.Solutions.{most_degree, most_numbers};
ghost use Rattle.frac128.specs.FracMeaning.{fraction_of};
ghost use Rattle.exponentials.specs.Table.{IsOther, IsEqual};
ghost use Rattle.expo.specs.Numbers.{number_at};
ghost use Rattle.expo.specs.Rows.{binomial, sum_behind, IsPastBehind, IsPastOther, IsPastEqual};

use frac128::{Frac, Whole};
use ring_laws::{ArithmeticError, Field, Ring, Wide};
use std::alloc::Global;

/// The numbers q_0 to q_a where σ is not λ.
pub(crate) fn other_numbers(
    alloc: Global,
    degree: u32,
    inhomogeneity: &Frac,
    own: &Frac,
) -> Result<Vec<Frac>, ArithmeticError>
    requires degree { degree ≤ most_degree }
    requires different { fraction_of inhomogeneity.now ≢ fraction_of own.now }
    ensures count { IfOk result (λ q. length q.items ≡ degree + 1) }
    ensures table { IfOk result (λ q. IsOther ℚ_field
        (fraction_of inhomogeneity.now) (fraction_of own.now) degree (number_at q.items)) }
    ensures wide { IsErrOf result ArithmeticError.Wide
        → IsPastOther (fraction_of inhomogeneity.now) (fraction_of own.now) degree }
{
    let divisor = inhomogeneity.sub(own)?;
    let mut row = degree as usize + 1;
    let mut numbers = vec![in alloc; Frac::zero(); row]?;
    let mut start = Frac::one();
    while row > 0 {
        row -= 1;
        let sum = weighed_sum(&numbers, row, row, Frac::one())?;
        numbers[row] = start.sub(&inhomogeneity.mul(&sum)?)?.div(&divisor)?;
        start = Frac::zero();
    }
    Ok(numbers)
}

/// The numbers q_0 to q_(a+1) where σ is λ.
pub(crate) fn equal_numbers(
    alloc: Global,
    degree: u32,
    own: &Frac,
) -> Result<Vec<Frac>, ArithmeticError>
    requires degree { degree ≤ most_degree }
    requires nonzero { fraction_of own.now ≢ ℚ.zero }
    ensures count { IfOk result (λ q. length q.items ≡ degree + 2) }
    ensures table { IfOk result
        (λ q. IsEqual ℚ_field (fraction_of own.now) degree (number_at q.items)) }
    ensures wide { IsErrOf result ArithmeticError.Wide → IsPastEqual (fraction_of own.now) degree }
{
    let mut row = degree as usize + 1;
    let mut numbers = vec![in alloc; Frac::zero(); row + 1]?;
    let mut start = own.reciprocal();
    while row > 0 {
        let divisor = frac_of_usize(row);
        row -= 1;
        let sum = weighed_sum(&numbers, row, row + 1, divisor)?;
        numbers[row + 1] = start.sub(&sum)?.div(&divisor)?;
        start = Frac::zero();
    }
    Ok(numbers)
}

/// The sum of the numbers behind a place, each with the binomial coefficient of its place and the row; that of the place itself is given.
fn weighed_sum(numbers: &[Frac], row: usize, before: usize, given: Frac) -> Result<Frac, Wide>
    requires row { row ≤ before }
    requires before { before < length numbers.now }
    requires few { length numbers.now ≤ most_numbers }
    requires given { fraction_of given ≡ binomial before row }
    ensures sum { IfOk result (λ total. fraction_of total
        ≡ sum_behind (number_at numbers.now) row before (length numbers.now)) }
    ensures wide { IsErr result
        → IsPastBehind (number_at numbers.now) row before (length numbers.now) }
{
    let mut coefficient = given;
    let mut total = Frac::zero();
    for place in before + 1..numbers.len() {
        coefficient = next_binomial(&coefficient, place, row)?;
        total = total.add(&coefficient.mul(&numbers[place])?)?;
    }
    Ok(total)
}

/// The binomial coefficient of a place and the row, where that of the place before is given. `Wide` only where it does not fit.
fn next_binomial(given: &Frac, place: usize, row: usize) -> Result<Frac, Wide>
    requires row { row < place }
    requires few { place ≤ most_numbers }
    requires given { fraction_of given.now ≡ binomial (place - 1) row }
    ensures ok { IfOk result (λ c. fraction_of c ≡ binomial place row) }
    ensures wide { IsErr result → IsPast (fraction_size (binomial place row)) }
{
    let factor = frac_of_usize(place).div(&frac_of_usize(place - row))?;
    given.mul(&factor)
}

/// A number of places or iterations as a fraction.
pub(crate) fn frac_of_usize(number: usize) -> Frac
    ensures { fraction_of result ≡ whole (pos number) }
{
    match Whole::new(number as i128) {
        Some(whole) => Frac::whole(whole),
        None => unreachable!(),
    }
}
