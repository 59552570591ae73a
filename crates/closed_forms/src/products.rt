//! Products of rows and matrices of fractions.
ghost use Rattle.std.specs.Prelude.{◌≡◌, ◌<◌, All, length, IfOk, IsErr, IsErrOf};
ghost use Rattle.algebra.specs.Fraction.{ℚ};
ghost use Rattle.polynomials.specs.Terms.{sum_of_products};
ghost use Rattle.frac128.specs.FracMeaning.{fraction_of};
ghost use Rattle.linear.specs.Rows.{fractions_of, rows_of};
ghost use Rattle.solvable_maps.specs.Inverse.{numbers_at, IsProduct};
ghost use Rattle.closed_forms.specs.Products.{IsPastDot, IsPastRow};

use frac128::Frac;
use ring_laws::{ArithmeticError, Ring, Wide};
use std::alloc::Global;

/// The row times a matrix of this width. `Wide` only where a number of a sum of products does not fit.
pub(crate) fn row_times(
    alloc: Global,
    row: &[Frac],
    matrix: &[Vec<Frac>],
    width: usize,
) -> Result<Vec<Frac>, ArithmeticError>
    requires { All (λ r. length r.items ≡ width) matrix.now }
    ensures product { IfOk result (λ out. IsProduct width (fractions_of row.now)
        (rows_of matrix.now) (fractions_of out.items)) }
    ensures wide { IsErrOf result ArithmeticError.Wide
        → IsPastRow width (fractions_of row.now) (rows_of matrix.now) }
{
    let mut out = Vec::new(alloc);
    for column in 0..width {
        out.push(dot(row, matrix, column)?)?;
    }
    Ok(out)
}

/// The sum of the products of a row's numbers with those of a column, as far as there are both.
/// `Wide` only where a product, or its sum with those behind it, does not fit.
fn dot(row: &[Frac], matrix: &[Vec<Frac>], column: usize) -> Result<Frac, Wide>
    requires { All (λ r. column < length r.items) matrix.now }
    ensures sum { IfOk result (λ sum. fraction_of sum
        ≡ sum_of_products ℚ (fractions_of row.now) (numbers_at column (rows_of matrix.now))) }
    ensures wide { IsErr result
        → IsPastDot (fractions_of row.now) (numbers_at column (rows_of matrix.now)) }
{
    let (Some((number, row)), Some((other, matrix))) = (row.split_first(), matrix.split_first())
    else {
        return Ok(Frac::zero());
    };
    let product = number.mul(&other[column])?;
    product.add(&dot(row, matrix, column)?)
}
