//! The powers of a matrix of whole numbers.
ghost use Rattle.std.specs.Prelude.{◌≡◌, ◌<◌, All, length, IfOk, map, unsigned_abs, ◌+ℤ◌, ◌*ℤ◌};
ghost use Rattle.algebra.specs.Limits.{number_limit};
ghost use Rattle.linear.specs.Rows.{fractions_of};
ghost use Rattle.vectors.specs.Causes.{column as column_of};
ghost use Rattle.eigen_split.specs.Ints.{ints, ints_of, whole_rows, int_column as column_in, int_columns, int_dot, times_columns, FitsProduct, AllFit};

use crate::multiple::zero;
use frac128::{Frac, Whole};
use ring_laws::Ring;
use std::alloc::{AllocError, Global};

/// The columns of a matrix.
pub(crate) fn columns_of(
    alloc: Global,
    rows: &Vec<Vec<Whole>>,
) -> Result<Vec<Vec<Whole>>, AllocError>
    requires { All (λ row. length row.items ≡ length rows.now.items) rows.now.items }
    ensures { IfOk result (λ out.
        ints_of out.items ≡ int_columns (length rows.now.items) (ints_of rows.now.items)) }
{
    let mut out = Vec::new(alloc);
    for j in 0..rows.len() {
        out.push(int_column(alloc, rows.as_slice(), j)?)?;
    }
    Ok(out)
}

/// A column of a matrix.
fn int_column(alloc: Global, rows: &[Vec<Whole>], j: usize) -> Result<Vec<Whole>, AllocError>
    requires { All (λ row. j < length row.items) rows.now }
    ensures { IfOk result (λ out. ints out.items ≡ column_in j (ints_of rows.now)) }
{
    let mut out = Vec::new(alloc);
    for row in rows {
        out.push(row[j])?;
    }
    Ok(out)
}

/// A column as fractions.
pub(crate) fn column(alloc: Global, rows: &[Vec<Whole>], j: usize) -> Result<Vec<Frac>, AllocError>
    requires widths { All (λ row. j < length row.items) rows.now }
    ensures { IfOk result (λ out.
        fractions_of out.items ≡ column_of j (whole_rows (ints_of rows.now))) }
{
    let mut out = Vec::new(alloc);
    for row in rows {
        out.push(Frac::whole(row[j]))?;
    }
    Ok(out)
}

/// The rows times the matrix of these columns.
pub(crate) fn product(
    alloc: Global,
    rows: &[Vec<Whole>],
    columns: &[Vec<Whole>],
) -> Result<Vec<Vec<Whole>>, AllocError>
    requires { AllFit rows.now columns.now }
    ensures { IfOk result (λ out.
        ints_of out.items ≡ map (times_columns (ints_of columns.now)) (ints_of rows.now)) }
{
    let mut out = Vec::new(alloc);
    for row in rows {
        out.push(times(alloc, row.as_slice(), columns)?)?;
    }
    Ok(out)
}

/// A row times the matrix of these columns.
fn times(alloc: Global, row: &[Whole], columns: &[Vec<Whole>]) -> Result<Vec<Whole>, AllocError>
    requires { All (λ column. FitsProduct (ints row.now) (ints column.items)) columns.now }
    ensures { IfOk result (λ out.
        ints out.items ≡ times_columns (ints_of columns.now) (ints row.now)) }
{
    let mut out = Vec::new(alloc);
    for column in columns {
        out.push(dot(row, column.as_slice()))?;
    }
    Ok(out)
}

/// The sum of the products.
fn dot(left: &[Whole], right: &[Whole]) -> Whole
    requires { FitsProduct (ints left.now) (ints right.now) }
    ensures { result.value ≡ int_dot (ints left.now) (ints right.now) }
{
    let (Some((first, left)), Some((second, right))) = (left.split_first(), right.split_first())
    else {
        return zero();
    };
    product_plus(first, second, &dot(left, right))
}

/// The product of two numbers plus a third.
fn product_plus(first: &Whole, second: &Whole, rest: &Whole) -> Whole
    requires product { unsigned_abs (first.now.value *ℤ second.now.value) < number_limit }
    requires sum { unsigned_abs (first.now.value *ℤ second.now.value +ℤ rest.now.value)
        < number_limit }
    ensures { result.value ≡ first.now.value *ℤ second.now.value +ℤ rest.now.value }
{
    match first.mul(second) {
        Ok(product) => match product.add(rest) {
            Ok(sum) => sum,
            Err(_) => unreachable!(),
        },
        Err(_) => unreachable!(),
    }
}
