//! Rows of fractions.
ghost use Rattle.std.specs.Prelude.{◌≡◌, ◌<◌, ◌++◌, All, length, OnOk, IfOk, IsErrOf};
ghost use Rattle.frac128.specs.FracMeaning.{fraction_of};
ghost use Rattle.algebra.specs.Size.{IsPast};
ghost use Rattle.vectors.specs.Adding.{less, lead, reduce_row, reduced_size, row_size, scale_row};
ghost use Rattle.linear.specs.Rows.{fractions_of, rows_of};
ghost use Rattle.linear.specs.Parts.{IsPastLess, IsPastScaled, IsPastFresh};
ghost use Rattle.linear.specs.Found.{IsFreshOrLeft};

use frac128::Frac;
use ring_laws::{ArithmeticError, Ring};
use std::alloc::{AllocError, Global};

/// The place of the first entry that isn't zero.
pub(crate) fn lead_of(row: &Vec<Frac>) -> usize
    ensures { result ≡ lead (fractions_of row.now.items) }
{
    for i in 0..row.len() {
        if !row[i].is_zero() {
            return i;
        }
    }
    row.len()
}

/// The row less the multiple of another. `Wide` only where the weight of that is past.
pub(crate) fn less_of(
    alloc: Global,
    row: &Vec<Frac>,
    factor: &Frac,
    other: &Vec<Frac>,
) -> Result<Vec<Frac>, ArithmeticError>
    requires { length row.now.items ≡ length other.now.items }
    ensures row { IfOk result (λ out. fractions_of out.items ≡ less (fractions_of row.now.items)
        (fraction_of factor.now) (fractions_of other.now.items)) }
    ensures wide { IsErrOf result ArithmeticError.Wide → IsPastLess (fractions_of row.now.items)
        (fraction_of factor.now) (fractions_of other.now.items) }
{
    let mut out = Vec::new(alloc);
    push_less(&mut out, row.as_slice(), factor, other.as_slice())?;
    Ok(out)
}

/// The row less the multiple of another goes behind what is there.
fn push_less(
    out: &mut Vec<Frac>,
    row: &[Frac],
    factor: &Frac,
    other: &[Frac],
) -> Result<(), ArithmeticError>
    requires { length row.now ≡ length other.now }
    ensures row { OnOk result (fractions_of out.new.items ≡ fractions_of out.old.items
        ++ less (fractions_of row.now) (fraction_of factor.now) (fractions_of other.now)) }
    ensures wide { IsErrOf result ArithmeticError.Wide
        → IsPastLess (fractions_of row.now) (fraction_of factor.now) (fractions_of other.now) }
{
    let (Some((first, row)), Some((second, other))) = (row.split_first(), other.split_first())
    else {
        return Ok(());
    };
    let product = factor.mul(second)?;
    out.push(first.sub(&product)?)?;
    push_less(out, row, factor, other)
}

/// What is left of the row, divided by its first entry that isn't zero, and the column of that; none where nothing is left.
/// `Wide` only where the weight of what is left, or of the division, is past.
pub(crate) fn fresh_of(
    alloc: Global,
    rows: &[Vec<Frac>],
    row: &Vec<Frac>,
) -> Result<Option<(usize, Vec<Frac>)>, ArithmeticError>
    requires widths { All (λ e. length e.items ≡ length row.now.items) rows.now }
    requires leads { All (λ e. lead (fractions_of e.items) < length row.now.items) rows.now }
    ensures fresh { IfOk result (IsFreshOrLeft rows.now row.now.items) }
    ensures wide { IsErrOf result ArithmeticError.Wide
        → IsPastFresh (rows_of rows.now) (fractions_of row.now.items) }
{
    let rest = reduced_of(alloc, rows, row)?;
    let column = lead_of(&rest);
    if column == rest.len() {
        return Ok(None);
    }
    let by = rest[column].reciprocal();
    let fresh = scaled_of(alloc, rest.as_slice(), &by)?;
    Ok(Some((column, fresh)))
}

/// The row less, for each of the rows, its entry in their leading column times them. `Wide` only where the weight of that is past.
fn reduced_of(
    alloc: Global,
    rows: &[Vec<Frac>],
    row: &Vec<Frac>,
) -> Result<Vec<Frac>, ArithmeticError>
    requires widths { All (λ e. length e.items ≡ length row.now.items) rows.now }
    requires leads { All (λ e. lead (fractions_of e.items) < length row.now.items) rows.now }
    ensures row { IfOk result (λ out.
        fractions_of out.items ≡ reduce_row (rows_of rows.now) (fractions_of row.now.items)) }
    ensures width { IfOk result (λ out. length out.items ≡ length row.now.items) }
    ensures wide { IsErrOf result ArithmeticError.Wide
        → IsPast (reduced_size (fractions_of row.now.items)
        (rows_of rows.now) (row_size (fractions_of row.now.items))) }
{
    let mut rest = copy_row(alloc, row.as_slice())?;
    for other in rows {
        let factor = &row[lead_of(other)];
        if !factor.is_zero() {
            rest = less_of(alloc, &rest, factor, other)?;
        }
    }
    Ok(rest)
}

/// The row times a number. `Wide` only where a product is past.
fn scaled_of(alloc: Global, row: &[Frac], by: &Frac) -> Result<Vec<Frac>, ArithmeticError>
    ensures row { IfOk result (λ out.
        fractions_of out.items ≡ scale_row (fraction_of by.now) (fractions_of row.now)) }
    ensures wide { IsErrOf result ArithmeticError.Wide
        → IsPastScaled (fractions_of row.now) (fraction_of by.now) }
{
    let mut out = Vec::new(alloc);
    for number in row {
        out.push(number.mul(by)?)?;
    }
    Ok(out)
}

/// The row again.
pub(crate) fn copy_row(alloc: Global, row: &[Frac]) -> Result<Vec<Frac>, AllocError>
    ensures { IfOk result (λ out. out.items ≡ row.now) }
{
    let mut out = Vec::new(alloc);
    for number in row {
        out.push(*number)?;
    }
    Ok(out)
}
