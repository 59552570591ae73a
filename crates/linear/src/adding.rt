//! Adding a row to an echelon list.
ghost use Rattle.std.specs.Prelude.{◌≡◌, ◌<◌, ℕ, All, length, get_or, IfOk, IsErrOf, []};
ghost use Rattle.vectors.specs.Adding.{less, lead, entry, IsPastTarget};
ghost use Rattle.linear.specs.Rows.{fractions_of, rows_of};
ghost use Rattle.linear.specs.Parts.{clear_column, place, IsPastClear};
ghost use Rattle.linear.specs.Found.{IsAddedOrLeft};

use crate::LinearError;
use crate::rows::{copy_row, fresh_of, lead_of, less_of};
use frac128::Frac;
use ring_laws::{ArithmeticError, Ring};
use std::alloc::Global;

/// The rows with one row more. None where it is a combination of them.
/// `Wide` only where the weight of the combination with that target is past.
pub(crate) fn with_row(
    alloc: Global,
    rows: &[Vec<Frac>],
    row: &Vec<Frac>,
) -> Result<Option<Vec<Vec<Frac>>>, LinearError>
    requires widths { All (λ e. length e.items ≡ length row.now.items) rows.now }
    requires leads { All (λ e. lead (fractions_of e.items) < length row.now.items) rows.now }
    ensures added { IfOk result (IsAddedOrLeft rows.now row.now.items) }
    ensures wide { (target : ℕ) → IsErrOf result (LinearError.Wide target)
        → IsPastTarget (rows_of rows.now) (fractions_of row.now.items) target }
{
    let found = match fresh_of(alloc, rows, row) {
        Ok(found) => found,
        Err(ArithmeticError::Wide) => return Err(LinearError::Wide { target: rows.len() }),
        Err(ArithmeticError::Memory) => return Err(LinearError::Memory),
    };
    let Some((column, fresh)) = found else {
        return Ok(None);
    };
    let mut more = match cleared_of(alloc, rows, column, &fresh) {
        Ok(more) => more,
        Err(error) => return Err(error),
    };
    more.insert(place_of(rows, column), fresh)?;
    Ok(Some(more))
}

/// Each row less its entry in the column times the fresh one.
fn cleared_of(
    alloc: Global,
    rows: &[Vec<Frac>],
    column: usize,
    fresh: &Vec<Frac>,
) -> Result<Vec<Vec<Frac>>, LinearError>
    requires widths { All (λ e. length e.items ≡ length fresh.now.items) rows.now }
    requires column { column < length fresh.now.items }
    ensures rows { IfOk result (λ out.
        rows_of out.items ≡ clear_column column (fractions_of fresh.now.items) (rows_of rows.now)) }
    ensures wide { (target : ℕ) → IsErrOf result (LinearError.Wide target)
        → (target < length rows.now)
        × IsPastClear (get_or (rows_of rows.now) target []) column (fractions_of fresh.now.items) }
{
    let mut out = Vec::new(alloc);
    for target in 0..rows.len() {
        match cleared_row(alloc, &rows[target], column, fresh) {
            Ok(row) => out.push(row)?,
            Err(ArithmeticError::Wide) => return Err(LinearError::Wide { target }),
            Err(ArithmeticError::Memory) => return Err(LinearError::Memory),
        }
    }
    Ok(out)
}

/// The row less its entry in the column times the fresh one. `Wide` only where the weight of that is past.
fn cleared_row(
    alloc: Global,
    row: &Vec<Frac>,
    column: usize,
    fresh: &Vec<Frac>,
) -> Result<Vec<Frac>, ArithmeticError>
    requires width { length row.now.items ≡ length fresh.now.items }
    requires column { column < length fresh.now.items }
    ensures row { IfOk result (λ out. fractions_of out.items ≡ less (fractions_of row.now.items)
        (entry (fractions_of row.now.items) column) (fractions_of fresh.now.items)) }
    ensures wide { IsErrOf result ArithmeticError.Wide
        → IsPastClear (fractions_of row.now.items) column (fractions_of fresh.now.items) }
{
    let factor = &row[column];
    if factor.is_zero() {
        return Ok(copy_row(alloc, row.as_slice())?);
    }
    less_of(alloc, row, factor, fresh)
}

/// The first place of a row that leads behind the column.
fn place_of(rows: &[Vec<Frac>], column: usize) -> usize
    ensures place { result ≡ place column (rows_of rows.now) }
{
    for i in 0..rows.len() {
        if column < lead_of(&rows[i]) {
            return i;
        }
    }
    rows.len()
}
