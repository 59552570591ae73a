//! The kernel of an echelon list.
ghost use Rattle.std.specs.Prelude.{◌≡◌, ◌<◌, All, length, IfOk};
ghost use Rattle.frac128.specs.FracMeaning.{fraction_of};
ghost use Rattle.linear.specs.Rows.{fractions_of, rows_of};
ghost use Rattle.linear.specs.Parts.{is_free, kernel_entry, kernel_row, kernel_rows};

use crate::rows::lead_of;
use frac128::Frac;
use ring_laws::Ring;
use std::alloc::{AllocError, Global};

/// One vector for each column in which no row leads, in order.
pub(crate) fn kernel_of(
    alloc: Global,
    rows: &[Vec<Frac>],
    width: usize,
) -> Result<Vec<Vec<Frac>>, AllocError>
    requires { All (λ e. length e.items ≡ width) rows.now }
    ensures { IfOk result (λ vectors.
        rows_of vectors.items ≡ kernel_rows (rows_of rows.now) width 0 width) }
{
    let mut vectors = Vec::new(alloc);
    for column in 0..width {
        if has_no_lead(rows, column) {
            vectors.push(vector_of(alloc, rows, width, column)?)?;
        }
    }
    Ok(vectors)
}

/// Whether no row leads in the column.
fn has_no_lead(rows: &[Vec<Frac>], column: usize) -> bool
    ensures { result ≡ is_free column (rows_of rows.now) }
{
    for row in rows {
        if lead_of(row) == column {
            return false;
        }
    }
    true
}

/// The vector of a column: 1 there, the opposite of a row's entry where it leads, and 0 elsewhere.
fn vector_of(
    alloc: Global,
    rows: &[Vec<Frac>],
    width: usize,
    column: usize,
) -> Result<Vec<Frac>, AllocError>
    requires widths { All (λ e. length e.items ≡ width) rows.now }
    requires column { column < width }
    ensures { IfOk result (λ vector.
        fractions_of vector.items ≡ kernel_row (rows_of rows.now) column 0 width) }
{
    let mut vector = Vec::new(alloc);
    for i in 0..width {
        vector.push(entry_of(rows, column, i))?;
    }
    Ok(vector)
}

/// An entry of that vector.
fn entry_of(rows: &[Vec<Frac>], column: usize, i: usize) -> Frac
    requires { All (λ e. column < length e.items) rows.now }
    ensures { fraction_of result ≡ kernel_entry (rows_of rows.now) column i }
{
    for row in rows {
        if lead_of(row) == i {
            return row[column].neg();
        }
    }
    if i == column {
        Frac::one()
    } else {
        Frac::zero()
    }
}
