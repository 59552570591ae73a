//! Splits a square matrix of fractions: `split` finds left eigenvectors (*forms*) with their eigenvalues.
//!
//! Proved: as many forms as rows, each with its eigenvalue, the values ascending but for zeros, which stand last; or that the matrix
//! doesn't split over the fractions, that a sum of a column is out of range, or that a number is too wide, each by its cause.
//!
//! Notion: eigenvalues; the characteristic polynomial by Faddeev's method: Gantmacher, *The Theory of Matrices*, IV.5.
#![tactic(auto)]

ghost use Rattle.std.specs.Prelude.{◌≡◌, ◌≤◌, pos, All, length, IsOk, IfOk, IfErr};
ghost use Rattle.frac128.specs.FracMeaning.{fraction_of};
ghost use Rattle.linear.specs.Rows.{fractions_of, rows_of};
ghost use Rattle.vectors.specs.Matrices.{AreForms, AreSearched, SplitsAt};
ghost use Rattle.vectors.specs.Causes.{limit as limit_of};
ghost use Rattle.eigen_split.specs.Ints.{most_rows};
ghost use Rattle.eigen_split.specs.Refusal.{Ascending, IsWithin, IfSplitRefused, IsAnswer, IsSingle, IsSplitInto};

mod annihilator;
mod levels;
mod multiple;
mod powers;
mod search;
mod splitting;
mod whole;

use frac128::Frac;
use multiple::WholeMultiple;
use ring_laws::Ring;
pub use splitting::Split;
use std::alloc::{AllocError, AllocFailed, Global};
use thiserror::Error;
use whole::{denominator_of, greatest_sum};

/// Why a matrix was not split.
#[derive(Clone, Copy, Debug, PartialEq, Eq, Error)]
pub enum EigenError {
    /// No list of fractions has the product of the matrix less each of them zero.
    #[error("the matrix does not split")]
    Eigen,
    /// The greatest column sum of the absolute values of the matrix times its denominator is above the limit.
    #[error("the greatest column sum is {sum}")]
    Range {
        sum: i128,
    },
    /// A combination of rows has a number that does not fit: at this candidate, this power, and this column of the power or, above the size, this vector of its kernel.
    /// Candidate 0, power 0 and row 0 where the denominator, an entry or a column sum of the matrix times it does not fit.
    #[error("candidate {candidate}, power {power}, row {row} is too wide")]
    Wide {
        candidate: i32,
        power: u32,
        row: u32,
    },
    #[error("out of memory")]
    Memory,
}

impl From<AllocError> for EigenError {
    ghost use Rattle.eigen_split.specs.declared.EigenError.TheVariants.{Memory};

    ghost from_gives = { λ _ e. e ≡ Memory };

    fn from(_: AllocError) -> EigenError {
        EigenError::Memory
    }
}

impl<T: Drop> From<AllocFailed<T>> for EigenError {
    ghost use Rattle.eigen_split.specs.declared.EigenError.TheVariants.{Memory};

    ghost from_gives = { λ _ e. e ≡ Memory };

    fn from(_: AllocFailed<T>) -> EigenError {
        EigenError::Memory
    }
}

/// The greatest column sum that is allowed for a matrix of this size.
fn limit(size: usize) -> u128
    ensures { result ≡ limit_of size }
{
    if size <= 8 { 4096 } else { 512 }
}

/// As many forms as rows, and a value of each: values ascend, but those that are 0 stand last, the forms are independent, and each times the matrix is its value times it and a combination of earlier forms of that value.
/// `Eigen` exactly where no list of fractions has the product of the matrix less each of them zero, and no other refusal comes before; `Range` with the greatest column sum of the absolute
/// values of the matrix times its least denominator, where the matrix has two or more rows and that is above 4,096, or above 512 for 9 rows or more. Candidates are whole numbers within that sum over the
/// denominator, in ascending order but for 0, which comes last, and only where the others have fewer forms than there are rows. The forms of one are the vectors of the kernels of the powers of the matrix less
/// it that are no combination of those before them, power by power as long as the kernel grows; of a matrix of one number the form is 1, with that number as its value. `Wide` comes only at a candidate within
/// the sum, at a power that is taken, and at a column of it or a vector of its kernel, or with candidate 0, power 0 and row 0 before the search. The forms of a value are its generalized eigenvectors (Gantmacher, "The Theory of Matrices", chapter VII).
pub fn split(alloc: Global, matrix: &Vec<Vec<Frac>>) -> Result<Split, EigenError>
    requires some { 1 ≤ length matrix.now.items }
    requires size { length matrix.now.items ≤ most_rows }
    requires square { All (λ row. length row.items ≡ length matrix.now.items) matrix.now.items }
    ensures forms { IfOk result (λ found. AreForms (length matrix.now.items)
        (rows_of matrix.now.items) (rows_of found.forms.items) (fractions_of found.values.items)) }
    ensures splits { IsOk result → SplitsAt (length matrix.now.items) (rows_of matrix.now.items) }
    ensures searched { IfOk result (λ found. AreSearched (length matrix.now.items)
        (rows_of matrix.now.items) (rows_of found.forms.items) (fractions_of found.values.items)) }
    ensures found { IfOk result (λ found. IsSplitInto (length matrix.now.items)
        (rows_of matrix.now.items) (rows_of found.forms.items) (fractions_of found.values.items)) }
    ensures ascending { IfOk result (λ found. Ascending (fractions_of found.values.items)) }
    ensures within { IsOk result → 2 ≤ length matrix.now.items
        → IsWithin (length matrix.now.items) (rows_of matrix.now.items) }
    ensures refused { IfErr result
        (IfSplitRefused (length matrix.now.items) (rows_of matrix.now.items)) }
{
    if matrix.len() == 1 {
        return Ok(single(alloc, &matrix[0][0])?);
    }
    larger(alloc, matrix)
}

/// The same for a matrix of two rows or more.
fn larger(alloc: Global, matrix: &Vec<Vec<Frac>>) -> Result<Split, EigenError>
    requires some { 2 ≤ length matrix.now.items }
    requires size { length matrix.now.items ≤ most_rows }
    requires square { All (λ row. length row.items ≡ length matrix.now.items) matrix.now.items }
    ensures { IsAnswer (length matrix.now.items) (rows_of matrix.now.items) result }
{
    let Some(denominator) = denominator_of(matrix.as_slice()) else {
        return Err(too_wide());
    };
    let Some(sum) = greatest_sum(matrix, denominator) else {
        return Err(too_wide());
    };
    if sum > limit(matrix.len()) {
        return Err(EigenError::Range { sum: sum as i128 });
    }
    let multiple = WholeMultiple {
        matrix,
        denominator,
    };
    match multiple.search(alloc, sum as u32) {
        Ok(found) => {
            if found.forms.len() == matrix.len() {
                Ok(found)
            } else {
                Err(EigenError::Eigen)
            }
        }
        Err(error) => Err(error),
    }
}

/// The refusal of a denominator or a column sum.
fn too_wide() -> EigenError
    ensures { result ≡ EigenError.Wide (pos 0) 0 0 }
{
    EigenError::Wide {
        candidate: 0,
        power: 0,
        row: 0,
    }
}

/// A matrix of one number has the form 1.
fn single(alloc: Global, number: &Frac) -> Result<Split, AllocError>
    ensures { IfOk result (λ found. IsSingle (fraction_of number.now)
        (rows_of found.forms.items) (fractions_of found.values.items)) }
{
    let mut form = Vec::new(alloc);
    form.push(Frac::one())?;
    let mut forms = Vec::new(alloc);
    forms.push(form)?;
    let mut values = Vec::new(alloc);
    values.push(*number)?;
    Ok(Split { forms, values })
}
