//! The least multiple of a matrix of fractions with whole numbers.
ghost use Rattle.std.specs.Prelude.{◌≡◌, ◌<◌, ◌≤◌, length, cond, IfOk, unsigned_abs, pos, ◌+ℤ◌, neg_ℤ};
ghost use Rattle.linear.specs.Rows.{rows_of};
ghost use Rattle.vectors.specs.Adding.{entry as entry_in};
ghost use Rattle.vectors.specs.Matrices.{whole_number as whole_of};
ghost use Rattle.vectors.specs.Causes.{row_at};
ghost use Rattle.eigen_split.specs.Ints.{ints, ints_of, shifted_row as row_of, shifted_rows, IsReady, ready_prop, most_sum};

use crate::whole::whole_number;
use frac128::{Frac, Whole};
use std::alloc::{AllocError, Global};

/// The least multiple of a matrix with whole numbers, where no sum of a column of it is above the limit.
#[derive(Clone, Copy)]
pub(crate) struct WholeMultiple<'a> {
    pub(crate) matrix: &'a Vec<Vec<Frac>>,
    /// The least common denominator of the matrix.
    pub(crate) denominator: u128,
    ghost ready: { IsReady (length matrix.now.items) (rows_of matrix.now.items)
        denominator } by { ready_prop _ _ _ },
}

impl WholeMultiple<'_> {
    ghost use Rattle.eigen_split.specs.WholeMultiple.{rows_in, size_of};

    /// The matrix, less the candidate on the diagonal.
    pub(crate) fn less_candidate(
        &self,
        alloc: Global,
        candidate: &Whole,
    ) -> Result<Vec<Vec<Whole>>, AllocError>
        requires { unsigned_abs candidate.now.value ≤ most_sum }
        ensures { IfOk result (λ out. ints_of out.items
            ≡ shifted_rows self.now.denominator candidate.now.value (rows_in self.now)) }
    {
        let mut out = Vec::new(alloc);
        for i in 0..self.matrix.len() {
            out.push(self.shifted_row(alloc, candidate, i)?)?;
        }
        Ok(out)
    }

    /// A row of that matrix.
    fn shifted_row(
        &self,
        alloc: Global,
        candidate: &Whole,
        i: usize,
    ) -> Result<Vec<Whole>, AllocError>
        requires candidate { unsigned_abs candidate.now.value ≤ most_sum }
        requires row { i < size_of self.now }
        ensures { IfOk result (λ out. ints out.items
            ≡ row_of self.now.denominator candidate.now.value (rows_in self.now) i) }
    {
        let mut out = Vec::new(alloc);
        for j in 0..self.matrix.len() {
            out.push(less(&self.entry(i, j), &shift(candidate, i == j)))?;
        }
        Ok(out)
    }

    /// An entry.
    pub(crate) fn entry(&self, i: usize, j: usize) -> Whole
        requires row { i < size_of self.now }
        requires column { j < size_of self.now }
        ensures is { result.value
            ≡ whole_of self.now.denominator (entry_in (row_at (rows_in self.now) i) j) }
        ensures small { unsigned_abs result.value ≤ most_sum }
    {
        match whole_number(&self.matrix[i][j], self.denominator) {
            Some(entry) => entry,
            None => unreachable!(),
        }
    }
}

/// What an entry is less by: the candidate on the diagonal, and elsewhere zero.
fn shift(candidate: &Whole, is_on_diagonal: bool) -> Whole
    ensures { result.value ≡ cond is_on_diagonal candidate.now.value (pos 0) }
{
    if is_on_diagonal { *candidate } else { zero() }
}

/// The number less a small one.
fn less(number: &Whole, small: &Whole) -> Whole
    requires number { unsigned_abs number.now.value ≤ most_sum }
    requires small { unsigned_abs small.now.value ≤ most_sum }
    ensures { result.value ≡ number.now.value +ℤ neg_ℤ small.now.value }
{
    Whole::new(number.value() - small.value()).unwrap()
}

/// The number 0.
pub(crate) fn zero() -> Whole
    ensures { result.value ≡ pos 0 }
{
    Whole::new(0).unwrap()
}
