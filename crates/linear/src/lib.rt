//! `Rref`: reduced echelon lists of rows of fractions, and their kernels.
//!
//! Proved: the list is the reduced echelon list of its rows, and the kernel's basis is theirs; what is too wide is told with its target.
//!
//! Notion: reduced echelon lists, kernels.
#![tactic(auto)]

ghost use Rattle.std.specs.Prelude.{◌≡◌, ℕ, [], length, IfOk, OnOk, OnErr, IsErrOf, IsTrue, ◌↔◌};
ghost use Rattle.vectors.specs.Adding.{IsPastTarget};
ghost use Rattle.linear.specs.Rows.{fractions_of, rows_of};
ghost use Rattle.linear.specs.View.{IsWithRow, IsIndependent, AreKernelOf};

mod adding;
mod kernel;
mod rows;

use adding::with_row;
use frac128::Frac;
use kernel::kernel_of;
use std::alloc::{AllocError, AllocFailed, Global};
use std::marker::Model;
use thiserror::Error;

/// Why a row was not added.
#[derive(Clone, Copy, Debug, PartialEq, Eq, Error)]
pub enum LinearError {
    /// The combination with this target has a number that does not fit.
    #[error("the combination for row {target} is too wide")]
    Wide { target: usize },
    #[error("out of memory")]
    Memory,
}

impl From<AllocError> for LinearError {
    ghost use Rattle.linear.specs.declared.LinearError.TheVariants.{Memory};

    ghost from_gives = { λ _ e. e ≡ Memory };

    fn from(_: AllocError) -> LinearError {
        LinearError::Memory
    }
}

impl<T: Drop> From<AllocFailed<T>> for LinearError {
    ghost use Rattle.linear.specs.declared.LinearError.TheVariants.{Memory};

    ghost from_gives = { λ _ e. e ≡ Memory };

    fn from(_: AllocFailed<T>) -> LinearError {
        LinearError::Memory
    }
}

/// A reduced echelon list of rows of one width. It is seen as the width and the rows' fractions.
#[derive(Drop)]
pub struct Rref {
    width: usize,
    rows: Vec<Vec<Frac>>,
}

impl Model for Rref {
    ghost use Rattle.linear.specs.Rows.{rows_of};
    ghost use Rattle.linear.specs.View.{Echelon, IsReducedEchelon};

    ghost Value = { Echelon };

    ghost view = { λ r. record { width = r.width; rows = rows_of r.rows.items } };

    ghost invariant = { λ r. IsReducedEchelon r.width (rows_of r.rows.items) };
}

impl Rref {
    /// No rows, of this width.
    pub fn new(alloc: Global, width: usize) -> Rref
        ensures width { result.width ≡ width }
        ensures rows { result.rows ≡ [] }
    {
        Rref {
            width,
            rows: Vec::new(alloc),
        }
    }

    /// Adds a row: the rows are then the reduced echelon list of all rows added. True exactly where the row was no combination of those before.
    /// `Wide` only where the weight of the combination with that target is past. After an error the rows are as before.
    pub fn add_row(&mut self, row: &Vec<Frac>) -> Result<bool, LinearError>
        requires { length row.now.items ≡ self.old.width }
        ensures width { self.new.width ≡ self.old.width }
        ensures rows { OnOk result (IsWithRow self.old (fractions_of row.now.items) self.new) }
        ensures new { IfOk result (λ new. IsTrue new
            ↔ IsIndependent self.old (fractions_of row.now.items)) }
        ensures wide { (target : ℕ) → IsErrOf result (LinearError.Wide target)
            → IsPastTarget self.old.rows (fractions_of row.now.items) target }
        ensures kept { OnErr result (self.new ≡ self.old) }
    {
        match with_row(*self.rows.allocator(), self.rows.as_slice(), row) {
            Ok(Some(rows)) => {
                self.rows = rows;
                Ok(true)
            }
            Ok(None) => Ok(false),
            Err(error) => Err(error),
        }
    }

    /// The rows.
    pub fn rows(&self) -> &Vec<Vec<Frac>>
        ensures { rows_of result.now.items ≡ self.now.rows }
    {
        &self.rows
    }

    /// One vector for each column in which no row leads, in order of columns: 1 there and 0 at the other such columns. They are the kernel.
    pub fn kernel(&self) -> Result<Vec<Vec<Frac>>, AllocError>
        ensures kernel { IfOk result (λ vectors. AreKernelOf self.now (rows_of vectors.items)) }
    {
        kernel_of(*self.rows.allocator(), self.rows.as_slice(), self.width)
    }
}
