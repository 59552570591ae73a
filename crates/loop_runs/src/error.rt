//! Why a run was not replayed.

ghost use Rattle.std.specs.Prelude.{◌≡◌};
ghost use Rattle.loop_runs.specs.declared.error.RunError.TheVariants.{Memory};

use std::alloc::{AllocError, AllocFailed};

/// The first reason why a run was not replayed. Variables and letters count from 0.
#[derive(Clone, Copy, PartialEq, Eq)]
pub enum RunError {
    /// There are other than one value for each variable.
    Count { values: usize, variables: usize },
    /// The values don't meet the equation of `init` for this variable.
    Start { var: usize },
    /// The letter at this index is the number of no branch.
    NoBranch { index: usize },
    /// An operation on the way to the value of this variable or local name doesn't fit. Local names count behind the variables, steps from 1,
    /// and step 0 is the start.
    Wide { step: usize, var: usize },
    /// No memory was left.
    Memory,
}

impl From<AllocError> for RunError {
    ghost from_gives = { λ _ e. e ≡ Memory };

    fn from(_: AllocError) -> Self {
        RunError::Memory
    }
}

impl<T: Drop> From<AllocFailed<T>> for RunError {
    ghost from_gives = { λ _ e. e ≡ Memory };

    fn from(_: AllocFailed<T>) -> Self {
        RunError::Memory
    }
}
