//! Why a closing gave no answer.
ghost use Rattle.std.specs.Prelude.{◌≡◌};
ghost use Rattle.closing.specs.declared.error.ClosingError.TheVariants.{Memory};

use std::alloc::{AllocError, AllocFailed};

/// Why a closing gave no answer. The letters of a word are numbers of branches, which count from 1.
#[derive(Drop, Debug)]
pub enum ClosingError {
    /// A product or a sum by which the candidate of this word, or its rest at the start, is formed
    /// passes a limit: the degree of a product is above 64, or a result has more than 4,096 terms.
    Limit { word: Vec<u32> },
    /// A number of such a product or sum, or of what comes next in a task of this word's candidate,
    /// may not fit.
    Wide { word: Vec<u32> },
    /// As many of the entries are units as are allowed, and what comes next is one.
    Budget,
    /// No memory was left.
    Memory,
}

impl From<AllocError> for ClosingError {
    ghost from_gives = { λ _ e. e ≡ Memory };

    fn from(_: AllocError) -> Self {
        ClosingError::Memory
    }
}

impl<T: Drop> From<AllocFailed<T>> for ClosingError {
    ghost from_gives = { λ _ e. e ≡ Memory };

    fn from(_: AllocFailed<T>) -> Self {
        ClosingError::Memory
    }
}
