//! Why a polynomial was not formed.

ghost use Rattle.std.specs.Prelude.{◌≡◌};
ghost use Rattle.loop_model.specs.declared.map_error.MapError.TheVariants.{Memory as MemoryError};

use std::alloc::{AllocError, AllocFailed};
use thiserror::Error;

/// An operator that can't be done, with none before it, by the order in which polynomials are formed, that passes a limit; `at` is its byte
/// offset.
#[derive(Clone, Copy, Debug, PartialEq, Eq, Error)]
pub enum MapError {
    /// The degree of its product is above 64, or its result has more than 4,096 terms.
    #[error("limit at {at}")]
    Limit { at: usize },
    /// The weight is past: a number of 128 bits may not hold what is formed.
    #[error("wide at {at}")]
    Wide { at: usize },
    #[error("out of memory")]
    Memory,
}

impl From<AllocError> for MapError {
    ghost from_gives = { λ _ e. e ≡ MemoryError };

    fn from(_: AllocError) -> MapError {
        MapError::Memory
    }
}

impl<T: Drop> From<AllocFailed<T>> for MapError {
    ghost from_gives = { λ _ e. e ≡ MemoryError };

    fn from(_: AllocFailed<T>) -> MapError {
        MapError::Memory
    }
}
