//! Why a list of names was not taken.

ghost use Rattle.std.specs.Prelude.{◌≡◌};
ghost use Rattle.loop_model.specs.declared.names_error.NamesError.TheVariants as names_error;

use std::alloc::{AllocError, AllocFailed};
use thiserror::Error;

/// Why a list of names was not taken.
#[derive(Clone, Copy, Debug, PartialEq, Eq, Error)]
pub enum NamesError {
    /// The name at this place stands before.
    #[error("name {index} stands before")]
    Twice { index: usize },
    /// The text at this place can't be a name.
    #[error("text {index} is no name")]
    Bad { index: usize },
    #[error("out of memory")]
    Memory,
}

impl From<AllocError> for NamesError {
    ghost from_gives = { λ _ e. e ≡ names_error.Memory };

    fn from(_error: AllocError) -> NamesError {
        NamesError::Memory
    }
}

impl<T: Drop> From<AllocFailed<T>> for NamesError {
    ghost from_gives = { λ _ e. e ≡ names_error.Memory };

    fn from(_error: AllocFailed<T>) -> NamesError {
        NamesError::Memory
    }
}
