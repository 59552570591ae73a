//! Why a text was not read.

ghost use Rattle.std.specs.Prelude.{◌≡◌, Some};
ghost use Rattle.poly_text.specs.Faults.{fault_of, reason_of};
ghost use Rattle.poly_text.specs.declared.error.TextError.TheVariants.{Memory};

use std::alloc::{AllocError, AllocFailed};
use thiserror::Error;

/// The first fault of a text: the token at the byte offset `at`.
#[derive(Clone, Copy, Debug, PartialEq, Eq, Error)]
pub enum TextError {
    /// The token can't continue the tokens before it to any text.
    #[error("syntax at {at}")]
    Syntax { at: usize },
    /// The token passes a limit.
    #[error("limit at {at}")]
    Limit { at: usize },
    /// The token is a number above 2^127 - 1.
    #[error("wide at {at}")]
    Wide { at: usize },
    /// The token is a name that is declared or set a second time.
    #[error("twice at {at}")]
    Twice { at: usize },
    /// The token is a name that isn't declared.
    #[error("unknown at {at}")]
    Unknown { at: usize },
    /// The token is a name that `init` sets and uses.
    #[error("init uses at {at}")]
    InitUses { at: usize },
    /// The token is a name of `locals` that its branch hasn't set.
    #[error("unset at {at}")]
    Unset { at: usize },
    /// The token is a divisor that is 0, or no number.
    #[error("divisor at {at}")]
    Divisor { at: usize },
    #[error("out of memory")]
    Memory,
}

impl From<AllocError> for TextError {
    ghost from_gives = { λ _ e. e ≡ Memory };

    fn from(_error: AllocError) -> TextError {
        TextError::Memory
    }
}

impl<T: Drop> From<AllocFailed<T>> for TextError {
    ghost from_gives = { λ _ e. e ≡ Memory };

    fn from(_error: AllocFailed<T>) -> TextError {
        TextError::Memory
    }
}

/// Why variables may not stand in a sum.
#[derive(Clone, Copy)]
pub enum Refusal {
    /// `init` sets them.
    InitUses,
    /// They are names of `locals` that the branch hasn't set.
    Unset,
}

impl Refusal {
    /// The fault of such a variable, which stands at an offset.
    pub fn fault(self, at: usize) -> TextError
        ensures { fault_of result ≡ Some (record { reason = reason_of self; at = at }) }
    {
        match self {
            Refusal::InitUses => TextError::InitUses { at },
            Refusal::Unset => TextError::Unset { at },
        }
    }
}
