//! Divides a polynomial by a list, with cofactors, under a meter.
//!
//! Proved: the entries are a run of the machine; where it has ended, the cofactors and the rest are those of the division rule.
//!
//! Notion: division, 2.3.
#![tactic(auto)]

mod current;
mod dividing;

pub use current::{Current, Cut, cancel};
pub use dividing::{Division, divide, lead_copy, leads_of};
use journal::MeterError;
use ring_laws::ArithmeticError;
use std::alloc::{AllocError, AllocFailed};
use thiserror::Error;

/// Why a computation with ideals gave no answer.
#[derive(Clone, Copy, Debug, PartialEq, Eq, Error)]
pub enum EngineError {
    /// The weight of what comes next is past.
    #[error("a number or an exponent is too wide")]
    Wide,
    #[error("the budget is spent")]
    Budget,
    #[error("out of memory")]
    Memory,
}

impl From<ArithmeticError> for EngineError {
    ghost use Rattle.std.specs.Prelude.{◌≡◌};
    ghost use Rattle.divide.specs.Errors.{of_arithmetic};

    ghost from_gives = { λ e f. f ≡ of_arithmetic e };

    fn from(error: ArithmeticError) -> Self {
        match error {
            ArithmeticError::Wide => EngineError::Wide,
            ArithmeticError::Memory => EngineError::Memory,
        }
    }
}

impl From<MeterError> for EngineError {
    ghost use Rattle.std.specs.Prelude.{◌≡◌};
    ghost use Rattle.divide.specs.Errors.{of_meter};

    ghost from_gives = { λ e f. f ≡ of_meter e };

    fn from(error: MeterError) -> Self {
        match error {
            MeterError::Budget => EngineError::Budget,
            MeterError::Memory => EngineError::Memory,
        }
    }
}

impl From<AllocError> for EngineError {
    ghost use Rattle.std.specs.Prelude.{◌≡◌};
    ghost use Rattle.divide.specs.declared.EngineError.TheVariants.{Memory};

    ghost from_gives = { λ _ e. e ≡ Memory };

    fn from(_: AllocError) -> Self {
        EngineError::Memory
    }
}

impl<T: Drop> From<AllocFailed<T>> for EngineError {
    ghost use Rattle.std.specs.Prelude.{◌≡◌};
    ghost use Rattle.divide.specs.declared.EngineError.TheVariants.{Memory};

    ghost from_gives = { λ _ e. e ≡ Memory };

    fn from(_: AllocFailed<T>) -> Self {
        EngineError::Memory
    }
}
