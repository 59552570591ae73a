//! Why a task gave no answer.
use journal::MeterError;
use monos::Mono;
use std::alloc::{AllocError, AllocFailed};

/// Why the task of a transition gave no answer. Elements are those of the list where it leads to, and count from 0.
#[derive(Drop)]
pub enum TaskError {
    /// In the completion of the list and the zeros, the weight of what comes next is past.
    WideIdeal,
    /// A product or a sum by which the image of this element is formed passes a limit: the degree of a
    /// product is above 64, or a result has more than 4,096 terms.
    LimitImage { element: usize },
    /// A number of such a product or sum, or of what comes next in the division of the image, may not fit.
    WideImage { element: usize },
    /// The product that is divided for this monomial passes a limit.
    LimitRest { monomial: Mono },
    /// A number of this product, or of what comes next in its division, may not fit.
    WideRest { monomial: Mono },
    /// As many of the entries are units as are allowed, and what comes next is one.
    Budget,
    /// No memory was left.
    Memory,
}

impl From<AllocError> for TaskError {
    ghost use Rattle.std.specs.Prelude.{◌≡◌};
    ghost use Rattle.program_families.specs.declared.error.TaskError.TheVariants.{Memory};

    ghost from_gives = { λ _ e. e ≡ Memory };

    fn from(_: AllocError) -> Self {
        TaskError::Memory
    }
}

impl<T: Drop> From<AllocFailed<T>> for TaskError {
    ghost use Rattle.std.specs.Prelude.{◌≡◌};
    ghost use Rattle.program_families.specs.declared.error.TaskError.TheVariants.{Memory};

    ghost from_gives = { λ _ e. e ≡ Memory };

    fn from(_: AllocFailed<T>) -> Self {
        TaskError::Memory
    }
}

impl From<MeterError> for TaskError {
    ghost use Rattle.std.specs.Prelude.{◌≡◌};
    ghost use Rattle.program_families.specs.Refusals.{of_meter};

    ghost from_gives = { λ e f. f ≡ of_meter e };

    fn from(error: MeterError) -> Self {
        match error {
            MeterError::Budget => TaskError::Budget,
            MeterError::Memory => TaskError::Memory,
        }
    }
}
