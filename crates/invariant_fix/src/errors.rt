//! Why an analysis gave no basis.
use closed_forms::FormsError;
use divide::EngineError;
use journal::{MeterError, Task};
use loop_model::MapError;
use std::alloc::{AllocError, AllocFailed};
use thiserror::Error;

/// Why an analysis gave no basis.
#[derive(Debug, Drop, Error)]
pub enum AnalyseError {
    /// A map of the loop is not formed: the start's, or the first branch's of those that aren't. Never for want of memory.
    #[error("{0}")]
    Map(MapError),
    /// The first branch that has no closed form here, counted from 0. Never for want of memory.
    #[error("branch {branch}: {error}")]
    Branch { branch: usize, error: FormsError },
    /// The list or the polynomial that this task begins with is too long: its compositions multiply out to more than 2^20 terms.
    #[error("a composition is too long")]
    Limit { task: Task },
    /// A number or an exponent does not fit: the weight of making the task's starting list, or of its next event, is past.
    #[error("a number or an exponent is too wide")]
    Wide { task: Task },
    #[error("the budget is spent")]
    Budget,
    #[error("out of memory")]
    Memory,
}

impl From<MeterError> for AnalyseError {
    ghost use Rattle.std.specs.Prelude.{◌≡◌};
    ghost use Rattle.invariant_fix.specs.Errors.{of_meter};

    ghost from_gives = { λ e f. f ≡ of_meter e };

    fn from(error: MeterError) -> AnalyseError {
        match error {
            MeterError::Budget => AnalyseError::Budget,
            MeterError::Memory => AnalyseError::Memory,
        }
    }
}

impl From<AllocError> for AnalyseError {
    ghost use Rattle.std.specs.Prelude.{◌≡◌};
    ghost use Rattle.invariant_fix.specs.declared.errors.AnalyseError.TheVariants.{Memory};

    ghost from_gives = { λ _ e. e ≡ Memory };

    fn from(_: AllocError) -> AnalyseError {
        AnalyseError::Memory
    }
}

impl<T: Drop> From<AllocFailed<T>> for AnalyseError {
    ghost use Rattle.std.specs.Prelude.{◌≡◌};
    ghost use Rattle.invariant_fix.specs.declared.errors.AnalyseError.TheVariants.{Memory};

    ghost from_gives = { λ _ e. e ≡ Memory };

    fn from(_: AllocFailed<T>) -> AnalyseError {
        AnalyseError::Memory
    }
}

ghost use Rattle.std.specs.Prelude.{◌≡◌, ◌<◌, suc};
ghost use Rattle.complete.specs.Limits.{place_limit};
ghost use Rattle.invariant_fix.specs.Errors.{in_task};

/// A refusal of a computation with ideals, in this task.
pub fn in_task(task: Task, error: EngineError) -> AnalyseError
    ensures { result ≡ in_task task error }
{
    match error {
        EngineError::Wide => AnalyseError::Wide { task },
        EngineError::Budget => AnalyseError::Budget,
        EngineError::Memory => AnalyseError::Memory,
    }
}

/// The number, counted from 1, of a place that is counted from 0.
pub fn number_of_place(place: usize) -> u32
    requires { suc place < place_limit }
    ensures { result ≡ suc place }
{
    match u32::try_from(place + 1) {
        Ok(number) => number,
        Err(_) => unreachable!(),
    }
}
