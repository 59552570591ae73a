//! Why a branch has no closed form here.
use std::alloc::{AllocError, AllocFailed};
use thiserror::Error;

/// Why a branch has no closed form here. A class is told by its variables.
#[derive(Debug, Drop, Error)]
pub enum FormsError {
    /// The least chain: each variable uses the next, the first one non-linearly, and the last is the first again.
    #[error("a variable uses itself non-linearly")]
    NotSolvable {
        cycle: Vec<usize>,
    },
    /// There is no list of fractions for which the product of the class's matrix less each of them is zero.
    #[error("a class does not split")]
    Eigen {
        class: Vec<usize>,
    },
    /// The greatest column sum of the class's matrix times its denominator is above the limit.
    #[error("the greatest column sum of a class is {sum}")]
    Range {
        class: Vec<usize>,
        sum: i128,
    },
    /// A combination of rows that the search for the class's forms makes has a number that does not fit, as `EigenError` tells.
    #[error("candidate {candidate}, power {power}, row {row} of a class is too wide")]
    WideSplit {
        class: Vec<usize>,
        candidate: i32,
        power: u32,
        row: u32,
    },
    /// The class with this first variable is the first that is too long: its polynomials multiply out to more than 2^20 terms, where each variable of an earlier class is a sum of as many terms
    /// as its class's polynomials multiply out to, and products that are equal but for their order count once.
    #[error("the closed form of variable {variable} is too long")]
    LimitForm {
        variable: usize,
    },
    /// A number or a weight on the way from the forms of the class with this first variable, as `split` gives them, to its closed forms does not fit, or one in what these are at a number of iterations;
    /// with the first variable also one in the branch after a number of iterations.
    #[error("the closed form of variable {variable} is too wide")]
    WideForm {
        variable: usize,
    },
    #[error("out of memory")]
    Memory,
}

impl From<AllocError> for FormsError {
    ghost use Rattle.std.specs.Prelude.{◌≡◌};
    ghost use Rattle.closed_forms.specs.declared.errors.FormsError.TheVariants.{Memory};

    ghost from_gives = { λ _ e. e ≡ Memory };

    fn from(_: AllocError) -> FormsError {
        FormsError::Memory
    }
}

impl<T: Drop> From<AllocFailed<T>> for FormsError {
    ghost use Rattle.std.specs.Prelude.{◌≡◌};
    ghost use Rattle.closed_forms.specs.declared.errors.FormsError.TheVariants.{Memory};

    ghost from_gives = { λ _ e. e ≡ Memory };

    fn from(_: AllocFailed<T>) -> FormsError {
        FormsError::Memory
    }
}
