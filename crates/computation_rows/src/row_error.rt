// Why a row has no answer.
use divide::EngineError;
use ring_laws::ArithmeticError;
use std::alloc::{AllocError, AllocFailed};

#[derive(Clone, Copy)]
pub(crate) enum RowError {
    Unreadable,
    TooManyNames,
    TooManyPolynomials,
    NoPolynomial,
    Block,
    Shape,
    NotInBase,
    Wide,
    Budget,
    Memory,
}

impl RowError {
    /// What is told in place of an answer.
    pub(crate) fn text(self) -> &'static str {
        match self {
            RowError::Unreadable => "no such row",
            RowError::TooManyNames => "too many names",
            RowError::TooManyPolynomials => "too many polynomials",
            RowError::NoPolynomial => "no polynomial",
            RowError::Block => "a block of more names than there are",
            RowError::Shape => "the matrix is not square, or not of 1 to 12 rows",
            RowError::NotInBase => "not in the base",
            RowError::Wide => "wide",
            RowError::Budget => "budget",
            RowError::Memory => "out of memory",
        }
    }
}

impl From<EngineError> for RowError {
    fn from(error: EngineError) -> Self {
        match error {
            EngineError::Wide => RowError::Wide,
            EngineError::Budget => RowError::Budget,
            EngineError::Memory => RowError::Memory,
        }
    }
}

impl From<ArithmeticError> for RowError {
    fn from(error: ArithmeticError) -> Self {
        match error {
            ArithmeticError::Wide => RowError::Wide,
            ArithmeticError::Memory => RowError::Memory,
        }
    }
}

impl From<AllocError> for RowError {
    fn from(_: AllocError) -> Self {
        RowError::Memory
    }
}

impl<T: Drop> From<AllocFailed<T>> for RowError {
    fn from(_: AllocFailed<T>) -> Self {
        RowError::Memory
    }
}
