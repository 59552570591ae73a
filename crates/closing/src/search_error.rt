//! Why a search gave no answer.
ghost use Rattle.std.specs.Prelude.{◌≡◌};
ghost use Rattle.closing.specs.declared.search_error.SearchError.TheVariants.{Memory};

use monos::Mono;
use std::alloc::{AllocError, AllocFailed};

/// Why a search for the invariants up to a degree gave no answer. The letters of a word are numbers of branches, which count from 1.
#[derive(Drop)]
pub enum SearchError {
    /// More than 1,024 monomials have at most this degree.
    Degree,
    /// A sample tells nothing: a coefficient of a map has no residue, what a row leaves has no inverse for its
    /// first number, or the row of a run with a word that counters the elements doesn't count.
    Sample,
    /// A number of the element with this lead is no fraction within the limit.
    Element { lead: Mono },
    /// A product or a sum by which the candidate of this word, or its remainder at the start, is formed
    /// passes a limit: the degree of a product is above 64, or a result has more than 4,096 terms.
    Limit { word: Vec<u32> },
    /// A number of such a product or sum, or of what comes next in a task of this word's candidate,
    /// may not fit.
    Wide { word: Vec<u32> },
    /// As many of the entries are units as are allowed, and what comes next is one.
    Budget,
    /// No memory was left.
    Memory,
}

impl From<AllocError> for SearchError {
    ghost from_gives = { λ _ e. e ≡ Memory };

    fn from(_: AllocError) -> Self {
        SearchError::Memory
    }
}

impl<T: Drop> From<AllocFailed<T>> for SearchError {
    ghost from_gives = { λ _ e. e ≡ Memory };

    fn from(_: AllocFailed<T>) -> Self {
        SearchError::Memory
    }
}
