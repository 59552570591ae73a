//! Why a certificate was not judged.
ghost use Rattle.std.specs.Prelude.{◌≡◌};
ghost use Rattle.cert_checker.specs.Forming.{refused_map};
ghost use Rattle.cert_checker.specs.declared.error.CheckError.TheVariants.{Memory};

use loop_model::MapError;
use std::alloc::{AllocError, AllocFailed};

/// Where an identity of a certificate stands. Branches count from 0.
#[derive(Clone, Copy, PartialEq, Eq)]
pub enum Place {
    /// At the start.
    Start,
    /// At this branch.
    Branch(usize),
}

/// Why a certificate was not judged. Elements count from 0.
#[derive(Clone, Copy, PartialEq, Eq)]
pub enum CheckError {
    /// A map of the loop can't be formed. The maps are formed before any identity is looked at, the start's first and then the
    /// branches' in order. This is never want of memory.
    Map(MapError),
    /// All identities of the places before this one hold, and this is the first element up to which those of this place multiply out to
    /// more than 2^20 terms.
    Limit { place: Place, element: usize },
    /// All identities before this one hold, and it is too wide.
    Wide { place: Place, element: usize },
    /// No memory was left.
    Memory,
}

impl From<MapError> for CheckError {
    ghost from_gives = { λ e f. f ≡ refused_map e };

    fn from(e: MapError) -> Self {
        match e {
            MapError::Memory => CheckError::Memory,
            MapError::Limit { .. } | MapError::Wide { .. } => CheckError::Map(e),
        }
    }
}

impl From<AllocError> for CheckError {
    ghost from_gives = { λ _ e. e ≡ Memory };

    fn from(_: AllocError) -> Self {
        CheckError::Memory
    }
}

impl<T: Drop> From<AllocFailed<T>> for CheckError {
    ghost from_gives = { λ _ e. e ≡ Memory };

    fn from(_: AllocFailed<T>) -> Self {
        CheckError::Memory
    }
}
