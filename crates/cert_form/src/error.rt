//! Why a certificate was not read.

ghost use Rattle.std.specs.Prelude.{◌≡◌};
ghost use Rattle.cert_form.specs.declared.error.CertError.TheVariants.{Memory};

use std::alloc::{AllocError, AllocFailed};
use thiserror::Error;

/// Why a certificate was not read. A path names the members and, counted from 0, the places that lead to a part, as
/// `/steps/0/1`; the path of the whole is `/`.
#[derive(Debug, Drop, Error)]
pub enum CertError {
    /// The bytes aren't UTF-8, or not one JSON value nested at most 127 deep.
    #[error("not json")]
    NotJson,
    /// A part has another form than it must.
    #[error("shape at {path}")]
    Shape { path: String },
    /// A text isn't a polynomial over the names.
    #[error("polynomial at {path}")]
    Poly { path: String },
    #[error("out of memory")]
    Memory,
}

impl From<AllocError> for CertError {
    ghost from_gives = { λ _ e. e ≡ Memory };

    fn from(_: AllocError) -> Self {
        CertError::Memory
    }
}

impl<T: Drop> From<AllocFailed<T>> for CertError {
    ghost from_gives = { λ _ e. e ≡ Memory };

    fn from(_: AllocFailed<T>) -> Self {
        CertError::Memory
    }
}
