//! Certificates as files: a JSON object with a version, the names of the variables, a list of polynomials, and for each branch of a loop
//! the cofactors of each of them. Versions 1 and 2 are read, and version 2 is written.
//!
//! Proved: `read_cert` gives the certificate, or the first fault with its path; one of at most 512 polynomials that is written is read as
//! itself.
//!
//! Notion: certificates.
#![tactic(auto)]

mod cert;
mod cofactors;
mod error;
mod fault;
pub mod laws;
mod pairs;
mod parts;
mod read;
mod write;

pub use cert::Cert;
pub use error::CertError;
pub use fault::{Path, polynomial_at, shape_at};
pub use pairs::read_pair;
pub use parts::{list_with, read_polys};
pub use read::{has_names, has_version, is_text, read_cert};
pub use write::{names_value, write_cert};
