//! The commands of certificates, a module each: `check` and `checkfull` judge one, and `full` writes a full certificate of a loop.
//!
//! Proved: `valid` or `complete` exactly where all identities or parts hold, but for what is too long and numbers that don't fit; else the
//! first that doesn't, or the first fault of a file. All parts of what `full` writes hold, its polynomials are the reduced basis of exactly the invariants, its
//! cofactors are those of the divisions that closed it, and its text is read as itself. Each refusal has its cause.
#![tactic(auto)]

mod certificate_arguments;
mod certificate_texts;
mod check_command;
mod check_texts;
mod checkfull_command;
mod checkfull_texts;
mod full_answers;
mod full_certificates;
mod full_command;

pub use certificate_arguments::{Request, read_arguments};
pub use certificate_texts::certificate_refusal;
pub use check_command::check;
pub use checkfull_command::checkfull;
pub use full_command::full;
