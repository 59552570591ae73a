//! Tidies a Gröbner basis to the reduced one, and finds the reduced basis of an ideal, under a meter.
//!
//! Proved: the entries are a run of the machines; where they have ended, the list is the one reduced basis of the ideal.
//!
//! Notion: the reduced basis, 2.7.
#![tactic(auto)]

mod leads;
mod reducing;
mod sorting;
mod tails;
mod tidying;

pub use reducing::reduced_basis_in;
pub use tidying::tidy_in;
