//! The commands that close equations under the branches of a loop: `decide` and `prove`, and `basis` and `cert` up to a degree. Of two
//! commands the one shows a reduced basis, the other a certificate. They take every loop; none needs an analysis.
//!
//! Proved: `decide` and `prove` say yes exactly where the equation holds at the end of every run, whatever the branches, with the reduced basis
//! of its closure or a valid certificate that lists it first; no with the first word after which it doesn't hold, and its run; or neither, where
//! a limit, a number that doesn't fit or the budget stops them. Up to a degree what is printed is the part of the reduced basis of all
//! invariants, or a valid certificate that lists it first. Each refusal has its cause.
#![tactic(auto)]

mod certificates;
mod decide_arguments;
mod decide_command;
pub mod decide_laws;
mod decide_texts;
mod degree_arguments;
mod degree_command;
pub mod degree_laws;
mod degree_texts;
mod evidence;

pub use decide_command::decide;
pub use degree_arguments::names_degree;
pub use degree_command::basis_up_to;
pub use evidence::Evidence;
