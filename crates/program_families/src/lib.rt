//! The search for the greatest inductive family of a program, of which the tasks of its transitions stand here. The list of the node where a
//! transition comes from, and its zeros, are completed. What the transition makes of the elements of the list where it leads to is divided by
//! that basis; and where a rest isn't 0, or there is no list yet, so is what it makes of the monomials up to a degree. For each monomial of
//! these rests the numbers that it has in them are a row. Also: transitions are followed from a state.
//!
//! Proved: the entries are those of the task, which ends as its machine does: with the images of all elements in the ideal of the list and
//! the zeros, or with the reduced basis of this ideal and the rests of all monomials by it; a search goes on by such an end; `rows_of` gives
//! a row for each monomial of the rests, in ascending order; `follow` gives the state to which the transition leads, or says that one of its
//! zeros isn't 0 there; each refusal has its cause.
//!
//! Notion: inductive families.
#![tactic(auto)]

mod dividing;
mod error;
mod ideal;
mod images;
mod job;
pub mod laws;
mod moves;
mod rests;
mod rows;
mod task;

pub use error::TaskError;
pub use job::{Job, Rest};
pub use moves::follow;
pub use rows::{Row, rows_of};
pub use task::{Check, TaskEnd};
