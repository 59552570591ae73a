//! Rows of numbers modulo 2^127 - 1, and what they tell: their echelon form, the polynomials that are zero on rows of monomials' values, and
//! the fractions that residues are of. `Draws` has numbers that look random, the same ones each time.
//!
//! Proved: the form is the reduced echelon form of its rows; the elements are those that it tells, each with another lead; a residue has at
//! most one fraction with numerator and denominator of at most 2^62, and it is found exactly where there is one.
//!
//! Notion: ideals of points.
#![tactic(auto)]

mod draws;
pub mod echelon;
pub mod elements;
mod euclid;
pub mod monomial_values;
pub mod monomials;
pub mod reconstruction;
pub mod residue;
pub mod residue_laws;

pub use draws::Draws;
