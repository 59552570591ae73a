//! `Expo`: polynomials in the number of iterations n, powers of a coprime base, a sign and variables; and the recurrences that they solve.
//!
//! Proved: each operation gives the normal list of the definition's, and with it its value at every n; over one base there is one `Expo`
//! with given values; `solve_term` gives the solution of y(n+1) = λ y(n) + n^a σ^n with y(0) = 0; an ideal that has an `Expo` at each n has
//! its coefficients.
//!
//! Notion: exponential polynomials and their recurrences.
#![tactic(auto)]

mod exponential;
mod exponents;
mod images;
pub mod laws;
mod operations;
mod points;
mod powers;
mod solution;
mod table;
mod widths;

pub use exponential::Expo;
pub use points::power;
pub use powers::Power;
pub use solution::solve_term;
pub use widths::width;
