//! Rings, fields and orders with their laws, and the numbers that have them: fractions and residues, as types. Also: the ring solver,
//! powers, sums over lists, greatest common divisors, weights, and the plain lemmas on tests, lists and bytes.
//!
//! Proved: fractions in lowest terms are an ordered field, and the residues modulo 65,521 a field; a field has no zero divisors; weights
//! bound the results of sums, products and quotients.
//!
//! Notion: rings and fields, 1.1.
#![tactic(auto)]

pub mod laws;
pub mod number_laws;
