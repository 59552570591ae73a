//! Buchberger's algorithm: completes a list of polynomials to a Gröbner basis, with both criteria for pairs, under a meter.
//!
//! Proved: the entries are a run of the machine; where it has ended, the list is a Gröbner basis of the ideal.
//!
//! Notion: Buchberger's algorithm, 2.7 and 2.10; the order of pairs by sugar: Giovini and others, *"One sugar cube, please"* (1991).
#![tactic(auto)]

mod completing;
mod element;
mod order_kind;
mod pair;
mod pair_keys;
mod pairs;
mod table;

pub use completing::complete_in;
pub use element::{made_monic, s_polynomial};
