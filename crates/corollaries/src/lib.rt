//! What follows from the theorem on the analysis of a loop, for loops in sequence, for relations of sequences, and for runs at whose end an
//! equation doesn't hold. Also: certificates of completeness, or *full certificates*, polynomials with what shows, by equalities of polynomials
//! and without any completion, that they generate all invariants of a loop; and traces, by which an analysis makes one.
//!
//! Proved: loops that are analysed one after another, each from the list that the one before and the code between them leave, end with the
//! reduced basis of all invariants of the sequence; an elimination behind an analysis ends with the reduced basis of all relations; a word
//! counters a polynomial exactly where its image isn't 0, and then has one first start; a polynomial is an invariant exactly where no word
//! counters it; the list of a valid full certificate generates all invariants, and each has one verdict; a loop has one trace for each number
//! of rounds, and a finished one of as many rounds as a finished analysis gives a valid certificate of the reduced basis.
//!
//! Notion: loops one after another; relations of sequences; counterexamples; lcm representations, 2.9.
#![tactic(auto)]

pub mod certificate_laws;
pub mod chain_laws;
pub mod counter_laws;
pub mod relation_laws;
pub mod trace_laws;
