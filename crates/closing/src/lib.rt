//! Closings: whether polynomials are zero at the end of every run of a loop, whatever its branches are. What becomes of them under the
//! branches is divided, level by level, by the reduced basis of what came before, and joined to it where something is left. And the search
//! for all invariants up to a degree: the values of the monomials at the ends of runs, modulo 2^127 - 1, tell which monomials lead and which
//! polynomials to close; a word that counters them gives another run.
//!
//! Proved: the entries are those of the closing of the polynomials; `close` gives the reduced basis of their closure, or the first word that
//! counters one of them, with its image; `proof_of` gives the cofactors that prove such a basis; what `search` finds is the part up to the
//! degree of the one reduced basis of all invariants, and the entries are those of the search; each refusal tells its cause.
//!
//! Notion: closures.
#![tactic(auto)]

mod candidates;
mod error;
mod evaluations;
mod joining;
mod levels;
mod listing;
mod loop_maps;
mod modular_maps;
mod proving;
mod samples;
mod sampling;
mod search_error;
mod tasks;
mod whole_search;

pub use candidates::Candidate;
pub use error::ClosingError;
pub use joining::Counter;
pub use levels::Verdict;
pub use loop_maps::LoopMaps;
pub use proving::{ClosureProof, ProvingError};
pub use search_error::SearchError;
pub use whole_search::{Finding, append};
