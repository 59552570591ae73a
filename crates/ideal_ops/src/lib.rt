//! Sums, intersections and eliminations of ideals, and membership, under a meter.
//!
//! Proved: `sum`, `meet` and `eliminate` give the reduced basis of exactly the sum, of the intersection, and of what has none of the first
//! variables; `contains` decides membership in the ideal of a Gröbner basis; each refusal has its cause in the entries.
//!
//! Notion: membership, 2.8; elimination, 3.1; sums and intersections, 4.3.
#![tactic(auto)]

mod blending;
mod eliminating;
mod membership;
mod operations;

pub use blending::blend;
pub use membership::contains;
pub use operations::{eliminate, meet, sum};
