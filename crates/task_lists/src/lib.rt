//! What the tasks of an analysis begin with, identities of lists of polynomials that are tested without any completion, and full
//! certificates as values (`FullCert`).
//!
//! Proved: the lists are those of the definition, also where a closed form begins later than at 0 (`LateForm`); whether a polynomial is a
//! combination, or an S-polynomial a sum of products below the least common multiple of the leads, is decided, or too wide by its weight.
//!
//! Notion: lcm representations, 2.9.
#![tactic(auto)]

mod before;
mod combination;
mod graph;
mod late_form;
mod lists;
mod orbit;
mod pairs;
mod parts;
mod placed;
mod relations;
mod s_polynomial;
mod shape;
mod starting;
mod starts;
mod widening;

pub use combination::is_combination;
pub use late_form::LateForm;
pub use lists::{all_pairs, are_equal, free_elements, is_monic};
pub use orbit::orbit_list;
pub use pairs::is_lcm_representation;
pub use parts::{BlockPolys, FullBranch, FullCert, FullForm, FullStage, FullStart, Polys};
pub use relations::front;
pub use starting::{Starting, element_of};
pub use starts::start_list;
