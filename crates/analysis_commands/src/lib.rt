//! The commands that analyse: `basis` with `cert`, `member`, `gen`, `relations` and `chain`, a module each, over the texts of what an
//! analysis answers.
//!
//! Proved: the text is the reduced basis of exactly the invariants, or its certificate; `member` says yes exactly where the equation holds;
//! two loops over the same variables print equal bases exactly where they have the same invariants. Each refusal has its cause.
#![tactic(auto)]

mod analysis;
mod answers;
mod bases;
mod basis_arguments;
mod basis_command;
mod certificates;
mod chain_analysis;
mod chain_command;
mod gen_arguments;
mod gen_command;
mod kind;
pub mod laws;
mod member_arguments;
mod member_command;
mod questions;
mod refusals;
mod relations_command;
pub mod text_laws;

pub use answers::yes_text;
pub use basis_command::basis;
pub use certificates::certificate_text;
pub use chain_command::chain;
pub use gen_command::tally;
pub use kind::Kind;
pub use member_command::member;
pub use refusals::answer_to_refusal;
pub use relations_command::relate;
