//! The commands that replay runs: `run`, `chainrun` and `counter`, a module each. None needs an analysis.
//!
//! Proved: the answer is by what the reads gave: the states of the run; the first word that counters the equation, with its run, or that
//! there is none up to a length; or the first refusal.
#![tactic(auto)]

mod chainrun_arguments;
mod chainrun_command;
mod chainrun_letters;
mod counter_arguments;
mod counter_command;
pub mod counter_laws;
mod counter_texts;
mod run_arguments;
mod run_command;
mod run_texts;

pub use chainrun_command::chainrun;
pub use counter_command::counter;
pub use counter_texts::{push_run, word_answer};
pub use run_command::run;
pub use run_texts::{run_refusal, states_answer};
