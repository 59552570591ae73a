//! What commands share in their arguments and answers: budgets, counts, letters and values, the files LOOP and CHAIN, the equation, and
//! states as texts.
//!
//! Proved: what is read is the number, the loop, the chain or the polynomial that the text is, or the answer tells its first fault; an
//! equation holds exactly where its polynomial is an invariant.
#![tactic(auto)]

mod bases;
mod budget;
mod chain_reading;
mod equation_argument;
pub mod equation_laws;
mod fault_texts;
mod file_request;
mod loop_reading;
mod numerals;
mod state_text;

pub use bases::{basis_text, push_line};
pub use budget::Budget;
pub use chain_reading::read_file_chain;
pub use equation_argument::read_polynomial;
pub use fault_texts::{exhausted_answer, fault_line, map_refusal, ordinal, text_refusal};
pub use file_request::{FileRequest, read_file_request};
pub use loop_reading::read_program;
pub use numerals::{read_budget, read_count, read_letters, read_values};
pub use state_text::push_states;
