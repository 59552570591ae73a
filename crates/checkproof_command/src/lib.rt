//! `checkproof PROGRAM CERT`: whether a certificate of a program is valid, and which of its assertions are listed.
//!
//! Proved: `valid` exactly where all identities hold, but for what is too long and numbers that don't fit, and then each listed polynomial is 0
//! at every state that is seen at its point; an assertion is told to hold exactly where its polynomial stands in its list, and then it does. Else the
//! first identity that fails, the first fault of a file, or what stops the forming of the transitions. Each refusal has its cause.
#![tactic(auto)]

mod answers;
mod arguments;
mod command;
mod findings;
mod sources;

pub use command::checkproof;
