//! Texts of programs: tokens, the language, and the reader; and lines and columns of offsets.
//!
//! Proved: `read_program` gives the program that a text says, exactly where it is a text of the language without a fault, and else its first
//! fault, over all texts that bytes spell; what it gives is well formed and within the limits.
//!
//! Notion: texts and their grammars.
#![tactic(auto)]

mod assignments;
mod blocks;
mod comparisons;
mod cursor;
pub mod doubles;
mod error;
mod guard_parts;
mod guards;
pub mod laws;
pub mod lexemes;
mod places;
mod reading;
mod sums;
mod tokens;
pub mod words;

pub use assignments::Reader;
pub use cursor::{Cursor, Read};
pub use error::ProgramTextError;
pub use lexemes::{Lexeme, Placed, next_item, next_lexeme};
pub use places::place_of;
pub use reading::read_program;
pub use sums::{Part, Progress, SumReader};
