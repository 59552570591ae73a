//! Texts of loops, of loops in sequence, and of sequences that are given by recurrences: the languages and their readers. Also: the texts
//! of the loops that `gen` analyses.
//!
//! Proved: `read_loop`, `read_chain` and `read_seqs` give what the text says, exactly where it is a text of the language without a fault,
//! and else its first fault; what they give is well formed and within the limits; each text of `gen` is read as a loop.
//!
//! Notion: texts and their grammars.
#![tactic(auto)]

ghost use Rattle.std.specs.Prelude.{◌≡◌, IfSome};
ghost use Rattle.loop_text.specs.LoopReader.{loop_of};
ghost use Rattle.loop_text.specs.Seen.{loop_or_fault};

mod begun;
mod branches;
pub mod chain_laws;
mod chain_reading;
mod family;
mod family_counts;
pub mod family_laws;
mod init;
pub mod laws;
mod names;
mod places;
mod sequence_firsts;
pub mod sequence_laws;
mod sequence_nexts;
mod sequence_sums;
mod sequence_tokens;
mod sequence_turning;
mod sequence_words;
mod sequences;
mod statements;
mod tokens;

pub use begun::Begun;
pub use branches::{read_block, read_branches};
pub use chain_reading::read_chain;
pub use family::loop_text;
pub use family_counts::Counts;
pub use init::read_init;
use loop_model::Loop;
pub use names::{LoopNames, read_locals, read_names};
use poly_text::{Cursor, TextError};
pub use sequences::{Seqs, read_seqs};
use std::alloc::Global;
pub use tokens::{is_end, syntax_fault};

/// The loop that the bytes are, or their first fault.
pub fn read_loop(alloc: Global, bytes: &[u8]) -> Result<Loop, TextError>
    ensures { IfSome (loop_or_fault result) (λ r. r ≡ loop_of bytes.now) }
{
    let (names, behind) = read_names(alloc, Cursor::new(bytes))?;
    let (names, behind) = read_locals(behind, names)?;
    let (start, first) = read_init(alloc, behind, &names)?;
    let mut begun = Begun {
        statements: 0,
        branches: 0,
    };
    let (branches, end) = read_branches(alloc, first, &names, &mut begun)?;
    if !is_end(&end.token.lexeme) {
        return Err(syntax_fault(end));
    }
    Ok(Loop::new(names.variables, names.locals, start, branches))
}
