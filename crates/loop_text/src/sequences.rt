//! Reads sequences that are given by recurrences, as the loop that they are.

ghost use Rattle.loop_text.specs.SeqReader.{sequences_of};
ghost use Rattle.loop_text.specs.SequenceSeen.{Says};

use crate::sequence_firsts::{read_firsts, read_opening};
use crate::sequence_nexts::read_nexts;
use crate::sequence_tokens::expect_end;
use crate::sequence_turning::with_iteration;
use loop_model::{Loop, Names};
use poly_text::{Cursor, TextError};
use std::alloc::Global;

/// Sequences as a loop, the positions of the variables that are the sequences themselves, and their names.
#[derive(Drop)]
pub struct Seqs {
    pub lp: Loop,
    pub shown: Vec<usize>,
    pub names: Names,
}

/// The loop of the sequences that the text gives; the first fault where it gives none.
pub fn read_seqs(alloc: Global, bytes: &[u8]) -> Result<Seqs, TextError>
    ensures { Says result (sequences_of bytes.now) }
{
    let opened = read_opening(Cursor::new(bytes))?;
    let (firsts, behind) = read_firsts(alloc, bytes, opened)?;
    let (iteration, end) = read_nexts(alloc, bytes, behind, &firsts)?;
    expect_end(end)?;
    match with_iteration(alloc, firsts, iteration) {
        Ok(seqs) => Ok(seqs),
        Err(_) => Err(TextError::Memory),
    }
}
