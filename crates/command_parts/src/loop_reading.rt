// LOOP is read into a loop, or into the answer that it is none.
ghost use Rattle.std.specs.Prelude.{◌≡◌, ℕ, List, string_bytes};
ghost use Rattle.io_edge.specs.Change.{◌⟶◌};
ghost use Rattle.command_parts.specs.LoopReading.{IsLoopOr};

use crate::fault_texts::loop_refusal;
use io_edge::{Files, Refusal, read_file};
use loop_model::Loop;
use loop_text::read_loop;
use std::alloc::Global;

const LOOP_LIMIT: usize = 65_536;

/// The loop of a file of at most 65,536 bytes, or the answer that the file can't be read or is too long, or what its
/// first fault is (docs/LANGUAGE.md, "Faults").
pub fn read_program<F: Files>(alloc: Global, files: &mut F, name: &String) -> Result<Loop, Refusal>
    ensures read { IsLoopOr (string_bytes name.now)
        (F.seen files.old ⟶ F.seen files.new) result }
    ensures told { (n : List ℕ) → (F.seen files.new).told n ≡ (F.seen files.old).told n }
{
    let bytes = match read_file(alloc, files, name, LOOP_LIMIT) {
        Ok(bytes) => bytes,
        Err(refusal) => return Err(refusal),
    };
    match read_loop(alloc, &bytes) {
        Ok(lp) => Ok(lp),
        Err(why) => Err(loop_refusal(alloc, why)),
    }
}
