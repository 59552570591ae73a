// PROGRAM is read into a program, or into the answer that it is none.
ghost use Rattle.std.specs.Prelude.{◌≡◌, ◌≤◌, ℕ, List, Some, length, string_bytes, option_map, IfOk};
ghost use Rattle.io_edge.specs.Change.{◌⟶◌};
ghost use Rattle.io_edge.specs.Refusals.{Refuses};
ghost use Rattle.io_edge.specs.Views.{answer_view};
ghost use Rattle.program_text.specs.Faults.{fault_of};
ghost use Rattle.checkproof_command.specs.Sources as specs;
ghost use Rattle.checkproof_command.specs.Sources.{most_program_bytes};
ghost use Rattle.checkproof_command.specs.Views.{IsSourceOr};

use command_parts::fault_line;
use io_edge::{Answer, Files, Refusal, Status, read_file};
use program_model::Program;
use program_text::{ProgramTextError, read_program};
use std::alloc::{AllocError, Global};

const PROGRAM_LIMIT: usize = 65_536;

/// The text of a program, and the program.
#[derive(Drop)]
pub(crate) struct Source {
    pub(crate) text: Vec<u8>,
    pub(crate) program: Program,
}

/// The program of a file of at most 65,536 bytes, or the answer that the file can't be read or is too long, or what its first fault is.
pub(crate) fn read_source<F: Files>(
    alloc: Global,
    files: &mut F,
    name: &String,
) -> Result<Source, Refusal>
    ensures read { IsSourceOr (string_bytes name.now)
        (F.seen files.old ⟶ F.seen files.new) result }
    ensures told { (n : List ℕ) → (F.seen files.new).told n ≡ (F.seen files.old).told n }
    ensures few { IfOk result (λ s. length s.text.items ≤ most_program_bytes) }
{
    let text = match read_file(alloc, files, name, PROGRAM_LIMIT) {
        Ok(text) => text,
        Err(refusal) => return Err(refusal),
    };
    match read_program(alloc, &text) {
        Ok(program) => Ok(Source { text, program }),
        Err(why) => Err(program_refusal(alloc, why)),
    }
}

/// The refusal that tells the first fault of PROGRAM.
fn program_refusal(alloc: Global, why: ProgramTextError) -> Refusal
    ensures { Refuses result (option_map specs.program_refusal (fault_of why)) }
{
    Refusal::of(fault_answer(alloc, why))
}

/// The answer to the first fault of PROGRAM, or to want of memory for it.
fn fault_answer(alloc: Global, why: ProgramTextError) -> Result<Answer, AllocError>
    ensures { IfOk result (λ a. option_map specs.program_refusal (fault_of why) ≡
        Some (answer_view a)) }
{
    match why {
        ProgramTextError::Syntax { at } => fault_line(
            alloc,
            Status::Fault,
            "program: ",
            "syntax",
            at,
        ),
        ProgramTextError::Limit { at } => fault_line(
            alloc,
            Status::Fault,
            "program: ",
            "limit",
            at,
        ),
        ProgramTextError::Wide { at } => fault_line(alloc, Status::Wide, "program: ", "wide", at),
        ProgramTextError::Twice { at } => fault_line(
            alloc,
            Status::Fault,
            "program: ",
            "twice",
            at,
        ),
        ProgramTextError::Unknown { at } => fault_line(
            alloc,
            Status::Fault,
            "program: ",
            "unknown",
            at,
        ),
        ProgramTextError::Divisor { at } => fault_line(
            alloc,
            Status::Fault,
            "program: ",
            "divisor",
            at,
        ),
        ProgramTextError::Memory => Err(AllocError),
    }
}
