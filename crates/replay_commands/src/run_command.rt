//! `run LOOP WORD VALUES`: the states of a run.

ghost use Rattle.std.specs.Prelude.{◌≡◌, map, string_bytes, IfOk};
ghost use Rattle.machines.specs.Journal.{Journal};
ghost use Rattle.loop_model.specs.View.{program_of};
ghost use Rattle.loop_runs.specs.Seen.{numbers_of};
ghost use Rattle.loop_runs.specs.Replay.{replay_of};
ghost use Rattle.io_edge.specs.Change.{◌⟶◌};
ghost use Rattle.io_edge.specs.Views.{answer_view, seen_answer};
ghost use Rattle.io_edge.specs.Outcome.{Says, Obeys};
ghost use Rattle.replay_commands.specs.RunTexts as texts;
ghost use Rattle.replay_commands.specs.RunArguments.{request_in};
ghost use Rattle.replay_commands.specs.RunCourse.{course};
ghost use Rattle.replay_commands.specs.RunViews.{view};

use crate::run_arguments::{Request, read_arguments};
use crate::run_texts::{run_refusal, states_answer};
use command_parts::read_program;
use frac128::Frac;
use io_edge::{Answer, Files};
use loop_model::Loop;
use loop_runs::replay;
use std::alloc::{AllocError, Global};

/// What `run` answers to the arguments behind it; none where they ask for no run.
pub fn run<F: Files>(
    alloc: Global,
    arguments: &[String],
    files: &mut F,
) -> Result<Option<Answer>, AllocError>
    ensures { (m : Journal) → Obeys course (request_in (map string_bytes arguments.now))
        (F.seen files.old ⟶ F.seen files.new) (m ⟶ m) result }
{
    match read_arguments(alloc, arguments) {
        Ok(Some(request)) => io_edge::reply(answer_to(alloc, files, &request)),
        Ok(None) => Ok(None),
        Err(e) => Err(e),
    }
}

fn answer_to<F: Files>(
    alloc: Global,
    files: &mut F,
    request: &Request<'_>,
) -> Result<Answer, AllocError>
    ensures { (m : Journal) → Says (course (view request.now))
        (F.seen files.old ⟶ F.seen files.new) (m ⟶ m)
        (seen_answer result) }
{
    match read_program(alloc, files, request.file) {
        Ok(lp) => answer_of(alloc, &lp, &request.start, &request.word),
        Err(refusal) => refusal.into_answer(),
    }
}

/// The answer to a run of the loop.
fn answer_of(
    alloc: Global,
    lp: &Loop,
    start: &Vec<Frac>,
    word: &Vec<u32>,
) -> Result<Answer, AllocError>
    ensures { IfOk result (λ a. answer_view a ≡
        texts.run_answer (program_of lp.now).names (program_of lp.now).locals
        (replay_of (program_of lp.now) (numbers_of start.now.items) word.now.items)) }
{
    match replay(alloc, lp, start, word) {
        Ok(states) => states_answer(alloc, lp, &states),
        Err(e) => run_refusal(alloc, lp, e),
    }
}
