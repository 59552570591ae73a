//! `chainrun CHAIN WORDS VALUES`: the states of a run of loops in sequence.

ghost use Rattle.std.specs.Prelude.{◌≡◌, map, string_bytes, IfOk};
ghost use Rattle.machines.specs.Journal.{Journal};
ghost use Rattle.loop_runs.specs.Seen.{numbers_of};
ghost use Rattle.loop_runs.specs.ChainSeen.{chain_in};
ghost use Rattle.loop_runs.specs.ChainReplay.{chain_replay_of};
ghost use Rattle.loop_runs.specs.ChainRunsSeen.{words_of};
ghost use Rattle.io_edge.specs.Change.{◌⟶◌};
ghost use Rattle.io_edge.specs.Views.{answer_view, seen_answer};
ghost use Rattle.io_edge.specs.Outcome.{Says, Obeys};
ghost use Rattle.replay_commands.specs.RunTexts as run_texts;
ghost use Rattle.replay_commands.specs.ChainrunTexts as texts;
ghost use Rattle.replay_commands.specs.ChainrunArguments.{request_in};
ghost use Rattle.replay_commands.specs.ChainrunCourse.{course};
ghost use Rattle.replay_commands.specs.ChainrunViews.{view};

use crate::chainrun_arguments::{Request, read_arguments};
use crate::{run_refusal, states_answer};
use command_parts::read_file_chain;
use frac128::Frac;
use io_edge::{Answer, Files, Status};
use loop_runs::{Chain, replay_chain};
use std::alloc::{AllocError, Global};

/// What `chainrun` answers to the arguments behind it; none where they ask for no run.
pub fn chainrun<F: Files>(
    alloc: Global,
    arguments: &[String],
    files: &mut F,
) -> Result<Option<Answer>, AllocError>
    ensures { (m : Journal) → Obeys course (request_in (map string_bytes arguments.now))
        (F.seen files.old ⟶ F.seen files.new) (m ⟶ m) result }
{
    match read_arguments(alloc, arguments) {
        Ok(Some(request)) => io_edge::reply(answer_to(alloc, files, &request)),
        Ok(None) => Ok(None),
        Err(e) => Err(e),
    }
}

fn answer_to<F: Files>(
    alloc: Global,
    files: &mut F,
    request: &Request<'_>,
) -> Result<Answer, AllocError>
    ensures { (m : Journal) → Says (course (view request.now))
        (F.seen files.old ⟶ F.seen files.new) (m ⟶ m)
        (seen_answer result) }
{
    match read_file_chain(alloc, files, request.file) {
        Ok(chain) => answer_of(alloc, &chain, request),
        Err(refusal) => refusal.into_answer(),
    }
}

/// The answer to a run of the chain.
fn answer_of(alloc: Global, chain: &Chain, request: &Request<'_>) -> Result<Answer, AllocError>
    ensures { IfOk result (λ a. answer_view a ≡
        texts.chain_run_answer (chain_in chain.now) (view request.now)) }
{
    let wanted = chain.further().len() + 1;
    if request.words.len() == wanted {
        run_answer(alloc, chain, &request.start, &request.words)
    } else {
        other_count(alloc, request.words.len(), wanted)
    }
}

/// The answer to a run along a word of each loop.
fn run_answer(
    alloc: Global,
    chain: &Chain,
    start: &Vec<Frac>,
    words: &[Vec<u32>],
) -> Result<Answer, AllocError>
    requires { texts.IsOfWords (chain_in chain.now) (words_of words.now) }
    ensures { let c = chain_in chain.now in
        IfOk result (λ a. answer_view a ≡ run_texts.run_answer c.first.names c.first.locals
        (chain_replay_of c (numbers_of start.now.items) (words_of words.now))) }
{
    match replay_chain(alloc, chain, start, words) {
        Ok(states) => states_answer(alloc, chain.first(), &states),
        Err(e) => run_refusal(alloc, chain.first(), e),
    }
}

/// To a run where there are other than one word for each loop.
fn other_count(alloc: Global, given: usize, wanted: usize) -> Result<Answer, AllocError>
    ensures { IfOk result (λ a. answer_view a ≡ texts.count_answer given wanted) }
{
    let text = format!(in alloc; "words: {given} given, {wanted} wanted\n")?;
    Ok(Answer::new(Status::Fault, text))
}
