// What the answers to runs say.
ghost use Rattle.std.specs.Prelude.{◌≡◌, ◌<◌, ◌+◌, ◌++◌, [], map, length, get_or, Some, Ok, Err, option_map, string_bytes, All, IfOk, codes, decimal};
ghost use Rattle.loop_runs.specs.Replay as replay;
ghost use Rattle.loop_runs.specs.Seen.{numbers_of, fault_of, IsWithin};
ghost use Rattle.loop_model.specs.View.{program_of};
ghost use Rattle.io_edge.specs.Views.{answer_view};
ghost use Rattle.io_edge.specs.Texts.{answer};
ghost use Rattle.replay_commands.specs.RunTexts as texts;

use command_parts::{ordinal, push_states};
use frac128::Frac;
use io_edge::{Answer, Status, line};
use loop_model::Loop;
use loop_runs::RunError;
use std::alloc::{AllocError, Global};

/// To a run that was replayed: its states, one a line.
pub fn states_answer(alloc: Global, lp: &Loop, states: &[Vec<Frac>]) -> Result<Answer, AllocError>
    requires { All (λ s. length s.items ≡ length (program_of lp.now).names) states.now }
    ensures { IfOk result (λ a. answer_view a ≡
        texts.run_answer (program_of lp.now).names (program_of lp.now).locals
        (Ok (map (λ s. numbers_of s.items) states.now))) }
{
    let mut text = String::new(alloc);
    push_states(&mut text, lp.names(), states)?;
    Ok(Answer::new(Status::Yes, text))
}

/// To a run that was refused.
pub fn run_refusal(alloc: Global, lp: &Loop, why: RunError) -> Result<Answer, AllocError>
    requires { let program = program_of lp.now in
        IsWithin (length program.names + length program.locals) why }
    ensures { let program = program_of lp.now in
        IfOk result (λ a. option_map (λ f. texts.run_answer program.names program.locals (Err f))
        (fault_of why) ≡ Some (answer_view a)) }
{
    match why {
        RunError::Count { values, variables } => other_count(alloc, values, variables),
        RunError::Start { var } => line(alloc, Status::Fault, "start: ", name(lp, var).as_str()),
        RunError::NoBranch { index } => no_branch(alloc, index),
        RunError::Wide { step, var } => wide_in_step(alloc, step, name(lp, var)),
        RunError::Memory => Err(AllocError),
    }
}

/// The name of the variable with this index, or of the local name behind the variables.
fn name(lp: &Loop, index: usize) -> &String
    requires { let program = program_of lp.now in
        index < length program.names + length program.locals }
    ensures { let program = program_of lp.now in
        get_or (program.names ++ program.locals) index [] ≡ string_bytes result.now }
{
    let variables = lp.names().len();
    if index < variables {
        lp.names().name(index)
    } else {
        lp.locals().name(index - variables)
    }
}

fn other_count(alloc: Global, values: usize, variables: usize) -> Result<Answer, AllocError>
    ensures { IfOk result (λ a. answer_view a ≡
        texts.run_answer [] [] (Err (replay.count values variables))) }
{
    let text = format!(in alloc; "values: {values} given, {variables} wanted\n")?;
    Ok(Answer::new(Status::Fault, text))
}

fn no_branch(alloc: Global, index: usize) -> Result<Answer, AllocError>
    ensures { IfOk result (λ a. answer_view a ≡
        texts.run_answer [] [] (Err (replay.no_branch index))) }
{
    let letter = ordinal(index);
    let text = format!(in alloc; "no branch: letter {letter}\n")?;
    Ok(Answer::new(Status::Fault, text))
}

fn wide_in_step(alloc: Global, step: usize, name: &String) -> Result<Answer, AllocError>
    ensures { IfOk result (λ a. answer_view a ≡
        answer Status.Wide (codes "wide: step " ++ decimal step ++ codes ", variable " ++
        string_bytes name.now)) }
{
    let text = format!(in alloc; "wide: step {step}, variable {name}\n")?;
    Ok(Answer::new(Status::Wide, text))
}
