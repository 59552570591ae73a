//! Replays runs: of a loop (`replay`), and of loops in sequence (`Chain`, `replay_chain`).
//!
//! Proved: the answer is the states of the run or its first refusal, exactly; what is replayed is a run, and a run is replayed unless a
//! number doesn't fit.
//!
//! Notion: runs: the article.
#![tactic(auto)]

ghost use Rattle.std.specs.Prelude.{◌≡◌, ◌+◌, map, option_map, length, IfSome, IfOk, IfErr, IsOk};
ghost use Rattle.std.specs.List.{All};
ghost use Rattle.loops.specs.Run as run;
ghost use Rattle.loops.specs.WellFormed.{IsStatement};
ghost use Rattle.loop_model.specs.Parts.{statement_of};
ghost use Rattle.loop_model.specs.View.{program_of};
ghost use Rattle.loop_runs.specs.Replay.{replay_of, states_from};
ghost use Rattle.loop_runs.specs.Seen.{numbers_of, states_or_fault, IsWithin};

mod chain;
pub mod chain_laws;
mod chain_replay;
mod error;
pub mod laws;
mod parts;
mod places;
mod stage;
mod start;
mod steps;
mod values;

pub use chain::Chain;
pub use chain_replay::replay_chain;
pub use error::RunError;
use frac128::Frac;
use loop_model::{Loop, Statement};
pub use parts::further_stages;
pub use stage::{Stage, StageParts};
use start::check_start;
use std::alloc::Global;
use steps::after_iteration;
pub use values::value_at;

/// The branch with the number; branches count from 1.
fn branch_at(lp: &Loop, number: u32) -> Option<&[Statement]>
    ensures branch { option_map (λ branch. map statement_of branch.now) result ≡ run.branch_at
        (program_of lp.now) number }
    ensures statements { let program = program_of lp.now in
        IfSome result (λ branch. All
        (λ s. IsStatement (length program.names + length program.locals) (statement_of s))
        branch.now) }
{
    let index = number.checked_sub(1)?;
    let branch = lp.branches().get(index as usize)?;
    Some(branch)
}

/// The states from the state on, letter by letter.
fn follow(
    alloc: Global,
    lp: &Loop,
    start: &Vec<Frac>,
    word: &[u32],
) -> Result<Vec<Vec<Frac>>, RunError>
    requires { length start.now.items ≡ length (program_of lp.now).names }
    ensures follows { IfSome (states_or_fault result)
        (λ r. r ≡ states_from (program_of lp.now) 0 word.now (numbers_of start.now.items)) }
    ensures sizes { let m = length (program_of lp.now).names in
        IfOk result (λ answer. All (λ s. length s.items ≡ m) answer.items) }
    ensures within { let program = program_of lp.now in
        IfErr result (λ e. IsWithin (length program.names + length program.locals) e) }
{
    let mut states = Vec::new(alloc);
    let mut state = start.clone()?;
    for (index, number) in word.iter().enumerate() {
        let Some(branch) = branch_at(lp, *number) else {
            return Err(RunError::NoBranch { index });
        };
        states.push(state.clone()?)?;
        state = after_iteration(alloc, branch, state, lp.locals().len(), index + 1)?;
    }
    states.push(state)?;
    Ok(states)
}

/// The states from the start to the end of the word, one more than it has letters.
pub fn replay(
    alloc: Global,
    lp: &Loop,
    start: &Vec<Frac>,
    word: &Vec<u32>,
) -> Result<Vec<Vec<Frac>>, RunError>
    ensures replays { IfSome (states_or_fault result)
        (λ r. r ≡ replay_of (program_of lp.now) (numbers_of start.now.items) word.now.items) }
    ensures start { IsOk result → run.IsStart (program_of lp.now) (numbers_of start.now.items) }
    ensures states { IfOk result (λ answer. map (λ s. numbers_of s.items) answer.items
        ≡ run.states (program_of lp.now) word.now.items (numbers_of start.now.items)) }
    ensures sizes { let m = length (program_of lp.now).names in
        IfOk result (λ answer. All (λ s. length s.items ≡ m) answer.items) }
    ensures within { let program = program_of lp.now in
        IfErr result (λ e. IsWithin (length program.names + length program.locals) e) }
{
    let variables = lp.names().len();
    if start.len() != variables {
        return Err(RunError::Count {
            values: start.len(),
            variables,
        });
    }
    check_start(lp.start(), start)?;
    follow(alloc, lp, start, word)
}
