//! Replays loops in sequence from a start, along a word for each loop.

ghost use Rattle.std.specs.Prelude.{◌≡◌, ◌<◌, ◌+◌, ◌-◌, suc, length, All, IfSome, IfOk, IfErr, IsOk};
ghost use Rattle.loop_model.specs.View.{program_of};
ghost use Rattle.loop_runs.specs.Seen.{numbers_of, states_or_fault, IsWithin};
ghost use Rattle.loops.specs.Run.{IsStart};
ghost use Rattle.loop_runs.specs.Parts.{code_in};
ghost use Rattle.loop_runs.specs.ChainSeen.{chain_in};
ghost use Rattle.loops.specs.Chain.{stages_of, chain_states, is_code};
ghost use Rattle.loop_runs.specs.ChainReplay.{with_code, with_word, chain_replay_of};
ghost use Rattle.loop_runs.specs.ChainRunsSeen.{states_of, words_of};

use crate::places::refusal_behind;
use crate::{Chain, RunError, replay};
use frac128::Frac;
use loop_model::Loop;
use std::alloc::Global;

/// The states, and those of one more word, from the last of them. Letters and steps of a refusal count on: so many letters
/// came before, and as many steps as there are states behind the first.
fn with_word(
    alloc: Global,
    lp: &Loop,
    word: &Vec<u32>,
    letters: usize,
    mut states: Vec<Vec<Frac>>,
) -> Result<Vec<Vec<Frac>>, RunError>
    requires few { letters < length states.items }
    requires free { length (program_of lp.now).init ≡ 0 }
    requires sizes { All (λ s. length s.items ≡ length (program_of lp.now).names) states.items }
    ensures states { IfSome (states_or_fault result) (λ r. r ≡ with_word (program_of lp.now) letters
        (length states.items - 1) word.now.items (states_of states.items)) }
    ensures count { IfOk result (λ found.
        length found.items ≡ length states.items + length word.now.items) }
    ensures sizes { let m = length (program_of lp.now).names in
        IfOk result (λ found. All (λ s. length s.items ≡ m) found.items) }
    ensures within { let program = program_of lp.now in
        IfErr result (λ e. IsWithin (length program.names + length program.locals) e) }
{
    let steps = states.len() - 1;
    match replay(alloc, lp, &states[steps], word) {
        Ok(mut more) => {
            more.remove(0);
            states.append(&mut more)?;
            Ok(states)
        }
        Err(error) => Err(refusal_behind(error, letters, steps)),
    }
}

/// The states, and the one behind the code from the last of them, if the code has statements: a step, and no letter.
fn with_code(
    alloc: Global,
    code: &Loop,
    letters: usize,
    states: Vec<Vec<Frac>>,
) -> Result<Vec<Vec<Frac>>, RunError>
    requires few { letters < length states.items }
    requires once { length (program_of code.now).branches ≡ 1 }
    requires free { length (program_of code.now).init ≡ 0 }
    requires sizes { All (λ s. length s.items ≡ length (program_of code.now).names) states.items }
    ensures states { IfSome (states_or_fault result)
        (λ r. r ≡ with_code (program_of code.now) letters
        (length states.items - 1) (code_in code.now) (states_of states.items)) }
    ensures count { IfOk result (λ found.
        length found.items ≡ length states.items + is_code (code_in code.now)) }
    ensures sizes { let m = length (program_of code.now).names in
        IfOk result (λ found. All (λ s. length s.items ≡ m) found.items) }
    ensures within { let program = program_of code.now in
        IfErr result (λ e. IsWithin (length program.names + length program.locals) e) }
{
    if code.branches()[0].is_empty() {
        return Ok(states);
    }
    let once = vec![in alloc; 1]?;
    with_word(alloc, code, &once, letters, states)
}

/// The states from the start to the end of the last word: one more than the words have letters and the loops code before
/// them. Each further loop goes on from the state that the loop before has reached, behind its code. Letters and steps of
/// a refusal count over all words, and code is a step.
pub fn replay_chain(
    alloc: Global,
    chain: &Chain,
    start: &Vec<Frac>,
    words: &[Vec<u32>],
) -> Result<Vec<Vec<Frac>>, RunError>
    requires { length words.now ≡ suc (length (chain_in chain.now).further) }
    ensures replays { IfSome (states_or_fault result) (λ r. r ≡ chain_replay_of (chain_in chain.now)
        (numbers_of start.now.items) (words_of words.now)) }
    ensures start { IsOk result → IsStart (chain_in chain.now).first (numbers_of start.now.items) }
    ensures states { let c = chain_in chain.now in
        IfOk result (λ found. states_of found.items ≡ chain_states c.first (stages_of c)
        (words_of words.now) (numbers_of start.now.items)) }
    ensures sizes { let m = length (chain_in chain.now).first.names in
        IfOk result (λ found. All (λ s. length s.items ≡ m) found.items) }
    ensures within { let program = (chain_in chain.now).first in
        IfErr result (λ e. IsWithin (length program.names + length program.locals) e) }
{
    let mut states = replay(alloc, chain.first(), start, &words[0])?;
    let mut letters = words[0].len();
    for (stage, word) in chain.further().iter().zip(&words[1..]) {
        states = with_code(alloc, &stage.code, letters, states)?;
        states = with_word(alloc, &stage.body, word, letters, states)?;
        letters += word.len();
    }
    Ok(states)
}
