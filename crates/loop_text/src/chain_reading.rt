//! Reads loops in sequence.

ghost use Rattle.std.specs.Prelude.{◌≡◌, ◌<◌, ◌≤◌, ℕ, [], length, codes, IfOk, IfSome};
ghost use Rattle.std.specs.Str.{bytes_eq};
ghost use Rattle.grammars.specs.Grammar.{sequence, many, optional};
ghost use Rattle.poly_text.specs.CursorView.{rest, bytes_left};
ghost use Rattle.loop_text.specs.LoopReader.{program_in};
ghost use Rattle.loop_text.specs.Limited.{Limits};
ghost use Rattle.loop_text.specs.States.{Inits, AreVariablesThenLocals, in_branches, with_init};
ghost use Rattle.loop_runs.specs.Parts.{statements_in};
ghost use Rattle.loop_text.specs.ChainReader.{chain_of};
ghost use Rattle.loop_text.specs.Chains.{ChainState, Earlier, none_before, loop_limit, begin_loop, with_loop, with_code, then_token, code, the_branches, further};
ghost use Rattle.loop_text.specs.Raising.{in_chain};
ghost use Rattle.loop_text.specs.ChainSeen.{chain_or_fault, seen_stages};
ghost use Rattle.loop_text.specs.ChainStates.{Goes, Reads, whole};
ghost use Rattle.loop_model.specs.Limits.{all_names_limit};

use crate::{
    Begun, LoopNames, is_end, read_block, read_branches, read_init, read_locals, read_names,
    syntax_fault,
};
use loop_model::{Loop, Statement};
use loop_runs::{Chain, StageParts, further_stages};
use poly_text::{Cursor, Lexeme, TextError};
use std::alloc::Global;

const MOST_LOOPS: usize = 8;

/// Whether the word is `then`.
fn is_then(word: &[u8]) -> bool
    ensures { result ≡ bytes_eq word.now (codes "then") }
{
    word == b"then".as_slice()
}

/// Tests that one loop more may begin where so many did, by a token at this offset.
#[tactic(auto, unfolding(loop_runs::specs::Limits::most_loops))]
fn check_loops(loops: usize, at: usize) -> Result<(), TextError>
    ensures { Limits (loop_limit loops) at result }
{
    if loops >= MOST_LOOPS {
        return Err(TextError::Limit { at });
    }
    Ok(())
}

/// Goes on behind `then`, where so many loops began.
fn expect_then(cursor: Cursor<'_>, loops: usize) -> Result<Cursor<'_>, TextError>
    ensures goes { (s : ChainState) → s.context.loops ≡ loops → Goes then_token s
        (record { context = begin_loop s.context; value = with_loop s.value })
        cursor.entry result }
    ensures falls { IfOk result (λ end. bytes_left end < bytes_left cursor.entry) }
{
    let Lexeme::Name(word) = cursor.token.lexeme else {
        return Err(syntax_fault(cursor));
    };
    if !is_then(word) {
        return Err(syntax_fault(cursor));
    }
    check_loops(loops, cursor.token.at)?;
    Ok(cursor.next())
}

/// Whether the word is `do`.
fn is_do(word: &[u8]) -> bool
    ensures { result ≡ bytes_eq word.now (codes "do") }
{
    word == b"do".as_slice()
}

/// Reads code, if the text goes on with `do` behind `then`; without it there are no statements. Code is read as a branch, which doesn't count.
fn read_code<'t>(
    alloc: Global,
    cursor: Cursor<'t>,
    names: &LoopNames,
    begun: &mut Begun,
) -> Result<(Vec<Statement>, Cursor<'t>), TextError>
    requires all { AreVariablesThenLocals names.now }
    requires few { length names.now.all ≤ all_names_limit }
    requires none { begun.old.branches ≡ 0 }
    ensures none { IfOk result (λ _. begun.new.branches ≡ 0) }
    ensures reads { (init : Inits) (n : ℕ) (e : Earlier) → e.code ≡ [] →
        let vs = names.now.variables in let ls = names.now.locals in
        Reads (optional code) (in_chain n e (in_branches vs ls begun.old init []))
        (λ ss. in_chain n (with_code e (statements_in ss.items))
        (in_branches vs ls begun.new init [])) cursor.entry result }
    ensures falls { IfOk result (λ r. bytes_left r.1 ≤ bytes_left cursor.entry) }
{
    let Lexeme::Name(word) = cursor.token.lexeme else {
        return Ok((Vec::new(alloc), cursor));
    };
    if !is_do(word) {
        return Err(syntax_fault(cursor));
    }
    begun.branches = 1;
    let (code, end) = read_block(alloc, cursor.next(), names, begun)?;
    begun.branches = 0;
    Ok((code, end))
}

/// Reads the stages of a chain up to the end of the text, with `then` between the loops; the first has no code.
fn read_stages(
    alloc: Global,
    cursor: Cursor<'_>,
    names: &LoopNames,
) -> Result<Vec<StageParts>, TextError>
    requires all { AreVariablesThenLocals names.now }
    requires few { length names.now.all ≤ all_names_limit }
    ensures stages { (init : Inits) →
        let s = with_init names.now.variables names.now.locals init in
        IfSome (seen_stages (program_in s) result)
        (λ r. r ≡ whole (sequence the_branches (many further)) (in_chain 1 none_before s)
        (rest cursor.entry)) }
    ensures some { IfOk result (λ stages. 0 < length stages.items) }
{
    let mut stages = Vec::new(alloc);
    let mut begun = Begun {
        statements: 0,
        branches: 0,
    };
    let mut code = Vec::new(alloc);
    let mut at = cursor;
    loop {
        let (branches, end) = read_branches(alloc, at, names, &mut begun)?;
        stages.push(StageParts { code, branches })?;
        if is_end(&end.token.lexeme) {
            return Ok(stages);
        }
        let behind = expect_then(end, stages.len())?;
        begun.branches = 0;
        let (next, first) = read_code(alloc, behind, names, &mut begun)?;
        code = next;
        at = first;
    }
}

/// The chain that the bytes are, or their first fault.
pub fn read_chain(alloc: Global, bytes: &[u8]) -> Result<Chain, TextError>
    ensures { IfSome (chain_or_fault result) (λ r. r ≡ chain_of bytes.now) }
{
    let (names, behind) = read_names(alloc, Cursor::new(bytes))?;
    let (names, behind) = read_locals(behind, names)?;
    let (start, at) = read_init(alloc, behind, &names)?;
    let mut stages = read_stages(alloc, at, &names)?;
    let StageParts { branches, .. } = stages.remove(0);
    let first = Loop::new(names.variables, names.locals, start, branches);
    let further = further_stages(alloc, &first, stages)?;
    Ok(Chain::new(first, further))
}
