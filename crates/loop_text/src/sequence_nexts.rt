//! Reads recurrences.

ghost use Rattle.std.specs.Prelude.{◌≡◌, ◌<◌, ◌≤◌, ◌+◌, ◌++◌, ◌∷◌, ℕ, suc, pred, List, [], length, map, get_or, IfOk, OnOk};
ghost use Rattle.loops.specs.Limits.{most_names};
ghost use Rattle.loops.specs.Program as loops;
ghost use Rattle.poly_text.specs.CursorView.{bytes_left, rest};
ghost use Rattle.loop_model.specs.ExpressionView.{expr_of};
ghost use Rattle.loops.specs.Turning.{variables_from};
ghost use Rattle.loop_text.specs.Seqs as grammar;
ghost use Rattle.loop_text.specs.Seqs.{SeqState};
ghost use Rattle.loop_text.specs.LoopLayout.{UsesBelow};
ghost use Rattle.loop_text.specs.SequenceStates.{Goes, Reads};
ghost use Rattle.loop_text.specs.Standing.{AreTokens};
ghost use Rattle.loop_text.specs.Firsts.{behind_all, AreMade};
ghost use Rattle.loop_text.specs.SequenceSeen.{ReadsIteration};

use crate::sequence_firsts::Firsts;
use crate::sequence_sums::in_nexts;
use crate::sequence_tokens::expect_sign;
use crate::sequence_words::is_sequences;
use crate::tokens::syntax_fault;
use loop_model::Expr;
use poly_text::{Cursor, Lexeme, Refusal, SumReader, TextError};
use std::alloc::{AllocError, Global};

/// Goes on behind the name of the sequence whose recurrence is next.
fn expect_due<'t>(cursor: Cursor<'t>, due: &[u8]) -> Result<Cursor<'t>, TextError>
    ensures goes { (s : SeqState) → get_or s.context.sequences s.context.nexts [] ≡ due.now →
        Goes grammar.due_name s s cursor.entry result }
    ensures falls { IfOk result (λ end. bytes_left end < bytes_left cursor.entry) }
{
    let at = cursor.token.at;
    let Lexeme::Name(word) = cursor.token.lexeme else {
        return Err(syntax_fault(cursor));
    };
    if word == due {
        return Ok(cursor.next());
    }
    if is_sequences(word) {
        return Err(syntax_fault(cursor));
    }
    Err(TextError::Unknown { at })
}

/// Reads the recurrence of the sequence at a position.
fn read_next<'t>(
    alloc: Global,
    text: &[u8],
    cursor: Cursor<'t>,
    firsts: &Firsts,
    index: usize,
) -> Result<(Expr, Cursor<'t>), TextError>
    requires tokens { AreTokens text.now (rest cursor) }
    requires due { index < length firsts.now.sequences }
    ensures reads { (ns : List (loops.Expr ℕ)) → length ns ≡ index →
        Reads grammar.next (behind_all firsts.now ns)
        (λ e. behind_all firsts.now (ns ++ expr_of e ∷ [])) cursor.entry result }
    ensures over { IfOk result (λ r. UsesBelow (length firsts.now.variables) (expr_of r.0)) }
    ensures falls { IfOk result (λ r. bytes_left r.1 < bytes_left cursor.entry) }
{
    let due = firsts.sequences.name(index);
    let named = expect_due(cursor, due.as_bytes())?;
    let right = expect_sign(named, b'=')?;
    let sums = SumReader {
        alloc,
        names: &firsts.variables,
        refused: &[],
        refusal: Refusal::InitUses,
    };
    match sums.sum(right, 0, 0) {
        Ok((sum, end)) => {
            let end = expect_sign(end, b';')?;
            Ok((Box::into_inner(sum.value), end))
        }
        Err(error) => Err(in_nexts(text, error)),
    }
}

/// Adds what the variables of a sequence become, but for the last: each the next one.
#[tactic(auto, unfolding(loops::specs::Limits::most_names))]
fn push_later(iteration: &mut Vec<Expr>, first: usize, order: usize) -> Result<(), AllocError>
    requires some { 0 < order }
    requires few { first + order ≤ most_names }
    ensures { OnOk result (map expr_of iteration.new.items
        ≡ map expr_of iteration.old.items ++ variables_from (suc first) (pred order)) }
{
    for var in first + 1..first + order {
        iteration.push(Expr::Variable { index: var })?;
    }
    Ok(())
}

/// Reads the recurrences, one for each sequence, in their order: what the variables become in an iteration.
pub fn read_nexts<'t>(
    alloc: Global,
    text: &[u8],
    cursor: Cursor<'t>,
    firsts: &Firsts,
) -> Result<(Vec<Expr>, Cursor<'t>), TextError>
    requires tokens { AreTokens text.now (rest cursor) }
    requires made { AreMade firsts.now }
    ensures { ReadsIteration firsts.now cursor.entry result }
{
    let mut iteration = Vec::new(alloc);
    let mut at = cursor;
    let mut first = 0;
    let mut index = 0;
    while index < firsts.orders.len() {
        let (next, end) = read_next(alloc, text, at, firsts, index)?;
        let order = firsts.orders[index];
        push_later(&mut iteration, first, order)?;
        iteration.push(next)?;
        first += order;
        index += 1;
        at = end;
    }
    Ok((iteration, at))
}
