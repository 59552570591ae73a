//! Reads `init`: the equations that a start meets.

ghost use Rattle.std.specs.Prelude.{◌<◌, [], map, IfOk};
ghost use Rattle.grammars.specs.Grammar.{sequence, separated, optional};
ghost use Rattle.poly_text.specs.CursorView.{bytes_left};
ghost use Rattle.loop_model.specs.Parts.{equation_of};
ghost use Rattle.loop_text.specs.Loops as grammar;
ghost use Rattle.loop_text.specs.States.{Goes, Reads, in_init, with_init, with_names};
ghost use Rattle.loop_model.specs.Ascii.{comma};

use crate::names::{LoopNames, read_left};
use crate::tokens::{expect_sign, is_keyword};
use loop_model::{Init, Keyword};
use poly_text::{Cursor, Refusal, SumReader, TextError};
use std::alloc::Global;

/// Reads an equation and adds it to the start, and its variable to what is set.
fn read_equation<'t>(
    alloc: Global,
    cursor: Cursor<'t>,
    names: &LoopNames,
    start: &mut Vec<Init>,
    set: &mut Vec<usize>,
) -> Result<Cursor<'t>, TextError>
    ensures goes { Goes grammar.start
        (in_init names.now.variables names.now.locals set.old.items
        (map equation_of start.old.items) [])
        (in_init names.now.variables names.now.locals set.new.items
        (map equation_of start.new.items) [])
        cursor.entry result }
    ensures falls { IfOk result (λ end. bytes_left end < bytes_left cursor.entry) }
{
    let (var, behind) = read_left(cursor, &names.variables, set, start)?;
    set.push(var)?;
    let right = expect_sign(behind, b'=')?;
    let sums = SumReader {
        alloc,
        names: &names.variables,
        refused: set,
        refusal: Refusal::InitUses,
    };
    let (sum, end) = sums.sum(right, 0, 0)?;
    let value = Box::into_inner(sum.value);
    start.push(Init { var, value })?;
    Ok(end)
}

/// Reads equations and the `;` behind them.
fn read_equations<'t>(
    alloc: Global,
    cursor: Cursor<'t>,
    names: &LoopNames,
) -> Result<(Vec<Init>, Cursor<'t>), TextError>
    ensures { Reads (sequence (separated (grammar.sign comma) grammar.start) grammar.init_end)
        (with_names names.now.variables names.now.locals)
        (λ start. with_init names.now.variables names.now.locals (map equation_of start.items))
        cursor.entry result }
{
    let mut start = Vec::new(alloc);
    let mut set = Vec::new(alloc);
    let mut at = cursor;
    loop {
        let end = read_equation(alloc, at, names, &mut start, &mut set)?;
        if !end.token.lexeme.is_sign(b',') {
            let end = expect_sign(end, b';')?;
            return Ok((start, end));
        }
        at = end.next();
    }
}

/// Reads `init`, its equations and the `;` behind them, if the text goes on with `init`.
pub fn read_init<'t>(
    alloc: Global,
    cursor: Cursor<'t>,
    names: &LoopNames,
) -> Result<(Vec<Init>, Cursor<'t>), TextError>
    ensures { Reads (optional grammar.init) (with_names names.now.variables names.now.locals)
        (λ start. with_init names.now.variables names.now.locals (map equation_of start.items))
        cursor.entry result }
{
    if is_keyword(&cursor.token.lexeme, Keyword::Init) {
        read_equations(alloc, cursor.next(), names)
    } else {
        Ok((Vec::new(alloc), cursor))
    }
}
