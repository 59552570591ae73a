//! Reads programs.

ghost use Rattle.std.specs.Prelude.{◌≡◌, ◌<◌, IfOk, IfSome};
ghost use Rattle.program_text.specs.CursorView.{bytes_left};
ghost use Rattle.program_text.specs.ProgramReader.{text_of, told_program};
ghost use Rattle.program_text.specs.Programs as grammar;
ghost use Rattle.program_text.specs.States.{Goes, Reads, named_so};

use crate::ProgramTextError;
use crate::assignments::{Reader, expect_sign, is_keyword, syntax_fault};
use crate::cursor::{Cursor, Read};
use crate::lexemes::Lexeme;
use crate::words::Keyword;
use loop_model::{MOST_BYTES, Names};
use program_model::Program;
use std::alloc::Global;

/// The most variables of a program.
const MOST_NAMES: usize = 16;

/// Adds the next token, which is a new name, to the names.
#[tactic(auto, unfolding(loops::specs::Limits::most_bytes, crate::specs::Programs::most_names))]
fn read_name<'t>(cursor: Cursor<'t>, names: &mut Names) -> Result<Cursor<'t>, ProgramTextError>
    ensures goes { Goes grammar.declared_name (named_so names.old) (named_so names.new) cursor.entry
        result }
    ensures falls { IfOk result (λ end. bytes_left end < bytes_left cursor.entry) }
{
    let at = cursor.token.at;
    let Lexeme::Name(word) = cursor.token.lexeme else {
        return Err(syntax_fault(cursor));
    };
    if names.len() >= MOST_NAMES {
        return Err(ProgramTextError::Limit { at });
    }
    if word.len() > MOST_BYTES {
        return Err(ProgramTextError::Limit { at });
    }
    if names.position(word).is_some() {
        return Err(ProgramTextError::Twice { at });
    }
    names.push_new(word)?;
    Ok(cursor.next())
}

/// Reads `vars`, the names, and the `;` behind them.
fn read_names(alloc: Global, cursor: Cursor<'_>) -> Read<'_, Names>
    ensures reads { Reads grammar.names grammar.nothing (λ ns. named_so ns) cursor.entry result }
    ensures falls { IfOk result (λ r. bytes_left r.1 < bytes_left cursor.entry) }
{
    if !is_keyword(&cursor.token.lexeme, Keyword::Vars) {
        return Err(syntax_fault(cursor));
    }
    let mut names = Names::empty(alloc);
    let mut at = cursor.next();
    loop {
        let end = read_name(at, &mut names)?;
        if !end.token.lexeme.is_sign(b',') {
            let end = expect_sign(end, b';')?;
            return Ok((names, end));
        }
        at = end.next();
    }
}

/// What the bytes are as a program, or their first fault; offsets count bytes. Names, limits, reasons and what each statement means stand in docs/LANGUAGE.md.
pub fn read_program(alloc: Global, bytes: &[u8]) -> Result<Program, ProgramTextError>
    ensures reads { IfSome (told_program result) (λ told. told ≡ text_of bytes.now) }
{
    let (names, first) = read_names(alloc, Cursor::new(bytes))?;
    let mut statements = Vec::new(alloc);
    let mut begun: usize = 0;
    let reader = Reader {
        alloc,
        names: &names,
    };
    let mut at = first;
    while !at.token.lexeme.is_end() {
        at = reader.statement(at, 0, &mut begun, &mut statements)?;
    }
    Ok(Program::new(names, statements, bytes.len()))
}
