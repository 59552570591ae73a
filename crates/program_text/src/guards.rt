//! Reads guards, and what their parts say.

ghost use Rattle.std.specs.Prelude.{◌≡◌, ◌<◌, ◌+◌, ◌-◌, ◌++◌, ℕ, length, None, is_none, OnOk, IfOk, IfErr, IsTrue};
ghost use Rattle.std.specs.Option.{option_map};
ghost use Rattle.program_model.specs.Program.{empty};
ghost use Rattle.program_model.specs.SyntaxView.{comparison_of, guard_of};
ghost use Rattle.program_text.specs.CursorView.{bytes_left};
ghost use Rattle.program_text.specs.Faults.{fault_of};
ghost use Rattle.program_text.specs.Guards as spec;
ghost use Rattle.program_text.specs.Guards.{IsWithin};
ghost use Rattle.program_text.specs.GuardReads.{ReadsText};
ghost use Rattle.program_text.specs.Lexemes.{opens_guard};
ghost use Rattle.program_text.specs.NextToken.{seen_lexeme};
ghost use Rattle.program_text.specs.Programs as grammar;
ghost use Rattle.program_text.specs.Programs.{ProgramValue, most_blocks};
ghost use Rattle.program_text.specs.States.{ReadsGuard, at_statement, with_block, with_guard};

use crate::ProgramTextError;
use crate::assignments::{Reader, syntax_fault};
use crate::cursor::{Cursor, Read};
use crate::guard_parts::{Part, parts};
use crate::lexemes::Lexeme;
use program_model::{Comparison, Guard};
use std::alloc::{AllocError, Global};

/// The most blocks that are open at once.
pub const MOST_BLOCKS: usize = 16;

/// Blanks behind the text, up to a length.
fn pad(text: &mut Vec<u8>, len: usize) -> Result<(), AllocError>
    ensures { OnOk result
        (text.new.items ≡ text.old.items ++ spec.blanks (len - length text.old.items)) }
{
    let count = len.saturating_sub(text.len());
    for step in 0..count {
        text.push(b' ')?;
    }
    Ok(())
}

/// Whether it is want of memory.
fn is_memory(error: &ProgramTextError) -> bool
    ensures { result ≡ is_none (fault_of error.now) }
{
    match error {
        ProgramTextError::Memory => true,
        _ => false,
    }
}

/// Reads the bytes of the guard behind the keyword, one at least; what isn't of the guard is blank, so each byte keeps its offset. The `{` comes next.
fn read_guard_text<'t>(alloc: Global, cursor: Cursor<'t>) -> Read<'t, Vec<u8>>
    requires { IsTrue (opens_guard (seen_lexeme cursor.token.lexeme)) }
    ensures reads { ReadsText cursor.entry result }
    ensures falls { IfOk result (λ r. bytes_left r.1 < bytes_left cursor.entry) }
{
    let mut text = Vec::new(alloc);
    let mut at = cursor.next_item();
    loop {
        let Lexeme::Item(byte) = at.token.lexeme else {
            return Err(syntax_fault(at));
        };
        pad(&mut text, at.token.at)?;
        text.push(byte)?;
        at = at.next_item();
        if at.token.lexeme.is_sign(b'{') {
            return Ok((text, at));
        }
    }
}

impl Reader<'_> {
    /// The comparison that the part reads as; `None` where it says nothing.
    fn said(&self, text: &[u8], part: Part) -> Result<Option<Comparison>, ProgramTextError>
        requires { IsWithin (length text.now) part }
        ensures says { IfOk result (λ said. option_map comparison_of said
            ≡ spec.said self.now.names.now text.now part) }
        ensures memory { IfErr result (λ e. fault_of e ≡ None) }
    {
        match self.comparison(Cursor::from(&text[..part.1], part.0), true) {
            Ok((comparison, end)) => match end.token.lexeme {
                Lexeme::End => Ok(Some(comparison)),
                _ => Ok(None),
            },
            Err(error) => {
                if is_memory(&error) {
                    return Err(error);
                }
                Ok(None)
            }
        }
    }

    /// What the guard with this text says.
    fn guard_of(&self, text: &[u8]) -> Result<Guard, ProgramTextError>
        ensures guard { IfOk result
            (λ g. guard_of g ≡ spec.guard_of self.now.names.now text.now) }
        ensures memory { IfErr result (λ e. fault_of e ≡ None) }
    {
        let parts = parts(self.alloc, text)?;
        let mut says = Vec::new(self.alloc);
        for part in &parts {
            if let Some(comparison) = self.said(text, *part)? {
                says.push(comparison)?;
            }
        }
        let alone = parts.len() == 1;
        Ok(Guard { says, alone })
    }

    /// Reads the guard behind the keyword and the `{` behind it, inside of so many blocks.
    #[tactic(auto, unfolding(crate::specs::Programs::most_blocks))]
    pub fn guard<'t>(&self, cursor: Cursor<'t>, depth: usize) -> Read<'t, Guard>
        requires { IsTrue (opens_guard (seen_lexeme cursor.token.lexeme)) }
        ensures reads { (n : ℕ) (w : ProgramValue) → ReadsGuard grammar.guard
            (at_statement self.now.names.now n depth w)
            (λ g. at_statement self.now.names.now n (depth + 1)
            (with_block empty (with_guard (guard_of g) w))) cursor.entry result }
        ensures few { IfOk result (λ _. depth < most_blocks) }
        ensures falls { IfOk result (λ r. bytes_left r.1 < bytes_left cursor.entry) }
    {
        let (text, opening) = read_guard_text(self.alloc, cursor)?;
        if depth >= MOST_BLOCKS {
            return Err(ProgramTextError::Limit {
                at: opening.token.at,
            });
        }
        let guard = self.guard_of(&text)?;
        Ok((guard, opening.next()))
    }
}
