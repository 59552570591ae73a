//! A text and the token in it from which it is read on.

ghost use Rattle.std.specs.Prelude.{◌≤◌, length, IsTrue};
ghost use Rattle.program_text.specs.NextToken.{is_genuine};

use crate::ProgramTextError;
use crate::lexemes::{Placed, next_item, next_lexeme};

/// A text and the token from which it is read on. Each token is read once.
#[derive(Clone, Copy)]
pub struct Cursor<'t> {
    text: &'t [u8],
    pub token: Placed<'t>,
    ghost within: { token.end ≤ length text.now },
    ghost genuine: { IsTrue (is_genuine token.lexeme) },
}

/// What was read, and the cursor behind it; or the first fault.
pub type Read<'t, T> = Result<(T, Cursor<'t>), ProgramTextError>;

impl<'t> Cursor<'t> {
    ghost use Rattle.std.specs.Prelude.{◌≡◌, ◌≢◌, ◌≤◌, ◌<◌, length};
    ghost use Rattle.program_text.specs.Lexemes.{tokens, tokens_from, guard_from};
    ghost use Rattle.program_text.specs.CursorView.{rest, items, bytes_left};
    ghost use Rattle.program_text.specs.declared.lexemes.Lexeme.{Lexeme};

    /// At the first token of the text.
    pub fn new(text: &'t [u8]) -> Cursor<'t>
        ensures { rest result ≡ tokens text.now }
    {
        Cursor {
            text,
            token: next_lexeme(text, 0),
        }
    }

    /// At the first token behind an offset.
    pub fn from(text: &'t [u8], from: usize) -> Cursor<'t>
        requires { from ≤ length text.now }
        ensures { rest result ≡ tokens_from text.now from }
    {
        Cursor {
            text,
            token: next_lexeme(text, from),
        }
    }

    /// At the token behind this one.
    pub fn next(self) -> Cursor<'t>
        ensures tokens { tokens_from self.entry.text.now self.entry.token.end ≡ rest result }
        ensures falls { self.entry.token.lexeme ≢ Lexeme.End
            → bytes_left result < bytes_left self.entry }
    {
        Cursor {
            text: self.text,
            token: next_lexeme(self.text, self.token.end),
        }
    }

    /// At the token behind this one, in a guard: at the next byte of it, or at the `{` that ends it.
    pub fn next_item(self) -> Cursor<'t>
        ensures items { guard_from self.entry.text.now self.entry.token.end ≡ items result }
        ensures falls { self.entry.token.lexeme ≢ Lexeme.End
            → bytes_left result < bytes_left self.entry }
    {
        Cursor {
            text: self.text,
            token: next_item(self.text, self.token.end),
        }
    }
}
