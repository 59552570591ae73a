//! Sums in a text of sequences: values that are given, and recurrences.

ghost use Rattle.std.specs.Prelude.{◌≡◌, ◌≤◌, length, IfSome};
ghost use Rattle.loop_text.specs.Seqs.{in_values, in_nexts};
ghost use Rattle.loop_text.specs.Telling.{told_at, Retells};

use crate::sequence_words::is_sequences;
use loop_model::MOST_BYTES;
use poly_text::{Lexeme, TextError, next_lexeme};

/// The offset of a fault, unless it is of syntax.
fn offset(error: TextError) -> Option<usize>
    ensures { result ≡ told_at error }
{
    match error {
        TextError::Limit { at }
        | TextError::Wide { at }
        | TextError::Twice { at }
        | TextError::Unknown { at }
        | TextError::InitUses { at }
        | TextError::Unset { at }
        | TextError::Divisor { at } => Some(at),
        TextError::Syntax { .. } | TextError::Memory => None,
    }
}

/// The fault of a value that is given, as it is told in a text of sequences.
pub fn in_values(text: &[u8], error: TextError) -> TextError
    requires { IfSome (told_at error) (λ at. at ≤ length text.now) }
    ensures { Retells in_values text.now error result }
{
    let Some(at) = offset(error) else {
        return error;
    };
    let Lexeme::Name(word) = next_lexeme(text, at).lexeme else {
        return error;
    };
    if is_sequences(word) {
        return TextError::Syntax { at };
    }
    error
}

/// The fault of a recurrence, as it is told in a text of sequences.
pub fn in_nexts(text: &[u8], error: TextError) -> TextError
    requires { IfSome (told_at error) (λ at. at ≤ length text.now) }
    ensures { Retells in_nexts text.now error result }
{
    let Some(at) = offset(error) else {
        return error;
    };
    let Lexeme::Name(word) = next_lexeme(text, at).lexeme else {
        return error;
    };
    if is_sequences(word) {
        return TextError::Syntax { at };
    }
    if word.len() > MOST_BYTES {
        return TextError::Unknown { at };
    }
    error
}
