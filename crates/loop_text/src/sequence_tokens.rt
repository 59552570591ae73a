//! One token of a text of sequences.

ghost use Rattle.std.specs.Prelude.{◌≡◌, ◌<◌, [], Ok, Err, IfOk, IfErr, OnOk, IfSome, option_map, IsTrue};
ghost use Rattle.grammars.specs.Grammar.{after_change};
ghost use Rattle.poly_text.specs.CursorView.{bytes_left, rest};
ghost use Rattle.poly_text.specs.Faults.{fault_of};
ghost use Rattle.poly_text.specs.Kinds.{a_sign};
ghost use Rattle.poly_text.specs.Tokens.{is_sign};
ghost use Rattle.loop_text.specs.Seqs.{SeqContext, SeqValue, SeqState, token_of, the_end};
ghost use Rattle.loop_text.specs.SequenceStates.{Goes, reading};

use crate::tokens::syntax_fault;
use poly_text::{Cursor, Lexeme, TextError};

/// Goes on behind the sign.
pub fn expect_sign<'t>(cursor: Cursor<'t>, sign: u8) -> Result<Cursor<'t>, TextError>
    requires { IsTrue (is_sign sign) }
    ensures goes { (next : SeqContext → SeqContext) (build : SeqContext → SeqValue → SeqValue)
        (s : SeqState) → Goes (token_of (a_sign sign) next build) s
        (after_change next build s) cursor.entry result }
    ensures falls { IfOk result (λ end. bytes_left end < bytes_left cursor.entry) }
{
    if cursor.token.lexeme.is_sign(sign) {
        Ok(cursor.next())
    } else {
        Err(syntax_fault(cursor))
    }
}

/// Nothing where the text ends.
pub fn expect_end(cursor: Cursor<'_>) -> Result<(), TextError>
    ensures ok { (s : SeqState) → OnOk result (Ok (s, []) ≡ reading the_end s (rest cursor.entry)) }
    ensures err { (s : SeqState) → IfErr result (λ e.
        IfSome (option_map Err (fault_of e)) (λ r. r ≡ reading the_end s (rest cursor.entry))) }
{
    match cursor.token.lexeme {
        Lexeme::End => Ok(()),
        _ => Err(syntax_fault(cursor)),
    }
}
