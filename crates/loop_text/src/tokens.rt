//! One token of a loop's text.

ghost use Rattle.std.specs.Prelude.{◌≡◌, ◌<◌, None, IfOk, IsTrue};
ghost use Rattle.grammars.specs.Grammar.{after_change};
ghost use Rattle.poly_text.specs.CursorView.{bytes_left};
ghost use Rattle.poly_text.specs.Kinds.{a_sign};
ghost use Rattle.poly_text.specs.NextToken.{seen_lexeme};
ghost use Rattle.poly_text.specs.Tokens.{is_sign};
ghost use Rattle.loop_model.specs.ExpressionView.{seen_keyword};
ghost use Rattle.loop_text.specs.Loops.{LoopContext, LoopValue, LoopState, token_of};
ghost use Rattle.poly_text.specs.Lexemes.{is_end_of};
ghost use Rattle.loop_text.specs.States.{Goes, is_keyword_of};

use loop_model::Keyword;
use poly_text::{Cursor, Lexeme, TextError};

/// The fault of a token that can't stand where it does.
pub fn syntax_fault(cursor: Cursor<'_>) -> TextError
    ensures { result ≡ TextError.Syntax cursor.entry.token.at }
{
    TextError::Syntax {
        at: cursor.token.at,
    }
}

/// Whether it is this keyword.
pub fn is_keyword(lexeme: &Lexeme<'_>, keyword: Keyword) -> bool
    ensures { result ≡ is_keyword_of (seen_lexeme lexeme.now) (seen_keyword keyword) }
{
    match lexeme {
        Lexeme::Keyword(found) => *found == keyword,
        _ => false,
    }
}

/// Whether it is the end of the text.
pub fn is_end(lexeme: &Lexeme<'_>) -> bool
    ensures { result ≡ is_end_of (seen_lexeme lexeme.now) }
{
    matches!(lexeme, Lexeme::End)
}

/// Goes on behind the sign.
pub fn expect_sign<'t>(cursor: Cursor<'t>, sign: u8) -> Result<Cursor<'t>, TextError>
    requires { IsTrue (is_sign sign) }
    ensures goes { (next : LoopContext → LoopContext) (build : LoopContext → LoopValue → LoopValue)
        (s : LoopState) → Goes (token_of (a_sign sign) (λ c. None) next build) s
        (after_change next build s) cursor.entry result }
    ensures falls { IfOk result (λ end. bytes_left end < bytes_left cursor.entry) }
{
    if cursor.token.lexeme.is_sign(sign) {
        Ok(cursor.next())
    } else {
        Err(syntax_fault(cursor))
    }
}
