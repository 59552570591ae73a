//! What the tokens of a text say.

ghost use Rattle.std.specs.Prelude.{◌≡◌, ◌≢◌, ◌≤◌, ◌<◌, ◌+◌, ◌∷◌, length, drop, IsTrue};
ghost use Rattle.std.specs.Str.{all_ascii_digits};
ghost use Rattle.std.specs.Str.Parse.{digits_value};
ghost use Rattle.program_text.specs.Words.{is_word_text};
ghost use Rattle.program_text.specs.Lexemes as spec;
ghost use Rattle.program_text.specs.Lexemes.{tokens_from, guard_from, word_of, number_of, item_of, item_len, lexeme_at, len_at};
ghost use Rattle.program_text.specs.NextToken.{seen_lexeme, tokens_behind, items_behind, IsLexeme, IsShaped};

use crate::doubles::{Double, double_at};
use crate::tokens::{digits_len, is_sign, skip_blanks, word_len};
use crate::words::{Keyword, keyword_of};
use poly_text::number_value;

/// What a token says.
#[derive(Clone, Copy)]
pub enum Lexeme<'t> {
    Name(&'t [u8]),
    Keyword(Keyword),
    /// A number of at most 2^127 - 1.
    Number(u128),
    /// A larger number.
    Large,
    /// One of `, ; = ( ) { } + - * / ^`.
    Sign(u8),
    /// One of `== != ..`.
    Pair(Double),
    /// A byte of a guard.
    Item(u8),
    /// A byte that begins no token.
    Bad,
    /// The end of the text.
    End,
}

/// One token of a text: its first offset, the offset after it, and what it says.
#[derive(Clone, Copy)]
pub struct Placed<'t> {
    pub at: usize,
    pub end: usize,
    pub lexeme: Lexeme<'t>,
}

impl Lexeme<'_> {
    /// Whether it is the end of the text.
    pub fn is_end(&self) -> bool
        ensures { result ≡ spec.is_end_of (seen_lexeme self.now) }
    {
        match self {
            Lexeme::End => true,
            _ => false,
        }
    }

    /// Whether it is this sign.
    pub fn is_sign(&self, sign: u8) -> bool
        ensures { result ≡ spec.is_sign_of (seen_lexeme self.now) sign }
    {
        match self {
            Lexeme::Sign(byte) => *byte == sign,
            _ => false,
        }
    }
}

fn word_lexeme(word: &[u8]) -> Lexeme<'_>
    requires { IsTrue (is_word_text word.now) }
    ensures lexeme { seen_lexeme result ≡ word_of word.now }
    ensures plain { IsLexeme result }
{
    match keyword_of(word) {
        Some(keyword) => Lexeme::Keyword(keyword),
        None => Lexeme::Name(word),
    }
}

fn number_lexeme(digits: &[u8]) -> Lexeme<'_>
    requires { IsTrue (all_ascii_digits digits.now) }
    ensures lexeme { seen_lexeme result ≡ number_of (digits_value 10 digits.now) }
    ensures small { IsLexeme result }
{
    match number_value(digits) {
        Some(value) => Lexeme::Number(value.unsigned_abs()),
        None => Lexeme::Large,
    }
}

fn is_item(byte: u8) -> bool
    ensures { result ≡ spec.is_item byte }
{
    byte.is_ascii_graphic() && !b"{};#".contains(&byte)
}

fn item_lexeme(byte: u8) -> Lexeme<'static>
    ensures lexeme { seen_lexeme result ≡ item_of byte }
    ensures genuine { IsLexeme result }
{
    if byte == b'{' {
        Lexeme::Sign(byte)
    } else if is_item(byte) {
        Lexeme::Item(byte)
    } else {
        Lexeme::Bad
    }
}

/// What the token says that the text begins with, and its length: a name or a keyword is an ASCII letter, then letters, digits and `_`.
fn first_lexeme(text: &[u8]) -> (Lexeme<'_>, usize)
    ensures lexeme { seen_lexeme result.0 ≡ lexeme_at text.now }
    ensures genuine { IsLexeme result.0 }
    ensures len { result.1 ≡ len_at text.now }
    ensures within { result.1 ≤ length text.now }
{
    let Some(first) = text.first() else {
        return (Lexeme::End, 0);
    };
    if first.is_ascii_alphabetic() {
        let len = word_len(text);
        (word_lexeme(&text[..len]), len)
    } else if first.is_ascii_digit() {
        let len = digits_len(text);
        (number_lexeme(&text[..len]), len)
    } else if let Some(double) = double_at(text) {
        (Lexeme::Pair(double), 2)
    } else if is_sign(*first) {
        (Lexeme::Sign(*first), 1)
    } else {
        (Lexeme::Bad, 1)
    }
}

/// The next token behind the blanks that begin at `from`, and what it says. Blanks are spaces, tabs, line feeds, carriage returns, and comments
/// from `#` up to the line feed. At the end of the text both offsets are its length. Behind `if` and `while` a guard follows: read on by `next_item`.
pub fn next_lexeme(text: &[u8], from: usize) -> Placed<'_>
    requires { from ≤ length text.now }
    ensures tokens { tokens_from text.now from
        ≡ record { at = result.at; lexeme = seen_lexeme result.lexeme }
        ∷ tokens_behind text.now (seen_lexeme result.lexeme) result.end }
    ensures lexeme { IsLexeme result.lexeme }
    ensures shape { IsShaped text.now result.at result.end (seen_lexeme result.lexeme) }
    ensures end { result.end ≡ result.at + len_at (drop result.at text.now) }
    ensures after { from ≤ result.at }
    ensures order { result.at ≤ result.end }
    ensures within { result.end ≤ length text.now }
    ensures moves { result.lexeme ≢ Lexeme.End → from < result.end }
{
    let at = skip_blanks(text, from);
    let (lexeme, len) = first_lexeme(&text[at..]);
    let end = at + len;
    Placed { at, end, lexeme }
}

/// The next byte of a guard behind the blanks that begin at `from`. The sign `{` ends the guard: read on by `next_lexeme`.
pub fn next_item(text: &[u8], from: usize) -> Placed<'_>
    requires { from ≤ length text.now }
    ensures items { guard_from text.now from
        ≡ record { at = result.at; lexeme = seen_lexeme result.lexeme }
        ∷ items_behind text.now (seen_lexeme result.lexeme) result.end }
    ensures lexeme { IsLexeme result.lexeme }
    ensures end { result.end ≡ result.at + item_len (drop result.at text.now) }
    ensures after { from ≤ result.at }
    ensures order { result.at ≤ result.end }
    ensures within { result.end ≤ length text.now }
    ensures moves { result.lexeme ≢ Lexeme.End → from < result.end }
{
    let at = skip_blanks(text, from);
    if at < text.len() {
        Placed {
            at,
            end: at + 1,
            lexeme: item_lexeme(text[at]),
        }
    } else {
        Placed {
            at,
            end: at,
            lexeme: Lexeme::End,
        }
    }
}
