//! What a word of a text is: a keyword, or a plain word, which can be a name.

ghost use Rattle.std.specs.Prelude.{◌≡◌};
ghost use Rattle.std.specs.List.{list_all};
ghost use Rattle.std.specs.Option.{option_map};
ghost use Rattle.loop_model.specs.Words as spec;
ghost use Rattle.loop_model.specs.ExpressionView.{seen_keyword};

/// A word that can't be a name.
#[derive(Clone, Copy)]
pub enum Keyword {
    Vars,
    Init,
    Branch,
    When,
}

/// Whether the byte may stand in a word behind its first letter: a letter, a digit or `_`.
pub fn is_word(byte: u8) -> bool
    ensures { result ≡ spec.is_word byte }
{
    byte.is_ascii_alphanumeric() || byte == b'_'
}

fn are_of_words(bytes: &[u8]) -> bool
    ensures { result ≡ list_all spec.is_word bytes.now }
{
    bytes.iter().all(|byte| is_word(*byte))
}

/// Whether these bytes are a letter and then bytes of words.
pub fn is_word_text(text: &[u8]) -> bool
    ensures { result ≡ spec.is_word_text text.now }
{
    match text.split_first() {
        Some((first, rest)) => first.is_ascii_alphabetic() && are_of_words(rest),
        None => false,
    }
}

/// The keyword that the word is; `None` where it is another word.
#[tactic(auto, unfolding(crate::specs::Words::keyword_of))]
pub fn keyword_of(word: &[u8]) -> Option<Keyword>
    ensures { option_map seen_keyword result ≡ spec.keyword_of word.now }
{
    if word == b"vars".as_slice() {
        Some(Keyword::Vars)
    } else if word == b"init".as_slice() {
        Some(Keyword::Init)
    } else if word == b"branch".as_slice() {
        Some(Keyword::Branch)
    } else if word == b"when".as_slice() {
        Some(Keyword::When)
    } else {
        None
    }
}

/// Whether these bytes are a word that is no keyword.
pub fn is_plain(word: &[u8]) -> bool
    ensures { result ≡ spec.is_plain_word word.now }
{
    is_word_text(word) && keyword_of(word).is_none()
}
