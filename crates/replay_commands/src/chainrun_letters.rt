// The words of a run: letters with commas between them, and slashes between the words.
ghost use Rattle.std.specs.Prelude.{◌≡◌, ℕ, List, Option, sum_by, min};
ghost use Rattle.command_parts.specs.Lookup.{IsFound, list_with};
ghost use Rattle.command_parts.specs.Numerals.{each_of, letters_of};
ghost use Rattle.loop_runs.specs.ChainRunsSeen.{words_of};
ghost use Rattle.replay_commands.specs.ChainrunArguments as words;

use command_parts::read_letters;
use std::alloc::{AllocError, Global};

const MOST_LETTERS: usize = 4096;

/// The words of a run that the text is, if each is empty or has letters with commas between them, all together at most
/// 4,096; the words have slashes between them. Memory is wanting only where there are words.
pub(crate) fn read_letter_words(
    alloc: Global,
    text: &[u8],
) -> Result<Option<Vec<Vec<u32>>>, AllocError>
    ensures { IsFound (λ found. words_of found.items) result (words.words_in text.now) }
{
    if letters_in(text) <= MOST_LETTERS {
        words_in(alloc, text)
    } else {
        Ok(None)
    }
}

/// How many letters the words have together; the greatest number, where they have more.
fn letters_in(text: &[u8]) -> usize
    ensures { result ≡ min (sum_by words.letter_count (words.word_parts text.now)) usize.MAX }
{
    let mut letters = 0_usize;
    for word in text.split(|byte| *byte == b'/') {
        letters = letters.saturating_add(letter_count(word));
    }
    letters
}

fn letter_count(word: &[u8]) -> usize
    ensures { result ≡ words.letter_count word.now }
{
    if word.is_empty() {
        return 0;
    }
    word.split(|byte| *byte == b',').count()
}

/// The words that the parts of the text are, if each is one.
fn words_in(alloc: Global, text: &[u8]) -> Result<Option<Vec<Vec<u32>>>, AllocError>
    ensures { IsFound (λ found. words_of found.items) result
        (each_of letters_of (words.word_parts text.now)) }
{
    let mut found = Ok(Some(Vec::new(alloc)));
    for word in text.split(|byte| *byte == b'/') {
        found = with_word(found, read_letters(alloc, word));
    }
    found
}

/// The words with one more behind them, if there are both.
fn with_word(
    words: Result<Option<Vec<Vec<u32>>>, AllocError>,
    word: Result<Option<Vec<u32>>, AllocError>,
) -> Result<Option<Vec<Vec<u32>>>, AllocError>
    ensures { (some : Option (List (List ℕ))) (one : Option (List ℕ))
        → IsFound (λ found. words_of found.items) words some
        → IsFound (λ letters. letters.items) word one
        → IsFound (λ found. words_of found.items) result (list_with some one) }
{
    match word {
        Ok(Some(letters)) => push_word(words, letters),
        Ok(None) => Ok(None),
        Err(error) => match words {
            Ok(None) => Ok(None),
            Ok(Some(_)) | Err(_) => Err(error),
        },
    }
}

fn push_word(
    words: Result<Option<Vec<Vec<u32>>>, AllocError>,
    word: Vec<u32>,
) -> Result<Option<Vec<Vec<u32>>>, AllocError>
    ensures { (some : Option (List (List ℕ)))
        → IsFound (λ found. words_of found.items) words some
        → IsFound (λ found. words_of found.items) result (list_with some (Some word.items)) }
{
    let Ok(Some(mut list)) = words else {
        return words;
    };
    match list.push(word) {
        Ok(()) => Ok(Some(list)),
        Err(_) => Err(AllocError),
    }
}
