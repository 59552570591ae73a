// The arguments behind `chainrun`.
ghost use Rattle.std.specs.Prelude.{List, Option, Some, map, string_bytes};
ghost use Rattle.algebra.specs.Fraction.{Fraction};
ghost use Rattle.loop_runs.specs.Seen.{numbers_of};
ghost use Rattle.loop_runs.specs.ChainRunsSeen.{words_of};
ghost use Rattle.command_parts.specs.Lookup.{IsFound};
ghost use Rattle.command_parts.specs.Numerals.{values_of};
ghost use Rattle.replay_commands.specs.ChainrunArguments.{request_in, request_of, words_in};
ghost use Rattle.replay_commands.specs.ChainrunViews.{view};

use crate::chainrun_letters::read_letter_words;
use command_parts::read_values;
use frac128::Frac;
use io_edge::names_a_file;
use std::alloc::{AllocError, Global};

/// A run of the chain of a file, along these words, from these values.
#[derive(Drop)]
pub(crate) struct Request<'a> {
    pub(crate) file: &'a String,
    pub(crate) words: Vec<Vec<u32>>,
    pub(crate) start: Vec<Frac>,
}

/// The run that the arguments ask for, or none. Memory is wanting only for a run.
pub(crate) fn read_arguments(
    alloc: Global,
    arguments: &[String],
) -> Result<Option<Request<'_>>, AllocError>
    ensures { IsFound view result (request_in (map string_bytes arguments.now)) }
{
    match arguments {
        [file, letters, values] if names_a_file(file) => read_run(alloc, file, letters, values),
        _ => Ok(None),
    }
}

/// The run of this file, if there are words of letters and values in these words.
fn read_run<'a>(
    alloc: Global,
    file: &'a String,
    letters: &String,
    values: &String,
) -> Result<Option<Request<'a>>, AllocError>
    ensures { IsFound view result (request_of (string_bytes file.now)
        (words_in (string_bytes letters.now)) (values_of (string_bytes values.now))) }
{
    let start = read_values(alloc, values.as_bytes());
    match read_letter_words(alloc, letters.as_bytes()) {
        Ok(Some(words)) => run_from(file, words, start),
        Ok(None) => Ok(None),
        Err(error) => match start {
            Ok(None) => Ok(None),
            Ok(Some(_)) | Err(_) => Err(error),
        },
    }
}

/// The run of this file along these words, if there are values.
fn run_from<'a>(
    file: &'a String,
    words: Vec<Vec<u32>>,
    start: Result<Option<Vec<Frac>>, AllocError>,
) -> Result<Option<Request<'a>>, AllocError>
    ensures { (values : Option (List Fraction)) →
        IsFound (λ list. numbers_of list.items) start values →
        IsFound view result (request_of (string_bytes file.now) (Some (words_of words.items))
        values) }
{
    match start {
        Ok(Some(start)) => Ok(Some(Request { file, words, start })),
        Ok(None) => Ok(None),
        Err(error) => Err(error),
    }
}
