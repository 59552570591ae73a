// The budget of an analysis, the number of loops of the family, the letters of a run and the values of its start, as
// they stand in the arguments.
ghost use Rattle.std.specs.Prelude.{◌≡◌, length, map, Some, Ok, option_map};
ghost use Rattle.frac128.specs.FracMeaning.{fraction_of};
ghost use Rattle.poly_text.specs.Number.{number_of};
ghost use Rattle.command_parts.specs.Lookup.{IsFound, Grows};
ghost use Rattle.command_parts.specs.Budgets.{units_of};
ghost use Rattle.command_parts.specs.Numerals as numerals;

use crate::budget::Budget;
use frac128::Frac;
use poly_text::{read_number, read_numeral};
use std::alloc::{AllocError, Global};

const MOST_BUDGET: u64 = 1_000_000;

const MOST_BUDGET_DIGITS: usize = 7;

const MOST_COUNTED: u32 = 1000;

const MOST_COUNT_DIGITS: usize = 4;

const MOST_LETTER_DIGITS: usize = 9;

const MOST_LETTERS: usize = 4096;

const MOST_VALUES: usize = 12;

/// The budget that the argument is, if it is one: 1 to 7 digits, a number from 1 to 1,000,000.
#[tactic(auto, unfolding(crate::specs::Numerals::budget_of))]
pub fn read_budget(argument: &[u8]) -> Option<Budget>
    ensures { option_map units_of result ≡ numerals.budget_of argument.now }
{
    if argument.len() > MOST_BUDGET_DIGITS {
        return None;
    }
    budget_of(u64::from(letter(argument)?))
}

/// The budget of so many units, if there is one.
fn budget_of(units: u64) -> Option<Budget>
    ensures { option_map units_of result ≡ numerals.in_budgets (Some units) }
{
    if units >= 1 && units <= MOST_BUDGET {
        Some(Budget { units })
    } else {
        None
    }
}

/// The number of loops of the family that the argument is, if it is one: 1 to 4 digits, a number from 1 to 1,000.
#[tactic(auto, unfolding(crate::specs::Numerals::count_of))]
pub fn read_count(argument: &[u8]) -> Option<u32>
    ensures { result ≡ numerals.count_of argument.now }
{
    if argument.len() > MOST_COUNT_DIGITS {
        return None;
    }
    count_in(letter(argument)?)
}

/// The number, where so many loops may be asked for.
fn count_in(number: u32) -> Option<u32>
    ensures { result ≡ numerals.in_counts (Some number) }
{
    if number >= 1 && number <= MOST_COUNTED {
        Some(number)
    } else {
        None
    }
}

/// A number of 1 to 9 digits, as a letter of a run is.
#[tactic(auto, unfolding(crate::specs::Numerals::letter_of))]
fn letter(part: &[u8]) -> Option<u32>
    ensures { result ≡ numerals.letter_of part.now }
{
    if part.len() > MOST_LETTER_DIGITS {
        return None;
    }
    u32::try_from(read_numeral(part)?).ok()
}

fn part_count(text: &[u8]) -> usize
    ensures { result ≡ length (numerals.parts text.now) }
{
    text.split(|byte| *byte == b',').count()
}

/// The list with the part behind it, if there are both. Memory is wanting only where there would be a list.
fn with_part<T: Drop>(
    list: Result<Option<Vec<T>>, AllocError>,
    part: Option<T>,
) -> Result<Option<Vec<T>>, AllocError>
    ensures { Grows part list result }
{
    match part {
        None => Ok(None),
        Some(value) => with_value(list, value),
    }
}

fn with_value<T: Drop>(
    list: Result<Option<Vec<T>>, AllocError>,
    value: T,
) -> Result<Option<Vec<T>>, AllocError>
    ensures { Grows (Some value) list result }
{
    match list {
        Ok(Some(items)) => push_onto(items, value),
        Ok(None) => Ok(None),
        Err(error) => Err(error),
    }
}

fn push_onto<T: Drop>(mut items: Vec<T>, value: T) -> Result<Option<Vec<T>>, AllocError>
    ensures { Grows (Some value) (Ok (Some items)) result }
{
    match items.push(value) {
        Ok(()) => Ok(Some(items)),
        Err(_) => Err(AllocError),
    }
}

/// The letters that the parts of the text are, if each is one.
fn letters_in(alloc: Global, text: &[u8]) -> Result<Option<Vec<u32>>, AllocError>
    ensures { IsFound (λ letters. letters.items) result
        (numerals.each_of numerals.letter_of (numerals.parts text.now)) }
{
    let mut letters = Ok(Some(Vec::new(alloc)));
    for part in text.split(|byte| *byte == b',') {
        letters = with_part(letters, letter(part));
    }
    letters
}

/// The values that the parts of the text are, if each is one.
fn values_in(alloc: Global, text: &[u8]) -> Result<Option<Vec<Frac>>, AllocError>
    ensures { IsFound (λ values. map fraction_of values.items) result
        (numerals.each_of number_of (numerals.parts text.now)) }
{
    let mut values = Ok(Some(Vec::new(alloc)));
    for part in text.split(|byte| *byte == b',') {
        values = with_part(values, read_number(part));
    }
    values
}

/// The letters of a run that the argument is, if it is empty, or at most 4,096 letters with commas between them; each is a
/// number of 1 to 9 digits. Memory is wanting only where there are letters.
#[tactic(auto, unfolding(crate::specs::Numerals::letters_of))]
pub fn read_letters(alloc: Global, text: &[u8]) -> Result<Option<Vec<u32>>, AllocError>
    ensures { IsFound (λ letters. letters.items) result (numerals.letters_of text.now) }
{
    if text.is_empty() {
        return Ok(Some(Vec::new(alloc)));
    }
    if part_count(text) <= MOST_LETTERS {
        letters_in(alloc, text)
    } else {
        Ok(None)
    }
}

/// The values of a start that the argument is, if it is 1 to 12 values with commas between them; each is a number or a
/// fraction `n/d` of numbers of at most 128 bits, with an optional minus sign. Memory is wanting only where there are
/// values.
#[tactic(auto, unfolding(crate::specs::Numerals::values_of))]
pub fn read_values(alloc: Global, text: &[u8]) -> Result<Option<Vec<Frac>>, AllocError>
    ensures { IsFound (λ values. map fraction_of values.items) result
        (numerals.values_of text.now) }
{
    if part_count(text) <= MOST_VALUES {
        values_in(alloc, text)
    } else {
        Ok(None)
    }
}
