// The arguments behind `basis` and `cert` that name a degree.
ghost use Rattle.std.specs.Prelude.{◌≡◌, Some, map, string_bytes, option_map};
ghost use Rattle.command_parts.specs.Budgets.{units_of};
ghost use Rattle.closing_commands.specs.DegreeArguments.{degree_of, has_degree, in_degrees, is_degree as told_degree, request_behind, request_in, request_named, request_within};
ghost use Rattle.closing_commands.specs.DegreeViews.{view};

use crate::evidence::Evidence;
use command_parts::{Budget, read_budget};
use io_edge::names_a_file;
use poly_text::read_numeral;

const MOST_DEGREE: u16 = 16;

const MOST_DEGREE_DIGITS: usize = 2;

/// A search of a file with this budget for the invariants up to this degree, and what is to be shown.
#[derive(Clone, Copy)]
pub(crate) struct Request<'a> {
    pub(crate) evidence: Evidence,
    pub(crate) budget: Budget,
    pub(crate) degree: u16,
    pub(crate) file: &'a String,
}

/// Whether the option of a degree stands first, or behind another option.
pub fn names_degree(arguments: &[String]) -> bool
    ensures { result ≡ has_degree (map string_bytes arguments.now) }
{
    match arguments {
        [] => false,
        [first] => is_degree(first),
        [first, _] => is_degree(first),
        [first, _, third, ..] => is_degree(first) || is_degree(third),
    }
}

/// Whether the argument is the option of a degree.
fn is_degree(argument: &String) -> bool
    ensures { result ≡ told_degree (string_bytes argument.now) }
{
    argument.as_str() == "--degree"
}

/// The search that the arguments ask for, or none.
pub(crate) fn read_arguments(evidence: Evidence, arguments: &[String]) -> Option<Request<'_>>
    ensures { option_map view result ≡ request_in evidence (map string_bytes arguments.now) }
{
    match arguments {
        [option, degree, file] => named(evidence, Some(Budget::usual()), option, degree, file),
        [first, number, option, degree, file] => {
            behind(evidence, first, number, option, degree, file)
        }
        _ => None,
    }
}

/// The search of this file, where the option of a budget stands before that of a degree.
fn behind<'a>(
    evidence: Evidence,
    first: &String,
    number: &String,
    option: &String,
    degree: &String,
    file: &'a String,
) -> Option<Request<'a>>
    ensures { option_map view result ≡ request_behind evidence (string_bytes first.now)
        (string_bytes number.now) (string_bytes option.now) (string_bytes degree.now)
        (string_bytes file.now) }
{
    if first.as_str() == "--budget" {
        named(
            evidence,
            read_budget(number.as_bytes()),
            option,
            degree,
            file,
        )
    } else {
        None
    }
}

/// The search of this file, where the option is that of a degree.
fn named<'a>(
    evidence: Evidence,
    budget: Option<Budget>,
    option: &String,
    degree: &String,
    file: &'a String,
) -> Option<Request<'a>>
    ensures { option_map view result ≡ request_named evidence (option_map units_of budget)
        (string_bytes option.now) (string_bytes degree.now) (string_bytes file.now) }
{
    if is_degree(option) && names_a_file(file) {
        within(evidence, budget, read_degree(degree.as_bytes()), file)
    } else {
        None
    }
}

/// The search of this file, where there are a budget and a degree.
fn within(
    evidence: Evidence,
    budget: Option<Budget>,
    degree: Option<u16>,
    file: &String,
) -> Option<Request<'_>>
    ensures { option_map view result ≡ request_within evidence (option_map units_of budget) degree
        (string_bytes file.now) }
{
    match (budget, degree) {
        (Some(budget), Some(degree)) => Some(Request {
            evidence,
            budget,
            degree,
            file,
        }),
        _ => None,
    }
}

/// The degree that the argument is, if it is one: 1 or 2 digits, a number from 1 to 16.
#[tactic(auto, unfolding(crate::specs::DegreeArguments::degree_of))]
fn read_degree(argument: &[u8]) -> Option<u16>
    ensures { result ≡ degree_of argument.now }
{
    if argument.len() > MOST_DEGREE_DIGITS {
        return None;
    }
    degree_in(u16::try_from(read_numeral(argument)?).ok()?)
}

/// The number, where it is a degree.
fn degree_in(number: u16) -> Option<u16>
    ensures { result ≡ in_degrees (Some number) }
{
    if number >= 1 && number <= MOST_DEGREE {
        Some(number)
    } else {
        None
    }
}
