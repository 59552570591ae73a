// The arguments behind `decide` and `prove`.
ghost use Rattle.std.specs.Prelude.{◌≡◌, map, string_bytes, option_map};
ghost use Rattle.closing_commands.specs.DecideArguments.{request_in};
ghost use Rattle.closing_commands.specs.DecideViews.{view};

use crate::evidence::Evidence;
use command_parts::{Budget, read_budget};
use io_edge::names_a_file;

/// A question to a file with this budget: whether the equation holds at the end of every run, and what a yes is to show.
#[derive(Clone, Copy)]
pub(crate) struct Request<'a> {
    pub(crate) evidence: Evidence,
    pub(crate) budget: Budget,
    pub(crate) file: &'a String,
    pub(crate) equation: &'a String,
}

/// The question that the arguments ask, or none.
pub(crate) fn read_arguments(evidence: Evidence, arguments: &[String]) -> Option<Request<'_>>
    ensures { option_map view result ≡ request_in evidence (map string_bytes arguments.now) }
{
    match arguments {
        [file, equation] if names_a_file(file) => Some(Request {
            evidence,
            budget: Budget::usual(),
            file,
            equation,
        }),
        [option, number, file, equation] if option.as_str() == "--budget" && names_a_file(file) => {
            let budget = read_budget(number.as_bytes())?;
            Some(Request {
                evidence,
                budget,
                file,
                equation,
            })
        }
        _ => None,
    }
}
