// The arguments behind `basis` and `cert`.
ghost use Rattle.std.specs.Prelude.{◌≡◌, map, string_bytes, option_map};
ghost use Rattle.analysis_commands.specs.BasisArguments.{request_in};
ghost use Rattle.analysis_commands.specs.BasisViews.{view};

use crate::kind::Kind;
use command_parts::{Budget, read_budget};
use io_edge::names_a_file;

/// An analysis of a file with this budget, and what is to be told of it.
#[derive(Clone, Copy)]
pub(crate) struct Request<'a> {
    pub(crate) kind: Kind,
    pub(crate) budget: Budget,
    pub(crate) file: &'a String,
}

/// The analysis that the arguments ask for, or none.
pub(crate) fn read_arguments(kind: Kind, arguments: &[String]) -> Option<Request<'_>>
    ensures { option_map view result ≡ request_in kind (map string_bytes arguments.now) }
{
    match arguments {
        [file] if names_a_file(file) => {
            let budget = Budget::usual();
            Some(Request { kind, budget, file })
        }
        [option, number, file] if option.as_str() == "--budget" && names_a_file(file) => {
            let budget = read_budget(number.as_bytes())?;
            Some(Request { kind, budget, file })
        }
        _ => None,
    }
}
