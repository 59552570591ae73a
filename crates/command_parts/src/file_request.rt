// The arguments `[--budget N] FILE`.
ghost use Rattle.std.specs.Prelude.{◌≡◌, map, string_bytes, option_map};
ghost use Rattle.command_parts.specs.FileRequests.{request_in};
ghost use Rattle.command_parts.specs.FileViews.{view};

use crate::budget::Budget;
use crate::numerals::read_budget;
use io_edge::names_a_file;

/// A file, and the budget for what is computed of it.
#[derive(Clone, Copy)]
pub struct FileRequest<'a> {
    pub budget: Budget,
    pub file: &'a String,
}

/// The file and the budget that the arguments give: the usual one where they give none. `None` where they are no such arguments.
pub fn read_file_request(arguments: &[String]) -> Option<FileRequest<'_>>
    ensures { option_map view result ≡ request_in (map string_bytes arguments.now) }
{
    match arguments {
        [file] if names_a_file(file) => {
            let budget = Budget::usual();
            Some(FileRequest { budget, file })
        }
        [option, number, file] if option.as_str() == "--budget" && names_a_file(file) => {
            let budget = read_budget(number.as_bytes())?;
            Some(FileRequest { budget, file })
        }
        _ => None,
    }
}
