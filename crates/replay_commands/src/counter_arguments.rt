// The arguments behind `counter`.
ghost use Rattle.std.specs.Prelude.{◌≡◌, [], ◌∷◌, map, string_bytes, option_map};
ghost use Rattle.replay_commands.specs.CounterArguments.{length_of, request_in};
ghost use Rattle.replay_commands.specs.CounterViews.{view};

use io_edge::names_a_file;

/// The length of words where no other is given.
const USUAL_LENGTH: u32 = 4;

/// An equation about a loop, and how long the words may be that are tried.
#[derive(Clone, Copy)]
pub(crate) struct Request<'a> {
    pub(crate) most: u32,
    pub(crate) file: &'a String,
    pub(crate) equation: &'a String,
}

/// The counter-run that the arguments ask for, or none.
pub(crate) fn read_arguments(arguments: &[String]) -> Option<Request<'_>>
    ensures { option_map view result ≡ request_in (map string_bytes arguments.now) }
{
    match arguments {
        [file, equation] if names_a_file(file) => Some(Request {
            most: USUAL_LENGTH,
            file,
            equation,
        }),
        [option, number, file, equation] if option.as_str() == "--length" && names_a_file(file) => {
            let most = read_length(number.as_bytes())?;
            Some(Request {
                most,
                file,
                equation,
            })
        }
        _ => None,
    }
}

/// A length: one digit from 0 to 6.
fn read_length(word: &[u8]) -> Option<u32>
    ensures { result ≡ length_of word.now }
{
    match word {
        [digit] => length_in(*digit),
        _ => None,
    }
}

fn length_in(digit: u8) -> Option<u32>
    ensures { result ≡ length_of (digit ∷ []) }
{
    if digit >= b'0' && digit <= b'6' {
        Some(u32::from(digit - b'0'))
    } else {
        None
    }
}
