// The argument behind `gen`.
ghost use Rattle.std.specs.Prelude.{◌≡◌, map, string_bytes};
ghost use Rattle.analysis_commands.specs.GenArguments.{request_in};

use command_parts::read_count;

/// How many loops of the family the arguments ask for, or none.
pub(crate) fn read_arguments(arguments: &[String]) -> Option<u32>
    ensures { result ≡ request_in (map string_bytes arguments.now) }
{
    match arguments {
        [number] => read_count(number.as_bytes()),
        _ => None,
    }
}
