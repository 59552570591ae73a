// The arguments of commands.
ghost use Rattle.std.specs.Prelude.{◌≡◌, string_bytes};
ghost use Rattle.io_edge.specs.Arguments.{is_file};

/// Whether the argument is the name of a file.
pub fn names_a_file(argument: &String) -> bool
    ensures { result ≡ is_file (string_bytes argument.now) }
{
    match argument.as_bytes() {
        [] => false,
        [first, ..] => *first != b'-',
    }
}
