// The arguments PROGRAM and CERT.
ghost use Rattle.std.specs.Prelude.{◌≡◌, map, string_bytes, option_map};
ghost use Rattle.checkproof_command.specs.Arguments.{request_in};
ghost use Rattle.checkproof_command.specs.Views.{view};

use io_edge::names_a_file;

/// A certificate of a program, by the names of both files.
#[derive(Clone, Copy)]
pub(crate) struct Request<'a> {
    pub(crate) file: &'a String,
    pub(crate) certificate: &'a String,
}

/// The certificate that the arguments ask for, or none.
pub(crate) fn read_arguments(arguments: &[String]) -> Option<Request<'_>>
    ensures { option_map view result ≡ request_in (map string_bytes arguments.now) }
{
    match arguments {
        [file, certificate] if names_a_file(file) && names_a_file(certificate) => {
            Some(Request { file, certificate })
        }
        _ => None,
    }
}
