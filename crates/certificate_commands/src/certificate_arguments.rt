// The arguments LOOP and CERT.
ghost use Rattle.std.specs.Prelude.{◌≡◌, map, string_bytes, option_map};
ghost use Rattle.certificate_commands.specs.CertificateArguments.{request_in};
ghost use Rattle.certificate_commands.specs.CertificateViews.{view};

use io_edge::names_a_file;

/// A certificate of a loop, by the names of both files.
#[derive(Clone, Copy)]
pub struct Request<'a> {
    pub file: &'a String,
    pub certificate: &'a String,
}

/// The certificate that the arguments ask for, or none.
pub fn read_arguments(arguments: &[String]) -> Option<Request<'_>>
    ensures { option_map view result ≡ request_in (map string_bytes arguments.now) }
{
    match arguments {
        [file, certificate] if names_a_file(file) && names_a_file(certificate) => {
            Some(Request { file, certificate })
        }
        _ => None,
    }
}
