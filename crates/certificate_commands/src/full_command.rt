// `full [--budget N] LOOP`: a full certificate of the reduced basis of a loop's invariants.
ghost use Rattle.std.specs.Prelude.{map, string_bytes};
ghost use Rattle.io_edge.specs.Change.{◌⟶◌};
ghost use Rattle.io_edge.specs.Views.{seen_answer};
ghost use Rattle.io_edge.specs.Outcome.{Says, Obeys};
ghost use Rattle.command_parts.specs.FileRequests.{request_in};
ghost use Rattle.command_parts.specs.FileViews.{view};
ghost use Rattle.certificate_commands.specs.FullCourse.{course};

use crate::full_answers::answer_to_loop;
use command_parts::{FileRequest, read_file_request, read_program};
use io_edge::{Answer, Files, reply};
use journal::Meter;
use std::alloc::{AllocError, Global};

/// What `full` answers to the arguments behind it; none where they ask for no certificate.
pub fn full<F: Files>(
    alloc: Global,
    arguments: &[String],
    files: &mut F,
    meter: &mut Meter,
) -> Result<Option<Answer>, AllocError>
    ensures { Obeys course (request_in (map string_bytes arguments.now))
        (F.seen files.old ⟶ F.seen files.new) (meter.old ⟶ meter.new) result }
{
    match read_file_request(arguments) {
        Some(request) => reply(answer_to(alloc, request, files, meter)),
        None => Ok(None),
    }
}

/// What is answered to the certificate that was asked for.
fn answer_to<F: Files>(
    alloc: Global,
    request: FileRequest<'_>,
    files: &mut F,
    meter: &mut Meter,
) -> Result<Answer, AllocError>
    ensures { Says (course (view request.entry)) (F.seen files.old ⟶ F.seen files.new)
        (meter.old ⟶ meter.new) (seen_answer result) }
{
    match read_program(alloc, files, request.file) {
        Ok(lp) => answer_to_loop(alloc, &lp, request.budget, meter),
        Err(refusal) => refusal.into_answer(),
    }
}
