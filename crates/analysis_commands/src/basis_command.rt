// `basis [--budget N] LOOP` and `cert [--budget N] LOOP`: the reduced basis of the loop's invariants, or a
// certificate that has it.
ghost use Rattle.std.specs.Prelude.{map, string_bytes};
ghost use Rattle.io_edge.specs.Change.{◌⟶◌};
ghost use Rattle.io_edge.specs.Views.{seen_answer};
ghost use Rattle.io_edge.specs.Outcome.{Says, Obeys};
ghost use Rattle.analysis_commands.specs.BasisArguments.{request_in};
ghost use Rattle.analysis_commands.specs.BasisCourse.{course};
ghost use Rattle.analysis_commands.specs.BasisViews.{view};

use crate::analysis::answer_to_analysis;
use crate::basis_arguments::{Request, read_arguments};
use crate::kind::Kind;
use command_parts::read_program;
use io_edge::{Answer, Files, reply};
use journal::Meter;
use std::alloc::{AllocError, Global};

/// What `basis` or `cert` answers to the arguments behind it; none where they ask for no analysis.
pub fn basis<F: Files>(
    alloc: Global,
    kind: Kind,
    arguments: &[String],
    files: &mut F,
    meter: &mut Meter,
) -> Result<Option<Answer>, AllocError>
    ensures { Obeys course (request_in kind (map string_bytes arguments.now))
        (F.seen files.old ⟶ F.seen files.new) (meter.old ⟶ meter.new) result }
{
    match read_arguments(kind, arguments) {
        Some(request) => reply(answer_to(alloc, request, files, meter)),
        None => Ok(None),
    }
}

/// What is answered to the analysis that was asked for.
fn answer_to<F: Files>(
    alloc: Global,
    request: Request<'_>,
    files: &mut F,
    meter: &mut Meter,
) -> Result<Answer, AllocError>
    ensures { Says (course (view request.entry)) (F.seen files.old ⟶ F.seen files.new)
        (meter.old ⟶ meter.new) (seen_answer result) }
{
    match read_program(alloc, files, request.file) {
        Ok(lp) => answer_to_analysis(alloc, &lp, request.kind, request.budget, meter),
        Err(refusal) => refusal.into_answer(),
    }
}
