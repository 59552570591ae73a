// `member [--budget N] LOOP EQUATION`: whether the equation holds at the end of every run of LOOP.
ghost use Rattle.std.specs.Prelude.{map, string_bytes};
ghost use Rattle.io_edge.specs.Change.{◌⟶◌};
ghost use Rattle.io_edge.specs.Views.{seen_answer};
ghost use Rattle.io_edge.specs.Outcome.{Says, Obeys};
ghost use Rattle.analysis_commands.specs.MemberArguments.{request_in};
ghost use Rattle.analysis_commands.specs.MemberCourse.{course};
ghost use Rattle.analysis_commands.specs.MemberViews.{view};

use crate::member_arguments::{Request, read_arguments};
use crate::questions::answer_to_equation;
use command_parts::read_program;
use io_edge::{Answer, Files, reply};
use journal::Meter;
use std::alloc::{AllocError, Global};

/// What `member` answers to the arguments behind it; none where they ask no question.
pub fn member<F: Files>(
    alloc: Global,
    arguments: &[String],
    files: &mut F,
    meter: &mut Meter,
) -> Result<Option<Answer>, AllocError>
    ensures { Obeys (course meter.old) (request_in (map string_bytes arguments.now))
        (F.seen files.old ⟶ F.seen files.new) (meter.old ⟶ meter.new) result }
{
    match read_arguments(arguments) {
        Some(request) => reply(answer_to(alloc, request, files, meter)),
        None => Ok(None),
    }
}

/// What is answered to the question that was asked.
fn answer_to<F: Files>(
    alloc: Global,
    request: Request<'_>,
    files: &mut F,
    meter: &mut Meter,
) -> Result<Answer, AllocError>
    ensures { Says (course meter.old (view request.entry)) (F.seen files.old ⟶ F.seen files.new)
        (meter.old ⟶ meter.new) (seen_answer result) }
{
    match read_program(alloc, files, request.file) {
        Ok(lp) => answer_to_equation(alloc, &lp, request.budget, request.equation, meter),
        Err(refusal) => refusal.into_answer(),
    }
}
