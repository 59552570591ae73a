// `chain [--budget N] CHAIN`: for each loop of a chain the reduced basis of the invariants of the chain up to it.
ghost use Rattle.std.specs.Prelude.{◌≤◌, map, string_bytes};
ghost use Rattle.io_edge.specs.Change.{◌⟶◌};
ghost use Rattle.io_edge.specs.Views.{seen_answer};
ghost use Rattle.io_edge.specs.Outcome.{Says, Obeys};
ghost use Rattle.command_parts.specs.FileRequests.{request_in};
ghost use Rattle.invariant_fix.specs.Limits.{budget_limit};
ghost use Rattle.analysis_commands.specs.ChainCourse.{course};
ghost use Rattle.command_parts.specs.FileViews.{view};

use crate::chain_analysis::answer_to_chain;
use command_parts::{FileRequest, read_file_chain, read_file_request};
use io_edge::{Answer, Files, reply};
use journal::Meter;
use std::alloc::{AllocError, Global};

/// What `chain` answers to the arguments behind it; none where they ask for no analysis.
pub fn chain<F: Files>(
    alloc: Global,
    arguments: &[String],
    files: &mut F,
    meter: &mut Meter,
) -> Result<Option<Answer>, AllocError>
    ensures { Obeys course (request_in (map string_bytes arguments.now))
        (F.seen files.old ⟶ F.seen files.new) (meter.old ⟶ meter.new) result }
{
    match read_file_request(arguments) {
        Some(request) => reply(answer_to(alloc, request, files, meter)),
        None => Ok(None),
    }
}

/// What is answered to the analysis that was asked for.
fn answer_to<F: Files>(
    alloc: Global,
    request: FileRequest<'_>,
    files: &mut F,
    meter: &mut Meter,
) -> Result<Answer, AllocError>
    requires { request.budget.units ≤ budget_limit }
    ensures { Says (course (view request.entry)) (F.seen files.old ⟶ F.seen files.new)
        (meter.old ⟶ meter.new) (seen_answer result) }
{
    match read_file_chain(alloc, files, request.file) {
        Ok(chain) => answer_to_chain(alloc, &chain, request.budget, meter),
        Err(refusal) => refusal.into_answer(),
    }
}
