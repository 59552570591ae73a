// The full certificate of an analysis and a trace, and its text.
ghost use Rattle.std.specs.Prelude.{IfOk};
ghost use Rattle.io_edge.specs.Views.{answer_view};
ghost use Rattle.certificate_commands.specs.FullMade.{IsMadeOf, IsToldAs};

use full_cert::write_full;
use full_trace::Trace;
use invariant_fix::Analysis;
use io_edge::{Answer, Status, line};
use loop_model::Names;
use std::alloc::{AllocError, Global};
use task_lists::FullCert;

/// The full certificate of an analysis and the trace of as many rounds.
pub(crate) fn certificate_of(found: Analysis, told: Trace) -> FullCert
    ensures { IsMadeOf found told result }
{
    FullCert {
        basis: found.basis,
        steps: found.steps,
        forms: told.forms,
        start: told.start,
        rounds: told.rounds,
    }
}

/// The answer that has this full certificate: its text, and a line feed. None for want of memory.
pub(crate) fn found_answer(
    alloc: Global,
    names: &Names,
    cert: &FullCert,
) -> Result<Answer, AllocError>
    ensures { IfOk result (λ a. IsToldAs names.now cert.now (answer_view a)) }
{
    let text = write_full(alloc, cert, names)?;
    line(alloc, Status::Yes, "", text.as_str())
}
