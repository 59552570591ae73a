// `gen NUMBER`: what is counted over the bases of the first loops of a family.
ghost use Rattle.std.specs.Prelude.{◌≡◌, ◌⊎◌, ◌<◌, IfOk, IfSome, IsNone, map, string_bytes};
ghost use Rattle.loop_model.specs.View.{program_of};
ghost use Rattle.poly_text.specs.Faults.{fault_of};
ghost use Rattle.loop_text.specs.Family.{loop_text as text_of, most_loops};
ghost use Rattle.command_parts.specs.Numerals.{usual_budget};
ghost use Rattle.io_edge.specs.Outside.{FilesView};
ghost use Rattle.io_edge.specs.Change.{◌⟶◌};
ghost use Rattle.io_edge.specs.Views.{answer_view};
ghost use Rattle.io_edge.specs.Outcome.{Obeys};
ghost use Rattle.analysis_commands.specs.Analyses.{AnswersRefusal, HasAnalysed};
ghost use Rattle.analysis_commands.specs.Causes.{IsUnanalysed};
ghost use Rattle.analysis_commands.specs.Counting.{IsCounted, IsNext, HasOpenedFor, HasCounted, AnswersFamily};
ghost use Rattle.analysis_commands.specs.GenArguments.{request_in};
ghost use Rattle.analysis_commands.specs.GenCourse.{course};

use crate::answer_to_refusal;
use crate::gen_arguments::read_arguments;
use command_parts::Budget;
use invariant_fix::analyse;
use io_edge::{Answer, Status, reply};
use journal::Meter;
use loop_model::Loop;
use loop_text::{Counts, loop_text, read_loop};
use poly_text::TextError;
use std::alloc::{AllocError, Global};

/// What `gen` answers to the arguments behind it; none where they ask for no loops. It reads no file.
pub fn tally(
    alloc: Global,
    arguments: &[String],
    meter: &mut Meter,
) -> Result<Option<Answer>, AllocError>
    ensures { (files : FilesView) → Obeys course (request_in (map string_bytes arguments.now))
        (files ⟶ files) (meter.old ⟶ meter.new) result }
{
    match read_arguments(arguments) {
        Some(number) => reply(answer_to_family(alloc, number, meter)),
        None => Ok(None),
    }
}

/// What is counted over the bases of the first loops of the family, so many; or why the first that has none has none.
fn answer_to_family(alloc: Global, number: u32, meter: &mut Meter) -> Result<Answer, AllocError>
    ensures answer { IfOk result (λ a. AnswersFamily number meter.new (answer_view a)) }
    ensures kept { (meter.new ≡ meter.old) ⊎ HasCounted number meter.new }
{
    let mut counts = Counts::new();
    for place in 0..number {
        if let Some(refusal) = count_loop(alloc, meter, place + 1, &mut counts)? {
            return Ok(refusal);
        }
    }
    let text = counts.summary(alloc)?;
    Ok(Answer::new(Status::Yes, text))
}

/// Counts the loop of this number. A refusal where it has no basis.
fn count_loop(
    alloc: Global,
    meter: &mut Meter,
    number: u32,
    counts: &mut Counts,
) -> Result<Option<Answer>, AllocError>
    requires number { 0 < number }
    requires loops { counts.old.loops < most_loops }
    ensures next { IfOk result (λ o.
        IsNone o → IsNext number meter.new counts.old counts.new) }
    ensures refused { IfOk result (λ o. IfSome o (λ a.
        IsUnanalysed (text_of number) usual_budget meter.new (answer_view a))) }
    ensures kept { (meter.new ≡ meter.old) ⊎ HasOpenedFor number meter.new }
{
    let text = loop_text(alloc, number)?;
    match read_loop(alloc, text.as_bytes()) {
        Ok(lp) => count_basis(alloc, &lp, meter, counts),
        Err(error) => Err(want_of_memory(error)),
    }
}

/// Want of memory, which is all that stops the reading of a loop's text.
fn want_of_memory(error: TextError) -> AllocError
    requires { IsNone (fault_of error) }
{
    match error {
        TextError::Memory => AllocError,
        TextError::Syntax { .. }
        | TextError::Limit { .. }
        | TextError::Wide { .. }
        | TextError::Twice { .. }
        | TextError::Unknown { .. }
        | TextError::InitUses { .. }
        | TextError::Unset { .. }
        | TextError::Divisor { .. } => unreachable!(),
    }
}

/// Counts the basis of this loop. A refusal where it has none.
fn count_basis(
    alloc: Global,
    lp: &Loop,
    meter: &mut Meter,
    counts: &mut Counts,
) -> Result<Option<Answer>, AllocError>
    requires { counts.old.loops < most_loops }
    ensures counted { IfOk result (λ o.
        IsNone o → IsCounted (program_of lp.now) meter.new counts.old counts.new) }
    ensures refused { IfOk result (λ o. IfSome o (λ a.
        AnswersRefusal (program_of lp.now) usual_budget meter.new (answer_view a))) }
    ensures analysed { HasAnalysed (program_of lp.now) usual_budget meter.new }
{
    let budget = Budget::usual();
    meter.open(budget.units);
    match analyse(alloc, lp, meter) {
        Ok(found) => {
            meter.within_limit();
            counts.add(&found.basis);
            Ok(None)
        }
        Err(error) => {
            let refusal = answer_to_refusal(alloc, lp.names(), budget.units, &error)?;
            Ok(Some(refusal))
        }
    }
}
