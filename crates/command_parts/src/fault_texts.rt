// The answers to the first fault of a text, to the first operation of its maps that can't be done, and to an exhausted budget.
ghost use Rattle.std.specs.Prelude.{◌≡◌, ◌+◌, ◌++◌, Some, option_map, codes, decimal, IfOk};
ghost use Rattle.poly_text.specs.Faults.{fault_of};
ghost use Rattle.io_edge.specs.Views.{answer_view};
ghost use Rattle.io_edge.specs.Texts.{answer};
ghost use Rattle.io_edge.specs.Refusals.{Refuses};
ghost use Rattle.command_parts.specs.FaultTexts as texts;

use io_edge::{Answer, Refusal, Status};
use loop_model::MapError;
use poly_text::TextError;
use std::alloc::{AllocError, Global};

/// The answer to the first fault of a text, or to want of memory for it. `part` is what the text is, as `loop: `.
pub fn text_refusal(alloc: Global, part: &str, why: TextError) -> Result<Answer, AllocError>
    ensures { IfOk result (λ a. option_map (texts.text_refusal part.now) (fault_of why) ≡
        Some (answer_view a)) }
{
    match why {
        TextError::Syntax { at } => fault_line(alloc, Status::Fault, part, "syntax", at),
        TextError::Limit { at } => fault_line(alloc, Status::Fault, part, "limit", at),
        TextError::Wide { at } => fault_line(alloc, Status::Wide, part, "wide", at),
        TextError::Twice { at } => fault_line(alloc, Status::Fault, part, "twice", at),
        TextError::Unknown { at } => fault_line(alloc, Status::Fault, part, "unknown", at),
        TextError::InitUses { at } => fault_line(alloc, Status::Fault, part, "init uses", at),
        TextError::Unset { at } => fault_line(alloc, Status::Fault, part, "unset", at),
        TextError::Divisor { at } => fault_line(alloc, Status::Fault, part, "divisor", at),
        TextError::Memory => Err(AllocError),
    }
}

/// The refusal that tells the first fault of LOOP or of CHAIN.
pub(crate) fn loop_refusal(alloc: Global, why: TextError) -> Refusal
    ensures { Refuses result (option_map texts.loop_refusal (fault_of why)) }
{
    Refusal::of(text_refusal(alloc, "loop: ", why))
}

/// The answer to an operation of a map that can't be done, or to want of memory for it. `part` is the text that asks for the map, as `loop: `.
pub fn map_refusal(alloc: Global, part: &str, why: &MapError) -> Result<Answer, AllocError>
    ensures { IfOk result (λ a. texts.map_refusal part.now why.now ≡ Some (answer_view a)) }
{
    match why {
        MapError::Limit { at } => fault_line(alloc, Status::Fault, part, "limit", *at),
        MapError::Wide { at } => fault_line(alloc, Status::Wide, part, "wide", *at),
        MapError::Memory => Err(AllocError),
    }
}

/// The line `part reason at N`: why a text is refused at the byte `at`, counted from 0.
pub fn fault_line(
    alloc: Global,
    status: Status,
    part: &str,
    reason: &str,
    at: usize,
) -> Result<Answer, AllocError>
    ensures { IfOk result (λ a. answer_view a ≡
        answer status (part.now ++ reason.now ++ codes " at " ++ decimal at)) }
{
    let text = format!(in alloc; "{part}{reason} at {at}\n")?;
    Ok(Answer::new(status, text))
}

/// The answer to an exhausted budget of so many units.
pub fn exhausted_answer(alloc: Global, budget: u64) -> Result<Answer, AllocError>
    ensures { IfOk result (λ a. answer_view a ≡ texts.exhausted_answer budget) }
{
    let text = format!(in alloc; "budget: {budget}\n")?;
    Ok(Answer::new(Status::Budget, text))
}

/// What stands at this position, counted from 0, is so manyth where one counts from 1, as answers do.
pub fn ordinal(position: usize) -> u128
    ensures { result ≡ position + 1 }
{
    position as u128 + 1
}
