// The top call on a loop that stands in the row: `basis`, a budget and the loop's text, or `member`, these and an equation.
use crate::calls::{CallOutcome, Given, outcome};
use crate::rows::no_such_row;
use std::alloc::{AllocError, Global};
use worked_rows::push_item;

/// The status and the text, whose lines are joined by `; `.
pub(crate) fn answer(alloc: Global, call: &str, values: &[&str]) -> Result<String, AllocError> {
    match outcome_of(alloc, call, values)? {
        Some(outcome) => told(alloc, &outcome),
        None => no_such_row(alloc),
    }
}

/// The units that the call took, and the same.
pub(crate) fn answer_with_units(alloc: Global, values: &[&str]) -> Result<String, AllocError> {
    let [call, values @ ..] = values else {
        return no_such_row(alloc);
    };
    match outcome_of(alloc, call, values)? {
        Some(outcome) => {
            let told = told(alloc, &outcome)?;
            format!(in alloc; "{} units, {told}", outcome.units)
        }
        None => no_such_row(alloc),
    }
}

fn outcome_of(
    alloc: Global,
    call: &str,
    values: &[&str],
) -> Result<Option<CallOutcome>, AllocError> {
    match (call, values) {
        ("basis", [budget, text]) => {
            let words = ["basis", "--budget", budget, "LOOP"];
            Ok(Some(outcome(alloc, &Given::of_loop(alloc, text)?, words.as_slice())?))
        }
        ("member", [budget, text, equation]) => {
            let words = ["member", "--budget", budget, "LOOP", equation];
            Ok(Some(outcome(alloc, &Given::of_loop(alloc, text)?, words.as_slice())?))
        }
        _ => Ok(None),
    }
}

fn told(alloc: Global, outcome: &CallOutcome) -> Result<String, AllocError> {
    let mut lines = String::new(alloc);
    for line in outcome.text.lines() {
        push_item(&mut lines, "; ", line)?;
    }
    format!(in alloc; "{} {lines}", outcome.status.code())
}
