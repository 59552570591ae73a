// A meter by itself.
use crate::row_error::RowError;
use journal::{Event, Meter, MeterError, Task};
use std::alloc::Global;

/// What entries answer, one after another: `Start` and `Round 1` begin tasks, and `Pair 0 1`, `Cut 0`, `Keep` and `Zero` are events.
pub(crate) fn outcomes_text(
    alloc: Global,
    entries: &[&str],
    meter: &mut Meter,
) -> Result<String, RowError> {
    let mut text = String::new(alloc);
    for entry in entries {
        let Some(outcome) = outcome_of(entry, meter) else {
            return Err(RowError::Unreadable);
        };
        if !text.is_empty() {
            text.push_str("; ")?;
        }
        write!(text, "{outcome:?}")?;
    }
    Ok(text)
}

fn outcome_of(entry: &str, meter: &mut Meter) -> Option<Result<(), MeterError>> {
    let (name, numbers) = entry.split_once(' ').unwrap_or((entry, ""));
    let (left, right) = numbers.split_once(' ').unwrap_or((numbers, ""));
    let left = left.parse().unwrap_or(0);
    let right = right.parse().unwrap_or(0);
    let event = match name {
        "Start" => return Some(meter.begin(Task::Start)),
        "Round" => return Some(meter.begin(Task::Round { round: left })),
        "Pair" => Event::Pair { left, right },
        "Cut" => Event::Cut { element: left },
        "Keep" => Event::Keep,
        "Zero" => Event::Zero,
        _ => return None,
    };
    Some(meter.note(event))
}
