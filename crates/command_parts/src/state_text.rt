//! States of loops as texts, as every command tells them.

ghost use Rattle.std.specs.Prelude.{◌≡◌, ◌++◌, map, length, string_bytes, All, OnOk};
ghost use Rattle.frac128.specs.FracMeaning.{fraction_of};
ghost use Rattle.loop_runs.specs.Seen.{numbers_of};
ghost use Rattle.io_edge.specs.Texts.{line};
ghost use Rattle.command_parts.specs.StateTexts as texts;

use frac128::Frac;
use loop_model::Names;
use poly_text::push_number;
use std::alloc::AllocError;

/// Writes the states behind the text, one a line: each variable with its value, which are as many.
pub fn push_states(text: &mut String, names: &Names, states: &[Vec<Frac>]) -> Result<(), AllocError>
    requires { All (λ s. length s.items ≡ length names.now) states.now }
    ensures { OnOk result (string_bytes text.new ≡ string_bytes text.old ++
        texts.states_text names.now (map (λ s. numbers_of s.items) states.now)) }
{
    for state in states {
        push_state(text, names, state)?;
    }
    Ok(())
}

fn push_state(text: &mut String, names: &Names, state: &[Frac]) -> Result<(), AllocError>
    requires { length state.now ≡ length names.now }
    ensures { OnOk result (string_bytes text.new ≡ string_bytes text.old ++
        line (texts.state_text names.now (numbers_of state.now))) }
{
    for (index, number) in state.iter().enumerate() {
        push_entry(text, index > 0, names.name(index), number)?;
    }
    text.push('\n')
}

fn push_entry(
    text: &mut String,
    behind_another: bool,
    name: &String,
    number: &Frac,
) -> Result<(), AllocError>
    ensures { OnOk result (string_bytes text.new ≡ string_bytes text.old ++
        texts.separator behind_another ++
        texts.entry_text (string_bytes name.now, fraction_of number.now)) }
{
    if behind_another {
        text.push_str(", ")?;
    }
    text.push_str(name.as_str())?;
    text.push_str(" = ")?;
    push_number(text, number)
}
