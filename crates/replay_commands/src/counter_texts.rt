// What the answers of `counter` say.
ghost use Rattle.std.specs.Prelude.{◌≡◌, ◌++◌, Some, All, IfOk, OnOk, length, codes, decimal, string_bytes};
ghost use Rattle.frac128.specs.FracMeaning.{fraction_of};
ghost use Rattle.counter_run.specs.Answers.{states_of, HasSizes};
ghost use Rattle.io_edge.specs.Views.{answer_view};
ghost use Rattle.io_edge.specs.Texts.{line as line_of, answer};
ghost use Rattle.poly_text.specs.Text.{number_text};
ghost use Rattle.replay_commands.specs.CounterTexts as texts;
ghost use Rattle.replay_commands.specs.CounterViews.{tells_found, tells_error};

use command_parts::{map_refusal, push_states};
use counter_run::{CounterError, Found};
use frac128::Frac;
use io_edge::{Answer, Status};
use itoa::Buffer;
use loop_model::Names;
use poly_text::push_number;
use std::alloc::{AllocError, Global};

/// To what the search has found.
pub(crate) fn found_answer(
    alloc: Global,
    names: &Names,
    found: &Found,
    most: u32,
) -> Result<Answer, AllocError>
    requires { HasSizes (length names.now) found.now }
    ensures { IfOk result (λ a. answer_view a ≡ tells_found names.now most found.now) }
{
    match found {
        Found::Run {
            word,
            states,
            value,
        } => run_answer(alloc, names, word, states, value),
        Found::NoneUpTo => none_answer(alloc, most),
    }
}

/// A run: its word, its states and the value at its end.
fn run_answer(
    alloc: Global,
    names: &Names,
    word: &[u32],
    states: &[Vec<Frac>],
    value: &Frac,
) -> Result<Answer, AllocError>
    requires { All (λ s. length s.items ≡ length names.now) states.now }
    ensures { IfOk result (λ a. answer_view a ≡ texts.run_answer names.now word.now
        (states_of states.now) (fraction_of value.now)) }
{
    let mut text = String::new(alloc);
    push_run(&mut text, names, word, states, value)?;
    Ok(Answer::new(Status::No, text))
}

/// Writes a run: its word, its states and the value at its end, one a line.
pub fn push_run(
    text: &mut String,
    names: &Names,
    word: &[u32],
    states: &[Vec<Frac>],
    value: &Frac,
) -> Result<(), AllocError>
    requires { All (λ s. length s.items ≡ length names.now) states.now }
    ensures { OnOk result (string_bytes text.new ≡ string_bytes text.old ++
        texts.run_text names.now word.now (states_of states.now) (fraction_of value.now)) }
{
    push_word(text, "word", word)?;
    push_states(text, names, states)?;
    push_value(text, value)
}

fn none_answer(alloc: Global, most: u32) -> Result<Answer, AllocError>
    ensures { IfOk result (λ a. answer_view a ≡ texts.none_answer most) }
{
    let text = format!(in alloc; "none up to {most}\n")?;
    Ok(Answer::new(Status::Yes, text))
}

/// To a search that was stopped.
pub(crate) fn search_refusal(alloc: Global, why: &CounterError) -> Result<Answer, AllocError>
    ensures { IfOk result (λ a. tells_error why.now ≡ Some (answer_view a)) }
{
    match why {
        CounterError::Map(stop) => map_refusal(alloc, "loop: ", stop),
        CounterError::Limit { word } => word_answer(alloc, Status::Fault, "limit: word", word),
        CounterError::Cost { word } => {
            word_answer(alloc, Status::Fault, "limit: words up to", word)
        }
        CounterError::Wide { word } => word_answer(alloc, Status::Wide, "wide: word", word),
        CounterError::Memory => Err(AllocError),
    }
}

/// A word behind what is told of it.
pub fn word_answer(
    alloc: Global,
    status: Status,
    part: &str,
    word: &[u32],
) -> Result<Answer, AllocError>
    ensures { IfOk result (λ a. answer_view a ≡
        answer status (part.now ++ texts.letters_text word.now)) }
{
    let mut text = String::new(alloc);
    push_word(&mut text, part, word)?;
    Ok(Answer::new(status, text))
}

/// Writes a line: this part, and a space and the number for each letter.
fn push_word(text: &mut String, part: &str, word: &[u32]) -> Result<(), AllocError>
    ensures { OnOk result (string_bytes text.new ≡ string_bytes text.old ++
        line_of (part.now ++ texts.letters_text word.now)) }
{
    text.push_str(part)?;
    for letter in word {
        push_letter(text, *letter)?;
    }
    text.push('\n')
}

fn push_letter(text: &mut String, letter: u32) -> Result<(), AllocError>
    ensures { OnOk result (string_bytes text.new ≡ string_bytes text.old ++ codes " " ++
        decimal letter) }
{
    let mut buffer = Buffer::new();
    text.push(' ')?;
    text.push_str(buffer.format(letter))
}

fn push_value(text: &mut String, value: &Frac) -> Result<(), AllocError>
    ensures { OnOk result (string_bytes text.new ≡ string_bytes text.old ++
        line_of (codes "value " ++ number_text (fraction_of value.now))) }
{
    text.push_str("value ")?;
    push_number(text, value)?;
    text.push('\n')
}
