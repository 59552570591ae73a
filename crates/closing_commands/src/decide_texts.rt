// What the answers of `decide` and `prove` say.
ghost use Rattle.std.specs.Prelude.{◌≡◌, All, Some, IfOk, length};
ghost use Rattle.frac128.specs.FracMeaning.{fraction_of};
ghost use Rattle.poly.specs.Seen.{terms_each};
ghost use Rattle.ideal_ops.specs.Calls.{AreOver};
ghost use Rattle.counter_run.specs.Answers.{states_of};
ghost use Rattle.io_edge.specs.Views.{answer_view};
ghost use Rattle.command_parts.specs.ReadBack.{IsReadBack};
ghost use Rattle.closing_commands.specs.DecideTexts as texts;
ghost use Rattle.closing_commands.specs.DecideViews.{stop_answer};

use closing::ClosingError;
use command_parts::{basis_text, exhausted_answer};
use frac128::Frac;
use io_edge::{Answer, Status};
use loop_model::Names;
use monos::Grevlex;
use poly::Poly;
use replay_commands::{push_run, word_answer};
use std::alloc::{AllocError, Global};

/// Yes, and the reduced basis of the closure.
pub(crate) fn closure_answer(
    alloc: Global,
    names: &Names,
    list: &[Poly<Frac, Grevlex>],
) -> Result<Answer, AllocError>
    requires { AreOver (length names.now) list.now }
    ensures answer { IfOk result (λ a.
        answer_view a ≡ texts.closure_answer names.now (terms_each list.now)) }
    ensures read_back { IfOk result (λ _. IsReadBack names.now (terms_each list.now)) }
{
    let basis = basis_text(alloc, names, list)?;
    let mut text = String::from_str(alloc, "yes\n")?;
    text.push_str(basis.as_str())?;
    Ok(Answer::new(Status::Yes, text))
}

/// No, and the run with the word: its states, and the value at its end.
pub(crate) fn no_answer(
    alloc: Global,
    names: &Names,
    word: &[u32],
    states: &[Vec<Frac>],
    value: &Frac,
) -> Result<Answer, AllocError>
    requires { All (λ s. length s.items ≡ length names.now) states.now }
    ensures { IfOk result (λ a. answer_view a ≡ texts.no_answer names.now word.now
        (states_of states.now) (fraction_of value.now)) }
{
    let mut text = String::from_str(alloc, "no\n")?;
    push_run(&mut text, names, word, states, value)?;
    Ok(Answer::new(Status::No, text))
}

/// To a closing that stopped.
pub(crate) fn closing_refusal(
    alloc: Global,
    budget: u64,
    why: &ClosingError,
) -> Result<Answer, AllocError>
    ensures { IfOk result (λ a. stop_answer budget why.now ≡ Some (answer_view a)) }
{
    match why {
        ClosingError::Limit { word } => word_answer(alloc, Status::Fault, "limit: word", word),
        ClosingError::Wide { word } => word_answer(alloc, Status::Wide, "wide: word", word),
        ClosingError::Budget => exhausted_answer(alloc, budget),
        ClosingError::Memory => Err(AllocError),
    }
}
