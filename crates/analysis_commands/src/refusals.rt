//! The answers to refusals.
ghost use Rattle.std.specs.Prelude.{◌≡◌, ◌<◌, ◌+◌, ◌++◌, All, Some, length, option_map, codes, decimal, string_bytes, IfOk, OnOk};
ghost use Rattle.std.specs.Fmt.{signed_decimal};
ghost use Rattle.analysis_commands.specs.Naming.{AreNamed, AreNamedIn};
ghost use Rattle.io_edge.specs.Texts.{answer};
ghost use Rattle.io_edge.specs.Views.{answer_view};
ghost use Rattle.analysis_commands.specs.RefusalTexts.{names_at, listed_behind, forms_text, place_text, refusal_answer};
ghost use Rattle.analysis_commands.specs.Statuses.{forms_status};

use closed_forms::FormsError;
use command_parts::{exhausted_answer, map_refusal};
use invariant_fix::AnalyseError;
use io_edge::{Answer, Status, line};
use itoa::Buffer;
use journal::Task;
use loop_model::Names;
use std::alloc::{AllocError, Global};

/// The answer to an analysis with this budget that was refused (docs/FORMATS.md).
pub fn answer_to_refusal(
    alloc: Global,
    names: &Names,
    budget: u64,
    error: &AnalyseError,
) -> Result<Answer, AllocError>
    requires { AreNamed (length names.now) error.now }
    ensures { IfOk result (λ a. refusal_answer names.now budget error.now
        ≡ Some (answer_view a)) }
{
    match error {
        AnalyseError::Map(stop) => map_refusal(alloc, "loop: ", stop),
        AnalyseError::Branch { branch, error } => branch_refusal(alloc, names, *branch, error),
        AnalyseError::Limit { task } => {
            let place = place_text(alloc, task)?;
            line(alloc, Status::Fault, "limit: ", place.as_str())
        }
        AnalyseError::Wide { task } => {
            let place = place_text(alloc, task)?;
            line(alloc, Status::Wide, "wide: ", place.as_str())
        }
        AnalyseError::Budget => exhausted_answer(alloc, budget),
        AnalyseError::Memory => Err(AllocError),
    }
}

/// The answer to a branch that has no closed form.
fn branch_refusal(
    alloc: Global,
    names: &Names,
    branch: usize,
    error: &FormsError,
) -> Result<Answer, AllocError>
    requires { AreNamedIn (length names.now) error.now }
    ensures { IfOk result (λ a. option_map (λ status. answer status
        (codes "branch " ++ decimal (branch + 1) ++ codes ": " ++ forms_text names.now error.now))
        (forms_status error.now) ≡ Some (answer_view a)) }
{
    let number = branch as u128 + 1;
    let (status, cause) = forms_cause(alloc, names, error)?;
    let text = format!(in alloc; "branch {number}: {cause}\n")?;
    Ok(Answer::new(status, text))
}

/// Why a branch has no closed form, behind the status of that.
fn forms_cause(
    alloc: Global,
    names: &Names,
    error: &FormsError,
) -> Result<(Status, String), AllocError>
    requires { AreNamedIn (length names.now) error.now }
    ensures status { IfOk result (λ cause. forms_status error.now ≡ Some cause.0) }
    ensures text { IfOk result (λ cause. string_bytes cause.1 ≡ forms_text names.now error.now) }
{
    match error {
        FormsError::NotSolvable { cycle } => {
            let text = cause_with_names(alloc, "not solvable: ", names, cycle)?;
            Ok((Status::Fault, text))
        }
        FormsError::Eigen { class } => {
            let text = cause_with_names(alloc, "eigenvalues: ", names, class)?;
            Ok((Status::Fault, text))
        }
        FormsError::Range { class, sum } => {
            Ok((Status::Fault, range_text(alloc, names, class, *sum)?))
        }
        FormsError::WideSplit {
            class,
            candidate,
            power,
            row,
        } => {
            let text = split_text(alloc, names, class, *candidate, *power, *row)?;
            Ok((Status::Wide, text))
        }
        FormsError::LimitForm { variable } => {
            let name = names.name(*variable);
            Ok((Status::Fault, format!(in alloc; "limit in forms: {name}")?))
        }
        FormsError::WideForm { variable } => {
            let name = names.name(*variable);
            Ok((Status::Wide, format!(in alloc; "wide in forms: {name}")?))
        }
        FormsError::Memory => Err(AllocError),
    }
}

/// A class whose greatest column sum is above the limit.
fn range_text(
    alloc: Global,
    names: &Names,
    class: &[usize],
    sum: i128,
) -> Result<String, AllocError>
    requires { All (λ i. i < length names.now) class.now }
    ensures { IfOk result (λ text. string_bytes text
        ≡ codes "range: " ++ signed_decimal sum ++ codes ": " ++ names_at names.now class.now) }
{
    let list = name_list(alloc, names, class)?;
    let sum = integer(alloc, sum)?;
    format!(in alloc; "range: {sum}: {list}")
}

/// A class in whose splitting a number does not fit.
fn split_text(
    alloc: Global,
    names: &Names,
    class: &[usize],
    candidate: i32,
    power: u32,
    row: u32,
) -> Result<String, AllocError>
    requires { All (λ i. i < length names.now) class.now }
    ensures { IfOk result (λ text. string_bytes text
        ≡ codes "wide in splitting: candidate " ++ signed_decimal candidate
        ++ codes ", power " ++ decimal power ++ codes ", row " ++ decimal row
        ++ codes ": " ++ names_at names.now class.now) }
{
    let list = name_list(alloc, names, class)?;
    let candidate = integer(alloc, i128::from(candidate))?;
    format!(in alloc; "wide in splitting: candidate {candidate}, power {power}, row {row}: {list}")
}

/// A cause, and the variables that it names.
fn cause_with_names(
    alloc: Global,
    cause: &str,
    names: &Names,
    variables: &[usize],
) -> Result<String, AllocError>
    requires { All (λ i. i < length names.now) variables.now }
    ensures { IfOk result (λ text. string_bytes text
        ≡ cause.now ++ names_at names.now variables.now) }
{
    let list = name_list(alloc, names, variables)?;
    format!(in alloc; "{cause}{list}")
}

/// The names of some variables, joined by `, `.
fn name_list(alloc: Global, names: &Names, variables: &[usize]) -> Result<String, AllocError>
    requires { All (λ i. i < length names.now) variables.now }
    ensures { IfOk result (λ text. string_bytes text ≡ names_at names.now variables.now) }
{
    let Some((first, others)) = variables.split_first() else {
        return Ok(String::new(alloc));
    };
    let mut text = String::from_str(alloc, names.name(*first).as_str())?;
    push_others(&mut text, names, others)?;
    Ok(text)
}

/// The names of further variables, each behind a comma.
fn push_others(text: &mut String, names: &Names, others: &[usize]) -> Result<(), AllocError>
    requires { All (λ i. i < length names.now) others.now }
    ensures { OnOk result (string_bytes text.new ≡ string_bytes text.old
        ++ listed_behind names.now others.now) }
{
    for variable in others {
        push_other(text, names.name(*variable))?;
    }
    Ok(())
}

/// A name behind a comma.
fn push_other(text: &mut String, name: &String) -> Result<(), AllocError>
    ensures { OnOk result (string_bytes text.new ≡ string_bytes text.old
        ++ (codes ", " ++ string_bytes name.now)) }
{
    text.push_str(", ")?;
    text.push_str(name.as_str())
}

/// The digits of a number, with its sign.
fn integer(alloc: Global, number: i128) -> Result<String, AllocError>
    ensures { IfOk result (λ text. string_bytes text ≡ signed_decimal number) }
{
    let mut buffer = Buffer::new();
    String::from_str(alloc, buffer.format(number))
}

/// Where in an analysis.
fn place_text(alloc: Global, task: &Task) -> Result<String, AllocError>
    ensures { IfOk result (λ text. string_bytes text ≡ place_text task.now) }
{
    match task {
        Task::Start => String::from_str(alloc, "start"),
        Task::Closed {
            round,
            branch,
            element,
        } => format!(in alloc; "round {round}, branch {branch}, element {element}, closing"),
        Task::Round { round } => format!(in alloc; "round {round}"),
        Task::Iteration {
            round,
            branch,
            iteration,
        } => format!(in alloc; "round {round}, branch {branch}, turn {iteration}"),
        Task::IterationMeet {
            round,
            branch,
            iteration,
        } => format!(in alloc; "round {round}, branch {branch}, turn {iteration}, meet"),
        Task::Orbit { round, branch } => format!(in alloc; "round {round}, branch {branch}, orbit"),
        Task::Meet { round, branch } => format!(in alloc; "round {round}, branch {branch}, meet"),
        Task::Member => String::from_str(alloc, "member"),
        Task::Image { number } => format!(in alloc; "image {number}"),
        Task::Extend { number } => format!(in alloc; "image {number}, extension"),
        Task::Sample { number } => format!(in alloc; "sample {number}"),
    }
}
