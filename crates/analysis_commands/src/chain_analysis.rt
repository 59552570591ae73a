// The analysis of a chain, and what is answered to it.
ghost use Rattle.std.specs.Prelude.{◌≡◌, ◌≤◌, All, Some, length, IfOk};
ghost use Rattle.ideal_ops.specs.Calls.{AreOver};
ghost use Rattle.analysis_commands.specs.Texts as texts;
ghost use Rattle.io_edge.specs.Views.{answer_view};
ghost use Rattle.io_edge.specs.Texts.{with_text};
ghost use Rattle.io_edge.specs.declared.answer.Status.TheVariants as status;
ghost use Rattle.loop_runs.specs.ChainSeen.{chain_in};
ghost use Rattle.invariant_fix.specs.Limits.{budget_limit};
ghost use Rattle.analysis_commands.specs.ChainAnalyses.{Analyses, AreNamedIn, HasAnalysed, between_answer, error_answer, refused_answer};
ghost use Rattle.analysis_commands.specs.ChainHeadline.{AreReadBack};
ghost use Rattle.analysis_commands.specs.Lists.{lists_of};
ghost use Rattle.analysis_commands.specs.ChainTexts.{bases_text, in_loop};

use crate::answer_to_refusal;
use crate::bases::bases_text;
use command_parts::{Budget, ordinal};
use frac128::Frac;
use invariant_fix::{LoopError, Refused, analyse_chain};
use io_edge::{Answer, Status};
use journal::Meter;
use loop_model::Names;
use loop_runs::Chain;
use monos::Grevlex;
use poly::Poly;
use std::alloc::{AllocError, Global};

/// The answer to the analysis of a chain with this budget.
pub(crate) fn answer_to_chain(
    alloc: Global,
    chain: &Chain,
    budget: Budget,
    meter: &mut Meter,
) -> Result<Answer, AllocError>
    requires { budget.units ≤ budget_limit }
    ensures answer { IfOk result (λ a.
        Analyses (chain_in chain.now) budget.units meter.new (answer_view a)) }
    ensures analysed { HasAnalysed (chain_in chain.now) budget.units meter.new }
{
    match analyse_chain(alloc, chain, budget.units, meter) {
        Ok(bases) => found_answer(alloc, chain.first().names(), &bases),
        Err(refused) => answer_to_refused(alloc, chain.first().names(), budget.units, &refused),
    }
}

/// The answer to an analysis that has these bases.
fn found_answer(
    alloc: Global,
    names: &Names,
    bases: &[Vec<Poly<Frac, Grevlex>>],
) -> Result<Answer, AllocError>
    requires { All (λ b. AreOver (length names.now) b.items) bases.now }
    ensures text { IfOk result (λ a. answer_view a
        ≡ with_text status.Yes (bases_text names.now 0 (lists_of bases.now))) }
    ensures read_back { IfOk result (λ _. AreReadBack names.now (lists_of bases.now)) }
{
    let text = bases_text(alloc, names, bases)?;
    Ok(Answer::new(Status::Yes, text))
}

/// The answer to a refusal of a loop's analysis.
fn answer_to_refused(
    alloc: Global,
    names: &Names,
    budget: u64,
    refused: &Refused,
) -> Result<Answer, AllocError>
    requires { AreNamedIn (length names.now) refused.now.error }
    ensures { IfOk result (λ a. refused_answer names.now budget refused.now
        ≡ Some (answer_view a)) }
{
    let told = answer_to_error(alloc, names, budget, &refused.error)?;
    in_loop(alloc, refused.place, told)
}

/// The same, said of no loop.
fn answer_to_error(
    alloc: Global,
    names: &Names,
    budget: u64,
    error: &LoopError,
) -> Result<Answer, AllocError>
    requires { AreNamedIn (length names.now) error.now }
    ensures { IfOk result (λ a. error_answer names.now budget error.now ≡ Some (answer_view a)) }
{
    match error {
        LoopError::Analysis(error) => answer_to_refusal(alloc, names, budget, error),
        LoopError::Between => between_answer(alloc),
    }
}

/// The answer where the list of code, or a number of its elimination, may not fit.
fn between_answer(alloc: Global) -> Result<Answer, AllocError>
    ensures { IfOk result (λ a. answer_view a ≡ between_answer) }
{
    let text = String::from_str(alloc, "wide: between\n")?;
    Ok(Answer::new(Status::Wide, text))
}

/// The answer, said of the loop at this place: `loop J: ` stands before it.
fn in_loop(alloc: Global, place: usize, told: Answer) -> Result<Answer, AllocError>
    ensures { IfOk result (λ a. answer_view a ≡ in_loop place (answer_view told)) }
{
    let number = ordinal(place);
    let part = format!(in alloc; "loop {number}: ")?;
    let mut text = part.into_bytes();
    text.extend_from_slice(&told.text)?;
    Ok(Answer {
        status: told.status,
        text,
    })
}
