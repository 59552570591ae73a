// The analysis of a loop, and what is answered to it.
ghost use Rattle.std.specs.Prelude.{◌≡◌, All, length, string_bytes, IfOk};
ghost use Rattle.loop_model.specs.View.{program_of};
ghost use Rattle.ideal_ops.specs.Calls.{AreOver};
ghost use Rattle.invariant_fix.specs.Answers.{certificate_of};
ghost use Rattle.invariant_fix.specs.Closing.{IsSquare};
ghost use Rattle.io_edge.specs.Views.{answer_view};
ghost use Rattle.analysis_commands.specs.Headline.{IsToldBack};
ghost use Rattle.analysis_commands.specs.Analyses.{Analyses, HasAnalysed};
ghost use Rattle.analysis_commands.specs.Certificates as told;
ghost use Rattle.analysis_commands.specs.Texts as texts;

use crate::kind::Kind;
use crate::{answer_to_refusal, certificate_text};
use command_parts::{Budget, basis_text};
use invariant_fix::{Analysis, analyse};
use io_edge::{Answer, Status};
use journal::Meter;
use loop_model::{Loop, Names};
use std::alloc::{AllocError, Global};

/// The answer to the analysis of a loop with this budget.
pub(crate) fn answer_to_analysis(
    alloc: Global,
    lp: &Loop,
    kind: Kind,
    budget: Budget,
    meter: &mut Meter,
) -> Result<Answer, AllocError>
    ensures answer { IfOk result (λ a.
        Analyses kind (program_of lp.now) budget.units meter.new (answer_view a)) }
    ensures analysed { HasAnalysed (program_of lp.now) budget.units meter.new }
{
    meter.open(budget.units);
    match analyse(alloc, lp, meter) {
        Ok(found) => found_answer(alloc, lp.names(), kind, found),
        Err(error) => answer_to_refusal(alloc, lp.names(), budget.units, &error),
    }
}

/// The answer to an analysis that has this basis and these cofactors.
fn found_answer(
    alloc: Global,
    names: &Names,
    kind: Kind,
    found: Analysis,
) -> Result<Answer, AllocError>
    requires arity { AreOver (length names.now) found.basis.items }
    requires square { let count = length found.basis.items in
        All (λ rows. IsSquare (length names.now) count rows.items) found.steps.items }
    ensures text { let c = certificate_of found in
        IfOk result (λ a. answer_view a ≡ texts.found_answer kind names.now c) }
    ensures read_back { let c = certificate_of found in
        IfOk result (λ _. IsToldBack kind names.now (length c.steps) c) }
{
    let text = found_text(alloc, names, kind, found)?;
    Ok(Answer::new(Status::Yes, text))
}

/// What is told of it.
fn found_text(
    alloc: Global,
    names: &Names,
    kind: Kind,
    found: Analysis,
) -> Result<String, AllocError>
    requires arity { AreOver (length names.now) found.basis.items }
    requires square { let count = length found.basis.items in
        All (λ rows. IsSquare (length names.now) count rows.items) found.steps.items }
    ensures text { let c = certificate_of found in
        IfOk result (λ text. string_bytes text ≡ told.found_text kind names.now c) }
    ensures read_back { let c = certificate_of found in
        IfOk result (λ _. IsToldBack kind names.now (length c.steps) c) }
{
    match kind {
        Kind::Basis => basis_text(alloc, names, &found.basis),
        Kind::Certificate => certificate_text(alloc, names, found),
    }
}
