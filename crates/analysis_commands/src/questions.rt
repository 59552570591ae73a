// The question whether an equation holds at the end of every run, and what is answered to it.
ghost use Rattle.std.specs.Prelude.{◌≡◌, length, Some, string_bytes, IfOk};
ghost use Rattle.loop_model.specs.View.{program_of};
ghost use Rattle.poly.specs.Seen.{terms_in, terms_each};
ghost use Rattle.invariant_fix.specs.Membership.{HasCofactorsOver};
ghost use Rattle.io_edge.specs.Views.{answer_view, seen_answer};
ghost use Rattle.io_edge.specs.Outside.{FilesView};
ghost use Rattle.io_edge.specs.Change.{Change, ◌⟶◌};
ghost use Rattle.io_edge.specs.Outcome.{Says};
ghost use Rattle.analysis_commands.specs.Analyses.{HasFound};
ghost use Rattle.analysis_commands.specs.Questions.{Asks, HasAsked, undivided_answer};
ghost use Rattle.analysis_commands.specs.Questions as answers;
ghost use Rattle.analysis_commands.specs.MemberCourse.{with_question};

use crate::{answer_to_refusal, yes_text};
use command_parts::{Budget, exhausted_answer, read_polynomial};
use divide::EngineError;
use frac128::Frac;
use invariant_fix::{Analysis, Membership, analyse, member};
use io_edge::{Answer, Status, line};
use journal::Meter;
use loop_model::{Loop, Names};
use monos::Grevlex;
use poly::Poly;
use std::alloc::{AllocError, Global};

/// The answer to the question whether this equation holds at the end of every run.
///
/// The meter is opened with the budget where the equation has a polynomial, and else left alone.
pub(crate) fn answer_to_equation(
    alloc: Global,
    lp: &Loop,
    budget: Budget,
    equation: &String,
    meter: &mut Meter,
) -> Result<Answer, AllocError>
    // It reads no file.
    ensures { (files : Change FilesView) → files.after.reads ≡ files.before.reads →
        files.after.tries ≡ files.before.tries →
        Says (with_question meter.old budget.units (string_bytes equation.now) (program_of lp.now))
        files (meter.old ⟶ meter.new) (seen_answer result) }
{
    match read_polynomial(alloc, lp, equation) {
        Ok(p) => answer_to_question(alloc, lp, budget, &p, meter),
        Err(refusal) => refusal.into_answer(),
    }
}

/// The answer to the question whether this polynomial is an invariant.
fn answer_to_question(
    alloc: Global,
    lp: &Loop,
    budget: Budget,
    p: &Poly<Frac, Grevlex>,
    meter: &mut Meter,
) -> Result<Answer, AllocError>
    requires { p.now.arity ≡ length (program_of lp.now).names }
    ensures answer { IfOk result (λ a.
        Asks (program_of lp.now) (terms_in p.now) budget.units meter.new (answer_view a)) }
    ensures asked { HasAsked (program_of lp.now) (terms_in p.now) budget.units meter.new }
{
    meter.open(budget.units);
    match analyse(alloc, lp, meter) {
        Ok(found) => answer_by_division(alloc, lp, budget.units, &found, p, meter),
        Err(error) => answer_to_refusal(alloc, lp.names(), budget.units, &error),
    }
}

/// The same behind an analysis that has a basis.
fn answer_by_division(
    alloc: Global,
    lp: &Loop,
    budget: u64,
    found: &Analysis,
    p: &Poly<Frac, Grevlex>,
    meter: &mut Meter,
) -> Result<Answer, AllocError>
    requires arity { p.now.arity ≡ length (program_of lp.now).names }
    requires limit { meter.old.limit ≡ budget }
    requires found { HasFound (program_of lp.now) meter.old (terms_each found.now.basis.items) }
    ensures answer { IfOk result (λ a.
        Asks (program_of lp.now) (terms_in p.now) budget meter.new (answer_view a)) }
    ensures asked { HasAsked (program_of lp.now) (terms_in p.now) budget meter.new }
{
    match member(alloc, found, p, meter) {
        Ok(answer) => membership_answer(alloc, lp.names(), &answer),
        Err(error) => division_refusal(alloc, budget, error),
    }
}

/// The answer to what the division says.
fn membership_answer(
    alloc: Global,
    names: &Names,
    answer: &Membership,
) -> Result<Answer, AllocError>
    requires { HasCofactorsOver (length names.now) answer.now }
    ensures { IfOk result (λ a. answer_view a ≡ answers.membership_answer names.now answer.now) }
{
    match answer {
        Membership::Yes(cofactors) => {
            let text = yes_text(alloc, names, cofactors)?;
            Ok(Answer::new(Status::Yes, text))
        }
        Membership::No => line(alloc, Status::No, "no", ""),
    }
}

/// The answer to a division that was refused.
fn division_refusal(alloc: Global, budget: u64, error: EngineError) -> Result<Answer, AllocError>
    ensures { IfOk result (λ a. undivided_answer budget error ≡ Some (answer_view a)) }
{
    match error {
        EngineError::Wide => line(alloc, Status::Wide, "wide: member", ""),
        EngineError::Budget => exhausted_answer(alloc, budget),
        EngineError::Memory => Err(AllocError),
    }
}
