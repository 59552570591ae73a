//! `counter [--length N] LOOP EQUATION`: a run at whose end an equation doesn't hold.

ghost use Rattle.std.specs.Prelude.{◌≡◌, map, length, string_bytes, IfOk};
ghost use Rattle.machines.specs.Journal.{Journal};
ghost use Rattle.loop_model.specs.View.{program_of};
ghost use Rattle.poly.specs.Seen.{terms_in};
ghost use Rattle.io_edge.specs.Change.{◌⟶◌};
ghost use Rattle.io_edge.specs.Views.{answer_view, seen_answer};
ghost use Rattle.io_edge.specs.Outcome.{Says, Obeys};
ghost use Rattle.command_parts.specs.Equations.{equation_in};
ghost use Rattle.replay_commands.specs.CounterSeeking.{Seeks, Answers};
ghost use Rattle.replay_commands.specs.CounterArguments.{request_in};
ghost use Rattle.replay_commands.specs.CounterCourse.{course};
ghost use Rattle.replay_commands.specs.CounterViews.{view};

use crate::counter_arguments::{Request, read_arguments};
use crate::counter_texts::{found_answer, search_refusal};
use command_parts::{read_polynomial, read_program};
use frac128::Frac;
use io_edge::{Answer, Files};
use loop_model::Loop;
use monos::Grevlex;
use poly::Poly;
use std::alloc::{AllocError, Global};

/// What `counter` answers to the arguments behind it; none where they ask for no counter-run.
pub fn counter<F: Files>(
    alloc: Global,
    arguments: &[String],
    files: &mut F,
) -> Result<Option<Answer>, AllocError>
    ensures { (m : Journal) → Obeys course (request_in (map string_bytes arguments.now))
        (F.seen files.old ⟶ F.seen files.new) (m ⟶ m) result }
{
    match read_arguments(arguments) {
        Some(request) => io_edge::reply(answer_to(alloc, files, request)),
        None => Ok(None),
    }
}

fn answer_to<F: Files>(
    alloc: Global,
    files: &mut F,
    request: Request<'_>,
) -> Result<Answer, AllocError>
    ensures { (m : Journal) → Says (course (view request.entry))
        (F.seen files.old ⟶ F.seen files.new) (m ⟶ m) (seen_answer result) }
{
    match read_program(alloc, files, request.file) {
        Ok(lp) => answer_by_equation(alloc, &lp, request),
        Err(refusal) => refusal.into_answer(),
    }
}

/// The answer by what the equation is.
fn answer_by_equation(alloc: Global, lp: &Loop, request: Request<'_>) -> Result<Answer, AllocError>
    ensures { let l = program_of lp.now in
        let reading = equation_in l.names (string_bytes request.entry.equation.now) in
        IfOk result (λ a. Answers l reading request.entry.most (answer_view a)) }
{
    match read_polynomial(alloc, lp, request.equation) {
        Ok(polynomial) => answer_by_search(alloc, lp, &polynomial, request.most),
        Err(refusal) => refusal.into_answer(),
    }
}

/// The answer by what the search of a counter-run finds.
fn answer_by_search(
    alloc: Global,
    lp: &Loop,
    polynomial: &Poly<Frac, Grevlex>,
    most: u32,
) -> Result<Answer, AllocError>
    requires { polynomial.now.arity ≡ length (program_of lp.now).names }
    ensures { IfOk result (λ a.
        Seeks (program_of lp.now) (terms_in polynomial.now) most (answer_view a)) }
{
    match counter_run::counter(alloc, lp, polynomial, most) {
        Ok(found) => found_answer(alloc, lp.names(), &found, most),
        Err(error) => search_refusal(alloc, &error),
    }
}
