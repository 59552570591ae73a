//! `decide [--budget N] LOOP EQUATION` and `prove [--budget N] LOOP EQUATION`: whether an equation holds at the end of every run of a
//! loop, whatever its branches.
ghost use Rattle.std.specs.Prelude.{◌≡◌, ◌⊎◌, ◌≤◌, [], ◌∷◌, All, length, map, string_bytes, IfOk};
ghost use Rattle.machines.specs.Journal.{units_of};
ghost use Rattle.rounds.specs.Word.{IsLetter};
ghost use Rattle.poly.specs.Seen.{terms_in, terms_each};
ghost use Rattle.ideal_ops.specs.Calls.{AreOver};
ghost use Rattle.loop_model.specs.Maps.{AreFree};
ghost use Rattle.loop_model.specs.View.{program_of};
ghost use Rattle.counter_run.specs.Search.{IsNonzeroImage};
ghost use Rattle.closures.specs.Closing.{closed};
ghost use Rattle.closures.specs.Ends.{ComesNext};
ghost use Rattle.closing.specs.LoopMaps.{program_in, arity_in};
ghost use Rattle.io_edge.specs.Change.{◌⟶◌};
ghost use Rattle.io_edge.specs.Views.{answer_view, seen_answer};
ghost use Rattle.io_edge.specs.Outcome.{Says, Obeys};
ghost use Rattle.command_parts.specs.Equations.{equation_in};
ghost use Rattle.closing_commands.specs.DecideCourse.{course};
ghost use Rattle.closing_commands.specs.DecideViews.{view};
ghost use Rattle.closing_commands.specs.DecideArguments.{request_in};
ghost use Rattle.closing_commands.specs.Deciding.{Answers, Leaves, Decides, HasAsked, TellsCounter};

use crate::certificates::certificate_answer;
use crate::decide_arguments::{Request, read_arguments};
use crate::decide_texts::{closing_refusal, closure_answer, no_answer};
use crate::evidence::Evidence;
use closing::{Counter, LoopMaps, Verdict};
use command_parts::{Budget, map_refusal, read_polynomial, read_program};
use counter_run::{CounterError, CounteringWord, Found, maps_of, run_of};
use frac128::Frac;
use io_edge::{Answer, Files, Status, reply};
use journal::Meter;
use loop_model::Loop;
use monos::Grevlex;
use poly::Poly;
use replay_commands::word_answer;
use std::alloc::{AllocError, Global};

/// The question whether a polynomial in a loop's variables is an invariant, and what is to show it.
#[derive(Drop)]
struct Question<'l> {
    loop_maps: LoopMaps<'l>,
    evidence: Evidence,
    budget: Budget,
    polynomial: Poly<Frac, Grevlex>,
}

/// What `decide` or `prove` answers to the arguments behind it; none where they ask no question.
pub fn decide<F: Files>(
    alloc: Global,
    evidence: Evidence,
    arguments: &[String],
    files: &mut F,
    meter: &mut Meter,
) -> Result<Option<Answer>, AllocError>
    ensures { Obeys (course meter.old) (request_in evidence (map string_bytes arguments.now))
        (F.seen files.old ⟶ F.seen files.new) (meter.old ⟶ meter.new) result }
{
    match read_arguments(evidence, arguments) {
        Some(request) => reply(answer_to(alloc, request, files, meter)),
        None => Ok(None),
    }
}

fn answer_to<F: Files>(
    alloc: Global,
    request: Request<'_>,
    files: &mut F,
    meter: &mut Meter,
) -> Result<Answer, AllocError>
    ensures { Says (course meter.old (view request.entry)) (F.seen files.old ⟶ F.seen files.new)
        (meter.old ⟶ meter.new) (seen_answer result) }
{
    match read_program(alloc, files, request.file) {
        Ok(lp) => answer_to_equation(
            alloc,
            request.evidence,
            &lp,
            request.budget,
            request.equation,
            meter,
        ),
        Err(refusal) => refusal.into_answer(),
    }
}

/// The answer by what the equation is.
fn answer_to_equation(
    alloc: Global,
    evidence: Evidence,
    lp: &Loop,
    budget: Budget,
    equation: &String,
    meter: &mut Meter,
) -> Result<Answer, AllocError>
    ensures answers { let l = program_of lp.now in
        let reading = equation_in l.names (string_bytes equation.now) in
        IfOk result (λ a.
        Answers evidence l reading budget.units meter.old meter.new (answer_view a)) }
    ensures leaves { let l = program_of lp.now in
        let reading = equation_in l.names (string_bytes equation.now) in
        (meter.new ≡ meter.old) ⊎ Leaves evidence l reading budget.units meter.new }
{
    match read_polynomial(alloc, lp, equation) {
        Ok(polynomial) => answer_by_maps(alloc, evidence, lp, budget, polynomial, meter),
        Err(refusal) => refusal.into_answer(),
    }
}

/// The answer to the question whether the polynomial is an invariant.
fn answer_by_maps(
    alloc: Global,
    evidence: Evidence,
    lp: &Loop,
    budget: Budget,
    polynomial: Poly<Frac, Grevlex>,
    meter: &mut Meter,
) -> Result<Answer, AllocError>
    requires { polynomial.arity ≡ length (program_of lp.now).names }
    ensures answer { IfOk result (λ a. Decides (program_of lp.now) (terms_in polynomial)
        meter.new evidence budget.units (answer_view a)) }
    ensures asked { HasAsked (program_of lp.now) (terms_in polynomial) meter.new evidence
        budget.units }
{
    meter.open(budget.units);
    match maps_of(alloc, lp) {
        Ok(maps) => {
            let question = Question {
                loop_maps: LoopMaps { lp, maps: &maps },
                evidence,
                budget,
                polynomial,
            };
            question.answer_by_closing(alloc, meter)
        }
        Err(error) => map_refusal(alloc, "loop: ", &error),
    }
}

impl Question<'_> {
    /// The answer by what the closing of the polynomial ends with.
    fn answer_by_closing(&self, alloc: Global, meter: &mut Meter) -> Result<Answer, AllocError>
        requires arity { self.now.polynomial.arity ≡ arity_in self.now.loop_maps }
        requires free { AreFree (program_in self.now.loop_maps) }
        requires opened { meter.old ≡ record { limit = self.now.budget.units; entries = [] } }
        ensures answer { IfOk result (λ a. Decides (program_in self.now.loop_maps)
            (terms_in self.now.polynomial) meter.new self.now.evidence self.now.budget.units
            (answer_view a)) }
        ensures asked { HasAsked (program_in self.now.loop_maps) (terms_in self.now.polynomial)
            meter.new self.now.evidence self.now.budget.units }
    {
        let polynomials = listed(alloc, &self.polynomial)?;
        match self.loop_maps.close(alloc, &polynomials, meter) {
            Ok(Verdict::Basis(list)) => self.answer_by_list(alloc, &polynomials, list, meter),
            Ok(Verdict::Counter(counter)) => self.answer_by_run(alloc, counter),
            Err(error) => closing_refusal(alloc, self.budget.units, &error),
        }
    }

    /// The answer to a closing that has ended with this list, the reduced basis of the closure.
    fn answer_by_list(
        &self,
        alloc: Global,
        polynomials: &[Poly<Frac, Grevlex>],
        list: Vec<Poly<Frac, Grevlex>>,
        meter: &mut Meter,
    ) -> Result<Answer, AllocError>
        requires free { AreFree (program_in self.now.loop_maps) }
        requires limit { meter.old.limit ≡ self.now.budget.units }
        requires over { AreOver (arity_in self.now.loop_maps) polynomials.now }
        requires one { terms_each polynomials.now ≡ terms_in self.now.polynomial ∷ [] }
        requires list_over { AreOver (arity_in self.now.loop_maps) list.items }
        requires few { length list.items ≤ units_of meter.old.entries }
        requires closed { ComesNext (program_in self.now.loop_maps) (terms_each polynomials.now)
            meter.old.entries (closed (terms_each list.items)) }
        ensures answer { IfOk result (λ a. Decides (program_in self.now.loop_maps)
            (terms_in self.now.polynomial) meter.new self.now.evidence self.now.budget.units
            (answer_view a)) }
        ensures asked { HasAsked (program_in self.now.loop_maps) (terms_in self.now.polynomial)
            meter.new self.now.evidence self.now.budget.units }
    {
        meter.within_limit();
        match self.evidence {
            Evidence::Basis => closure_answer(alloc, self.loop_maps.lp.names(), &list),
            Evidence::Certificate => {
                certificate_answer(
                    alloc,
                    &self.loop_maps,
                    self.budget,
                    polynomials,
                    &list,
                    meter,
                )
            }
        }
    }

    /// The answer to a word that counters the polynomial.
    fn answer_by_run(&self, alloc: Global, counter: Counter) -> Result<Answer, AllocError>
        requires arity { self.now.polynomial.arity ≡ arity_in self.now.loop_maps }
        requires letters { All (IsLetter (program_in self.now.loop_maps))
            counter.candidate.word.items }
        requires image { IsNonzeroImage (program_in self.now.loop_maps)
            (terms_in self.now.polynomial) counter.candidate.word.items counter.image }
        ensures { IfOk result (λ a. TellsCounter (program_in self.now.loop_maps)
            (terms_in self.now.polynomial) counter.candidate.word.items (answer_view a)) }
    {
        let Counter { candidate, image } = counter;
        let found_word = CounteringWord {
            word: candidate.word,
            image,
        };
        let lp = self.loop_maps.lp;
        match run_of(alloc, lp, &self.polynomial, found_word) {
            Ok(
                Found::Run {
                    word,
                    states,
                    value,
                },
            ) => no_answer(alloc, lp.names(), &word, &states, &value),
            Err(CounterError::Wide { word }) => {
                word_answer(alloc, Status::Wide, "wide: word", &word)
            }
            Err(CounterError::Memory) => Err(AllocError),
            Ok(Found::NoneUpTo)
            | Err(CounterError::Map(_) | CounterError::Limit { .. } | CounterError::Cost { .. }) =>
                unreachable!(),
        }
    }
}

/// The polynomial as a list.
fn listed(
    alloc: Global,
    polynomial: &Poly<Frac, Grevlex>,
) -> Result<Vec<Poly<Frac, Grevlex>>, AllocError>
    ensures terms { IfOk result (λ ps. terms_each ps.items ≡ terms_in polynomial.now ∷ []) }
    ensures over { IfOk result (λ ps. AreOver polynomial.now.arity ps.items) }
{
    let mut polynomials = Vec::new(alloc);
    polynomials.push(polynomial.copy(alloc)?)?;
    Ok(polynomials)
}
