//! `basis [--budget N] --degree D LOOP` and `cert [--budget N] --degree D LOOP`: the invariants of a loop up to a degree, whatever its
//! branches.
ghost use Rattle.std.specs.Prelude.{◌≡◌, [], map, string_bytes, IfOk};
ghost use Rattle.loop_model.specs.Maps.{AreFree};
ghost use Rattle.loop_model.specs.View.{program_of};
ghost use Rattle.closing.specs.LoopMaps.{program_in};
ghost use Rattle.io_edge.specs.Change.{◌⟶◌};
ghost use Rattle.io_edge.specs.Views.{answer_view, seen_answer};
ghost use Rattle.io_edge.specs.Outcome.{Says, Obeys};
ghost use Rattle.closing_commands.specs.DegreeArguments.{request_in};
ghost use Rattle.closing_commands.specs.DegreeCourse.{course};
ghost use Rattle.closing_commands.specs.DegreeViews.{view, IsFound};
ghost use Rattle.closing_commands.specs.Degrees.{Searches, HasSearched};
ghost use Rattle.closing_commands.specs.declared.evidence.Evidence.TheVariants.{Basis, Certificate};

use crate::certificates::certificate_answer;
use crate::degree_arguments::{Request, read_arguments};
use crate::degree_texts::{basis_answer, search_refusal};
use crate::evidence::Evidence;
use closing::{Finding, LoopMaps, append};
use command_parts::{Budget, map_refusal, read_program};
use counter_run::maps_of;
use io_edge::{Answer, Files, reply};
use journal::Meter;
use loop_model::Loop;
use std::alloc::{AllocError, Global};

/// The question for the invariants of a loop up to a degree, and what is to show them.
#[derive(Drop)]
struct Question<'l> {
    loop_maps: LoopMaps<'l>,
    evidence: Evidence,
    budget: Budget,
    degree: u16,
}

/// What `basis` or `cert` answers to the arguments behind it that name a degree; none where they don't ask so.
pub fn basis_up_to<F: Files>(
    alloc: Global,
    evidence: Evidence,
    arguments: &[String],
    files: &mut F,
    meter: &mut Meter,
) -> Result<Option<Answer>, AllocError>
    ensures { Obeys course (request_in evidence (map string_bytes arguments.now))
        (F.seen files.old ⟶ F.seen files.new) (meter.old ⟶ meter.new) result }
{
    match read_arguments(evidence, arguments) {
        Some(request) => reply(answer_to(alloc, request, files, meter)),
        None => Ok(None),
    }
}

fn answer_to<F: Files>(
    alloc: Global,
    request: Request<'_>,
    files: &mut F,
    meter: &mut Meter,
) -> Result<Answer, AllocError>
    ensures { Says (course (view request.entry)) (F.seen files.old ⟶ F.seen files.new)
        (meter.old ⟶ meter.new) (seen_answer result) }
{
    match read_program(alloc, files, request.file) {
        Ok(lp) => answer_by_maps(
            alloc,
            request.evidence,
            &lp,
            request.budget,
            request.degree,
            meter,
        ),
        Err(refusal) => refusal.into_answer(),
    }
}

/// The answer to the loop that was read.
fn answer_by_maps(
    alloc: Global,
    evidence: Evidence,
    lp: &Loop,
    budget: Budget,
    degree: u16,
    meter: &mut Meter,
) -> Result<Answer, AllocError>
    ensures answer { IfOk result (λ a. Searches (program_of lp.now) degree meter.new evidence
        budget.units (answer_view a)) }
    ensures searched { HasSearched (program_of lp.now) degree meter.new evidence budget.units }
{
    meter.open(budget.units);
    match maps_of(alloc, lp) {
        Ok(maps) => {
            let question = Question {
                loop_maps: LoopMaps { lp, maps: &maps },
                evidence,
                budget,
                degree,
            };
            question.answer_by_search(alloc, meter)
        }
        Err(error) => map_refusal(alloc, "loop: ", &error),
    }
}

impl Question<'_> {
    /// The answer by how the search ends.
    fn answer_by_search(&self, alloc: Global, meter: &mut Meter) -> Result<Answer, AllocError>
        requires free { AreFree (program_in self.now.loop_maps) }
        requires opened { meter.old ≡ record { limit = self.now.budget.units; entries = [] } }
        ensures answer { IfOk result (λ a. Searches (program_in self.now.loop_maps)
            self.now.degree meter.new self.now.evidence self.now.budget.units (answer_view a)) }
        ensures searched { HasSearched (program_in self.now.loop_maps) self.now.degree meter.new
            self.now.evidence self.now.budget.units }
    {
        match self.loop_maps.search(alloc, self.degree, meter) {
            Ok(finding) => match self.evidence {
                Evidence::Basis => self.list_answer(alloc, finding, meter),
                Evidence::Certificate => self.proof_answer(alloc, finding, meter),
            },
            Err(error) => {
                let names = self.loop_maps.lp.names();
                search_refusal(alloc, names, self.budget.units, self.degree, &error)
            }
        }
    }

    /// The answer with the list that was found.
    fn list_answer(
        &self,
        alloc: Global,
        finding: Finding,
        meter: &mut Meter,
    ) -> Result<Answer, AllocError>
        requires free { AreFree (program_in self.now.loop_maps) }
        requires found { IsFound (program_in self.now.loop_maps) self.now.degree
            self.now.budget.units meter.old finding }
        ensures answer { IfOk result (λ a. Searches (program_in self.now.loop_maps)
            self.now.degree meter.new Basis self.now.budget.units (answer_view a)) }
        ensures searched { HasSearched (program_in self.now.loop_maps) self.now.degree meter.new
            Basis self.now.budget.units }
    {
        finding.closing.within_limit();
        append(meter, &finding.closing)?;
        basis_answer(alloc, self.loop_maps.lp.names(), &finding.elements)
    }

    /// The answer with the certificate of the list that was found, or by what its divisions stop.
    fn proof_answer(
        &self,
        alloc: Global,
        finding: Finding,
        meter: &mut Meter,
    ) -> Result<Answer, AllocError>
        requires free { AreFree (program_in self.now.loop_maps) }
        requires found { IsFound (program_in self.now.loop_maps) self.now.degree
            self.now.budget.units meter.old finding }
        ensures answer { IfOk result (λ a. Searches (program_in self.now.loop_maps)
            self.now.degree meter.new Certificate self.now.budget.units (answer_view a)) }
        ensures searched { HasSearched (program_in self.now.loop_maps) self.now.degree meter.new
            Certificate self.now.budget.units }
    {
        let Finding {
            elements,
            closure,
            closing,
        } = finding;
        let mut closing = closing;
        closing.within_limit();
        let answer = certificate_answer(
            alloc,
            &self.loop_maps,
            self.budget,
            &elements,
            &closure,
            &mut closing,
        );
        closing.within_limit();
        append(meter, &closing)?;
        answer
    }
}
