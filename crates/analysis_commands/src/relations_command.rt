// `relations [--budget N] FILE`: all polynomial relations of sequences that are given by recurrences.
ghost use Rattle.std.specs.Prelude.{◌≡◌, ℕ, List, Some, map, length, string_bytes, IfOk, option_map};
ghost use Rattle.loops.specs.Program.{Expr};
ghost use Rattle.poly_text.specs.Faults.{fault_of};
ghost use Rattle.loops.specs.Sequences.{Sequence};
ghost use Rattle.loop_text.specs.SequenceSeen.{IsLoopOf};
ghost use Rattle.poly.specs.Seen.{terms_each};
ghost use Rattle.ideal_ops.specs.Calls.{AreOver};
ghost use Rattle.command_parts.specs.ReadBack.{IsReadBack};
ghost use Rattle.io_edge.specs.Change.{◌⟶◌};
ghost use Rattle.io_edge.specs.Views.{answer_view, seen_answer};
ghost use Rattle.io_edge.specs.Refusals.{Refuses};
ghost use Rattle.io_edge.specs.Outcome.{Says, Obeys};
ghost use Rattle.analysis_commands.specs.RelationsAnswers.{AreSequences, Relates, HasRelated};
ghost use Rattle.analysis_commands.specs.RelationsTexts as texts;
ghost use Rattle.analysis_commands.specs.RelationsReading.{AreSequencesOr};
ghost use Rattle.command_parts.specs.FileRequests.{request_in};
ghost use Rattle.analysis_commands.specs.RelationsCourse.{course};
ghost use Rattle.command_parts.specs.FileViews.{view};
ghost use Rattle.analysis_commands.specs.RelationsViews.{AreNamedBy};

use crate::answer_to_refusal;
use command_parts::{
    Budget, FileRequest, basis_text, map_refusal, read_file_request, text_refusal,
};
use frac128::Frac;
use invariant_fix::{AnalyseError, RelationsError, relations};
use io_edge::{Answer, Files, Refusal, Status, read_file, reply};
use journal::Meter;
use loop_model::Names;
use loop_text::{Seqs, read_seqs};
use monos::Grevlex;
use poly::Poly;
use poly_text::TextError;
use std::alloc::{AllocError, Global};

const FILE_LIMIT: usize = 65_536;

/// What `relations` answers to the arguments behind it; none where they ask for no relations.
pub fn relate<F: Files>(
    alloc: Global,
    arguments: &[String],
    files: &mut F,
    meter: &mut Meter,
) -> Result<Option<Answer>, AllocError>
    ensures { Obeys course (request_in (map string_bytes arguments.now))
        (F.seen files.old ⟶ F.seen files.new) (meter.old ⟶ meter.new) result }
{
    match read_file_request(arguments) {
        Some(request) => reply(answer_to(alloc, request, files, meter)),
        None => Ok(None),
    }
}

/// What is answered to the sequences that were asked for.
fn answer_to<F: Files>(
    alloc: Global,
    request: FileRequest<'_>,
    files: &mut F,
    meter: &mut Meter,
) -> Result<Answer, AllocError>
    ensures { Says (course (view request.entry)) (F.seen files.old ⟶ F.seen files.new)
        (meter.old ⟶ meter.new) (seen_answer result) }
{
    match read_sequences(alloc, files, request.file) {
        Ok(seqs) => answer_to_sequences(alloc, &seqs, request.budget, meter),
        Err(refusal) => refusal.into_answer(),
    }
}

/// The sequences of a file of at most 65,536 bytes as a loop, or the answer that the file can't be read or is too long,
/// or what its first fault is (docs/LANGUAGE.md).
fn read_sequences<F: Files>(alloc: Global, files: &mut F, name: &String) -> Result<Seqs, Refusal>
    ensures { AreSequencesOr (string_bytes name.now) (F.seen files.old ⟶ F.seen files.new) result }
{
    let bytes = match read_file(alloc, files, name, FILE_LIMIT) {
        Ok(bytes) => bytes,
        Err(refusal) => return Err(refusal),
    };
    match read_seqs(alloc, &bytes) {
        Ok(seqs) => Ok(seqs),
        Err(why) => Err(sequences_refusal(alloc, why)),
    }
}

// To the first fault of a text of sequences.
fn sequences_refusal(alloc: Global, why: TextError) -> Refusal
    ensures { Refuses result (option_map texts.sequences_refusal (fault_of why)) }
{
    Refusal::of(text_refusal(alloc, "sequences: ", why))
}

/// The answer to the relations of sequences, with this budget.
fn answer_to_sequences(
    alloc: Global,
    seqs: &Seqs,
    budget: Budget,
    meter: &mut Meter,
) -> Result<Answer, AllocError>
    requires { AreSequences seqs.now }
    ensures answer { (qs : List (Sequence (Expr ℕ))) → IsLoopOf seqs.now qs →
        IfOk result (λ a. Relates qs budget.units meter.new (answer_view a)) }
    ensures related { (qs : List (Sequence (Expr ℕ))) → IsLoopOf seqs.now qs →
        HasRelated qs budget.units meter.new }
{
    meter.open(budget.units);
    match relations(alloc, &seqs.lp, &seqs.shown, meter) {
        Ok(basis) => found_answer(alloc, &seqs.names, &basis),
        Err(error) => answer_to_no_relations(alloc, seqs.lp.names(), budget.units, &error),
    }
}

/// The answer that has these relations.
fn found_answer(
    alloc: Global,
    names: &Names,
    basis: &[Poly<Frac, Grevlex>],
) -> Result<Answer, AllocError>
    requires { AreOver (length names.now) basis.now }
    ensures text { IfOk result (λ a.
        answer_view a ≡ texts.found_answer names.now (terms_each basis.now)) }
    ensures read_back { IfOk result (λ _. IsReadBack names.now (terms_each basis.now)) }
{
    let text = basis_text(alloc, names, basis)?;
    Ok(Answer::new(Status::Yes, text))
}

/// The answer to sequences whose relations aren't given.
fn answer_to_no_relations(
    alloc: Global,
    names: &Names,
    budget: u64,
    error: &RelationsError,
) -> Result<Answer, AllocError>
    requires { AreNamedBy (length names.now) error.now }
    ensures { IfOk result (λ a. texts.relations_refusal names.now budget error.now
        ≡ Some (answer_view a)) }
{
    match error {
        RelationsError::Analysis(AnalyseError::Map(stop)) => {
            map_refusal(alloc, "sequences: ", stop)
        }
        RelationsError::Analysis(error) => answer_to_refusal(alloc, names, budget, error),
        RelationsError::Wide => wide_answer(alloc),
        RelationsError::Budget => answer_to_refusal(alloc, names, budget, &AnalyseError::Budget),
        RelationsError::Memory => Err(AllocError),
    }
}

fn wide_answer(alloc: Global) -> Result<Answer, AllocError>
    ensures { IfOk result (λ a. answer_view a ≡ texts.wide_answer) }
{
    let text = String::from_str(alloc, "wide: relations\n")?;
    Ok(Answer::new(Status::Wide, text))
}
