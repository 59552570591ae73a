//! `checkproof PROGRAM CERT`: whether a certificate of a program is valid, and which assertions are listed.

ghost use Rattle.std.specs.Prelude.{◌≡◌, ◌≤◌, Some, map, string_bytes, length, IfOk};
ghost use Rattle.machines.specs.Journal.{Journal};
ghost use Rattle.io_edge.specs.Change.{◌⟶◌};
ghost use Rattle.io_edge.specs.Views.{answer_view, seen_answer};
ghost use Rattle.io_edge.specs.Outcome.{Says, Obeys};
ghost use Rattle.program_checker.specs.View.{lists_of};
ghost use Rattle.checkproof_command.specs.Arguments.{request_in};
ghost use Rattle.checkproof_command.specs.Sources.{most_program_bytes};
ghost use Rattle.checkproof_command.specs.Judging.{Judges};
ghost use Rattle.checkproof_command.specs.Course.{course};
ghost use Rattle.checkproof_command.specs.Found.{CanBeFound, IsAnswerOf};
ghost use Rattle.checkproof_command.specs.Views.{view, source_view, refusal_of};

use crate::answers::{certificate_refusal, step_line};
use crate::arguments::{Request, read_arguments};
use crate::findings::{findings, findings_text};
use crate::sources::{Source, read_source};
use command_parts::map_refusal;
use io_edge::{Answer, Files, Status, read_file};
use program_checker::{CheckError, ProgramCert, Verdict, check_program, read_program_cert};
use program_model::Graph;
use std::alloc::{AllocError, Global};

const CERTIFICATE_LIMIT: usize = 1_048_576;

/// What `checkproof` answers to the arguments behind it; none where they ask for no certificate.
pub fn checkproof<F: Files>(
    alloc: Global,
    arguments: &[String],
    files: &mut F,
) -> Result<Option<Answer>, AllocError>
    ensures { (m : Journal) → Obeys course (request_in (map string_bytes arguments.now))
        (F.seen files.old ⟶ F.seen files.new) (m ⟶ m) result }
{
    match read_arguments(arguments) {
        Some(request) => io_edge::reply(answer_to(alloc, files, request)),
        None => Ok(None),
    }
}

fn answer_to<F: Files>(
    alloc: Global,
    files: &mut F,
    request: Request<'_>,
) -> Result<Answer, AllocError>
    ensures { (m : Journal) → Says (course (view request.entry))
        (F.seen files.old ⟶ F.seen files.new) (m ⟶ m)
        (seen_answer result) }
{
    let source = match read_source(alloc, files, request.file) {
        Ok(source) => source,
        Err(refusal) => return refusal.into_answer(),
    };
    match read_file(alloc, files, request.certificate, CERTIFICATE_LIMIT) {
        Ok(bytes) => judge(alloc, &source, &bytes),
        Err(refusal) => refusal.into_answer(),
    }
}

/// The answer by what the bytes of CERT are.
fn judge(alloc: Global, source: &Source, bytes: &[u8]) -> Result<Answer, AllocError>
    requires { length source.now.text.items ≤ most_program_bytes }
    ensures { IfOk result (λ a. Judges (source_view source.now) bytes.now (answer_view a)) }
{
    let graph = match source.program.graph(alloc) {
        Ok(graph) => graph,
        Err(stop) => return map_refusal(alloc, "program: ", &stop),
    };
    let cert = match read_program_cert(alloc, bytes, source.program.names(), &graph) {
        Ok(cert) => cert,
        Err(e) => return certificate_refusal(alloc, e),
    };
    match check_program(alloc, &graph, &cert) {
        Ok(Verdict::Valid) => valid_answer(alloc, &source.text, &graph, &cert),
        Ok(
            Verdict::Fails {
                transition,
                element,
            },
        ) => step_line(alloc, Status::No, "fails: ", transition, element),
        Err(e) => check_refusal(alloc, e),
    }
}

/// To a certificate that is valid.
fn valid_answer(
    alloc: Global,
    text: &[u8],
    graph: &Graph,
    cert: &ProgramCert,
) -> Result<Answer, AllocError>
    requires found { CanBeFound graph.now cert.now }
    requires few { length text.now ≤ most_program_bytes }
    ensures { IfOk result (λ a. IsAnswerOf text.now (lists_of cert.now) graph.now.points.items
        (answer_view a)) }
{
    let found = findings(alloc, graph, cert)?;
    let told = findings_text(alloc, text, &found)?;
    Ok(Answer::new(Status::Yes, told))
}

/// To a certificate that wasn't judged.
fn check_refusal(alloc: Global, why: CheckError) -> Result<Answer, AllocError>
    ensures { IfOk result (λ a. refusal_of why ≡ Some (answer_view a)) }
{
    match why {
        CheckError::Limit {
            transition,
            element,
        } => step_line(alloc, Status::Fault, "limit: ", transition, element),
        CheckError::Wide {
            transition,
            element,
        } => step_line(alloc, Status::Wide, "wide: ", transition, element),
        CheckError::Memory => Err(AllocError),
    }
}
