//! `checkfull LOOP CERT`: whether a full certificate of a loop is complete.

ghost use Rattle.std.specs.Prelude.{map, string_bytes, IfOk};
ghost use Rattle.machines.specs.Journal.{Journal};
ghost use Rattle.loop_model.specs.View.{program_of};
ghost use Rattle.full_cert.specs.Form.{full_in};
ghost use Rattle.io_edge.specs.Change.{◌⟶◌};
ghost use Rattle.io_edge.specs.Views.{answer_view, seen_answer};
ghost use Rattle.io_edge.specs.Outcome.{Says, Obeys};
ghost use Rattle.certificate_commands.specs.CertificateArguments.{request_in};
ghost use Rattle.certificate_commands.specs.CertificateViews.{view};
ghost use Rattle.certificate_commands.specs.CertificateAsking.{AnswersCertificate};
ghost use Rattle.certificate_commands.specs.CheckfullJudging.{Judges};
ghost use Rattle.certificate_commands.specs.CheckfullCourse.{course};

use crate::checkfull_texts::{judge_refusal, verdict_answer};
use crate::{Request, certificate_refusal, read_arguments};
use cert_checker::check_full;
use command_parts::read_program;
use full_cert::read_full;
use io_edge::{Answer, Files, read_file};
use loop_model::Loop;
use std::alloc::{AllocError, Global};

const CERTIFICATE_LIMIT: usize = 16_777_216;

/// What `checkfull` answers to the arguments behind it; none where they ask for no certificate.
pub fn checkfull<F: Files>(
    alloc: Global,
    arguments: &[String],
    files: &mut F,
) -> Result<Option<Answer>, AllocError>
    ensures { (m : Journal) → Obeys course (request_in (map string_bytes arguments.now))
        (F.seen files.old ⟶ F.seen files.new) (m ⟶ m) result }
{
    match read_arguments(arguments) {
        Some(request) => io_edge::reply(answer_to(alloc, files, request)),
        None => Ok(None),
    }
}

fn answer_to<F: Files>(
    alloc: Global,
    files: &mut F,
    request: Request<'_>,
) -> Result<Answer, AllocError>
    ensures { (m : Journal) → Says (course (view request.entry))
        (F.seen files.old ⟶ F.seen files.new) (m ⟶ m)
        (seen_answer result) }
{
    let lp = match read_program(alloc, files, request.file) {
        Ok(lp) => lp,
        Err(refusal) => return refusal.into_answer(),
    };
    match read_file(alloc, files, request.certificate, CERTIFICATE_LIMIT) {
        Ok(bytes) => judge(alloc, &lp, &bytes),
        Err(refusal) => refusal.into_answer(),
    }
}

/// The answer by what the bytes of CERT are.
fn judge(alloc: Global, lp: &Loop, bytes: &[u8]) -> Result<Answer, AllocError>
    ensures { IfOk result (λ a. AnswersCertificate Judges (program_of lp.now)
        (full_in (program_of lp.now) bytes.now) (answer_view a)) }
{
    let cert = match read_full(alloc, bytes, lp) {
        Ok(cert) => cert,
        Err(e) => return certificate_refusal(alloc, e),
    };
    match check_full(alloc, lp, &cert) {
        Ok(verdict) => verdict_answer(alloc, verdict),
        Err(e) => judge_refusal(alloc, e),
    }
}
