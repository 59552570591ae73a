//! The certificate of a list that was closed.
ghost use Rattle.std.specs.Prelude.{◌≡◌, ◌⊎◌, ◌+◌, ◌<◌, ◌≤◌, Some, length, IfOk};
ghost use Rattle.poly.specs.Seen.{terms_each};
ghost use Rattle.divide.specs.Limits.{list_limit};
ghost use Rattle.ideal_ops.specs.Calls.{AreOver};
ghost use Rattle.cert_form.specs.Form.{cert_in, most_elements, ReadsAs};
ghost use Rattle.closures.specs.Closing.{closed};
ghost use Rattle.closures.specs.Ends.{ComesNext};
ghost use Rattle.closing.specs.LoopMaps.{program_in, arity_in};
ghost use Rattle.closing.specs.Proving.{certificate_of, FitsProof};
ghost use Rattle.io_edge.specs.Views.{answer_view};
ghost use Rattle.closing_commands.specs.ProvedLists.{AreBegun, TellsProving};
ghost use Rattle.closing_commands.specs.ProvedTexts as texts;
ghost use Rattle.closing_commands.specs.ProvedViews.{proving_answer};

use cert_form::{Cert, write_cert};
use closing::{ClosureProof, LoopMaps, ProvingError};
use command_parts::{Budget, exhausted_answer};
use frac128::Frac;
use io_edge::{Answer, Status};
use journal::Meter;
use loop_model::Names;
use monos::Grevlex;
use poly::Poly;
use std::alloc::{AllocError, Global};

/// The answer with the certificate that lists the polynomials first, or by what the divisions stop that prove the list closed with
/// which their closing has ended; `budget` is told where what the meter allows is exhausted.
pub(crate) fn certificate_answer(
    alloc: Global,
    loop_maps: &LoopMaps<'_>,
    budget: Budget,
    polynomials: &[Poly<Frac, Grevlex>],
    list: &[Poly<Frac, Grevlex>],
    meter: &mut Meter,
) -> Result<Answer, AllocError>
    requires over { AreOver (arity_in loop_maps.now) polynomials.now }
    requires list_over { AreOver (arity_in loop_maps.now) list.now }
    requires few { length polynomials.now + length list.now < list_limit }
    requires closed { ComesNext (program_in loop_maps.now) (terms_each polynomials.now)
        meter.old.entries (closed (terms_each list.now)) }
    ensures limit { meter.new.limit ≡ meter.old.limit }
    ensures answer { IfOk result (λ a. TellsProving (program_in loop_maps.now)
        (terms_each polynomials.now) (terms_each list.now) meter.new budget.units (answer_view a)) }
    ensures begun { ComesNext (program_in loop_maps.now) (terms_each polynomials.now)
        meter.new.entries (closed (terms_each list.now))
        ⊎ AreBegun (program_in loop_maps.now) (terms_each polynomials.now) meter.new.entries
        (terms_each list.now) }
{
    match loop_maps.proof_of(alloc, polynomials, list, meter) {
        Ok(proof) => proof_answer(alloc, loop_maps.lp.names(), proof),
        Err(error) => proving_refusal(alloc, budget.units, &error),
    }
}

/// Yes: the proof as a certificate with version 2 over the loop's names, and a line feed (docs/FORMATS.md).
fn proof_answer(alloc: Global, names: &Names, proof: ClosureProof) -> Result<Answer, AllocError>
    requires { FitsProof (length names.now) proof }
    ensures answer { IfOk result (λ a.
        answer_view a ≡ texts.certificate_answer names.now (certificate_of proof)) }
    ensures read_back { let c = certificate_of proof in IfOk result (λ a.
        length c.basis ≤ most_elements
        → ReadsAs (cert_in names.now (length c.steps) (answer_view a).text) c) }
{
    let cert = Cert::new(names.len(), proof.list, proof.steps);
    let mut text = write_cert(alloc, &cert, names)?;
    text.push('\n')?;
    Ok(Answer::new(Status::Yes, text))
}

/// To a list that was not proved closed.
fn proving_refusal(alloc: Global, budget: u64, why: &ProvingError) -> Result<Answer, AllocError>
    ensures { IfOk result (λ a. proving_answer budget why.now ≡ Some (answer_view a)) }
{
    match why {
        ProvingError::Wide { branch, element } => wide_test_answer(alloc, *branch, *element),
        ProvingError::Budget => exhausted_answer(alloc, budget),
        ProvingError::Memory => Err(AllocError),
    }
}

/// To a number of the closing division of this element, with this branch, that may not fit.
fn wide_test_answer(alloc: Global, branch: u32, element: u32) -> Result<Answer, AllocError>
    ensures { IfOk result (λ a. answer_view a ≡ texts.wide_test_answer branch element) }
{
    let text = format!(in alloc; "wide: branch {branch}, element {element}\n")?;
    Ok(Answer::new(Status::Wide, text))
}
