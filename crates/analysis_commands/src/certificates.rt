//! The certificate of an analysis.
ghost use Rattle.std.specs.Prelude.{◌≡◌, ◌≤◌, All, length, string_bytes, IfOk};
ghost use Rattle.command_parts.specs.BasisTexts.{line};
ghost use Rattle.cert_form.specs.Form.{cert_in, most_elements, ReadsAs};
ghost use Rattle.ideal_ops.specs.Calls.{AreOver};
ghost use Rattle.invariant_fix.specs.Answers.{certificate_of};
ghost use Rattle.invariant_fix.specs.Closing.{IsSquare};
ghost use Rattle.analysis_commands.specs.Certificates.{certificate_text};

use cert_form::{Cert, write_cert};
use invariant_fix::Analysis;
use loop_model::Names;
use std::alloc::{AllocError, Global};

/// The basis of an analysis with the cofactors of its closing divisions, as a certificate with version 2 over the loop's names, and a line feed (docs/FORMATS.md). It is read as this certificate where the basis has at most 512 elements.
pub fn certificate_text(alloc: Global, names: &Names, found: Analysis) -> Result<String, AllocError>
    requires arity { AreOver (length names.now) found.basis.items }
    requires square { let count = length found.basis.items in
        All (λ rows. IsSquare (length names.now) count rows.items) found.steps.items }
    ensures text { IfOk result (λ text. string_bytes text
        ≡ certificate_text names.now (certificate_of found)) }
    ensures read_back { let c = certificate_of found in IfOk result (λ text.
        length c.basis ≤ most_elements
        → ReadsAs (cert_in names.now (length c.steps) (string_bytes text)) c) }
{
    let cert = Cert::new(names.len(), found.basis, found.steps);
    with_line_feed(write_cert(alloc, &cert, names)?)
}

/// The text with a line feed behind it.
fn with_line_feed(text: String) -> Result<String, AllocError>
    ensures { IfOk result (λ ended. string_bytes ended ≡ line (string_bytes text)) }
{
    let mut line = text;
    line.push('\n')?;
    Ok(line)
}
