//! The text of cofactors.
ghost use Rattle.std.specs.Prelude.{◌≡◌, All, length, string_bytes, IfOk};
ghost use Rattle.poly.specs.Seen.{terms_each};
ghost use Rattle.analysis_commands.specs.AnalysisTexts.{yes_text};

use command_parts::push_line;
use frac128::Frac;
use loop_model::Names;
use monos::Grevlex;
use poly::Poly;
use std::alloc::{AllocError, Global};

/// A yes: the word, and a cofactor a line in the order of the basis.
pub fn yes_text(
    alloc: Global,
    names: &Names,
    cofactors: &[Poly<Frac, Grevlex>],
) -> Result<String, AllocError>
    requires { All (λ p. p.arity ≡ length names.now) cofactors.now }
    ensures { IfOk result (λ text. string_bytes text
        ≡ yes_text names.now (terms_each cofactors.now)) }
{
    let mut text = String::from_str(alloc, "yes\n")?;
    for cofactor in cofactors {
        push_line(alloc, &mut text, names, cofactor, "")?;
    }
    Ok(text)
}
