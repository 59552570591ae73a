//! A basis as a text.
ghost use Rattle.std.specs.Prelude.{◌≡◌, ◌++◌, All, length, string_bytes, IfOk, OnOk};
ghost use Rattle.poly.specs.Seen.{terms_in, terms_each};
ghost use Rattle.poly_text.specs.Printed.{polynomial_text};
ghost use Rattle.command_parts.specs.ReadBack.{ReadsBack, IsReadBack};
ghost use Rattle.command_parts.specs.BasisTexts.{line, basis_text};

use frac128::Frac;
use loop_model::Names;
use monos::Grevlex;
use poly::Poly;
use poly_text::print_poly;
use std::alloc::{AllocError, Global};

/// A basis: an equation a line, each element with ` = 0` behind it; `none` where it is empty (docs/FORMATS.md).
/// Its elements can be read back from it.
pub fn basis_text(
    alloc: Global,
    names: &Names,
    basis: &[Poly<Frac, Grevlex>],
) -> Result<String, AllocError>
    requires { All (λ p. p.arity ≡ length names.now) basis.now }
    ensures text { IfOk result (λ text. string_bytes text
        ≡ basis_text names.now (terms_each basis.now)) }
    ensures read_back { IfOk result (λ _. IsReadBack names.now (terms_each basis.now)) }
{
    // for its contract, which tells the prover that these can be names of variables
    let _ = names.len();
    if basis.is_empty() {
        return String::from_str(alloc, "none\n");
    }
    let mut text = String::new(alloc);
    for element in basis {
        push_line(alloc, &mut text, names, element, " = 0")?;
    }
    Ok(text)
}

/// Writes a polynomial with some text behind it, and a line feed. It can be read back from it.
pub fn push_line(
    alloc: Global,
    text: &mut String,
    names: &Names,
    p: &Poly<Frac, Grevlex>,
    end: &str,
) -> Result<(), AllocError>
    requires { p.now.arity ≡ length names.now }
    ensures text { OnOk result (string_bytes text.new ≡ string_bytes text.old
        ++ line (polynomial_text names.now (terms_in p.now) ++ end.now)) }
    ensures read_back { OnOk result (ReadsBack names.now (terms_in p.now)) }
{
    let printed = print_poly(alloc, p, names)?;
    text.push_str(printed.as_str())?;
    text.push_str(end)?;
    text.push('\n')
}
