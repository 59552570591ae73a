// The bases of a chain, as a text.
ghost use Rattle.std.specs.Prelude.{◌≡◌, ◌++◌, All, length, string_bytes, IfOk, OnOk};
ghost use Rattle.poly.specs.Seen.{terms_each};
ghost use Rattle.command_parts.specs.ReadBack.{IsReadBack};
ghost use Rattle.command_parts.specs.BasisTexts.{basis_text};
ghost use Rattle.ideal_ops.specs.Calls.{AreOver};
ghost use Rattle.analysis_commands.specs.ChainHeadline.{AreReadBack};
ghost use Rattle.analysis_commands.specs.Lists.{lists_of};
ghost use Rattle.analysis_commands.specs.ChainTexts.{bases_text, part_line};

use command_parts::{basis_text, ordinal};
use frac128::Frac;
use loop_model::Names;
use monos::Grevlex;
use poly::Poly;
use std::alloc::{AllocError, Global};

/// The bases of the loops, each behind the line `loop J:`. Their polynomials can be read back from it.
pub(crate) fn bases_text(
    alloc: Global,
    names: &Names,
    bases: &[Vec<Poly<Frac, Grevlex>>],
) -> Result<String, AllocError>
    requires { All (λ b. AreOver (length names.now) b.items) bases.now }
    ensures text { IfOk result (λ text. string_bytes text
        ≡ bases_text names.now 0 (lists_of bases.now)) }
    ensures read_back { IfOk result (λ _. AreReadBack names.now (lists_of bases.now)) }
{
    let mut text = String::new(alloc);
    for (place, basis) in bases.iter().enumerate() {
        push_part(alloc, &mut text, names, place, basis)?;
    }
    Ok(text)
}

/// The basis of the loop at this place, behind its line.
fn push_part(
    alloc: Global,
    text: &mut String,
    names: &Names,
    place: usize,
    basis: &[Poly<Frac, Grevlex>],
) -> Result<(), AllocError>
    requires { AreOver (length names.now) basis.now }
    ensures text { OnOk result (string_bytes text.new ≡ string_bytes text.old
        ++ (part_line place ++ basis_text names.now (terms_each basis.now))) }
    ensures read_back { OnOk result (IsReadBack names.now (terms_each basis.now)) }
{
    let number = ordinal(place);
    let part = basis_text(alloc, names, basis)?;
    let line = format!(in alloc; "loop {number}:\n")?;
    text.push_str(line.as_str())?;
    text.push_str(part.as_str())
}
