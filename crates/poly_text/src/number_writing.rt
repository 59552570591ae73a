//! Writes numbers.
ghost use Rattle.std.specs.Prelude.{◌≡◌, ◌++◌, string_bytes, OnOk};
ghost use Rattle.std.specs.Fmt.{signed_decimal};
ghost use Rattle.frac128.specs.FracMeaning.{fraction_of};
ghost use Rattle.poly_text.specs.Text.{number_text};

use frac128::Frac;
use itoa::Buffer;
use std::alloc::AllocError;

/// Writes the number behind the text: `n`, or `n/d` in lowest terms.
#[tactic(auto, unfolding(crate::specs::Text::number_text))]
pub fn push_number(text: &mut String, number: &Frac) -> Result<(), AllocError>
    ensures { OnOk result (string_bytes text.new ≡ string_bytes text.old
        ++ number_text (fraction_of number.now)) }
{
    push_integer(text, number.num())?;
    if number.den() == 1 {
        return Ok(());
    }
    text.push('/')?;
    push_integer(text, number.den())
}

fn push_integer(text: &mut String, integer: i128) -> Result<(), AllocError>
    ensures { OnOk result (string_bytes text.new ≡ string_bytes text.old
        ++ signed_decimal integer) }
{
    let mut buffer = Buffer::new();
    text.push_str(buffer.format(integer))
}
