//! The argument EQUATION, as each command reads it that asks about an equation of a loop.

ghost use Rattle.std.specs.Prelude.{string_bytes, IfOk, IfErr, IfSome};
ghost use Rattle.loop_model.specs.View.{program_of};
ghost use Rattle.io_edge.specs.Refusals.{Refuses, seen_refusal};
ghost use Rattle.command_parts.specs.Equations.{equation_in};
ghost use Rattle.command_parts.specs.EquationReading.{unread_answer, IsPolynomialOf, IsUnread};

use crate::{map_refusal, text_refusal};
use frac128::Frac;
use io_edge::Refusal;
use loop_model::Loop;
use monos::Grevlex;
use poly::Poly;
use poly_text::{PolyTextError, read_equation};
use std::alloc::Global;

/// How answers name the argument.
const PART: &str = "equation: ";

/// The polynomial of the equation in the loop's variables, its left side minus its right side; or the
/// answer that the argument is no equation, or that its polynomial can't be formed.
pub fn read_polynomial(
    alloc: Global,
    lp: &Loop,
    equation: &String,
) -> Result<Poly<Frac, Grevlex>, Refusal>
    ensures polynomial { IfOk result
        (IsPolynomialOf (program_of lp.now) (string_bytes equation.now)) }
    ensures unread { let l = program_of lp.now in
        let reading = equation_in l.names (string_bytes equation.now) in
        IfErr result (λ refusal. IfSome (seen_refusal refusal) (IsUnread l reading)) }
{
    match read_equation(alloc, equation.as_bytes(), lp.names()) {
        Ok(polynomial) => Ok(polynomial),
        Err(why) => Err(refusal(alloc, why)),
    }
}

// To an equation that has no polynomial.
fn refusal(alloc: Global, why: PolyTextError) -> Refusal
    ensures { Refuses result (unread_answer why) }
{
    match why {
        PolyTextError::Text(fault) => Refusal::of(text_refusal(alloc, PART, fault)),
        PolyTextError::Map(stop) => Refusal::of(map_refusal(alloc, PART, &stop)),
        PolyTextError::Memory => Refusal::Memory,
    }
}
