//! Reads sums and equations as polynomials.

ghost use Rattle.std.specs.Prelude.{◌≡◌, ◌<◌, length, IfOk, IfSome, Ok};
ghost use Rattle.loops.specs.WellFormed.{Uses};
ghost use Rattle.poly_text.specs.Lexemes.{tokens};
ghost use Rattle.poly_text.specs.Sums as grammar;
ghost use Rattle.poly_text.specs.Sums.{SumState, sum_language};
ghost use Rattle.poly_text.specs.Telling.{Ends};
ghost use Rattle.loop_model.specs.ExpressionView.{expr_of};
ghost use Rattle.loop_model.specs.Operations.{value, operations};
ghost use Rattle.loop_model.specs.Stops.{Forms};
ghost use Rattle.poly_text.specs.Equations.{sum_of, equation_of, free_state, tells, text_refusal, map_refusal, Answers};

use crate::{Cursor, Lexeme, Refusal, SumReader, TextError};
use frac128::Frac;
use loop_model::{BinaryOperator, Expr, MapError, Names, expr_poly, free_state};
use monos::Grevlex;
use poly::Poly;
use std::alloc::Global;
use thiserror::Error;

/// Why a polynomial of a text was not made. Neither error that it holds is want of memory.
#[derive(Clone, Copy, Debug, Error)]
pub enum PolyTextError {
    /// The text's first fault.
    #[error("{0}")]
    Text(TextError),
    /// An operator that can't be done, with none before it that passes a limit.
    #[error("{0}")]
    Map(MapError),
    #[error("out of memory")]
    Memory,
}

/// The polynomial of the sum that the text is.
pub fn read_poly(
    alloc: Global,
    text: &[u8],
    names: &Names,
) -> Result<Poly<Frac, Grevlex>, PolyTextError>
    ensures { Answers (length names.now) (sum_of names.now (tokens text.now)) result }
{
    match read_sum(alloc, text, names) {
        Ok(sum) => poly_answer(alloc, &sum, names),
        Err(error) => Err(text_refusal(error)),
    }
}

/// The polynomial of the equation that the text is: its left side minus its right side. The last operator is the `=`.
pub fn read_equation(
    alloc: Global,
    text: &[u8],
    names: &Names,
) -> Result<Poly<Frac, Grevlex>, PolyTextError>
    ensures { Answers (length names.now) (equation_of names.now (tokens text.now)) result }
{
    match read_difference(alloc, text, names) {
        Ok(difference) => poly_answer(alloc, &difference, names),
        Err(error) => Err(text_refusal(error)),
    }
}

/// Ends the text.
fn expect_end(cursor: Cursor<'_>) -> Result<(), TextError>
    ensures { (t : SumState) → Ends sum_language grammar.the_end t t cursor.entry result }
{
    let at = cursor.token.at;
    match cursor.token.lexeme {
        Lexeme::End => Ok(()),
        _ => Err(TextError::Syntax { at }),
    }
}

/// The sum that the text is, or its first fault.
pub fn read_sum(alloc: Global, text: &[u8], names: &Names) -> Result<Expr, TextError>
    ensures reads { IfSome (tells expr_of result) (λ r. r ≡ sum_of names.now (tokens text.now)) }
    ensures uses { IfOk result (λ e. Uses (λ i. i < length names.now) (expr_of e)) }
{
    let reader = SumReader {
        alloc,
        names,
        refused: &[],
        refusal: Refusal::InitUses,
    };
    let (sum, end) = reader.sum(Cursor::new(text), 0, 0)?;
    expect_end(end)?;
    Ok(Box::into_inner(sum.value))
}

/// The equation that the text is, as its left side minus its right side.
#[tactic(auto, unfolding(loop_model::specs::ExpressionView::expr_of))]
fn read_difference(alloc: Global, text: &[u8], names: &Names) -> Result<Expr, TextError>
    ensures reads { IfSome (tells expr_of result)
        (λ r. r ≡ equation_of names.now (tokens text.now)) }
    ensures uses { IfOk result (λ e. Uses (λ i. i < length names.now) (expr_of e)) }
{
    let reader = SumReader {
        alloc,
        names,
        refused: &[],
        refusal: Refusal::InitUses,
    };
    let (left, middle) = reader.sum(Cursor::new(text), 0, 0)?;
    let at = middle.token.at;
    if !middle.token.lexeme.is_sign(b'=') {
        return Err(TextError::Syntax { at });
    }
    let (right, end) = reader.sum(middle.next(), 0, 0)?;
    expect_end(end)?;
    Ok(Expr::Binary {
        at,
        operator: BinaryOperator::Sub,
        left: left.value,
        right: right.value,
    })
}

fn text_refusal(error: TextError) -> PolyTextError
    ensures { result ≡ text_refusal error }
{
    match error {
        TextError::Memory => PolyTextError::Memory,
        error => PolyTextError::Text(error),
    }
}

fn map_refusal(error: MapError) -> PolyTextError
    ensures { result ≡ map_refusal error }
{
    match error {
        MapError::Memory => PolyTextError::Memory,
        error => PolyTextError::Map(error),
    }
}

/// The polynomial of the expression over the names.
fn poly_answer(
    alloc: Global,
    expr: &Expr,
    names: &Names,
) -> Result<Poly<Frac, Grevlex>, PolyTextError>
    requires { Uses (λ i. i < length names.now) (expr_of expr.now) }
    ensures { Answers (length names.now) (Ok (expr_of expr.now)) result }
{
    match poly_of(alloc, expr, names) {
        Ok(poly) => Ok(poly),
        Err(error) => Err(map_refusal(error)),
    }
}

fn poly_of(alloc: Global, expr: &Expr, names: &Names) -> Result<Poly<Frac, Grevlex>, MapError>
    requires { Uses (λ i. i < length names.now) (expr_of expr.now) }
    ensures { let m = length names.now in let s = free_state m in
        Forms m (operations m s (expr_of expr.now)) (value m s (expr_of expr.now)) result }
{
    let state = free_state(alloc, names.len())?;
    expr_poly(alloc, expr, &state)
}
