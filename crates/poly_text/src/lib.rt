//! Texts of sums, equations, polynomials and numbers: tokens, the languages, the readers, and what is printed.
//!
//! Proved: bytes are read exactly where their tokens are a text of the language without a fault, and else refused for their first fault;
//! printed polynomials are read back; `read_number` gives the fraction that a text is, exactly where it is one.
//!
//! Notion: texts and their grammars.
#![tactic(auto)]

ghost use Rattle.std.specs.Prelude.{◌≡◌, None, length, IfOk, IsErrOf, IsSomeAnd};
ghost use Rattle.poly.specs.Standing.{StandsFor};
ghost use Rattle.poly_text.specs.Flat.{flat_of};
ghost use Rattle.poly_text.specs.declared.FlatError.{FlatError};

mod cursor;
mod equation;
mod error;
mod flat_text;
mod item;
mod item_text;
pub mod laws;
pub mod lexemes;
mod number_reading;
mod number_writing;
mod printing;
pub mod sum_laws;
mod sums;
mod tokens;

pub use cursor::{Cursor, Read};
pub use equation::{PolyTextError, read_equation, read_poly, read_sum};
pub use error::{Refusal, TextError};
use frac128::Frac;
pub use lexemes::{Lexeme, Placed, next_item, next_lexeme};
use loop_model::Names;
use monos::Grevlex;
pub use number_reading::{is_number, read_number, read_numeral};
pub use number_writing::push_number;
use poly::Poly;
pub use printing::print_poly;
use std::alloc::Global;
pub use sums::{Part, SumReader};
use thiserror::Error;
pub use tokens::number_value;

/// Why a flat polynomial was not read.
#[derive(Clone, Copy, Debug, Error)]
pub enum FlatError {
    /// The text is no flat polynomial over the names.
    #[error("not a flat polynomial")]
    NotFlat,
    #[error("out of memory")]
    Memory,
}

/// The polynomial that the text is: items joined by `+` and `-`, each a number, powers of the names, or both joined by `*`.
/// `NotFlat` where the text is of another form, a number is above 2^127 - 1, a denominator is 0, an exponent of an item is above 65,535,
/// or two items have the same monomial.
pub fn read_flat(
    alloc: Global,
    text: &[u8],
    names: &Names,
) -> Result<Poly<Frac, Grevlex>, FlatError>
    ensures stands { IfOk result (λ p. IsSomeAnd (flat_of names.now text.now)
        (StandsFor (length names.now) p)) }
    ensures not_flat { IsErrOf result FlatError.NotFlat → flat_of names.now text.now ≡ None }
{
    let terms = match flat_text::read_items(alloc, text, names) {
        Ok(terms) => terms,
        Err(TextError::Memory) => return Err(FlatError::Memory),
        Err(_) => return Err(FlatError::NotFlat),
    };
    match Poly::from_distinct(alloc, Grevlex, names.len(), terms) {
        Ok(p) => Ok(p),
        Err(_) => Err(FlatError::Memory),
    }
}
