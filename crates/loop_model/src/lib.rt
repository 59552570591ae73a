//! Loops as values: names, expressions with the polynomials that they form, statements, and the maps of branches and of the start.
//!
//! Proved: a `Loop` is well formed and within the limits of texts, and its maps are the definition's; an expression gives its polynomial,
//! or the first operator that passes a limit, or one that is too wide, with none before it that passes a limit.
//!
//! Notion: programs: the article.
#![tactic(auto)]

mod expr;
mod forming;
pub mod laws;
mod loop_;
mod map_error;
mod maps;
mod names;
mod names_error;
mod state;
mod statement;
pub mod words;

pub use expr::{BinaryOperator, Expr, UnaryOperator};
pub use forming::{difference, expr_poly, product, sum};
pub use loop_::Loop;
pub use map_error::MapError;
pub use maps::after;
pub use names::{MOST_BYTES, Names};
pub use names_error::NamesError;
pub use state::free_state;
pub use statement::{Init, Statement};
pub use words::Keyword;
