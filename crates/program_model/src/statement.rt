//! Statements, with what stands inside of them.

use crate::{Comparison, Guard, Step};

/// A statement. `at` is the offset of its first token. A `for` is its first assignment, and a `while` whose body ends with the second.
#[derive(Drop)]
pub enum Statement {
    Do {
        step: Step,
    },
    Assert {
        at: usize,
        comparison: Comparison,
    },
    If {
        at: usize,
        guard: Guard,
        inner: Vec<Statement>,
        other: Vec<Statement>,
    },
    While {
        at: usize,
        guard: Guard,
        body: Vec<Statement>,
    },
}
