//! Statements and equations: the parts of a loop.

use crate::Expr;

/// What a start meets: the variable at this position has this value.
#[derive(Drop)]
pub struct Init {
    pub var: usize,
    pub value: Expr,
}

/// Sets each target to the value at its place; all values are computed before.
#[derive(Drop)]
pub struct Statement {
    pub targets: Vec<usize>,
    pub values: Vec<Expr>,
}
