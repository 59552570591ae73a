//! The parts of programs: comparisons, divisors, assignments, steps, guards.

use loop_model::{Expr, Statement as Values};

/// Two sides, and whether they are to be equal or to differ. `at` is the offset of the sign between them.
#[derive(Drop)]
pub struct Comparison {
    pub at: usize,
    pub equal: bool,
    pub left: Expr,
    pub right: Expr,
}

/// What the `/` at this offset divides by, that isn't a number. Its inverse is the variable behind the names and the inverses before it.
#[derive(Drop)]
pub struct Divisor {
    pub at: usize,
    pub value: Expr,
}

/// Values to targets, all at once. They use the names and, behind these, the inverses of the divisors.
#[derive(Drop)]
pub struct Assignment {
    pub divisors: Vec<Divisor>,
    pub statement: Values,
}

/// What leads from a state to another: an assignment, any value to the target, or a comparison that is true.
#[derive(Drop)]
pub enum Step {
    Assign { assignment: Assignment },
    Any { at: usize, target: usize },
    Assume { comparison: Comparison },
}

/// The comparisons that the parts of a guard say, and whether it has one part alone.
#[derive(Drop)]
pub struct Guard {
    pub says: Vec<Comparison>,
    pub alone: bool,
}
