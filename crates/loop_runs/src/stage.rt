//! Stages: code that is done once, and the loop behind it.

use loop_model::{Loop, Statement};

/// A loop behind others, and the code before it. Both are over the variables and the local names of the chain's first loop. The code, which is done once, is the one branch of `code`; it may have no statements.
#[derive(Drop)]
pub struct Stage {
    pub code: Loop,
    pub body: Loop,
}

/// The statements of a stage: its code, and the branches of its loop.
#[derive(Drop)]
pub struct StageParts {
    pub code: Vec<Statement>,
    pub branches: Vec<Vec<Statement>>,
}
