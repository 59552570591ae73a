//! What a trace gives.
use task_lists::{FullBranch, FullForm, FullStart};

/// The forms of the branches, in order; what the variables that `init` sets, each less its value, are
/// made of; and for each round what it has of each branch.
#[derive(Drop)]
pub struct Trace {
    pub forms: Vec<FullForm>,
    pub start: FullStart,
    pub rounds: Vec<Vec<FullBranch>>,
}
