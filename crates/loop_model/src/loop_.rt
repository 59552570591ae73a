//! Loops: the names of their variables, the local names of their branches, what a start meets, and the branches.

ghost use Rattle.std.specs.Prelude.{◌≡◌, ◌<◌, ◌≤◌, length, map};
ghost use Rattle.loops.specs.WellFormed.{IsWellFormed};
ghost use Rattle.loops.specs.Limits.{IsWithinLimits};
ghost use Rattle.loop_model.specs.Parts.{parts, equation_of, statement_of};
ghost use Rattle.loop_model.specs.Limits.{names_limit};

use crate::{Init, Names, Statement};

/// A loop over 1 to 12 variables with at most 12 local names and 1 to 6 branches, within the limits that its text kept: names have at most
/// 32 bytes, all branches together 64 statements, and each right side 1,024 operators and no exponent above 16. Variables are set at most
/// once by `init`, each statement has a target, right sides have what they need, a branch sets each local name before it uses it, and no
/// divisor is 0. An index of a variable in a branch counts the variables and then the local names.
#[derive(Drop)]
pub struct Loop {
    names: Names,
    locals: Names,
    start: Vec<Init>,
    branches: Vec<Vec<Statement>>,
    pub ghost some_name: { 0 < length names },
    pub ghost few_names: { length names ≤ names_limit },
    pub ghost few_locals: { length locals ≤ names_limit },
    pub ghost some_branch: { 0 < length branches.items },
    pub ghost few_branches: { length branches.items ≤ 6 },
    pub ghost well_formed: { ∥ IsWellFormed (parts names locals start.items branches.items) ∥₁ },
    pub ghost limited: { ∥ IsWithinLimits (parts names locals start.items branches.items) ∥₁ },
}

impl Loop {
    ghost use Rattle.loop_model.specs.View.{program_of};

    /// The loop with these variables, local names, equations of a start and branches. Variables count from 0, by the names.
    pub fn new(names: Names, locals: Names, start: Vec<Init>, branches: Vec<Vec<Statement>>) -> Loop
        requires some_name { 0 < length names }
        requires well_formed { IsWellFormed (parts names locals start.items branches.items) }
        requires limited { IsWithinLimits (parts names locals start.items branches.items) }
        ensures { program_of result ≡ parts names locals start.items branches.items }
    {
        Loop {
            names,
            locals,
            start,
            branches,
        }
    }

    /// The names of the variables, in declared order.
    pub fn names(&self) -> &Names
        ensures names { result.now ≡ (program_of self.now).names }
        ensures some { 0 < length result.now }
        ensures few { length result.now ≤ names_limit }
    {
        &self.names
    }

    /// The local names, in declared order.
    pub fn locals(&self) -> &Names
        ensures locals { result.now ≡ (program_of self.now).locals }
        ensures few { length result.now ≤ names_limit }
    {
        &self.locals
    }

    /// What a start meets, in the order of the text.
    pub fn start(&self) -> &[Init]
        ensures { map equation_of result.now ≡ (program_of self.now).init }
    {
        &self.start
    }

    /// The branches, each with its statements in order.
    pub fn branches(&self) -> &[Vec<Statement>]
        ensures branches { map (λ b. map statement_of b.items) result.now
            ≡ (program_of self.now).branches }
        ensures some { 0 < length result.now }
        ensures few { length result.now ≤ 6 }
    {
        &self.branches
    }
}
