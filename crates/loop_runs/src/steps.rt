//! Steps of a run: statements, branches and iterations.

ghost use Rattle.std.specs.Prelude.{◌≡◌, ◌<◌, ◌≤◌, ◌+◌, length, map, IfSome, IfOk, IfErr};
ghost use Rattle.std.specs.List.{All};
ghost use Rattle.loops.specs.Effect.{store as stored};
ghost use Rattle.loops.specs.WellFormed.{Uses, IsStatement};
ghost use Rattle.loop_model.specs.ExpressionView.{expr_of as expression};
ghost use Rattle.loop_model.specs.Parts.{statement_of};
ghost use Rattle.loop_runs.specs.Replay.{values, statement_end, branch_end, iteration_end};
ghost use Rattle.loop_runs.specs.Seen.{numbers_of, seen_state, IsWithin};
ghost use Rattle.loop_model.specs.Limits.{all_names_limit};

use crate::RunError;
use crate::values::value_at;
use frac128::Frac;
use loop_model::{Expr, Statement};
use ring_laws::Ring;
use std::alloc::Global;

/// The values of the right sides at the state, one for each target.
fn values_at(
    alloc: Global,
    targets: &[usize],
    right_sides: &[Expr],
    state: &[Frac],
    step: usize,
) -> Result<Vec<Frac>, RunError>
    requires sizes { length targets.now ≡ length right_sides.now }
    requires targets { All (λ i. i < length state.now) targets.now }
    requires uses { All (λ e. Uses (λ i. i < length state.now) (expression e)) right_sides.now }
    ensures values { IfSome (seen_state result)
        (λ r. r ≡ values step targets.now (map expression right_sides.now) (numbers_of state.now)) }
    ensures len { IfOk result (λ found. length found.items ≡ length targets.now) }
    ensures within { IfErr result (λ e. IsWithin (length state.now) e) }
{
    let mut found = Vec::new(alloc);
    for (target, right_side) in targets.iter().zip(right_sides) {
        let Ok(value) = value_at(right_side, state) else {
            return Err(RunError::Wide { step, var: *target });
        };
        found.push(value)?;
    }
    Ok(found)
}

/// Stores each value at its target.
fn store(targets: &[usize], values: &[Frac], state: &mut [Frac])
    requires sizes { length targets.now ≡ length values.now }
    requires targets { All (λ i. i < length state.old) targets.now }
    ensures { state.new ≡ stored targets.now values.now state.old }
{
    for (target, value) in targets.iter().zip(values) {
        state[*target] = *value;
    }
}

/// The state after the statement.
fn after_statement(
    alloc: Global,
    statement: &Statement,
    mut state: Vec<Frac>,
    step: usize,
) -> Result<Vec<Frac>, RunError>
    requires { IsStatement (length state.items) (statement_of statement.now) }
    ensures end { IfSome (seen_state result)
        (λ r. r ≡ statement_end step (statement_of statement.now) (numbers_of state.items)) }
    ensures len { IfOk result (λ after. length after.items ≡ length state.items) }
    ensures within { IfErr result (λ e. IsWithin (length state.items) e) }
{
    let values = values_at(alloc, &statement.targets, &statement.values, &state, step)?;
    store(&statement.targets, &values, &mut state);
    Ok(state)
}

/// The state after the statements of a branch.
fn after_branch(
    alloc: Global,
    branch: &[Statement],
    mut state: Vec<Frac>,
    step: usize,
) -> Result<Vec<Frac>, RunError>
    requires { All (λ s. IsStatement (length state.items) (statement_of s)) branch.now }
    ensures end { IfSome (seen_state result)
        (λ r. r ≡ branch_end step (map statement_of branch.now) (numbers_of state.items)) }
    ensures len { IfOk result (λ after. length after.items ≡ length state.items) }
    ensures within { IfErr result (λ e. IsWithin (length state.items) e) }
{
    for statement in branch {
        state = after_statement(alloc, statement, state, step)?;
    }
    Ok(state)
}

/// The variables after the branch; before it so many local names are 0, and after it they are dropped.
pub fn after_iteration(
    alloc: Global,
    branch: &[Statement],
    mut state: Vec<Frac>,
    locals: usize,
    step: usize,
) -> Result<Vec<Frac>, RunError>
    requires few { length state.items + locals ≤ all_names_limit }
    requires statements { All
        (λ s. IsStatement (length state.items + locals) (statement_of s)) branch.now }
    ensures end { IfSome (seen_state result)
        (λ r. r ≡ iteration_end (length state.items) locals step (map statement_of branch.now)
        (numbers_of state.items)) }
    ensures len { IfOk result (λ after. length after.items ≡ length state.items) }
    ensures within { IfErr result (λ e. IsWithin (length state.items + locals) e) }
{
    let variables = state.len();
    state.resize(variables + locals, Frac::zero())?;
    let mut after = after_branch(alloc, branch, state, step)?;
    after.truncate(variables);
    Ok(after)
}
