//! Sequences as a loop: an iteration goes from n to n + 1.

ghost use Rattle.std.specs.Prelude.{◌≡◌, ◌≤◌, ℕ, List, IfOk};
ghost use Rattle.loops.specs.Limits.{most_names};
ghost use Rattle.loops.specs.Program as loops;
ghost use Rattle.loops.specs.Turning.{places};
ghost use Rattle.loop_text.specs.LoopLayout.{total, starts};
ghost use Rattle.loop_text.specs.SeqReader.{sequences_in};
ghost use Rattle.loop_text.specs.Firsts.{behind_all};
ghost use Rattle.loop_text.specs.SequenceSeen.{IsIteration, HasIteration, IsLoopOf};

use crate::Seqs;
use crate::sequence_firsts::Firsts;
use loop_model::{Expr, Loop, Names, Statement};
use std::alloc::{AllocError, Global};

/// The places of so many variables.
fn all_places(alloc: Global, vars: usize) -> Result<Vec<usize>, AllocError>
    ensures { IfOk result (λ is. is.items ≡ places 0 vars) }
{
    let mut places = Vec::new(alloc);
    for var in 0..vars {
        places.push(var)?;
    }
    Ok(places)
}

/// The place of the first variable of each sequence.
#[tactic(auto, unfolding(loops::specs::Limits::most_names))]
fn first_places(alloc: Global, orders: &[usize]) -> Result<Vec<usize>, AllocError>
    requires { total orders.now ≤ most_names }
    ensures { IfOk result (λ is. is.items ≡ starts 0 orders.now) }
{
    let mut places = Vec::new(alloc);
    let mut var = 0;
    for order in orders {
        places.push(var)?;
        var += *order;
    }
    Ok(places)
}

/// The loop of the sequences: at the start the variables have the values that are given, and in an iteration they become these.
pub fn with_iteration(
    alloc: Global,
    firsts: Firsts,
    iteration: Vec<Expr>,
) -> Result<Seqs, AllocError>
    requires { HasIteration firsts iteration.items }
    ensures { (ns : List (loops.Expr ℕ)) → IsIteration firsts ns iteration.items →
        IfOk result (λ s. IsLoopOf s (sequences_in (behind_all firsts ns))) }
{
    let targets = all_places(alloc, firsts.variables.len())?;
    let shown = first_places(alloc, &firsts.orders)?;
    let mut statements = Vec::new(alloc);
    statements.push(Statement {
        targets,
        values: iteration,
    })?;
    let mut branches = Vec::new(alloc);
    branches.push(statements)?;
    let locals = Names::empty(alloc);
    let lp = Loop::new(firsts.variables, locals, firsts.start, branches);
    Ok(Seqs {
        lp,
        shown,
        names: firsts.sequences,
    })
}
