//! The stages of a chain.

ghost use Rattle.std.specs.Prelude.{◌≡◌, IfOk};
ghost use Rattle.std.specs.List.{All};
ghost use Rattle.loop_model.specs.View.{program_of};
ghost use Rattle.loops.specs.Chain.{loop_of};
ghost use Rattle.loop_runs.specs.Parts.{AreFurther, CanFollow, IsLoop, IsStageOf, branches_in, stage_of, stage_read, stages_in, stages_read};

use crate::stage::{Stage, StageParts};
use loop_model::{Loop, Names, Statement};
use std::alloc::{AllocError, Global};

/// A copy of these names.
fn copy_names(alloc: Global, names: &Names) -> Result<Names, AllocError>
    ensures { IfOk result (λ copy. copy ≡ names.now) }
{
    let mut copy = Names::empty(alloc);
    for index in 0..names.len() {
        copy.push_new(names.name(index).as_bytes())?;
    }
    Ok(copy)
}

/// The loop with these branches over the variables and the local names of the first, which sets none before it begins.
fn further_loop(
    alloc: Global,
    first: &Loop,
    branches: Vec<Vec<Statement>>,
) -> Result<Loop, AllocError>
    requires { IsLoop (loop_of (program_of first.now) (branches_in branches.items)) }
    ensures { IfOk result (λ l.
        program_of l ≡ loop_of (program_of first.now) (branches_in branches.items)) }
{
    let names = copy_names(alloc, first.names())?;
    let locals = copy_names(alloc, first.locals())?;
    Ok(Loop::new(names, locals, Vec::new(alloc), branches))
}

/// The stage of these statements over the variables and the local names of the first loop.
fn further_stage(alloc: Global, first: &Loop, parts: StageParts) -> Result<Stage, AllocError>
    requires { CanFollow (program_of first.now) parts }
    ensures alike { IfOk result (IsStageOf (program_of first.now)) }
    ensures stage { IfOk result (λ g. stage_of g ≡ stage_read parts) }
{
    let StageParts { code, branches } = parts;
    let mut once = Vec::new(alloc);
    once.push(code)?;
    let code = further_loop(alloc, first, once)?;
    let body = further_loop(alloc, first, branches)?;
    Ok(Stage { code, body })
}

/// The stages of these statements over the variables and the local names of the first loop.
pub fn further_stages(
    alloc: Global,
    first: &Loop,
    mut parts: Vec<StageParts>,
) -> Result<Vec<Stage>, AllocError>
    requires { All (CanFollow (program_of first.now)) parts.items }
    ensures alike { IfOk result (λ stages. AreFurther first.now stages.items) }
    ensures stages { IfOk result (λ stages. stages_in stages.items ≡ stages_read parts.items) }
{
    let mut stages = Vec::new(alloc);
    while !parts.is_empty() {
        let part = parts.remove(0);
        stages.push(further_stage(alloc, first, part)?)?;
    }
    Ok(stages)
}
