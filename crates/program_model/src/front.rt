//! How far forming has come: points, transitions, and open paths, which go on all at once.

ghost use Rattle.std.specs.Prelude.{ℕ, ◌++◌, [], List, length, map, IfOk};
ghost use Rattle.std.specs.List.{All, flat_map};
ghost use Rattle.flows.specs.Chart.{Open, Edge, then_step, closed};
ghost use Rattle.flows.specs.Steps as steps;
ghost use Rattle.program_model.specs.WellFormed.{IsComparison, IsStep};
ghost use Rattle.program_model.specs.Code.{step_code};
ghost use Rattle.program_model.specs.SyntaxView.{step_of, guard_of};
ghost use Rattle.program_model.specs.Events.{Makes};
ghost use Rattle.program_model.specs.PathEvents.{E, step_events};
ghost use Rattle.program_model.specs.Forming.{entering, leaving, entering_events, leaving_events, closings};
ghost use Rattle.program_model.specs.UnderWay.{IsUnderWay, IsReady, AreOpen};
ghost use Rattle.program_model.specs.Fronts.{IsEdge, AreEdges};

use crate::path::Path;
use crate::{Guard, Point, Step, Transition};
use loop_model::MapError;
use std::alloc::{AllocError, Global};

/// The most transitions of a graph.
const MOST_TRANSITIONS: usize = 256;

/// The points so far, the open paths, and the transitions.
#[derive(Drop)]
pub(crate) struct Front {
    pub(crate) points: Vec<Point>,
    pub(crate) paths: Vec<Path>,
    pub(crate) transitions: Vec<Transition>,
}

/// The path as a transition to this node.
fn close(path: Path, to: usize) -> Transition
    requires { IsReady path.variables path }
    ensures { (n u : ℕ) (cs : List (steps.Step E)) → IsUnderWay n u cs [] path
        → IsEdge n (record { from = u; to = to; steps = cs }) result }
{
    Transition {
        from: path.from,
        to,
        unknowns: path.unknowns,
        zeros: path.zeros,
        images: path.images,
    }
}

/// The transitions, and behind them the paths as transitions to this node, whose token stands at this offset.
pub(crate) fn close_all(
    transitions: Vec<Transition>,
    at: usize,
    to: usize,
    paths: Vec<Path>,
) -> Result<Vec<Transition>, MapError>
    requires { All (λ p. IsReady p.variables p) paths.items }
    ensures { (n : ℕ) (es : List (Edge E)) (os : List (Open E))
        → AreEdges n es transitions.items → AreOpen n os paths.items
        → Makes (closings at (length es) os)
        (λ ts. AreEdges n (es ++ map (closed to) os) ts.items) result }
{
    let mut transitions = transitions;
    for path in paths {
        if transitions.len() >= MOST_TRANSITIONS {
            return Err(MapError::Limit { at });
        }
        transitions.push(close(path, to))?;
    }
    Ok(transitions)
}

/// Each path again.
pub(crate) fn copy_all(alloc: Global, paths: &Vec<Path>) -> Result<Vec<Path>, AllocError>
    ensures ready { (n : ℕ) → All (IsReady n) paths.now.items
        → IfOk result (λ ps. All (IsReady n) ps.items) }
    ensures paths { (n : ℕ) (os : List (Open E)) → AreOpen n os paths.now.items
        → IfOk result (λ ps. AreOpen n os ps.items) }
{
    let mut again = Vec::new(alloc);
    for path in paths {
        again.push(path.copy(alloc)?)?;
    }
    Ok(again)
}

/// Each path behind one step more.
pub(crate) fn step_all(
    alloc: Global,
    variables: usize,
    step: &Step,
    paths: Vec<Path>,
) -> Result<Vec<Path>, MapError>
    requires ready { All (IsReady variables) paths.items }
    requires step { IsStep variables (step_of step.now) }
    ensures ready { IfOk result (λ ps. All (IsReady variables) ps.items) }
    ensures makes { (os : List (Open E)) → AreOpen variables os paths.items
        → Makes (flat_map (λ o. step_events variables o.steps (step_of step.now)) os)
        (λ ps. AreOpen variables (map (then_step (step_code (step_of step.now))) os) ps.items)
        result }
{
    let mut next = Vec::new(alloc);
    for path in paths {
        next.push(path.step(alloc, step)?)?;
    }
    Ok(next)
}

/// Each path where the comparisons of the guard are true.
pub(crate) fn enter_all(
    alloc: Global,
    variables: usize,
    guard: &Guard,
    paths: Vec<Path>,
) -> Result<Vec<Path>, MapError>
    requires ready { All (IsReady variables) paths.items }
    requires says { All (IsComparison variables) (guard_of guard.now).says }
    ensures ready { IfOk result (λ ps. All (IsReady variables) ps.items) }
    ensures makes { (os : List (Open E)) → AreOpen variables os paths.items
        → Makes (entering_events variables (guard_of guard.now) os)
        (λ ps. AreOpen variables (map (entering (guard_of guard.now)) os) ps.items) result }
{
    let mut next = Vec::new(alloc);
    for path in paths {
        next.push(path.enter(alloc, guard)?)?;
    }
    Ok(next)
}

/// Each path past the guard.
pub(crate) fn leave_all(
    alloc: Global,
    variables: usize,
    guard: &Guard,
    paths: Vec<Path>,
) -> Result<Vec<Path>, MapError>
    requires ready { All (IsReady variables) paths.items }
    requires says { All (IsComparison variables) (guard_of guard.now).says }
    ensures ready { IfOk result (λ ps. All (IsReady variables) ps.items) }
    ensures makes { (os : List (Open E)) → AreOpen variables os paths.items
        → Makes (leaving_events variables (guard_of guard.now) os)
        (λ ps. AreOpen variables (map (leaving (guard_of guard.now)) os) ps.items) result }
{
    let mut next = Vec::new(alloc);
    for path in paths {
        next.push(path.leave(alloc, guard)?)?;
    }
    Ok(next)
}
