//! The graph of a program, statement by statement.

ghost use Rattle.std.specs.Prelude.{◌<◌, ◌≤◌, ◌++◌, ◌+◌, suc, List, length, All, IfOk, IfErr};
ghost use Rattle.flows.specs.Chart as chart;
ghost use Rattle.flows.specs.Same.{IsSameGraph};
ghost use Rattle.flows.specs.Sides.{difference};
ghost use Rattle.poly.specs.Standing.{StandsFor};
ghost use Rattle.flows.specs.Chart.{Open, Edge, all_edges};
ghost use Rattle.program_model.specs.Limits.{most_names};
ghost use Rattle.program_model.specs.Program as program;
ghost use Rattle.program_model.specs.Program.{Mark};
ghost use Rattle.program_model.specs.WellFormed.{IsGuarded, IsBlock, IsComparison};
ghost use Rattle.program_model.specs.Code.{code_of};
ghost use Rattle.program_model.specs.SyntaxView.{guard_of, comparison_of};
ghost use Rattle.program_model.specs.StatementView.{statement_of, block_of};
ghost use Rattle.program_model.specs.ProgramView.{program_of};
ghost use Rattle.program_model.specs.Events.{AreFree, Stops, Makes};
ghost use Rattle.program_model.specs.PathEvents.{E, goal_events};
ghost use Rattle.program_model.specs.Points.{ArePoints};
ghost use Rattle.program_model.specs.Forming.{marks_of, marks_in, exits_of, edges_of, exits_in, edges_in, statement_events, block_events, program_events};
ghost use Rattle.program_model.specs.GraphView.{graph_of};
ghost use Rattle.program_model.specs.Graphs.{IsGraphOf};
ghost use Rattle.program_model.specs.UnderWay.{IsReady};
ghost use Rattle.program_model.specs.Fronts.{AreEdges, IsFront};

use crate::front::{Front, close_all, copy_all, enter_all, leave_all, step_all};
use crate::inverse::side;
use crate::path::Path;
use crate::{Comparison, Graph, Guard, Point, Program, Statement};
use frac128::Frac;
use loop_model::{MapError, free_state};
use monos::Grevlex;
use poly::Poly;
use std::alloc::Global;

/// The most open paths before an `if`, and behind one.
const MOST_SPLIT: usize = 32;

const MOST_OPEN: usize = 64;

impl Program {
    /// The graph of the program. `Limit` and `Wide` tell the first refusal in the order of forming, by the offset of its token.
    pub fn graph(&self, alloc: Global) -> Result<Graph, MapError>
        ensures points { let p = program_of self.now in
            IfOk result (λ g. ArePoints (length p.names) (marks_of p.statements) g.points.items) }
        ensures graph { IfOk result IsGraphOf }
        ensures same { let p = program_of self.now in
            IfOk result (λ g. IsSameGraph (graph_of g) (chart.graph (length p.names)
            (code_of p.statements))) }
        ensures edges { let p = program_of self.now in
            IfOk result (λ g. AreEdges (length p.names) (all_edges (code_of p.statements))
            g.transitions.items) }
        ensures free { IfOk result (λ _. AreFree (program_events (program_of self.now))) }
        ensures stops { IfErr result (Stops (program_events (program_of self.now))) }
    {
        let variables = self.names().len();
        let start = Path::begin(alloc, variables, 0)?;
        let front = Front {
            points: Vec::new(alloc),
            paths: vec![in alloc; start]?,
            transitions: Vec::new(alloc),
        };
        let front = behind_block(front, alloc, variables, self.statements())?;
        let end = front.points.len() + 1;
        let transitions = close_all(front.transitions, self.end(), end, front.paths)?;
        Ok(Graph {
            variables,
            points: front.points,
            nodes: end + 1,
            transitions,
        })
    }
}

/// Behind these statements.
#[cycle(behind_block)]
fn behind_block(
    front: Front,
    alloc: Global,
    variables: usize,
    statements: &Vec<Statement>,
) -> Result<Front, MapError>
    requires some { 0 < variables }
    requires few { variables ≤ most_names }
    requires ready { All (IsReady variables) front.paths.items }
    requires block { IsBlock variables (block_of statements.now.items) }
    ensures ready { IfOk result (λ f. All (IsReady variables) f.paths.items) }
    ensures makes { let b = block_of statements.now.items in
        (ps : List (Mark E)) (es : List (Edge E)) (os : List (Open E))
        → IsFront variables ps es os front
        → (let i = suc (length ps) in Makes (block_events variables i (length es) b os)
        (IsFront variables (ps ++ marks_of b) (es ++ edges_of i b os) (exits_of i b os)) result) }
{
    let mut front = front;
    for statement in statements {
        front = behind_statement(front, alloc, variables, statement)?;
    }
    Ok(front)
}

/// Behind this statement.
#[cycle(behind_block)]
fn behind_statement(
    front: Front,
    alloc: Global,
    variables: usize,
    statement: &Statement,
) -> Result<Front, MapError>
    requires some { 0 < variables }
    requires few { variables ≤ most_names }
    requires ready { All (IsReady variables) front.paths.items }
    requires statement { IsGuarded variables (statement_of statement.now) }
    ensures ready { IfOk result (λ f. All (IsReady variables) f.paths.items) }
    ensures makes { let s = statement_of statement.now in
        (ps : List (Mark E)) (es : List (Edge E)) (os : List (Open E))
        → IsFront variables ps es os front
        → (let i = suc (length ps) in Makes (statement_events variables i (length es) s os)
        (IsFront variables (ps ++ marks_in s) (es ++ edges_in i s os) (exits_in i s os)) result) }
{
    match statement {
        Statement::Do { step } => Ok(Front {
            points: front.points,
            paths: step_all(alloc, variables, step, front.paths)?,
            transitions: front.transitions,
        }),
        Statement::Assert { at, comparison } => behind_assert(
            front, alloc, variables, *at, comparison,
        ),
        Statement::If {
            at,
            guard,
            inner,
            other,
        } => behind_branch(front, alloc, variables, *at, guard, inner, other),
        Statement::While { at, guard, body } => behind_loop(
            front, alloc, variables, *at, guard, body,
        ),
    }
}

/// The goal of an assertion: its left side less its right side, where the variables may be anything.
fn goal_of(
    alloc: Global,
    variables: usize,
    comparison: &Comparison,
) -> Result<Poly<Frac, Grevlex>, MapError>
    requires few { variables ≤ most_names }
    requires comparison { IsComparison variables (comparison_of comparison.now) }
    ensures { let k = comparison_of comparison.now in Makes (goal_events variables k)
        (λ g. StandsFor variables g (difference variables k.left k.right)) result }
{
    let state = free_state(alloc, variables)?;
    side(alloc, comparison, &state)
}

/// Behind an assertion: its goal is formed, each path is a transition to its node, and goes on.
fn behind_assert(
    front: Front,
    alloc: Global,
    variables: usize,
    at: usize,
    comparison: &Comparison,
) -> Result<Front, MapError>
    requires few { variables ≤ most_names }
    requires ready { All (IsReady variables) front.paths.items }
    requires comparison { IsComparison variables (comparison_of comparison.now) }
    ensures ready { IfOk result (λ f. All (IsReady variables) f.paths.items) }
    ensures makes { let s = program.assert at (comparison_of comparison.now) in
        (ps : List (Mark E)) (es : List (Edge E)) (os : List (Open E))
        → IsFront variables ps es os front
        → (let i = suc (length ps) in Makes (statement_events variables i (length es) s os)
        (IsFront variables (ps ++ marks_in s) (es ++ edges_in i s os) (exits_in i s os)) result) }
{
    let goal = goal_of(alloc, variables, comparison)?;
    let paths = copy_all(alloc, &front.paths)?;
    let mut points = front.points;
    points.push(Point {
        at,
        goal: Some(goal),
    })?;
    let transitions = close_all(front.transitions, at, points.len(), front.paths)?;
    Ok(Front {
        points,
        paths,
        transitions,
    })
}

/// Behind `if`: where the guard lets in, through the one block, and then, where it lets past, through the other.
#[cycle(behind_block)]
fn behind_branch(
    front: Front,
    alloc: Global,
    variables: usize,
    at: usize,
    guard: &Guard,
    inner: &Vec<Statement>,
    other: &Vec<Statement>,
) -> Result<Front, MapError>
    requires some { 0 < variables }
    requires few { variables ≤ most_names }
    requires ready { All (IsReady variables) front.paths.items }
    requires guard { All (IsComparison variables) (guard_of guard.now).says }
    requires inner { IsBlock variables (block_of inner.now.items) }
    requires other { IsBlock variables (block_of other.now.items) }
    ensures ready { IfOk result (λ f. All (IsReady variables) f.paths.items) }
    ensures makes { let s = program.branch at (guard_of guard.now) (block_of inner.now.items)
        (block_of other.now.items) in
        (ps : List (Mark E)) (es : List (Edge E)) (os : List (Open E))
        → IsFront variables ps es os front
        → (let i = suc (length ps) in Makes (statement_events variables i (length es) s os)
        (IsFront variables (ps ++ marks_in s) (es ++ edges_in i s os) (exits_in i s os)) result) }
{
    if front.paths.len() > MOST_SPLIT {
        return Err(MapError::Limit { at });
    }
    let outside = copy_all(alloc, &front.paths)?;
    let entering = Front {
        points: front.points,
        paths: enter_all(alloc, variables, guard, front.paths)?,
        transitions: front.transitions,
    };
    let inside = behind_block(entering, alloc, variables, inner)?;
    let leaving = Front {
        points: inside.points,
        paths: leave_all(alloc, variables, guard, outside)?,
        transitions: inside.transitions,
    };
    let front = behind_block(leaving, alloc, variables, other)?;
    let mut paths = inside.paths;
    let mut others = front.paths;
    paths.append(&mut others)?;
    if paths.len() > MOST_OPEN {
        return Err(MapError::Limit { at });
    }
    Ok(Front {
        points: front.points,
        paths,
        transitions: front.transitions,
    })
}

/// Behind `while`: the paths end at its head. From there, where the guard lets in, one goes through the body and back; open is the one that the guard lets past.
#[cycle(behind_block)]
fn behind_loop(
    front: Front,
    alloc: Global,
    variables: usize,
    at: usize,
    guard: &Guard,
    body: &Vec<Statement>,
) -> Result<Front, MapError>
    requires some { 0 < variables }
    requires few { variables ≤ most_names }
    requires ready { All (IsReady variables) front.paths.items }
    requires guard { All (IsComparison variables) (guard_of guard.now).says }
    requires body { IsBlock variables (block_of body.now.items) }
    ensures ready { IfOk result (λ f. All (IsReady variables) f.paths.items) }
    ensures makes { let s = program.loop at (guard_of guard.now) (block_of body.now.items) in
        (ps : List (Mark E)) (es : List (Edge E)) (os : List (Open E))
        → IsFront variables ps es os front
        → (let i = suc (length ps) in Makes (statement_events variables i (length es) s os)
        (IsFront variables (ps ++ marks_in s) (es ++ edges_in i s os) (exits_in i s os)) result) }
{
    let mut points = front.points;
    points.push(Point { at, goal: None })?;
    let head = points.len();
    let transitions = close_all(front.transitions, at, head, front.paths)?;
    let here = vec![in alloc; Path::begin(alloc, variables, head)?]?;
    let outside = copy_all(alloc, &here)?;
    let entering = Front {
        points,
        paths: enter_all(alloc, variables, guard, here)?,
        transitions,
    };
    let inside = behind_block(entering, alloc, variables, body)?;
    let transitions = close_all(inside.transitions, at, head, inside.paths)?;
    Ok(Front {
        points: inside.points,
        paths: leave_all(alloc, variables, guard, outside)?,
        transitions,
    })
}
