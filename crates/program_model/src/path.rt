//! Open paths: transitions whose end isn't known yet.

ghost use Rattle.std.specs.Prelude.{◌≡◌, ◌≤◌, ◌<◌, ◌+◌, ◌++◌, ◌∷◌, [], ℕ, List, length, map, suc, IfOk};
ghost use Rattle.std.specs.List.{All, AllZip};
ghost use Rattle.loops.specs.WellFormed.{Uses, IsStatement};
ghost use Rattle.flows.specs.Steps as steps;
ghost use Rattle.flows.specs.Steps.{assign, choose, equal, differ};
ghost use Rattle.loop_model.specs.ExpressionView.{expr_of};
ghost use Rattle.loop_model.specs.Operations.{operations_all};
ghost use Rattle.loop_model.specs.Parts.{statement_of};
ghost use Rattle.program_model.specs.Program as program;
ghost use Rattle.program_model.specs.Limits.{most_names};
ghost use Rattle.program_model.specs.WellFormed.{IsAssignment, IsComparison, IsStep};
ghost use Rattle.program_model.specs.Code.{step_code};
ghost use Rattle.program_model.specs.Widening.{IsWidened};
ghost use Rattle.program_model.specs.SyntaxView.{comparison_of, divisor_of, assignment_of, step_of, guard_of};
ghost use Rattle.program_model.specs.Events.{Makes, all_formed};
ghost use Rattle.program_model.specs.PathEvents.{E, places, behind, at_path, inverted, side, divisor_events, assign_events, compare_events, step_events, asked, true_steps, false_steps, true_events, false_events};
ghost use Rattle.program_model.specs.UnderWay.{HasRoom, IsUnderWay, IsReady};

use crate::inverse::{MOST_UNKNOWNS, invert, side};
use crate::widening::{copies, widened_all};
use crate::{Assignment, Comparison, Divisor, Guard, Step};
use frac128::Frac;
use loop_model::{MapError, Statement, after, expr_poly, free_state};
use monos::Grevlex;
use poly::Poly;
use std::alloc::{AllocError, Global};

/// A path of steps that has no end yet: of so many variables, where it comes from, its unknowns, what has to be 0, and what the variables are then.
#[derive(Drop)]
pub(crate) struct Path {
    pub(crate) variables: usize,
    pub(crate) from: usize,
    pub(crate) unknowns: usize,
    pub(crate) zeros: Vec<Poly<Frac, Grevlex>>,
    pub(crate) images: Vec<Poly<Frac, Grevlex>>,
}

impl Path {
    /// The path of no step from a node.
    pub(crate) fn begin(alloc: Global, variables: usize, from: usize) -> Result<Path, AllocError>
        requires some { 0 < variables }
        requires few { variables ≤ most_names }
        ensures ready { IfOk result (IsReady variables) }
        ensures way { IfOk result (IsUnderWay variables from [] []) }
    {
        let images = free_state(alloc, variables)?;
        Ok(Path {
            variables,
            from,
            unknowns: 0,
            zeros: Vec::new(alloc),
            images,
        })
    }

    /// A path with the same polynomials.
    pub(crate) fn copy(&self, alloc: Global) -> Result<Path, AllocError>
        ensures ready { (n : ℕ) → IsReady n self.now → IfOk result (IsReady n) }
        ensures way { (n u : ℕ) (cs : List (steps.Step E)) → IsUnderWay n u cs [] self.now
            → IfOk result (IsUnderWay n u cs []) }
    {
        let zeros = copies(alloc, &self.zeros)?;
        let images = copies(alloc, &self.images)?;
        Ok(Path {
            variables: self.variables,
            from: self.from,
            unknowns: self.unknowns,
            zeros,
            images,
        })
    }

    /// The path with one unknown more, which stands in none of its polynomials.
    fn widen(self, alloc: Global) -> Result<Path, AllocError>
        requires { HasRoom self }
        ensures variables { IfOk result (λ p. p.variables ≡ self.variables) }
        ensures from { IfOk result (λ p. p.from ≡ self.from) }
        ensures unknowns { IfOk result (λ p. p.unknowns ≡ suc self.unknowns) }
        ensures zeros { IfOk result (λ p. AllZip (IsWidened self.unknowns) self.zeros.items
            p.zeros.items) }
        ensures images { IfOk result (λ p. AllZip (IsWidened self.unknowns) self.images.items
            p.images.items) }
    {
        let at = self.unknowns;
        let zeros = widened_all(alloc, at, &self.zeros)?;
        let images = widened_all(alloc, at, &self.images)?;
        Ok(Path {
            variables: self.variables,
            from: self.from,
            unknowns: at + 1,
            zeros,
            images,
        })
    }

    /// One divisor more: its inverse is a new unknown, which stands behind the images.
    fn divide(self, alloc: Global, divisor: &Divisor) -> Result<Path, MapError>
        requires room { HasRoom self }
        requires uses { Uses (λ i. i < length self.images.items) (expr_of divisor.now.value) }
        ensures room { IfOk result HasRoom }
        ensures variables { IfOk result (λ p. p.variables ≡ self.variables) }
        ensures count { IfOk result (λ p. length p.images.items
            ≡ suc (length self.images.items)) }
        ensures makes { (n u : ℕ) (cs : List (steps.Step E)) (ds : List E)
            → IsUnderWay n u cs ds self
            → Makes (divisor_events n cs (length ds) (divisor_of divisor.now))
            (IsUnderWay n u cs (ds ++ expr_of divisor.now.value ∷ [])) result }
    {
        let mut path = self.widen(alloc)?;
        let last = path.unknowns - 1;
        let value = expr_poly(alloc, &divisor.value, &path.images)?;
        let inverse = invert(alloc, divisor.at, last, &value)?;
        path.zeros.push(inverse.zero)?;
        path.images.push(inverse.unknown)?;
        Ok(path)
    }

    /// The path where both sides are equal.
    fn equal(self, alloc: Global, comparison: &Comparison) -> Result<Path, MapError>
        requires ready { IsReady self.variables self }
        requires comparison { IsComparison self.variables (comparison_of comparison.now) }
        ensures ready { IfOk result (IsReady self.variables) }
        ensures makes { (n u : ℕ) (cs : List (steps.Step E)) → IsUnderWay n u cs [] self
            → Makes (at_path n cs 0 0 (side (comparison_of comparison.now))) (IsUnderWay n u
            (cs ++ equal (expr_of comparison.now.left) (expr_of comparison.now.right) ∷ []) [])
            result }
    {
        let zero = side(alloc, comparison, &self.images)?;
        let mut path = self;
        path.zeros.push(zero)?;
        Ok(path)
    }

    /// The path where the sides differ: the inverse of the difference is a new unknown.
    fn differ(self, alloc: Global, comparison: &Comparison) -> Result<Path, MapError>
        requires ready { IsReady self.variables self }
        requires comparison { IsComparison self.variables (comparison_of comparison.now) }
        ensures ready { IfOk result (IsReady self.variables) }
        ensures makes { (n u : ℕ) (cs : List (steps.Step E)) → IsUnderWay n u cs [] self
            → Makes (inverted n cs 0 1 comparison.now.at (side (comparison_of comparison.now)))
            (IsUnderWay n u
            (cs ++ differ (expr_of comparison.now.left) (expr_of comparison.now.right) ∷ []) [])
            result }
    {
        let mut path = self.widen(alloc)?;
        let last = path.unknowns - 1;
        let side = side(alloc, comparison, &path.images)?;
        let inverse = invert(alloc, comparison.at, last, &side)?;
        path.zeros.push(inverse.zero)?;
        Ok(path)
    }

    /// The path where the comparison is true, or, with `holds` false, where it is false.
    fn compare(self, alloc: Global, comparison: &Comparison, holds: bool) -> Result<Path, MapError>
        requires ready { IsReady self.variables self }
        requires comparison { IsComparison self.variables (comparison_of comparison.now) }
        ensures ready { IfOk result (IsReady self.variables) }
        ensures makes { (n u : ℕ) (cs : List (steps.Step E)) → IsUnderWay n u cs [] self
            → Makes (compare_events n cs (comparison_of comparison.now) holds) (IsUnderWay n u
            (cs ++ asked holds (comparison_of comparison.now) ∷ []) []) result }
    {
        if comparison.equal == holds {
            self.equal(alloc, comparison)
        } else {
            self.differ(alloc, comparison)
        }
    }

    /// Any value to the target: a new unknown.
    fn choose(self, alloc: Global, at: usize, target: usize) -> Result<Path, MapError>
        requires ready { IsReady self.variables self }
        requires target { target < self.variables }
        ensures ready { IfOk result (IsReady self.variables) }
        ensures makes { (n u : ℕ) (cs : List (steps.Step E)) → IsUnderWay n u cs [] self
            → Makes (step_events n cs (program.choose at target))
            (IsUnderWay n u (cs ++ choose target ∷ []) []) result }
    {
        if self.unknowns >= MOST_UNKNOWNS {
            return Err(MapError::Limit { at });
        }
        let mut path = self.widen(alloc)?;
        let last = path.unknowns - 1;
        let unknown = Poly::variable(alloc, Grevlex, path.unknowns + path.variables, last)?;
        path.images[target] = unknown;
        Ok(path)
    }

    /// The path behind an assignment whose divisors are done.
    fn store(self, alloc: Global, statement: &Statement) -> Result<Path, MapError>
        requires room { HasRoom self }
        requires targets { All (λ i. i < self.variables) statement.now.targets.items }
        requires statement { IsStatement (length self.images.items) (statement_of statement.now) }
        ensures ready { IfOk result (IsReady self.variables) }
        ensures makes { (n u : ℕ) (cs : List (steps.Step E)) (ds : List E)
            → IsUnderWay n u cs ds self
            → Makes (all_formed (places n cs (length ds)) (operations_all (places n cs (length ds))
            (behind n cs (length ds) (length ds)) (map expr_of statement.now.values.items)))
            (IsUnderWay n u (cs ++ assign ds statement.now.targets.items
            (map expr_of statement.now.values.items) ∷ []) []) result }
    {
        let mut images = after(alloc, statement, self.images)?;
        images.truncate(self.variables);
        Ok(Path {
            variables: self.variables,
            from: self.from,
            unknowns: self.unknowns,
            zeros: self.zeros,
            images,
        })
    }

    /// The path behind an assignment: its divisors in turn, then its values, which are all computed before one is stored.
    fn assign(self, alloc: Global, assignment: &Assignment) -> Result<Path, MapError>
        requires ready { IsReady self.variables self }
        requires assignment { IsAssignment self.variables (assignment_of assignment.now) }
        ensures ready { IfOk result (IsReady self.variables) }
        ensures makes { (n u : ℕ) (cs : List (steps.Step E)) → IsUnderWay n u cs [] self
            → Makes (assign_events n cs (assignment_of assignment.now)) (IsUnderWay n u
            (cs ++ step_code (program.assign
            (assignment_of assignment.now)) ∷ []) []) result }
    {
        let mut path = self;
        for divisor in &assignment.divisors {
            path = path.divide(alloc, divisor)?;
        }
        path.store(alloc, &assignment.statement)
    }

    /// The path behind one step more.
    pub(crate) fn step(self, alloc: Global, step: &Step) -> Result<Path, MapError>
        requires ready { IsReady self.variables self }
        requires step { IsStep self.variables (step_of step.now) }
        ensures ready { IfOk result (IsReady self.variables) }
        ensures makes { (n u : ℕ) (cs : List (steps.Step E)) → IsUnderWay n u cs [] self
            → Makes (step_events n cs (step_of step.now)) (IsUnderWay n u
            (cs ++ step_code (step_of step.now) ∷ []) []) result }
    {
        match step {
            Step::Assign { assignment } => self.assign(alloc, assignment),
            Step::Any { at, target } => self.choose(alloc, *at, *target),
            Step::Assume { comparison } => self.compare(alloc, comparison, true),
        }
    }

    /// The path where each comparison of a guard is true.
    pub(crate) fn enter(self, alloc: Global, guard: &Guard) -> Result<Path, MapError>
        requires ready { IsReady self.variables self }
        requires says { All (IsComparison self.variables) (guard_of guard.now).says }
        ensures ready { IfOk result (IsReady self.variables) }
        ensures makes { (n u : ℕ) (cs : List (steps.Step E)) → IsUnderWay n u cs [] self
            → Makes (true_events n cs (guard_of guard.now).says) (IsUnderWay n u
            (cs ++ true_steps (guard_of guard.now).says) []) result }
    {
        let mut path = self;
        for comparison in &guard.says {
            path = path.compare(alloc, comparison, true)?;
        }
        Ok(path)
    }

    /// The path past a guard: the comparison is false, where the guard has one part alone, which says one.
    pub(crate) fn leave(self, alloc: Global, guard: &Guard) -> Result<Path, MapError>
        requires ready { IsReady self.variables self }
        requires says { All (IsComparison self.variables) (guard_of guard.now).says }
        ensures ready { IfOk result (IsReady self.variables) }
        ensures makes { (n u : ℕ) (cs : List (steps.Step E)) → IsUnderWay n u cs [] self
            → Makes (false_events n cs guard.now.alone (guard_of guard.now).says) (IsUnderWay n u
            (cs ++ false_steps guard.now.alone (guard_of guard.now).says) []) result }
    {
        if guard.alone && guard.says.len() == 1 {
            self.compare(alloc, &guard.says[0], false)
        } else {
            Ok(self)
        }
    }
}
