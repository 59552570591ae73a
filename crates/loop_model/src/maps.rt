//! The maps of a loop: its effects, computed with polynomials in place of numbers.
ghost use Rattle.std.specs.Prelude.{◌<◌, [], length, map, get_or, All, IfOk, IfErr};
ghost use Rattle.algebra.specs.Fraction.{ℚ};
ghost use Rattle.polynomials.specs.Terms.{constant, lists};
ghost use Rattle.loops.specs.Effect.{after_statement};
ghost use Rattle.loops.specs.Map.{start_map, branch_map};
ghost use Rattle.loops.specs.WellFormed.{Uses, IsStatement};
ghost use Rattle.poly.specs.Seen.{terms_each, arity_of};
ghost use Rattle.poly.specs.Standing.{IsInVariables, AllStandFor};
ghost use Rattle.loop_model.specs.ExpressionView.{expr_of};
ghost use Rattle.loop_model.specs.Operations.{IsFree, value, operations_all};
ghost use Rattle.loop_model.specs.Stops.{Stops};
ghost use Rattle.loop_model.specs.Parts.{statement_of};
ghost use Rattle.loop_model.specs.View.{program_of};
ghost use Rattle.loop_model.specs.Maps.{entry, start_operations, branch_operations, branches_operations, AreBranchMaps, FormsAll};

use crate::{Expr, Loop, MapError, Statement, expr_poly, free_state};
use frac128::Frac;
use monos::Grevlex;
use poly::Poly;
use std::alloc::{AllocError, Global};

impl Loop {
    /// The values at a start, as polynomials in the values of the free variables: one for each variable. A free variable is itself.
    pub fn start_map(&self, alloc: Global) -> Result<Vec<Poly<Frac, Grevlex>>, MapError>
        ensures maps { let program = program_of self.now in
            IfOk result (λ maps. AllStandFor (length program.names) maps.items
            (start_map program)) }
        ensures free { let program = program_of self.now in
            IfOk result (λ _. IsFree (length program.names) (start_operations program)) }
        ensures stops { let program = program_of self.now in
            IfErr result (λ e. Stops (length program.names) (start_operations program) e) }
    {
        let free = free_state(alloc, self.names().len())?;
        let mut state = free_state(alloc, self.names().len())?;
        for init in self.start() {
            state[init.var] = expr_poly(alloc, &init.value, &free)?;
        }
        Ok(state)
    }

    /// What the names stand for at the entry of a branch: the variables for themselves, the local names for 0.
    fn entry(&self, alloc: Global) -> Result<Vec<Poly<Frac, Grevlex>>, AllocError>
        ensures entry { let program = program_of self.now in
            IfOk result (λ state. AllStandFor (length program.names) state.items (entry program)) }
    {
        let arity = self.names().len();
        let mut state = free_state(alloc, arity)?;
        for _index in 0..self.locals().len() {
            state.push(Poly::zero(alloc, Grevlex, arity))?;
        }
        Ok(state)
    }

    /// The values after the branch with this index, as polynomials in the values before it: one for each variable.
    pub fn branch_map(
        &self,
        alloc: Global,
        index: usize,
    ) -> Result<Vec<Poly<Frac, Grevlex>>, MapError>
        requires { index < length (program_of self.now).branches }
        ensures maps { let program = program_of self.now in
            let branch = get_or program.branches index [] in
            IfOk result (λ maps. AllStandFor (length program.names) maps.items
            (branch_map program branch)) }
        ensures free { let program = program_of self.now in
            let branch = get_or program.branches index [] in
            IfOk result (λ _. IsFree (length program.names) (branch_operations program branch)) }
        ensures stops { let program = program_of self.now in
            let branch = get_or program.branches index [] in
            IfErr result (λ e. Stops (length program.names) (branch_operations program branch) e) }
    {
        let mut state = self.entry(alloc)?;
        for statement in &self.branches()[index] {
            state = after(alloc, statement, state)?;
        }
        state.truncate(self.names().len());
        Ok(state)
    }

    /// The map of each branch, in order.
    pub fn branch_maps(&self, alloc: Global) -> Result<Vec<Vec<Poly<Frac, Grevlex>>>, MapError>
        ensures maps { let program = program_of self.now in
            IfOk result (λ maps. AreBranchMaps program maps.items program.branches) }
        ensures free { let program = program_of self.now in
            IfOk result (λ _. IsFree (length program.names) (branches_operations program)) }
        ensures stops { let program = program_of self.now in
            IfErr result (λ e. Stops (length program.names) (branches_operations program) e) }
    {
        let mut maps = Vec::new(alloc);
        for index in 0..self.branches().len() {
            maps.push(self.branch_map(alloc, index)?)?;
        }
        Ok(maps)
    }
}

/// The state after the statement: all values are computed before one is stored.
pub fn after(
    alloc: Global,
    statement: &Statement,
    state: Vec<Poly<Frac, Grevlex>>,
) -> Result<Vec<Poly<Frac, Grevlex>>, MapError>
    requires state { All (IsInVariables (arity_of state.items)) state.items }
    requires statement { IsStatement (length state.items) (statement_of statement.now) }
    ensures { let m = arity_of state.items in let s = terms_each state.items in
        FormsAll m (operations_all m s (map expr_of statement.now.values.items))
        (after_statement (lists ℚ m) (constant m) (statement_of statement.now) s) result }
{
    let values = values_at(alloc, &statement.values, &state)?;
    let mut state = state;
    for (target, value) in statement.targets.iter().zip(values) {
        state[*target] = value;
    }
    Ok(state)
}

/// The values of the expressions where the variables have the values of `state`.
fn values_at(
    alloc: Global,
    exprs: &[Expr],
    state: &Vec<Poly<Frac, Grevlex>>,
) -> Result<Vec<Poly<Frac, Grevlex>>, MapError>
    requires state { All (IsInVariables (arity_of state.now.items)) state.now.items }
    requires uses { All (λ e. Uses (λ i. i < length state.now.items) (expr_of e)) exprs.now }
    ensures { let m = arity_of state.now.items in let s = terms_each state.now.items in
        let es = map expr_of exprs.now in
        FormsAll m (operations_all m s es) (map (value m s) es) result }
{
    let mut values = Vec::new(alloc);
    for expr in exprs {
        values.push(expr_poly(alloc, expr, state)?)?;
    }
    Ok(values)
}
