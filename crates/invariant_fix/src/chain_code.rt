//! The task of the code between two loops: from what is known before it comes what is known behind it.

ghost use Rattle.std.specs.Prelude.{◌≡◌, ◌≤◌, ◌<◌, ◌+◌, ◌++◌, All, map, length, IfOk, OnOk, IsErrOf};
ghost use Rattle.std.specs.List.{Any};
ghost use Rattle.algebra.specs.Fraction.{fractions};
ghost use Rattle.polynomials.specs.Weight.{IsPastComposition};
ghost use Rattle.machines.specs.Journal.{units_of};
ghost use Rattle.machines.specs.Machine.{Ran};
ghost use Rattle.divide.specs.Outcomes.{outcome_of};
ghost use Rattle.poly.specs.Seen.{terms_in, terms_each};
ghost use Rattle.poly.specs.Standing.{AllStandFor};
ghost use Rattle.ideal_ops.specs.Calls.{AreOver};
ghost use Rattle.loops.specs.Map.{branch_map};
ghost use Rattle.loop_model.specs.View.{program_of};
ghost use Rattle.loop_runs.specs.Parts.{code_in, statements_in};
ghost use Rattle.corollaries.specs.Between.{between};
ghost use Rattle.corollaries.specs.CodeBetween.{copies, was};
ghost use Rattle.invariant_fix.specs.Limits.{elements_limit};
ghost use Rattle.invariant_fix.specs.Code.{assigned_by, all, place_before, in_code_order, put_value, IsPastValueOf, IsPastValue, IsCodeList, IsPastCode, IsListOf, IsCodeInWork, AreThereBefore, HasItsCopies, value_put, variables_assigned};

use divide::EngineError;
use frac128::Frac;
use ideal_ops::eliminate;
use journal::Meter;
use loop_model::{Loop, Statement};
use monos::{Blocks, Grevlex};
use poly::Poly;
use ring_laws::ArithmeticError;
use std::alloc::{AllocError, Global};

/// Whether the variable stands on a left side of the statements.
fn is_assigned(code: &[Statement], var: usize) -> bool
    ensures { result ≡ assigned_by code.now var }
{
    for statement in code {
        if statement.targets.contains(&var) {
            return true;
        }
    }
    false
}

/// How many of so many variables do.
fn count_assigned(code: &[Statement], vars: usize) -> usize
    ensures count { result ≡ copies vars (statements_in code.now) }
    ensures few { result ≤ vars }
{
    let mut count = 0;
    for var in 0..vars {
        if is_assigned(code, var) {
            count += 1;
        }
    }
    count
}

/// The code between two loops in work.
#[derive(Clone, Copy)]
struct CodeInWork<'a> {
    code: &'a [Statement],
    /// What it leaves in each variable.
    values: &'a [Poly<Frac, Grevlex>],
    /// How many variables it assigns: each of these has a copy.
    copies: usize,
}

impl CodeInWork<'_> {
    /// Where among the copies and the variables stands what the variable was before the code: at its copy, or at itself.
    fn place_before(&self, var: usize) -> usize
        requires work { IsCodeInWork self.now }
        requires var { var < length self.now.values.now }
        ensures place { result ≡ place_before (length self.now.values.now) self.now.code.now var }
        ensures within { result < all (length self.now.values.now) self.now.code.now }
    {
        if is_assigned(self.code, var) {
            count_assigned(self.code, var)
        } else {
            self.copies + var
        }
    }

    /// What the variables were before the code, as polynomials over the copies and the variables.
    fn before(&self, alloc: Global) -> Result<Vec<Poly<Frac, Grevlex>>, AllocError>
        requires work { IsCodeInWork self.now }
        ensures before { IfOk result (λ ps. AreThereBefore self.now ps.items) }
    {
        let mut images = Vec::new(alloc);
        for var in 0..self.values.len() {
            let place = self.place_before(var);
            let all = self.copies + self.values.len();
            images.push(Poly::variable(alloc, Grevlex, all, place)?)?;
        }
        Ok(images)
    }

    /// An element, of what the variables were before the code, in the order with the copies first.
    fn put(
        &self,
        alloc: Global,
        before: &Vec<Poly<Frac, Grevlex>>,
        element: &Poly<Frac, Grevlex>,
    ) -> Result<Poly<Frac, Blocks>, ArithmeticError>
        requires work { IsCodeInWork self.now }
        requires before { AreThereBefore self.now before.now.items }
        requires element { element.now.arity ≡ length self.now.values.now }
        ensures put { IfOk result (λ p. terms_in p
            ≡ in_code_order (length self.now.values.now) self.now.code.now (terms_in element.now)) }
        ensures block { IfOk result (HasItsCopies self.now) }
        ensures wide { IsErrOf result ArithmeticError.Wide → IsPastComposition fractions
            (terms_in element.now) (was (length self.now.values.now)
            (statements_in self.now.code.now)) }
    {
        let composed = element.compose(alloc, before)?;
        Ok(composed.reorder(alloc, Blocks { first: self.copies })?)
    }

    /// A variable less the code's value for it, of what the variables were before the code, in the order with the copies first.
    fn difference(
        &self,
        alloc: Global,
        before: &Vec<Poly<Frac, Grevlex>>,
        value: &Poly<Frac, Grevlex>,
        var: usize,
    ) -> Result<Poly<Frac, Blocks>, ArithmeticError>
        requires work { IsCodeInWork self.now }
        requires before { AreThereBefore self.now before.now.items }
        requires value { value.now.arity ≡ length self.now.values.now }
        requires var { var < length self.now.values.now }
        ensures difference { IfOk result (λ p. terms_in p
            ≡ put_value (length self.now.values.now) self.now.code.now var (terms_in value.now)) }
        ensures block { IfOk result (HasItsCopies self.now) }
        ensures wide { IsErrOf result ArithmeticError.Wide → IsPastValueOf
            (length self.now.values.now) self.now.code.now (terms_in value.now) var }
    {
        let composed = value.compose(alloc, before)?;
        let all = self.copies + value.arity();
        let now = Poly::variable(alloc, Grevlex, all, self.copies + var)?;
        let less = now.sub(alloc, &composed)?;
        Ok(less.reorder(alloc, Blocks { first: self.copies })?)
    }

    /// Puts the differences for the variables that the code assigns behind the others.
    fn push_differences(
        &self,
        alloc: Global,
        gens: &mut Vec<Poly<Frac, Blocks>>,
        before: &Vec<Poly<Frac, Grevlex>>,
    ) -> Result<(), ArithmeticError>
        requires work { IsCodeInWork self.now }
        requires before { AreThereBefore self.now before.now.items }
        requires block { All (HasItsCopies self.now) gens.old.items }
        ensures list { OnOk result (terms_each gens.new.items ≡ terms_each gens.old.items
            ++ map (value_put self.now) (variables_assigned self.now)) }
        ensures block { OnOk result (All (HasItsCopies self.now) gens.new.items) }
        ensures wide { IsErrOf result ArithmeticError.Wide
            → Any (IsPastValue self.now.code.now self.now.values.now)
            (variables_assigned self.now) }
    {
        let values = self.values;
        for var in 0..values.len() {
            if is_assigned(self.code, var) {
                gens.push(self.difference(alloc, before, &values[var], var)?)?;
            }
        }
        Ok(())
    }

    /// The list of the code, of a basis: its elements, and the differences.
    fn list(
        &self,
        alloc: Global,
        basis: &[Poly<Frac, Grevlex>],
    ) -> Result<Vec<Poly<Frac, Blocks>>, ArithmeticError>
        requires work { IsCodeInWork self.now }
        requires basis { AreOver (length self.now.values.now) basis.now }
        ensures list { IfOk result (λ gens.
            IsCodeList self.now.code.now self.now.values.now basis.now gens.items) }
        ensures block { IfOk result (λ gens. All (HasItsCopies self.now) gens.items) }
        ensures wide { IsErrOf result ArithmeticError.Wide
            → IsPastCode self.now.code.now self.now.values.now basis.now }
    {
        let before = self.before(alloc)?;
        let mut gens = Vec::new(alloc);
        for element in basis {
            gens.push(self.put(alloc, &before, element)?)?;
        }
        self.push_differences(alloc, &mut gens, &before)?;
        Ok(gens)
    }
}

/// What code makes of a basis: the reduced basis of the polynomials that, composed with the code, are in its ideal. The code is the branch of a loop that has one, and these are its values.
pub(crate) fn mapped(
    alloc: Global,
    lp: &Loop,
    values: &[Poly<Frac, Grevlex>],
    basis: &[Poly<Frac, Grevlex>],
    meter: &mut Meter,
) -> Result<Vec<Poly<Frac, Grevlex>>, EngineError>
    requires one { length (program_of lp.now).branches ≡ 1 }
    requires values { let program = program_of lp.now in
        AllStandFor (length program.names) values.now (branch_map program (code_in lp.now)) }
    requires basis { AreOver (length (program_of lp.now).names) basis.now }
    requires few { length basis.now ≤ elements_limit }
    ensures ran { let program = program_of lp.now in
        Ran (between program (code_in lp.now) (terms_each basis.now))
        (IsListOf (length program.names) (code_in lp.now)) meter.old meter.new
        (outcome_of result) }
    ensures over { IfOk result (λ hs. AreOver (length (program_of lp.now).names) hs.items) }

    // They are at most as many as the elements, the copies and the units.
    ensures few { IfOk result (λ hs. length hs.items ≤ length basis.now
        + copies (length (program_of lp.now).names) (code_in lp.now)
        + units_of meter.new.entries) }
{
    meter.within_limit();
    let code = lp.branches()[0].as_slice();
    let work = CodeInWork {
        code,
        values,
        copies: count_assigned(code, values.len()),
    };
    let gens = work.list(alloc, basis)?;
    if gens.is_empty() {
        return Ok(Vec::new(alloc));
    }
    eliminate(alloc, &gens, meter)
}
