//! The relations between some of a loop's variables.

ghost use Rattle.std.specs.Prelude.{◌≡◌, ◌≢◌, ◌≤◌, ◌<◌, [], length, IfOk, IfErr};
ghost use Rattle.algebra.specs.Fraction.{rationals};
ghost use Rattle.complete.specs.Limits.{generators_limit};
ghost use Rattle.polynomials.specs.Order.{grevlex};
ghost use Rattle.divide.specs.Outcomes.{outcome_of};
ghost use Rattle.machines.specs.Machine.{Ran};
ghost use Rattle.machines.specs.Reduced.{IsReducedFor};
ghost use Rattle.poly.specs.Seen.{terms_each};
ghost use Rattle.ideal_ops.specs.Calls.{AreOver};
ghost use Rattle.invariant_fix.specs.Refusals.{AllHaveForms};
ghost use Rattle.loop_model.specs.Maps.{AreFree};
ghost use Rattle.loop_model.specs.View.{program_of};
ghost use Rattle.monos.specs.Variables.{most_variables};
ghost use Rattle.loops.specs.Relations.{IsShown};
ghost use Rattle.corollaries.specs.Order.{visible};
ghost use Rattle.corollaries.specs.Journal.{elimination_from, IsEnded, HasFollowed};
ghost use Rattle.invariant_fix.specs.Ordering.{IsListOf};
ghost use Rattle.invariant_fix.specs.RelationsRefusals.{IsRefused};

use crate::relations_ordering::ShownVariables;
use crate::{AnalyseError, RelationsError, analyse};
use divide::EngineError;
use frac128::Frac;
use ideal_ops::eliminate;
use journal::Meter;
use loop_model::Loop;
use monos::Grevlex;
use poly::Poly;
use std::alloc::Global;

/// The reduced basis of the polynomials over the variables at the positions shown, in declared order, that are zero at the end of every run: the analysis of the loop, and
/// then the elimination of the other variables from its basis (Cox, Little, O'Shea, "Ideals, Varieties, and Algorithms", chapter 3).
///
/// `Wide` only where the analysis has ended and the weight of making the list that the elimination begins with, or of its next event, is past; `Budget` only where the units are exhausted and the next entry is one.
pub fn relations(
    alloc: Global,
    lp: &Loop,
    shown: &[usize],
    meter: &mut Meter,
) -> Result<Vec<Poly<Frac, Grevlex>>, RelationsError>
    requires unbegun { meter.old.entries ≡ [] }
    ensures limit { meter.new.limit ≡ meter.old.limit }

    // On every answer the entries are a beginning of those of the journal of relations.
    ensures follows { HasFollowed (program_of lp.now) shown.now meter.new.entries }

    // The journal has ended with this list, the reduced basis of what is zero at the end of every run.
    ensures ended { IfOk result (λ gs.
        IsEnded (program_of lp.now) shown.now meter.new.entries (terms_each gs.items)) }
    ensures basis { let program = program_of lp.now in
        let v = visible (length program.names) shown.now in
        IfOk result (λ gs. IsReducedFor rationals grevlex (length v) (terms_each gs.items)
        (IsShown program v)) }
    ensures arity { let program = program_of lp.now in
        IfOk result (λ gs. AreOver (length (visible (length program.names) shown.now)) gs.items) }

    // Each refusal has its cause, and where one answers no map and no branch is refused.
    ensures free { IfOk result (λ _. AreFree (program_of lp.now)) }
    ensures forms { IfOk result (λ _. AllHaveForms (program_of lp.now)) }
    ensures refused { IfErr result
        (IsRefused (program_of lp.now) shown.now meter.old meter.new) }
{
    let analysis = match analyse(alloc, lp, meter) {
        Ok(analysis) => analysis,
        Err(AnalyseError::Budget) => return Err(RelationsError::Budget),
        Err(AnalyseError::Memory) => return Err(RelationsError::Memory),
        Err(error) => return Err(RelationsError::Analysis(error)),
    };
    if analysis.basis.is_empty() {
        return Ok(Vec::new(alloc));
    }
    let vars = lp.names().len();
    match eliminated(
        alloc,
        ShownVariables { vars, shown },
        &analysis.basis,
        meter,
    ) {
        Ok(basis) => Ok(basis),
        Err(EngineError::Wide) => Err(RelationsError::Wide),
        Err(EngineError::Budget) => Err(RelationsError::Budget),
        Err(EngineError::Memory) => Err(RelationsError::Memory),
    }
}

/// Eliminates the variables that aren't shown from a basis.
fn eliminated(
    alloc: Global,
    shown: ShownVariables<'_>,
    basis: &[Poly<Frac, Grevlex>],
    meter: &mut Meter,
) -> Result<Vec<Poly<Frac, Grevlex>>, EngineError>
    requires some { 0 < shown.vars }
    requires few { shown.vars ≤ most_variables }
    requires basis { AreOver shown.vars basis.now }
    requires elements { basis.now ≢ [] }
    requires limit { length basis.now ≤ generators_limit }
    ensures ran { let m = shown.entry.vars in let is = shown.entry.shown.now in
        Ran (elimination_from m is (terms_each basis.now)) (IsListOf m is)
        meter.old meter.new (outcome_of result) }
    ensures arity { IfOk result (λ gs.
        AreOver (length (visible shown.entry.vars shown.entry.shown.now)) gs.items) }
{
    meter.within_limit();
    let gens = shown.ordered(alloc, basis)?;
    eliminate(alloc, &gens, meter)
}
