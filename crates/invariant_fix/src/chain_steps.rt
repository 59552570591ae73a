//! The analysis of one of the loops in sequence.

ghost use Rattle.std.specs.Prelude.{◌≡◌, ◌≤◌, ℕ, length, None, Some, IfOk, IfErr};
ghost use Rattle.loops.specs.Program.{Expr, Program};
ghost use Rattle.poly.specs.Seen.{terms_each};
ghost use Rattle.ideal_ops.specs.Calls.{AreOver};
ghost use Rattle.journal.specs.View.{most_units};
ghost use Rattle.loop_model.specs.Maps.{AreFree};
ghost use Rattle.loop_model.specs.View.{program_of};
ghost use Rattle.rounds.specs.Results.{IsReducedList};
ghost use Rattle.invariant_fix.specs.Refusals.{AllHaveForms, IsRefused, IsRefusedFrom, IsStoppedFrom, analysis_error_of};
ghost use Rattle.invariant_fix.specs.Setting.{FitsSetting, HoldsOf, most_given};
ghost use Rattle.loop_runs.specs.Parts.{IsStageOf, stage_of};
ghost use Rattle.invariant_fix.specs.Bases.{empty_journal};
ghost use Rattle.invariant_fix.specs.Limits.{budget_limit, elements_limit};
ghost use Rattle.invariant_fix.specs.ChainSteps.{HasList, HasStage, IsRefusedStage};

use crate::chain_code::mapped;
use crate::{
    AnalyseError, Analysis, LoopError, Setting, analyse, analyse_from, analyse_in, setting_of,
};
use divide::EngineError;
use frac128::Frac;
use journal::Meter;
use loop_model::{Loop, MapError};
use loop_runs::Stage;
use monos::Grevlex;
use poly::Poly;
use std::alloc::Global;

/// The basis of the first loop.
pub(crate) fn first_basis(
    alloc: Global,
    lp: &Loop,
    budget: u64,
    meter: &mut Meter,
) -> Result<Vec<Poly<Frac, Grevlex>>, AnalyseError>
    requires { budget ≤ most_units }
    ensures limit { meter.new.limit ≡ budget }
    ensures free { IfOk result (λ _. AreFree (program_of lp.now)) }
    ensures forms { IfOk result (λ _. AllHaveForms (program_of lp.now)) }
    ensures ok { let program = program_of lp.now in
        IfOk result (λ b.
        HasList program None (length program.names) budget meter.new b.items) }
    ensures err { IfErr result (IsRefused (program_of lp.now) (empty_journal budget) meter.new) }
{
    meter.open(budget);
    let found = analyse(alloc, lp, meter)?;
    meter.within_limit();
    let Analysis { basis, .. } = found;
    Ok(basis)
}

/// The basis of a further loop, from the list that is given to it.
fn basis_from(
    alloc: Global,
    lp: &Loop,
    given: &[Poly<Frac, Grevlex>],
    units: u64,
    meter: &mut Meter,
) -> Result<Vec<Poly<Frac, Grevlex>>, AnalyseError>
    requires budget { units ≤ most_units }
    requires over { AreOver (length (program_of lp.now).names) given.now }
    requires reduced { IsReducedList (length (program_of lp.now).names) (terms_each given.now) }
    requires few { length given.now ≤ most_given }
    ensures limit { meter.new.limit ≡ units }
    ensures free { IfOk result (λ _. AreFree (program_of lp.now)) }
    ensures forms { IfOk result (λ _. AllHaveForms (program_of lp.now)) }
    ensures ok { IfOk result (λ b. HasList (program_of lp.now) (Some (terms_each given.now))
        (length given.now) units meter.new b.items) }
    ensures err { IfErr result (IsRefusedFrom (program_of lp.now) (Some (terms_each given.now))
        (empty_journal units) meter.new) }
{
    meter.open(units);
    let found = analyse_from(alloc, lp, given, meter)?;
    meter.within_limit();
    let Analysis { basis, .. } = found;
    Ok(basis)
}

/// The same, in the loop's setting.
fn basis_in(
    alloc: Global,
    setting: Setting,
    given: &[Poly<Frac, Grevlex>],
    units: u64,
    meter: &mut Meter,
) -> Result<Vec<Poly<Frac, Grevlex>>, AnalyseError>
    requires budget { units ≤ most_units }
    requires fits { FitsSetting setting }
    requires over { AreOver setting.arity given.now }
    requires reduced { IsReducedList setting.arity (terms_each given.now) }
    requires few { length given.now ≤ most_given }
    ensures limit { meter.new.limit ≡ units }
    ensures ok { HoldsOf setting (λ program. IfOk result (λ b.
        HasList program (Some (terms_each given.now)) (length given.now) units meter.new b.items)) }
    ensures err { HoldsOf setting (λ program.
        IfErr result (IsStoppedFrom program (Some (terms_each given.now)) meter.new)) }
{
    meter.open(units);
    let found = analyse_in(alloc, setting, given, meter)?;
    meter.within_limit();
    let Analysis { basis, .. } = found;
    Ok(basis)
}

/// The basis of a further loop behind its code, from that of the loops before.
pub(crate) fn stage_basis(
    alloc: Global,
    stage: &Stage,
    before: &[Poly<Frac, Grevlex>],
    budget: u64,
    meter: &mut Meter,
) -> Result<Vec<Poly<Frac, Grevlex>>, LoopError>
    requires budget { budget ≤ budget_limit }
    requires over { AreOver (length (program_of stage.now.body).names) before.now }
    requires reduced { IsReducedList (length (program_of stage.now.body).names)
        (terms_each before.now) }
    requires few { length before.now ≤ elements_limit }
    requires one { length (program_of stage.now.code).branches ≡ 1 }
    requires names { (program_of stage.now.code).names ≡ (program_of stage.now.body).names }
    ensures ok { (program : Program (Expr ℕ)) → IsStageOf program stage.now →
        let g = stage_of stage.now in
        IfOk result (λ b. HasStage program g.code g.branches before.now budget meter.new b.items) }
    ensures err { (program : Program (Expr ℕ)) → IsStageOf program stage.now →
        let g = stage_of stage.now in
        IfErr result (IsRefusedStage program g.code g.branches before.now budget meter.new) }
{
    if stage.code.branches()[0].is_empty() {
        return match basis_from(alloc, &stage.body, before, budget, meter) {
            Ok(basis) => Ok(basis),
            Err(error) => Err(LoopError::Analysis(error)),
        };
    }
    meter.open(budget);
    let values = match stage.code.branch_map(alloc, 0) {
        Ok(values) => values,
        Err(error) => return Err(not_formed(error)),
    };
    let setting = match setting_of(alloc, &stage.body) {
        Ok(setting) => setting,
        Err(error) => return Err(LoopError::Analysis(error)),
    };
    let given = match mapped(alloc, &stage.code, &values, before, meter) {
        Ok(given) => given,
        Err(EngineError::Wide) => return Err(LoopError::Between),
        Err(EngineError::Budget) => return Err(LoopError::Analysis(AnalyseError::Budget)),
        Err(EngineError::Memory) => return Err(LoopError::Analysis(AnalyseError::Memory)),
    };
    meter.within_limit();
    let left = meter.left();
    match basis_in(alloc, setting, &given, left, meter) {
        Ok(basis) => Ok(basis),
        Err(error) => Err(LoopError::Analysis(error)),
    }
}

/// The refusal of a map that is not formed.
fn not_formed(error: MapError) -> LoopError
    ensures { result ≡ LoopError.Analysis (analysis_error_of error) }
{
    match error {
        MapError::Memory => LoopError::Analysis(AnalyseError::Memory),
        error => LoopError::Analysis(AnalyseError::Map(error)),
    }
}
