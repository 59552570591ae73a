//! The analysis of a loop.
ghost use Rattle.std.specs.Prelude.{All, ◌≡◌, ◌≤◌, ◌+◌, ℕ, [], map, length, Some, None, IfOk, IfErr};
ghost use Rattle.algebra.specs.Fraction.{rationals};
ghost use Rattle.polynomials.specs.Order.{grevlex};
ghost use Rattle.machines.specs.Journal.{units_of};
ghost use Rattle.machines.specs.Reduced.{IsReducedFor};
ghost use Rattle.loops.specs.Certificate.{IsValid};
ghost use Rattle.loops.specs.Inv.{Inv};
ghost use Rattle.loops.specs.Program.{Expr, Program};
ghost use Rattle.poly.specs.Seen.{terms_each};
ghost use Rattle.loop_model.specs.Operations.{IsFree};
ghost use Rattle.loop_model.specs.Maps.{branches_operations, AreFree};
ghost use Rattle.loop_model.specs.View.{program_of};
ghost use Rattle.rounds.specs.Kept.{IsKept};
ghost use Rattle.rounds.specs.Results.{IsReducedList};
ghost use Rattle.invariant_fix.specs.Answers.{IsClosedBy, IsClosedByFrom, IsLeastLevel, certificate_of};
ghost use Rattle.ideal_ops.specs.Calls.{AreOver};
ghost use Rattle.invariant_fix.specs.Closing.{IsSquare};
ghost use Rattle.invariant_fix.specs.Refusals.{AllHaveForms, analysis_error_of, HasFollowed, HasFollowedFrom, IfUnformed, IfUnformedLoop, IsRefused, IsRefusedFrom, IsStoppedFrom};
ghost use Rattle.invariant_fix.specs.Setting.{FitsSetting, AreBranches, IsSettingOf, HoldsOf, most_given};

use crate::branches::{Branch, branches};
use crate::round::rounds;
use crate::setting::Setting;
use crate::starts::start_basis;
use crate::{AnalyseError, Analysis};
use frac128::Frac;
use journal::Meter;
use loop_model::{Loop, MapError};
use monos::Grevlex;
use poly::Poly;
use std::alloc::{AllocError, Global};
use task_lists::start_list;

/// The reduced basis of all polynomial invariants of a loop, in rounds (Rodríguez-Carbonell and Kapur, "Generating all polynomial invariants in simple loops", Journal of Symbolic Computation 42, 2007).
///
/// The entries that it makes are those of the analysis of the loop (docs/DEFINITIONS.md, section 19), up to the end or to the refusal. Refusals come in the order of `AnalyseError`, that of the first branch that has one. `Limit` only where the compositions that its task begins with multiply out to more than 2^20 terms; `Wide` only where the weight of making the starting list, or of the next event, of its task is past; `Budget` only where the units are exhausted and the next entry is one.
pub fn analyse(alloc: Global, lp: &Loop, meter: &mut Meter) -> Result<Analysis, AnalyseError>
    requires unbegun { meter.old.entries ≡ [] }
    ensures limit { meter.new.limit ≡ meter.old.limit }

    // On every answer the entries are none, or follow the loop.
    ensures follows { HasFollowed (program_of lp.now) meter.new.entries }

    // The analysis has finished, with this basis and these rounds, and the steps are the cofactors of its closing divisions.
    ensures closed { IfOk result (λ a. IsClosedBy (program_of lp.now) a meter.new.entries) }

    // The basis is the reduced basis of all invariants, and no round before the last has them all.
    ensures basis { let program = program_of lp.now in
        IfOk result (λ a. IsReducedFor rationals grevlex (length program.names)
        (terms_each a.basis.items) (Inv program)) }
    ensures rounds { IfOk result (λ a. IsLeastLevel (program_of lp.now) a.rounds) }

    // The basis is in the loop's variables, and so are the steps, which have a square list for each branch.
    ensures over { let program = program_of lp.now in
        IfOk result (λ a. AreOver (length program.names) a.basis.items) }
    ensures square { let program = program_of lp.now in
        IfOk result (λ a. All (λ rows. IsSquare (length program.names)
        (length a.basis.items) rows.items) a.steps.items) }

    // It has at most as many elements as the loop has variables, and the units.
    ensures few { IfOk result (λ a. length a.basis.items
        ≤ length (program_of lp.now).names + units_of meter.new.entries) }

    // With the steps it is a valid certificate.
    ensures certificate { IfOk result (λ a. IsValid (program_of lp.now) (certificate_of a)) }

    // Each refusal has its cause, and where one answers no map and no branch is refused.
    ensures free { IfOk result (λ _. AreFree (program_of lp.now)) }
    ensures forms { IfOk result (λ _. AllHaveForms (program_of lp.now)) }
    ensures refused { IfErr result (IsRefused (program_of lp.now) meter.old meter.new) }
{
    let setting = setting_of(alloc, lp)?;
    let basis = start_basis(alloc, &setting, meter)?;
    rounds(alloc, &setting, basis, meter)
}

/// What the analysis of a loop is of. Refusals come as those of `analyse` for maps and branches.
pub fn setting_of(alloc: Global, lp: &Loop) -> Result<Setting, AnalyseError>
    ensures fits { IfOk result FitsSetting }
    ensures setting { IfOk result (IsSettingOf (program_of lp.now)) }

    // No list is given to begin with.
    ensures given { IfOk result (λ s. s.given ≡ None) }

    // Each refusal has its cause, and where one answers no map and no branch is refused.
    ensures free { IfOk result (λ _. AreFree (program_of lp.now)) }
    ensures forms { IfOk result (λ _. AllHaveForms (program_of lp.now)) }
    ensures refused { IfErr result (IfUnformedLoop (program_of lp.now)) }
{
    let values = match lp.start_map(alloc) {
        Ok(values) => values,
        Err(error) => return Err(not_formed(error)),
    };
    let branches = all_branches(alloc, lp)?;
    let starts = start_list(alloc, lp, &values)?;
    Ok(Setting {
        arity: lp.names().len(),
        starts,
        given: None,
        branches,
    })
}

/// The reduced basis of what a loop keeps of an ideal, given by its reduced basis: of the polynomials that, composed with each word of the loop, are in the ideal.
///
/// The entries that it makes are those of the analysis of the loop that begins with the list that is given in place of the start's task and list, up to the end or to the refusal. What `init` says isn't looked at, but that its operations are within the limits. Refusals come as those of `analyse`.
pub fn analyse_from(
    alloc: Global,
    lp: &Loop,
    first: &[Poly<Frac, Grevlex>],
    meter: &mut Meter,
) -> Result<Analysis, AnalyseError>
    requires over { AreOver (length (program_of lp.now).names) first.now }
    requires reduced { IsReducedList (length (program_of lp.now).names) (terms_each first.now) }
    requires few { length first.now ≤ most_given }
    requires unbegun { meter.old.entries ≡ [] }
    ensures limit { meter.new.limit ≡ meter.old.limit }

    // On every answer the entries are none, or follow the loop from the list.
    ensures follows { HasFollowedFrom (program_of lp.now) (Some (terms_each first.now))
        meter.new.entries }

    // The analysis has finished, with this basis and these rounds, and the steps are the cofactors of its closing divisions.
    ensures closed { IfOk result (λ a. IsClosedByFrom (program_of lp.now)
        (Some (terms_each first.now)) a meter.new.entries) }

    // The basis is the reduced basis of all that is kept.
    ensures basis { let program = program_of lp.now in
        IfOk result (λ a. IsReducedFor rationals grevlex (length program.names)
        (terms_each a.basis.items) (IsKept program (terms_each first.now))) }

    // The basis is in the loop's variables, and so are the steps, which have a square list for each branch; it has at most as many elements as the list, and the units.
    ensures over { let program = program_of lp.now in
        IfOk result (λ a. AreOver (length program.names) a.basis.items) }
    ensures square { let program = program_of lp.now in
        IfOk result (λ a. All (λ rows. IsSquare (length program.names)
        (length a.basis.items) rows.items) a.steps.items) }
    ensures few { IfOk result (λ a. length a.basis.items
        ≤ length first.now + units_of meter.new.entries) }

    // Each refusal has its cause, and where one answers no map and no branch is refused.
    ensures free { IfOk result (λ _. AreFree (program_of lp.now)) }
    ensures forms { IfOk result (λ _. AllHaveForms (program_of lp.now)) }
    ensures refused { IfErr result (IsRefusedFrom (program_of lp.now)
        (Some (terms_each first.now)) meter.old meter.new) }
{
    let setting = setting_of(alloc, lp)?;
    analyse_in(alloc, setting, first, meter)
}

/// The reduced basis of what a loop keeps of an ideal, as `analyse_from` makes it, from the loop's setting. No map and no branch is refused.
pub fn analyse_in(
    alloc: Global,
    setting: Setting,
    first: &[Poly<Frac, Grevlex>],
    meter: &mut Meter,
) -> Result<Analysis, AnalyseError>
    requires fits { FitsSetting setting }
    requires over { AreOver setting.arity first.now }
    requires reduced { IsReducedList setting.arity (terms_each first.now) }
    requires few { length first.now ≤ most_given }
    requires unbegun { meter.old.entries ≡ [] }
    ensures limit { meter.new.limit ≡ meter.old.limit }

    // On every answer the entries are none, or follow the loop from the list.
    ensures follows { HoldsOf setting (λ program.
        HasFollowedFrom program (Some (terms_each first.now)) meter.new.entries) }

    // The analysis has finished, with this basis and these rounds, and the steps are the cofactors of its closing divisions.
    ensures closed { HoldsOf setting (λ program. IfOk result (λ a.
        IsClosedByFrom program (Some (terms_each first.now)) a meter.new.entries)) }

    // The basis is the reduced basis of all that is kept.
    ensures basis { HoldsOf setting (λ program. IfOk result (λ a.
        IsReducedFor rationals grevlex (length program.names)
        (terms_each a.basis.items) (IsKept program (terms_each first.now)))) }

    // The basis is in the loop's variables, and so are the steps, which have a square list for each branch; it has at most as many elements as the list, and the units.
    ensures over { IfOk result (λ a. AreOver setting.arity a.basis.items) }
    ensures square { HoldsOf setting (λ program. IfOk result (λ a.
        All (λ rows. IsSquare (length program.names) (length a.basis.items) rows.items)
        a.steps.items)) }
    ensures few { IfOk result (λ a. length a.basis.items
        ≤ length first.now + units_of meter.new.entries) }

    // Each refusal has its cause.
    ensures refused { HoldsOf setting (λ program.
        IfErr result (IsStoppedFrom program (Some (terms_each first.now)) meter.new)) }
{
    let given = copy_list(alloc, first)?;
    let setting = with_list(setting, given);
    let basis = copy_list(alloc, first)?;
    rounds(alloc, &setting, basis, meter)
}

/// The setting, with this list to begin with.
fn with_list(setting: Setting, given: Vec<Poly<Frac, Grevlex>>) -> Setting
    requires fits { FitsSetting setting }
    requires few { length given.items ≤ most_given }
    ensures fits { FitsSetting result }
    ensures setting { (program : Program (Expr ℕ)) → IsSettingOf program setting
        → IsSettingOf program result }
    ensures given { result.given ≡ Some given }
    ensures arity { result.arity ≡ setting.arity }
{
    Setting {
        arity: setting.arity,
        starts: setting.starts,
        given: Some(given),
        branches: setting.branches,
    }
}

/// A copy of these polynomials.
fn copy_list(
    alloc: Global,
    list: &[Poly<Frac, Grevlex>],
) -> Result<Vec<Poly<Frac, Grevlex>>, AllocError>
    ensures same { IfOk result (λ out. terms_each out.items ≡ terms_each list.now) }
    ensures arities { IfOk result (λ out.
        map (λ p. p.arity) out.items ≡ map (λ p. p.arity) list.now) }
{
    let mut out = Vec::new(alloc);
    for poly in list {
        out.push(poly.copy(alloc)?)?;
    }
    Ok(out)
}

/// The branches of a loop.
fn all_branches(alloc: Global, lp: &Loop) -> Result<Vec<Branch>, AnalyseError>
    ensures branches { IfOk result (λ cs. AreBranches (program_of lp.now) cs.items) }
    ensures free { let program = program_of lp.now in
        IfOk result (λ _. IsFree (length program.names) (branches_operations program)) }
    ensures refused { IfErr result (IfUnformed (program_of lp.now)) }
{
    match lp.branch_maps(alloc) {
        Ok(maps) => branches(alloc, maps),
        Err(error) => Err(not_formed(error)),
    }
}

/// The refusal of a map that is not formed.
fn not_formed(error: MapError) -> AnalyseError
    ensures { result ≡ analysis_error_of error }
{
    match error {
        MapError::Memory => AnalyseError::Memory,
        error => AnalyseError::Map(error),
    }
}
