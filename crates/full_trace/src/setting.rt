//! What a trace is of.
ghost use Rattle.std.specs.Prelude.{◌≡◌, All, IfOk, IfErr};
ghost use Rattle.std.specs.List.{position};
ghost use Rattle.loop_model.specs.Maps.{AreFree};
ghost use Rattle.loop_model.specs.View.{program_of};
ghost use Rattle.invariant_fix.specs.Refusals.{AllHaveForms};
ghost use Rattle.invariant_fix.specs.Setting.{FitsSetting, IsSettingOf};
ghost use Rattle.full_trace.specs.Late.{is_late, BeginsAtZero, AllBeginAtZero, IfUntraceable};

use crate::TraceError;
use invariant_fix::{Branch, Setting, setting_of};
use loop_model::Loop;
use std::alloc::Global;

/// What the traces of a loop are of, where each of its branches begins at 0. Refusals of maps and branches come first,
/// as those of `analyse`.
pub fn traceable_setting(alloc: Global, lp: &Loop) -> Result<Setting, TraceError>
    ensures fits { IfOk result FitsSetting }
    ensures setting { IfOk result (IsSettingOf (program_of lp.now)) }
    ensures at_zero { IfOk result (λ s. All BeginsAtZero s.branches.items) }

    // Each refusal has its cause, and where one answers no map and no branch is refused, and none begins late.
    ensures free { IfOk result (λ _. AreFree (program_of lp.now)) }
    ensures forms { IfOk result (λ _. AllHaveForms (program_of lp.now)) }
    ensures all_at_zero { IfOk result (λ _. AllBeginAtZero (program_of lp.now)) }
    ensures refused { IfErr result (IfUntraceable (program_of lp.now)) }
{
    let setting = match setting_of(alloc, lp) {
        Ok(setting) => setting,
        Err(error) => return Err(TraceError::Analysis(error)),
    };
    match first_late(&setting.branches) {
        Some(branch) => Err(TraceError::Late { branch }),
        None => Ok(setting),
    }
}

/// The place of the first branch that begins later than at 0.
fn first_late(branches: &[Branch]) -> Option<usize>
    ensures { result ≡ position is_late branches.now }
{
    branches.iter().position(|branch| branch.form.since > 0)
}
