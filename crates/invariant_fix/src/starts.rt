//! The basis of the list that an analysis starts with.
ghost use Rattle.std.specs.Prelude.{◌≡◌, None, IfOk, IfErr};
ghost use Rattle.invariant_fix.specs.Setting.{FitsSetting};
ghost use Rattle.invariant_fix.specs.Steps.{Awaits, Knows, Stops, starting, started};

use crate::AnalyseError;
use crate::errors::in_task;
use crate::setting::Setting;
use frac128::Frac;
use ideal_ops::sum;
use journal::{Meter, Task};
use monos::Grevlex;
use poly::Poly;
use std::alloc::Global;

/// The reduced basis of what is zero at every start.
pub(crate) fn start_basis(
    alloc: Global,
    setting: &Setting,
    meter: &mut Meter,
) -> Result<Vec<Poly<Frac, Grevlex>>, AnalyseError>
    requires fits { FitsSetting setting.now }
    requires plain { setting.now.given ≡ None }
    requires next { Awaits setting.now meter.old (starting setting.now) }
    ensures limit { meter.new.limit ≡ meter.old.limit }
    ensures next { IfOk result (λ gs.
        Awaits setting.now meter.new (started setting.now gs.items)) }
    ensures list { IfOk result (λ gs. Knows setting.now meter.new gs.items) }
    ensures err { IfErr result (Stops setting.now meter.new) }
{
    meter.begin(Task::Start)?;
    match sum(alloc, &setting.starts, &[], meter) {
        Ok(basis) => Ok(basis),
        Err(error) => Err(in_task(Task::Start, error)),
    }
}
