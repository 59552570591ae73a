//! The first task of a trace.
ghost use Rattle.std.specs.Prelude.{◌≡◌, ◌≤◌, ℕ, [], length, IfOk, IfErr};
ghost use Rattle.machines.specs.Journal.{Start, Begin};
ghost use Rattle.poly.specs.Seen.{terms_each};
ghost use Rattle.divide.specs.Outcomes.{refusal_of};
ghost use Rattle.ideal_ops.specs.Calls.{AreOver};
ghost use Rattle.complete.specs.Limits.{generators_limit};
ghost use Rattle.rounds.specs.Analysis.{starts};
ghost use Rattle.corollaries.specs.Coming.{Comes};
ghost use Rattle.corollaries.specs.Making.{IsStartMade, IsStartRefused};
ghost use Rattle.corollaries.specs.Rounds.{behind};
ghost use Rattle.corollaries.specs.Trace.{no_results, goes, start_of, after_round};
ghost use Rattle.task_lists.specs.Images.{ArePolys, AreRows};
ghost use Rattle.task_lists.specs.View.{start_in};
ghost use Rattle.invariant_fix.specs.Setting.{FitsSetting};
ghost use Rattle.full_trace.specs.Tasks.{Along, Stops, Knows};

use crate::divisors::Divisors;
use complete::complete_in;
use divide::EngineError;
use frac128::Frac;
use invariant_fix::{AnalyseError, Setting, in_task};
use journal::{Meter, Task};
use monos::Grevlex;
use poly::Poly;
use reduced_basis::tidy_in;
use std::alloc::Global;
use task_lists::FullStart;

/// Completes a list and tidies all that this gives, and divides the list by it. `Budget` only where the units
/// are exhausted and the next event is one; `Wide` only where the weight of making an element monic, or of the
/// next event, is past.
fn trace_start(
    alloc: Global,
    arity: usize,
    starts: &[Poly<Frac, Grevlex>],
    meter: &mut Meter,
) -> Result<FullStart, EngineError>
    requires starts { AreOver arity starts.now }
    requires few { length starts.now ≤ generators_limit }
    ensures limit { meter.new.limit ≡ meter.old.limit }
    ensures made { IfOk result (λ t. IsStartMade (terms_each starts.now) (start_in t).0
        (start_in t).1 meter.old.entries meter.new.entries) }
    ensures out { IfOk result (λ t. ArePolys arity t.out) }
    ensures links { IfOk result (λ t. AreRows arity t.links) }
    ensures refused { IfErr result (λ e. IsStartRefused (terms_each starts.now) meter.new
        (refusal_of e) meter.old) }
{
    let list = complete_in(alloc, Grevlex, arity, starts, meter)?;
    let out = tidy_in(alloc, Grevlex, arity, &list, meter)?;
    meter.within_limit();
    let reduced = Divisors {
        order: Grevlex,
        arity,
        list: &out,
    };
    let links = reduced.divide_each(alloc, starts, meter)?;
    Ok(FullStart { out, links })
}

/// What is zero at every start, and the cofactors of the variables that a start sets, each less its value.
pub(crate) fn start(
    alloc: Global,
    setting: &Setting,
    meter: &mut Meter,
) -> Result<FullStart, AnalyseError>
    requires fits { FitsSetting setting.now }
    ensures limit { meter.new.limit ≡ meter.old.limit }
    ensures next { (rounds : ℕ) → Along setting.now (λ A.
        Comes A rounds meter.old.entries (goes (Begin Start) (start_of A no_results starts))
        → IfOk result (λ t. Comes A rounds meter.new.entries
        (after_round A rounds (behind (start_in t).0 (start_in t).1 []) 0 (start_in t).0))) }
    ensures list { IfOk result (λ t. Knows setting.now meter.new t.out.items) }
    ensures links { IfOk result (λ t. AreRows setting.now.arity t.links) }
    ensures refused { (rounds : ℕ) → Along setting.now (λ A.
        Comes A rounds meter.old.entries (goes (Begin Start) (start_of A no_results starts))
        → IfErr result (Stops A rounds meter.new)) }
{
    meter.begin(Task::Start)?;
    match trace_start(alloc, setting.arity, &setting.starts, meter) {
        Ok(start) => Ok(start),
        Err(error) => Err(in_task(Task::Start, error)),
    }
}
