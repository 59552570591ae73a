//! Finds the lists and cofactors of a full certificate, under a meter, behind an analysis.
//!
//! Proved: `traceable_setting` gives the setting of a loop all of whose branches begin at 0, or why it has none; `trace` gives the forms,
//! the start and the stages of the finished trace, which with an analysis of as many rounds are a valid full certificate. Each refusal has
//! its cause.
//!
//! Notion: certificates of completeness.
#![tactic(auto)]

ghost use Rattle.std.specs.Prelude.{All, ◌≡◌, [], IfOk, IfErr};
ghost use Rattle.invariant_fix.specs.Setting.{FitsSetting, HoldsOf};
ghost use Rattle.full_trace.specs.Late.{BeginsAtZero};
ghost use Rattle.full_trace.specs.Traced.{HasFollowed, IsTraceOf, IsTraceIn, IsStopped};

mod divisors;
mod each_round;
mod errors;
mod forms;
mod found;
mod pairs;
mod round_in_work;
mod rows;
mod setting;
mod stage;
mod start;
mod tasks;

use each_round::all_rounds;
pub use errors::TraceError;
use forms::forms_in;
pub use found::Trace;
use invariant_fix::{AnalyseError, Setting};
use journal::Meter;
pub use setting::traceable_setting;
use start::start;
use std::alloc::Global;

/// The trace of so many rounds of a loop, from its setting: the lists of the analysis of so many rounds, with the
/// cofactors that show them. No map and no branch is refused.
///
/// The entries that it makes are those of the trace of the loop (docs/DEFINITIONS.md, section 20), up to the
/// end or to the refusal. `Wide` only where the weight of making the starting list, or of the next event, of its
/// task is past; `Budget` only where the units are exhausted and the next entry is one.
pub fn trace(
    alloc: Global,
    setting: Setting,
    rounds: u32,
    meter: &mut Meter,
) -> Result<Trace, AnalyseError>
    requires fits { FitsSetting setting }
    requires at_zero { All BeginsAtZero setting.branches.items }
    requires unbegun { meter.old.entries ≡ [] }
    ensures limit { meter.new.limit ≡ meter.old.limit }

    // On every answer the entries are none, or follow the loop.
    ensures follows { HoldsOf setting (λ program. HasFollowed program rounds meter.new.entries) }

    // The trace has finished, and it is what is given.
    ensures traced { HoldsOf setting (λ program.
        IfOk result (IsTraceOf program rounds meter.new.entries)) }

    // Its polynomials have the variables and orders that they should have.
    ensures over { IfOk result (IsTraceIn setting.arity) }

    // Each refusal has its cause.
    ensures refused { HoldsOf setting (λ program.
        IfErr result (IsStopped program rounds meter.new)) }
{
    let first = start(alloc, &setting, meter)?;
    let rounds = all_rounds(alloc, &setting, rounds, &first.out, meter)?;
    let forms = forms_in(alloc, setting.branches)?;
    Ok(Trace {
        forms,
        start: first,
        rounds,
    })
}
