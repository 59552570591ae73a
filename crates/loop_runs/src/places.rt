//! Places of refusals: letters and steps.

ghost use Rattle.std.specs.Prelude.{◌≡◌, ◌≤◌, ◌-◌, ℕ, option_map};
ghost use Rattle.loop_runs.specs.Seen.{fault_of, IsWithin};
ghost use Rattle.loop_runs.specs.ChainReplay.{fault_behind};
ghost use Rattle.loop_runs.specs.ChainRunsSeen.{CountsTo};

use crate::RunError;

/// The refusal of a word, where so many letters and steps came before it.
pub(crate) fn refusal_behind(error: RunError, letters: usize, steps: usize) -> RunError
    requires few { letters ≤ steps }
    requires room { CountsTo (usize.MAX - steps) error }
    ensures fault { fault_of result ≡ option_map (fault_behind letters steps) (fault_of error) }
    ensures within { (m : ℕ) → IsWithin m error → IsWithin m result }
{
    match error {
        RunError::NoBranch { index } => RunError::NoBranch {
            index: letters + index,
        },
        RunError::Wide { step, var } => RunError::Wide {
            step: steps + step,
            var,
        },
        RunError::Count { .. } | RunError::Start { .. } | RunError::Memory => error,
    }
}
