//! The start of a run: the values given, and the equations that they have to meet.

ghost use Rattle.std.specs.Prelude.{◌≡◌, length, map, IfErr};
ghost use Rattle.std.specs.List.{All};
ghost use Rattle.loop_model.specs.Parts.{equation_of};
ghost use Rattle.loop_runs.specs.Fits.{IsEquation};
ghost use Rattle.loop_runs.specs.Replay.{start_fault};
ghost use Rattle.loop_runs.specs.Seen.{numbers_of, seen_start, IsWithin};

use crate::RunError;
use crate::values::value_at;
use frac128::Frac;
use loop_model::Init;

/// Tests that the equations of a start hold at the state, one after another.
pub fn check_start(init: &[Init], state: &[Frac]) -> Result<(), RunError>
    requires { All (λ i. IsEquation (length state.now) (equation_of i)) init.now }
    ensures fault { seen_start result ≡ start_fault (map equation_of init.now)
        (numbers_of state.now) }
    ensures within { IfErr result (λ e. IsWithin (length state.now) e) }
{
    for equation in init {
        let var = equation.var;
        let Ok(value) = value_at(&equation.value, state) else {
            return Err(RunError::Wide { step: 0, var });
        };
        if value != state[var] {
            return Err(RunError::Start { var });
        }
    }
    Ok(())
}
