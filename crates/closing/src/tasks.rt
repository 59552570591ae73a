//! The tasks of a closing: the division of a candidate by the list, and the completion of the list with its rest.
ghost use Rattle.std.specs.Prelude.{◌≡◌, ◌≢◌, ◌≤◌, ◌+◌, ◌++◌, ◌∷◌, [], All, length, IfOk};
ghost use Rattle.algebra.specs.Fraction.{fractions};
ghost use Rattle.polynomials.specs.Order.{grevlex};
ghost use Rattle.machines.specs.Journal.{Image, Extend};
ghost use Rattle.machines.specs.Machines as machines;
ghost use Rattle.poly.specs.Seen.{terms_in, terms_each};
ghost use Rattle.divide.specs.Current.{AreDivisors};
ghost use Rattle.divide.specs.Division.{division_of, HasCofactors};
ghost use Rattle.divide.specs.Limits.{list_limit};
ghost use Rattle.divide.specs.Outcomes.{outcome_of};
ghost use Rattle.complete.specs.Limits.{generators_limit};
ghost use Rattle.ideal_ops.specs.Calls.{AreOver};
ghost use Rattle.closing.specs.Tasks.{RanTask, IsExtendedList, in_task};

use crate::ClosingError;
use divide::{Division, EngineError, divide};
use frac128::Frac;
use ideal_ops::sum;
use journal::{Meter, Task};
use monos::Grevlex;
use poly::Poly;
use std::alloc::Global;

/// The division of the candidate with this number by the list.
pub(crate) fn rest_of(
    alloc: Global,
    number: u32,
    candidate: &Poly<Frac, Grevlex>,
    list: &[Poly<Frac, Grevlex>],
    meter: &mut Meter,
) -> Result<Division<Frac, Grevlex>, EngineError>
    requires divisors { AreDivisors candidate.now.order candidate.now.arity list.now }
    requires few { length list.now ≤ list_limit }
    ensures ran { RanTask (Image number) (division_of candidate.now list.now)
        (HasCofactors candidate.now.order candidate.now.arity) meter.old meter.new
        (outcome_of result) }
{
    meter.begin(Task::Image { number })?;
    divide(alloc, candidate, list, meter)
}

/// The reduced basis of the ideal of the list and the rest of the candidate with this number.
pub(crate) fn extended_list(
    alloc: Global,
    number: u32,
    list: &[Poly<Frac, Grevlex>],
    rest: &Poly<Frac, Grevlex>,
    meter: &mut Meter,
) -> Result<Vec<Poly<Frac, Grevlex>>, EngineError>
    requires alike { AreOver rest.now.arity list.now }
    requires few { length list.now + 1 ≤ generators_limit }
    ensures ran { RanTask (Extend number)
        (machines.elimination fractions grevlex grevlex (λ gs. gs)
        (terms_each list.now ++ terms_in rest.now ∷ []))
        IsExtendedList meter.old meter.new (outcome_of result) }
    ensures arity { IfOk result (λ gs. AreOver rest.now.arity gs.items) }
    ensures nonzero { IfOk result (λ gs. All (λ g. terms_in g ≢ []) gs.items) }
{
    let mut joined = Vec::new(alloc);
    joined.push(rest.copy(alloc)?)?;
    meter.begin(Task::Extend { number })?;
    sum(alloc, list, &joined, meter)
}

/// The refusal of a task of the candidate with this word.
pub(crate) fn in_task(error: EngineError, word: Vec<u32>) -> ClosingError
    ensures { result ≡ in_task word error }
{
    match error {
        EngineError::Wide => ClosingError::Wide { word },
        EngineError::Budget => ClosingError::Budget,
        EngineError::Memory => ClosingError::Memory,
    }
}
