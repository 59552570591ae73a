//! Membership in an ideal.
ghost use Rattle.std.specs.Prelude.{◌≤◌, ◌↔◌, length, IsTrue, IfOk};
ghost use Rattle.divide.specs.Current.{AreDivisors};
ghost use Rattle.divide.specs.Division.{division_of};
ghost use Rattle.divide.specs.Outcomes.{outcome_of};
ghost use Rattle.machines.specs.Machine.{Ran};
ghost use Rattle.divide.specs.Limits.{list_limit};
ghost use Rattle.ideal_ops.specs.Membership.{Decides, IsComplete, IsInIdeal};

use divide::{EngineError, divide};
use journal::Meter;
use monos::Order;
use poly::Poly;
use ring_laws::Field;
use std::alloc::Global;

/// Whether a polynomial is in the ideal of a Gröbner basis, whose elements needn't be monic: whether its rest by the list is 0 (Cox, Little, O'Shea, "Ideals, Varieties, and Algorithms", chapter 2).
/// `Budget` only where the units are exhausted and the next event is one; `Wide` only where the weight of the next cancellation is past.
pub fn contains<K: Field, O: Order>(
    alloc: Global,
    list: &[Poly<K, O>],
    p: &Poly<K, O>,
    meter: &mut Meter,
) -> Result<bool, EngineError>
    requires divisors { AreDivisors p.now.order p.now.arity list.now }
    requires few { length list.now ≤ list_limit }
    requires complete { IsComplete p.now.order p.now.arity list.now }
    ensures ran { Ran (division_of p.now list.now) Decides
        meter.old meter.new (outcome_of result) }
    ensures member { IfOk result (λ b. IsTrue b ↔ IsInIdeal p.now.arity list.now p.now) }
{
    let division = divide(alloc, p, list, meter)?;
    Ok(division.remainder.is_zero())
}
