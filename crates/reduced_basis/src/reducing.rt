//! The reduced basis of an ideal.
ghost use Rattle.std.specs.Prelude.{◌≤◌, length, IfOk};
ghost use Rattle.machines.specs.Machine.{Ran};
ghost use Rattle.divide.specs.Outcomes.{outcome_of};
ghost use Rattle.complete.specs.Completing.{AreLike};
ghost use Rattle.complete.specs.Limits.{generators_limit};
ghost use Rattle.reduced_basis.specs.Reduction.{reduction_of, HasReduced, IsTheReducedBasis};

use crate::tidying::tidy_in;
use complete::complete_in;
use divide::EngineError;
use journal::Meter;
use monos::Order;
use poly::Poly;
use ring_laws::Field;
use std::alloc::Global;

/// The reduced basis of the ideal of a list of polynomials of this order and arity: the list is completed, then tidied, in one journal.
/// `Budget` only where the units are exhausted and the next event is one; `Wide` only where the weight of making an element monic, or of the next event, is past.
pub fn reduced_basis_in<K: Field, O: Order>(
    alloc: Global,
    order: O,
    arity: usize,
    gens: &[Poly<K, O>],
    meter: &mut Meter,
) -> Result<Vec<Poly<K, O>>, EngineError>
    requires like { AreLike order arity gens.now }
    requires few { length gens.now ≤ generators_limit }
    ensures ran { Ran (reduction_of order gens.now) (HasReduced order arity)
        meter.old meter.new (outcome_of result) }
    ensures reduced { IfOk result (λ gs. IsTheReducedBasis order arity gens.now gs.items) }
{
    let basis = complete_in(alloc, order, arity, gens, meter)?;
    tidy_in(alloc, order, arity, &basis, meter)
}
