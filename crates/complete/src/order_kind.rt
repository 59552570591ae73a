//! Whether an order is by degree first.
ghost use Rattle.std.specs.Prelude.{◌≡◌, ◌<◌, ◌≤◌, IfOk};
ghost use Rattle.machines.specs.Pairs.{power_at, mixes_degrees};
ghost use Rattle.monos.specs.Variables.{most_variables};

use monos::{Mono, Order};
use std::alloc::{AllocError, Global};
use std::cmp::Ordering;

/// No monomial has more variables.
const MOST_VARIABLES: usize = 4096;

/// Whether an order isn't by degree first: of so many variables the first is above the square of the last.
pub(crate) fn mixes_degrees<O: Order>(
    alloc: Global,
    order: O,
    arity: usize,
) -> Result<bool, AllocError>
    ensures ok { IfOk result (λ b. arity ≤ most_variables
        → b ≡ mixes_degrees (O.order order) arity) }
{
    if arity == 0 {
        return Ok(false);
    }
    if arity > MOST_VARIABLES {
        return Ok(false);
    }
    let first = power(alloc, arity, 0, 1)?;
    let square = power(alloc, arity, arity - 1, 2)?;
    Ok(order.compare(&first, &square).is_gt())
}

/// The power of a variable.
fn power(alloc: Global, arity: usize, variable: usize, exponent: u16) -> Result<Mono, AllocError>
    requires few { arity ≤ most_variables }
    requires inside { variable < arity }
    ensures ok { IfOk result (λ m. m ≡ power_at arity variable exponent) }
{
    let mut exponents = vec![in alloc; 0; arity]?;
    exponents[variable] = exponent;
    Mono::new(alloc, &exponents)
}
