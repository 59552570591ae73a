//! The state in which each variable has itself as its value.

ghost use Rattle.std.specs.Prelude.{◌<◌, ◌≤◌, IfOk, IsSomeAnd, slice_get};
ghost use Rattle.algebra.specs.Fraction.{ℚ};
ghost use Rattle.polynomials.specs.Terms.{variables};
ghost use Rattle.poly.specs.Standing.{StandsFor, AllStandFor};
ghost use Rattle.monos.specs.Variables.{most_variables};

use frac128::Frac;
use monos::Grevlex;
use poly::Poly;
use std::alloc::{AllocError, Global};

/// The variables as polynomials, `arity` of them.
pub fn free_state(alloc: Global, arity: usize) -> Result<Vec<Poly<Frac, Grevlex>>, AllocError>
    requires { arity ≤ most_variables }
    ensures variables { IfOk result (λ all. AllStandFor arity all.items (variables ℚ arity)) }
{
    let mut all = Vec::new(alloc);
    for index in 0..arity {
        all.push(free_variable(alloc, arity, index)?)?;
    }
    Ok(all)
}

/// The variable with this index.
fn free_variable(
    alloc: Global,
    arity: usize,
    index: usize,
) -> Result<Poly<Frac, Grevlex>, AllocError>
    requires few { arity ≤ most_variables }
    requires index { index < arity }
    ensures variable { IfOk result
        (λ p. IsSomeAnd (slice_get (variables ℚ arity) index) (StandsFor arity p)) }
{
    Poly::variable(alloc, Grevlex, arity, index)
}
