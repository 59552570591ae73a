//! The relations between the powers over a base.
ghost use Rattle.std.specs.Prelude.{◌≡◌, ◌≤◌, ◌<◌, ◌+◌, [], get_or, IfOk};
ghost use Rattle.algebra.specs.Fraction.{rationals};
ghost use Rattle.polynomials.specs.Exponent.{plus};
ghost use Rattle.machines.specs.Collect.{collect};
ghost use Rattle.solvable_maps.specs.Uses.{unit};
ghost use Rattle.rounds.specs.Form.{front, orbit_order, relations};
ghost use Rattle.monos.specs.Variables.{most_variables};
ghost use Rattle.poly.specs.Seen.{terms_in};
ghost use Rattle.task_lists.specs.Blocks.{HasFront, relation_of};

use expo::width;
use frac128::Frac;
use monos::{Blocks, Mono};
use poly::{Poly, Term};
use ring_laws::{ArithmeticError, Ring};
use std::alloc::{AllocError, Global};

/// How many variables stand in front of a loop's, over a base of so many numbers.
pub fn front(numbers: usize) -> usize
    requires { front numbers ≤ most_variables }
    ensures { result ≡ front numbers }
{
    width(numbers, 0)
}

/// The relation at this place: s s - 1, and then the u_j v_j - 1.
pub(crate) fn relation_at(
    alloc: Global,
    numbers: usize,
    vars: usize,
    place: usize,
) -> Result<Poly<Frac, Blocks>, AllocError>
    requires few { front numbers + vars ≤ most_variables }
    requires place { place ≤ numbers }
    ensures relation { IfOk result (λ p. terms_in p
        ≡ collect rationals (orbit_order numbers) (get_or (relations numbers vars) place [])) }
    ensures block { IfOk result (HasFront numbers vars) }
{
    if place == 0 {
        return relation(alloc, numbers, vars, 1, 1);
    }
    relation(alloc, numbers, vars, 1 + place, 1 + place + numbers)
}

/// The product of two variables, less one, over a base of so many numbers: these variables stand in front.
fn relation(
    alloc: Global,
    numbers: usize,
    vars: usize,
    left: usize,
    right: usize,
) -> Result<Poly<Frac, Blocks>, AllocError>
    requires few { front numbers + vars ≤ most_variables }
    requires left { left < front numbers }
    requires right { right < front numbers }
    ensures relation { IfOk result (λ p. terms_in p ≡ relation_of numbers vars left right) }
    ensures block { IfOk result (HasFront numbers vars) }
{
    let first = front(numbers);
    let arity = first + vars;
    let mut terms = Vec::new(alloc);
    terms.push(Term {
        mono: product_of(alloc, arity, left, right)?,
        coef: Frac::one(),
    })?;
    terms.push(Term {
        mono: Mono::one(alloc, arity)?,
        coef: Frac::one().neg(),
    })?;
    Poly::from_distinct(alloc, Blocks { first }, arity, terms)
}

/// The product of two variables. Its exponents are at most 2, so it fits.
fn product_of(alloc: Global, arity: usize, left: usize, right: usize) -> Result<Mono, AllocError>
    requires few { arity ≤ most_variables }
    requires left { left < arity }
    requires right { right < arity }
    ensures product { IfOk result (λ e. e ≡ plus (unit arity left) (unit arity right)) }
{
    let one = Mono::variable(alloc, arity, left)?;
    let other = Mono::variable(alloc, arity, right)?;
    match one.times(alloc, &other) {
        Ok(product) => Ok(product),
        Err(ArithmeticError::Memory) => Err(AllocError),
        Err(ArithmeticError::Wide) => unreachable!(),
    }
}
