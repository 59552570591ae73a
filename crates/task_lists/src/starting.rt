//! What a stage begins with.
ghost use Rattle.std.specs.Prelude.{◌<◌, ◌+◌, [], length, get_or, IfOk, IsErrOf};
ghost use Rattle.algebra.specs.Fraction.{ℚ};
ghost use Rattle.polynomials.specs.Terms.{Same};
ghost use Rattle.rounds.specs.Form.{front};
ghost use Rattle.poly.specs.Seen.{terms_in, terms_each, IsImage};
ghost use Rattle.task_lists.specs.Blocks.{in_blocks};
ghost use Rattle.task_lists.specs.Starting.{numbers_of, orbit_starting, meet_starting, starting, front_of, FitsOrbit, FitsMeet, FitsStart, IsPastOrbit, IsPastAt};

use crate::orbit::pulled_back;
use crate::relations::relation_at;
use frac128::{Frac, Whole};
use monos::{Blocks, Grevlex};
use poly::{Poly, times_one_less_t, times_t};
use ring_laws::ArithmeticError;
use std::alloc::{AllocError, Global};

/// What a stage begins with.
#[derive(Clone, Copy)]
pub enum Starting<'a> {
    /// For the orbit of a list: its elements with a form over this base backward for the variables, and the
    /// relations between the powers.
    Orbit(&'a Vec<Whole>, &'a Vec<Poly<Frac, Grevlex>>, &'a Vec<Poly<Frac, Grevlex>>),
    /// For the intersection with another list: the products of the one with t, and of the other with 1 - t.
    Meet(&'a Vec<Poly<Frac, Grevlex>>, &'a Vec<Poly<Frac, Grevlex>>),
}

/// The polynomial at this place of the list.
pub fn element_of<'a>(
    alloc: Global,
    list: &Starting<'a>,
    variables: usize,
    place: usize,
) -> Result<Poly<Frac, Blocks>, ArithmeticError>
    requires fits { FitsStart variables list.now }
    requires place { place < length (starting variables list.now) }
    ensures image { IfOk result
        (IsImage (in_blocks (front_of list.now)) (front_of list.now + variables)) }
    ensures same { IfOk result (λ p.
        Same ℚ (terms_in p) (get_or (starting variables list.now) place [])) }
    ensures wide { IsErrOf result ArithmeticError.Wide → IsPastAt list.now place }
{
    match *list {
        Starting::Orbit(base, back, list) => {
            orbit_element(alloc, base, back, list, variables, place)
        }
        Starting::Meet(left, right) => Ok(meet_element(alloc, variables, left, right, place)?),
    }
}

/// The polynomial at this place of what an orbit begins with.
fn orbit_element(
    alloc: Global,
    base: &Vec<Whole>,
    back: &Vec<Poly<Frac, Grevlex>>,
    list: &Vec<Poly<Frac, Grevlex>>,
    variables: usize,
    place: usize,
) -> Result<Poly<Frac, Blocks>, ArithmeticError>
    requires fits { FitsOrbit variables base.now back.now list.now.items }
    requires place { place < length (orbit_starting variables base.now back.now list.now.items) }
    ensures image { let r = numbers_of base.now in
        IfOk result (IsImage (in_blocks (front r)) (front r + variables)) }
    ensures same { IfOk result (λ p. Same ℚ (terms_in p)
        (get_or (orbit_starting variables base.now back.now list.now.items) place [])) }
    ensures wide { IsErrOf result ArithmeticError.Wide
        → IsPastOrbit (terms_each back.now.items) (terms_each list.now.items) place }
{
    if place < list.len() {
        return pulled_back(alloc, base, back, &list[place]);
    }
    Ok(relation_at(alloc, base.len(), variables, place - list.len())?)
}

/// The polynomial at this place of what an intersection begins with.
fn meet_element(
    alloc: Global,
    variables: usize,
    left: &Vec<Poly<Frac, Grevlex>>,
    right: &Vec<Poly<Frac, Grevlex>>,
    place: usize,
) -> Result<Poly<Frac, Blocks>, AllocError>
    requires fits { FitsMeet variables left.now right.now }
    requires place { place < length (meet_starting left.now right.now) }
    ensures image { IfOk result (IsImage (in_blocks 1) (1 + variables)) }
    ensures same { IfOk result (λ p.
        Same ℚ (terms_in p) (get_or (meet_starting left.now right.now) place [])) }
{
    if place < left.len() {
        return times_t(alloc, &left[place]);
    }
    times_one_less_t(alloc, &right[place - left.len()])
}
