//! What the variables of a branch were.
ghost use Rattle.std.specs.Prelude.{◌≡◌, ◌≤◌, ◌+◌, ◌++◌, List, length, map, All, IfOk, OnOk};
ghost use Rattle.algebra.specs.Fraction.{Fraction};
ghost use Rattle.polynomials.specs.Terms.{Terms};
ghost use Rattle.monos.specs.Variables.{most_variables};
ghost use Rattle.poly.specs.Seen.{terms_each};
ghost use Rattle.poly.specs.Standing.{IsInVariables, AllStandFor};
ghost use Rattle.rounds.specs.Form.{with_room_for};
ghost use Rattle.task_lists.specs.Shapes.{width_of, passers, before_in};

use crate::shape::Shape;
use crate::widening::widened;
use frac128::Frac;
use monos::Grevlex;
use poly::Poly;
use std::alloc::{AllocError, Global};

/// How many variables pass.
pub(crate) fn passers(passing: &[bool]) -> usize
    ensures count { result ≡ passers passing.now }
    ensures few { result ≤ length passing.now }
{
    let Some((passes, others)) = passing.split_first() else {
        return 0;
    };
    let count = passers(others);
    if *passes { count + 1 } else { count }
}

/// What each variable was: the copy of one that passes, else what is told of it in the variables in front and those behind.
pub(crate) fn before(
    alloc: Global,
    shape: Shape,
    passing: &[bool],
    told: &[Poly<Frac, Grevlex>],
) -> Result<Vec<Poly<Frac, Grevlex>>, AllocError>
    requires copies { shape.copies ≡ passers passing.now }
    requires few { width_of shape ≤ most_variables }
    requires over { All (IsInVariables (shape.front + shape.variables)) told.now }
    ensures before { let wide = with_room_for shape.front shape.copies shape.variables in
        IfOk result (λ out. AllStandFor (width_of shape) out.items
        (before_in (width_of shape) shape.front passing.now 0 (map wide (terms_each told.now)))) }
{
    let mut out = Vec::new(alloc);
    push_before(alloc, &mut out, shape, 0, passing, told)?;
    Ok(out)
}

/// Puts what these variables were behind the others, with the copies from this one on.
fn push_before(
    alloc: Global,
    out: &mut Vec<Poly<Frac, Grevlex>>,
    shape: Shape,
    copy: usize,
    passing: &[bool],
    told: &[Poly<Frac, Grevlex>],
) -> Result<(), AllocError>
    requires copies { copy + passers passing.now ≤ shape.copies }
    requires few { width_of shape ≤ most_variables }
    requires over { All (IsInVariables (shape.front + shape.variables)) told.now }
    ensures before { let wide = with_room_for shape.front shape.copies shape.variables in
        (qs : List (Terms Fraction)) → AllStandFor (width_of shape) out.old.items qs
        → OnOk result (AllStandFor (width_of shape) out.new.items
        (qs ++ before_in (width_of shape) shape.front passing.now copy
        (map wide (terms_each told.now)))) }
{
    let (Some((passes, passing)), Some((poly, told))) = (passing.split_first(), told.split_first())
    else {
        return Ok(());
    };
    if *passes {
        out.push(shape.variable(alloc, shape.front + copy)?)?;
        return push_before(alloc, out, shape, copy + 1, passing, told);
    }
    out.push(widened(alloc, shape, poly)?)?;
    push_before(alloc, out, shape, copy, passing, told)
}
