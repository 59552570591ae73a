//! What the polynomials behind a transition have to be combinations of.
ghost use Rattle.std.specs.Prelude.{◌≤◌, ◌+◌, ◌++◌, IfOk, map};
ghost use Rattle.machines.specs.Elimination.{in_front};
ghost use Rattle.monos.specs.Variables.{most_variables};
ghost use Rattle.poly.specs.Standing.{AllStandFor};
ghost use Rattle.cert_form.specs.Cert.{HaveArity, polys_in};

use frac128::Frac;
use monos::{Grevlex, Mono};
use poly::Poly;
use std::alloc::{AllocError, Global};

/// The polynomials of the list, with so many unknowns put in front, and behind them the zeros.
pub(crate) fn generators_of(
    alloc: Global,
    variables: usize,
    unknowns: usize,
    list: &Vec<Poly<Frac, Grevlex>>,
    zeros: &Vec<Poly<Frac, Grevlex>>,
) -> Result<Vec<Poly<Frac, Grevlex>>, AllocError>
    requires few { unknowns + variables ≤ most_variables }
    requires list { HaveArity variables list.now }
    requires zeros { HaveArity (unknowns + variables) zeros.now }
    ensures generators { IfOk result (λ found. AllStandFor (unknowns + variables) found.items
        (map (in_front unknowns) (polys_in list.now) ++ polys_in zeros.now)) }
{
    let front = Mono::one(alloc, unknowns)?;
    let mut found = Vec::new(alloc);
    for element in list {
        found.push(element.behind(alloc, Grevlex, &front)?)?;
    }
    for zero in zeros {
        found.push(zero.copy(alloc)?)?;
    }
    Ok(found)
}
