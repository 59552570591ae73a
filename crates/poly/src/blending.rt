//! Products with a variable t in front of the others, and with 1 - t: what an intersection of two ideals begins with.
ghost use Rattle.std.specs.Prelude.{◌≡◌, ◌≤◌, ◌+◌, ◌∷◌, [], IfOk};
ghost use Rattle.algebra.specs.Scalars.{field};
ghost use Rattle.machines.specs.Elimination.{with_first};
ghost use Rattle.monos.specs.Variables.{most_variables};
ghost use Rattle.poly.specs.Blending.{times_rest};
ghost use Rattle.poly.specs.Seen.{terms_in};

use crate::Poly;
use monos::{Blocks, Grevlex, Mono};
use ring_laws::{ArithmeticError, Field};
use std::alloc::{AllocError, Global};

/// The product with t, in the order that has t in its first block (Cox, Little and O'Shea, chapter 4, section 3).
pub fn times_t<K: Field>(alloc: Global, p: &Poly<K, Grevlex>) -> Result<Poly<K, Blocks>, AllocError>
    requires { 1 + p.now.arity ≤ most_variables }
    ensures product { IfOk result (λ q. terms_in q ≡ with_first (terms_in p.now)) }
    ensures order { IfOk result (λ q. q.order.first ≡ 1) }
    ensures arity { IfOk result (λ q. q.arity ≡ 1 + p.now.arity) }
{
    let t = just_t(alloc)?;
    p.behind(alloc, Blocks { first: 1 }, &t)
}

/// The product with 1 - t, in that order.
pub fn times_one_less_t<K: Field>(
    alloc: Global,
    p: &Poly<K, Grevlex>,
) -> Result<Poly<K, Blocks>, AllocError>
    requires { 1 + p.now.arity ≤ most_variables }
    ensures product { IfOk result (λ q. terms_in q
        ≡ times_rest (field K.scalars) (terms_in p.now)) }
    ensures order { IfOk result (λ q. q.order.first ≡ 1) }
    ensures arity { IfOk result (λ q. q.arity ≡ 1 + p.now.arity) }
{
    let one = just_one(alloc)?;
    let whole = p.behind(alloc, Blocks { first: 1 }, &one)?;
    let opposite = p.neg(alloc)?;
    let part = times_t(alloc, &opposite)?;
    match whole.add(alloc, &part) {
        Ok(sum) => Ok(sum),
        Err(ArithmeticError::Memory) => Err(AllocError),
        Err(ArithmeticError::Wide) => unreachable!(),
    }
}

/// The monomial t.
fn just_t(alloc: Global) -> Result<Mono, AllocError>
    ensures ok { IfOk result (λ t. t ≡ 1 ∷ []) }
{
    Mono::variable(alloc, 1, 0)
}

/// The monomial 1, of the variable t.
fn just_one(alloc: Global) -> Result<Mono, AllocError>
    ensures ok { IfOk result (λ one. one ≡ 0 ∷ []) }
{
    Mono::one(alloc, 1)
}
