//! A completion on its way, and what is put into it.
ghost use Rattle.std.specs.Prelude.{◌≡◌, ◌≢◌, ◌≤◌, ◌+◌, [], ◌++◌, length, IfOk, OnOk, IsErrOf, ◌⊎◌};
ghost use Rattle.algebra.specs.Scalars.{field};
ghost use Rattle.polynomials.specs.Exponent.{lcm, over, Divides};
ghost use Rattle.polynomials.specs.Terms.{negate};
ghost use Rattle.polynomials.specs.Weight.{IsPastSum};
ghost use Rattle.machines.specs.Collect.{collect};
ghost use Rattle.machines.specs.Cut.{lead_of, monic};
ghost use Rattle.machines.specs.High.{IsPastRaised};
ghost use Rattle.machines.specs.Past.{IsPastMonic};
ghost use Rattle.poly.specs.Seen.{terms_in};
ghost use Rattle.complete.specs.Completing.{FitsCompletion, IsSmall, IsWithElement};
ghost use Rattle.complete.specs.Pairs.{IsTold};
ghost use Rattle.complete.specs.Raising.{raised_to};
ghost use Rattle.divide.specs.Limits.{list_limit};

use crate::pairs::{Queue, add_pairs};
use divide::{Current, lead_copy};
use monos::{Mono, Order};
use poly::{Poly, Term};
use ring_laws::{ArithmeticError, Field, Ring};
use std::alloc::{AllocError, Global};

/// A completion on its way: the elements, their leads and sugars beside them, the pairs that wait, the current polynomial, and the sugar of the pair that was taken last.
#[derive(Drop)]
pub(crate) struct Completing<K: Ring, O: Order> {
    pub(crate) order: O,
    pub(crate) arity: usize,
    pub(crate) basis: Vec<Poly<K, O>>,
    pub(crate) leads: Vec<Mono>,
    pub(crate) sugars: Vec<u64>,
    pub(crate) queue: Queue,
    pub(crate) current: Option<Current<K, O>>,
    pub(crate) pair_sugar: u64,
}

/// Puts a monic polynomial of this sugar at the end of the list, with its pairs; nothing is current then.
pub(crate) fn add_element<K: Ring, O: Order>(
    alloc: Global,
    state: &mut Completing<K, O>,
    g: Poly<K, O>,
    sugar: u64,
) -> Result<(), AllocError>
    requires fits { FitsCompletion state.old.order state.old.arity state.old }
    requires few { length state.old.basis.items ≤ list_limit }
    requires order { g.order ≡ state.old.order }
    requires arity { g.arity ≡ state.old.arity }
    requires nonzero { terms_in g ≢ [] }
    requires sugar { IsSmall (length state.old.basis.items + 1) sugar }
    requires told { IsTold state.old.queue }
    ensures element { OnOk result (IsWithElement g sugar state.old state.new) }
    ensures fits { OnOk result (FitsCompletion state.old.order state.old.arity state.new) }
    ensures told { OnOk result (IsTold state.new.queue) }
{
    let lead = lead_copy(alloc, &g)?;
    add_pairs(
        alloc,
        state.order,
        &state.leads,
        &state.sugars,
        &lead,
        sugar,
        &mut state.queue,
    )?;
    state.leads.push(lead)?;
    state.sugars.push(sugar)?;
    state.basis.push(g)?;
    state.current = None;
    Ok(())
}

/// The polynomial divided by the number of its lead. `Wide` only where the weight of that is past and the number isn't 1.
pub fn made_monic<K: Field, O: Order>(
    alloc: Global,
    p: &Poly<K, O>,
) -> Result<Poly<K, O>, ArithmeticError>
    requires { terms_in p.now ≢ [] }
    ensures order { IfOk result (λ q. q.order ≡ p.now.order) }
    ensures arity { IfOk result (λ q. q.arity ≡ p.now.arity) }
    ensures monic { IfOk result (λ q. terms_in q ≡ monic (field K.scalars) (terms_in p.now)) }
    ensures nonzero { IfOk result (λ q. terms_in q ≢ []) }
    ensures wide { IsErrOf result ArithmeticError.Wide
        → IsPastMonic K.scalars (field K.scalars) (terms_in p.now) }
{
    p.monic(alloc)
}

/// The S-polynomial of two elements, whose leads have this least common multiple.
pub fn s_polynomial<K: Field, O: Order>(
    alloc: Global,
    f: &Poly<K, O>,
    g: &Poly<K, O>,
    multiple: &Mono,
) -> Result<Poly<K, O>, ArithmeticError>
    requires order { f.now.order ≡ g.now.order }
    requires arity { f.now.arity ≡ g.now.arity }
    requires nonzero { (terms_in f.now ≢ []) × (terms_in g.now ≢ []) }
    requires multiple { multiple.now ≡ lcm (lead_of (terms_in f.now)) (lead_of (terms_in g.now)) }
    ensures order { IfOk result (λ p. p.order ≡ f.now.order) }
    ensures arity { IfOk result (λ p. p.arity ≡ f.now.arity) }
    ensures terms { IfOk result (λ p. terms_in p ≡ collect (field K.scalars) (O.order f.now.order)
        (raised_to K.scalars multiple.now (terms_in f.now)
        ++ negate K.scalars.arithmetic (raised_to K.scalars multiple.now (terms_in g.now)))) }
    ensures wide { IsErrOf result ArithmeticError.Wide
        → IsPastSum K.scalars (terms_in f.now) (terms_in g.now)
        ⊎ IsPastRaised multiple.now (terms_in f.now)
        ⊎ IsPastRaised multiple.now (terms_in g.now) }
{
    let by = quotient_by_lead(alloc, multiple, f)?;
    let left = f.shift(alloc, &by)?;
    let mono = quotient_by_lead(alloc, multiple, g)?;
    let factor = Term {
        mono,
        coef: K::one(),
    };
    left.sub_multiple(alloc, &factor, g)
}

/// The monomial that the lead of a polynomial is multiplied by to give this multiple of it.
fn quotient_by_lead<K: Field, O: Order>(
    alloc: Global,
    multiple: &Mono,
    f: &Poly<K, O>,
) -> Result<Mono, AllocError>
    requires nonzero { terms_in f.now ≢ [] }
    requires long { length multiple.now ≡ f.now.arity }
    requires divided { Divides (lead_of (terms_in f.now)) multiple.now }
    ensures quotient { IfOk result (λ by. by ≡ over multiple.now (lead_of (terms_in f.now))) }
    ensures long { IfOk result (λ by. length by ≡ f.now.arity) }
{
    let Some(lead) = f.terms().first() else {
        unreachable!()
    };
    multiple.quotient(alloc, &lead.mono)
}
