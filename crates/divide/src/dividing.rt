//! Division by a list, with cofactors.
ghost use Rattle.std.specs.Prelude.{◌≡◌, ◌≢◌, ◌≤◌, ℕ, List, [], ◌++◌, false, length, map, All, IfOk, OnErr, IsErrOf};
ghost use Rattle.polynomials.specs.Polynomial.{IsPolynomial};
ghost use Rattle.polynomials.specs.Terms.{Same, combination};
ghost use Rattle.machines.specs.Basis.{AtPlaces};
ghost use Rattle.machines.specs.Cut.{lead_of, divides};
ghost use Rattle.machines.specs.Machine.{Ran};
ghost use Rattle.monos.specs.Variables.{most_variables};
ghost use Rattle.poly.specs.Seen.{terms_in, terms_each};
ghost use Rattle.poly.specs.View.{terms_of};
ghost use Rattle.divide.specs.Current.{AreDivisors, IsCurrent};
ghost use Rattle.divide.specs.Outcomes.{outcome_of};
ghost use Rattle.divide.specs.Division.{order_of, arity_of, FitsDivision, IsBegun, IsNext, IsPastNext, IsStopped, division_of, HasCofactors};
ghost use Rattle.divide.specs.Limits.{list_limit};

use crate::{Current, Cut, EngineError};
use journal::{Event, Meter};
use monos::{Mono, Order};
use poly::{Poly, Term};
use ring_laws::{Field, Ring};
use std::alloc::{AllocError, Global};

/// A division on its way: what is left, whether that was 0 and is put away, and for each element the terms of its cofactor so far.
#[derive(Drop)]
struct Dividing<K: Ring, O: Order> {
    current: Current<K, O>,
    put_away: bool,
    cofactors: Vec<Vec<Term<K>>>,
}

/// The cofactors of the elements in their order, and the remainder.
#[derive(Drop)]
pub struct Division<K: Ring, O: Order> {
    pub cofactors: Vec<Poly<K, O>>,
    pub remainder: Poly<K, O>,
}

/// Divides a polynomial by a list: the greatest term that some lead divides is cancelled by the first element whose lead divides it, until there is none (Cox, Little, O'Shea, "Ideals, Varieties, and Algorithms", chapter 2, section 3).
/// `Budget` only where the units are exhausted and the next event is one; `Wide` only where the weight of the next cancellation is past.
pub fn divide<K: Field, O: Order>(
    alloc: Global,
    p: &Poly<K, O>,
    list: &[Poly<K, O>],
    meter: &mut Meter,
) -> Result<Division<K, O>, EngineError>
    requires divisors { AreDivisors p.now.order p.now.arity list.now }
    requires few { length list.now ≤ list_limit }
    ensures ran { Ran (division_of p.now list.now) (HasCofactors p.now.order p.now.arity)
        meter.old meter.new (outcome_of result) }
    ensures sum { IfOk result (λ d. Same K.scalars.arithmetic (terms_in p.now)
        (combination K.scalars.arithmetic (terms_each d.cofactors.items) (terms_each list.now)
        ++ terms_in d.remainder)) }
    ensures undivided { IfOk result (λ d. AtPlaces
        (λ t. AtPlaces (λ g. divides (lead_of g) t.0 ≡ false) (terms_each list.now))
        (terms_in d.remainder)) }
{
    let leads = leads_of(alloc, list)?;
    let order = p.order();
    let arity = p.arity();
    let mut state = first_state(alloc, p, list.len())?;
    while step(alloc, &mut state, list, &leads, meter)? {}
    let cofactors = polynomials_of(alloc, order, arity, state.cofactors)?;
    let remainder = state.current.into_poly()?;
    Ok(Division {
        cofactors,
        remainder,
    })
}

/// Copies of the leads of a list.
pub fn leads_of<K: Ring, O: Order>(
    alloc: Global,
    list: &[Poly<K, O>],
) -> Result<Vec<Mono>, AllocError>
    requires { All (λ g. terms_in g ≢ []) list.now }
    ensures leads { IfOk result (λ leads. leads.items ≡ map lead_of (terms_each list.now)) }
{
    let mut leads = Vec::with_capacity(alloc, list.len())?;
    for g in list {
        leads.push(lead_copy(alloc, g)?)?;
    }
    Ok(leads)
}

/// A copy of the lead.
pub fn lead_copy<K: Ring, O: Order>(alloc: Global, g: &Poly<K, O>) -> Result<Mono, AllocError>
    requires { terms_in g.now ≢ [] }
    ensures lead { IfOk result (λ lead. lead ≡ lead_of (terms_in g.now)) }
{
    let Some(lead) = g.terms().first() else {
        unreachable!()
    };
    lead.mono.copy(alloc)
}

/// A division of which nothing is done yet.
fn first_state<K: Ring, O: Order>(
    alloc: Global,
    p: &Poly<K, O>,
    count: usize,
) -> Result<Dividing<K, O>, AllocError>
    ensures ok { IfOk result (λ s. IsBegun p.now count s) }
    ensures fits { IfOk result (FitsDivision p.now.order p.now.arity count) }
    ensures current { IfOk result (λ s. (ls : List (List ℕ)) → IsCurrent ls s.current) }
{
    let mut cofactors = Vec::with_capacity(alloc, count)?;
    for _ in 0..count {
        cofactors.push(Vec::new(alloc))?;
    }
    let current = Current::new(alloc, p.copy(alloc)?);
    Ok(Dividing {
        current,
        put_away: false,
        cofactors,
    })
}

/// The next event of a division. False exactly where none comes.
fn step<K: Field, O: Order>(
    alloc: Global,
    state: &mut Dividing<K, O>,
    list: &[Poly<K, O>],
    leads: &[Mono],
    meter: &mut Meter,
) -> Result<bool, EngineError>
    requires divisors { AreDivisors (order_of state.old) (arity_of state.old) list.now }
    requires few { length list.now ≤ list_limit }
    requires leads { leads.now ≡ map lead_of (terms_each list.now) }
    requires fits { FitsDivision (order_of state.old) (arity_of state.old)
        (length list.now) state.old }
    requires current { IsCurrent leads.now state.old.current }
    ensures ok { IfOk result (λ b. IsNext list.now state.old state.new meter.old meter.new b) }
    ensures fits { IfOk result (λ _.
        FitsDivision (order_of state.old) (arity_of state.old) (length list.now) state.new) }
    ensures current { IfOk result (λ _. IsCurrent leads.now state.new.current) }
    ensures err { OnErr result (meter.new ≡ meter.old) }
    ensures wide { IsErrOf result EngineError.Wide → IsPastNext list.now state.old }
    ensures budget { IsErrOf result EngineError.Budget → IsStopped list.now state.old meter.old }
{
    if state.put_away {
        return Ok(false);
    }
    match state.current.next_cut(alloc, list, leads)? {
        Some(Cut { factor, element }) => {
            state.cofactors[element as usize].push(factor)?;
            meter.note(Event::Cut { element })?;
            Ok(true)
        }
        None => {
            if !state.current.is_zero() {
                return Ok(false);
            }
            meter.note(Event::Zero)?;
            state.put_away = true;
            Ok(true)
        }
    }
}

/// The polynomials of lists of terms that stand in descending order.
fn polynomials_of<K: Ring, O: Order>(
    alloc: Global,
    order: O,
    arity: usize,
    lists: Vec<Vec<Term<K>>>,
) -> Result<Vec<Poly<K, O>>, AllocError>
    requires few { arity ≤ most_variables }
    requires descending { All (λ v. IsPolynomial K.scalars.arithmetic (O.order order) arity
        (terms_of K.meaning v.items)) lists.items }
    ensures terms { IfOk result (λ ps.
        terms_each ps.items ≡ map (λ v. terms_of K.meaning v.items) lists.items) }
    ensures like { IfOk result (λ ps. All (λ q. (q.order ≡ order) × (q.arity ≡ arity)) ps.items) }
{
    let mut out = Vec::with_capacity(alloc, lists.len())?;
    for terms in lists {
        out.push(Poly::from_descending(order, arity, terms))?;
    }
    Ok(out)
}
