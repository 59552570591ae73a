//! Tidying of a Gröbner basis.
ghost use Rattle.std.specs.Prelude.{◌≡◌, ◌≤◌, length, IfOk, OnErr, IsErrOf};
ghost use Rattle.algebra.specs.Scalars.{field};
ghost use Rattle.machines.specs.Machine.{Ran};
ghost use Rattle.machines.specs.Past.{IsPastStart};
ghost use Rattle.poly.specs.Seen.{terms_each};
ghost use Rattle.divide.specs.Current.{AreDivisors};
ghost use Rattle.divide.specs.Outcomes.{outcome_of};
ghost use Rattle.divide.specs.Limits.{list_limit};
ghost use Rattle.reduced_basis.specs.Tidying.{monic_each, start_of, elements_of, FitsTidying, tidying_of, HasTidied, IsReducedOf, IsNext, IsPastNext, IsStopped};

use crate::leads::first_redundant;
use crate::sorting::by_lead;
use crate::tails::first_tail;
use complete::made_monic;
use divide::{EngineError, cancel, leads_of};
use journal::{Event, Meter};
use monos::{Mono, Order};
use poly::Poly;
use ring_laws::{ArithmeticError, Field, Ring};
use std::alloc::Global;
use std::mem;

/// A tidying on its way: the elements, and their leads beside them. No other lead divides one of the first `apart` leads, nor a term behind the lead of one of the first `clean` elements.
#[derive(Drop)]
struct Tidying<K: Ring, O: Order> {
    order: O,
    arity: usize,
    list: Vec<Poly<K, O>>,
    leads: Vec<Mono>,
    apart: usize,
    clean: usize,
}

/// Tidies a list of polynomials of this order and arity, none of which is 0. Each is made monic, and the list is put in ascending order of leads, so that tails are cancelled from the least lead up, by elements whose own are done; then elements whose leads others' leads divide are taken out, and terms behind leads are cancelled. Of a Gröbner basis this is the reduced one (Cox, Little, O'Shea, "Ideals, Varieties, and Algorithms", chapter 2, section 7).
/// `Budget` only where the units are exhausted and the next event is one; `Wide` only where the weight of making an element monic, or of the next event, is past.
pub fn tidy_in<K: Field, O: Order>(
    alloc: Global,
    order: O,
    arity: usize,
    list: &[Poly<K, O>],
    meter: &mut Meter,
) -> Result<Vec<Poly<K, O>>, EngineError>
    requires divisors { AreDivisors order arity list.now }
    requires few { length list.now ≤ list_limit }
    ensures ran { Ran (tidying_of order list.now) (HasTidied order arity)
        meter.old meter.new (outcome_of result) }
    ensures reduced { IfOk result (λ gs. IsReducedOf order arity list.now gs.items) }
{
    let mut state = first_state(alloc, order, arity, list)?;
    while step(alloc, &mut state, meter)? {}
    Ok(state.list)
}

/// The first state of a tidying: each element made monic, in ascending order of leads.
fn first_state<K: Field, O: Order>(
    alloc: Global,
    order: O,
    arity: usize,
    list: &[Poly<K, O>],
) -> Result<Tidying<K, O>, ArithmeticError>
    requires divisors { AreDivisors order arity list.now }
    requires few { length list.now ≤ list_limit }
    ensures ok { IfOk result (λ s. elements_of s ≡ start_of order list.now) }
    ensures fits { IfOk result (FitsTidying order arity) }
    ensures wide { IsErrOf result ArithmeticError.Wide
        → IsPastStart K.scalars (field K.scalars) (terms_each list.now) }
{
    let monic = all_monic(alloc, order, arity, list)?;
    let list = by_lead(alloc, order, arity, monic)?;
    let leads = leads_of(alloc, &list)?;
    Ok(Tidying {
        order,
        arity,
        list,
        leads,
        apart: 0,
        clean: 0,
    })
}

/// Each element made monic.
fn all_monic<K: Field, O: Order>(
    alloc: Global,
    order: O,
    arity: usize,
    list: &[Poly<K, O>],
) -> Result<Vec<Poly<K, O>>, ArithmeticError>
    requires divisors { AreDivisors order arity list.now }
    ensures monic { IfOk result (λ gs. terms_each gs.items ≡ monic_each list.now) }
    ensures divisors { IfOk result (λ gs. AreDivisors order arity gs.items) }
    ensures wide { IsErrOf result ArithmeticError.Wide
        → IsPastStart K.scalars (field K.scalars) (terms_each list.now) }
{
    let mut out = Vec::with_capacity(alloc, list.len())?;
    for g in list {
        out.push(made_monic(alloc, g)?)?;
    }
    Ok(out)
}

/// The next event of a tidying. False exactly where none comes.
fn step<K: Field, O: Order>(
    alloc: Global,
    state: &mut Tidying<K, O>,
    meter: &mut Meter,
) -> Result<bool, EngineError>
    requires fits { FitsTidying state.old.order state.old.arity state.old }
    ensures ok { IfOk result (λ b. IsNext state.old state.new meter.old meter.new b) }
    ensures fits { IfOk result (λ _. FitsTidying state.old.order state.old.arity state.new) }
    ensures err { OnErr result (meter.new ≡ meter.old) }
    ensures wide { IsErrOf result EngineError.Wide → IsPastNext state.old }
    ensures budget { IsErrOf result EngineError.Budget → IsStopped state.old meter.old }
{
    let Some(place) = first_redundant(&state.leads, state.apart) else {
        state.apart = state.leads.len();
        return cancel_tail(alloc, state, meter);
    };
    let Ok(element) = u32::try_from(place) else {
        unreachable!()
    };
    meter.note(Event::Drop { element })?;
    let _ = state.list.remove(place);
    let _ = state.leads.remove(place);
    state.apart = place;
    state.clean = 0;
    Ok(true)
}

/// The next event where no lead divides another: the greatest term behind the lead of the first element that has one which another lead divides is cancelled. False exactly where there is none.
fn cancel_tail<K: Field, O: Order>(
    alloc: Global,
    state: &mut Tidying<K, O>,
    meter: &mut Meter,
) -> Result<bool, EngineError>
    requires fits { FitsTidying state.old.order state.old.arity state.old }
    requires apart { state.old.apart ≡ length state.old.leads.items }
    ensures ok { IfOk result (λ b. IsNext state.old state.new meter.old meter.new b) }
    ensures fits { IfOk result (λ _. FitsTidying state.old.order state.old.arity state.new) }
    ensures err { OnErr result (meter.new ≡ meter.old) }
    ensures wide { IsErrOf result EngineError.Wide → IsPastNext state.old }
    ensures budget { IsErrOf result EngineError.Budget → IsStopped state.old meter.old }
{
    let Some(tail) = first_tail(
        state.order,
        state.arity,
        &state.list,
        &state.leads,
        state.clean,
    ) else {
        return Ok(false);
    };
    let zero = Poly::zero(alloc, state.order, state.list[tail.element].arity());
    let poly = mem::replace(&mut state.list[tail.element], zero);
    let divisor = &state.list[tail.divisor];
    let (left, _) = cancel(alloc, poly, tail.term, divisor)?;
    let Ok(element) = u32::try_from(tail.element) else {
        unreachable!()
    };
    let Ok(by) = u32::try_from(tail.divisor) else {
        unreachable!()
    };
    meter.note(Event::Tail { element, by })?;
    state.list[tail.element] = left;
    state.clean = tail.element;
    Ok(true)
}
