//! Completion of a list to a Gröbner basis.
ghost use Rattle.std.specs.Prelude.{◌≡◌, ◌≤◌, length, None, true, IfOk, OnOk, OnErr, IsErrOf};
ghost use Rattle.algebra.specs.Scalars.{field};
ghost use Rattle.machines.specs.Completion as completion;
ghost use Rattle.machines.specs.Machine.{Ran};
ghost use Rattle.machines.specs.Past.{IsPastMonic, IsPastStart};
ghost use Rattle.poly.specs.Seen.{terms_in, terms_each};
ghost use Rattle.divide.specs.Outcomes.{outcome_of};
ghost use Rattle.complete.specs.Completing.{state_of, AreLike, FitsCompletion, IsBasis, IsNext, IsPastNext, IsStopped, IsWithGenerator, completion_of, HasElements};
ghost use Rattle.complete.specs.Pairs.{IsTold};
ghost use Rattle.divide.specs.Limits.{list_limit};
ghost use Rattle.complete.specs.Limits.{generators_limit};

use crate::element::{Completing, add_element, made_monic, s_polynomial};
use crate::order_kind::mixes_degrees;
use crate::pairs::{Queue, covered_count};
use crate::table::Table;
use divide::{Current, EngineError};
use journal::{Event, Meter};
use monos::Order;
use poly::Poly;
use ring_laws::{ArithmeticError, Field};
use std::alloc::Global;

/// Completes a list of polynomials of this order and arity to a Gröbner basis of their ideal, of monic polynomials.
/// It is Buchberger's algorithm with both criteria for pairs (Cox, Little, O'Shea, "Ideals, Varieties, and Algorithms", chapter 2, sections 7, 9 and 10), which are taken by
/// sugar in an order that mixes degrees (Giovini, Mora, Niesi, Robbiano, Traverso, "One sugar cube, please", 1991), and else by degree.
/// `Budget` only where the units are exhausted and the next event is one; `Wide` only where the weight of making an element monic, or of the next event, is past.
pub fn complete_in<K: Field, O: Order>(
    alloc: Global,
    order: O,
    arity: usize,
    gens: &[Poly<K, O>],
    meter: &mut Meter,
) -> Result<Vec<Poly<K, O>>, EngineError>
    requires like { AreLike order arity gens.now }
    requires few { length gens.now ≤ generators_limit }
    ensures ran { Ran (completion_of order gens.now) (HasElements order arity)
        meter.old meter.new (outcome_of result) }
    ensures basis { IfOk result (λ gs. IsBasis order arity gens.now gs.items) }
    ensures few { IfOk result (λ gs. length gs.items ≤ list_limit) }
{
    meter.within_limit();
    let mut state = first_state(alloc, order, arity, gens)?;
    while step(alloc, &mut state, meter)? {}
    Ok(state.basis)
}

/// The first state of a completion: the elements that aren't 0, each made monic, with their pairs.
fn first_state<K: Field, O: Order>(
    alloc: Global,
    order: O,
    arity: usize,
    gens: &[Poly<K, O>],
) -> Result<Completing<K, O>, ArithmeticError>
    requires like { AreLike order arity gens.now }
    requires few { length gens.now ≤ generators_limit }
    ensures ok { IfOk result (λ s.
        state_of s ≡ completion.initial_state (field K.scalars) (O.order order)
        (terms_each gens.now)) }
    ensures fits { IfOk result (FitsCompletion order arity) }
    ensures told { IfOk result (λ s. IsTold s.queue) }
    ensures wide { IsErrOf result ArithmeticError.Wide
        → IsPastStart K.scalars (field K.scalars) (terms_each gens.now) }
{
    let queue = Queue {
        mixed: mixes_degrees(alloc, order, arity)?,
        pairs: Vec::new(alloc),
        taken: 0,
        table: Table::new(alloc),
    };
    let mut state = Completing {
        order,
        arity,
        basis: Vec::new(alloc),
        leads: Vec::new(alloc),
        sugars: Vec::new(alloc),
        queue,
        current: None,
        pair_sugar: 0,
    };
    for g in gens {
        add_generator(alloc, &mut state, g)?;
    }
    Ok(state)
}

/// Puts a polynomial, made monic, into the list, unless it is 0.
fn add_generator<K: Field, O: Order>(
    alloc: Global,
    state: &mut Completing<K, O>,
    g: &Poly<K, O>,
) -> Result<(), ArithmeticError>
    requires fits { FitsCompletion state.old.order state.old.arity state.old }
    requires few { length state.old.basis.items ≤ list_limit }
    requires order { g.now.order ≡ state.old.order }
    requires arity { g.now.arity ≡ state.old.arity }
    requires told { IsTold state.old.queue }
    ensures ok { OnOk result (IsWithGenerator g.now state.old state.new) }
    ensures fits { OnOk result (FitsCompletion state.old.order state.old.arity state.new) }
    ensures told { OnOk result (IsTold state.new.queue) }
    ensures wide { IsErrOf result ArithmeticError.Wide
        → IsPastMonic K.scalars (field K.scalars) (terms_in g.now) }
{
    let Some(degree) = g.degree() else {
        return Ok(());
    };
    let monic = made_monic(alloc, g)?;
    add_element(alloc, state, monic, degree as u64)?;
    Ok(())
}

/// The next event of a completion. False exactly where none comes.
fn step<K: Field, O: Order>(
    alloc: Global,
    state: &mut Completing<K, O>,
    meter: &mut Meter,
) -> Result<bool, EngineError>
    requires fits { FitsCompletion state.old.order state.old.arity state.old }
    requires few { length state.old.basis.items ≤ list_limit }
    requires told { IsTold state.old.queue }
    ensures ok { IfOk result (λ b. IsNext state.old state.new meter.old meter.new b) }
    ensures fits { IfOk result (λ _. FitsCompletion state.old.order state.old.arity state.new) }
    ensures told { IfOk result (λ b. b ≡ true → IsTold state.new.queue) }
    ensures err { OnErr result (meter.new ≡ meter.old) }
    ensures wide { IsErrOf result EngineError.Wide → IsPastNext state.old }
    ensures budget { IsErrOf result EngineError.Budget → IsStopped state.old meter.old }
{
    let Some(mut current) = state.current.take() else {
        return take_pair(alloc, state, meter);
    };
    if let Some(cut) = current.next_cut(alloc, &state.basis, &state.leads)? {
        let element = cut.element;
        meter.note(Event::Cut { element })?;
        state.current = Some(current);
        return Ok(true);
    }
    if current.is_zero() {
        meter.note(Event::Zero)?;
        return Ok(true);
    }
    let monic = made_monic(alloc, &current.into_poly()?)?;
    let sugar = state.pair_sugar;
    add_element(alloc, state, monic, sugar)?;
    meter.note(Event::Keep)?;
    Ok(true)
}

/// The next event where no polynomial is current: the S-polynomial of the first waiting pair that isn't covered. False exactly where there is none.
fn take_pair<K: Field, O: Order>(
    alloc: Global,
    state: &mut Completing<K, O>,
    meter: &mut Meter,
) -> Result<bool, EngineError>
    requires idle { state.old.current ≡ None }
    requires fits { FitsCompletion state.old.order state.old.arity state.old }
    requires few { length state.old.basis.items ≤ list_limit }
    requires told { IsTold state.old.queue }
    ensures ok { IfOk result (λ b. IsNext state.old state.new meter.old meter.new b) }
    ensures fits { IfOk result (λ _. FitsCompletion state.old.order state.old.arity state.new) }
    ensures told { IfOk result (λ b. b ≡ true → IsTold state.new.queue) }
    ensures err { OnErr result (meter.new ≡ meter.old) }
    ensures wide { IsErrOf result EngineError.Wide → IsPastNext state.old }
    ensures budget { IsErrOf result EngineError.Budget → IsStopped state.old meter.old }
{
    let queue = &mut state.queue;
    let covered = covered_count(&queue.pairs[queue.taken..], &state.leads, &mut queue.table);
    let place = queue.taken + covered;
    let Some(pair) = queue.pairs.get(place) else {
        return Ok(false);
    };
    let (left, right, sugar) = (pair.parts.left, pair.parts.right, pair.parts.sugar);
    let first = &state.basis[left as usize];
    let second = &state.basis[right as usize];
    let p = s_polynomial(alloc, first, second, &pair.parts.multiple)?;
    meter.note(Event::Pair { left, right })?;
    state.queue.taken = place + 1;
    state.current = Some(Current::new(alloc, p));
    state.pair_sugar = sugar;
    Ok(true)
}
