//! Elements in ascending order of leads.
ghost use Rattle.std.specs.Prelude.{◌≡◌, ◌≢◌, ◌≤◌, [], length, insert, IfOk};
ghost use Rattle.polynomials.specs.Order.{compare};
ghost use Rattle.machines.specs.Cut.{lead_of};
ghost use Rattle.machines.specs.Tidying.{by_lead, put_by_lead};
ghost use Rattle.poly.specs.Seen.{terms_in, terms_each};
ghost use Rattle.divide.specs.Current.{AreDivisors};

use monos::Order;
use poly::Poly;
use ring_laws::Ring;
use std::alloc::{AllocError, Global};
use std::cmp::Ordering;

/// Where the lead of `f` stands to that of `g`.
fn compare_leads<K: Ring, O: Order>(order: O, f: &Poly<K, O>, g: &Poly<K, O>) -> Ordering
    requires arity { f.now.arity ≡ g.now.arity }
    requires nonzero { (terms_in f.now ≢ []) × (terms_in g.now ≢ []) }
    ensures { result ≡ compare (O.order order) (lead_of (terms_in f.now))
        (lead_of (terms_in g.now)) }
{
    let Some(first) = f.terms().first() else {
        unreachable!()
    };
    let Some(second) = g.terms().first() else {
        unreachable!()
    };
    order.compare(&first.mono, &second.mono)
}

/// Before how many elements of a list none has a greater lead.
fn place_of<K: Ring, O: Order>(order: O, f: &Poly<K, O>, list: &[Poly<K, O>]) -> usize
    requires divisors { AreDivisors order f.now.arity list.now }
    requires nonzero { terms_in f.now ≢ [] }
    ensures bound { result ≤ length list.now }
    ensures place { put_by_lead (O.order order) (terms_in f.now) (terms_each list.now)
        ≡ terms_each (insert list.now result f.now) }
{
    for (place, g) in list.iter().enumerate() {
        if let Ordering::Less = compare_leads(order, f, g) {
            return place;
        }
    }
    list.len()
}

/// The elements in ascending order of leads.
pub(crate) fn by_lead<K: Ring, O: Order>(
    alloc: Global,
    order: O,
    arity: usize,
    list: Vec<Poly<K, O>>,
) -> Result<Vec<Poly<K, O>>, AllocError>
    requires divisors { AreDivisors order arity list.items }
    ensures sorted { IfOk result (λ gs.
        terms_each gs.items ≡ by_lead (O.order order) (terms_each list.items)) }
    ensures divisors { IfOk result (λ gs. AreDivisors order arity gs.items) }
{
    let mut rest = list;
    let mut sorted = Vec::with_capacity(alloc, rest.len())?;
    while let Some(g) = rest.pop() {
        let place = place_of(order, &g, &sorted);
        sorted.insert(place, g)?;
    }
    Ok(sorted)
}
