//! Terms behind leads that other leads divide.
ghost use Rattle.std.specs.Prelude.{◌≡◌, ◌≤◌, length, map, All};
ghost use Rattle.machines.specs.Cut.{lead_of};
ghost use Rattle.poly.specs.Seen.{terms_each};
ghost use Rattle.poly.specs.View.{terms_of};
ghost use Rattle.divide.specs.Current.{AreDivisors};
ghost use Rattle.reduced_basis.specs.Tails.{FindsTerm, FindsTail};

use crate::leads::divisor_but;
use monos::{Mono, Order};
use poly::{Poly, Term};
use ring_laws::{Field, Ring};

/// The place of a term, and of an element whose lead divides it.
#[derive(Clone, Copy)]
pub(crate) struct CutPlace {
    pub(crate) term: usize,
    pub(crate) divisor: usize,
}

/// The place of an element, of a term behind its lead, and of another element whose lead divides that term.
#[derive(Clone, Copy)]
pub(crate) struct Tail {
    pub(crate) element: usize,
    pub(crate) term: usize,
    pub(crate) divisor: usize,
}

/// The first of the terms that the lead of another place than `at` divides, with the first such lead.
fn divided_term<K: Field>(at: usize, leads: &[Mono], terms: &[Term<K>]) -> Option<CutPlace>
    requires { All (λ t. All (λ d. length d ≡ length t.mono) leads.now) terms.now }
    ensures { FindsTerm K.scalars at leads.now (terms_of K.meaning terms.now) result }
{
    for (term, found) in terms.iter().enumerate() {
        if let Some(divisor) = divisor_but(at, leads, &found.mono) {
            return Some(CutPlace { term, divisor });
        }
    }
    None
}

/// The first element from `from` on that has a term behind its lead that another element's lead divides.
pub(crate) fn first_tail<K: Field, O: Order>(
    order: O,
    arity: usize,
    list: &[Poly<K, O>],
    leads: &[Mono],
    from: usize,
) -> Option<Tail>
    requires divisors { AreDivisors order arity list.now }
    requires leads { leads.now ≡ map lead_of (terms_each list.now) }
    requires from { from ≤ length list.now }
    ensures { FindsTail K.scalars from (terms_each list.now) result }
{
    for element in from..list.len() {
        let terms = list[element].terms();
        if let Some(place) = divided_term(element, leads, &terms[1..]) {
            return Some(Tail {
                element,
                term: place.term + 1,
                divisor: place.divisor,
            });
        }
    }
    None
}
