//! Lists of polynomials: monic elements, those without the first variables, pairs of places, equality.
ghost use Rattle.std.specs.Prelude.{◌≡◌, ◌<◌, ◌+◌, ◌-◌, ◌↔◌, ◌++◌, suc, map, length, All, IfOk, OnOk, IsTrue};
ghost use Rattle.algebra.specs.Fraction.{ℚ, rationals};
ghost use Rattle.polynomials.specs.Terms.{AllSame};
ghost use Rattle.exponentials.specs.Table.{numbers};
ghost use Rattle.machines.specs.Cut.{lead_number};
ghost use Rattle.machines.specs.Elimination.{free_part};
ghost use Rattle.poly.specs.Seen.{terms_in, terms_each};
ghost use Rattle.poly.specs.Standing.{IsInVariables};
ghost use Rattle.corollaries.specs.Representation.{pairs_of};

use frac128::Frac;
use monos::{Blocks, Grevlex, Order};
use poly::Poly;
use ring_laws::Ring;
use std::alloc::{AllocError, Global};

/// Whether the number of its lead is 1.
pub fn is_monic<O: Order>(p: &Poly<Frac, O>) -> bool
    ensures { IsTrue result ↔ (lead_number rationals (terms_in p.now) ≡ ℚ.one) }
{
    match p.lead() {
        Some(lead) => lead.coef == Frac::one(),
        None => false,
    }
}

/// The elements with none of the first variables, without these variables. They are refused for want of
/// memory alone.
pub fn free_elements(
    alloc: Global,
    list: &[Poly<Frac, Blocks>],
    front: usize,
    variables: usize,
) -> Result<Vec<Poly<Frac, Grevlex>>, AllocError>
    requires blocks { All (λ p. p.order.first ≡ front) list.now }
    requires arity { All (IsInVariables (front + variables)) list.now }
    ensures kept { IfOk result
        (λ free. terms_each free.items ≡ free_part front (terms_each list.now)) }
    ensures arity { IfOk result (λ free. All (IsInVariables variables) free.items) }
{
    let mut free = Vec::new(alloc);
    for p in list {
        if p.is_free_of_first(front) {
            free.push(p.without_first(alloc, Grevlex, front)?)?;
        }
    }
    Ok(free)
}

/// The pairs of places of a list of `count`, the lower one first, by the first and then by the second.
#[tactic(auto, unfolding(corollaries::specs::Representation::pairs_of))]
pub fn all_pairs(alloc: Global, count: usize) -> Result<Vec<(usize, usize)>, AllocError>
    ensures { IfOk result (λ pairs. pairs.items ≡ pairs_of count) }
{
    let mut pairs = Vec::new(alloc);
    for left in 0..count {
        push_pairs(&mut pairs, left, count)?;
    }
    Ok(pairs)
}

/// Puts the pairs with this lower place behind the others.
fn push_pairs(pairs: &mut Vec<(usize, usize)>, left: usize, count: usize) -> Result<(), AllocError>
    requires { left < count }
    ensures { OnOk result (pairs.new.items ≡ pairs.old.items
        ++ map (λ j. (left, j)) (numbers (suc left) (count - suc left))) }
{
    for right in left + 1..count {
        pairs.push((left, right))?;
    }
    Ok(())
}

/// Whether two lists have the same polynomials in the same places.
pub fn are_equal<O: Order>(left: &[Poly<Frac, O>], right: &[Poly<Frac, O>]) -> bool
    requires orders { All (λ p. All (λ q. p.order ≡ q.order) right.now) left.now }
    requires arities { All (λ p. All (λ q. p.arity ≡ q.arity) right.now) left.now }
    ensures { IsTrue result ↔ AllSame ℚ (terms_each left.now) (terms_each right.now) }
{
    left.len() == right.len() && agree(left, right)
}

/// Whether two lists of one length have the same polynomials in the same places.
fn agree<O: Order>(left: &[Poly<Frac, O>], right: &[Poly<Frac, O>]) -> bool
    requires orders { All (λ p. All (λ q. p.order ≡ q.order) right.now) left.now }
    requires arities { All (λ p. All (λ q. p.arity ≡ q.arity) right.now) left.now }
    requires count { length left.now ≡ length right.now }
    ensures { IsTrue result ↔ AllSame ℚ (terms_each left.now) (terms_each right.now) }
{
    for (i, p) in left.iter().enumerate() {
        let is_same = *p == right[i];
        if !is_same {
            return false;
        }
    }
    true
}
