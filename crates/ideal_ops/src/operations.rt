//! The operations on ideals.
ghost use Rattle.std.specs.Prelude.{◌≡◌, ◌≢◌, ◌≤◌, ◌+◌, ◌++◌, ℕ, [], length, IfOk, OnOk};
ghost use Rattle.poly.specs.Seen.{arity_of, terms_each};
ghost use Rattle.machines.specs.Machine.{Ran};
ghost use Rattle.divide.specs.Outcomes.{outcome_of};
ghost use Rattle.complete.specs.Limits.{generators_limit};
ghost use Rattle.ideal_ops.specs.Calls.{sum_way, intersection_way, elimination_way, elimination_of, IsListOf, AreOver, HaveOneArity, IsSum, IsIntersection, IsEliminationOf, first_block};
ghost use Rattle.complete.specs.Completing.{AreAlike};
ghost use Rattle.ideal_ops.specs.Limits.{most_blended};

use crate::blending::blend;
use crate::eliminating::eliminate_block;
use divide::EngineError;
use journal::Meter;
use monos::{Blocks, Grevlex};
use poly::Poly;
use reduced_basis::reduced_basis_in;
use ring_laws::{Field, Ring};
use std::alloc::{AllocError, Global};

/// The reduced basis of the sum of two ideals, each of which is given by a list that generates it: their elements together are completed, then tidied (Cox, Little, O'Shea, "Ideals, Varieties, and Algorithms", chapter 4).
/// `Budget` only where the units are exhausted and the next event is one; `Wide` only where the weight of making an element monic, or of the next event, is past.
pub fn sum<K: Field>(
    alloc: Global,
    a: &[Poly<K, Grevlex>],
    b: &[Poly<K, Grevlex>],
    meter: &mut Meter,
) -> Result<Vec<Poly<K, Grevlex>>, EngineError>
    requires alike { HaveOneArity (a.now ++ b.now) }
    requires few { length a.now + length b.now ≤ generators_limit }
    ensures ran { let way = sum_way a.now b.now in
        Ran (elimination_of way) (IsListOf way) meter.old meter.new (outcome_of result) }
    ensures sum { IfOk result (λ gs. IsSum a.now b.now gs.items) }
{
    let gens = together(alloc, a, b)?;
    reduced_basis_in(alloc, Grevlex, common_arity(a, b), &gens, meter)
}

/// The reduced basis of the intersection of two ideals, each of which is given by a list that generates it: t times the one list and 1 - t times the other are completed, and what has no t is tidied (Cox, Little, O'Shea, "Ideals, Varieties, and Algorithms", chapter 4).
/// `Budget` only where the units are exhausted and the next event is one; `Wide` only where the weight of making an element monic, or of the next event, is past.
pub fn meet<K: Field>(
    alloc: Global,
    a: &[Poly<K, Grevlex>],
    b: &[Poly<K, Grevlex>],
    meter: &mut Meter,
) -> Result<Vec<Poly<K, Grevlex>>, EngineError>
    requires alike { HaveOneArity (a.now ++ b.now) }
    requires arity { arity_of (a.now ++ b.now) ≤ most_blended }
    requires few { length a.now + length b.now ≤ generators_limit }
    ensures ran { let way = intersection_way a.now b.now in
        Ran (elimination_of way) (IsListOf way) meter.old meter.new (outcome_of result) }
    ensures intersection { IfOk result (λ gs. IsIntersection a.now b.now gs.items) }
{
    let arity = common_arity(a, b);
    let gens = blend(alloc, arity, a, b)?;
    eliminate_block(alloc, 1, arity, &gens, meter)
}

/// The reduced basis of what has none of the variables of the first block in the ideal of a list, in the other variables: the list is completed, and what has none of these variables is tidied (Cox, Little, O'Shea, "Ideals, Varieties, and Algorithms", chapter 3).
/// `Budget` only where the units are exhausted and the next event is one; `Wide` only where the weight of making an element monic, or of the next event, is past.
pub fn eliminate<K: Field>(
    alloc: Global,
    gens: &[Poly<K, Blocks>],
    meter: &mut Meter,
) -> Result<Vec<Poly<K, Grevlex>>, EngineError>
    requires some { gens.now ≢ [] }
    requires alike { AreAlike gens.now }
    requires block { first_block gens.now ≤ arity_of gens.now }
    requires few { length gens.now ≤ generators_limit }
    ensures ran { let way = elimination_way (first_block gens.now) gens.now in
        Ran (elimination_of way) (IsListOf way) meter.old meter.new (outcome_of result) }
    ensures elimination { IfOk result (λ gs. IsEliminationOf gens.now gs.items) }
{
    let Some(leader) = gens.first() else {
        unreachable!()
    };
    let first = leader.order().first;
    eliminate_block(alloc, first, leader.arity() - first, gens, meter)
}

/// How many variables the polynomials of two lists have, and 0 where there are none.
fn common_arity<K: Ring>(a: &[Poly<K, Grevlex>], b: &[Poly<K, Grevlex>]) -> usize
    ensures { result ≡ arity_of (a.now ++ b.now) }
{
    match (a.first(), b.first()) {
        (Some(p), _) => p.arity(),
        (None, Some(q)) => q.arity(),
        (None, None) => 0,
    }
}

/// Copies of the polynomials of two lists, the one behind the other.
fn together<K: Ring>(
    alloc: Global,
    a: &[Poly<K, Grevlex>],
    b: &[Poly<K, Grevlex>],
) -> Result<Vec<Poly<K, Grevlex>>, AllocError>
    requires alike { HaveOneArity (a.now ++ b.now) }
    ensures terms { IfOk result (λ gs. terms_each gs.items ≡ terms_each a.now ++ terms_each b.now) }
    ensures arity { IfOk result (λ gs. AreOver (arity_of (a.now ++ b.now)) gs.items) }
{
    let mut gens = Vec::new(alloc);
    push_copies(alloc, &mut gens, a)?;
    push_copies(alloc, &mut gens, b)?;
    Ok(gens)
}

/// Puts copies of polynomials behind the others.
fn push_copies<K: Ring>(
    alloc: Global,
    gens: &mut Vec<Poly<K, Grevlex>>,
    list: &[Poly<K, Grevlex>],
) -> Result<(), AllocError>
    ensures terms { OnOk result (terms_each gens.new.items
        ≡ terms_each gens.old.items ++ terms_each list.now) }
    ensures arity { (m : ℕ) → AreOver m gens.old.items → AreOver m list.now
        → OnOk result (AreOver m gens.new.items) }
{
    for p in list {
        gens.push(p.copy(alloc)?)?;
    }
    Ok(())
}
