//! Polynomials in the order that eliminates the first variables.
ghost use Rattle.std.specs.Prelude.{◌≡◌, ◌≤◌, ◌+◌, ◌++◌, ℕ, List, [], length, map, get_or, All, Any, IfOk, OnOk, IsErrOf};
ghost use Rattle.algebra.specs.Fraction.{Fraction, rationals, fraction_size};
ghost use Rattle.algebra.specs.Size.{IsPast};
ghost use Rattle.polynomials.specs.Order.{grevlex, blocks};
ghost use Rattle.polynomials.specs.Polynomial.{AllArity};
ghost use Rattle.polynomials.specs.Terms.{Terms};
ghost use Rattle.polynomials.specs.Weight.{weight};
ghost use Rattle.machines.specs.Collect.{collect};
ghost use Rattle.monos.specs.Variables.{most_variables};
ghost use Rattle.poly.specs.Seen.{terms_in, terms_each};
ghost use Rattle.poly.specs.Standing.{IsInVariables, AllStandFor};
ghost use Rattle.coprime_base.specs.Sizes.{sizes};
ghost use Rattle.expo.specs.Bases.{IsCoprimeBase};
ghost use Rattle.rounds.specs.Form.{front, normal, relations};
ghost use Rattle.task_lists.specs.Placed.{HaveBlock};

use crate::orbit::normal_of;
use crate::relations::{front, relation_at};
use frac128::{Frac, Whole};
use monos::{Blocks, Grevlex};
use poly::Poly;
use ring_laws::ArithmeticError;
use std::alloc::{AllocError, Global};

/// Puts the polynomials, with s s and the u_j v_j replaced by 1, behind the others, in the order that eliminates the first ones.
pub(crate) fn push_normal(
    alloc: Global,
    gens: &mut Vec<Poly<Frac, Blocks>>,
    base: &Vec<Whole>,
    first: usize,
    list: &[Poly<Frac, Grevlex>],
) -> Result<(), ArithmeticError>
    requires base { IsCoprimeBase (sizes base.now.items) }
    requires front { All (λ p. front (length (sizes base.now.items)) ≤ p.arity) list.now }
    ensures normal { (w : ℕ) (qs : List (Terms Fraction)) → AllStandFor w list.now qs
        → AllArity w qs → OnOk result (terms_each gens.new.items ≡ terms_each gens.old.items
        ++ map (normal (blocks first grevlex grevlex) (length (sizes base.now.items))) qs) }
    ensures block { (w : ℕ) → All (IsInVariables w) list.now → HaveBlock first w gens.old.items
        → OnOk result (HaveBlock first w gens.new.items) }
    ensures wide { IsErrOf result ArithmeticError.Wide
        → Any (λ p. IsPast (weight fraction_size p)) (terms_each list.now) }
{
    for p in list {
        let normal = normal_of(alloc, base, p)?;
        gens.push(normal.reorder(alloc, Blocks { first })?)?;
    }
    Ok(())
}

/// Puts the polynomials behind the others, in the order that eliminates the first ones.
pub(crate) fn push_placed(
    alloc: Global,
    gens: &mut Vec<Poly<Frac, Blocks>>,
    first: usize,
    list: &[Poly<Frac, Grevlex>],
) -> Result<(), AllocError>
    ensures placed { (w : ℕ) (qs : List (Terms Fraction)) → AllStandFor w list.now qs
        → AllArity w qs → OnOk result (terms_each gens.new.items ≡ terms_each gens.old.items
        ++ map (collect rationals (blocks first grevlex grevlex)) qs) }
    ensures block { (w : ℕ) → All (IsInVariables w) list.now → HaveBlock first w gens.old.items
        → OnOk result (HaveBlock first w gens.new.items) }
{
    for p in list {
        gens.push(p.reorder(alloc, Blocks { first })?)?;
    }
    Ok(())
}

/// Puts s s - 1, and then the u_j v_j - 1, behind the others, in the order that eliminates what stands in front and the copies behind that.
pub(crate) fn push_relations(
    alloc: Global,
    gens: &mut Vec<Poly<Frac, Blocks>>,
    numbers: usize,
    copies: usize,
    variables: usize,
) -> Result<(), AllocError>
    requires few { front numbers + (copies + variables) ≤ most_variables }
    ensures list { OnOk result (terms_each gens.new.items ≡ terms_each gens.old.items
        ++ map (collect rationals (blocks (front numbers + copies) grevlex grevlex))
        (relations numbers (copies + variables))) }
    ensures block { let n = front numbers + copies in HaveBlock n (n + variables) gens.old.items
        → OnOk result (HaveBlock n (n + variables) gens.new.items) }
{
    for place in 0..numbers + 1 {
        gens.push(placed_relation(alloc, numbers, copies, variables, place)?)?;
    }
    Ok(())
}

/// The relation at this place.
fn placed_relation(
    alloc: Global,
    numbers: usize,
    copies: usize,
    variables: usize,
    place: usize,
) -> Result<Poly<Frac, Blocks>, AllocError>
    requires few { front numbers + (copies + variables) ≤ most_variables }
    requires place { place ≤ numbers }
    ensures relation { IfOk result (λ p. terms_in p
        ≡ collect rationals (blocks (front numbers + copies) grevlex grevlex)
        (get_or (relations numbers (copies + variables)) place [])) }
    ensures block { let n = front numbers + copies in
        IfOk result (λ p. (p.order.first ≡ n) × (p.arity ≡ n + variables)) }
{
    let first = front(numbers) + copies;
    let relation = relation_at(alloc, numbers, copies + variables, place)?;
    relation.reorder(alloc, Blocks { first })
}
