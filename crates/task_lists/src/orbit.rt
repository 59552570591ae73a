//! What an orbit begins with where its closed form is the state from the start on.
ghost use Rattle.std.specs.Prelude.{◌≡◌, ◌<◌, ◌≤◌, ◌+◌, length, All, IfOk, IsErrOf};
ghost use Rattle.algebra.specs.Fraction.{fractions, fraction_size};
ghost use Rattle.algebra.specs.Size.{IsPast};
ghost use Rattle.polynomials.specs.Order.{grevlex};
ghost use Rattle.polynomials.specs.Weight.{weight, IsPastComposition};
ghost use Rattle.rounds.specs.Form.{front, normal, pulled_back_by};
ghost use Rattle.rounds.specs.Past.{IsPastComposed};
ghost use Rattle.monos.specs.Variables.{most_variables};
ghost use Rattle.poly.specs.Seen.{terms_in, terms_each};
ghost use Rattle.poly.specs.Standing.{IsInVariables};
ghost use Rattle.coprime_base.specs.Sizes.{sizes};
ghost use Rattle.expo.specs.Bases.{IsCoprimeBase};
ghost use Rattle.task_lists.specs.Blocks.{HasFront};
ghost use Rattle.task_lists.specs.Placed.{HaveBlock};
ghost use Rattle.task_lists.specs.Starting.{numbers_of, orbit_starting, FitsOrbit};

use crate::placed::push_relations;
use crate::relations::front;
use expo::Expo;
use frac128::{Frac, Whole};
use monos::{Blocks, Grevlex};
use poly::Poly;
use ring_laws::ArithmeticError;
use std::alloc::Global;

/// What the orbit of a list begins with: its elements with the polynomials of `back`, the inverse form over this base, for the variables, and then the relations between the powers.
/// `Wide` only where the weight of one of these compositions is past.
pub fn orbit_list(
    alloc: Global,
    base: &Vec<Whole>,
    back: &Vec<Poly<Frac, Grevlex>>,
    variables: usize,
    list: &[Poly<Frac, Grevlex>],
) -> Result<Vec<Poly<Frac, Blocks>>, ArithmeticError>
    requires fits { FitsOrbit variables base.now back.now list.now }
    ensures list { IfOk result (λ gens.
        terms_each gens.items ≡ orbit_starting variables base.now back.now list.now) }
    ensures block { let n = front (numbers_of base.now) in
        IfOk result (λ gens. HaveBlock n (n + variables) gens.items) }
    ensures wide { IsErrOf result ArithmeticError.Wide
        → IsPastComposed (terms_each back.now.items) (terms_each list.now) }
{
    let mut gens = Vec::new(alloc);
    for element in list {
        gens.push(pulled_back(alloc, base, back, element)?)?;
    }
    push_relations(alloc, &mut gens, base.len(), 0, variables)?;
    Ok(gens)
}

/// The polynomial with s s and the u_j v_j replaced by 1. `Wide` only where its weight is past.
pub(crate) fn normal_of(
    alloc: Global,
    base: &Vec<Whole>,
    p: &Poly<Frac, Grevlex>,
) -> Result<Poly<Frac, Grevlex>, ArithmeticError>
    requires base { IsCoprimeBase (sizes base.now.items) }
    requires front { front (length (sizes base.now.items)) ≤ p.now.arity }
    ensures normal { IfOk result (λ q. terms_in q
        ≡ normal grevlex (length (sizes base.now.items)) (terms_in p.now)) }
    ensures arity { IfOk result (λ q. q.arity ≡ p.now.arity) }
    ensures wide { IsErrOf result ArithmeticError.Wide
        → IsPast (weight fraction_size (terms_in p.now)) }
{
    Ok(Expo::normal(alloc, base, p)?.into_body())
}

/// The polynomial with the inverse form for its variables, normal.
pub(crate) fn pulled_back(
    alloc: Global,
    base: &Vec<Whole>,
    back: &Vec<Poly<Frac, Grevlex>>,
    p: &Poly<Frac, Grevlex>,
) -> Result<Poly<Frac, Blocks>, ArithmeticError>
    requires base { IsCoprimeBase (sizes base.now.items) }
    requires some { 0 < p.now.arity }
    requires count { length back.now.items ≡ p.now.arity }
    requires few { front (length (sizes base.now.items)) + p.now.arity ≤ most_variables }
    requires back { let r = length (sizes base.now.items) in
        All (IsInVariables (front r + p.now.arity)) back.now.items }
    ensures pulled_back { let r = length (sizes base.now.items) in IfOk result (λ q. terms_in q
        ≡ pulled_back_by r p.now.arity (terms_each back.now.items) (terms_in p.now)) }
    ensures block { IfOk result (HasFront (length (sizes base.now.items)) p.now.arity) }
    ensures wide { IsErrOf result ArithmeticError.Wide
        → IsPastComposition fractions (terms_in p.now) (terms_each back.now.items) }
{
    let moved = p.compose(alloc, back)?;
    let normal = normal_of(alloc, base, &moved)?;
    let first = front(base.len());
    Ok(normal.reorder(alloc, Blocks { first })?)
}
