//! Recurrences of polynomials that are exponential in n.
ghost use Rattle.std.specs.Prelude.{◌≡◌, ◌≢◌, ◌≤◌, All, length, IfOk};
ghost use Rattle.algebra.specs.Fraction.{ℚ};
ghost use Rattle.frac128.specs.FracMeaning.{fraction_of};
ghost use Rattle.poly.specs.Seen.{terms_in};
ghost use Rattle.poly.specs.View.{term_of, terms_of};
ghost use Rattle.coprime_base.specs.Sizes.{sizes};
ghost use Rattle.solvable_maps.specs.Iterations.{width};
ghost use Rattle.monos.specs.Variables.{most_variables};
ghost use Rattle.expo.specs.Bases.{IsCoprimeBase, IsOwnNormal, coprime_base_prop, own_normal_prop};
ghost use Rattle.closed_forms.specs.Limits.{AreLow};
ghost use Rattle.closed_forms.specs.Solved.{steady as steady_of, IsPower, power_prop};

use crate::powers::power_of;
use expo::{Expo, Power, solve_term, width};
use frac128::{Frac, Whole};
use monos::{Grevlex, Mono};
use poly::{Poly, Term};
use ring_laws::ArithmeticError;
use std::alloc::{AllocError, Global};

/// The recurrence y(n+1) = λ y(n) + q(n) of polynomials over a base, in so many variables.
#[derive(Drop)]
pub(crate) struct Recurrence<'b, 'q> {
    pub(crate) base: &'b Vec<Whole>,
    pub(crate) vars: usize,
    /// The number λ, which isn't zero.
    pub(crate) value: &'q Frac,
    /// The same, as a product of powers of the base.
    pub(crate) own: Power,
    /// The terms of q, which are normal.
    pub(crate) inhomogeneity: &'q [Term<Frac>],
    ghost coprime: { IsCoprimeBase (sizes base.now.items) } by { coprime_base_prop _ },
    ghost few: { width (length (sizes base.now.items)) vars ≤ most_variables },
    ghost nonzero: { fraction_of value.now ≢ ℚ.zero },
    ghost power: { IsPower (sizes base.now.items) own.negative own.exponents.items
        (fraction_of value.now) } by { power_prop _ _ _ _ },
    ghost small: { AreLow own.exponents.items },
    ghost arities: { All (λ t. length t.mono ≡ width (length (sizes base.now.items)) vars)
        inhomogeneity.now },
    ghost normal: { IsOwnNormal (sizes base.now.items)
        (terms_of fraction_of inhomogeneity.now) } by { own_normal_prop _ _ },
}

impl Recurrence<'_, '_> {
    ghost use Rattle.std.specs.Prelude.{◌⊎◌, OnOk, IsErrOf};
    ghost use Rattle.algebra.specs.Fraction.{fraction_size};
    ghost use Rattle.algebra.specs.Size.{IsPast};
    ghost use Rattle.polynomials.specs.Weight.{weight};
    ghost use Rattle.exponentials.specs.Keys.{key_of, IsNormalKey};
    ghost use Rattle.solvable_maps.specs.Expo.{with_normal_keys};
    ghost use Rattle.expo.specs.View.{IsExpo};
    ghost use Rattle.closed_forms.specs.Inhomogeneities.{collect_terms};
    ghost use Rattle.closed_forms.specs.Recurrences.{base_by, value_by, inhomogeneity_in};
    ghost use Rattle.closed_forms.specs.Solved.{IsSolvedTerm, AreSolvedBehind, IsPastTerm, IsPastAmong};

    /// What solves the recurrences of the inhomogeneity's terms, each from zero on, goes behind the others.
    pub(crate) fn push_solved(
        &self,
        alloc: Global,
        out: &mut Vec<Term<Frac>>,
    ) -> Result<(), ArithmeticError>
        ensures terms { OnOk result (AreSolvedBehind (base_by self.now) self.now.vars
            (value_by self.now) (inhomogeneity_in self.now)
            (terms_of fraction_of out.old.items) (terms_of fraction_of out.new.items)) }
        ensures wide { IsErrOf result ArithmeticError.Wide → IsPastAmong (base_by self.now)
            self.now.vars (value_by self.now) (inhomogeneity_in self.now) }
    {
        for term in self.inhomogeneity {
            let solution = self.term_solved(alloc, term)?;
            out.append(&mut solution.into_terms())?;
        }
        Ok(())
    }

    /// What solves the recurrence of one term of the inhomogeneity.
    fn term_solved(
        &self,
        alloc: Global,
        term: &Term<Frac>,
    ) -> Result<Poly<Frac, Grevlex>, ArithmeticError>
        requires arity { length term.now.mono ≡ width (length (base_by self.now)) self.now.vars }
        requires normal { IsNormalKey (base_by self.now)
            (key_of (length (base_by self.now)) term.now.mono) }
        ensures solved { IfOk result (λ p. IsSolvedTerm (base_by self.now) self.now.vars
            (value_by self.now) (term_of fraction_of term.now) (terms_in p)) }
        ensures wide { IsErrOf result ArithmeticError.Wide → IsPastTerm (base_by self.now)
            self.now.vars (value_by self.now) (term_of fraction_of term.now) }
    {
        let iterations = term.mono.exponent(0);
        if iterations == u16::MAX {
            return Err(ArithmeticError::Wide);
        }
        let inhomogeneity = power_of(alloc, self.base, &term.mono)?;
        let solution = solve_term(
            alloc,
            self.base,
            self.vars,
            u32::from(iterations),
            &inhomogeneity,
            &self.own,
        )?;
        let rest = steady(alloc, term, self.base)?;
        solution.body().mul(alloc, &rest)
    }

    /// The sum of terms over the base, made normal. `Wide` only where the weight of the sum is past, as the terms stand or with like ones collected.
    pub(crate) fn normal_sum(
        &self,
        alloc: Global,
        terms: Vec<Term<Frac>>,
    ) -> Result<Expo, ArithmeticError>
        requires { All (λ t. length t.mono ≡ width (length (base_by self.now)) self.now.vars)
            terms.items }
        ensures normal { let p = terms_of fraction_of terms.items in
            IfOk result (IsExpo (base_by self.now) self.now.vars
            (with_normal_keys (length (base_by self.now)) (collect_terms p))) }
        ensures wide { let p = terms_of fraction_of terms.items in
            IsErrOf result ArithmeticError.Wide → IsPast (weight fraction_size p)
            ⊎ IsPast (weight fraction_size (collect_terms p)) }
    {
        let sum = Poly::from_terms(alloc, Grevlex, width(self.base.len(), self.vars), terms)?;
        Expo::normal(alloc, self.base, &sum)
    }
}

/// What does not change with n in a term: its number times its variables, which stand behind the first ones.
fn steady(
    alloc: Global,
    term: &Term<Frac>,
    base: &Vec<Whole>,
) -> Result<Poly<Frac, Grevlex>, AllocError>
    requires width { width (length (sizes base.now.items)) 0 ≤ length term.now.mono }
    ensures arity { IfOk result (λ p. p.arity ≡ length term.now.mono) }
    ensures terms { let t = term_of fraction_of term.now in
        IfOk result (λ p. terms_in p ≡ steady_of (length (sizes base.now.items)) t) }
{
    let list = term.mono.exponents();
    let first = width(base.len(), 0);
    let (_, variables) = list.as_slice().split_at(first);
    let mut exponents = vec![in alloc; 0; first]?;
    exponents.extend_from_slice(variables)?;
    let mono = Mono::new(alloc, &exponents)?;
    let coef = term.coef;
    let terms = vec![in alloc; Term { mono, coef }]?;
    Poly::from_distinct(alloc, Grevlex, list.as_slice().len(), terms)
}
