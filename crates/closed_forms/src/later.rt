//! The closed form of one linear form of a class's variables, by its value after some iterations.
ghost use Rattle.std.specs.Prelude.{◌≡◌, ◌++◌, All, length, IfOk, OnOk, IsErrOf};
ghost use Rattle.frac128.specs.FracMeaning.{fraction_of};
ghost use Rattle.poly.specs.Seen.{terms_in};
ghost use Rattle.poly.specs.View.{terms_of};
ghost use Rattle.expo.specs.Powers.{key_of_power};
ghost use Rattle.closed_forms.specs.Later.{with_powers, IsSumOf, IsStart, IsJoined, IsLaterForm, IsPastSum, IsPastStart, IsPastJoined, IsPastLater};
ghost use Rattle.closed_forms.specs.Recurrences.{base_by, value_by, number_by, inhomogeneity_in};
ghost use Rattle.closed_forms.specs.Values.{IsExpoOver};

use crate::recurrence::Recurrence;
use crate::sums::weighted_sum;
use expo::{Expo, power};
use frac128::Frac;
use monos::Grevlex;
use poly::{Poly, Term};
use ring_laws::{ArithmeticError, Ring};
use std::alloc::{AllocError, Global};

impl Recurrence<'_, '_> {
    /// The polynomial y that solves it and is `there` after this number of iterations.
    /// It is λ^n c plus the sum of what solves the recurrences of the inhomogeneity's terms from zero on, where c is λ^(-iterations) times the difference of `there` and that sum after these iterations.
    pub(crate) fn solve_later(
        &self,
        alloc: Global,
        iterations: u32,
        there: Poly<Frac, Grevlex>,
    ) -> Result<Expo, ArithmeticError>
        requires { there.arity ≡ self.now.vars }
        ensures over { IfOk result (IsExpoOver (base_by self.now) self.now.vars) }
        ensures later { IfOk result (λ y. IsLaterForm (base_by self.now) self.now.vars
            (number_by self.now) iterations (terms_in there) (inhomogeneity_in self.now)
            (terms_in y.body)) }
        ensures wide { IsErrOf result ArithmeticError.Wide → IsPastLater (base_by self.now)
            self.now.vars (number_by self.now) iterations (terms_in there)
            (inhomogeneity_in self.now) }
    {
        let sum = self.solutions(alloc)?;
        let start = self.start(alloc, iterations, there, &sum)?;
        self.joined(alloc, &start, sum)
    }

    /// The difference of `there` and what the sum is after this number of iterations, times λ to the power of minus that number.
    fn start(
        &self,
        alloc: Global,
        iterations: u32,
        there: Poly<Frac, Grevlex>,
        sum: &Expo,
    ) -> Result<Poly<Frac, Grevlex>, ArithmeticError>
        requires arity { there.arity ≡ self.now.vars }
        requires sum { IsExpoOver (base_by self.now) self.now.vars sum.now }
        ensures arity { IfOk result (λ p. p.arity ≡ self.now.vars) }
        ensures start { IfOk result (λ p. IsStart (base_by self.now) self.now.vars
            (number_by self.now) iterations (terms_in there) (terms_in sum.now.body) (terms_in p)) }
        ensures wide { IsErrOf result ArithmeticError.Wide → IsPastStart (base_by self.now)
            self.now.vars (number_by self.now) iterations (terms_in there)
            (terms_in sum.now.body) }
    {
        let factor = power(&self.value.reciprocal(), iterations)?;
        let opposite = factor.neg();
        let at = sum.at_iteration(alloc, iterations)?;
        weighted_sum(alloc, &[factor, opposite], &[there, at], self.vars)
    }

    /// The sum of what solves the recurrences of the inhomogeneity's terms, each from zero on.
    fn solutions(&self, alloc: Global) -> Result<Expo, ArithmeticError>
        ensures over { IfOk result (IsExpoOver (base_by self.now) self.now.vars) }
        ensures sum { IfOk result (λ y. IsSumOf (base_by self.now) self.now.vars
            (value_by self.now) (inhomogeneity_in self.now) (terms_in y.body)) }
        ensures wide { IsErrOf result ArithmeticError.Wide → IsPastSum (base_by self.now)
            self.now.vars (value_by self.now) (inhomogeneity_in self.now) }
    {
        let mut terms = Vec::new(alloc);
        self.push_solved(alloc, &mut terms)?;
        self.normal_sum(alloc, terms)
    }

    /// The polynomial of the variables times the n-th power of λ, plus the sum.
    fn joined(
        &self,
        alloc: Global,
        start: &Poly<Frac, Grevlex>,
        sum: Expo,
    ) -> Result<Expo, ArithmeticError>
        requires start { start.now.arity ≡ self.now.vars }
        requires sum { IsExpoOver (base_by self.now) self.now.vars sum }
        ensures over { IfOk result (IsExpoOver (base_by self.now) self.now.vars) }
        ensures joined { IfOk result (λ y. IsJoined (base_by self.now) self.now.vars
            (value_by self.now) (terms_in start.now) (terms_in sum.body) (terms_in y.body)) }
        ensures wide { IsErrOf result ArithmeticError.Wide
            → IsPastJoined (key_of_power self.now.own) (terms_in start.now) (terms_in sum.body) }
    {
        let mut terms = Vec::new(alloc);
        self.push_grown(alloc, &mut terms, start.terms())?;
        terms.append(&mut sum.into_body().into_terms())?;
        self.normal_sum(alloc, terms)
    }

    /// The terms in the variables, each times the n-th power of λ, go behind the others.
    fn push_grown(
        &self,
        alloc: Global,
        out: &mut Vec<Term<Frac>>,
        terms: &[Term<Frac>],
    ) -> Result<(), AllocError>
        requires { All (λ t. length t.mono ≡ self.now.vars) terms.now }
        ensures terms { OnOk result (terms_of fraction_of out.new.items
            ≡ terms_of fraction_of out.old.items
            ++ with_powers (key_of_power self.now.own) (terms_of fraction_of terms.now)) }
    {
        for term in terms {
            let mono = self.behind_power(alloc, &term.mono)?;
            out.push(Term {
                mono,
                coef: term.coef,
            })?;
        }
        Ok(())
    }
}
