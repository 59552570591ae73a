//! The closed form of one linear form of a class's variables.
ghost use Rattle.std.specs.Prelude.{◌≡◌, ◌<◌, ◌++◌, All, IfOk, OnOk, IsErrOf};
ghost use Rattle.frac128.specs.FracMeaning.{fraction_of};
ghost use Rattle.linear.specs.Rows.{fractions_of};
ghost use Rattle.poly.specs.Seen.{terms_in};
ghost use Rattle.poly.specs.View.{terms_of};
ghost use Rattle.expo.specs.Powers.{key_of_power};
ghost use Rattle.closed_forms.specs.Recurrences.{base_by, value_by, inhomogeneity_in};
ghost use Rattle.closed_forms.specs.Solved.{homogeneous_part, IsSolvedForm, IsPastSolved};
ghost use Rattle.closed_forms.specs.Values.{IsExpoOver};

use crate::recurrence::Recurrence;
use expo::Expo;
use frac128::Frac;
use monos::Mono;
use poly::Term;
use ring_laws::ArithmeticError;
use std::alloc::{AllocError, Global};

impl Recurrence<'_, '_> {
    /// The polynomial y that solves it with y(0) = w x, where w are the numbers of some variables.
    pub(crate) fn solve(
        &self,
        alloc: Global,
        form: &[Frac],
        group: &[usize],
    ) -> Result<Expo, ArithmeticError>
        requires { All (λ j. j < self.now.vars) group.now }
        ensures over { IfOk result (IsExpoOver (base_by self.now) self.now.vars) }
        ensures solved { IfOk result (λ y. IsSolvedForm (base_by self.now) self.now.vars
            (fractions_of form.now) group.now (value_by self.now) (inhomogeneity_in self.now)
            (terms_in y.body)) }
        ensures wide { IsErrOf result ArithmeticError.Wide → IsPastSolved (base_by self.now)
            self.now.vars (fractions_of form.now) group.now (value_by self.now)
            (inhomogeneity_in self.now) }
    {
        let mut terms = Vec::new(alloc);
        self.push_growing(alloc, &mut terms, form, group)?;
        self.push_solved(alloc, &mut terms)?;
        self.normal_sum(alloc, terms)
    }

    /// The n-th power of λ times the sum of some variables, each times its number, goes behind the others.
    fn push_growing(
        &self,
        alloc: Global,
        out: &mut Vec<Term<Frac>>,
        form: &[Frac],
        group: &[usize],
    ) -> Result<(), AllocError>
        requires { All (λ j. j < self.now.vars) group.now }
        ensures terms { let x = key_of_power self.now.own in let w = fractions_of form.now in
            OnOk result (terms_of fraction_of out.new.items ≡ terms_of fraction_of out.old.items
            ++ homogeneous_part self.now.vars x w group.now) }
    {
        let (Some((number, form)), Some((variable, group))) = (
            form.split_first(),
            group.split_first(),
        ) else {
            return Ok(());
        };
        let unit = Mono::variable(alloc, self.vars, *variable)?;
        let mono = self.behind_power(alloc, &unit)?;
        out.push(Term {
            mono,
            coef: *number,
        })?;
        self.push_growing(alloc, out, form, group)
    }
}
