//! A form of a class in work, and its closed form.
ghost use Rattle.std.specs.Prelude.{length};
ghost use Rattle.frac128.specs.FracMeaning.{fraction_of};
ghost use Rattle.coprime_base.specs.Sizes.{sizes};
ghost use Rattle.closed_forms.specs.ClassSetting.{IsClassSetting, class_setting_prop};
ghost use Rattle.closed_forms.specs.Solved.{IsWithin, within_prop};

use crate::class_in_work::ClassInWork;
use crate::recurrence::Recurrence;
use crate::sums::weighted_sum;
use expo::Expo;
use frac128::Frac;
use monos::Grevlex;
use poly::Poly;
use ring_laws::{ArithmeticError, Ring};
use std::alloc::Global;

/// A linear form of a class's variables, with its value, of which the closed form is made.
#[derive(Clone, Copy)]
pub(crate) struct FormInWork<'c, 'a> {
    pub(crate) class: &'c ClassInWork<'a>,
    pub(crate) form: &'a [Frac],
    pub(crate) value: &'a Frac,
    ghost within: { IsWithin (sizes class.now.base.now.items)
        (fraction_of value.now) } by { within_prop _ _ },
    ghost ready: { IsClassSetting (sizes class.now.base.now.items) (length form.now)
        class.now.setting } by { class_setting_prop _ _ _ },
}

impl FormInWork<'_, '_> {
    ghost use Rattle.std.specs.Prelude.{◌≡◌, ◌≢◌, All, IfOk, IsErrOf};
    ghost use Rattle.algebra.specs.Fraction.{ℚ};
    ghost use Rattle.poly.specs.Seen.{terms_in, terms_each};
    ghost use Rattle.closed_forms.specs.ClassForms.{IsNormalOver};
    ghost use Rattle.closed_forms.specs.FormInWork.{base_for, over_form, variables_for, value_for, IsNextBy, IsPastBy, IsMadeBy, IsPastMadeBy};
    ghost use Rattle.closed_forms.specs.Values.{IsExpoOver};

    /// Its polynomial, from those of the forms before it.
    pub(crate) fn closed_form(
        &self,
        alloc: Global,
        done: &[Poly<Frac, Grevlex>],
    ) -> Result<Poly<Frac, Grevlex>, ArithmeticError>
        requires { All (λ p. p.arity ≡ over_form self.now) done.now }
        ensures arity { IfOk result (λ p. p.arity ≡ over_form self.now) }
        ensures normal { IfOk result (λ p.
            IsNormalOver (base_for self.now) self.now.class.now.setting (terms_in p)) }
        ensures next { IfOk result (λ p.
            IsNextBy self.now (terms_each done.now) (terms_in p)) }
        ensures wide { IsErrOf result ArithmeticError.Wide
            → IsPastBy self.now (terms_each done.now) }
    {
        let inhomogeneity = self.inhomogeneity(alloc, done)?;
        let closed = self.form_from(alloc, &inhomogeneity)?;
        Ok(closed.into_body())
    }

    /// Its polynomial, from the inhomogeneity of its recurrence.
    fn form_from(&self, alloc: Global, inhomogeneity: &Expo) -> Result<Expo, ArithmeticError>
        requires { IsExpoOver (base_for self.now) (variables_for self.now) inhomogeneity.now }
        ensures over { IfOk result (IsExpoOver (base_for self.now) (variables_for self.now)) }
        ensures form { IfOk result (λ y.
            IsMadeBy self.now (terms_in inhomogeneity.now.body) (terms_in y.body)) }
        ensures wide { IsErrOf result ArithmeticError.Wide
            → IsPastMadeBy self.now (terms_in inhomogeneity.now.body) }
    {
        if self.value.is_zero() {
            return inhomogeneity.before(alloc);
        }
        self.some_form(alloc, inhomogeneity)
    }

    /// The same where the value isn't zero.
    fn some_form(&self, alloc: Global, inhomogeneity: &Expo) -> Result<Expo, ArithmeticError>
        requires nonzero { value_for self.now ≢ ℚ.zero }
        requires over { IsExpoOver (base_for self.now) (variables_for self.now)
            inhomogeneity.now }
        ensures over { IfOk result (IsExpoOver (base_for self.now) (variables_for self.now)) }
        ensures form { IfOk result (λ y.
            IsMadeBy self.now (terms_in inhomogeneity.now.body) (terms_in y.body)) }
        ensures wide { IsErrOf result ArithmeticError.Wide
            → IsPastMadeBy self.now (terms_in inhomogeneity.now.body) }
    {
        let setting = &self.class.setting;
        let own = self.value_as_power(alloc)?;
        let recurrence = Recurrence {
            base: self.class.base,
            vars: setting.earlier.len(),
            value: self.value,
            own,
            inhomogeneity: inhomogeneity.body().terms(),
        };
        if setting.iterations == 0 {
            return recurrence.solve(alloc, self.form, self.class.group);
        }
        let there = weighted_sum(alloc, self.form, &setting.ahead, recurrence.vars)?;
        recurrence.solve_later(alloc, setting.iterations, there)
    }
}
