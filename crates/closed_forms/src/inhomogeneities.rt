//! The inhomogeneity of a form's recurrence: what it has beside its own value.
ghost use Rattle.std.specs.Prelude.{◌≡◌, All, IfOk, IsErrOf};
ghost use Rattle.poly.specs.Seen.{terms_in, terms_each};
ghost use Rattle.closed_forms.specs.FormInWork.{base_for, over_form, variables_for, moved_by, IsPastMovedBy, IsBeforeBy, IsPastBeforeBy, IsInhomogeneityBy, IsPastInhomogeneityBy};
ghost use Rattle.closed_forms.specs.Values.{IsExpoOver};

use crate::form_in_work::FormInWork;
use crate::products::row_times;
use crate::sums::weighted_sum;
use expo::Expo;
use frac128::Frac;
use monos::Grevlex;
use poly::Poly;
use ring_laws::ArithmeticError;
use std::alloc::Global;

impl FormInWork<'_, '_> {
    /// The parts in earlier variables, and the earlier forms of the class.
    pub(crate) fn inhomogeneity(
        &self,
        alloc: Global,
        done: &[Poly<Frac, Grevlex>],
    ) -> Result<Expo, ArithmeticError>
        requires { All (λ p. p.arity ≡ over_form self.now) done.now }
        ensures over { IfOk result (IsExpoOver (base_for self.now) (variables_for self.now)) }
        ensures inhomogeneity { IfOk result (λ q.
            IsInhomogeneityBy self.now (terms_each done.now) (terms_in q.body)) }
        ensures wide { IsErrOf result ArithmeticError.Wide
            → IsPastInhomogeneityBy self.now (terms_each done.now) }
    {
        let moved = self.compose_rests(alloc)?;
        let combination_of_earlier = self.combination_of_earlier(alloc, done)?;
        let sum = moved.add(alloc, &combination_of_earlier)?;
        Expo::normal(alloc, self.class.base, &sum)
    }

    /// The form of the rests, composed with the closed forms of the earlier classes.
    fn compose_rests(&self, alloc: Global) -> Result<Poly<Frac, Grevlex>, ArithmeticError>
        ensures arity { IfOk result (λ p. p.arity ≡ over_form self.now) }
        ensures terms { IfOk result (λ p. terms_in p ≡ moved_by self.now) }
        ensures wide { IsErrOf result ArithmeticError.Wide → IsPastMovedBy self.now }
    {
        let setting = &self.class.setting;
        let part = weighted_sum(alloc, self.form, &setting.rests, setting.earlier.len())?;
        part.compose(alloc, &setting.earlier)
    }

    /// The combination of the earlier forms.
    fn combination_of_earlier(
        &self,
        alloc: Global,
        done: &[Poly<Frac, Grevlex>],
    ) -> Result<Poly<Frac, Grevlex>, ArithmeticError>
        requires { All (λ p. p.arity ≡ over_form self.now) done.now }
        ensures arity { IfOk result (λ p. p.arity ≡ over_form self.now) }
        ensures terms { IfOk result
            (λ p. IsBeforeBy self.now (terms_each done.now) (terms_in p)) }
        ensures wide { IsErrOf result ArithmeticError.Wide
            → IsPastBeforeBy self.now (terms_each done.now) }
    {
        let setting = &self.class.setting;
        let turned = row_times(alloc, self.form, &setting.matrix, self.form.len())?;
        let by = row_times(alloc, &turned, &setting.back, self.form.len())?;
        weighted_sum(alloc, &by, done, self.class.arity())
    }
}
