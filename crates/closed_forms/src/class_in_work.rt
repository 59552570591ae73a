//! A class of which the closed forms are made.
ghost use Rattle.std.specs.Prelude.{◌≡◌, ◌<◌, All, length};
ghost use Rattle.linear.specs.Rows.{fractions_of};
ghost use Rattle.coprime_base.specs.Sizes.{sizes};
ghost use Rattle.closed_forms.specs.ClassSetting.{IsClassSetting, class_setting_prop};
ghost use Rattle.closed_forms.specs.Solved.{AreWithin, are_within_prop};

use crate::class::ClassSetting;
use crate::form_in_work::FormInWork;
use crate::sums::weighted_sum;
use eigen_split::Split;
use expo::{Expo, width};
use frac128::{Frac, Whole};
use monos::Grevlex;
use poly::Poly;
use ring_laws::ArithmeticError;
use std::alloc::Global;

/// A class of which the closed forms are made, one after another.
#[derive(Drop)]
pub(crate) struct ClassInWork<'a> {
    pub(crate) base: &'a Vec<Whole>,
    /// Its variables.
    pub(crate) group: &'a [usize],
    pub(crate) split: &'a Split,
    pub(crate) setting: ClassSetting,
    ghost inside: { All (λ j. j < length setting.earlier.items) group.now },
    ghost forms: { All (λ form. length form.items ≡ length split.now.forms.items)
        split.now.forms.items },
    ghost values: { length split.now.values.items ≡ length split.now.forms.items },
    ghost within: { AreWithin (sizes base.now.items)
        (fractions_of split.now.values.items) } by { are_within_prop _ _ },
    ghost ready: { IsClassSetting (sizes base.now.items) (length split.now.forms.items)
        setting } by { class_setting_prop _ _ _ },
}

impl ClassInWork<'_> {
    ghost use Rattle.std.specs.Prelude.{map, IfOk, IsErrOf};
    ghost use Rattle.linear.specs.Rows.{rows_of};
    ghost use Rattle.poly.specs.Seen.{terms_each};
    ghost use Rattle.closed_forms.specs.ClassInWork.{base_in, vars_in, over_class, AreClosedIn, IsPastIn};
    ghost use Rattle.closed_forms.specs.Known.{variable_in, IsPastRowOf};
    ghost use Rattle.closed_forms.specs.Values.{bodies_of, AreOver};

    /// The polynomials of its forms, one after another.
    pub(crate) fn closed_forms(
        &self,
        alloc: Global,
    ) -> Result<Vec<Poly<Frac, Grevlex>>, ArithmeticError>
        ensures count { IfOk result
            (λ out. length out.items ≡ length self.now.split.now.forms.items) }
        ensures arities { IfOk result
            (λ out. All (λ p. p.arity ≡ over_class self.now) out.items) }
        ensures forms { IfOk result (λ out. AreClosedIn self.now (terms_each out.items)) }
        ensures wide { IsErrOf result ArithmeticError.Wide → IsPastIn self.now }
    {
        let mut done = Vec::new(alloc);
        for place in 0..self.split.forms.len() {
            let form = FormInWork {
                class: self,
                form: self.split.forms[place].as_slice(),
                value: &self.split.values[place],
            };
            let next = form.closed_form(alloc, &done)?;
            done.push(next)?;
        }
        Ok(done)
    }

    /// How many variables the polynomials over its base have.
    pub(crate) fn arity(&self) -> usize
        ensures { result ≡ over_class self.now }
    {
        width(self.base.len(), self.setting.earlier.len())
    }

    /// The polynomials of its variables: by the rows of the inverse from those of its forms.
    pub(crate) fn variables(
        &self,
        alloc: Global,
        forms: &[Poly<Frac, Grevlex>],
    ) -> Result<Vec<Expo>, ArithmeticError>
        requires { All (λ p. p.arity ≡ over_class self.now) forms.now }
        ensures count { IfOk result
            (λ out. length out.items ≡ length self.now.setting.back.items) }
        ensures over { IfOk result
            (λ out. AreOver (base_in self.now) (vars_in self.now) out.items) }
        ensures variables { IfOk result (λ out. bodies_of out.items
            ≡ map (λ row. variable_in (base_in self.now) row (terms_each forms.now))
            (rows_of self.now.setting.back.items)) }
        ensures wide { IsErrOf result ArithmeticError.Wide
            → IsPastRowOf (rows_of self.now.setting.back.items) (terms_each forms.now) }
    {
        let arity = self.arity();
        let mut out = Vec::new(alloc);
        for row in &self.setting.back {
            let sum = weighted_sum(alloc, row, forms, arity)?;
            out.push(Expo::normal(alloc, self.base, &sum)?)?;
        }
        Ok(out)
    }
}
