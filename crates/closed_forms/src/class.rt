//! The closed forms of a class, from those of earlier classes.
ghost use Rattle.std.specs.Prelude.{◌≡◌, ◌<◌, ℕ, All, length, map, IfOk, IsErrOf};
ghost use Rattle.linear.specs.Rows.{rows_of};
ghost use Rattle.poly.specs.Seen.{terms_each};
ghost use Rattle.solvable_maps.specs.Uses.{poly_at};
ghost use Rattle.closed_forms.specs.Inverses.{IsPastInverse};
ghost use Rattle.closed_forms.specs.SplitClass.{base_at, IsSplitClass, IsReadyFor, IsSettingIn, AreFormsOf, IsPastOf};
ghost use Rattle.closed_forms.specs.SquareMap.{size_by};
ghost use Rattle.closed_forms.specs.Values.{bodies_of, AreOver};

use crate::class_in_work::ClassInWork;
use crate::map_in_work::MapInWork;
use crate::matrices::FormMatrix;
use eigen_split::Split;
use expo::Expo;
use frac128::Frac;
use monos::Grevlex;
use poly::Poly;
use ring_laws::ArithmeticError;
use std::alloc::{AllocError, Global};

/// What the forms of a class are made from.
#[derive(Drop)]
pub(crate) struct ClassSetting {
    /// The polynomials of all variables, where they are known.
    pub(crate) earlier: Vec<Poly<Frac, Grevlex>>,
    /// What the class's polynomials have without variables of the class.
    pub(crate) rests: Vec<Poly<Frac, Grevlex>>,
    pub(crate) matrix: Vec<Vec<Frac>>,
    /// The inverse of the matrix of forms.
    pub(crate) back: Vec<Vec<Frac>>,
    /// How many values of the branch are zero.
    pub(crate) iterations: u32,
    /// The class's variables after that many iterations.
    pub(crate) ahead: Vec<Poly<Frac, Grevlex>>,
}

/// A class of a map in work, with its splitting.
#[derive(Clone, Copy)]
pub(crate) struct SplitClass<'c, 'a> {
    pub(crate) work: &'c MapInWork<'a>,
    pub(crate) group: &'c [usize],
    pub(crate) split: &'c Split,
}

impl SplitClass<'_, '_> {
    /// The polynomial of each of its variables, from those of all variables, as far as they are known.
    pub(crate) fn closed_class(
        &self,
        alloc: Global,
        polys: &Vec<Expo>,
    ) -> Result<Vec<Expo>, ArithmeticError>
        requires class { IsSplitClass self.now }
        requires ready { IsReadyFor self.now polys.now.items }
        ensures count { IfOk result (λ news. length news.items ≡ length self.now.group.now) }
        ensures over { IfOk result
            (λ news. AreOver (base_at self.now) (size_by self.now.work.now.map) news.items) }
        ensures variables { IfOk result (λ news. AreFormsOf self.now polys.now.items news.items) }
        ensures wide { IsErrOf result ArithmeticError.Wide → IsPastOf self.now polys.now.items }
    {
        let setting = self.setting(alloc, polys)?;
        let class = ClassInWork {
            base: &self.work.base,
            group: self.group,
            split: self.split,
            setting,
        };
        let forms = class.closed_forms(alloc)?;
        class.variables(alloc, &forms)
    }

    /// What its forms are made from.
    fn setting(&self, alloc: Global, polys: &Vec<Expo>) -> Result<ClassSetting, ArithmeticError>
        requires { IsSplitClass self.now }
        ensures setting { IfOk result (IsSettingIn self.now polys.now.items) }
        ensures wide { IsErrOf result ArithmeticError.Wide
            → IsPastInverse (rows_of self.now.split.now.forms.items) }
    {
        let work = self.work;
        let group = self.group;
        let earlier = bodies(alloc, polys)?;
        let rests = work.map.rests(alloc, group)?;
        let matrix = work.map.class_matrix(alloc, group)?;
        let forms = FormMatrix {
            forms: self.split.forms.as_slice(),
        };
        let back = forms.inverse(alloc)?;
        let ahead = picked(alloc, work.last_state(), group)?;
        Ok(ClassSetting {
            earlier,
            rests,
            matrix,
            back,
            iterations: work.iterations,
            ahead,
        })
    }
}

/// The polynomials of some variables.
fn picked(
    alloc: Global,
    state: &[Poly<Frac, Grevlex>],
    group: &[usize],
) -> Result<Vec<Poly<Frac, Grevlex>>, AllocError>
    requires { All (λ i. i < length state.now) group.now }
    ensures arities { IfOk result (λ out. (w : ℕ) → All (λ p. p.arity ≡ w) state.now
        → All (λ p. p.arity ≡ w) out.items) }
    ensures terms { IfOk result
        (λ out. terms_each out.items ≡ map (poly_at (terms_each state.now)) group.now) }
{
    let mut out = Vec::new(alloc);
    for variable in group {
        out.push(state[*variable].copy(alloc)?)?;
    }
    Ok(out)
}

/// The polynomials themselves.
fn bodies(alloc: Global, polys: &[Expo]) -> Result<Vec<Poly<Frac, Grevlex>>, AllocError>
    ensures arities { IfOk result (λ out. (w : ℕ) → All (λ e. e.body.arity ≡ w) polys.now
        → All (λ p. p.arity ≡ w) out.items) }
    ensures terms { IfOk result (λ out. terms_each out.items ≡ bodies_of polys.now) }
{
    let mut out = Vec::new(alloc);
    for poly in polys {
        out.push(poly.body().copy(alloc)?)?;
    }
    Ok(out)
}
