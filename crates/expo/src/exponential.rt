//! Exponential polynomials.
ghost use Rattle.std.specs.Prelude.{◌≡◌, ◌≤◌, [], length};
ghost use Rattle.monos.specs.Variables.{most_variables};
ghost use Rattle.poly.specs.Seen.{terms_in};
ghost use Rattle.coprime_base.specs.Sizes.{sizes};
ghost use Rattle.solvable_maps.specs.Iterations.{width};
ghost use Rattle.expo.specs.Bases.{IsCoprimeBase, IsOwnNormal, coprime_base_prop, own_normal_prop};

use crate::widths::width;
use frac128::{Frac, Whole};
use monos::Grevlex;
use poly::Poly;
use std::alloc::{AllocError, Global};

/// A polynomial in n, s, u_1 to u_r, v_1 to v_r and `vars` variables, in this order. After n iterations s is (-1)^n, u_j is the n-th power of the base's j-th number and v_j that of its inverse.
/// No monomial has both u_j and v_j, and none has s to a power above 1. The base's numbers are told by their sizes.
#[derive(Drop)]
pub struct Expo {
    base: Vec<Whole>,
    vars: usize,
    body: Poly<Frac, Grevlex>,
    pub ghost coprime: { IsCoprimeBase (sizes base.items) } by { coprime_base_prop _ },
    pub ghost arity: { body.arity ≡ width (length (sizes base.items)) vars },
    pub ghost normal: { IsOwnNormal (sizes base.items) (terms_in body) } by { own_normal_prop _ _ },
}

impl Expo {
    ghost use Rattle.std.specs.Prelude.{IfOk};
    ghost use Rattle.expo.specs.View.{base_of};

    /// The base.
    pub fn base(&self) -> &Vec<Whole>
        ensures { result.now ≡ self.now.base }
    {
        &self.base
    }

    /// The number of variables.
    pub fn vars(&self) -> usize
        ensures { result ≡ self.now.vars }
    {
        self.vars
    }

    /// The polynomial itself.
    pub fn body(&self) -> &Poly<Frac, Grevlex>
        ensures { result.now ≡ self.now.body }
    {
        &self.body
    }

    /// The polynomial itself, taken out.
    pub fn into_body(self) -> Poly<Frac, Grevlex>
        ensures { result ≡ self.body }
    {
        self.body
    }

    /// A polynomial over this base that is normal as it is.
    pub(crate) fn of(
        alloc: Global,
        base: &[Whole],
        vars: usize,
        body: Poly<Frac, Grevlex>,
    ) -> Result<Expo, AllocError>
        requires base { IsCoprimeBase (sizes base.now) }
        requires arity { body.arity ≡ width (length (sizes base.now)) vars }
        requires normal { IsOwnNormal (sizes base.now) (terms_in body) }
        ensures base { IfOk result (λ e. base_of e ≡ sizes base.now) }
        ensures vars { IfOk result (λ e. e.vars ≡ vars) }
        ensures terms { IfOk result (λ e. terms_in e.body ≡ terms_in body) }
    {
        let base = base.to_vec(alloc)?;
        Ok(Expo { base, vars, body })
    }

    /// The polynomial 0 over this base, in `vars` variables.
    pub fn zero(alloc: Global, base: &Vec<Whole>, vars: usize) -> Result<Expo, AllocError>
        requires base { IsCoprimeBase (sizes base.now.items) }
        requires few { width (length (sizes base.now.items)) vars ≤ most_variables }
        ensures base { IfOk result (λ e. base_of e ≡ sizes base.now.items) }
        ensures vars { IfOk result (λ e. e.vars ≡ vars) }
        ensures terms { IfOk result (λ e. terms_in e.body ≡ []) }
    {
        let body = Poly::zero(alloc, Grevlex, width(base.len(), vars));
        Expo::of(alloc, base, vars, body)
    }

    /// A copy.
    pub fn copy(&self, alloc: Global) -> Result<Expo, AllocError>
        ensures base { IfOk result (λ e. base_of e ≡ base_of self.now) }
        ensures vars { IfOk result (λ e. e.vars ≡ self.now.vars) }
        ensures terms { IfOk result (λ e. terms_in e.body ≡ terms_in self.now.body) }
    {
        let body = self.body.copy(alloc)?;
        Expo::of(alloc, &self.base, self.vars, body)
    }
}
