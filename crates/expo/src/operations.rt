//! Operations on exponential polynomials.
ghost use Rattle.std.specs.Prelude.{◌≡◌, ◌≤◌, ◌<◌, ℕ, suc, List, All, length, IfOk, IsErrOf};
ghost use Rattle.algebra.specs.Fraction.{Fraction, ℚ, fraction_size};
ghost use Rattle.algebra.specs.Size.{IsPast};
ghost use Rattle.polynomials.specs.Terms.{value_at};
ghost use Rattle.polynomials.specs.Weight.{weight};
ghost use Rattle.exponentials.specs.Keys.{top};
ghost use Rattle.frac128.specs.FracMeaning.{fraction_of};
ghost use Rattle.poly.specs.Seen.{terms_in};
ghost use Rattle.poly.specs.Standing.{StandsFor};
ghost use Rattle.poly.specs.View.{terms_of};
ghost use Rattle.coprime_base.specs.Sizes.{sizes};
ghost use Rattle.solvable_maps.specs.Expo.{with_normal_keys, inverse_form_terms, inverse_form_sign};
ghost use Rattle.solvable_maps.specs.Iterations.{back_point, point, width};
ghost use Rattle.expo.specs.Bases.{IsCoprimeBase};

use crate::Expo;
use crate::exponents::{monomial_inverse_form, normal_monomial};
use crate::images::{images_at_next, images_at_zero};
use crate::points::images_at_iteration;
use crate::widths::width;
use frac128::{Frac, Whole};
use monos::Grevlex;
use poly::{Poly, Term};
use ring_laws::{ArithmeticError, Ring};
use std::alloc::{AllocError, Global};

impl Expo {
    ghost use Rattle.expo.specs.View.{base_of, value_of, iteration_of, HasValues, IsExpo};
    ghost use Rattle.expo.specs.Operations.{normal_of, vars_of, product_of, sum_of, at_next, inverse_form_of, at_zero, before_of, IsOverBaseOf, IsPastProductOf, IsPastSumOf, IsPastNext, IsPastZero, IsPastBefore, IsPastIteration};

    /// The polynomial with u_j v_j and s^2 replaced by 1. Its variables stand behind n, s, the u and the v.
    /// `Wide` only where its weight is past.
    pub fn normal(
        alloc: Global,
        base: &Vec<Whole>,
        body: &Poly<Frac, Grevlex>,
    ) -> Result<Expo, ArithmeticError>
        requires base { IsCoprimeBase (sizes base.now.items) }
        requires front { width (length (sizes base.now.items)) 0 ≤ body.now.arity }
        ensures normal { let b = sizes base.now.items in IfOk result
            (IsExpo b (vars_of b body.now.arity) (normal_of b (terms_in body.now))) }
        ensures values { IfOk result
            (HasValues (λ n s. value_at ℚ (terms_in body.now) (point (sizes base.now.items) n s))) }
        ensures wide { IsErrOf result ArithmeticError.Wide
            → IsPast (weight fraction_size (terms_in body.now)) }
    {
        let count = base.len();
        let vars = body.arity() - width(count, 0);
        let terms = normal_terms(alloc, body.terms(), count)?;
        let body = Poly::from_terms(alloc, Grevlex, body.arity(), terms)?;
        Ok(Expo::of(alloc, base, vars, body)?)
    }

    /// The product. `Wide` only where its weight is past, or an exponent that it forms is above 65,535.
    pub fn mul(&self, alloc: Global, other: &Expo) -> Result<Expo, ArithmeticError>
        requires base { base_of self.now ≡ base_of other.now }
        requires vars { self.now.vars ≡ other.now.vars }
        ensures product { IfOk result (IsOverBaseOf self.now (product_of self.now other.now)) }
        ensures values { IfOk result
            (HasValues (λ n s. ℚ.mul (value_of self.now n s) (value_of other.now n s))) }
        ensures wide { IsErrOf result ArithmeticError.Wide → IsPastProductOf self.now other.now }
    {
        let product = self.body().mul(alloc, other.body())?;
        Expo::normal(alloc, self.base(), &product)
    }

    /// The sum. `Wide` only where its weight is past.
    pub fn add(&self, alloc: Global, other: &Expo) -> Result<Expo, ArithmeticError>
        requires base { base_of self.now ≡ base_of other.now }
        requires vars { self.now.vars ≡ other.now.vars }
        ensures sum { IfOk result (IsOverBaseOf self.now (sum_of self.now other.now)) }
        ensures values { IfOk result
            (HasValues (λ n s. ℚ.add (value_of self.now n s) (value_of other.now n s))) }
        ensures wide { IsErrOf result ArithmeticError.Wide → IsPastSumOf self.now other.now }
    {
        let body = self.body().add(alloc, other.body())?;
        Ok(Expo::of(alloc, self.base(), self.vars(), body)?)
    }

    /// The polynomial at n + 1: it has n + 1 for n, -s for s, b_j u_j for u_j and v_j / b_j for v_j.
    /// `Wide` only where the weight of the composition with these images is past.
    pub fn shift_n(&self, alloc: Global) -> Result<Expo, ArithmeticError>
        ensures shifted { IfOk result (IsOverBaseOf self.now (at_next self.now)) }
        ensures values { IfOk result (HasValues (λ n s. value_of self.now (suc n) s)) }
        ensures wide { IsErrOf result ArithmeticError.Wide → IsPastNext self.now }
    {
        let images = images_at_next(alloc, self.base(), self.vars())?;
        let body = self.body().compose(alloc, &images)?;
        Ok(Expo::of(alloc, self.base(), self.vars(), body)?)
    }

    /// The polynomial at -n: it has -n for n, and u_j and v_j are exchanged.
    pub fn inverse_form(&self, alloc: Global) -> Result<Expo, AllocError>
        ensures inverse_form { IfOk result (IsOverBaseOf self.now (inverse_form_of self.now)) }
        ensures values { IfOk result
            (HasValues (λ n s. value_at ℚ (terms_in self.now.body)
            (back_point (base_of self.now) n s))) }
    {
        let terms = terms_inverse_form(alloc, self.body().terms(), self.base().len())?;
        let body = Poly::from_distinct(alloc, Grevlex, self.body().arity(), terms)?;
        Expo::of(alloc, self.base(), self.vars(), body)
    }

    /// The polynomial at n - 1: it has n - 1 for n, -s for s, u_j / b_j for u_j and b_j v_j for v_j.
    /// `Wide` only where the weight of the composition that puts n + 1 for n in the polynomial at -n is past.
    pub fn before(&self, alloc: Global) -> Result<Expo, ArithmeticError>
        ensures before { IfOk result (IsOverBaseOf self.now (before_of self.now)) }
        ensures values { IfOk result (λ e. (n : ℕ) (s : List Fraction) → length s ≡ self.now.vars
            → value_of e (suc n) s ≡ value_of self.now n s) }
        ensures wide { IsErrOf result ArithmeticError.Wide → IsPastBefore self.now }
    {
        let back = self.inverse_form(alloc)?;
        let next = back.shift_n(alloc)?;
        Ok(next.inverse_form(alloc)?)
    }

    /// The polynomial at a number of iterations, over the variables alone.
    /// `Wide` only where a power of the base's numbers or of their inverses does not fit, or the weight of the composition with these is past.
    pub fn at_iteration(
        &self,
        alloc: Global,
        iterations: u32,
    ) -> Result<Poly<Frac, Grevlex>, ArithmeticError>
        ensures iteration { IfOk result (λ p. StandsFor self.now.vars p
            (iteration_of self.now iterations)) }
        ensures values { IfOk result (λ p. (s : List Fraction) → length s ≡ self.now.vars
            → value_at ℚ (terms_in p) s ≡ value_of self.now iterations s) }
        ensures wide { IsErrOf result ArithmeticError.Wide → IsPastIteration self.now iterations }
    {
        let images = images_at_iteration(alloc, self.base(), self.vars(), iterations)?;
        self.body().compose(alloc, &images)
    }

    /// The polynomial at n = 0, over the variables alone: it has 0 for n and 1 for s, the u and the v.
    /// `Wide` only where the weight of the composition with these is past.
    pub fn at_zero(&self, alloc: Global) -> Result<Poly<Frac, Grevlex>, ArithmeticError>
        ensures zero { IfOk result (λ p. StandsFor self.now.vars p (at_zero self.now)) }
        ensures values { IfOk result (λ p. (s : List Fraction) → length s ≡ self.now.vars
            → value_at ℚ (terms_in p) s ≡ value_of self.now 0 s) }
        ensures wide { IsErrOf result ArithmeticError.Wide → IsPastZero self.now }
    {
        let images = images_at_zero(alloc, self.base().len(), self.vars())?;
        self.body().compose(alloc, &images)
    }
}

/// The terms with s s and each u_j v_j replaced by 1.
fn normal_terms(
    alloc: Global,
    terms: &[Term<Frac>],
    count: usize,
) -> Result<Vec<Term<Frac>>, AllocError>
    requires { All (λ t. width count 0 ≤ length t.mono) terms.now }
    ensures terms { IfOk result (λ out. terms_of fraction_of out.items
        ≡ with_normal_keys count (terms_of fraction_of terms.now)) }
{
    let mut out = Vec::with_capacity(alloc, terms.len())?;
    for term in terms {
        let mono = normal_monomial(alloc, &term.mono, count)?;
        out.push(Term {
            mono,
            coef: term.coef,
        })?;
    }
    Ok(out)
}

/// The terms with -n for n, and u_j and v_j exchanged.
fn terms_inverse_form(
    alloc: Global,
    terms: &[Term<Frac>],
    count: usize,
) -> Result<Vec<Term<Frac>>, AllocError>
    requires { All (λ t. width count 0 ≤ length t.mono) terms.now }
    ensures terms { IfOk result (λ out. terms_of fraction_of out.items
        ≡ inverse_form_terms count (terms_of fraction_of terms.now)) }
{
    let mut out = Vec::with_capacity(alloc, terms.len())?;
    for term in terms {
        let mono = monomial_inverse_form(alloc, &term.mono, count)?;
        let coef = coefficient_inverse_form(term);
        out.push(Term { mono, coef })?;
    }
    Ok(out)
}

/// The coefficient of a term with -n for n.
fn coefficient_inverse_form(term: &Term<Frac>) -> Frac
    requires { 0 < length term.now.mono }
    ensures { fraction_of result ≡ inverse_form_sign (top term.now.mono)
        (fraction_of term.now.coef) }
{
    if term.mono.exponent(0) % 2 == 0 {
        term.coef
    } else {
        term.coef.neg()
    }
}
