//! S-polynomials.
ghost use Rattle.std.specs.Prelude.{◌≡◌, ◌≢◌, [], ◌++◌, length, IfOk, IsErrOf, ◌⊎◌};
ghost use Rattle.algebra.specs.Fraction.{ℚ, fractions};
ghost use Rattle.polynomials.specs.Exponent.{lcm, Divides};
ghost use Rattle.polynomials.specs.Terms.{negate};
ghost use Rattle.polynomials.specs.Weight.{IsPastSum};
ghost use Rattle.machines.specs.Cut.{lead_of};
ghost use Rattle.machines.specs.High.{IsPastRaised};
ghost use Rattle.poly.specs.Seen.{Is, terms_in};
ghost use Rattle.task_lists.specs.Raising.{raised_to};

use frac128::Frac;
use monos::{Mono, Order};
use poly::Poly;
use ring_laws::ArithmeticError;
use std::alloc::{AllocError, Global};

/// The S-polynomial of two elements, whose leads have this least common multiple.
pub(crate) fn s_polynomial<O: Order>(
    alloc: Global,
    f: &Poly<Frac, O>,
    g: &Poly<Frac, O>,
    multiple: &Mono,
) -> Result<Poly<Frac, O>, ArithmeticError>
    requires order { f.now.order ≡ g.now.order }
    requires arity { f.now.arity ≡ g.now.arity }
    requires nonzero { (terms_in f.now ≢ []) × (terms_in g.now ≢ []) }
    requires multiple { multiple.now ≡ lcm (lead_of (terms_in f.now)) (lead_of (terms_in g.now)) }
    ensures difference { IfOk result (Is f.now.order f.now.arity
        (raised_to multiple.now (terms_in f.now)
        ++ negate ℚ (raised_to multiple.now (terms_in g.now)))) }
    ensures wide { IsErrOf result ArithmeticError.Wide
        → IsPastSum fractions (terms_in f.now) (terms_in g.now)
        ⊎ IsPastRaised multiple.now (terms_in f.now)
        ⊎ IsPastRaised multiple.now (terms_in g.now) }
{
    let left = multiple_with_lead(alloc, f, multiple)?;
    let right = multiple_with_lead(alloc, g, multiple)?;
    left.sub(alloc, &right)
}

/// The multiple of the polynomial by a monomial whose lead is this monomial.
fn multiple_with_lead<O: Order>(
    alloc: Global,
    f: &Poly<Frac, O>,
    multiple: &Mono,
) -> Result<Poly<Frac, O>, ArithmeticError>
    requires nonzero { terms_in f.now ≢ [] }
    requires long { length multiple.now ≡ f.now.arity }
    requires divided { Divides (lead_of (terms_in f.now)) multiple.now }
    ensures product { IfOk result (Is f.now.order f.now.arity
        (raised_to multiple.now (terms_in f.now))) }
    ensures wide { IsErrOf result ArithmeticError.Wide
        → IsPastRaised multiple.now (terms_in f.now) }
{
    let factor = multiple.quotient(alloc, lead_monomial(f))?;
    f.shift(alloc, &factor)
}

/// The least common multiple of the leads.
pub(crate) fn multiple_of<O: Order>(
    alloc: Global,
    f: &Poly<Frac, O>,
    g: &Poly<Frac, O>,
) -> Result<Mono, AllocError>
    requires arity { f.now.arity ≡ g.now.arity }
    requires nonzero { (terms_in f.now ≢ []) × (terms_in g.now ≢ []) }
    ensures multiple { IfOk result (λ e.
        e ≡ lcm (lead_of (terms_in f.now)) (lead_of (terms_in g.now))) }
{
    lead_monomial(f).lcm(alloc, lead_monomial(g))
}

/// The lead of a polynomial that isn't 0.
fn lead_monomial<O: Order>(p: &Poly<Frac, O>) -> &Mono
    requires { terms_in p.now ≢ [] }
    ensures { result.now ≡ lead_of (terms_in p.now) }
{
    let Some(lead) = p.lead() else { unreachable!() };
    &lead.mono
}
