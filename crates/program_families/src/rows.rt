//! The rows of rests: for each of their monomials the numbers that it has in them.
ghost use Rattle.std.specs.Prelude.{◌≡◌, [], ◌∷◌, ◌++◌, List, ℕ, map, length, All, IfOk, OnOk};
ghost use Rattle.algebra.specs.Fraction.{ℚ};
ghost use Rattle.polynomials.specs.Terms.{coefficient};
ghost use Rattle.frac128.specs.FracMeaning.{fraction_of};
ghost use Rattle.poly.specs.Seen.{terms_in};
ghost use Rattle.program_families.specs.Views.{HaveArity};
ghost use Rattle.program_families.specs.RestRows.{monomials_in, all_monomials, IsSetOf, numbers_in, AreRowsOf};

use crate::Rest;
use frac128::Frac;
use monos::{Grevlex, Mono, Order};
use poly::Poly;
use ring_laws::Ring;
use std::alloc::{AllocError, Global};
use std::cmp::Ordering;

/// A monomial of rests, with the numbers that it has in them, in their order.
#[derive(Drop)]
pub struct Row {
    pub monomial: Mono,
    pub numbers: Vec<Frac>,
}

/// The number of the monomial in the polynomial, or 0.
fn coefficient(polynomial: &Poly<Frac, Grevlex>, monomial: &Mono) -> Frac
    ensures { fraction_of result ≡ coefficient ℚ (terms_in polynomial.now) monomial.now }
{
    for term in polynomial.terms() {
        if term.mono == *monomial {
            return term.coef;
        }
    }
    Frac::zero()
}

/// The numbers of the monomial in the rests.
fn numbers_at(alloc: Global, rests: &[Rest], monomial: &Mono) -> Result<Vec<Frac>, AllocError>
    ensures { IfOk result (λ ns. map fraction_of ns.items ≡ numbers_in rests.now monomial.now) }
{
    let mut numbers = Vec::new(alloc);
    for rest in rests {
        numbers.push(coefficient(&rest.polynomial, monomial))?;
    }
    Ok(numbers)
}

/// Puts the monomial among the others, which ascend, unless it is one of them.
fn put(alloc: Global, monomials: &mut Vec<Mono>, monomial: &Mono) -> Result<(), AllocError>
    requires long { All (λ m. length m ≡ length monomial.now) monomials.old.items }
    ensures long { OnOk result (All (λ m. length m ≡ length monomial.now) monomials.new.items) }
    ensures set { (ms : List (List ℕ)) → IsSetOf ms monomials.old.items
        → OnOk result (IsSetOf (ms ++ monomial.now ∷ []) monomials.new.items) }
{
    for place in 0..monomials.len() {
        match Grevlex.compare(monomial, &monomials[place]) {
            Ordering::Greater => {}
            Ordering::Equal => return Ok(()),
            Ordering::Less => {
                monomials.insert(place, monomial.copy(alloc)?)?;
                return Ok(());
            }
        }
    }
    monomials.push(monomial.copy(alloc)?)?;
    Ok(())
}

/// Puts the monomials of the polynomial among the others.
fn put_all(
    alloc: Global,
    monomials: &mut Vec<Mono>,
    polynomial: &Poly<Frac, Grevlex>,
) -> Result<(), AllocError>
    requires long { All (λ m. length m ≡ polynomial.now.arity) monomials.old.items }
    ensures long { OnOk result (All (λ m. length m ≡ polynomial.now.arity) monomials.new.items) }
    ensures set { (ms : List (List ℕ)) → IsSetOf ms monomials.old.items
        → OnOk result (IsSetOf (ms ++ monomials_in (terms_in polynomial.now))
        monomials.new.items) }
{
    for term in polynomial.terms() {
        put(alloc, monomials, &term.mono)?;
    }
    Ok(())
}

/// The monomials of the rests, each once, in ascending order.
fn monomials_of(alloc: Global, rests: &[Rest]) -> Result<Vec<Mono>, AllocError>
    requires { (m : ℕ) × HaveArity m rests.now }
    ensures { IfOk result (λ es. IsSetOf (all_monomials rests.now) es.items) }
{
    let mut monomials = Vec::new(alloc);
    for rest in rests {
        put_all(alloc, &mut monomials, &rest.polynomial)?;
    }
    Ok(monomials)
}

/// A row for each monomial of the rests, in ascending order.
pub fn rows_of(alloc: Global, rests: &[Rest]) -> Result<Vec<Row>, AllocError>
    requires { (m : ℕ) × HaveArity m rests.now }
    ensures { IfOk result (λ rows. AreRowsOf rests.now rows.items) }
{
    let monomials = monomials_of(alloc, rests)?;
    let mut rows = Vec::new(alloc);
    for monomial in &monomials {
        let numbers = numbers_at(alloc, rests, monomial)?;
        let monomial = monomial.copy(alloc)?;
        rows.push(Row { monomial, numbers })?;
    }
    Ok(rows)
}
