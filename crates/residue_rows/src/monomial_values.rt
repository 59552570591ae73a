//! The values of monomials at states of residues.
ghost use Rattle.std.specs.Prelude.{pos, map, ◌*ℤ◌, IfOk};
ghost use Rattle.std.specs.List.{AllZip};
ghost use Rattle.algebra.specs.Arithmetic.{power};
ghost use Rattle.algebra.specs.Ring.{operations};
ghost use Rattle.algebra.proofs.IntRing.{ℤ_ring};
ghost use Rattle.polynomials.specs.Terms.{monomial_at};
ghost use Rattle.closures.specs.Modulo.{AreCongruent};
ghost use Rattle.residue_rows.specs.Modulus.{modulus};
ghost use Rattle.residue_rows.specs.Numbers.{number_of, numbers_of};

use crate::residue::Residue;
use monos::Mono;
use std::alloc::{AllocError, Global};

/// The values of the monomials at the state.
pub fn monomials_at(
    alloc: Global,
    monomials: &[Mono],
    state: &[Residue],
) -> Result<Vec<Residue>, AllocError>
    ensures { IfOk result (λ row. AllZip (AreCongruent (pos modulus)) (numbers_of row.items)
        (map (monomial_at (operations ℤ_ring) (numbers_of state.now)) monomials.now)) }
{
    let mut row = Vec::with_capacity(alloc, monomials.len())?;
    for monomial in monomials {
        row.push(times_monomial(Residue::one(), monomial, state))?;
    }
    Ok(row)
}

/// The number times the value of the monomial at the state.
pub fn times_monomial(number: Residue, monomial: &Mono, state: &[Residue]) -> Residue
    ensures { AreCongruent (pos modulus) (number_of result)
        (number_of number *ℤ monomial_at (operations ℤ_ring) (numbers_of state.now) monomial.now) }
{
    let mut product = number;
    let exponents = monomial.exponents();
    for (exponent, value) in exponents.as_slice().iter().zip(state) {
        product = times_power(product, value, *exponent);
    }
    product
}

/// The number times the power of the base.
fn times_power(number: Residue, base: &Residue, exponent: u16) -> Residue
    ensures { AreCongruent (pos modulus) (number_of result)
        (number_of number *ℤ power (operations ℤ_ring) (number_of base.now) exponent) }
{
    let mut product = number;
    for _time in 0..exponent {
        product = product.mul(base);
    }
    product
}
