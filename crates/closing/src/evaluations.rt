//! Values over residues.
ghost use Rattle.std.specs.Prelude.{pos, map, IfOk};
ghost use Rattle.std.specs.List.{AllZip};
ghost use Rattle.algebra.specs.Ring.{operations};
ghost use Rattle.algebra.proofs.IntRing.{ℤ_ring};
ghost use Rattle.polynomials.specs.Terms.{value_at};
ghost use Rattle.closures.specs.Modulo.{AreCongruent};
ghost use Rattle.poly.specs.View.{terms_of};
ghost use Rattle.residue_rows.specs.Modulus.{modulus};
ghost use Rattle.residue_rows.specs.Numbers.{number_of, numbers_of};
ghost use Rattle.closing.specs.Maps.{modular_terms_each};

use crate::modular_maps::ResiduePolynomial;
use poly::Term;
use residue_rows::monomial_values::times_monomial;
use residue_rows::residue::Residue;
use std::alloc::{AllocError, Global};

/// The values of the polynomials at the state.
pub(crate) fn map_at(
    alloc: Global,
    polynomials: &[ResiduePolynomial],
    state: &[Residue],
) -> Result<Vec<Residue>, AllocError>
    ensures { IfOk result (λ values. AllZip (AreCongruent (pos modulus)) (numbers_of values.items)
        (map (λ r. value_at (operations ℤ_ring) r (numbers_of state.now))
        (modular_terms_each polynomials.now))) }
{
    let mut values = Vec::with_capacity(alloc, polynomials.len())?;
    for polynomial in polynomials {
        values.push(terms_at(&polynomial.terms, state))?;
    }
    Ok(values)
}

/// The sum of the terms' values at the state.
fn terms_at(terms: &[Term<Residue>], state: &[Residue]) -> Residue
    ensures { AreCongruent (pos modulus) (number_of result)
        (value_at (operations ℤ_ring) (terms_of number_of terms.now) (numbers_of state.now)) }
{
    let mut sum = Residue::zero();
    for term in terms {
        sum = sum.add(&times_monomial(term.coef, &term.mono, state));
    }
    sum
}
