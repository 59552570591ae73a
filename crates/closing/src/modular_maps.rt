//! The maps of a loop over residues.
ghost use Rattle.std.specs.Prelude.{pos, IfOk, IfSome, IsNone};
ghost use Rattle.std.specs.List.{AllZip, Any};
ghost use Rattle.poly.specs.Seen.{terms_in, terms_each};
ghost use Rattle.loop_model.specs.View.{program_of};
ghost use Rattle.counter_run.specs.Maps.{AreMaps};
ghost use Rattle.residue_rows.specs.Modulus.{modulus};
ghost use Rattle.closing.specs.Modulo.{AreTermsModulo, HasNoResidues, HasNoMapsModulo};
ghost use Rattle.closing.specs.Maps.{modular_terms, modular_terms_each, IsMapModulo, AreMapsModulo};

use counter_run::Maps;
use frac128::Frac;
use loop_model::Loop;
use monos::Grevlex;
use poly::{Poly, Term};
use residue_rows::residue::Residue;
use std::alloc::{AllocError, Global};

/// A polynomial over residues modulo 2^127 - 1.
#[derive(Drop)]
pub struct ResiduePolynomial {
    pub(crate) terms: Vec<Term<Residue>>,
}

/// The map of the start and those of the branches, in order, with residues modulo 2^127 - 1 for
/// their numbers.
#[derive(Drop)]
pub struct ResidueMaps {
    pub(crate) start: Vec<ResiduePolynomial>,
    pub(crate) branches: Vec<Vec<ResiduePolynomial>>,
}

/// The maps over residues. None only where a denominator in them has no inverse modulo 2^127 - 1.
pub fn residue_maps(
    alloc: Global,
    lp: &Loop,
    maps: &Maps,
) -> Result<Option<ResidueMaps>, AllocError>
    requires { AreMaps (program_of lp.now) maps.now }
    ensures maps { IfOk result (λ found. IfSome found (AreMapsModulo (program_of lp.now))) }
    ensures none { IfOk result (λ found.
        IsNone found → HasNoMapsModulo (program_of lp.now) (pos modulus)) }
{
    let Some(start) = residue_map(alloc, &maps.start)? else {
        return Ok(None);
    };
    let Some(branches) = branch_maps(alloc, &maps.branches)? else {
        return Ok(None);
    };
    Ok(Some(ResidueMaps { start, branches }))
}

/// The maps of the branches. None only where a denominator in them has no inverse.
fn branch_maps(
    alloc: Global,
    maps: &[Vec<Poly<Frac, Grevlex>>],
) -> Result<Option<Vec<Vec<ResiduePolynomial>>>, AllocError>
    ensures maps { IfOk result (λ found.
        IfSome found (λ rs. AllZip IsMapModulo maps.now rs.items)) }
    ensures none { IfOk result (λ found. IsNone found
        → Any (λ map. Any (λ p. HasNoResidues (pos modulus) (terms_in p)) map.items) maps.now) }
{
    let mut residues = Vec::new(alloc);
    for map in maps {
        let Some(map) = residue_map(alloc, map)? else {
            return Ok(None);
        };
        residues.push(map)?;
    }
    Ok(Some(residues))
}

/// The polynomials of a map. None only where a denominator in them has no inverse.
fn residue_map(
    alloc: Global,
    map: &[Poly<Frac, Grevlex>],
) -> Result<Option<Vec<ResiduePolynomial>>, AllocError>
    ensures map { IfOk result (λ found. IfSome found (λ rs. AllZip (AreTermsModulo (pos modulus))
        (terms_each map.now) (modular_terms_each rs.items))) }
    ensures none { IfOk result (λ found. IsNone found
        → Any (λ p. HasNoResidues (pos modulus) (terms_in p)) map.now) }
{
    let mut residues = Vec::new(alloc);
    for image in map {
        let Some(image) = residue_polynomial(alloc, image)? else {
            return Ok(None);
        };
        residues.push(image)?;
    }
    Ok(Some(residues))
}

/// The polynomial over residues. None only where a denominator in it has no inverse.
fn residue_polynomial(
    alloc: Global,
    polynomial: &Poly<Frac, Grevlex>,
) -> Result<Option<ResiduePolynomial>, AllocError>
    ensures residues { IfOk result (λ found. IfSome found (λ r. AreTermsModulo (pos modulus)
        (terms_in polynomial.now) (modular_terms r))) }
    ensures none { IfOk result (λ found. IsNone found
        → HasNoResidues (pos modulus) (terms_in polynomial.now)) }
{
    let mut terms = Vec::new(alloc);
    for term in polynomial.terms() {
        let Some(coef) = Residue::of_fraction(&term.coef) else {
            return Ok(None);
        };
        let mono = term.mono.copy(alloc)?;
        terms.push(Term { mono, coef })?;
    }
    Ok(Some(ResiduePolynomial { terms }))
}
