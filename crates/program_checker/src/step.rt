//! One identity of a certificate.
ghost use Rattle.std.specs.Prelude.{◌≡◌, ◌<◌, ◌≤◌, ◌↔◌, ◌⊎◌, length, IfOk, IsErrOf, IsTrue};
ghost use Rattle.algebra.specs.Fraction.{ℚ, fractions};
ghost use Rattle.polynomials.specs.Terms.{Same, combination, compose};
ghost use Rattle.polynomials.specs.Weight.{IsPastComposition};
ghost use Rattle.monos.specs.Variables.{most_variables};
ghost use Rattle.poly.specs.Seen.{terms_in};
ghost use Rattle.poly.specs.Standing.{StandsFor};
ghost use Rattle.cert_form.specs.Cert.{HaveArity, polys_in};
ghost use Rattle.task_lists.specs.Past.{IsPastCombination};
ghost use Rattle.program_checker.specs.Rows.{chosen, row_of};
ghost use Rattle.program_checker.specs.Fits.{IsRow, AreRows};
ghost use Rattle.program_checker.specs.View.{pairs_of};

use crate::Row;
use frac128::Frac;
use monos::Grevlex;
use poly::Poly;
use ring_laws::ArithmeticError;
use std::alloc::Global;

/// The identities of a transition, which has this number: each element, with these images for its variables, is the combination of its row of
/// cofactors with the generators. Images, cofactors and generators are in so many variables.
#[derive(Drop)]
pub(crate) struct Step<'a> {
    pub(crate) transition: usize,
    pub(crate) arity: usize,
    pub(crate) elements: &'a Vec<Poly<Frac, Grevlex>>,
    pub(crate) images: &'a Vec<Poly<Frac, Grevlex>>,
    pub(crate) generators: &'a Vec<Poly<Frac, Grevlex>>,
    pub(crate) rows: &'a Vec<Row>,
    ghost some: { 0 < length images.now.items },
    ghost over: { HaveArity arity images.now },
    ghost inside: { HaveArity (length images.now.items) elements.now },
    ghost standing: { HaveArity arity generators.now },
    ghost fit: { AreRows arity (length generators.now.items) (length elements.now.items) rows.now },
}

/// The sum of the products of the cofactors with the generators at their positions.
pub(crate) fn combination_at(
    alloc: Global,
    arity: usize,
    row: &Row,
    generators: &Vec<Poly<Frac, Grevlex>>,
) -> Result<Poly<Frac, Grevlex>, ArithmeticError>
    requires few { arity ≤ most_variables }
    requires row { IsRow arity (length generators.now.items) row.now }
    requires generators { HaveArity arity generators.now }
    ensures sum { IfOk result (λ p. StandsFor arity p
        (combination ℚ (row_of (pairs_of row.now)) (polys_in generators.now))) }
    ensures wide { IsErrOf result ArithmeticError.Wide
        → IsPastCombination (polys_in row.now.cofactors)
        (chosen (polys_in generators.now) row.now.positions.items) }
{
    let mut sum = Poly::zero(alloc, Grevlex, arity);
    for (i, cofactor) in row.cofactors.iter().enumerate() {
        let generator = &generators[row.positions[i]];
        sum = sum.add(alloc, &cofactor.mul(alloc, generator)?)?;
    }
    Ok(sum)
}

/// Whether the element with the images for its variables is the combination of its row of cofactors with the generators.
pub(crate) fn step_holds(
    alloc: Global,
    arity: usize,
    element: &Poly<Frac, Grevlex>,
    images: &Vec<Poly<Frac, Grevlex>>,
    row: &Row,
    generators: &Vec<Poly<Frac, Grevlex>>,
) -> Result<bool, ArithmeticError>
    requires some { 0 < length images.now.items }
    requires arity { element.now.arity ≡ length images.now.items }
    requires images { HaveArity arity images.now }
    requires row { IsRow arity (length generators.now.items) row.now }
    requires generators { HaveArity arity generators.now }
    ensures holds { IfOk result (λ holds. IsTrue holds ↔
        Same ℚ (compose ℚ arity (terms_in element.now) (polys_in images.now))
        (combination ℚ (row_of (pairs_of row.now)) (polys_in generators.now))) }
    ensures wide { IsErrOf result ArithmeticError.Wide →
        IsPastComposition fractions (terms_in element.now) (polys_in images.now)
        ⊎ IsPastCombination (polys_in row.now.cofactors)
        (chosen (polys_in generators.now) row.now.positions.items) }
{
    let composed = element.compose(alloc, images)?;
    let sum = combination_at(alloc, arity, row, generators)?;
    Ok(composed == sum)
}
