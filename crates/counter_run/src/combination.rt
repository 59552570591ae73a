//! Compositions of many polynomials with the same images: the image of a monomial is formed once.
ghost use Rattle.std.specs.Prelude.{◌≡◌, ◌≢◌, ◌≤◌, length, All, Any, IfOk, IfSome};
ghost use Rattle.algebra.specs.Fraction.{ℚ};
ghost use Rattle.frac128.specs.FracMeaning.{fraction_of};
ghost use Rattle.monos.specs.Variables.{most_variables};
ghost use Rattle.poly.specs.Seen.{terms_in, terms_each};
ghost use Rattle.poly.specs.Standing.{IsInVariables};
ghost use Rattle.poly.specs.View.{term_of};
ghost use Rattle.counter_run.specs.Combination.{IsPowerProduct, AreMonomialImages, IsComposed, IsComposition, Adds, AddsMultiple};

use crate::composition::{Composition, count_anew, multiple_of};
use crate::open_sum::OpenSum;
use crate::summation::refusal;
use frac128::Frac;
use loop_model::MapError;
use monos::{Grevlex, Mono, Order};
use poly::{Poly, Term};
use ring_laws::Ring;
use std::alloc::{AllocError, Global};
use std::cmp::Ordering;

/// No more images are kept for one list of images of variables: as many as a polynomial has terms.
const MOST_IMAGES: usize = 4096;

/// Behind so many images only short ones are kept.
const MOST_LONG_IMAGES: usize = 512;

/// A short image has no more terms.
const MOST_SHORT_TERMS: usize = 64;

/// A monomial with its image.
#[derive(Drop)]
pub(crate) struct MonomialImage {
    pub(crate) monomial: Mono,
    pub(crate) image: Poly<Frac, Grevlex>,
}

/// The polynomial with the images in place of its variables, as `count_anew` gives it, or stops.
/// The images of its monomials are taken from those that were formed before with the same images of
/// variables, or put among them.
pub(crate) fn compose(
    alloc: Global,
    polynomial: &Poly<Frac, Grevlex>,
    images: &Vec<Poly<Frac, Grevlex>>,
    known: &mut Vec<MonomialImage>,
) -> Result<Composition, MapError>
    requires images { All (IsInVariables polynomial.now.arity) images.now.items }
    requires known { AreMonomialImages polynomial.now.arity (terms_each images.now.items)
        known.old.items }
    ensures composition { IsComposition polynomial.now.arity (terms_each images.now.items)
        (terms_in polynomial.now) result }
    ensures known { AreMonomialImages polynomial.now.arity (terms_each images.now.items)
        known.new.items }
{
    match combine(alloc, polynomial, images, known) {
        Ok(composition) => Ok(composition),
        Err(MapError::Memory) => Err(MapError::Memory),
        Err(_) => count_anew(alloc, polynomial, images),
    }
}

/// The sum of the images of the polynomial's monomials, each times its number, where each of them
/// is formed within the limits.
fn combine(
    alloc: Global,
    polynomial: &Poly<Frac, Grevlex>,
    images: &Vec<Poly<Frac, Grevlex>>,
    known: &mut Vec<MonomialImage>,
) -> Result<Composition, MapError>
    requires images { All (IsInVariables polynomial.now.arity) images.now.items }
    requires known { AreMonomialImages polynomial.now.arity (terms_each images.now.items)
        known.old.items }
    ensures combined { IfOk result (IsComposed polynomial.now.arity (terms_each images.now.items)
        (terms_in polynomial.now)) }
    ensures known { AreMonomialImages polynomial.now.arity (terms_each images.now.items)
        known.new.items }
{
    let mut so_far = OpenSum::zero(alloc, polynomial.arity());
    for term in polynomial.terms() {
        so_far = with_term(alloc, polynomial.arity(), so_far, term, images, known)?;
    }
    let cost = so_far.came;
    Ok(Composition {
        polynomial: so_far.collected(alloc)?,
        cost,
    })
}

/// The sum and the image of the term.
fn with_term(
    alloc: Global,
    arity: usize,
    so_far: OpenSum,
    term: &Term<Frac>,
    images: &Vec<Poly<Frac, Grevlex>>,
    known: &mut Vec<MonomialImage>,
) -> Result<OpenSum, MapError>
    requires few { arity ≤ most_variables }
    requires sum { IsInVariables arity so_far.total }
    requires images { All (IsInVariables arity) images.now.items }
    requires nonzero { fraction_of term.now.coef ≢ ℚ.zero }
    requires known { AreMonomialImages arity (terms_each images.now.items) known.old.items }
    ensures sum { IfOk result (Adds arity (terms_each images.now.items)
        (term_of fraction_of term.now) so_far) }
    ensures known { AreMonomialImages arity (terms_each images.now.items) known.new.items }
{
    if let Some(image) = image_of(known, &term.mono) {
        return with_multiple(alloc, so_far, &term.coef, image);
    }
    let image = multiple_of(alloc, arity, &Frac::one(), &term.mono, images)?;
    let next = with_multiple(alloc, so_far, &term.coef, &image)?;
    keep(alloc, arity, images, known, &term.mono, image)?;
    Ok(next)
}

/// The monomial's image, where it is among those that are known, whose monomials descend.
fn image_of<'a>(known: &'a [MonomialImage], monomial: &Mono) -> Option<&'a Poly<Frac, Grevlex>>
    ensures { IfSome result (λ image.
        Any (λ t. (t.monomial ≡ monomial.now) × (t.image ≡ image.now)) known.now) }
{
    match known.get(place_of(known, monomial)) {
        Some(item) if item.monomial == *monomial => Some(&item.image),
        _ => None,
    }
}

/// How many of those that are known have a greater monomial.
fn place_of(known: &[MonomialImage], monomial: &Mono) -> usize
    ensures { result ≤ length known.now }
{
    known.partition_point(|item| is_above(&item.monomial, monomial))
}

/// Whether the first monomial is greater.
fn is_above(left: &Mono, right: &Mono) -> bool {
    left.arity() == right.arity() && Grevlex.compare(left, right) == Ordering::Greater
}

/// Puts the monomial's image among those that are known, unless there are too many.
fn keep(
    alloc: Global,
    arity: usize,
    images: &Vec<Poly<Frac, Grevlex>>,
    known: &mut Vec<MonomialImage>,
    monomial: &Mono,
    image: Poly<Frac, Grevlex>,
) -> Result<(), AllocError>
    requires known { AreMonomialImages arity (terms_each images.now.items) known.old.items }
    requires image { IsPowerProduct arity (terms_each images.now.items) monomial.now image }
    ensures known { AreMonomialImages arity (terms_each images.now.items) known.new.items }
{
    let is_short = image.terms().len() <= MOST_SHORT_TERMS;
    if known.len() >= MOST_LONG_IMAGES && !is_short || known.len() >= MOST_IMAGES {
        return Ok(());
    }
    let monomial = monomial.copy(alloc)?;
    let place = place_of(known, &monomial);
    known.insert(place, MonomialImage { monomial, image })?;
    Ok(())
}

/// The sum and the number times the image.
fn with_multiple(
    alloc: Global,
    so_far: OpenSum,
    number: &Frac,
    image: &Poly<Frac, Grevlex>,
) -> Result<OpenSum, MapError>
    requires { IsInVariables so_far.total.arity image.now }
    ensures { IfOk result (AddsMultiple (fraction_of number.now) image.now so_far) }
{
    match image.scale(alloc, number) {
        Ok(multiple) => so_far.with(alloc, multiple),
        Err(error) => Err(refusal(error)),
    }
}
