//! Products of dense polynomials, on a grid: an array with a place for each monomial that the factors can form.
ghost use Rattle.std.specs.Prelude.{◌≡◌, ◌≤◌, ◌<◌, ◌^◌, ◌∷◌, [], ◌++◌, map, length, All, IfSome, IfOk, OnOk, IsErrOf};
ghost use Rattle.polynomials.specs.Terms.{Terms, times};
ghost use Rattle.polynomials.specs.Weight.{IsPastProduct};
ghost use Rattle.monos.specs.Variables.{most_variables};
ghost use Rattle.poly.specs.Places.{place_of, exponents_at, IsInside, IsGridFor, most_base, most_places};
ghost use Rattle.poly.specs.Grid.{Holds, AddsRow, Read};
ghost use Rattle.poly.specs.Seen.{Is};
ghost use Rattle.poly.specs.View.{term_of, terms_of};

use crate::build::sum_of;
use crate::{Poly, Term};
use monos::{Mono, Order};
use ring_laws::{ArithmeticError, Ring};
use std::alloc::{AllocError, Global};

/// The most places of a grid.
const MOST_PLACES: usize = 1 << 20;

/// The base and the number of places of a grid for the product of two lists of terms.
/// None where there is none, or where most of its places would stay empty.
pub(crate) fn grid_for<K: Ring>(
    left: &[Term<K>],
    right: &[Term<K>],
    arity: usize,
) -> Option<(usize, usize)>
    requires left { All (λ t. length t.mono ≡ arity) left.now }
    requires right { All (λ t. length t.mono ≡ arity) right.now }
    ensures fits { IfSome result (λ grid. IsGridFor K.scalars.arithmetic grid.0 arity
        (terms_of K.meaning left.now) (terms_of K.meaning right.now)) }
    ensures places { IfSome result (λ grid. grid.1 ≡ grid.0 ^ arity) }
{
    let products = left.len().checked_mul(right.len())?;
    // so few that no grid is worth it, whatever the exponents
    if places_of(2, arity)? > products / 2 {
        return None;
    }
    let base = usize::from(greatest(left)) + usize::from(greatest(right)) + 1;
    if base > 65_536 {
        return None;
    }
    let places = places_of(base, arity)?;
    if places <= products / 2 {
        Some((base, places))
    } else {
        None
    }
}

/// The product of two lists of terms, made on a grid.
pub(crate) fn dense_product<K: Ring, O: Order>(
    alloc: Global,
    order: O,
    arity: usize,
    base: usize,
    places: usize,
    left: &[Term<K>],
    right: &[Term<K>],
) -> Result<Poly<K, O>, ArithmeticError>
    requires few { arity ≤ most_variables }
    requires grid { IsGridFor K.scalars.arithmetic base arity
        (terms_of K.meaning left.now) (terms_of K.meaning right.now) }
    requires places { places ≡ base ^ arity }
    ensures product { IfOk result (Is order arity (times K.scalars.arithmetic
        (terms_of K.meaning left.now) (terms_of K.meaning right.now))) }
    ensures wide { IsErrOf result ArithmeticError.Wide → IsPastProduct K.scalars
        (terms_of K.meaning left.now) (terms_of K.meaning right.now) }
{
    let mut grid = zeros(alloc, places)?;
    for term in left {
        add_row(&mut grid, base, term, right)?;
    }
    let terms = terms_at(alloc, base, arity, &grid)?;
    sum_of(alloc, order, arity, terms)
}

/// As many zeros as there are places.
fn zeros<K: Ring>(alloc: Global, places: usize) -> Result<Vec<K>, AllocError>
    ensures count { IfOk result (λ zeros. length zeros.items ≡ places) }
    ensures ok { IfOk result (λ zeros. All (λ a. K.meaning a ≡ K.scalars.zero) zeros.items) }
{
    let mut zeros = Vec::with_capacity(alloc, places)?;
    while zeros.len() < places {
        zeros.push(K::zero())?;
    }
    Ok(zeros)
}

/// Adds the products of one term with some terms to the numbers on a grid.
fn add_row<K: Ring>(
    grid: &mut Vec<K>,
    base: usize,
    term: &Term<K>,
    right: &[Term<K>],
) -> Result<(), ArithmeticError>
    requires size { length grid.old.items ≡ base ^ length term.now.mono }
    requires grid { IsGridFor K.scalars.arithmetic base (length term.now.mono)
        (term_of K.meaning term.now ∷ []) (terms_of K.meaning right.now) }
    ensures ok { OnOk result (AddsRow K.scalars.arithmetic base (length term.now.mono)
        (term_of K.meaning term.now) (terms_of K.meaning right.now)
        (map K.meaning grid.old.items) (map K.meaning grid.new.items)) }
    ensures size { length grid.new.items ≡ length grid.old.items }
    ensures wide { IsErrOf result ArithmeticError.Wide → (p : Terms K.scalars.Elem)
        → Holds K.scalars.arithmetic base (length term.now.mono) (map K.meaning grid.old.items)
        (times K.scalars.arithmetic p (terms_of K.meaning right.now))
        → IsPastProduct K.scalars (p ++ term_of K.meaning term.now ∷ [])
        (terms_of K.meaning right.now) }
{
    let row = place(base, term.mono.exponents().as_slice());
    for other in right {
        let at = row + place(base, other.mono.exponents().as_slice());
        let product = term.coef.mul(&other.coef)?;
        grid[at] = grid[at].add(&product)?;
    }
    Ok(())
}

/// The terms whose numbers on a grid are not zero.
fn terms_at<K: Ring>(
    alloc: Global,
    base: usize,
    arity: usize,
    grid: &[K],
) -> Result<Vec<Term<K>>, AllocError>
    requires few { arity ≤ most_variables }
    requires positive { 0 < base }
    requires narrow { base ≤ most_base }
    requires size { length grid.now ≡ base ^ arity }
    ensures ok { IfOk result (λ out. Read K.scalars.arithmetic base arity
        (map K.meaning grid.now) (terms_of K.meaning out.items)) }
{
    let mut out = Vec::new(alloc);
    for (place, coef) in grid.iter().enumerate() {
        if !coef.is_zero() {
            let mono = monomial_at(alloc, base, arity, place)?;
            out.push(Term { mono, coef: *coef })?;
        }
    }
    Ok(out)
}

/// The monomial at a place.
fn monomial_at(alloc: Global, base: usize, arity: usize, place: usize) -> Result<Mono, AllocError>
    requires few { arity ≤ most_variables }
    requires positive { 0 < base }
    requires narrow { base ≤ most_base }
    ensures ok { IfOk result (λ mono. mono ≡ exponents_at base arity place) }
{
    let mut exponents = Vec::with_capacity(alloc, arity)?;
    let mut rest = place;
    while exponents.len() < arity {
        exponents.push((rest % base) as u16)?;
        rest /= base;
    }
    Mono::new(alloc, &exponents)
}

/// The place of the monomial with these exponents.
fn place(base: usize, exponents: &[u16]) -> usize
    requires inside { IsInside base (length exponents.now) exponents.now }
    requires small { base ^ length exponents.now ≤ most_places }
    ensures { result ≡ place_of base exponents.now }
{
    let mut place: usize = 0;
    let mut unit: usize = 1;
    for exponent in exponents {
        place += unit * usize::from(*exponent);
        unit *= base;
    }
    place
}

/// The number of places of a grid. None above the most.
fn places_of(base: usize, arity: usize) -> Option<usize>
    ensures power { IfSome result (λ places. places ≡ base ^ arity) }
    ensures small { IfSome result (λ places. places ≤ most_places) }
{
    let places = base.checked_pow(u32::try_from(arity).ok()?)?;
    if places > MOST_PLACES {
        None
    } else {
        Some(places)
    }
}

/// The greatest exponent in some terms.
fn greatest<K>(terms: &[Term<K>]) -> u16
    ensures { All (λ t. All (λ e. e ≤ result) t.mono) terms.now }
{
    let mut top = 0;
    for term in terms {
        top = top.max(greatest_of(term.mono.exponents().as_slice()));
    }
    top
}

/// The greatest of some exponents.
fn greatest_of(exponents: &[u16]) -> u16
    ensures { All (λ e. e ≤ result) exponents.now }
{
    let mut top = 0;
    for exponent in exponents {
        top = top.max(*exponent);
    }
    top
}
