//! Counts the terms that a composition or a combination multiplies out to, before like ones are collected, up to a limit; of compositions
//! also with products that are equal but for their order counted once.
//!
//! Proved: each count is exact up to the limit, and told to be above it exactly where it is.
//!
//! Notion: none of its own.
#![tactic(auto)]

ghost use Rattle.std.specs.Prelude.{◌≡◌, ◌<◌, ◌+◌, ◌*◌, ◌^◌};
ghost use Rattle.poly.specs.Seen.{terms_in, terms_each};
ghost use Rattle.poly.specs.View.{terms_of};
ghost use Rattle.frac128.specs.FracMeaning.{fraction_of};
ghost use Rattle.expansion.specs.Counts as counts;
ghost use Rattle.expansion.specs.Counts.{IsCount, factor_terms};

mod lengths;

use frac128::Frac;
pub use lengths::{composition_length, list_length, next_lengths, products};
use monos::{Grevlex, Order};
use poly::{Poly, Term};

/// The most terms that are counted.
const MOST_TERMS: u64 = 1_048_576;

/// The number, unless it is above the limit.
#[tactic(auto, unfolding(crate::specs::Counts::most_terms))]
fn limited(count: u64) -> Option<u64>
    ensures { IsCount count result }
{
    if count <= MOST_TERMS {
        Some(count)
    } else {
        None
    }
}

/// The sum, unless it is above the limit.
pub fn sum(left: u64, right: u64) -> Option<u64>
    ensures { IsCount (left + right) result }
{
    match left.checked_add(right) {
        Some(sum) => limited(sum),
        None => None,
    }
}

/// The product, unless it is above the limit.
pub fn product(left: u64, right: u64) -> Option<u64>
    ensures { IsCount (left * right) result }
{
    match left.checked_mul(right) {
        Some(product) => limited(product),
        None => None,
    }
}

/// The power, unless it is above the limit.
fn power(by: u64, times: u16) -> Option<u64>
    requires { 0 < by }
    ensures { IsCount (by ^ times) result }
{
    if by == 1 {
        return Some(1);
    }
    let mut found = 1;
    for _ in 0..times {
        let Some(next) = product(found, by) else {
            return None;
        };
        found = next;
    }
    Some(found)
}

/// How many terms the polynomial has as a factor: 0 counts as one term.
fn factor(polynomial: &Poly<Frac, Grevlex>) -> u64
    ensures { result ≡ factor_terms (terms_in polynomial.now) }
{
    let count = polynomial.terms().len();
    if count == 0 { 1 } else { count as u64 }
}

/// How many terms the product of the images, each as often as its exponent says, multiplies out to; nothing where these are
/// more than the limit.
fn product_terms(exponents: &[u16], images: &[Poly<Frac, Grevlex>]) -> Option<u64>
    ensures { IsCount (counts.product_terms (terms_each images.now) exponents.now) result }
{
    let (Some((image, images)), Some((exponent, exponents))) = (
        images.split_first(),
        exponents.split_first(),
    ) else {
        return Some(1);
    };
    let Some(rest) = product_terms(exponents, images) else {
        return None;
    };
    let Some(power) = power(factor(image), *exponent) else {
        return None;
    };
    product(power, rest)
}

/// How many terms the sum with the images in place of its variables multiplies out to, by halves of the sum; nothing where these are more
/// than the limit.
fn terms_composed(terms: &[Term<Frac>], images: &[Poly<Frac, Grevlex>]) -> Option<u64>
    ensures { IsCount (counts.composition_terms (terms_of fraction_of terms.now)
        (terms_each images.now)) result }
{
    match terms {
        [] => Some(0),
        [term] => product_terms(term.mono.exponents().as_slice(), images),
        _ => {
            let (front, back) = terms.split_at(terms.len() / 2);
            let Some(left) = terms_composed(front, images) else {
                return None;
            };
            let Some(right) = terms_composed(back, images) else {
                return None;
            };
            sum(left, right)
        }
    }
}

/// How many terms the polynomial with the images in place of its variables multiplies out to, before like ones are collected: for each of its
/// terms the product of the images' numbers of terms, each as often as its exponent says, where the image 0 counts as one term. Nothing
/// where these are more than 2^20.
pub fn composition_terms(
    polynomial: &Poly<Frac, Grevlex>,
    images: &[Poly<Frac, Grevlex>],
) -> Option<u64>
    ensures { IsCount (counts.composition_terms (terms_in polynomial.now) (terms_each images.now))
        result }
{
    terms_composed(polynomial.terms(), images)
}

/// How many terms the sum of the products of the cofactors with the elements, place by place, multiplies out to; nothing where these are
/// more than 2^20.
pub fn combination_terms<O: Order>(
    cofactors: &[Poly<Frac, O>],
    list: &[Poly<Frac, O>],
) -> Option<u64>
    ensures { IsCount (counts.combination_terms (terms_each cofactors.now) (terms_each list.now))
        result }
{
    let mut total = 0;
    for (cofactor, element) in cofactors.iter().zip(list) {
        let terms = product(cofactor.terms().len() as u64, element.terms().len() as u64);
        let Some(terms) = terms else {
            return None;
        };
        let Some(next) = sum(total, terms) else {
            return None;
        };
        total = next;
    }
    Some(total)
}
