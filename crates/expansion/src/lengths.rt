//! How many terms compositions multiply out to, where products that are equal but for their order count once.
ghost use Rattle.std.specs.Prelude.{◌≡◌, ◌≤◌, ◌<◌, suc, get_or, map};
ghost use Rattle.poly.specs.Seen.{terms_in, terms_each};
ghost use Rattle.poly.specs.View.{terms_of};
ghost use Rattle.frac128.specs.FracMeaning.{fraction_of};
ghost use Rattle.expansion.specs.Counts.{IsCount, factor_terms, most_terms};
ghost use Rattle.expansion.specs.Lengths as lengths;

use crate::{factor, limited, product, sum};
use frac128::Frac;
use monos::Grevlex;
use poly::{Poly, Term};

/// How many products there are of as many of the terms as the exponent says, whatever their order. Nothing where these are more than 2^20.
pub fn products(terms: u64, exponent: u16) -> Option<u64>
    requires some { 0 < terms }
    requires few { terms ≤ most_terms }
    ensures { IsCount (lengths.power_length terms exponent) result }
{
    let mut found = 1;
    for taken in 0..exponent {
        let before = u64::from(taken);
        let Some(next) = limited(found * (terms + before) / (before + 1)) else {
            return None;
        };
        found = next;
    }
    Some(found)
}

/// How many terms the power of the polynomial multiplies out to.
fn power_length(image: &Poly<Frac, Grevlex>, exponent: u16) -> Option<u64>
    ensures { IsCount (lengths.power_length (factor_terms (terms_in image.now)) exponent)
        result }
{
    if exponent == 0 {
        return Some(1);
    }
    let Some(terms) = limited(factor(image)) else {
        return None;
    };
    products(terms, exponent)
}

/// How many terms the product of the images, each as often as its exponent says, multiplies out to.
fn product_length(exponents: &[u16], images: &[Poly<Frac, Grevlex>]) -> Option<u64>
    ensures { IsCount (lengths.product_length (map factor_terms (terms_each images.now))
        exponents.now) result }
{
    let (Some((image, images)), Some((exponent, exponents))) = (
        images.split_first(),
        exponents.split_first(),
    ) else {
        return Some(1);
    };
    let Some(rest) = product_length(exponents, images) else {
        return None;
    };
    let Some(power) = power_length(image, *exponent) else {
        return None;
    };
    product(power, rest)
}

/// How many terms a sum multiplies out to with the images for its variables, by halves of the sum.
fn sum_length(terms: &[Term<Frac>], images: &[Poly<Frac, Grevlex>]) -> Option<u64>
    ensures { IsCount (lengths.composition_length (terms_of fraction_of terms.now)
        (terms_each images.now)) result }
{
    match terms {
        [] => Some(0),
        [term] => product_length(term.mono.exponents().as_slice(), images),
        _ => {
            let (front, back) = terms.split_at(terms.len() / 2);
            let Some(left) = sum_length(front, images) else {
                return None;
            };
            let Some(right) = sum_length(back, images) else {
                return None;
            };
            sum(left, right)
        }
    }
}

/// How many terms the polynomial with the images in place of its variables multiplies out to, where products that are equal but for their
/// order count once and the image 0 counts as one term. Nothing where these are more than 2^20.
pub fn composition_length(
    polynomial: &Poly<Frac, Grevlex>,
    images: &[Poly<Frac, Grevlex>],
) -> Option<u64>
    ensures { IsCount (lengths.composition_length (terms_in polynomial.now) (terms_each images.now))
        result }
{
    sum_length(polynomial.terms(), images)
}

/// The same of the polynomials of a list, together, by halves of the list.
pub fn list_length(list: &[Poly<Frac, Grevlex>], images: &[Poly<Frac, Grevlex>]) -> Option<u64>
    ensures { IsCount (lengths.list_length (terms_each list.now) (terms_each images.now)) result }
{
    match list {
        [] => Some(0),
        [element] => composition_length(element, images),
        _ => {
            let (front, back) = list.split_at(list.len() / 2);
            let Some(left) = list_length(front, images) else {
                return None;
            };
            let Some(right) = list_length(back, images) else {
                return None;
            };
            sum(left, right)
        }
    }
}

/// How many terms a product multiplies out to with n + 1 for its first variable n: one more than its exponent.
fn product_next(exponents: &[u16]) -> u64
    ensures { result ≡ suc (get_or exponents.now 0 0) }
{
    match exponents.first() {
        Some(exponent) => u64::from(*exponent) + 1,
        None => 1,
    }
}

/// How many terms a sum multiplies out to with n + 1 for its first variable n, by halves of the sum.
fn sum_next(terms: &[Term<Frac>]) -> Option<u64>
    ensures { IsCount (lengths.next_length (terms_of fraction_of terms.now)) result }
{
    match terms {
        [] => Some(0),
        [term] => limited(product_next(term.mono.exponents().as_slice())),
        _ => {
            let (front, back) = terms.split_at(terms.len() / 2);
            let Some(left) = sum_next(front) else {
                return None;
            };
            let Some(right) = sum_next(back) else {
                return None;
            };
            sum(left, right)
        }
    }
}

/// How many terms the polynomials of a list, together, multiply out to with n + 1 for their first variable n and one term for each other,
/// where products that are equal but for their order count once. Nothing where these are more than 2^20.
pub fn next_lengths(list: &[Poly<Frac, Grevlex>]) -> Option<u64>
    ensures { IsCount (lengths.next_lengths (terms_each list.now)) result }
{
    match list {
        [] => Some(0),
        [element] => sum_next(element.terms()),
        _ => {
            let (front, back) = list.split_at(list.len() / 2);
            let Some(left) = next_lengths(front) else {
                return None;
            };
            let Some(right) = next_lengths(back) else {
                return None;
            };
            sum(left, right)
        }
    }
}
