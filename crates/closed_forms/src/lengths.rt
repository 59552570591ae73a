//! How long the classes of a map are: how many terms their polynomials multiply out to, class by class.
ghost use Rattle.std.specs.Prelude.{◌≡◌, ◌<◌, All, length, replicate, IfOk, MatchOption};
ghost use Rattle.poly.specs.Seen.{terms_each};
ghost use Rattle.poly.specs.View.{terms_of};
ghost use Rattle.frac128.specs.FracMeaning.{fraction_of};
ghost use Rattle.expansion.specs.Counts.{IsCount};
ghost use Rattle.expansion.specs.Lengths.{product_length};
ghost use Rattle.solvable.specs.Refusal.{AreClassesOf};
ghost use Rattle.closed_forms.specs.Lengths as lengths;
ghost use Rattle.closed_forms.specs.Lengths.{AreLengths, IsLongAmong, AreShort};
ghost use Rattle.closed_forms.specs.Splits.{groups_in};

use expansion::{product, products, sum};
use frac128::Frac;
use monos::Grevlex;
use poly::{Poly, Term};
use std::alloc::{AllocError, Global};

/// How many terms the product of sums of so many terms, each as often as its exponent says, multiplies out to.
fn product_length(exponents: &[u16], sums: &[u64]) -> Option<u64>
    requires { AreLengths sums.now }
    ensures { IsCount (product_length sums.now exponents.now) result }
{
    let (Some((terms, sums)), Some((exponent, exponents))) = (
        sums.split_first(),
        exponents.split_first(),
    ) else {
        return Some(1);
    };
    let Some(rest) = product_length(exponents, sums) else {
        return None;
    };
    let Some(power) = products(*terms, *exponent) else {
        return None;
    };
    product(power, rest)
}

/// How many terms a sum multiplies out to with sums of so many terms for its variables, by halves of the sum.
fn sum_length(terms: &[Term<Frac>], sums: &[u64]) -> Option<u64>
    requires { AreLengths sums.now }
    ensures { IsCount (lengths.sum_length (terms_of fraction_of terms.now) sums.now) result }
{
    match terms {
        [] => Some(0),
        [term] => product_length(term.mono.exponents().as_slice(), sums),
        _ => {
            let (front, back) = terms.split_at(terms.len() / 2);
            let Some(left) = sum_length(front, sums) else {
                return None;
            };
            let Some(right) = sum_length(back, sums) else {
                return None;
            };
            sum(left, right)
        }
    }
}

/// The same of the polynomials of a class, together.
fn class_length(images: &[Poly<Frac, Grevlex>], group: &[usize], sums: &[u64]) -> Option<u64>
    requires inside { All (λ i. i < length images.now) group.now }
    requires sums { AreLengths sums.now }
    ensures { IsCount (lengths.class_length (terms_each images.now) group.now sums.now) result }
{
    let Some((variable, group)) = group.split_first() else {
        return Some(0);
    };
    let Some(rest) = class_length(images, group, sums) else {
        return None;
    };
    let Some(own) = sum_length(images[*variable].terms(), sums) else {
        return None;
    };
    sum(own, rest)
}

/// A sum that is 0 counts as one term.
fn at_least_one(terms: u64) -> u64
    ensures { result ≡ lengths.at_least_one terms }
{
    if terms == 0 { 1 } else { terms }
}

/// Each variable of a class becomes a sum of so many terms.
fn set_lengths(sums: &mut Vec<u64>, group: &[usize], terms: u64)
    requires inside { All (λ i. i < length sums.old.items) group.now }
    ensures { sums.new.items ≡ lengths.with_length group.now terms sums.old.items }
{
    let Some((variable, group)) = group.split_first() else {
        return;
    };
    sums[*variable] = terms;
    set_lengths(sums, group, terms)
}

/// The first variable of the first of these classes that is too long.
fn first_long(
    images: &[Poly<Frac, Grevlex>],
    groups: &[Vec<usize>],
    sums: &mut Vec<u64>,
) -> Option<usize>
    requires sums { AreLengths sums.old.items }
    requires count { length sums.old.items ≡ length images.now }
    requires some { All (λ g. 0 < length g.items) groups.now }
    requires inside { All (λ g. All (λ i. i < length images.now) g.items) groups.now }
    ensures { MatchOption result
        (AreShort (terms_each images.now) (groups_in groups.now) sums.old.items)
        (IsLongAmong (terms_each images.now) (groups_in groups.now) sums.old.items) }
{
    let Some((group, groups)) = groups.split_first() else {
        return None;
    };
    let group = group.as_slice();
    let Some(terms) = class_length(images, group, sums.as_slice()) else {
        return Some(group[0]);
    };
    set_lengths(sums, group, at_least_one(terms));
    first_long(images, groups, sums)
}

/// The first variable of the first class that is too long.
pub(crate) fn long_class(
    alloc: Global,
    images: &Vec<Poly<Frac, Grevlex>>,
    groups: &[Vec<usize>],
) -> Result<Option<usize>, AllocError>
    requires { AreClassesOf (terms_each images.now.items) groups.now }
    ensures { IfOk result (λ found. MatchOption found
        (AreShort (terms_each images.now.items) (groups_in groups.now)
        (replicate (length images.now.items) 1))
        (IsLongAmong (terms_each images.now.items) (groups_in groups.now)
        (replicate (length images.now.items) 1))) }
{
    let mut sums = vec![in alloc; 1; images.len()]?;
    Ok(first_long(images.as_slice(), groups, &mut sums))
}
