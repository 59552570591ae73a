//! How long what a task begins with is: how many terms it multiplies out to, where products that are equal but for their order count once.
ghost use Rattle.std.specs.Prelude.{◌≡◌, ◌<◌, cond, drop};
ghost use Rattle.frac128.specs.FracMeaning.{fraction_of};
ghost use Rattle.poly.specs.Seen.{terms_in, terms_each};
ghost use Rattle.poly.specs.View.{terms_of};
ghost use Rattle.expansion.specs.Counts.{IsCount, factor_terms};
ghost use Rattle.expansion.specs.Lengths.{power_length, product_length};
ghost use Rattle.invariant_fix.specs.Long as lengths;
ghost use Rattle.invariant_fix.specs.Long.{lengths_told, form_lengths, length_behind, lengths_behind};
ghost use Rattle.invariant_fix.specs.Orbits.{vars_of};
ghost use Rattle.invariant_fix.specs.Setting.{FitsBranch, form_of};

use crate::branches::Branch;
use expansion::{list_length, product, products, sum};
use frac128::Frac;
use monos::Grevlex;
use poly::{Poly, Term};
use task_lists::front;

/// How many terms what a variable was has: the one of its copy where it passes, else those of the inverse form, where 0 counts as one.
fn terms_before(passes: bool, back: &Poly<Frac, Grevlex>) -> u64
    ensures { result ≡ cond passes 1 (factor_terms (terms_in back.now)) }
{
    if passes {
        return 1;
    }
    let count = back.terms().len();
    if count == 0 { 1 } else { count as u64 }
}

/// How many terms a power of a sum of so many multiplies out to. Nothing where these are more than 2^20.
fn power_of(terms: u64, exponent: u16) -> Option<u64>
    requires { 0 < terms }
    ensures { IsCount (power_length terms exponent) result }
{
    if exponent == 0 {
        return Some(1);
    }
    let Some(terms) = sum(0, terms) else {
        return None;
    };
    products(terms, exponent)
}

/// How many terms the product of what the variables were, each as often as its exponent says, multiplies out to.
fn product_before(exponents: &[u16], passing: &[bool], back: &[Poly<Frac, Grevlex>]) -> Option<u64>
    ensures { IsCount (product_length (lengths_told passing.now (terms_each back.now))
        exponents.now) result }
{
    let (Some((exponent, exponents)), Some((passes, passing)), Some((first, back))) = (
        exponents.split_first(),
        passing.split_first(),
        back.split_first(),
    ) else {
        return Some(1);
    };
    let Some(rest) = product_before(exponents, passing, back) else {
        return None;
    };
    let Some(power) = power_of(terms_before(*passes, first), *exponent) else {
        return None;
    };
    product(power, rest)
}

/// The same of the variables behind so many in front.
fn product_behind(
    front: usize,
    exponents: &[u16],
    passing: &[bool],
    back: &[Poly<Frac, Grevlex>],
) -> Option<u64>
    ensures { IsCount (product_length (lengths_told passing.now (terms_each back.now))
        (drop front exponents.now)) result }
{
    match exponents.split_at_checked(front) {
        Some((_, exponents)) => product_before(exponents, passing, back),
        None => Some(1),
    }
}

/// How many terms a sum multiplies out to with what the variables behind so many in front were, by halves of the sum.
fn sum_before(
    front: usize,
    terms: &[Term<Frac>],
    passing: &[bool],
    back: &[Poly<Frac, Grevlex>],
) -> Option<u64>
    ensures { IsCount (length_behind front (lengths_told passing.now (terms_each back.now))
        (terms_of fraction_of terms.now)) result }
{
    match terms {
        [] => Some(0),
        [term] => product_behind(front, term.mono.exponents().as_slice(), passing, back),
        _ => {
            let (left, right) = terms.split_at(terms.len() / 2);
            let Some(left) = sum_before(front, left, passing, back) else {
                return None;
            };
            let Some(right) = sum_before(front, right, passing, back) else {
                return None;
            };
            sum(left, right)
        }
    }
}

/// The same of the polynomials of a list, together, by halves of the list.
fn list_before(
    front: usize,
    list: &[Poly<Frac, Grevlex>],
    passing: &[bool],
    back: &[Poly<Frac, Grevlex>],
) -> Option<u64>
    ensures { IsCount (lengths_behind front (lengths_told passing.now (terms_each back.now))
        (terms_each list.now)) result }
{
    match list {
        [] => Some(0),
        [element] => sum_before(front, element.terms(), passing, back),
        _ => {
            let (left, right) = list.split_at(list.len() / 2);
            let Some(left) = list_before(front, left, passing, back) else {
                return None;
            };
            let Some(right) = list_before(front, right, passing, back) else {
                return None;
            };
            sum(left, right)
        }
    }
}

/// How many terms the polynomials of a list multiply out to, together, with what the variables of the branch behind so many in front were.
fn form_before(front: usize, list: &[Poly<Frac, Grevlex>], branch: &Branch) -> Option<u64>
    requires branch { FitsBranch (vars_of branch.now) branch.now }
    ensures { IsCount (lengths_behind front
        (form_lengths (form_of branch.now.form) (vars_of branch.now)) (terms_each list.now))
        result }
{
    list_before(
        front,
        list,
        branch.form.passing.as_slice(),
        branch.back.as_slice(),
    )
}

/// How many terms what an orbit along the branch begins with multiplies out to. Nothing where these are more than 2^20.
pub(crate) fn orbit_length(branch: &Branch, basis: &[Poly<Frac, Grevlex>]) -> Option<u64>
    requires branch { FitsBranch (vars_of branch.now) branch.now }
    ensures { IsCount (lengths.orbit_length (form_of branch.now.form) (vars_of branch.now)
        (terms_each basis.now)) result }
{
    let back = branch.back.as_slice();
    if branch.form.since == 0 {
        return list_length(basis, back);
    }
    let Some(elements) = form_before(0, basis, branch) else {
        return None;
    };
    let Some(form) = form_before(front(branch.form.base.len()), back, branch) else {
        return None;
    };
    sum(elements, form)
}

/// How many terms what one iteration of the branch begins with multiplies out to. Nothing where these are more than 2^20.
pub(crate) fn iteration_length(branch: &Branch, before: &[Poly<Frac, Grevlex>]) -> Option<u64>
    requires branch { FitsBranch (vars_of branch.now) branch.now }
    ensures { IsCount (lengths.iteration_length (form_of branch.now.form) (vars_of branch.now)
        (terms_each branch.now.images.items) (terms_each before.now)) result }
{
    let Some(elements) = form_before(0, before, branch) else {
        return None;
    };
    let Some(map) = form_before(0, branch.images.as_slice(), branch) else {
        return None;
    };
    sum(elements, map)
}
