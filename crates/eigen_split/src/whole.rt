//! A matrix of fractions times its least common denominator.
ghost use Rattle.std.specs.Prelude.{◌≡◌, ◌<◌, ◌+◌, ℕ, ℤ, All, length, unsigned_abs, pos, ◌*ℤ◌};
ghost use Rattle.algebra.specs.Gcd.{lcm};
ghost use Rattle.algebra.specs.Limits.{number_limit};
ghost use Rattle.frac128.specs.FracMeaning.{fraction_of};
ghost use Rattle.linear.specs.Rows.{fractions_of, rows_of};
ghost use Rattle.vectors.specs.Matrices.{denominator, row_denominator as denominator_in, whole_number as whole_of, sum_of_column, greatest_of};
ghost use Rattle.eigen_split.specs.Fitting.{Fitting, FittingWhole};

use frac128::{Frac, Whole};
use ring_laws::{Ring, gcd};

/// The first number above those that fit.
const END: u128 = 1 << 127;

/// The least common multiple. None exactly where it is above 2^127 - 1.
#[tactic(auto, unfolding(algebra::specs::Gcd::lcm))]
fn common_multiple(a: u128, b: u128) -> Option<u128>
    requires { 0 < b }
    ensures { Fitting result (lcm a b) }
{
    let factor = b / gcd(a, b);
    match a.checked_mul(factor) {
        Some(multiple) if multiple < END => Some(multiple),
        _ => None,
    }
}

/// The least common multiple of two numbers that may not fit.
fn least_multiple(left: Option<u128>, right: Option<u128>) -> Option<u128>
    ensures { (x y : ℕ) → 0 < x → 0 < y → Fitting left x → Fitting right y
        → Fitting result (lcm x y) }
{
    let Some(left) = left else {
        return None;
    };
    let Some(right) = right else {
        return None;
    };
    if right == 0 {
        return None;
    }
    common_multiple(left, right)
}

/// The denominator.
fn den_of(number: &Frac) -> u128
    ensures { result ≡ (fraction_of number.now).den }
{
    number.den().unsigned_abs()
}

/// The least common denominator of a row. None exactly where it is above 2^127 - 1.
fn row_denominator(row: &[Frac]) -> Option<u128>
    ensures { Fitting result (denominator_in (fractions_of row.now)) }
{
    let Some((first, rest)) = row.split_first() else {
        return Some(1);
    };
    least_multiple(Some(den_of(first)), row_denominator(rest))
}

/// The least common denominator. None exactly where it is above 2^127 - 1.
pub(crate) fn denominator_of(rows: &[Vec<Frac>]) -> Option<u128>
    ensures { Fitting result (denominator (rows_of rows.now)) }
{
    let Some((first, rest)) = rows.split_first() else {
        return Some(1);
    };
    least_multiple(row_denominator(first.as_slice()), denominator_of(rest))
}

/// The number times a denominator that its own divides. None exactly where that is above 2^127 - 1 in absolute value.
pub(crate) fn whole_number(number: &Frac, denominator: u128) -> Option<Whole>
    requires { denominator < number_limit }
    ensures { FittingWhole result (whole_of denominator (fraction_of number.now)) }
{
    times(number.num(), denominator / den_of(number))
}

/// The product, where it fits.
fn times(num: i128, factor: u128) -> Option<Whole>
    requires num { unsigned_abs num < number_limit }
    requires factor { factor < number_limit }
    ensures { FittingWhole result (num *ℤ pos factor) }
{
    let (Some(num), Some(factor)) = (Whole::new(num), Whole::new(factor as i128)) else {
        return None;
    };
    match num.mul(&factor) {
        Ok(product) => Some(product),
        Err(_) => None,
    }
}

/// The sum of the absolute values in a column. None exactly where it is above 2^127 - 1.
fn column_sum(rows: &[Vec<Frac>], denominator: u128, column: usize) -> Option<u128>
    requires small { denominator < number_limit }
    requires widths { All (λ row. column < length row.items) rows.now }
    ensures { Fitting result (sum_of_column denominator (rows_of rows.now) column) }
{
    let Some((first, rest)) = rows.split_first() else {
        return Some(0);
    };
    let entry = whole_number(&first[column], denominator);
    add_size(entry, column_sum(rest, denominator, column))
}

/// The size of a number and a sum, which may not fit.
fn add_size(entry: Option<Whole>, sum: Option<u128>) -> Option<u128>
    ensures { (z : ℤ) (s : ℕ) → FittingWhole entry z → Fitting sum s
        → Fitting result (unsigned_abs z + s) }
{
    let Some(entry) = entry else {
        return None;
    };
    let Some(sum) = sum else {
        return None;
    };
    match sum.checked_add(entry.value().unsigned_abs()) {
        Some(more) if more < END => Some(more),
        _ => None,
    }
}

/// The greatest column sum. None exactly where a column sum is above 2^127 - 1.
pub(crate) fn greatest_sum(rows: &Vec<Vec<Frac>>, denominator: u128) -> Option<u128>
    requires small { denominator < number_limit }
    requires widths { All (λ row. length row.items ≡ length rows.now.items) rows.now.items }
    ensures { Fitting result (greatest_of (length rows.now.items)
        (sum_of_column denominator (rows_of rows.now.items))) }
{
    let mut greatest = 0;
    for column in 0..rows.len() {
        match column_sum(rows.as_slice(), denominator, column) {
            Some(sum) => greatest = sum.max(greatest),
            None => return None,
        }
    }
    Some(greatest)
}
