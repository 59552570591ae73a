//! Orders of monomials of one arity.
ghost use Rattle.std.specs.Prelude.{◌≡◌, ◌≤◌, length, reverse};
ghost use Rattle.std.specs.Ordering.{nat_cmp};
ghost use Rattle.std.specs.Cmp.Lexicographic.{slice_cmp};
ghost use Rattle.polynomials.specs.Order.{Rank, IsMonomialOrder, compare, lex, grevlex, blocks as blocks_of};
ghost use Rattle.polynomials.proofs.Orders.{lex_order, grevlex_order, blocks_order};
ghost use Rattle.monos.specs.Variables.{most_variables};

use crate::Mono;
use crate::lists::sum_of;
use std::cmp::Ordering;

/// An order of the monomials of one arity.
pub trait Order: Copy + Eq {
    /// The order, as a rank.
    ghost order: { Self → Rank };

    /// Where `a` stands to `b`, a monomial of the same arity.
    fn compare(&self, a: &Mono, b: &Mono) -> Ordering
        requires { length a.now ≡ length b.now }
        ensures { result ≡ compare (order self.now) a.now b.now };

    ghost is_order: { (s : Self) → IsMonomialOrder (order s) };
}

/// Lexicographic order: of two monomials the greater is the one with the greater exponent at the first variable where they differ.
#[derive(Clone, Copy, PartialEq, Eq)]
pub struct Lex;

impl Order for Lex {
    ghost order = { λ _. lex };

    #[inline(always)]
    fn compare(&self, a: &Mono, b: &Mono) -> Ordering
        requires { length a.now ≡ length b.now }
        ensures { result ≡ compare lex a.now b.now }
    {
        match (a.short_form(), b.short_form()) {
            (Some(left), Some(right)) => left.compare_by_first(&right),
            _ => match (a.double_form(), b.double_form()) {
                (Some(left), Some(right)) => left.compare_by_first(right),
                _ => compare_lists_from_first(a, b),
            },
        }
    }

    ghost is_order = { λ _. lex_order };
}

/// Graded reverse lexicographic order: of two monomials the greater is that of greater degree.
/// At equal degrees it is the one with the smaller exponent at the last variable where they differ.
#[derive(Clone, Copy, PartialEq, Eq)]
pub struct Grevlex;

impl Order for Grevlex {
    ghost order = { λ _. grevlex };

    #[inline(always)]
    fn compare(&self, a: &Mono, b: &Mono) -> Ordering
        requires { length a.now ≡ length b.now }
        ensures { result ≡ compare grevlex a.now b.now }
    {
        match (a.short_form(), b.short_form()) {
            (Some(left), Some(right)) => left.compare(&right),
            _ => match (a.double_form(), b.double_form()) {
                (Some(left), Some(right)) => left.compare(right),
                _ => compare_lists_grevlex(a, b),
            },
        }
    }

    ghost is_order = { λ _. grevlex_order };
}

/// Graded reverse lexicographic order on the first variables, and on the others where these are equal.
/// A monomial without the first variables is below every one that has some.
#[derive(Clone, Copy, PartialEq, Eq)]
pub struct Blocks {
    /// How many variables come first.
    pub first: usize,
}

impl Order for Blocks {
    ghost order = { λ blocks. blocks_of blocks.first grevlex grevlex };

    #[inline(always)]
    fn compare(&self, a: &Mono, b: &Mono) -> Ordering
        requires { length a.now ≡ length b.now }
        ensures { result ≡ compare (blocks_of self.now.first grevlex grevlex) a.now b.now }
    {
        match (a.short_form(), b.short_form()) {
            (Some(left), Some(right)) => left.compare_by_blocks(&right, self.first),
            _ => match (a.double_form(), b.double_form()) {
                (Some(left), Some(right)) => left.compare_by_blocks(right, self.first),
                _ => compare_lists_blocks(a, b, self.first),
            },
        }
    }

    ghost is_order = { λ blocks.
        blocks_order blocks.first grevlex grevlex grevlex_order grevlex_order };
}

#[inline(never)]
fn compare_lists_from_first(a: &Mono, b: &Mono) -> Ordering
    ensures { result ≡ compare lex a.now b.now }
{
    compare_from_first(a.exponents().as_slice(), b.exponents().as_slice())
}

#[inline(never)]
fn compare_lists_grevlex(a: &Mono, b: &Mono) -> Ordering
    requires { length a.now ≡ length b.now }
    ensures { result ≡ compare grevlex a.now b.now }
{
    compare_grevlex(a.exponents().as_slice(), b.exponents().as_slice())
}

#[inline(never)]
fn compare_lists_blocks(a: &Mono, b: &Mono, first: usize) -> Ordering
    requires { length a.now ≡ length b.now }
    ensures { result ≡ compare (blocks_of first grevlex grevlex) a.now b.now }
{
    compare_blocks(a.exponents().as_slice(), b.exponents().as_slice(), first)
}

fn compare_from_first(left: &[u16], right: &[u16]) -> Ordering
    ensures { result ≡ compare lex left.now right.now }
{
    left.cmp(right)
}

fn compare_blocks(left: &[u16], right: &[u16], first: usize) -> Ordering
    requires same { length left.now ≡ length right.now }
    requires bound { length left.now ≤ most_variables }
    ensures { result ≡ compare (blocks_of first grevlex grevlex) left.now right.now }
{
    let first = first.min(left.len());
    let (left_first, left_rest) = left.split_at(first);
    let (right_first, right_rest) = right.split_at(first);
    let by_first = compare_grevlex(left_first, right_first);
    by_first.then_with(|| compare_grevlex(left_rest, right_rest))
}

fn compare_grevlex(left: &[u16], right: &[u16]) -> Ordering
    requires same { length left.now ≡ length right.now }
    requires bound { length left.now ≤ most_variables }
    ensures { result ≡ compare grevlex left.now right.now }
{
    sum_of(left)
        .cmp(&sum_of(right))
        .then_with(|| compare_from_last(right, left))
}

fn compare_from_last(left: &[u16], right: &[u16]) -> Ordering
    ensures { result ≡ slice_cmp nat_cmp (reverse left.now) (reverse right.now) }
{
    left.iter().rev().cmp(right.iter().rev())
}
