//! Double monomials: 17 to 32 small exponents, as two short monomials.
ghost use Rattle.std.specs.Prelude.{◌≡◌, ◌≤◌, ◌↔◌, length, sum, take, reverse, IsTrue, IfSome, IsSome};
ghost use Rattle.std.specs.Ordering.{nat_cmp};
ghost use Rattle.std.specs.Cmp.Lexicographic.{slice_cmp};
ghost use Rattle.polynomials.specs.Exponent.{plus, Divides, lcm};
ghost use Rattle.polynomials.specs.Order.{compare, lex, grevlex, blocks};
ghost use Rattle.monos.specs.Lanes.{IsDouble};
ghost use Rattle.monos.specs.Products.{ProductFits};
ghost use Rattle.monos.specs.Coprime.{IsCoprime};
ghost use Rattle.monos.specs.Variables.{most_double};

use crate::short_mono::ShortMono;
use std::cmp::Ordering;
use std::marker::Model;

/// A monomial of 17 to 32 variables with small exponents: those of the first 16 variables, and those of the others.
#[derive(Drop)]
pub(crate) struct DoubleMono {
    first: ShortMono,
    others: ShortMono,
}

impl Model for DoubleMono {
    ghost use Rattle.std.specs.Prelude.{◌≡◌, ◌<◌, ◌++◌, List, ℕ, length};
    ghost use Rattle.monos.specs.Variables.{most_inline};

    ghost Value = { List ℕ };

    ghost view = { λ d. d.first ++ d.others };

    ghost invariant = { λ d. (length d.first ≡ most_inline) × (0 < length d.others) };
}

impl DoubleMono {
    /// The monomial with these exponents, if it is double.
    pub(crate) fn of_slice(exponents: &[u16]) -> Option<DoubleMono>
        ensures none { ¬ IsSome result → ¬ IsDouble exponents.now }
        ensures some { IfSome result (λ d. d ≡ exponents.now) }
        ensures double { IsSome result → IsDouble exponents.now }
    {
        if exponents.len() <= 16 {
            return None;
        }
        let (first, others) = exponents.split_at(16);
        match (ShortMono::of_slice(first), ShortMono::of_slice(others)) {
            (Some(first), Some(others)) => Some(DoubleMono { first, others }),
            _ => None,
        }
    }

    /// How many variables there are.
    #[inline(always)]
    pub(crate) fn count(&self) -> usize
        ensures count { result ≡ length self.now }
        ensures few { result ≤ most_double }
    {
        16 + self.others.count()
    }

    /// The degree.
    #[inline(always)]
    pub(crate) fn degree(&self) -> u32
        ensures { result ≡ sum self.now }
    {
        self.first.degree() + self.others.degree()
    }

    /// The exponents, with zeros behind them.
    pub(crate) fn exponents(&self) -> [u16; 32]
        ensures { take (length self.now) result ≡ self.now }
    {
        let mut exponents = [0; 32];
        exponents[..16].copy_from_slice(&self.first.exponents());
        exponents[16..].copy_from_slice(&self.others.exponents());
        exponents
    }

    /// The same monomial.
    #[inline(always)]
    pub(crate) fn copy(&self) -> DoubleMono
        ensures { result ≡ self.now }
    {
        DoubleMono {
            first: self.first.copy(),
            others: self.others.copy(),
        }
    }

    /// Whether it is the same monomial.
    #[inline(always)]
    pub(crate) fn is_same(&self, other: &DoubleMono) -> bool
        ensures { IsTrue result ↔ (self.now ≡ other.now) }
    {
        self.first.is_same(&other.first) && self.others.is_same(&other.others)
    }

    /// Whether `other` is a multiple of this monomial.
    #[inline(always)]
    pub(crate) fn divides(&self, other: &DoubleMono) -> bool
        requires { length self.now ≡ length other.now }
        ensures { IsTrue result ↔ Divides self.now other.now }
    {
        self.first.divides(&other.first) && self.others.divides(&other.others)
    }

    /// The product with `other`, if it is double.
    #[inline(always)]
    pub(crate) fn times(&self, other: &DoubleMono) -> Option<DoubleMono>
        requires { length self.now ≡ length other.now }
        ensures some { IfSome result (λ d. d ≡ plus self.now other.now) }
        ensures double { IfSome result IsDouble }
        ensures fits { ProductFits self.now other.now }
    {
        match (
            self.first.times(&other.first),
            self.others.times(&other.others),
        ) {
            (Some(first), Some(others)) => Some(DoubleMono { first, others }),
            _ => None,
        }
    }

    /// The monomial that `other` is multiplied by to give this one.
    #[inline(always)]
    pub(crate) fn quotient(&self, other: &DoubleMono) -> DoubleMono
        requires arity { length self.now ≡ length other.now }
        requires divides { Divides other.now self.now }
        ensures ok { plus other.now result ≡ self.now }
        ensures arity { length result ≡ length self.now }
        ensures double { IsDouble result }
    {
        DoubleMono {
            first: self.first.quotient(&other.first),
            others: self.others.quotient(&other.others),
        }
    }

    /// Whether no variable is in both.
    pub(crate) fn is_coprime(&self, other: &DoubleMono) -> bool
        requires { length self.now ≡ length other.now }
        ensures { IsTrue result ↔ IsCoprime self.now other.now }
    {
        self.first.is_coprime(&other.first) && self.others.is_coprime(&other.others)
    }

    /// The least common multiple of this monomial and `other`.
    pub(crate) fn lcm(&self, other: &DoubleMono) -> DoubleMono
        requires { length self.now ≡ length other.now }
        ensures lcm { result ≡ lcm self.now other.now }
        ensures double { IsDouble result }
    {
        DoubleMono {
            first: self.first.lcm(&other.first),
            others: self.others.lcm(&other.others),
        }
    }

    /// Where it stands to `other` in graded reverse lexicographic order.
    #[inline(always)]
    pub(crate) fn compare(&self, other: &DoubleMono) -> Ordering
        requires { length self.now ≡ length other.now }
        ensures { result ≡ compare grevlex self.now other.now }
    {
        self.degree()
            .cmp(&other.degree())
            .then(self.others.compare_from_last(&other.others))
            .then(self.first.compare_from_last(&other.first))
    }

    /// Where it stands to `other` in lexicographic order.
    #[inline(always)]
    pub(crate) fn compare_by_first(&self, other: &DoubleMono) -> Ordering
        requires { length self.now ≡ length other.now }
        ensures { result ≡ compare lex self.now other.now }
    {
        self.first
            .compare_by_first(&other.first)
            .then(self.others.compare_by_first(&other.others))
    }

    /// Where it stands to `other` by the first variables, and then by the others.
    #[inline(always)]
    pub(crate) fn compare_by_blocks(&self, other: &DoubleMono, first: usize) -> Ordering
        requires { length self.now ≡ length other.now }
        ensures { result ≡ compare (blocks first grevlex grevlex) self.now other.now }
    {
        if first >= self.count() {
            return self.compare(other);
        }
        self.degree_of_first(first)
            .cmp(&other.degree_of_first(first))
            .then(self.compare_first_from_last(other, first))
            .then(self.compare(other))
    }

    /// The sum of the first exponents.
    #[inline(always)]
    fn degree_of_first(&self, first: usize) -> u32
        requires { first ≤ length self.now }
        ensures { result ≡ sum (take first self.now) }
    {
        if first <= 16 {
            self.first.degree_of_first(first)
        } else {
            self.first.degree() + self.others.degree_of_first(first - 16)
        }
    }

    /// Where the first exponents of `other` stand to those here, from the last of them on.
    #[inline(always)]
    fn compare_first_from_last(&self, other: &DoubleMono, first: usize) -> Ordering
        requires arity { length self.now ≡ length other.now }
        requires first { first ≤ length self.now }
        ensures { result ≡ slice_cmp nat_cmp (reverse (take first other.now)) (reverse
            (take first self.now)) }
    {
        if first <= 16 {
            self.first.compare_first_from_last(&other.first, first)
        } else {
            self.others
                .compare_first_from_last(&other.others, first - 16)
                .then(self.first.compare_from_last(&other.first))
        }
    }
}
