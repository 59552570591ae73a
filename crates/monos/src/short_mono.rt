//! Short monomials: at most 16 small exponents in one word.
ghost use Rattle.std.specs.Prelude.{◌≡◌, ◌≤◌, ◌↔◌, length, sum, take, reverse, IsTrue, IfSome, IsSome};
ghost use Rattle.std.specs.Ordering.{nat_cmp};
ghost use Rattle.std.specs.Cmp.Lexicographic.{slice_cmp};
ghost use Rattle.polynomials.specs.Exponent.{plus, Divides, lcm};
ghost use Rattle.polynomials.specs.Order.{compare, lex, grevlex, blocks};
ghost use Rattle.monos.specs.Lanes.{AreSmall, IsShort, IsInLanes, lane_room, lanes, most_degree, word};
ghost use Rattle.monos.specs.Parts.{arity_of, degree_of, whole_word};
ghost use Rattle.monos.specs.Products.{ProductFits};
ghost use Rattle.monos.specs.Coprime.{IsCoprime};
ghost use Rattle.monos.specs.Variables.{most_inline};

use crate::lanes::{
    are_small, compare_lanes, degree_in, exponents_in, guards_of, lowest_bits, room_of, word_of,
};
use crate::lists::sum_of;
use std::cmp::Ordering;
use std::marker::Model;

/// A monomial of at most 16 variables with small exponents: each stands in a lane of one word, the first variable's in the lowest.
/// A lane has 16 bits up to 8 variables, and 8 bits above. Its highest bit, the guard, is 0.
#[derive(Drop)]
pub(crate) struct ShortMono {
    pub(crate) arity: u8,
    pub(crate) degree: u32,
    pub(crate) word: u128,
}

impl Model for ShortMono {
    ghost use Rattle.std.specs.Prelude.{List, ℕ};
    ghost use Rattle.monos.specs.Lanes.{lanes, lane_room, IsInLanes};

    ghost Value = { List ℕ };

    ghost view = { λ p. lanes (lane_room p.arity) p.arity p.word };

    ghost invariant = { λ p. IsInLanes p.arity p.degree p.word };
}

impl ShortMono {
    /// The monomial with these exponents, if it is short.
    pub(crate) fn of_slice(exponents: &[u16]) -> Option<ShortMono>
        ensures none { ¬ IsSome result → ¬ IsShort exponents.now }
        ensures some { IfSome result (λ p. p ≡ exponents.now) }
        ensures short { IsSome result → IsShort exponents.now }
    {
        if exponents.len() > 16 {
            return None;
        }
        let arity = exponents.len() as u8;
        let room = room_of(arity);
        if !are_small(exponents, room) {
            return None;
        }
        Some(ShortMono {
            arity,
            degree: sum_of(exponents),
            word: word_of(exponents, room),
        })
    }

    /// The monomial with this head, and with its word in two halves.
    #[inline(always)]
    pub(crate) fn of_halves(head: u32, low: u64, high: u64) -> ShortMono
        requires { IsInLanes (arity_of head) (degree_of head) (whole_word low high) }
        ensures { result ≡ lanes (lane_room (arity_of head)) (arity_of head) (whole_word low high) }
    {
        ShortMono {
            arity: (head % 32) as u8,
            degree: head / 32,
            word: u128::from(high) * 0x1_0000_0000_0000_0000 + u128::from(low),
        }
    }

    /// How many variables there are.
    #[inline(always)]
    pub(crate) fn count(&self) -> usize
        ensures count { result ≡ length self.now }
        ensures few { result ≤ most_inline }
        ensures short { IsShort self.now }
    {
        usize::from(self.arity)
    }

    /// The same monomial.
    #[inline(always)]
    pub(crate) fn copy(&self) -> ShortMono
        ensures { result ≡ self.now }
    {
        ShortMono {
            arity: self.arity,
            degree: self.degree,
            word: self.word,
        }
    }

    /// The exponents, with zeros behind them.
    pub(crate) fn exponents(&self) -> [u16; 16]
        ensures { take (length self.now) result ≡ self.now }
    {
        exponents_in(self.word, room_of(self.arity), usize::from(self.arity))
    }

    /// Whether it is the same monomial.
    #[inline(always)]
    pub(crate) fn is_same(&self, other: &ShortMono) -> bool
        ensures { IsTrue result ↔ (self.now ≡ other.now) }
    {
        self.arity == other.arity && self.word == other.word
    }

    /// Whether `other` is a multiple of this monomial.
    #[inline(always)]
    pub(crate) fn divides(&self, other: &ShortMono) -> bool
        requires { length self.now ≡ length other.now }
        ensures { IsTrue result ↔ Divides self.now other.now }
    {
        let guards = guards_of(self.arity);
        (other.word + guards - self.word) & guards == guards
    }

    /// The product with `other`, if it is short.
    #[inline(always)]
    pub(crate) fn times(&self, other: &ShortMono) -> Option<ShortMono>
        requires { length self.now ≡ length other.now }
        ensures some { IfSome result (λ p. p ≡ plus self.now other.now) }
        ensures short { IfSome result IsShort }
        ensures fits { ProductFits self.now other.now }
    {
        let word = self.word + other.word;
        if word & guards_of(self.arity) != 0 {
            return None;
        }
        Some(ShortMono {
            arity: self.arity,
            degree: self.degree + other.degree,
            word,
        })
    }

    /// The monomial that `other` is multiplied by to give this one.
    #[inline(always)]
    pub(crate) fn quotient(&self, other: &ShortMono) -> ShortMono
        requires arity { length self.now ≡ length other.now }
        requires divides { Divides other.now self.now }
        ensures ok { plus other.now result ≡ self.now }
        ensures arity { length result ≡ length self.now }
        ensures short { IsShort result }
    {
        ShortMono {
            arity: self.arity,
            degree: self.degree - other.degree,
            word: self.word - other.word,
        }
    }

    /// Whether no variable is in both.
    pub(crate) fn is_coprime(&self, other: &ShortMono) -> bool
        requires { length self.now ≡ length other.now }
        ensures { IsTrue result ↔ IsCoprime self.now other.now }
    {
        self.word_of_lcm(other) == self.word + other.word
    }

    /// The least common multiple of this monomial and `other`.
    pub(crate) fn lcm(&self, other: &ShortMono) -> ShortMono
        requires { length self.now ≡ length other.now }
        ensures lcm { result ≡ lcm self.now other.now }
        ensures short { IsShort result }
    {
        let word = self.word_of_lcm(other);
        let count = usize::from(self.arity);
        ShortMono {
            arity: self.arity,
            degree: degree_in(word, room_of(self.arity), count),
            word,
        }
    }

    /// The word of the least common multiple: in each lane what the other has, and what this one has above it.
    /// A lane with its guard set, less the other's, keeps the guard exactly where it has no less.
    #[inline(always)]
    pub(crate) fn word_of_lcm(&self, other: &ShortMono) -> u128
        requires { length self.now ≡ length other.now }
        ensures word { result ≡ word (lane_room (length self.now)) (lcm self.now other.now) }
        ensures small { AreSmall (lane_room (length self.now)) (lcm self.now other.now) }
    {
        let guards = guards_of(self.arity);
        let above = self.word + guards - other.word;
        let marks = above & guards;
        other.word + (above & (marks - (marks >> room_of(self.arity))))
    }

    /// Where it stands to `other` in graded reverse lexicographic order.
    #[inline(always)]
    pub(crate) fn compare(&self, other: &ShortMono) -> Ordering
        requires { length self.now ≡ length other.now }
        ensures { result ≡ compare grevlex self.now other.now }
    {
        if self.degree == other.degree {
            other.word.cmp(&self.word)
        } else {
            self.degree.cmp(&other.degree)
        }
    }

    /// The degree.
    #[inline(always)]
    pub(crate) fn degree(&self) -> u32
        ensures degree { result ≡ sum self.now }
        ensures small { result ≤ most_degree }
    {
        self.degree
    }

    /// Where the exponents of `other` stand to those here, from the last on.
    #[inline(always)]
    pub(crate) fn compare_from_last(&self, other: &ShortMono) -> Ordering
        requires { length self.now ≡ length other.now }
        ensures { result ≡ slice_cmp nat_cmp (reverse other.now) (reverse self.now) }
    {
        other.word.cmp(&self.word)
    }

    /// The sum of the first exponents.
    #[inline(always)]
    pub(crate) fn degree_of_first(&self, first: usize) -> u32
        requires { first ≤ length self.now }
        ensures degree { result ≡ sum (take first self.now) }
        ensures small { result ≤ most_degree }
    {
        degree_in(self.word, room_of(self.arity), first)
    }

    /// Where the first exponents of `other` stand to those here, from the last of them on.
    #[inline(always)]
    pub(crate) fn compare_first_from_last(&self, other: &ShortMono, first: usize) -> Ordering
        requires arity { length self.now ≡ length other.now }
        requires first { first ≤ length self.now }
        ensures { result ≡ slice_cmp nat_cmp (reverse (take first other.now)) (reverse
            (take first self.now)) }
    {
        if first >= usize::from(self.arity) {
            return self.compare_from_last(other);
        }
        let bits = (room_of(self.arity) + 1) * first as u32;
        lowest_bits(other.word, bits).cmp(&lowest_bits(self.word, bits))
    }

    /// Where it stands to `other` by the first variables, and then by the others.
    #[inline(always)]
    pub(crate) fn compare_by_blocks(&self, other: &ShortMono, first: usize) -> Ordering
        requires { length self.now ≡ length other.now }
        ensures { result ≡ compare (blocks first grevlex grevlex) self.now other.now }
    {
        if first >= usize::from(self.arity) {
            return self.compare(other);
        }
        let room = room_of(self.arity);
        let bits = (room + 1) * first as u32;
        let (left, right) = (lowest_bits(self.word, bits), lowest_bits(other.word, bits));
        if left == right {
            return self.compare(other);
        }
        degree_in(left, room, first)
            .cmp(&degree_in(right, room, first))
            .then(right.cmp(&left))
    }

    /// Where it stands to `other` in lexicographic order.
    #[inline(always)]
    pub(crate) fn compare_by_first(&self, other: &ShortMono) -> Ordering
        requires { length self.now ≡ length other.now }
        ensures { result ≡ compare lex self.now other.now }
    {
        let count = usize::from(self.arity);
        compare_lanes(self.word, other.word, room_of(self.arity), count)
    }
}
