//! How pairs are made, and where one stands to another.
ghost use Rattle.std.specs.Prelude.{◌≡◌, ◌+◌, ◌-◌, sum, length, cond, IfOk};
ghost use Rattle.std.specs.declared.cmp.Ordering.TheVariants.{Equal};
ghost use Rattle.std.specs.Ordering.{nat_cmp};
ghost use Rattle.polynomials.specs.Exponent.{Divides};
ghost use Rattle.complete.specs.Pairs.{keys, HasRoom, IsPairOf};

use crate::pair::{Pair, Parts};
use monos::{Mono, Order};
use std::alloc::{AllocError, Global};
use std::cmp::Ordering;

impl Pair {
    /// The pair of two places whose elements have these leads and sugars.
    pub(crate) fn new(
        alloc: Global,
        left: u32,
        first: &Mono,
        first_sugar: u64,
        right: u32,
        second: &Mono,
        second_sugar: u64,
    ) -> Result<Pair, AllocError>
        requires same { length first.now ≡ length second.now }
        requires first_room { HasRoom first_sugar }
        requires second_room { HasRoom second_sugar }
        ensures pair { IfOk result
            (IsPairOf (left, right) first.now first_sugar second.now second_sugar) }
    {
        let multiple = first.lcm(alloc, second)?;
        let left_sugar = sugar_at(first_sugar, first, &multiple);
        let right_sugar = sugar_at(second_sugar, second, &multiple);
        let degree = multiple.degree();
        let parts = Parts {
            left,
            right,
            multiple,
            degree,
            sugar: left_sugar.max(right_sugar),
        };
        Ok(Pair {
            parts: Box::new(alloc, parts)?,
        })
    }

    /// Where the pair stands to another: where degrees are mixed by their sugars first, then by the degrees, by the multiples and by the places.
    pub(crate) fn compare<O: Order>(&self, order: O, mixed: bool, other: &Pair) -> Ordering
        requires { length self.now.parts.value.multiple ≡ length other.now.parts.value.multiple }
        ensures { result ≡ keys (O.order order) mixed self.now other.now }
    {
        let by_sugar = self.by_sugar(mixed, other);
        if by_sugar != Ordering::Equal {
            return by_sugar;
        }
        let by_degree = self.parts.degree.cmp(&other.parts.degree);
        if by_degree != Ordering::Equal {
            return by_degree;
        }
        let by_place = self
            .parts
            .left
            .cmp(&other.parts.left)
            .then(self.parts.right.cmp(&other.parts.right));
        order
            .compare(&self.parts.multiple, &other.parts.multiple)
            .then(by_place)
    }

    fn by_sugar(&self, mixed: bool, other: &Pair) -> Ordering
        ensures { result ≡ cond mixed
            (nat_cmp self.now.parts.value.sugar other.now.parts.value.sugar) Equal }
    {
        if mixed {
            self.parts.sugar.cmp(&other.parts.sugar)
        } else {
            Ordering::Equal
        }
    }
}

/// An element's sugar, raised by the degree that the multiple of its lead has above it.
fn sugar_at(sugar: u64, lead: &Mono, multiple: &Mono) -> u64
    requires room { HasRoom sugar }
    requires multiple { Divides lead.now multiple.now }
    requires same { length lead.now ≡ length multiple.now }
    ensures { result ≡ sugar + sum multiple.now - sum lead.now }
{
    sugar + multiple.degree() as u64 - lead.degree() as u64
}
