//! The laws of rings, ordered rings and fields, each as the clause of a function.
ghost use Rattle.std.specs.Prelude.{◌≡◌, ◌≢◌, ◌↔◌, true};
ghost use Rattle.std.specs.declared.cmp.Ordering.{Ordering};
ghost use Rattle.algebra.specs.Size.{sum_size, product_size, quotient_size, IsUnder};

use crate::{Field, OrderedRing, Ring};

/// It does not matter which of two sums comes first: (a + b) + c is a + (b + c).
pub fn sum_is_associative<K: Ring>()
    ensures { let S = K.scalars in (a b c : S.Elem) → S.add (S.add a b) c ≡ S.add a (S.add b c) }
{}

/// The order of a sum does not matter: a + b is b + a.
pub fn sum_is_commutative<K: Ring>()
    ensures { (a b : K.scalars.Elem) → K.scalars.add a b ≡ K.scalars.add b a }
{}

/// Zero is neutral in sums: a + 0 is a.
pub fn zero_is_neutral<K: Ring>()
    ensures { (a : K.scalars.Elem) → K.scalars.add a K.scalars.zero ≡ a }
{}

/// A number and its opposite are zero together: a + (-a) is 0.
pub fn opposites_cancel<K: Ring>()
    ensures { (a : K.scalars.Elem) → K.scalars.add a (K.scalars.neg a) ≡ K.scalars.zero }
{}

/// It does not matter which of two products comes first: (a b) c is a (b c).
pub fn product_is_associative<K: Ring>()
    ensures { let S = K.scalars in (a b c : S.Elem) → S.mul (S.mul a b) c ≡ S.mul a (S.mul b c) }
{}

/// The order of a product does not matter: a b is b a.
pub fn product_is_commutative<K: Ring>()
    ensures { (a b : K.scalars.Elem) → K.scalars.mul a b ≡ K.scalars.mul b a }
{}

/// One is neutral in products: a 1 is a.
pub fn one_is_neutral<K: Ring>()
    ensures { (a : K.scalars.Elem) → K.scalars.mul a K.scalars.one ≡ a }
{}

/// Products go over sums: a (b + c) is a b + a c.
pub fn product_is_distributive<K: Ring>()
    ensures { let S = K.scalars in
        (a b c : S.Elem) → S.mul a (S.add b c) ≡ S.add (S.mul a b) (S.mul a c) }
{}

/// A sum, a difference, a product and an opposite are within the weights of theirs.
pub fn weights_bound_results<K: Ring>()
    ensures sum { let S = K.scalars in
        (a b : S.Elem) → IsUnder (S.size (S.add a b)) (sum_size (S.size a) (S.size b)) }
    ensures difference { let S = K.scalars in
        (a b : S.Elem) → IsUnder (S.size (S.add a (S.neg b))) (sum_size (S.size a) (S.size b)) }
    ensures product { let S = K.scalars in
        (a b : S.Elem) → IsUnder (S.size (S.mul a b)) (product_size (S.size a) (S.size b)) }
    ensures opposite { (a : K.scalars.Elem) → K.scalars.size (K.scalars.neg a) ≡ K.scalars.size a }
{}

/// Elements that mean the same number are the same, and `==` tells whether they are.
pub fn meaning_decides<K: Ring>()
    ensures number { (x y : K) → K.meaning x ≡ K.meaning y → x ≡ y }
    ensures eq { (x y : K) → (K.eq x y ≡ true) ↔ (x ≡ y) }
{}

/// The test for zero tells which number is zero.
pub fn zero_is_told<K: Ring>()
    ensures { (a : K.scalars.Elem) → (K.scalars.is_zero a ≡ true) ↔ (a ≡ K.scalars.zero) }
{}

/// The order is total and transitive: of two different numbers one is below the other, and what is below a lower number is below.
pub fn order_is_total<K: OrderedRing>()
    ensures same { (a : K.scalars.Elem) → K.scalars.order a a ≡ Ordering.Equal }
    ensures decides { (a b : K.scalars.Elem) → K.scalars.order a b ≡ Ordering.Equal → a ≡ b }
    ensures flips { let S = K.scalars in
        (a b : S.Elem) → S.order a b ≡ Ordering.Less → S.order b a ≡ Ordering.Greater }
    ensures flips_back { let S = K.scalars in
        (a b : S.Elem) → S.order a b ≡ Ordering.Greater → S.order b a ≡ Ordering.Less }
    ensures transitive { let S = K.scalars in
        (a b c : S.Elem) → S.order a b ≡ Ordering.Less → S.order b c ≡ Ordering.Less
        → S.order a c ≡ Ordering.Less }
{}

/// Sums keep the order: where a is below b, a + c is below b + c.
pub fn sum_keeps_order<K: OrderedRing>()
    ensures { let S = K.scalars in
        (a b c : S.Elem) → S.order a b ≡ Ordering.Less
        → S.order (S.add a c) (S.add b c) ≡ Ordering.Less }
{}

/// Products with what is above zero keep the order: where a is below b, and 0 below c, a c is below b c.
pub fn product_keeps_order<K: OrderedRing>()
    ensures { let S = K.scalars in
        (a b c : S.Elem) → S.order S.zero c ≡ Ordering.Less → S.order a b ≡ Ordering.Less
        → S.order (S.mul a c) (S.mul b c) ≡ Ordering.Less }
{}

/// Each value but zero has an inverse: a times it is 1. One is not zero.
pub fn inverses_cancel<K: Field>()
    ensures one { K.scalars.one ≢ K.scalars.zero }
    ensures inverse { let S = K.scalars in
        (a : S.Elem) → a ≢ S.zero → S.mul a (S.inverse a) ≡ S.one }
{}

/// A quotient is within its weight.
pub fn weights_bound_quotients<K: Field>()
    ensures { let S = K.scalars in
        (a b : S.Elem) → b ≢ S.zero
        → IsUnder (S.size (S.mul a (S.inverse b))) (quotient_size (S.size a) (S.size b)) }
{}
