//! The laws of fractions and residues, each as the contract of a function that does nothing.

ghost use Rattle.std.specs.Prelude.{◌≡◌, ◌↔◌, true, ℤ, ◌+ℤ◌, ◌*ℤ◌, neg_ℤ};
ghost use Rattle.std.specs.Ordering.{int_cmp};
ghost use Rattle.algebra.specs.Ring.{IsRing, IsFieldOf, IsOrderOf};
ghost use Rattle.algebra.specs.Scalars.{IsBounded, BoundsQuotients};
ghost use Rattle.algebra.specs.Fraction.{Fraction, fractions, whole, inverse, fraction_order};
ghost use Rattle.algebra.specs.Residue.{Residue, residues, residue_inverse, prime};

/// The fractions are an ordered field.
pub fn fractions_are_an_ordered_field()
    ensures ring { IsRing fractions.arithmetic }
    ensures field { IsFieldOf fractions.arithmetic inverse }
    ensures zero { (x : Fraction) → (fractions.is_zero x ≡ true) ↔ (x ≡ fractions.zero) }
    ensures order { IsOrderOf fractions.arithmetic fraction_order }
    ensures bounded { IsBounded fractions.arithmetic fractions.size }
    ensures quotients { BoundsQuotients fractions.arithmetic fractions.size inverse }
{}

/// Whole numbers are fractions, each another, and computing with them gives the whole numbers that it should.
pub fn whole_numbers_are_fractions()
    ensures decides { (x y : ℤ) → whole x ≡ whole y → x ≡ y }
    ensures sum { (x y : ℤ) → fractions.add (whole x) (whole y) ≡ whole (x +ℤ y) }
    ensures product { (x y : ℤ) → fractions.mul (whole x) (whole y) ≡ whole (x *ℤ y) }
    ensures opposite { (x : ℤ) → fractions.neg (whole x) ≡ whole (neg_ℤ x) }
    ensures order { (x y : ℤ) → fraction_order (whole x) (whole y) ≡ int_cmp x y }
{}

/// The residues modulo the prime 65521 are a field, and have no size.
pub fn residues_are_a_field()
    ensures ring { IsRing (residues prime tt).arithmetic }
    ensures field { IsFieldOf (residues prime tt).arithmetic (residue_inverse prime tt) }
    ensures zero { (x : Residue prime)
        → ((residues prime tt).is_zero x ≡ true) ↔ (x ≡ (residues prime tt).zero) }
    ensures bounded { IsBounded (residues prime tt).arithmetic (residues prime tt).size }
    ensures quotients { BoundsQuotients (residues prime tt).arithmetic (residues prime tt).size
        (residue_inverse prime tt) }
{}
