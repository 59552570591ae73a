//! The law of fields, as the contract of a function that does nothing.

ghost use Rattle.algebra.specs.Arithmetic.{Arithmetic};
ghost use Rattle.algebra.specs.Ring.{IsRing, IsFieldOf, HasNoZeroDivisors};

/// A field has no zero divisors.
pub fn fields_have_no_zero_divisors<A>()
    ensures { (N : Arithmetic A) (inverse : A → A) → IsRing N → IsFieldOf N inverse
        → HasNoZeroDivisors N }
{}
