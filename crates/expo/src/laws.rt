//! The laws of exponential polynomials, one function each.

ghost use Rattle.std.specs.Prelude.{◌≡◌, ℕ, List, length};
ghost use Rattle.algebra.specs.Fraction.{Fraction, ℚ};
ghost use Rattle.polynomials.specs.Terms.{Terms, value_at};
ghost use Rattle.polynomials.specs.Polynomial.{AllArity};
ghost use Rattle.ideals.specs.Members.{IsMember};
ghost use Rattle.poly.specs.Seen.{terms_in};
ghost use Rattle.expo.specs.View.{base_of, value_of, count_of, part_of, iteration_of, HasValues};

use crate::Expo;

/// Over one base there is one exponential polynomial with given values at each n and each state.
pub fn values_decide_exponentials(left: &Expo, right: &Expo)
    ensures { base_of left.now ≡ base_of right.now → left.now.vars ≡ right.now.vars
        → HasValues (value_of right.now) left.now
        → terms_in left.now.body ≡ terms_in right.now.body }
{}

/// Where an ideal has an exponential polynomial at each n, it has the coefficients of its monomials in n, s, u and v.
pub fn ideals_have_the_coefficients(e: &Expo)
    ensures { (ideal : List (Terms Fraction)) → AllArity e.now.vars ideal
        → ((n : ℕ) → IsMember ℚ e.now.vars ideal (iteration_of e.now n))
        → (k : List ℕ) → length k ≡ count_of e.now → IsMember ℚ e.now.vars ideal (part_of e.now k) }
{}

/// Where an exponential polynomial is zero at one state at each n, so are the coefficients of its monomials in n, s, u and v.
pub fn coefficients_vanish_at_a_state(e: &Expo)
    ensures { (s : List Fraction) → length s ≡ e.now.vars
        → ((n : ℕ) → value_of e.now n s ≡ ℚ.zero)
        → (k : List ℕ) → length k ≡ count_of e.now → value_at ℚ (part_of e.now k) s ≡ ℚ.zero }
{}
