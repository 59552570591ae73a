//! The laws of flat polynomials and of printed ones, one function each.
ghost use Rattle.std.specs.Prelude.{◌≡◌, ◌≢◌, ◌↔◌, ℕ, List, length, Some, All, AllPairs, IsTrue, IsSomeAnd};
ghost use Rattle.algebra.specs.Fraction.{Fraction, ℚ};
ghost use Rattle.polynomials.specs.Terms.{Terms, Same};
ghost use Rattle.polynomials.specs.Polynomial.{Arity, IsPolynomial};
ghost use Rattle.polynomials.specs.Order.{grevlex};
ghost use Rattle.loop_model.specs.Words.{is_plain_word};
ghost use Rattle.grammars.specs.Spelled.{IsRead};
ghost use Rattle.poly_text.specs.Lexemes.{tokens};
ghost use Rattle.poly_text.specs.Flat.{FlatState, flat_language, whole_flat, start, flat_of};
ghost use Rattle.poly_text.specs.Printed.{polynomial_text};
ghost use Rattle.poly_text.specs.Narrow.{IsNarrow};

/// The terms of a flat polynomial have an exponent for each name.
pub fn flat_polynomials_are_over_the_names()
    ensures { (names : List (List ℕ)) (text : List ℕ) (p : Terms Fraction)
        → flat_of names text ≡ Some p → Arity (length names) p }
{}

/// Bytes are read as a polynomial exactly where their tokens are a text of the grammar of flat polynomials, none of them at fault, that leads to its terms.
pub fn flat_texts_are_read()
    ensures { (names : List (List ℕ)) (bytes : List ℕ) (p : Terms Fraction)
        → (flat_of names bytes ≡ Some p)
        ↔ ((end : FlatState) × IsRead flat_language whole_flat (start names) (tokens bytes) end
        × (end.context.found ≡ p)) }
{}

/// A printed polynomial over names that differ is read as this polynomial.
pub fn printed_polynomials_are_read()
    ensures { (names : List (List ℕ)) (p : Terms Fraction)
        → All (λ w. IsTrue (is_plain_word w)) names → AllPairs (λ v w. v ≢ w) names
        → IsPolynomial ℚ grevlex (length names) p → All IsNarrow p
        → IsSomeAnd (flat_of names (polynomial_text names p)) (λ q. Same ℚ q p) }
{}
