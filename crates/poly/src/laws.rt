//! The laws of polynomials, each as the clause of a function that does nothing.
ghost use Rattle.std.specs.Prelude.{◌≡◌, ◌↔◌, ℕ, true};
ghost use Rattle.polynomials.specs.Terms.{Terms, Same};
ghost use Rattle.polynomials.specs.Polynomial.{IsPolynomial};
ghost use Rattle.poly.specs.Equality.{same_polynomial};
ghost use Rattle.poly.specs.Operations.{AreSame};

use crate::Poly;
use monos::Order;
use ring_laws::Ring;

/// Polynomials in one order that are the same have the same terms in the same places.
pub fn equal_polynomials_have_equal_terms<K: Ring, O: Order>()
    ensures { let N = K.scalars.arithmetic in (order : O) (m n : ℕ) (p q : Terms K.scalars.Elem)
        → IsPolynomial N (O.order order) m p → IsPolynomial N (O.order order) n q
        → Same N p q → p ≡ q }
{}

/// What `==` answers tells whether two polynomials in one order and of one arity are the same.
pub fn equality_decides<K: Ring, O: Order>(left: &Poly<K, O>, right: &Poly<K, O>)
    ensures { left.now.order ≡ right.now.order → left.now.arity ≡ right.now.arity
        → (same_polynomial left.now right.now ≡ true) ↔ AreSame left.now right.now }
{}
