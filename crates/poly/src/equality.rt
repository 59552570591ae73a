//! Equality of polynomials.
ghost use Rattle.std.specs.Prelude.{◌≡◌, ◌↔◌, IsTrue};
ghost use Rattle.std.specs.Cmp.{partial_equiv_from_equiv};
ghost use Rattle.poly.specs.Equality.{same_polynomial, same_polynomial_equiv};
ghost use Rattle.poly.specs.Operations.{AreEqual, AreSame};

use crate::Poly;
use monos::Order;
use ring_laws::Ring;

impl<K: Ring, O: Order> PartialEq for Poly<K, O> {
    ghost eq = { same_polynomial };

    ghost laws = { partial_equiv_from_equiv (same_polynomial_equiv K.Eq.laws) };

    /// Whether both have the same arity, and the same terms in the same places.
    /// Of polynomials in one order and of one arity this tells whether they are the same.
    fn eq(&self, other: &Poly<K, O>) -> bool
        ensures answer { result ≡ same_polynomial self.now other.now }
        ensures same { IsTrue result ↔ AreEqual self.now other.now }
        ensures decides { self.now.order ≡ other.now.order → self.now.arity ≡ other.now.arity
            → (IsTrue result ↔ AreSame self.now other.now) }
    {
        self.arity == other.arity && self.terms == other.terms
    }
}

impl<K: Ring, O: Order> Eq for Poly<K, O> {
    ghost laws = { same_polynomial_equiv K.Eq.laws };
}
