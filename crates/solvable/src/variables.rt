//! The variables that a polynomial has.
ghost use Rattle.std.specs.Prelude.{◌≡◌, ◌<◌, All, length};
ghost use Rattle.solvable_maps.specs.Uses.{any};
ghost use Rattle.poly.specs.Seen.{terms_in, terms_each};
ghost use Rattle.solvable.specs.Terms.{has_above, is_used};

use frac128::Frac;
use monos::Grevlex;
use poly::Poly;

/// Whether one variable uses another by a term of a degree above `below`.
pub(crate) fn uses_at(
    images: &Vec<Poly<Frac, Grevlex>>,
    one: usize,
    other: usize,
    below: u32,
) -> bool
    requires square { All (λ p. p.arity ≡ length images.now.items) images.now.items }
    requires one { one < length images.now.items }
    requires other { other < length images.now.items }
    ensures { result ≡ is_used below (terms_each images.now.items) one other }
{
    has_term(&images[one], other, below)
}

/// Whether some term of a degree above `below` has the variable.
fn has_term(polynomial: &Poly<Frac, Grevlex>, variable: usize, below: u32) -> bool
    requires { variable < polynomial.now.arity }
    ensures { result ≡ any (has_above below variable) (terms_in polynomial.now) }
{
    for term in polynomial.terms() {
        if term.mono.exponent(variable) > 0 && term.mono.degree() > below {
            return true;
        }
    }
    false
}
