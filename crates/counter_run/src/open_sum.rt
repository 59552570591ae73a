//! Sums to which polynomials come one after another.
ghost use Rattle.std.specs.Prelude.{◌≡◌, length, All};

use frac128::Frac;
use monos::Grevlex;
use poly::{Poly, Term};
use ring_laws::Weight;

/// A sum of polynomials in as many variables: one whose like terms are collected, and terms that
/// came since. Where there are some, the weight of all isn't past, so no sum of some is too wide.
/// And how many terms the polynomials have that came, one by one.
#[derive(Drop)]
pub(crate) struct OpenSum {
    pub(crate) total: Poly<Frac, Grevlex>,
    pub(crate) terms: Vec<Term<Frac>>,
    pub(crate) weight: Option<Weight>,
    pub(crate) came: u64,
    pub ghost arities: { All (λ t. length t.mono ≡ total.arity) terms.items },
}
