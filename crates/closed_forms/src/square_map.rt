//! The polynomials of a branch.
ghost use Rattle.std.specs.Prelude.{◌≡◌, ◌≤◌, All, length};
ghost use Rattle.closed_forms.specs.Limits.{most_images};

use frac128::Frac;
use monos::Grevlex;
use poly::Poly;

/// A map: one polynomial for each variable, in as many variables, which are few.
#[derive(Clone, Copy)]
pub(crate) struct SquareMap<'a> {
    pub(crate) images: &'a Vec<Poly<Frac, Grevlex>>,
    ghost few: { length images.now.items ≤ most_images },
    ghost square: { All (λ p. p.arity ≡ length images.now.items) images.now.items },
}
