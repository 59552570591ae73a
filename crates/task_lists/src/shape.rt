//! Which variables the polynomials of a graph have.
ghost use Rattle.std.specs.Prelude.{◌≡◌, ◌≤◌, ◌<◌, IfOk};
ghost use Rattle.monos.specs.Variables.{most_variables};
ghost use Rattle.poly.specs.Seen.{terms_in};
ghost use Rattle.rounds.specs.Form.{variable_at};
ghost use Rattle.task_lists.specs.Shapes.{width_of};

use frac128::Frac;
use monos::Grevlex;
use poly::Poly;
use std::alloc::{AllocError, Global};

/// How many variables stand in front, how many copies of others behind them, and how many variables behind these.
#[derive(Clone, Copy)]
pub(crate) struct Shape {
    pub(crate) front: usize,
    pub(crate) copies: usize,
    pub(crate) variables: usize,
}

impl Shape {
    /// How many variables there are.
    pub(crate) fn width(&self) -> usize
        requires { width_of self.now ≤ most_variables }
        ensures { result ≡ width_of self.now }
    {
        self.front + self.copies + self.variables
    }

    /// The variable at this place.
    pub(crate) fn variable(
        &self,
        alloc: Global,
        place: usize,
    ) -> Result<Poly<Frac, Grevlex>, AllocError>
        requires few { width_of self.now ≤ most_variables }
        requires place { place < width_of self.now }
        ensures terms { IfOk result (λ p. terms_in p ≡ variable_at (width_of self.now) place) }
        ensures arity { IfOk result (λ p. p.arity ≡ width_of self.now) }
    {
        Poly::variable(alloc, Grevlex, self.width(), place)
    }
}
