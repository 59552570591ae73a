//! What a task is given, and the rests that it takes.
ghost use Rattle.std.specs.Prelude.{◌≡◌, ◌≤◌};
ghost use Rattle.monos.specs.Variables.{most_variables};
ghost use Rattle.program_families.specs.Views.{arity_in, IsJob};

use frac128::Frac;
use monos::{Grevlex, Mono};
use poly::Poly;
use program_model::Transition;

/// The task of a transition of a graph in so many variables: its place among the transitions, from 0; the list of the node where it comes
/// from, and that of the node where it leads to, if there is one; and the monomials whose rests may be taken, in ascending order.
#[derive(Drop)]
pub struct Job<'a> {
    pub place: u32,
    pub variables: usize,
    pub transition: &'a Transition,
    pub source: &'a Vec<Poly<Frac, Grevlex>>,
    pub target: Option<&'a Vec<Poly<Frac, Grevlex>>>,
    pub monomials: &'a Vec<Mono>,
}

/// The rest of what a transition makes of a monomial.
#[derive(Drop)]
pub struct Rest {
    pub monomial: Mono,
    pub polynomial: Poly<Frac, Grevlex>,
}

impl Job<'_> {
    /// How many unknowns and variables there are.
    pub(crate) fn arity(&self) -> usize
        requires { IsJob self.now }
        ensures arity { result ≡ arity_in self.now }
        ensures few { result ≤ most_variables }
    {
        self.transition.unknowns + self.variables
    }
}
