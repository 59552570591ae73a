//! What an analysis gives.
ghost use Rattle.std.specs.Prelude.{◌≤◌, length};
ghost use Rattle.complete.specs.Limits.{generators_limit};
ghost use Rattle.poly.specs.Seen.{arity_of, terms_each};
ghost use Rattle.rounds.specs.Results.{IsReducedList};
ghost use Rattle.ideal_ops.specs.Calls.{AreOver};

use frac128::Frac;
use monos::Grevlex;
use poly::Poly;

/// What an analysis gives: the reduced basis of all invariants in ascending order of leads, the number of rounds, and for each branch and each element the cofactors of the element with the branch's polynomials for its variables.
#[derive(Drop)]
pub struct Analysis {
    pub basis: Vec<Poly<Frac, Grevlex>>,
    pub rounds: u32,
    pub steps: Vec<Vec<Vec<Poly<Frac, Grevlex>>>>,
    pub ghost few: { length basis.items ≤ generators_limit },
    pub ghost arity: { AreOver (arity_of basis.items) basis.items },
    pub ghost reduced: { ∥ IsReducedList (arity_of basis.items) (terms_each basis.items) ∥₁ },
}
