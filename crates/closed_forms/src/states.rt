//! The branch after a number of iterations, as polynomials of the variables before.
ghost use Rattle.std.specs.Prelude.{◌≡◌, ◌≤◌, All, length, map, IfOk, IsErrOf};
ghost use Rattle.algebra.specs.Fraction.{ℚ};
ghost use Rattle.polynomials.specs.Terms.{variables as variables_of};
ghost use Rattle.poly.specs.Seen.{terms_each};
ghost use Rattle.closed_forms.specs.Limits.{most_images};
ghost use Rattle.closed_forms.specs.SquareMap.{polys_by, size_by};
ghost use Rattle.closed_forms.specs.States.{next_of, states_to, IsPastNextState, IsPastState};

use crate::square_map::SquareMap;
use frac128::Frac;
use monos::Grevlex;
use poly::Poly;
use ring_laws::ArithmeticError;
use std::alloc::{AllocError, Global};

impl SquareMap<'_> {
    /// The variables, and the branch after each number of iterations from one to this one. `Wide` only where the weight of a composition is past.
    pub(crate) fn states(
        &self,
        alloc: Global,
        iterations: u32,
    ) -> Result<Vec<Vec<Poly<Frac, Grevlex>>>, ArithmeticError>
        ensures states { IfOk result (λ found. map (λ v. terms_each v.items) found.items
            ≡ states_to (polys_by self.now) iterations) }
        ensures arities { IfOk result
            (λ found. All (λ v. All (λ p. p.arity ≡ size_by self.now) v.items) found.items) }
        ensures wide { IsErrOf result ArithmeticError.Wide
            → IsPastState (polys_by self.now) iterations }
    {
        let mut found = vec![in alloc; variables(alloc, self.images.len())?]?;
        for iteration in 0..iterations {
            let next = self.next_state(alloc, &found[iteration as usize])?;
            found.push(next)?;
        }
        Ok(found)
    }

    /// The branch one iteration after a state.
    fn next_state(
        &self,
        alloc: Global,
        state: &Vec<Poly<Frac, Grevlex>>,
    ) -> Result<Vec<Poly<Frac, Grevlex>>, ArithmeticError>
        requires count { length state.now.items ≡ size_by self.now }
        requires arities { All (λ p. p.arity ≡ size_by self.now) state.now.items }
        ensures terms { IfOk result (λ out. terms_each out.items
            ≡ next_of (size_by self.now) (polys_by self.now) (terms_each state.now.items)) }
        ensures arities { IfOk result (λ out. All (λ p. p.arity ≡ size_by self.now) out.items) }
        ensures wide { IsErrOf result ArithmeticError.Wide
            → IsPastNextState (polys_by self.now) (terms_each state.now.items) }
    {
        let mut out = Vec::new(alloc);
        for image in self.images {
            out.push(image.compose(alloc, state)?)?;
        }
        Ok(out)
    }
}

/// The variables.
fn variables(alloc: Global, count: usize) -> Result<Vec<Poly<Frac, Grevlex>>, AllocError>
    requires { count ≤ most_images }
    ensures terms { IfOk result (λ out. terms_each out.items ≡ variables_of ℚ count) }
    ensures arities { IfOk result (λ out. All (λ p. p.arity ≡ count) out.items) }
{
    let mut out = Vec::new(alloc);
    for variable in 0..count {
        out.push(Poly::variable(alloc, Grevlex, count, variable)?)?;
    }
    Ok(out)
}
