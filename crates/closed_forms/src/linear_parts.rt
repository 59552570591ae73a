//! The linear part of the polynomials of a class in its own variables, and what they have beside it.
ghost use Rattle.std.specs.Prelude.{◌≡◌, ◌<◌, ℕ, All, length, map, IfOk, IsTrue, ◌↔◌};
ghost use Rattle.algebra.specs.Fraction.{ℚ};
ghost use Rattle.polynomials.specs.Polynomial.{IsDistinct};
ghost use Rattle.polynomials.specs.Terms.{coefficient};
ghost use Rattle.solvable_maps.specs.Uses.{poly_at, unit};
ghost use Rattle.frac128.specs.FracMeaning.{fraction_of};
ghost use Rattle.linear.specs.Rows.{fractions_of, rows_of};
ghost use Rattle.poly.specs.Seen.{terms_in, terms_each};
ghost use Rattle.poly.specs.View.{terms_of};
ghost use Rattle.solvable_maps.specs.Classes.{class_matrix as matrix_of};
ghost use Rattle.solvable_maps.specs.AfterIterations.{rest_of as without};
ghost use Rattle.closed_forms.specs.SquareMap.{polys_by, size_by};

use crate::square_map::SquareMap;
use crate::sums::rest_of;
use frac128::Frac;
use monos::{Grevlex, Mono};
use poly::{Poly, Term};
use ring_laws::Ring;
use std::alloc::{AllocError, Global};

impl SquareMap<'_> {
    /// The linear part of the polynomials of a class in its own variables, row by row.
    pub(crate) fn class_matrix(
        &self,
        alloc: Global,
        group: &[usize],
    ) -> Result<Vec<Vec<Frac>>, AllocError>
        requires { All (λ i. i < size_by self.now) group.now }
        ensures { IfOk result (λ m. rows_of m.items ≡ matrix_of (polys_by self.now) group.now) }
    {
        let mut matrix = Vec::new(alloc);
        for variable in group {
            matrix.push(linear_part(alloc, &self.images[*variable], group)?)?;
        }
        Ok(matrix)
    }

    /// What the polynomials of a class have without variables of the class.
    pub(crate) fn rests(
        &self,
        alloc: Global,
        group: &[usize],
    ) -> Result<Vec<Poly<Frac, Grevlex>>, AllocError>
        requires { All (λ i. i < size_by self.now) group.now }
        ensures arities { IfOk result (λ out. All (λ p. p.arity ≡ size_by self.now) out.items) }
        ensures terms { IfOk result (λ out. terms_each out.items
            ≡ map (λ i. without group.now (poly_at (polys_by self.now) i)) group.now) }
    {
        let mut out = Vec::new(alloc);
        for variable in group {
            out.push(rest_of(alloc, &self.images[*variable], group)?)?;
        }
        Ok(out)
    }
}

/// The numbers of some variables, each alone, in a polynomial.
fn linear_part(
    alloc: Global,
    poly: &Poly<Frac, Grevlex>,
    group: &[usize],
) -> Result<Vec<Frac>, AllocError>
    requires { All (λ j. j < poly.now.arity) group.now }
    ensures { IfOk result (λ row. fractions_of row.items
        ≡ map (λ j. coefficient ℚ (terms_in poly.now) (unit poly.now.arity j)) group.now) }
{
    let mut row = Vec::new(alloc);
    for variable in group {
        row.push(number_of(poly.terms(), *variable))?;
    }
    Ok(row)
}

/// The number of a variable alone in a sum of terms with different monomials.
fn number_of(terms: &[Term<Frac>], variable: usize) -> Frac
    requires distinct { IsDistinct (terms_of fraction_of terms.now) }
    requires inside { All (λ t. variable < length t.mono) terms.now }
    ensures { (m : ℕ) → All (λ t. length t.mono ≡ m) terms.now
        → fraction_of result ≡ coefficient ℚ (terms_of fraction_of terms.now) (unit m variable) }
{
    for term in terms {
        if is_alone(&term.mono, variable) {
            return term.coef;
        }
    }
    Frac::zero()
}

/// Whether a monomial is the variable.
fn is_alone(mono: &Mono, variable: usize) -> bool
    requires { variable < length mono.now }
    ensures { IsTrue result ↔ (mono.now ≡ unit (length mono.now) variable) }
{
    if mono.degree() != 1 {
        return false;
    }
    if mono.exponent(variable) == 0 {
        return false;
    }
    true
}
