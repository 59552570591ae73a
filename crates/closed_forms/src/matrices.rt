//! The inverse of a matrix of forms.
ghost use Rattle.std.specs.Prelude.{◌≡◌, ◌≤◌, ◌+◌, ◌++◌, All, length, eqb, cond, IfOk, IsErrOf};
ghost use Rattle.algebra.specs.Fraction.{ℚ};
ghost use Rattle.frac128.specs.FracMeaning.{fraction_of};
ghost use Rattle.linear.specs.Rows.{fractions_of, rows_of};
ghost use Rattle.vectors.specs.Adding.{IsEchelonOf};
ghost use Rattle.solvable_maps.specs.Inverse.{unit_list, beside as all_beside};
ghost use Rattle.eigen_split.specs.Ints.{most_rows};
ghost use Rattle.closed_forms.specs.Inverses.{IsBehind, IsPastInverse};

use frac128::Frac;
use linear::{LinearError, Rref};
use ring_laws::{ArithmeticError, Ring};
use std::alloc::{AllocError, Global};

/// A matrix of forms, which are at most 12 and as wide as many.
#[derive(Clone, Copy)]
pub(crate) struct FormMatrix<'a> {
    pub(crate) forms: &'a [Vec<Frac>],
    ghost few: { length forms.now ≤ most_rows },
    ghost square: { All (λ form. length form.items ≡ length forms.now) forms.now },
}

impl FormMatrix<'_> {
    /// What stands behind the identity in the echelon list of the forms: the inverse of the matrix, where they are independent.
    /// `Wide` only where adding a form, with its row of the identity, is past.
    pub(crate) fn inverse(&self, alloc: Global) -> Result<Vec<Vec<Frac>>, ArithmeticError>
        ensures inverse { IfOk result
            (λ back. IsBehind (rows_of self.now.forms.now) (rows_of back.items)) }
        ensures wide { IsErrOf result ArithmeticError.Wide
            → IsPastInverse (rows_of self.now.forms.now) }
    {
        let echelon = self.echelon_beside(alloc)?;
        let mut back = Vec::new(alloc);
        for row in echelon.rows() {
            let (_, half) = row.as_slice().split_at(self.forms.len());
            back.push(half.to_vec(alloc)?)?;
        }
        Ok(back)
    }

    /// The echelon list of the forms, each with a row of the identity behind it.
    fn echelon_beside(&self, alloc: Global) -> Result<Rref, ArithmeticError>
        ensures echelon { let n = length self.now.forms.now in IfOk result (λ e. IsEchelonOf (n + n)
            (all_beside n 0 (rows_of self.now.forms.now)) e.rows) }
        ensures wide { IsErrOf result ArithmeticError.Wide
            → IsPastInverse (rows_of self.now.forms.now) }
    {
        let forms = self.forms;
        let size = forms.len();
        let mut echelon = Rref::new(alloc, 2 * size);
        for place in 0..size {
            let row = beside(alloc, forms[place].as_slice(), size, place)?;
            match echelon.add_row(&row) {
                Ok(_) => {}
                Err(LinearError::Wide { .. }) => return Err(ArithmeticError::Wide),
                Err(LinearError::Memory) => return Err(ArithmeticError::Memory),
            }
        }
        Ok(echelon)
    }
}

/// A form with a row of the identity behind it.
fn beside(alloc: Global, form: &[Frac], size: usize, place: usize) -> Result<Vec<Frac>, AllocError>
    ensures { IfOk result (λ row. fractions_of row.items
        ≡ fractions_of form.now ++ unit_list size place) }
{
    let mut row = form.to_vec(alloc)?;
    for i in 0..size {
        row.push(of_identity(i, place))?;
    }
    Ok(row)
}

/// An entry of a row of the identity.
fn of_identity(i: usize, place: usize) -> Frac
    ensures { fraction_of result ≡ cond (eqb i place) ℚ.one ℚ.zero }
{
    if i == place {
        Frac::one()
    } else {
        Frac::zero()
    }
}
