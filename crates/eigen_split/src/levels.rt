//! The forms of one candidate, from the kernels of the powers of the matrix less it.
ghost use Rattle.std.specs.Prelude.{◌≡◌, ◌<◌, ◌≤◌, ◌+◌, All, length, IfOk, IfErr, OnOk};
ghost use Rattle.linear.specs.Rows.{fractions_of, rows_of};
ghost use Rattle.linear.specs.View.{IsWithRow};
ghost use Rattle.vectors.specs.Adding.{IsEchelonOf};
ghost use Rattle.eigen_split.specs.Ints.{ints_of, AllFit, most_rows};
ghost use Rattle.eigen_split.specs.Search.{AreAdded, IsTakenIf, AreFormsOf};
ghost use Rattle.eigen_split.specs.Refusal.{IsCandidate};
ghost use Rattle.eigen_split.specs.Parts.{next_rows, IsKernelOf, IsEchelonOfColumns, IfColumnPastOf, IfVectorPast, IfRowPast, IfPastIn};

use crate::EigenError;
use crate::multiple::WholeMultiple;
use crate::powers::{column, columns_of, product};
use frac128::{Frac, Whole};
use linear::{LinearError, Rref};
use std::alloc::{AllocError, Global};

/// A power of the matrix less a candidate: what is told where it is too wide.
#[derive(Clone, Copy)]
struct CandidatePower {
    candidate: i32,
    power: u32,
}

impl CandidatePower {
    /// The refusal of a row.
    fn wide(&self, row: u32) -> EigenError
        ensures { result ≡ EigenError.Wide self.now.candidate self.now.power row }
    {
        EigenError::Wide {
            candidate: self.candidate,
            power: self.power,
            row,
        }
    }
}

/// The kernel of the echelon list of a matrix's columns. `Wide` only where adding that column is past.
fn kernel(
    alloc: Global,
    rows: &Vec<Vec<Whole>>,
    place: &CandidatePower,
) -> Result<Vec<Vec<Frac>>, EigenError>
    requires few { length rows.now.items ≤ most_rows }
    requires widths { All (λ row. length row.items ≡ length rows.now.items) rows.now.items }
    ensures kernel { IfOk result (λ vectors. IsKernelOf rows.now.items (rows_of vectors.items)) }
    ensures refused { IfErr result
        (IfColumnPastOf rows.now.items place.now.candidate place.now.power) }
{
    let echelon = echelon_of(alloc, rows, place)?;
    Ok(echelon.kernel()?)
}

/// The echelon list of a matrix's columns. `Wide` only where adding that column is past.
fn echelon_of(
    alloc: Global,
    rows: &Vec<Vec<Whole>>,
    place: &CandidatePower,
) -> Result<Rref, EigenError>
    requires few { length rows.now.items ≤ most_rows }
    requires widths { All (λ row. length row.items ≡ length rows.now.items) rows.now.items }
    ensures echelon { IfOk result (IsEchelonOfColumns rows.now.items) }
    ensures refused { IfErr result
        (IfColumnPastOf rows.now.items place.now.candidate place.now.power) }
{
    let mut echelon = Rref::new(alloc, rows.len());
    for j in 0..rows.len() {
        let column = column(alloc, rows.as_slice(), j)?;
        match echelon.add_row(&column) {
            Ok(_) => {}
            Err(LinearError::Wide { .. }) => return Err(place.wide(j as u32 + 1)),
            Err(LinearError::Memory) => return Err(EigenError::Memory),
        }
    }
    Ok(echelon)
}

/// The forms of a candidate so far, and their echelon list.
#[derive(Drop)]
struct KnownForms {
    /// How many numbers a form has.
    size: usize,
    forms: Vec<Vec<Frac>>,
    echelon: Rref,
    ghost few: { size ≤ most_rows },
    ghost width: { echelon.width ≡ size },
}

impl KnownForms {
    /// The vectors that are no combination of the forms so far go behind these, one after another. `Wide` only where adding that vector is past.
    fn take_new(
        &mut self,
        vectors: &Vec<Vec<Frac>>,
        place: &CandidatePower,
    ) -> Result<(), EigenError>
        requires few { length vectors.now.items ≤ most_rows }
        requires widths { All (λ v. length v.items ≡ self.old.size) vectors.now.items }
        requires echelon { IsEchelonOf self.old.size (rows_of self.old.forms.items)
            self.old.echelon.rows }
        ensures size { self.new.size ≡ self.old.size }
        ensures taken { OnOk result (AreAdded (rows_of self.old.forms.items)
            (rows_of vectors.now.items) (rows_of self.new.forms.items)) }
        ensures echelon { OnOk result
            (IsEchelonOf self.old.size (rows_of self.new.forms.items) self.new.echelon.rows) }
        ensures refused { IfErr result (IfVectorPast self.old.size (rows_of self.old.forms.items)
            (rows_of vectors.now.items) place.now.candidate place.now.power) }
    {
        for j in 0..vectors.len() {
            let row = (self.size + j) as u32 + 1;
            if let Err(error) = self.take_one(&vectors[j], row, place) {
                return Err(error);
            }
        }
        Ok(())
    }

    /// The same for one vector.
    fn take_one(
        &mut self,
        vector: &Vec<Frac>,
        row: u32,
        place: &CandidatePower,
    ) -> Result<(), EigenError>
        requires { length vector.now.items ≡ self.old.size }
        ensures size { self.new.size ≡ self.old.size }
        ensures more { OnOk result
            (IsWithRow self.old.echelon (fractions_of vector.now.items) self.new.echelon) }
        ensures taken { OnOk result (IsTakenIf self.old.echelon.rows
            (fractions_of vector.now.items) (rows_of self.old.forms.items)
            (rows_of self.new.forms.items)) }
        ensures refused { IfErr result (IfRowPast self.old.echelon.rows
            (fractions_of vector.now.items) place.now.candidate place.now.power row) }
    {
        match self.echelon.add_row(vector) {
            Ok(true) => {
                let form = vector.as_slice().to_vec(*self.forms.allocator())?;
                self.forms.push(form)?;
                Ok(())
            }
            Ok(false) => Ok(()),
            Err(LinearError::Wide { .. }) => Err(place.wide(row)),
            Err(LinearError::Memory) => Err(EigenError::Memory),
        }
    }
}

/// The next power, and the first one at step 0.
fn next_power(
    alloc: Global,
    rows: Vec<Vec<Whole>>,
    columns: &Vec<Vec<Whole>>,
    step: usize,
) -> Result<Vec<Vec<Whole>>, AllocError>
    requires { 0 < step → AllFit rows.items columns.now.items }
    ensures { IfOk result (λ out.
        ints_of out.items ≡ next_rows step (ints_of columns.now.items) (ints_of rows.items)) }
{
    if step == 0 {
        return Ok(rows);
    }
    product(alloc, rows.as_slice(), columns.as_slice())
}

impl WholeMultiple<'_> {
    ghost use Rattle.eigen_split.specs.WholeMultiple.{rows_in, size_of};

    /// The forms of a candidate, which is told as a number too. `Wide` only where adding that column of that power is past, or, above the size, adding that vector of its kernel.
    pub(crate) fn forms_of(
        &self,
        alloc: Global,
        candidate: i32,
        number: &Whole,
    ) -> Result<Vec<Vec<Frac>>, EigenError>
        requires candidate { IsCandidate (size_of self.now) (rows_in self.now) number.now.value }
        requires number { number.now.value ≡ candidate }
        ensures forms { IfOk result (λ forms. AreFormsOf (size_of self.now) (rows_in self.now)
            number.now.value (rows_of forms.items)) }
        ensures refused { IfErr result (IfPastIn (size_of self.now) (rows_in self.now)) }
    {
        let size = self.matrix.len();
        let first = self.less_candidate(alloc, number)?;
        let columns = columns_of(alloc, &first)?;
        let mut power = first;
        let mut known = KnownForms {
            size,
            forms: Vec::new(alloc),
            echelon: Rref::new(alloc, size),
        };
        let mut grown = 0;
        for step in 0..size {
            let place = CandidatePower {
                candidate,
                power: step as u32 + 1,
            };
            power = next_power(alloc, power, &columns, step)?;
            let vectors = match kernel(alloc, &power, &place) {
                Ok(vectors) => vectors,
                Err(error) => return Err(error),
            };
            if vectors.len() == grown {
                return Ok(known.forms);
            }
            grown = vectors.len();
            if let Err(error) = known.take_new(&vectors, &place) {
                return Err(error);
            }
        }
        Ok(known.forms)
    }
}
