//! A polynomial modulo 65,521 of which the matrix is a root: where it is not zero at a candidate, that is no eigenvalue.
ghost use Rattle.std.specs.Prelude.{◌≡◌, ◌≢◌, ◌<◌, All, length, map, cond, pos, IfOk, IsTrue};
ghost use Rattle.algebra.specs.Integers.{integer_in, natural_in};
ghost use Rattle.gf65521.specs.GfMeaning.{residue_of};
ghost use Rattle.vectors.specs.Causes.{numbers_to};
ghost use Rattle.eigen_split.specs.Residues.{GF, gfs, gf_rows, dot_in, trace_in, next_entry, next_in, zeros, value_in, residue_at, residue_columns, IsNone, IsAnnihilating};

use crate::multiple::WholeMultiple;
use gf65521::Gf;
use ring_laws::{Field, Ring};
use std::alloc::{AllocError, Global};

impl WholeMultiple<'_> {
    ghost use Rattle.eigen_split.specs.WholeMultiple.{rows_in, size_of};

    /// The coefficients, from the leading one on, of a polynomial modulo the prime of which it is a root.
    /// It is the characteristic one, by Faddeev's method (Gantmacher, "The Theory of Matrices", chapter IV, section 5), or zero, should its last matrix not be zero.
    pub(crate) fn annihilator(&self, alloc: Global) -> Result<Vec<Gf>, AllocError>
        ensures { IfOk result (λ found. IsAnnihilating (size_of self.now) self.now.denominator
            (rows_in self.now) (gfs found.items)) }
    {
        let columns = self.residue_columns(alloc)?;
        let mut rows = zero_rows(alloc, self.matrix.len())?;
        let mut coefficients = Vec::new(alloc);
        for degree in 0..self.matrix.len() + 1 {
            let coefficient = coefficient(rows.as_slice(), columns.as_slice(), degree);
            rows = next_rows(alloc, &rows, &columns, &coefficient)?;
            coefficients.push(coefficient)?;
        }
        if are_zero(rows.as_slice()) {
            Ok(coefficients)
        } else {
            Ok(Vec::new(alloc))
        }
    }

    /// Its columns, modulo the prime.
    fn residue_columns(&self, alloc: Global) -> Result<Vec<Vec<Gf>>, AllocError>
        ensures { IfOk result (λ out. gf_rows out.items
            ≡ residue_columns (size_of self.now) self.now.denominator (rows_in self.now)) }
    {
        let mut out = Vec::new(alloc);
        for j in 0..self.matrix.len() {
            out.push(self.residue_column(alloc, j)?)?;
        }
        Ok(out)
    }

    /// A column of it, modulo the prime.
    fn residue_column(&self, alloc: Global, j: usize) -> Result<Vec<Gf>, AllocError>
        requires { j < size_of self.now }
        ensures { IfOk result (λ out. gfs out.items
            ≡ map (λ i. residue_at self.now.denominator (rows_in self.now) i j)
            (numbers_to (size_of self.now))) }
    {
        let mut out = Vec::new(alloc);
        for i in 0..self.matrix.len() {
            out.push(residue(self.entry(i, j).value()))?;
        }
        Ok(out)
    }
}

/// Whether the polynomial is not zero at the candidate.
pub(crate) fn is_excluded(polynomial: &[Gf], candidate: i32) -> bool
    ensures { IsTrue result
        → value_in GF (integer_in GF candidate) GF.zero (gfs polynomial.now) ≢ GF.zero }
{
    let at = residue(i128::from(candidate));
    !value(polynomial, &at, &Gf::zero()).is_zero()
}

/// The polynomial's value at a number, after these terms: Horner's scheme.
fn value(polynomial: &[Gf], at: &Gf, before: &Gf) -> Gf
    ensures { residue_of result
        ≡ value_in GF (residue_of at.now) (residue_of before.now) (gfs polynomial.now) }
{
    let Some((first, rest)) = polynomial.split_first() else {
        return *before;
    };
    value(rest, at, &sum(&product(before, at), first))
}

/// So many rows of as many zeros.
fn zero_rows(alloc: Global, size: usize) -> Result<Vec<Vec<Gf>>, AllocError>
    ensures { IfOk result (λ out. gf_rows out.items ≡ zeros GF size) }
{
    let mut out = Vec::new(alloc);
    for i in 0..size {
        out.push(zero_row(alloc, size)?)?;
    }
    Ok(out)
}

/// So many zeros.
fn zero_row(alloc: Global, size: usize) -> Result<Vec<Gf>, AllocError>
    ensures { IfOk result (λ out. gfs out.items ≡ map (λ j. GF.zero) (numbers_to size)) }
{
    let mut out = Vec::new(alloc);
    for j in 0..size {
        out.push(Gf::zero())?;
    }
    Ok(out)
}

/// The rows times the matrix of these columns, and the coefficient on the diagonal more.
fn next_rows(
    alloc: Global,
    rows: &Vec<Vec<Gf>>,
    columns: &Vec<Vec<Gf>>,
    coefficient: &Gf,
) -> Result<Vec<Vec<Gf>>, AllocError>
    requires { length rows.now.items ≡ length columns.now.items }
    ensures { IfOk result (λ out. gf_rows out.items
        ≡ next_in GF (length columns.now.items) (gf_rows columns.now.items)
        (residue_of coefficient.now) (gf_rows rows.now.items)) }
{
    let mut out = Vec::new(alloc);
    for i in 0..columns.len() {
        out.push(next_row(alloc, rows[i].as_slice(), columns, coefficient, i)?)?;
    }
    Ok(out)
}

/// The same for the row at place i.
fn next_row(
    alloc: Global,
    row: &[Gf],
    columns: &Vec<Vec<Gf>>,
    coefficient: &Gf,
    i: usize,
) -> Result<Vec<Gf>, AllocError>
    ensures { IfOk result (λ out. gfs out.items
        ≡ map (λ j. next_entry GF (gf_rows columns.now.items) (residue_of coefficient.now)
        (gfs row.now) i j) (numbers_to (length columns.now.items))) }
{
    let mut out = Vec::new(alloc);
    for j in 0..columns.len() {
        let product = dot(row, columns[j].as_slice());
        out.push(sum(&product, &on_diagonal(coefficient, i == j)))?;
    }
    Ok(out)
}

/// The coefficient on the diagonal, and elsewhere zero.
fn on_diagonal(coefficient: &Gf, is_there: bool) -> Gf
    ensures { residue_of result ≡ cond is_there (residue_of coefficient.now) GF.zero }
{
    if is_there { *coefficient } else { Gf::zero() }
}

/// The coefficient of the next lower degree: one at first, then the opposite of the trace of the rows times the matrix, over the number of those before it.
fn coefficient(rows: &[Vec<Gf>], columns: &[Vec<Gf>], before: usize) -> Gf
    ensures first { before ≡ 0 → residue_of result ≡ GF.one }
    ensures others { 0 < before → integer_in GF (pos before) ≢ GF.zero
        → GF.mul (residue_of result) (integer_in GF (pos before))
        ≡ GF.neg (trace_in GF (gf_rows rows.now) (gf_rows columns.now)) }
{
    if before == 0 {
        return Gf::one();
    }
    let trace = trace(rows, columns);
    quotient(&opposite(&trace), &residue(before as i128))
}

/// The trace of the rows times the matrix of these columns.
fn trace(rows: &[Vec<Gf>], columns: &[Vec<Gf>]) -> Gf
    ensures { residue_of result ≡ trace_in GF (gf_rows rows.now) (gf_rows columns.now) }
{
    let (Some((row, rows)), Some((column, columns))) = (rows.split_first(), columns.split_first())
    else {
        return Gf::zero();
    };
    sum(
        &dot(row.as_slice(), column.as_slice()),
        &trace(rows, columns),
    )
}

/// Whether each number is zero.
fn are_zero(rows: &[Vec<Gf>]) -> bool
    ensures { IsTrue result → All (λ row. All IsNone row.items) rows.now }
{
    for row in rows {
        if !is_zero(row.as_slice()) {
            return false;
        }
    }
    true
}

/// Whether each number of a row is zero.
fn is_zero(row: &[Gf]) -> bool
    ensures { IsTrue result → All IsNone row.now }
{
    for number in row {
        if !is_none(number) {
            return false;
        }
    }
    true
}

/// Whether the number is zero.
fn is_none(number: &Gf) -> bool
    ensures { IsTrue result → IsNone number.now }
{
    number.is_zero()
}

/// The sum of the products.
fn dot(left: &[Gf], right: &[Gf]) -> Gf
    ensures { residue_of result ≡ dot_in GF (gfs left.now) (gfs right.now) }
{
    let (Some((first, left)), Some((second, right))) = (left.split_first(), right.split_first())
    else {
        return Gf::zero();
    };
    sum(&product(first, second), &dot(left, right))
}

/// The sum, which always fits.
#[tactic(auto, using(gf65521::proofs::GfResults::sum_at))]
fn sum(left: &Gf, right: &Gf) -> Gf
    ensures { residue_of result ≡ GF.add (residue_of left.now) (residue_of right.now) }
{
    match left.add(right) {
        Ok(sum) => sum,
        Err(_) => unreachable!(),
    }
}

/// The product, which always fits.
#[tactic(auto, using(gf65521::proofs::GfResults::product_at))]
fn product(left: &Gf, right: &Gf) -> Gf
    ensures { residue_of result ≡ GF.mul (residue_of left.now) (residue_of right.now) }
{
    match left.mul(right) {
        Ok(product) => product,
        Err(_) => unreachable!(),
    }
}

/// The opposite.
#[tactic(auto, using(gf65521::proofs::GfResults::opposite_at))]
fn opposite(number: &Gf) -> Gf
    ensures { residue_of result ≡ GF.neg (residue_of number.now) }
{
    number.neg()
}

/// The quotient by a number that is not zero.
#[tactic(auto, using(gf65521::proofs::GfResults::quotient_at))]
fn quotient(left: &Gf, right: &Gf) -> Gf
    ensures { residue_of right.now ≢ GF.zero
        → GF.mul (residue_of result) (residue_of right.now) ≡ residue_of left.now }
{
    if right.is_zero() {
        return Gf::zero();
    }
    match left.div(right) {
        Ok(quotient) => quotient,
        Err(_) => unreachable!(),
    }
}

/// What a whole number leaves.
fn residue(number: i128) -> Gf
    ensures { residue_of result ≡ integer_in GF number }
{
    let size = size_residue(number.unsigned_abs());
    if number < 0 { opposite(&size) } else { size }
}

/// What a natural number leaves.
fn size_residue(number: u128) -> Gf
    ensures { residue_of result ≡ natural_in GF number }
{
    match Gf::new((number % 65521) as u16) {
        Some(rest) => rest,
        None => unreachable!(),
    }
}
