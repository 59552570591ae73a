//! The search among the candidates.
ghost use Rattle.std.specs.Prelude.{◌≡◌, ◌<◌, ◌≤◌, ◌+◌, ◌*◌, ◌+ℤ◌, neg_ℤ, ◌++◌, pos, IfOk, IfErr, OnOk, unsigned_abs};
ghost use Rattle.algebra.specs.Fraction.{over};
ghost use Rattle.algebra.specs.Limits.{number_limit};
ghost use Rattle.frac128.specs.FracMeaning.{fraction_of};
ghost use Rattle.linear.specs.Rows.{fractions_of, rows_of};
ghost use Rattle.vectors.specs.Matrices.{greatest_sum};
ghost use Rattle.eigen_split.specs.Ints.{most_sum};
ghost use Rattle.eigen_split.specs.Search.{AreOthers, IsIteration, IsWholeSearch, copies};
ghost use Rattle.eigen_split.specs.Parts.{found_of, IfPastIn};
ghost use Rattle.eigen_split.specs.Refusal.{IsCandidate};
ghost use Rattle.eigen_split.specs.Residues.{gfs, IsAnnihilating};

use crate::annihilator::is_excluded;
use crate::multiple::WholeMultiple;
use crate::{EigenError, Split};
use frac128::{Frac, Whole};
use gf65521::Gf;
use ring_laws::Ring;
use std::alloc::{AllocError, Global};

impl WholeMultiple<'_> {
    ghost use Rattle.eigen_split.specs.WholeMultiple.{rows_in, size_of};

    /// The forms of all candidates from -`bound` to `bound` but 0, in ascending order, and behind them those of 0, where they are fewer than the rows.
    pub(crate) fn search(&self, alloc: Global, bound: u32) -> Result<Split, EigenError>
        requires { bound ≡ greatest_sum (size_of self.now) (rows_in self.now) }
        ensures searched { IfOk result (λ found.
            IsWholeSearch (size_of self.now) (rows_in self.now) bound (found_of found)) }
        ensures refused { IfErr result (IfPastIn (size_of self.now) (rows_in self.now)) }
    {
        let polynomial = self.annihilator(alloc)?;
        let polynomial = polynomial.as_slice();
        let mut found = match self.others(alloc, polynomial, bound) {
            Ok(found) => found,
            Err(error) => return Err(error),
        };
        if found.forms.len() >= self.matrix.len() {
            return Ok(found);
        }
        match self.iteration(alloc, polynomial, 0, &mut found) {
            Ok(()) => Ok(found),
            Err(error) => Err(error),
        }
    }

    /// The forms of the candidates other than 0.
    fn others(&self, alloc: Global, polynomial: &[Gf], bound: u32) -> Result<Split, EigenError>
        requires bound { bound ≡ greatest_sum (size_of self.now) (rows_in self.now) }
        requires annihilating { IsAnnihilating (size_of self.now) self.now.denominator
            (rows_in self.now) (gfs polynomial.now) }
        ensures others { IfOk result (λ found.
            AreOthers (size_of self.now) (rows_in self.now) bound (found_of found)) }
        ensures refused { IfErr result (IfPastIn (size_of self.now) (rows_in self.now)) }
    {
        let mut found = Split {
            forms: Vec::new(alloc),
            values: Vec::new(alloc),
        };
        for step in 0..2 * bound + 1 {
            let candidate = candidate_at(step, bound);
            if candidate != 0 {
                if let Err(error) = self.iteration(alloc, polynomial, candidate, &mut found) {
                    return Err(error);
                }
            }
        }
        Ok(found)
    }

    /// The forms of one candidate, unless it is no eigenvalue.
    fn iteration(
        &self,
        alloc: Global,
        polynomial: &[Gf],
        candidate: i32,
        found: &mut Split,
    ) -> Result<(), EigenError>
        requires annihilating { IsAnnihilating (size_of self.now) self.now.denominator
            (rows_in self.now) (gfs polynomial.now) }
        requires candidate { IsCandidate (size_of self.now) (rows_in self.now) candidate }
        ensures iteration { OnOk result (IsIteration (size_of self.now) (rows_in self.now)
            candidate (found_of found.old) (found_of found.new)) }
        ensures refused { IfErr result (IfPastIn (size_of self.now) (rows_in self.now)) }
    {
        if is_excluded(polynomial, candidate) {
            return Ok(());
        }
        let number = number_of(candidate);
        let forms = match self.forms_of(alloc, candidate, &number) {
            Ok(forms) => forms,
            Err(error) => return Err(error),
        };
        let value = value_of(candidate, self.denominator);
        repeat(&mut found.values, forms.len(), &value)?;
        join(&mut found.forms, forms)?;
        Ok(())
    }
}

/// The candidate of a step.
fn candidate_at(step: u32, bound: u32) -> i32
    requires bound { bound ≤ most_sum }
    requires step { step < 2 * bound + 1 }
    ensures { result ≡ pos step +ℤ neg_ℤ (pos bound) }
{
    step as i32 - bound as i32
}

/// The candidate as a number.
fn number_of(candidate: i32) -> Whole
    requires { unsigned_abs candidate ≤ most_sum }
    ensures { result.value ≡ candidate }
{
    Whole::new(i128::from(candidate)).unwrap()
}

/// The value goes behind the others so many times.
fn repeat(values: &mut Vec<Frac>, count: usize, value: &Frac) -> Result<(), AllocError>
    ensures { OnOk result (fractions_of values.new.items
        ≡ fractions_of values.old.items ++ copies count (fraction_of value.now)) }
{
    for i in 0..count {
        values.push(*value)?;
    }
    Ok(())
}

/// The forms go behind the others.
fn join(forms: &mut Vec<Vec<Frac>>, mut more: Vec<Vec<Frac>>) -> Result<(), AllocError>
    ensures { OnOk result
        (rows_of forms.new.items ≡ rows_of forms.old.items ++ rows_of more.items) }
{
    forms.append(&mut more)?;
    Ok(())
}

/// The candidate over the denominator.
fn value_of(candidate: i32, denominator: u128) -> Frac
    requires candidate { unsigned_abs candidate ≤ most_sum }
    requires some { 0 < denominator }
    requires small { denominator < number_limit }
    ensures { fraction_of result ≡ over candidate denominator }
{
    match Frac::new(i128::from(candidate), denominator as i128) {
        Ok(value) => value,
        Err(_) => unreachable!(),
    }
}
