//! The limit of terms that the identities of the start, and those of each branch, multiply out to.
ghost use Rattle.std.specs.Prelude.{◌≤◌, ◌+◌, length, OnOk, IfErr};
ghost use Rattle.poly.specs.Seen.{terms_in, terms_each};
ghost use Rattle.cert_form.specs.Cert.{polys_in, rows_in};
ghost use Rattle.expansion.specs.Counts as counts;
ghost use Rattle.expansion.specs.Counts.{IsCount, most_terms};
ghost use Rattle.cert_checker.specs.Long.{start_terms, step_terms, total, IsFirstLong, IfLong};
ghost use Rattle.cert_checker.specs.Places.{at_start, in_branch};

use crate::identity::Step;
use crate::{CheckError, Place};
use expansion::{combination_terms, composition_terms, sum};
use frac128::Frac;
use monos::Grevlex;
use poly::Poly;

/// The terms before and those of the element composed with the start map, unless these are too many.
fn with_start(
    before: u64,
    element: &Poly<Frac, Grevlex>,
    images: &[Poly<Frac, Grevlex>],
) -> Option<u64>
    ensures { IsCount (before + counts.composition_terms (terms_in element.now)
        (terms_each images.now)) result }
{
    match composition_terms(element, images) {
        Some(terms) => sum(before, terms),
        None => None,
    }
}

/// The terms before, those of the element composed with a branch's map, and those of its combination, unless these are too many.
fn with_step(
    before: u64,
    element: &Poly<Frac, Grevlex>,
    images: &[Poly<Frac, Grevlex>],
    cofactors: &[Poly<Frac, Grevlex>],
    basis: &[Poly<Frac, Grevlex>],
) -> Option<u64>
    ensures { IsCount (before + (counts.composition_terms (terms_in element.now)
        (terms_each images.now) + counts.combination_terms (terms_each cofactors.now)
        (terms_each basis.now))) result }
{
    let Some(composed) = composition_terms(element, images) else {
        return None;
    };
    let Some(combined) = combination_terms(cofactors, basis) else {
        return None;
    };
    match sum(composed, combined) {
        Some(terms) => sum(before, terms),
        None => None,
    }
}

/// Refuses the first element up to which the identities of the start multiply out to too many terms.
pub(crate) fn test_start(
    basis: &Vec<Poly<Frac, Grevlex>>,
    images: &Vec<Poly<Frac, Grevlex>>,
) -> Result<(), CheckError>
    ensures few { let f = start_terms (polys_in basis.now) (polys_in images.now) in
        OnOk result (total f (length basis.now.items) ≤ most_terms) }
    ensures limit { let f = start_terms (polys_in basis.now) (polys_in images.now) in
        IfErr result (λ e. IfLong e at_start (IsFirstLong f (length basis.now.items))) }
{
    let mut before = 0;
    for (i, element) in basis.iter().enumerate() {
        match with_start(before, element, images) {
            Some(terms) => before = terms,
            None => return Err(CheckError::Limit {
                place: Place::Start,
                element: i,
            }),
        }
    }
    Ok(())
}

impl Step<'_> {
    /// Refuses the first element up to which the identities multiply out to too many terms.
    pub(crate) fn test(&self) -> Result<(), CheckError>
        ensures few { let f = step_terms (polys_in self.now.basis.now)
            (polys_in self.now.images.now) (rows_in self.now.rows.now) in
            OnOk result (total f (length self.now.basis.now.items) ≤ most_terms) }
        ensures limit { let f = step_terms (polys_in self.now.basis.now)
            (polys_in self.now.images.now) (rows_in self.now.rows.now) in
            IfErr result (λ e. IfLong e (in_branch self.now.branch)
            (IsFirstLong f (length self.now.basis.now.items))) }
    {
        let mut before = 0;
        for (i, element) in self.basis.iter().enumerate() {
            match with_step(before, element, self.images, &self.rows[i], self.basis) {
                Some(terms) => before = terms,
                None => return Err(CheckError::Limit {
                    place: Place::Branch(self.branch),
                    element: i,
                }),
            }
        }
        Ok(())
    }
}
