//! The limit of terms that the parts behind the certificate itself multiply out to, together.
ghost use Rattle.std.specs.Prelude.{◌≤◌, ◌<◌, ◌+◌, ℕ, List, [], length, get_or, IfOk, IfErr};
ghost use Rattle.std.specs.Option.{MatchOption};
ghost use Rattle.algebra.specs.Fraction.{Fraction};
ghost use Rattle.polynomials.specs.Terms.{Terms};
ghost use Rattle.poly.specs.Seen.{terms_each};
ghost use Rattle.expansion.specs.Counts as counts;
ghost use Rattle.expansion.specs.Counts.{IsCount, most_terms};
ghost use Rattle.expansion.specs.Lengths as lengths;
ghost use Rattle.corollaries.specs.Counts.{IsStageCounted};
ghost use Rattle.corollaries.specs.Parts.{in_forms};
ghost use Rattle.corollaries.specs.Stage.{below, places};
ghost use Rattle.task_lists.specs.Rows.{rows_of};
ghost use Rattle.task_lists.specs.View.{stage_in};
ghost use Rattle.cert_checker.specs.FullJudge.{program_by, cert_by, IsFullJudge, terms_by, branch_by, round_by, rounds_by, further_by};
ghost use Rattle.cert_checker.specs.LongParts.{IsTotal, IsFirstBeyond, row_terms, place_terms, AreFew};
ghost use Rattle.cert_checker.specs.Parts.{part_of, place_of};

use crate::full_judge::FullJudge;
use crate::full_part::{Kind, Part, Row, RowPlace};
use expansion::{combination_terms, composition_length, list_length, next_lengths, sum};
use frac128::Frac;
use monos::{Grevlex, Order};
use poly::Poly;
use task_lists::FullStage;

/// The terms before, and those of a form that has these polynomials, of the map with these images, unless these are too many.
fn with_form(
    before: u64,
    images: &[Poly<Frac, Grevlex>],
    polys: &[Poly<Frac, Grevlex>],
) -> Option<u64>
    ensures { let form = terms_each polys.now in
        IsCount (before + (lengths.list_length (terms_each images.now) form
        + lengths.next_lengths form)) result }
{
    let Some(composed) = list_length(images, polys) else {
        return None;
    };
    let Some(next) = next_lengths(polys) else {
        return None;
    };
    match sum(composed, next) {
        Some(terms) => sum(before, terms),
        None => None,
    }
}

/// The terms before, those of the polynomial at this place of the list with the images for its variables, none where the list ends before, and
/// those of the combination of the cofactors with the elements, unless these are too many.
fn with_row<O: Order>(
    before: u64,
    list: &[Poly<Frac, Grevlex>],
    place: usize,
    images: &[Poly<Frac, Grevlex>],
    cofactors: &[Poly<Frac, O>],
    elements: &[Poly<Frac, O>],
) -> Option<u64>
    ensures { IsCount (before + (lengths.composition_length (get_or (terms_each list.now) place [])
        (terms_each images.now) + counts.combination_terms (terms_each cofactors.now)
        (terms_each elements.now))) result }
{
    let composed = if place < list.len() {
        composition_length(&list[place], images)
    } else {
        Some(0)
    };
    let Some(composed) = composed else {
        return None;
    };
    let Some(combined) = combination_terms(cofactors, elements) else {
        return None;
    };
    match sum(composed, combined) {
        Some(terms) => sum(before, terms),
        None => None,
    }
}

/// The terms before, and those of the rows with the polynomials at their places of the list; or the first row with which these are too many.
fn count_rows<O: Order>(
    before: u64,
    list: &[Poly<Frac, Grevlex>],
    images: &[Poly<Frac, Grevlex>],
    rows: &Vec<Vec<Poly<Frac, O>>>,
    elements: &Vec<Poly<Frac, O>>,
) -> Result<u64, usize>
    requires few { before ≤ most_terms }
    ensures total { let rs = rows_of rows.now.items in IfOk result
        (IsTotal (row_terms (terms_each list.now) (terms_each images.now) rs
        (terms_each elements.now.items)) before (below (length rs))) }
    ensures beyond { let rs = rows_of rows.now.items in IfErr result
        (IsFirstBeyond (row_terms (terms_each list.now) (terms_each images.now) rs
        (terms_each elements.now.items)) before (below (length rs))) }
{
    let mut terms = before;
    for (i, row) in rows.iter().enumerate() {
        match with_row(terms, list, i, images, row, elements) {
            Some(more) => terms = more,
            None => return Err(i),
        }
    }
    Ok(terms)
}

/// The terms before, and those of the stage, which begins with the list with the images for its variables; or the first place with which
/// these are too many.
fn count_stage(
    before: u64,
    list: &[Poly<Frac, Grevlex>],
    images: &[Poly<Frac, Grevlex>],
    stage: &FullStage,
) -> Result<u64, RowPlace>
    requires few { before ≤ most_terms }
    ensures total { let s = stage_in stage.now in IfOk result (λ terms.
        (k : ℕ) (hs : List (Terms Fraction)) → IsStageCounted k (length hs) s
        → IsTotal (place_terms (terms_each list.now) (terms_each images.now) s) before
        (places k hs s) terms) }
    ensures beyond { let s = stage_in stage.now in IfErr result (λ place.
        (k : ℕ) (hs : List (Terms Fraction)) → IsStageCounted k (length hs) s
        → IsFirstBeyond (place_terms (terms_each list.now) (terms_each images.now) s) before
        (places k hs s) (place_of place)) }
{
    let gens = match count_rows(before, list, images, &stage.gens, &stage.list) {
        Ok(terms) => terms,
        Err(index) => {
            return Err(RowPlace {
                row: Row::Gens,
                index,
            });
        }
    };
    let pairs = match count_rows(gens, &[], &[], &stage.pairs, &stage.list) {
        Ok(terms) => terms,
        Err(index) => {
            return Err(RowPlace {
                row: Row::Pairs,
                index,
            });
        }
    };
    match count_rows(pairs, &[], &[], &stage.links, &stage.out) {
        Ok(terms) => Ok(terms),
        Err(index) => Err(RowPlace {
            row: Row::Links,
            index,
        }),
    }
}

impl FullJudge<'_> {
    /// The first part behind the certificate itself with which those behind it multiply out to too many terms.
    pub(crate) fn first_long_part(&self) -> Option<Part>
        requires judge { IsFullJudge self.now }
        ensures { MatchOption result (AreFew (program_by self.now) (cert_by self.now))
            (λ part. IsFirstBeyond (terms_by self.now) 0 (further_by self.now) (part_of part)) }
    {
        let forms = match self.count_forms() {
            Ok(terms) => terms,
            Err(branch) => return Some(Part::Form(branch)),
        };
        let start = &self.cert.start;
        let starts = match count_rows(forms, &[], &[], &start.links, &start.out) {
            Ok(terms) => terms,
            Err(equation) => return Some(Part::Start(equation)),
        };
        match self.count_rounds(starts) {
            Ok(_) => None,
            Err(part) => Some(part),
        }
    }

    /// The terms of the forms of the branches; or the first branch with which these are too many.
    fn count_forms(&self) -> Result<u64, usize>
        requires judge { IsFullJudge self.now }
        ensures total { let j = self.now in IfOk result
            (IsTotal (λ b. terms_by j (in_forms b)) 0 (below (length (program_by j).branches))) }
        ensures beyond { let j = self.now in IfErr result (IsFirstBeyond
            (λ b. terms_by j (in_forms b)) 0 (below (length (program_by j).branches))) }
    {
        let mut terms = 0;
        for (branch, images) in self.maps.iter().enumerate() {
            match with_form(terms, images, &self.cert.forms[branch].polys) {
                Some(more) => terms = more,
                None => return Err(branch),
            }
        }
        Ok(terms)
    }

    /// The terms before, and those of the stages of this branch; or the first part with which these are too many.
    fn count_branch(&self, before: u64, round: usize, branch: usize) -> Result<u64, Part>
        requires judge { IsFullJudge self.now }
        requires few { before ≤ most_terms }
        requires round { round < length (cert_by self.now).rounds }
        requires branch { branch < length (program_by self.now).branches }
        ensures total { IfOk result
            (IsTotal (terms_by self.now) before (branch_by self.now round branch)) }
        ensures beyond { IfErr result (λ part. IsFirstBeyond (terms_by self.now) before
            (branch_by self.now round branch) (part_of part)) }
    {
        let (list, polys) = (self.list_before(round), &self.cert.forms[branch].polys);
        let stages = &self.cert.rounds[round][branch];
        let orbit = match count_stage(before, list, polys, &stages.orbit) {
            Ok(terms) => terms,
            Err(place) => return Err(Part::Stage(round, branch, Kind::Orbit, place)),
        };
        let Some(meet) = &stages.meet else {
            return Ok(orbit);
        };
        match count_stage(orbit, &[], &[], meet) {
            Ok(terms) => Ok(terms),
            Err(place) => Err(Part::Stage(round, branch, Kind::Meet, place)),
        }
    }

    /// The terms before, and those of the stages of this round; or the first part with which these are too many.
    fn count_round(&self, before: u64, round: usize) -> Result<u64, Part>
        requires judge { IsFullJudge self.now }
        requires few { before ≤ most_terms }
        requires round { round < length (cert_by self.now).rounds }
        ensures total { IfOk result (IsTotal (terms_by self.now) before (round_by self.now round)) }
        ensures beyond { IfErr result (λ part.
            IsFirstBeyond (terms_by self.now) before (round_by self.now round) (part_of part)) }
    {
        let mut terms = before;
        for branch in 0..self.lp.branches().len() {
            match self.count_branch(terms, round, branch) {
                Ok(more) => terms = more,
                Err(part) => return Err(part),
            }
        }
        Ok(terms)
    }

    /// The terms before, and those of the stages of all rounds; or the first part with which these are too many.
    fn count_rounds(&self, before: u64) -> Result<u64, Part>
        requires judge { IsFullJudge self.now }
        requires few { before ≤ most_terms }
        ensures total { IfOk result (IsTotal (terms_by self.now) before (rounds_by self.now)) }
        ensures beyond { IfErr result (λ part.
            IsFirstBeyond (terms_by self.now) before (rounds_by self.now) (part_of part)) }
    {
        let mut terms = before;
        for round in 0..self.cert.rounds.len() {
            match self.count_round(terms, round) {
                Ok(more) => terms = more,
                Err(part) => return Err(part),
            }
        }
        Ok(terms)
    }
}
