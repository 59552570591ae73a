//! The search: what the samples leave is closed, and a word that counters it gives another row.
ghost use Rattle.std.specs.Prelude.{◌≡◌, ◌↔◌, ◌<◌, ◌≤◌, ◌+◌, ◌++◌, ◌⊎◌, ℕ, List, [], length, IfOk, IfErr, IsErrOf, OnOk, OnErr};
ghost use Rattle.machines.specs.Journal.{units_of};
ghost use Rattle.journal.specs.View.{Exceeds, entry_of, with_entry};
ghost use Rattle.loops.specs.Inv.{Inv};
ghost use Rattle.poly.specs.Seen.{terms_each};
ghost use Rattle.loop_model.specs.View.{program_of};
ghost use Rattle.closures.specs.UpTo.{IsReducedUpTo};
ghost use Rattle.ideal_ops.specs.Calls.{AreOver};
ghost use Rattle.closing.specs.SearchCauses.{AreBegun};
ghost use Rattle.closing.specs.Closings.{IsOn, IfClosed, refusal_of as told_refusal};
ghost use Rattle.closing.specs.Found.{FindsFirst, FitsFinding, IfSearchStops, IsPartOf};
ghost use Rattle.residue_rows.specs.Limits.{most_monomials};
ghost use Rattle.closing.specs.LoopMaps.{program_in, arity_in};
ghost use Rattle.closing.specs.Sampling.{IsAt, IsEnough, IfSampled};
ghost use Rattle.closing.specs.Search.{Part, entries_of, GoesOn, monomials, HasLeft};

use crate::modular_maps::residue_maps;
use crate::sampling::Sampling;
use crate::{ClosingError, Counter, LoopMaps, SearchError, Verdict};
use frac128::Frac;
use journal::{Entry, Meter, MeterError};
use loop_model::Loop;
use monos::Grevlex;
use poly::Poly;
use residue_rows::Draws;
use residue_rows::echelon::Echelon;
use residue_rows::elements::{ElementsError, elements_of};
use residue_rows::monomials::monomials_up_to;
use std::alloc::{AllocError, Global};

/// What a search has found.
#[derive(Drop)]
pub struct Finding {
    /// The elements of degree at most the search's of the reduced basis of all invariants.
    pub elements: Vec<Poly<Frac, Grevlex>>,
    /// The reduced basis of their closure.
    pub closure: Vec<Poly<Frac, Grevlex>>,
    /// The meter of the closing that has ended with it, whose entries aren't yet in the meter of the search.
    pub closing: Meter,
}

/// What follows a closing.
#[derive(Drop)]
enum Sequel {
    Found(Finding),
    /// With another row the search goes on.
    On(Sampling),
}

impl LoopMaps<'_> {
    /// Finds the elements of degree at most `degree` of the reduced basis of all invariants of the loop, whatever its branches.
    ///
    /// The entries that are made are those of the search, up to the closing that ends it or to the refusal (docs/DEFINITIONS.md).
    pub fn search(
        &self,
        alloc: Global,
        degree: u16,
        meter: &mut Meter,
    ) -> Result<Finding, SearchError>
        requires unbegun { meter.old.entries ≡ [] }
        ensures limit { meter.new.limit ≡ meter.old.limit }
        ensures finds { IfOk result (FindsFirst (program_in self.now) degree meter.new.entries) }
        ensures fits { IfOk result (FitsFinding (arity_in self.now) meter.new) }
        ensures reduced { IfOk result (λ f. IsReducedUpTo (arity_in self.now) degree
            (terms_each f.elements.items) (Inv (program_in self.now))) }
        ensures stopped { IfErr result (IfSearchStops (program_in self.now) degree meter.new.limit
            meter.new.entries) }
        ensures begun { IfErr result
            (λ _. AreBegun (program_in self.now) degree meter.new.entries) }
        ensures many { most_monomials < length (monomials (program_in self.now) degree)
            → IsErrOf result SearchError.Degree ⊎ IsErrOf result SearchError.Memory }
    {
        let mut sampling = self.begin(alloc, degree)?;
        loop {
            meter.within_limit();
            sampling = sampling.fill(alloc, self.lp, meter)?;
            match self.close_elements(alloc, sampling, meter)? {
                Sequel::Found(finding) => return Ok(finding),
                Sequel::On(more) => sampling = more,
            }
        }
    }

    /// A search with no samples.
    fn begin(&self, alloc: Global, degree: u16) -> Result<Sampling, SearchError>
        ensures begins { (limit : ℕ) → IfSampled (program_in self.now) degree limit [] result }
        ensures many { most_monomials < length (monomials (program_in self.now) degree)
            → IsErrOf result SearchError.Degree ⊎ IsErrOf result SearchError.Memory }
    {
        let Some(monomials) = monomials_up_to(alloc, self.lp.names().len(), degree)? else {
            return Err(SearchError::Degree);
        };
        let Some(maps) = residue_maps(alloc, self.lp, self.maps)? else {
            return Err(SearchError::Sample);
        };
        let echelon = Echelon::new(alloc, monomials.len());
        Ok(Sampling {
            monomials,
            maps,
            draws: Draws::new(),
            echelon,
            counted: 0,
            taken: 0,
            idle: 0,
        })
    }

    /// Closes the elements that the rows leave.
    fn close_elements(
        &self,
        alloc: Global,
        sampling: Sampling,
        meter: &mut Meter,
    ) -> Result<Sequel, SearchError>
        requires enough { (d : ℕ) × IsEnough (program_in self.now) d meter.old.entries sampling }
        ensures limit { meter.new.limit ≡ meter.old.limit }
        ensures units { IfOk result (λ s. IsOn s
            → units_of meter.old.entries < units_of meter.new.entries) }
        ensures sequel { (d : ℕ) → IsEnough (program_in self.now) d meter.old.entries sampling
            → IfClosed (program_in self.now) d meter.new result }
    {
        let elements = sampling.elements_left(alloc, self.lp)?;
        let mut closing = Meter::new(alloc);
        meter.within_limit();
        closing.open(meter.left());
        let verdict = self.close(alloc, &elements, &mut closing);
        closing.within_limit();
        match verdict {
            Ok(Verdict::Basis(closure)) => Ok(Sequel::Found(Finding {
                elements,
                closure,
                closing,
            })),
            Ok(Verdict::Counter(counter)) => {
                append(meter, &closing)?;
                match sampling.refute(alloc, self.lp, &counter.candidate.word)? {
                    Some(more) => Ok(Sequel::On(more)),
                    None => Err(SearchError::Sample),
                }
            }
            Err(error) => {
                append(meter, &closing)?;
                Err(refusal_of(error))
            }
        }
    }
}

impl Sampling {
    /// The elements that the rows leave.
    fn elements_left(
        &self,
        alloc: Global,
        lp: &Loop,
    ) -> Result<Vec<Poly<Frac, Grevlex>>, SearchError>
        requires at { (d : ℕ) × (ps : List Part) × IsAt (program_of lp.now) d ps self.now }
        ensures over { IfOk result (λ gs. AreOver (length (program_of lp.now).names) gs.items) }
        ensures few { IfOk result (λ gs. length gs.items ≤ most_monomials) }
        ensures left { (d : ℕ) (ps : List Part) → IsAt (program_of lp.now) d ps self.now
            → IfOk result (λ gs. HasLeft (program_of lp.now) d ps (terms_each gs.items)) }
        ensures stopped { (d : ℕ) (ps : List Part) → IsAt (program_of lp.now) d ps self.now
            → ¬ (GoesOn (length (monomials (program_of lp.now) d)) ps) → (limit : ℕ)
            → IfErr result (IfSearchStops (program_of lp.now) d limit (entries_of ps)) }
    {
        match elements_of(alloc, lp.names().len(), &self.monomials, &self.echelon) {
            Ok(elements) => Ok(elements),
            Err(ElementsError::Wide { lead }) => Err(SearchError::Element {
                lead: self.monomials[lead].copy(alloc)?,
            }),
            Err(ElementsError::Memory) => Err(SearchError::Memory),
        }
    }
}

/// A closing's refusal as the search's.
fn refusal_of(error: ClosingError) -> SearchError
    ensures { result ≡ told_refusal error }
{
    match error {
        ClosingError::Limit { word } => SearchError::Limit { word },
        ClosingError::Wide { word } => SearchError::Wide { word },
        ClosingError::Budget => SearchError::Budget,
        ClosingError::Memory => SearchError::Memory,
    }
}

/// The entries of a part, behind those of the meter.
pub fn append(meter: &mut Meter, part: &Meter) -> Result<(), AllocError>
    requires within { units_of meter.old.entries + units_of part.now.entries ≤ meter.old.limit }
    ensures limit { meter.new.limit ≡ meter.old.limit }
    ensures entries { OnOk result (meter.new.entries ≡ meter.old.entries ++ part.now.entries) }
    ensures begun { IsPartOf meter.old.entries part.now.entries meter.new.entries }
{
    for entry in part.entries() {
        match put(meter, entry) {
            Ok(()) => {}
            Err(MeterError::Memory) => return Err(AllocError),
            Err(MeterError::Budget) => unreachable!(),
        }
    }
    Ok(())
}

/// The entry behind those of the meter.
fn put(meter: &mut Meter, entry: &Entry) -> Result<(), MeterError>
    ensures ok { OnOk result (meter.new ≡ with_entry meter.old (entry_of entry.now)) }
    ensures err { OnErr result (meter.new ≡ meter.old) }
    ensures budget { IsErrOf result MeterError.Budget ↔ Exceeds meter.old (entry_of entry.now) }
{
    match entry {
        Entry::Begin { task } => meter.begin(*task),
        Entry::Did { event } => meter.note(*event),
    }
}
