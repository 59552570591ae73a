//! The sampling of a search: samples are taken until enough of them in a row don't count.
ghost use Rattle.std.specs.Prelude.{◌≡◌, ◌<◌, ◌≤◌, ℕ, List, pos, IsTrue, ◌↔◌, All, length, IfOk};
ghost use Rattle.machines.specs.Journal.{units_of};
ghost use Rattle.journal.specs.View.{most_units};
ghost use Rattle.rounds.specs.Word.{IsLetter};
ghost use Rattle.loop_model.specs.View.{program_of};
ghost use Rattle.residue_rows.specs.Modulus.{modulus};
ghost use Rattle.residue_rows.specs.Numbers.{numbers_of};
ghost use Rattle.closing.specs.Maps.{AreMapsModulo};
ghost use Rattle.closing.specs.Samples.{IsRowOf};
ghost use Rattle.closing.specs.Search.{Part, most_idle};
ghost use Rattle.closing.specs.Sampling.{IsAt, IsSampled, IsUnfinished, IfSampled, IfEnough, IfRefuted};

use crate::SearchError;
use crate::modular_maps::ResidueMaps;
use crate::samples::{sample_row, start_state, word_of};
use journal::{Meter, MeterError, Task};
use loop_model::Loop;
use monos::Mono;
use residue_rows::Draws;
use residue_rows::echelon::{Addition, Echelon};
use residue_rows::residue::Residue;
use std::alloc::{AllocError, Global};

/// How many samples in a row that don't count are enough.
const MOST_IDLE: u32 = 16;

/// How far a sampling is: the rows that count in echelon form and their number, how many samples were taken, and how many of the last of them didn't count.
#[derive(Drop)]
pub(crate) struct Sampling {
    pub(crate) monomials: Vec<Mono>,
    pub(crate) maps: ResidueMaps,
    pub(crate) draws: Draws,
    pub(crate) echelon: Echelon,
    pub(crate) counted: usize,
    pub(crate) taken: u32,
    pub(crate) idle: u32,
}

impl Sampling {
    /// Takes samples until there are enough.
    pub(crate) fn fill(
        self,
        alloc: Global,
        lp: &Loop,
        meter: &mut Meter,
    ) -> Result<Sampling, SearchError>
        requires sampled { (d : ℕ) × IsSampled (program_of lp.now) d meter.old.entries self }
        ensures limit { meter.new.limit ≡ meter.old.limit }
        ensures units { IfOk result (λ _. units_of meter.old.entries ≤ units_of meter.new.entries) }
        ensures fills { (d : ℕ) → IsSampled (program_of lp.now) d meter.old.entries self
            → IfEnough (program_of lp.now) d meter.new.limit meter.new.entries result }
    {
        let mut sampling = self;
        while sampling.goes_on() {
            meter.within_limit();
            sampling = sampling.take(alloc, lp, meter)?;
        }
        Ok(sampling)
    }

    /// Whether another sample is taken.
    fn goes_on(&self) -> bool
        ensures { IsTrue result ↔ ((self.now.idle < most_idle)
            × (self.now.counted < length self.now.monomials.items)) }
    {
        self.idle < MOST_IDLE && self.counted < self.monomials.len()
    }

    /// Takes the next sample: a random run with as many iterations as samples were taken.
    fn take(self, alloc: Global, lp: &Loop, meter: &mut Meter) -> Result<Sampling, SearchError>
        requires sampled { (d : ℕ) × IsUnfinished (program_of lp.now) d meter.old.entries self }
        ensures limit { meter.new.limit ≡ meter.old.limit }
        ensures units { IfOk result (λ _. units_of meter.old.entries < units_of meter.new.entries) }
        ensures takes { (d : ℕ) → IsUnfinished (program_of lp.now) d meter.old.entries self
            → IfSampled (program_of lp.now) d meter.new.limit meter.new.entries result }
    {
        match meter.begin(Task::Sample { number: self.taken }) {
            Ok(()) => (),
            Err(MeterError::Budget) => return Err(SearchError::Budget),
            Err(MeterError::Memory) => return Err(SearchError::Memory),
        }
        let mut sampling = self;
        let numbers = sampling.draws.take(alloc, lp.names().len())?;
        let letters = sampling.draws.take(alloc, sampling.taken as usize)?;
        let word = word_of(alloc, lp, &letters)?;
        let row = sampling.row_of(alloc, lp, &numbers, &word)?;
        match sampling.echelon.add_row(row)? {
            Addition::Counts => {
                sampling.counted += 1;
                sampling.taken += 1;
                sampling.idle = 0;
                Ok(sampling)
            }
            Addition::Combination => {
                sampling.taken += 1;
                sampling.idle += 1;
                Ok(sampling)
            }
            Addition::NoInverse => Err(SearchError::Sample),
        }
    }

    /// Adds the row of a run with random start values and a word that counters the elements. None where the row doesn't count.
    pub(crate) fn refute(
        self,
        alloc: Global,
        lp: &Loop,
        word: &[u32],
    ) -> Result<Option<Sampling>, AllocError>
        requires maps { AreMapsModulo (program_of lp.now) self.maps }
        requires width { self.echelon.width ≡ length self.monomials.items }
        requires few { self.counted ≤ most_units }
        requires letters { All (IsLetter (program_of lp.now)) word.now }
        ensures { (d : ℕ) (ps : List Part) → IsAt (program_of lp.now) d ps self
            → IfOk result (IfRefuted (program_of lp.now) d ps word.now) }
    {
        let mut sampling = self;
        let numbers = sampling.draws.take(alloc, lp.names().len())?;
        let row = sampling.row_of(alloc, lp, &numbers, word)?;
        match sampling.echelon.add_row(row)? {
            Addition::Counts => {
                sampling.counted += 1;
                sampling.idle = 0;
                Ok(Some(sampling))
            }
            Addition::Combination | Addition::NoInverse => Ok(None),
        }
    }

    /// The row of the run with these numbers at the variables of its start that are free, and this word.
    fn row_of(
        &self,
        alloc: Global,
        lp: &Loop,
        numbers: &[u64],
        word: &[u32],
    ) -> Result<Vec<Residue>, AllocError>
        requires maps { AreMapsModulo (program_of lp.now) self.now.maps }
        requires count { length numbers.now ≡ length (program_of lp.now).names }
        requires letters { All (IsLetter (program_of lp.now)) word.now }
        ensures row { IfOk result (λ row. IsRowOf (program_of lp.now) (pos modulus)
            self.now.monomials.items numbers.now word.now (numbers_of row.items)) }
        ensures width { IfOk result (λ row.
            length row.items ≡ length self.now.monomials.items) }
    {
        let start = start_state(alloc, lp, &self.maps, numbers)?;
        sample_row(alloc, lp, &self.maps, &self.monomials, start, word)
    }
}
