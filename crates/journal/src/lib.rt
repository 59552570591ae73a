//! The meter: the events of a computation with ideals in their order, of which some are units that are counted against a limit, the budget.
//!
//! Proved: each entry is kept but a refused one, and exactly a unit above the limit is refused.
#![tactic(auto)]

ghost use Rattle.std.specs.Prelude.{◌≡◌, ◌≤◌, ◌-◌, [], ◌↔◌, map, OnOk, OnErr, IsErrOf};
ghost use Rattle.machines.specs.Journal.{Journal, Begin as Begun, Did as Done, begins_unit, counts, units_of};
ghost use Rattle.machines.specs.Event.{is_unit};
ghost use Rattle.journal.specs.View.{event_of, task_of, entry_of, with_entry, Exceeds, most_units};

use std::alloc::{AllocError, AllocFailed, Global};
use std::marker::Model;
use thiserror::Error;

/// A step of a computation with ideals. Places in lists count from 0.
#[derive(Clone, Copy, Debug, PartialEq, Eq)]
pub enum Event {
    /// The S-polynomial of two elements of the list becomes the current polynomial.
    Pair { left: u32, right: u32 },
    /// A term of the current polynomial is cancelled by the element.
    Cut { element: u32 },
    /// The current polynomial is made monic and put at the end of the list.
    Keep,
    /// The current polynomial is 0 and is put away.
    Zero,
    /// The element is taken out of the list.
    Drop { element: u32 },
    /// A term behind the lead of the element is cancelled by another.
    Tail { element: u32, by: u32 },
}

/// A part of an analysis. Rounds, branches, elements and iterations count from 1, but the first `Closed` tasks have round 0.
#[derive(Clone, Copy, Debug, PartialEq, Eq)]
pub enum Task {
    Start,
    Closed {
        round: u32,
        branch: u32,
        element: u32,
    },
    Round {
        round: u32,
    },
    /// What is a member after so many iterations of a branch.
    Iteration {
        round: u32,
        branch: u32,
        iteration: u32,
    },
    /// The intersection of the list so far with that.
    IterationMeet {
        round: u32,
        branch: u32,
        iteration: u32,
    },
    Orbit {
        round: u32,
        branch: u32,
    },
    Meet {
        round: u32,
        branch: u32,
    },
    Member,
    /// The division of an image of a polynomial. Images of a closing count from 0.
    Image {
        number: u32,
    },
    /// The completion of the list with the remainder of that image.
    Extend {
        number: u32,
    },
    /// The values of the monomials at the end of a run. Samples count from 0.
    Sample {
        number: u32,
    },
}

/// What the journal tells.
#[derive(Clone, Copy, Debug, PartialEq, Eq)]
pub enum Entry {
    Begin { task: Task },
    Did { event: Event },
}

/// Why an entry was not made.
#[derive(Clone, Copy, Debug, PartialEq, Eq, Error)]
pub enum MeterError {
    #[error("the budget is spent")]
    Budget,
    #[error("out of memory")]
    Memory,
}

impl From<AllocError> for MeterError {
    ghost use Rattle.journal.specs.declared.MeterError.TheVariants.{Memory};

    ghost from_gives = { λ _ e. e ≡ Memory };

    fn from(_: AllocError) -> Self {
        MeterError::Memory
    }
}

impl<T: Drop> From<AllocFailed<T>> for MeterError {
    ghost use Rattle.journal.specs.declared.MeterError.TheVariants.{Memory};

    ghost from_gives = { λ _ e. e ≡ Memory };

    fn from(_: AllocFailed<T>) -> Self {
        MeterError::Memory
    }
}

/// The entries so far, and how many units are allowed. It is seen as a journal.
#[derive(Drop)]
pub struct Meter {
    limit: u64,
    used: u64,
    entries: Vec<Entry>,
}

impl Model for Meter {
    ghost use Rattle.std.specs.Prelude.{◌≡◌, ◌≤◌, map};
    ghost use Rattle.machines.specs.Journal.{Journal, units_of};
    ghost use Rattle.journal.specs.View.{entry_of, most_units};

    ghost Value = { Journal };

    ghost view = { λ m. record { limit = m.limit; entries = map entry_of m.entries.items } };

    ghost invariant = { λ m. (m.used ≡ units_of (map entry_of m.entries.items)) × (m.used ≤ m.limit)
        × (m.limit ≤ most_units) };
}

impl Event {
    /// Whether the event is a unit.
    fn is_unit(&self) -> bool
        ensures { result ≡ is_unit (event_of self.now) }
    {
        match self {
            Event::Pair { .. } => true,
            Event::Cut { .. } => true,
            Event::Keep => false,
            Event::Zero => false,
            Event::Drop { .. } => false,
            Event::Tail { .. } => true,
        }
    }
}

impl Task {
    /// Whether to begin the task is a unit.
    fn is_unit(&self) -> bool
        ensures { result ≡ begins_unit (task_of self.now) }
    {
        match self {
            Task::Start => false,
            Task::Closed { .. } => false,
            Task::Round { .. } => true,
            Task::Iteration { .. } => false,
            Task::IterationMeet { .. } => false,
            Task::Orbit { .. } => false,
            Task::Meet { .. } => false,
            Task::Member => false,
            Task::Image { .. } => true,
            Task::Extend { .. } => false,
            Task::Sample { .. } => true,
        }
    }
}

impl Entry {
    /// Whether the entry is a unit.
    fn is_unit(&self) -> bool
        ensures { result ≡ counts (entry_of self.now) }
    {
        match self {
            Entry::Begin { task } => task.is_unit(),
            Entry::Did { event } => event.is_unit(),
        }
    }
}

impl Meter {
    /// A meter with no entries, that allows no unit.
    pub fn new(alloc: Global) -> Meter
        ensures { result ≡ record { limit = 0; entries = [] } }
    {
        Meter {
            limit: 0,
            used: 0,
            entries: Vec::new(alloc),
        }
    }

    /// Takes all entries out, and allows so many units from now on.
    pub fn open(&mut self, limit: u64)
        requires { limit ≤ most_units }
        ensures { self.new ≡ record { limit = limit; entries = [] } }
    {
        self.limit = limit;
        self.used = 0;
        self.entries.clear();
    }

    /// Begins a task. Budget exactly where that is a unit and the units so far equal the limit.
    pub fn begin(&mut self, task: Task) -> Result<(), MeterError>
        ensures ok { OnOk result (self.new ≡ with_entry self.old (Begun (task_of task))) }
        ensures few { units_of self.old.entries ≤ most_units }
        ensures within { units_of self.new.entries ≤ self.new.limit }
        ensures err { OnErr result (self.new ≡ self.old) }
        ensures budget { IsErrOf result MeterError.Budget
            ↔ Exceeds self.old (Begun (task_of task)) }
    {
        self.add(Entry::Begin { task })
    }

    /// Notes an event. Budget exactly where it is a unit and the units so far equal the limit.
    pub fn note(&mut self, event: Event) -> Result<(), MeterError>
        ensures ok { OnOk result (self.new ≡ with_entry self.old (Done (event_of event))) }
        ensures within { units_of self.new.entries ≤ self.new.limit }
        ensures err { OnErr result (self.new ≡ self.old) }
        ensures budget { IsErrOf result MeterError.Budget
            ↔ Exceeds self.old (Done (event_of event)) }
    {
        self.add(Entry::Did { event })
    }

    /// Puts an entry behind the others.
    fn add(&mut self, entry: Entry) -> Result<(), MeterError>
        ensures few { units_of self.old.entries ≤ most_units }
        ensures within { units_of self.new.entries ≤ self.new.limit }
        ensures ok { OnOk result (self.new ≡ with_entry self.old (entry_of entry)) }
        ensures err { OnErr result (self.new ≡ self.old) }
        ensures budget { IsErrOf result MeterError.Budget ↔ Exceeds self.old (entry_of entry) }
    {
        let is_unit = entry.is_unit();
        if is_unit && self.used == self.limit {
            return Err(MeterError::Budget);
        }
        self.entries.push(entry)?;
        if is_unit {
            self.used += 1;
        }
        Ok(())
    }

    /// No more units are used than are allowed, and no more are allowed than `most_units`: that is so of each meter, and callers learn it from this call, which does nothing.
    pub fn within_limit(&self)
        ensures within { units_of self.now.entries ≤ self.now.limit }
        ensures few { self.now.limit ≤ most_units }
    {
        let _ = &self.used;
    }

    /// How many of the entries are units.
    pub fn used(&self) -> u64
        ensures used { result ≡ units_of self.now.entries }
        ensures within { result ≤ self.now.limit }
        ensures few { self.now.limit ≤ most_units }
    {
        self.used
    }

    /// How many units are left.
    pub fn left(&self) -> u64
        ensures { result ≡ self.now.limit - units_of self.now.entries }
    {
        self.limit - self.used
    }

    /// The entries so far.
    pub fn entries(&self) -> &Vec<Entry>
        ensures { map entry_of result.now.items ≡ self.now.entries }
    {
        &self.entries
    }
}
