//! A division in a task.
ghost use Rattle.std.specs.Prelude.{◌≡◌, ◌≤◌, ℕ, List, length, IfOk};
ghost use Rattle.algebra.specs.Fraction.{Fraction};
ghost use Rattle.machines.specs.Division as division;
ghost use Rattle.machines.specs.Journal.{Entry};
ghost use Rattle.machines.specs.Journal as journal;
ghost use Rattle.poly.specs.Seen.{terms_in, terms_each};
ghost use Rattle.divide.specs.Limits.{list_limit};
ghost use Rattle.ideal_ops.specs.Eliminating.{AreKept};
ghost use Rattle.flows.specs.Entries as entries;
ghost use Rattle.flows.specs.Entries.{Begin};
ghost use Rattle.flows.specs.Tasks.{State, Job, goes};
ghost use Rattle.program_families.specs.Following.{noted, ComesNext};
ghost use Rattle.program_families.specs.Ends.{IsDividing, Divides};

use divide::{EngineError, divide};
use frac128::Frac;
use journal::{Meter, Task};
use monos::Grevlex;
use poly::Poly;
use std::alloc::Global;

/// The rest of the polynomial by the basis, in a task of the transition with this place.
pub(crate) fn rest_of(
    alloc: Global,
    place: u32,
    polynomial: &Poly<Frac, Grevlex>,
    basis: &Vec<Poly<Frac, Grevlex>>,
    meter: &mut Meter,
) -> Result<Poly<Frac, Grevlex>, EngineError>
    requires divisors { AreKept polynomial.now.arity basis.now.items }
    requires few { length basis.now.items ≤ list_limit }
    ensures limit { meter.new.limit ≡ meter.old.limit }
    ensures arity { IfOk result (λ rest. rest.arity ≡ polynomial.now.arity) }
    ensures divides { (n : ℕ) (j : Job) (at : division.State Fraction → State)
        → IsDividing n j (terms_each basis.now.items) at → (start : List Entry)
        → (task : entries.Task) → noted (Begin task) ≡ journal.Begin (journal.Image place)
        → ComesNext n j start meter.old.entries (goes (Begin task)
        (at (division.initial_state (terms_each basis.now.items) (terms_in polynomial.now))))
        → Divides n j (terms_each basis.now.items) at start meter.new.limit meter.new.entries
        result }
{
    meter.begin(Task::Image { number: place })?;
    let division = divide(alloc, polynomial, basis, meter)?;
    Ok(division.remainder)
}
