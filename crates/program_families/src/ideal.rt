//! The basis of a task.
ghost use Rattle.std.specs.Prelude.{◌≡◌, ◌≤◌, List, length, IfOk};
ghost use Rattle.machines.specs.Journal.{Entry};
ghost use Rattle.poly.specs.Seen.{terms_each};
ghost use Rattle.complete.specs.Limits.{generators_limit};
ghost use Rattle.divide.specs.Limits.{list_limit};
ghost use Rattle.ideal_ops.specs.Eliminating.{AreKept};
ghost use Rattle.ideal_ops.specs.Calls.{AreOver};
ghost use Rattle.flows.specs.Tasks.{begin_ideal, by_target};
ghost use Rattle.program_families.specs.Views.{job_of, arity_in, generators_in, IsJob};
ghost use Rattle.program_families.specs.Following.{ComesNext};
ghost use Rattle.program_families.specs.Causes.{Takes};
ghost use Rattle.program_families.specs.Refusals.{in_ideal};
ghost use Rattle.program_families.specs.Shown.{IsBasisIn};

use crate::{Job, TaskError};
use divide::EngineError;
use frac128::Frac;
use journal::{Meter, Task};
use monos::{Grevlex, Mono};
use poly::Poly;
use reduced_basis::reduced_basis_in;
use std::alloc::{AllocError, Global};

impl Job<'_> {
    /// The polynomials of the source's list, with the unknowns put in front, and behind them the zeros.
    fn generators(&self, alloc: Global) -> Result<Vec<Poly<Frac, Grevlex>>, AllocError>
        requires { IsJob self.now }
        ensures terms { IfOk result (λ gs. terms_each gs.items ≡ generators_in self.now) }
        ensures over { IfOk result (λ gs. AreOver (arity_in self.now) gs.items) }
        ensures few { IfOk result (λ gs. length gs.items ≤ generators_limit) }
    {
        let front = Mono::one(alloc, self.transition.unknowns)?;
        let mut generators = Vec::new(alloc);
        for element in self.source {
            generators.push(element.behind(alloc, Grevlex, &front)?)?;
        }
        for zero in &self.transition.zeros {
            generators.push(zero.copy(alloc)?)?;
        }
        Ok(generators)
    }

    /// The reduced basis of the ideal of the source's list and the zeros.
    pub fn ideal(
        &self,
        alloc: Global,
        meter: &mut Meter,
    ) -> Result<Vec<Poly<Frac, Grevlex>>, TaskError>
        requires { IsJob self.now }
        ensures limit { meter.new.limit ≡ meter.old.limit }
        ensures divisors { IfOk result (λ gs. AreKept (arity_in self.now) gs.items) }
        ensures few { IfOk result (λ gs. length gs.items ≤ list_limit) }
        ensures basis { IfOk result (λ gs. IsBasisIn self.now (terms_each gs.items)) }
        ensures takes { let n = self.now.variables in let j = job_of self.now in
            (start : List Entry) → ComesNext n j start meter.old.entries (begin_ideal n j)
            → Takes n j (λ gs. by_target n j (terms_each gs.items) j.target) start meter.new.limit
            meter.new.entries result }
    {
        let generators = self.generators(alloc)?;
        meter.begin(Task::Extend { number: self.place })?;
        match reduced_basis_in(alloc, Grevlex, self.arity(), &generators, meter) {
            Ok(basis) => {
                meter.within_limit();
                Ok(basis)
            }
            Err(error) => Err(in_ideal(error)),
        }
    }
}

/// The refusal of a completion.
fn in_ideal(error: EngineError) -> TaskError
    ensures { result ≡ in_ideal error }
{
    match error {
        EngineError::Wide => TaskError::WideIdeal,
        EngineError::Budget => TaskError::Budget,
        EngineError::Memory => TaskError::Memory,
    }
}
