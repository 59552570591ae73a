//! The task of a transition: whether it keeps the list where it leads to, and else the rests of the monomials.
ghost use Rattle.std.specs.Prelude.{◌≡◌, ℕ, IfOk};
ghost use Rattle.closures.specs.Monomials.{monomials_up_to};
ghost use Rattle.program_families.specs.Views.{job_of, arity_in, IsJob};
ghost use Rattle.program_families.specs.Causes.{Takes};
ghost use Rattle.program_families.specs.Ends.{after_check, end_of, IsCheck};
ghost use Rattle.program_families.specs.Shown.{ShowsCheck, ShowsEnd};

use crate::{Job, Rest, TaskError};
use frac128::Frac;
use journal::Meter;
use monos::Grevlex;
use poly::Poly;
use std::alloc::Global;

/// Whether a transition keeps the list where it leads to.
#[derive(Drop)]
pub enum Check {
    /// What it makes of the elements is in the ideal of the list where it comes from and its zeros.
    Kept,
    /// There is no list, or the rest of an image isn't 0: the rests of the monomials may be taken by this basis of the ideal.
    Basis(Vec<Poly<Frac, Grevlex>>),
}

/// What a task ends with.
#[derive(Drop)]
pub enum TaskEnd {
    /// The transition keeps the list where it leads to.
    Kept,
    /// It doesn't, or there is none: the basis, and the rests of all monomials by it, in their order.
    Rests {
        basis: Vec<Poly<Frac, Grevlex>>,
        rests: Vec<Rest>,
    },
}

impl Job<'_> {
    /// Completes the list and the zeros, and divides the images of the target's elements, up to the first rest that isn't 0.
    pub fn check(&self, alloc: Global, meter: &mut Meter) -> Result<Check, TaskError>
        requires { IsJob self.now }
        ensures limit { meter.new.limit ≡ meter.old.limit }
        ensures fits { IfOk result (IsCheck (arity_in self.now)) }
        ensures takes { let n = self.now.variables in let j = job_of self.now in
            Takes n j (after_check n j) meter.old.entries meter.new.limit meter.new.entries
            result }
        ensures shows { let n = self.now.variables in
            (d : ℕ) → self.now.monomials.now.items ≡ monomials_up_to n d
            → IfOk result (ShowsCheck self.now) }
    {
        let Some(elements) = self.target else {
            return Ok(Check::Basis(self.ideal(alloc, meter)?));
        };
        if elements.is_empty() {
            return Ok(Check::Kept);
        }
        let basis = self.ideal(alloc, meter)?;
        if self.keeps(alloc, &basis, elements, meter)? {
            return Ok(Check::Kept);
        }
        Ok(Check::Basis(basis))
    }

    /// The whole task.
    pub fn task(&self, alloc: Global, meter: &mut Meter) -> Result<TaskEnd, TaskError>
        requires { IsJob self.now }
        ensures limit { meter.new.limit ≡ meter.old.limit }
        ensures takes { let n = self.now.variables in let j = job_of self.now in
            Takes n j end_of meter.old.entries meter.new.limit meter.new.entries result }
        ensures shows { let n = self.now.variables in
            (d : ℕ) → self.now.monomials.now.items ≡ monomials_up_to n d
            → IfOk result (ShowsEnd self.now d) }
    {
        let basis = match self.check(alloc, meter)? {
            Check::Kept => return Ok(TaskEnd::Kept),
            Check::Basis(basis) => basis,
        };
        let rests = self.rests(alloc, &basis, meter)?;
        Ok(TaskEnd::Rests { basis, rests })
    }
}
