//! The rests of what a transition makes of monomials, each from that of a lesser one.
ghost use Rattle.std.specs.Prelude.{◌≡◌, ◌≤◌, ◌∷◌, [], List, ℕ, length, option_map, IfOk};
ghost use Rattle.machines.specs.Journal.{Entry};
ghost use Rattle.closures.specs.Monomials.{monomials_up_to};
ghost use Rattle.monos.specs.Variables.{most_variables};
ghost use Rattle.poly.specs.Seen.{terms_in, terms_each};
ghost use Rattle.divide.specs.Limits.{list_limit};
ghost use Rattle.ideal_ops.specs.Eliminating.{AreKept};
ghost use Rattle.loop_model.specs.Stops.{Forms};
ghost use Rattle.flows.specs.Tasks.{lesser, rest_in, from_rests, rested};
ghost use Rattle.program_families.specs.Views.{job_of, transition_in, arity_in, pair_of, rests_of, HaveArity, IsJob};
ghost use Rattle.program_families.specs.Following.{ComesNext};
ghost use Rattle.program_families.specs.Operations.{times_operations, plain_product};
ghost use Rattle.program_families.specs.Causes.{Takes};
ghost use Rattle.program_families.specs.Refusals.{in_rest};
ghost use Rattle.program_families.specs.Lesser.{pair_in};
ghost use Rattle.program_families.specs.Shown.{AreRestsOf};

use crate::dividing::rest_of;
use crate::{Job, Rest, TaskError};
use divide::EngineError;
use flows::laws::ended_tasks_keep_the_target;
use frac128::Frac;
use journal::Meter;
use loop_model::{MapError, product};
use monos::{Grevlex, Mono};
use poly::Poly;
use std::alloc::{AllocError, Global};

/// The operations of a task stand in no text, so none has an offset of its own.
const NO_OFFSET: usize = 0;

/// A monomial with one less of its first variable, and this variable's place.
#[derive(Drop)]
struct LesserMonomial {
    monomial: Mono,
    variable: usize,
}

/// The monomial with one less of its first variable. There is none for the monomial 1.
fn lesser(alloc: Global, monomial: &Mono) -> Result<Option<LesserMonomial>, AllocError>
    ensures { IfOk result (λ found. lesser monomial.now ≡ option_map pair_in found) }
{
    let list = monomial.exponents();
    let mut exponents = Vec::from_slice(alloc, list.as_slice())?;
    for variable in 0..exponents.len() {
        if exponents[variable] > 0 {
            exponents[variable] -= 1;
            let monomial = Mono::new(alloc, &exponents)?;
            return Ok(Some(LesserMonomial { monomial, variable }));
        }
    }
    Ok(None)
}

/// The rest of the monomial among these, or 0.
fn rest_at(
    alloc: Global,
    arity: usize,
    rests: &[Rest],
    monomial: &Mono,
) -> Result<Poly<Frac, Grevlex>, AllocError>
    requires few { arity ≤ most_variables }
    requires over { HaveArity arity rests.now }
    ensures terms { IfOk result (λ p. terms_in p ≡ rest_in (rests_of rests.now) monomial.now) }
    ensures arity { IfOk result (λ p. p.arity ≡ arity) }
{
    let mut count = rests.len();
    while count > 0 {
        count -= 1;
        let rest = &rests[count];
        if rest.monomial == *monomial {
            return rest.polynomial.copy(alloc);
        }
    }
    Ok(Poly::zero(alloc, Grevlex, arity))
}

impl Job<'_> {
    /// What is divided for the monomial: 1, or the rest of the lesser one times the image of the variable.
    fn product(
        &self,
        alloc: Global,
        rests: &[Rest],
        monomial: &Mono,
    ) -> Result<Poly<Frac, Grevlex>, MapError>
        requires job { IsJob self.now }
        requires arity { length monomial.now ≡ self.now.variables }
        requires over { HaveArity (arity_in self.now) rests.now }
        ensures { let t = transition_in self.now in let rs = rests_of rests.now in
            Forms (arity_in self.now) (times_operations t rs (lesser monomial.now))
            (plain_product self.now.variables t rs (lesser monomial.now)) result }
    {
        match lesser(alloc, monomial)? {
            Some(less) => {
                let rest = rest_at(alloc, self.arity(), rests, &less.monomial)?;
                product(
                    alloc,
                    NO_OFFSET,
                    &rest,
                    &self.transition.images[less.variable],
                )
            }
            None => Ok(Poly::one(alloc, Grevlex, self.arity())?),
        }
    }

    /// The rest of the monomial, behind those of the monomials before.
    fn next_rest(
        &self,
        alloc: Global,
        rests: &[Rest],
        basis: &Vec<Poly<Frac, Grevlex>>,
        monomial: Mono,
        meter: &mut Meter,
    ) -> Result<Rest, TaskError>
        requires job { IsJob self.now }
        requires arity { length monomial ≡ self.now.variables }
        requires over { HaveArity (arity_in self.now) rests.now }
        requires divisors { AreKept (arity_in self.now) basis.now.items }
        requires few { length basis.now.items ≤ list_limit }
        ensures limit { meter.new.limit ≡ meter.old.limit }
        ensures arity { IfOk result (λ r. r.polynomial.arity ≡ arity_in self.now) }
        ensures takes { let n = self.now.variables in let j = job_of self.now in
            let gs = terms_each basis.now.items in let rs = rests_of rests.now in
            (start : List Entry) (waiting : List (List ℕ))
            → ComesNext n j start meter.old.entries (from_rests n j gs rs (monomial ∷ waiting))
            → Takes n j (λ r. from_rests n j gs (pair_of r ∷ rs) waiting) start meter.new.limit
            meter.new.entries result }
    {
        let product = match self.product(alloc, rests, &monomial) {
            Ok(product) => product,
            Err(MapError::Limit { .. }) => return Err(TaskError::LimitRest { monomial }),
            Err(MapError::Wide { .. }) => return Err(TaskError::WideRest { monomial }),
            Err(MapError::Memory) => return Err(TaskError::Memory),
        };
        match rest_of(alloc, self.place, &product, basis, meter) {
            Ok(polynomial) => Ok(Rest {
                monomial,
                polynomial,
            }),
            Err(error) => Err(in_rest(monomial, error)),
        }
    }

    /// The rests of all monomials by the basis.
    pub fn rests(
        &self,
        alloc: Global,
        basis: &Vec<Poly<Frac, Grevlex>>,
        meter: &mut Meter,
    ) -> Result<Vec<Rest>, TaskError>
        requires job { IsJob self.now }
        requires divisors { AreKept (arity_in self.now) basis.now.items }
        requires few { length basis.now.items ≤ list_limit }
        ensures limit { meter.new.limit ≡ meter.old.limit }
        ensures over { IfOk result (λ rs. HaveArity (arity_in self.now) rs.items) }
        ensures takes { let n = self.now.variables in let j = job_of self.now in
            let gs = terms_each basis.now.items in
            (start : List Entry)
            → ComesNext n j start meter.old.entries (from_rests n j gs [] j.monomials)
            → Takes n j (λ rs. rested gs (rests_of rs.items)) start meter.new.limit
            meter.new.entries result }
        ensures rests { let n = self.now.variables in let j = job_of self.now in
            let gs = terms_each basis.now.items in
            (d : ℕ) → j.monomials ≡ monomials_up_to n d → (start : List Entry)
            → ComesNext n j start meter.old.entries (from_rests n j gs [] j.monomials)
            → IfOk result (λ rs. AreRestsOf self.now d gs (rests_of rs.items)) }
    {
        let mut rests = Vec::new(alloc);
        for monomial in self.monomials {
            let copy = monomial.copy(alloc)?;
            let rest = self.next_rest(alloc, &rests, basis, copy, meter)?;
            rests.push(rest)?;
        }
        // it does nothing, and tells what the rests are
        ended_tasks_keep_the_target();
        Ok(rests)
    }
}

/// The refusal of the division for this monomial.
fn in_rest(monomial: Mono, error: EngineError) -> TaskError
    ensures { result ≡ in_rest monomial error }
{
    match error {
        EngineError::Wide => TaskError::WideRest { monomial },
        EngineError::Budget => TaskError::Budget,
        EngineError::Memory => TaskError::Memory,
    }
}
