//! The stage of a task: an elimination, with the cofactors that show it.
ghost use Rattle.std.specs.Prelude.{◌≡◌, ◌≤◌, ◌+◌, length, IfOk, IfErr};
ghost use Rattle.monos.specs.Variables.{most_variables};
ghost use Rattle.poly.specs.Seen.{terms_each};
ghost use Rattle.divide.specs.Outcomes.{refusal_of};
ghost use Rattle.complete.specs.Limits.{generators_limit};
ghost use Rattle.ideal_ops.specs.Eliminating.{HaveBlock};
ghost use Rattle.task_lists.specs.Images.{IsStageIn};
ghost use Rattle.task_lists.specs.View.{stage_in};
ghost use Rattle.corollaries.specs.Making.{IsStageMade, IsStageRefused};

use crate::divisors::Divisors;
use complete::complete_in;
use divide::EngineError;
use frac128::Frac;
use journal::Meter;
use monos::{Blocks, Grevlex};
use poly::Poly;
use reduced_basis::tidy_in;
use std::alloc::Global;
use task_lists::{FullStage, all_pairs, free_elements};

/// Eliminates the `front` first variables from a list, and gives all cofactors: the list is completed, and
/// divided by what that gives, as are the S-polynomials of all its pairs; what has none of these variables is
/// tidied, and divided by what that gives. `Budget` only where the units are exhausted and the next event is one;
/// `Wide` only where the weight of making an element monic, of an S-polynomial, or of the next event, is past.
pub(crate) fn stage(
    alloc: Global,
    front: usize,
    variables: usize,
    begin: &[Poly<Frac, Blocks>],
    meter: &mut Meter,
) -> Result<FullStage, EngineError>
    requires variables { front + variables ≤ most_variables }
    requires begin { HaveBlock front (front + variables) begin.now }
    requires few { length begin.now ≤ generators_limit }
    ensures limit { meter.new.limit ≡ meter.old.limit }
    ensures made { IfOk result (λ s. IsStageMade front (terms_each begin.now) (stage_in s)
        meter.old.entries meter.new.entries) }
    ensures over { IfOk result (IsStageIn front variables) }
    ensures refused { IfErr result (λ e. IsStageRefused front (terms_each begin.now) meter.new
        (refusal_of e) meter.old) }
{
    let order = Blocks { first: front };
    let arity = front + variables;
    let list = complete_in(alloc, order, arity, begin, meter)?;
    let Ok(places) = all_pairs(alloc, list.len()) else {
        return Err(EngineError::Memory);
    };
    let Ok(free) = free_elements(alloc, &list, front, variables) else {
        return Err(EngineError::Memory);
    };
    let divisors = Divisors {
        order,
        arity,
        list: &list,
    };
    let gens = divisors.divide_each(alloc, begin, meter)?;
    let pairs = divisors.divide_pairs(alloc, &places, meter)?;
    let out = tidy_in(alloc, Grevlex, variables, &free, meter)?;
    meter.within_limit();
    let reduced = Divisors {
        order: Grevlex,
        arity: variables,
        list: &out,
    };
    let links = reduced.divide_each(alloc, &free, meter)?;
    Ok(FullStage {
        list,
        gens,
        pairs,
        out,
        links,
    })
}
