//! Elimination of the first variables of a list.
ghost use Rattle.std.specs.Prelude.{◌≡◌, ◌≤◌, ◌+◌, length, IfOk};
ghost use Rattle.machines.specs.Elimination.{free_part};
ghost use Rattle.monos.specs.Variables.{most_variables};
ghost use Rattle.poly.specs.Seen.{terms_each};
ghost use Rattle.machines.specs.Machine.{Ran};
ghost use Rattle.divide.specs.Outcomes.{outcome_of};
ghost use Rattle.complete.specs.Limits.{generators_limit};
ghost use Rattle.ideal_ops.specs.Calls.{elimination_way, elimination_of, IsListOf, IsElimination};
ghost use Rattle.ideal_ops.specs.Eliminating.{HaveBlock, HaveBlockAndLead, AreKept};

use complete::complete_in;
use divide::EngineError;
use journal::Meter;
use monos::{Blocks, Grevlex};
use poly::Poly;
use reduced_basis::tidy_in;
use ring_laws::Field;
use std::alloc::{AllocError, Global};

/// Completes a list in the order with the `first` variables in its first block, and tidies, in the `rest` of them, what has none of these.
pub(crate) fn eliminate_block<K: Field>(
    alloc: Global,
    first: usize,
    rest: usize,
    gens: &[Poly<K, Blocks>],
    meter: &mut Meter,
) -> Result<Vec<Poly<K, Grevlex>>, EngineError>
    requires variables { first + rest ≤ most_variables }
    requires block { HaveBlock first (first + rest) gens.now }
    requires few { length gens.now ≤ generators_limit }
    ensures ran { let way = elimination_way first gens.now in
        Ran (elimination_of way) (IsListOf way) meter.old meter.new (outcome_of result) }
    ensures elimination { IfOk result (λ gs. IsElimination first rest gens.now gs.items) }
{
    let basis = complete_in(alloc, Blocks { first }, first + rest, gens, meter)?;
    let list = without_first(alloc, first, rest, &basis)?;
    tidy_in(alloc, Grevlex, rest, &list, meter)
}

/// The elements with none of the first variables, without these variables.
fn without_first<K: Field>(
    alloc: Global,
    first: usize,
    rest: usize,
    basis: &[Poly<K, Blocks>],
) -> Result<Vec<Poly<K, Grevlex>>, AllocError>
    requires block { HaveBlockAndLead first (first + rest) basis.now }
    ensures kept { IfOk result
        (λ gs. terms_each gs.items ≡ free_part first (terms_each basis.now)) }
    ensures elements { IfOk result (λ gs. AreKept rest gs.items) }
{
    let mut list = Vec::new(alloc);
    for g in basis {
        if g.is_free_of_first(first) {
            list.push(g.without_first(alloc, Grevlex, first)?)?;
        }
    }
    Ok(list)
}
