//! The analysis of loops in sequence.

ghost use Rattle.std.specs.Prelude.{◌≡◌, ◌≤◌, suc, length, IfOk, IfErr};
ghost use Rattle.loop_runs.specs.ChainSeen.{chain_in};
ghost use Rattle.invariant_fix.specs.Bases.{AreBases, IsLast, IsRefusedIn};
ghost use Rattle.invariant_fix.specs.Limits.{budget_limit};

use crate::chain_steps::{first_basis, stage_basis};
use crate::{AnalyseError, LoopError, Refused};
use frac128::Frac;
use journal::Meter;
use loop_runs::Chain;
use monos::Grevlex;
use poly::Poly;
use std::alloc::Global;

/// For each loop of a chain the reduced basis of the polynomials that are zero at the end of every run of the chain up to it, each loop's analysis with this
/// budget; or why the first loop that has none has none.
pub fn analyse_chain(
    alloc: Global,
    chain: &Chain,
    budget: u64,
    meter: &mut Meter,
) -> Result<Vec<Vec<Poly<Frac, Grevlex>>>, Refused>
    requires { budget ≤ budget_limit }
    ensures bases { let c = chain_in chain.now in
        IfOk result (λ bases. AreBases c budget (suc (length c.further)) bases.items) }
    ensures last { let c = chain_in chain.now in
        IfOk result (λ bases. IsLast c budget (suc (length c.further)) meter.new bases.items) }
    ensures refused { IfErr result (IsRefusedIn (chain_in chain.now) budget meter.new) }
{
    let mut bases = Vec::new(alloc);
    match first_basis(alloc, chain.first(), budget, meter) {
        Ok(basis) => {
            let Ok(()) = bases.push(basis) else {
                return Err(no_memory(0));
            };
        }
        Err(error) => {
            return Err(Refused {
                place: 0,
                error: LoopError::Analysis(error),
            });
        }
    }
    let further = chain.further();
    for index in 0..further.len() {
        match stage_basis(alloc, &further[index], &bases[index], budget, meter) {
            Ok(basis) => {
                let Ok(()) = bases.push(basis) else {
                    return Err(no_memory(index + 1));
                };
            }
            Err(error) => {
                return Err(Refused {
                    place: index + 1,
                    error,
                });
            }
        }
    }
    Ok(bases)
}

/// Want of memory, behind the analysis of the loop at this place.
fn no_memory(place: usize) -> Refused
    ensures place { result.place ≡ place }
    ensures memory { result.error ≡ LoopError.Analysis AnalyseError.Memory }
{
    Refused {
        place,
        error: LoopError::Analysis(AnalyseError::Memory),
    }
}
