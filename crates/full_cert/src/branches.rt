//! The stages of branches and rounds, written.
ghost use Rattle.std.specs.Prelude.{◌≡◌, All, IfOk, map};
ghost use Rattle.serde_json.specs.View.{view};
ghost use Rattle.cert_form.specs.Written.{list_data, IsWritten};
ghost use Rattle.task_lists.specs.View.{branch_in, round_in};
ghost use Rattle.full_cert.specs.Narrow.{IsBranchNarrow};
ghost use Rattle.full_cert.specs.Written.{orbit_object, meet_object, branch_data, round_data};

use crate::parts::stage_value;
use serde_json::{Map, Value, put};
use std::alloc::{AllocError, Global};
use task_lists::FullBranch;

fn alone(alloc: Global, orbit: Value) -> Result<Value, AllocError>
    ensures { IfOk result (λ v. view v ≡ orbit_object (view orbit)) }
{
    let mut members = Map::new(alloc);
    put(&mut members, alloc, "orbit", orbit)?;
    Ok(Value::from(members))
}

fn with_meet(alloc: Global, meet: Value, orbit: Value) -> Result<Value, AllocError>
    ensures { IfOk result (λ v. view v ≡ meet_object (view meet) (view orbit)) }
{
    let mut members = Map::new(alloc);
    put(&mut members, alloc, "meet", meet)?;
    put(&mut members, alloc, "orbit", orbit)?;
    Ok(Value::from(members))
}

fn branch_value(alloc: Global, branch: &FullBranch) -> Result<Value, AllocError>
    ensures { IfOk result (IsWritten branch_data IsBranchNarrow (branch_in branch.now)) }
{
    let orbit = stage_value(alloc, &branch.orbit)?;
    match &branch.meet {
        None => alone(alloc, orbit),
        Some(stage) => {
            let meet = stage_value(alloc, stage)?;
            with_meet(alloc, meet, orbit)
        }
    }
}

// The stages of a round.
fn round_value(alloc: Global, branches: &[FullBranch]) -> Result<Value, AllocError>
    ensures { IfOk result (IsWritten (list_data branch_data) (All IsBranchNarrow)
        (map branch_in branches.now)) }
{
    let mut values = Vec::new(alloc);
    for element in branches {
        values.push(branch_value(alloc, element)?)?;
    }
    Ok(Value::from(values))
}

/// Rounds.
pub(crate) fn rounds_value(alloc: Global, rounds: &[Vec<FullBranch>]) -> Result<Value, AllocError>
    ensures { IfOk result (IsWritten (list_data round_data) (All (All IsBranchNarrow))
        (map round_in rounds.now)) }
{
    let mut values = Vec::new(alloc);
    for element in rounds {
        values.push(round_value(alloc, element)?)?;
    }
    Ok(Value::from(values))
}
