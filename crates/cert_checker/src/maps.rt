//! The maps of a loop, which are formed before any identity is looked at.
ghost use Rattle.std.specs.Prelude.{length, IfOk, IfErr};
ghost use Rattle.loop_model.specs.Maps.{maps_operations};
ghost use Rattle.loop_model.specs.View.{program_of};
ghost use Rattle.cert_checker.specs.Forming.{IfUnformed};
ghost use Rattle.cert_checker.specs.FormedMaps.{AreMapsOf};

use crate::CheckError;
use loop_model::Loop;
use std::alloc::Global;
use task_lists::Polys;

/// The maps of a loop: the values at a start, and what each branch makes of the variables.
#[derive(Drop)]
pub(crate) struct Maps {
    pub(crate) start: Polys,
    pub(crate) branches: Vec<Polys>,
}

/// The maps of the loop, the start's first and then the branches' in order.
pub(crate) fn maps_of(alloc: Global, lp: &Loop) -> Result<Maps, CheckError>
    ensures maps { IfOk result (AreMapsOf (program_of lp.now)) }
    ensures refused { IfErr result (IfUnformed (length (program_of lp.now).names)
        (maps_operations (program_of lp.now))) }
{
    let start = lp.start_map(alloc)?;
    let branches = lp.branch_maps(alloc)?;
    Ok(Maps { start, branches })
}
