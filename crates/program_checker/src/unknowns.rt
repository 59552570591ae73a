//! The names of unknowns.
ghost use Rattle.std.specs.Prelude.{◌≡◌, ◌≤◌, ◌+◌, ◌++◌, length, IfOk};
ghost use Rattle.monos.specs.Variables.{most_variables};
ghost use Rattle.program_model.specs.PathEvents.{most_unknowns};
ghost use Rattle.program_model.specs.Names.{HasNoUnknown, unknown_names};

use loop_model::Names;
use std::alloc::{AllocError, Global};

/// The names of so many unknowns.
fn unknowns_of(alloc: Global, unknowns: usize) -> Result<Names, AllocError>
    requires { unknowns ≤ most_unknowns }
    ensures { IfOk result (λ names. names ≡ unknown_names unknowns) }
{
    let mut names = Names::empty(alloc);
    for k in 0..unknowns {
        let name = format!(in alloc; "any{}", k + 1)?;
        names.push_new(name.as_bytes())?;
    }
    Ok(names)
}

/// The names of so many unknowns, and behind them these names, none of which is that of an unknown.
pub(crate) fn with_unknowns(
    alloc: Global,
    unknowns: usize,
    names: &Names,
) -> Result<Names, AllocError>
    requires few { unknowns ≤ most_unknowns }
    requires room { unknowns + length names.now ≤ most_variables }
    requires free { HasNoUnknown names.now }
    ensures { IfOk result (λ all. all ≡ unknown_names unknowns ++ names.now) }
{
    let mut all = unknowns_of(alloc, unknowns)?;
    for index in 0..names.len() {
        all.push_new(names.name(index).as_bytes())?;
    }
    Ok(all)
}
