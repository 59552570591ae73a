//! The places of local names, by the names of the variables and then the local names.

ghost use Rattle.std.specs.Prelude.{◌≡◌, ◌≤◌, ◌+◌, IfOk};
ghost use Rattle.loops.specs.WellFormed as spec;
ghost use Rattle.loop_text.specs.Limited.{most_places};

use std::alloc::{AllocError, Global};

/// The places of so many local names behind so many variables.
pub fn local_places(alloc: Global, variables: usize, count: usize) -> Result<Vec<usize>, AllocError>
    requires { variables + count ≤ most_places }
    ensures { IfOk result (λ found. found.items ≡ spec.local_places variables count) }
{
    let mut found = Vec::new(alloc);
    for index in 0..count {
        found.push(variables + index)?;
    }
    Ok(found)
}

/// What of the places is unset behind a statement with these targets.
pub fn still_unset(
    alloc: Global,
    targets: &[usize],
    unset: &[usize],
) -> Result<Vec<usize>, AllocError>
    ensures { IfOk result (λ found. found.items ≡ spec.still_unset targets.now unset.now) }
{
    let mut found = Vec::new(alloc);
    for place in unset {
        if !targets.contains(place) {
            found.push(*place)?;
        }
    }
    Ok(found)
}
