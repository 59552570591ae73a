//! Classes of variables that reach one another, those that are used before their users.
ghost use Rattle.std.specs.Prelude.{◌<◌, ℕ, [], ◌↔◌, map, IfOk, IfSome, IfNone, IsTrue, length};
ghost use Rattle.algebra.specs.In.{In};
ghost use Rattle.solvable_maps.specs.Class.{AreClasses};
ghost use Rattle.solvable.specs.Tables.{at, IsSquare};
ghost use Rattle.solvable.specs.Ready.{Mutual, IsReady, IsFirstReady, IsGroup, AreReached, Through};

use crate::tables::{entry, table};
use std::alloc::{AllocError, Global};

/// The classes of a map, each in declared order.
#[derive(Drop)]
pub struct Classes {
    pub groups: Vec<Vec<usize>>,
}

/// The classes, each ascending, in the order in which the first variable that is ready comes next.
pub(crate) fn classes_of_uses(
    alloc: Global,
    used: Vec<Vec<bool>>,
) -> Result<Vec<Vec<usize>>, AllocError>
    requires { IsSquare (length used.items) used.items }
    ensures { IfOk result (λ groups. AreClasses (at used.items) (length used.items) []
        (map (λ g. g.items) groups.items)) }
{
    let reach = reachable(alloc, used)?;
    let mut earlier = Vec::new(alloc);
    let mut groups = Vec::new(alloc);
    while let Some(first) = next(&reach, earlier.as_slice()) {
        let group = class(alloc, &reach, first)?;
        earlier.extend_from_slice(group.as_slice())?;
        groups.push(group)?;
    }
    Ok(groups)
}

/// The table of what reaches what, through more and more variables.
fn reachable(alloc: Global, used: Vec<Vec<bool>>) -> Result<Vec<Vec<bool>>, AllocError>
    requires { IsSquare (length used.items) used.items }
    ensures { IfOk result (λ reach.
        AreReached (at used.items) (length used.items) (length used.items) reach.items) }
{
    let size = used.len();
    let mut reach = used;
    for between in 0..size {
        let more = through(alloc, &reach, between)?;
        reach = more;
    }
    Ok(reach)
}

/// What is reached through one variable more.
fn through(
    alloc: Global,
    reach: &Vec<Vec<bool>>,
    between: usize,
) -> Result<Vec<Vec<bool>>, AllocError>
    requires square { IsSquare (length reach.now.items) reach.now.items }
    requires between { between < length reach.now.items }
    ensures { IfOk result (λ more.
        Through (at reach.now.items) (length reach.now.items) between more.items) }
{
    table(
        alloc,
        reach.len(),
        &|i: usize, j: usize| {
            entry(reach, i, j) || (entry(reach, i, between) && entry(reach, between, j))
        },
    )
}

/// The first variable that is ready.
fn next(reach: &Vec<Vec<bool>>, earlier: &[usize]) -> Option<usize>
    requires { IsSquare (length reach.now.items) reach.now.items }
    ensures some { IfSome result
        (IsFirstReady (at reach.now.items) (length reach.now.items) earlier.now) }
    ensures none { IfNone result ((i : ℕ) → i < length reach.now.items
        → ¬ (IsReady (at reach.now.items) (length reach.now.items) earlier.now i)) }
{
    for variable in 0..reach.len() {
        if is_ready(reach, earlier, variable) {
            return Some(variable);
        }
    }
    None
}

/// Whether a variable is new, and reaches but its class and earlier ones.
fn is_ready(reach: &Vec<Vec<bool>>, earlier: &[usize], variable: usize) -> bool
    requires square { IsSquare (length reach.now.items) reach.now.items }
    requires variable { variable < length reach.now.items }
    ensures { IsTrue result
        ↔ IsReady (at reach.now.items) (length reach.now.items) earlier.now variable }
{
    if is_in(earlier, variable) {
        return false;
    }
    for other in 0..reach.len() {
        if entry(reach, variable, other)
            && !entry(reach, other, variable)
            && !is_in(earlier, other)
        {
            return false;
        }
    }
    true
}

/// The class of a variable.
fn class(alloc: Global, reach: &Vec<Vec<bool>>, variable: usize) -> Result<Vec<usize>, AllocError>
    requires square { IsSquare (length reach.now.items) reach.now.items }
    requires variable { variable < length reach.now.items }
    ensures { IfOk result (λ group.
        IsGroup (at reach.now.items) (length reach.now.items) variable group.items) }
{
    let mut group = Vec::new(alloc);
    for other in 0..reach.len() {
        if is_mutual(reach, variable, other) {
            group.push(other)?;
        }
    }
    Ok(group)
}

/// Whether two variables are the same, or each reaches the other.
fn is_mutual(reach: &Vec<Vec<bool>>, one: usize, other: usize) -> bool
    requires square { IsSquare (length reach.now.items) reach.now.items }
    requires one { one < length reach.now.items }
    requires other { other < length reach.now.items }
    ensures { IsTrue result ↔ Mutual (at reach.now.items) one other }
{
    one == other || (entry(reach, one, other) && entry(reach, other, one))
}

/// Whether a variable is one of the list.
fn is_in(list: &[usize], variable: usize) -> bool
    ensures { IsTrue result ↔ In variable list.now }
{
    list.contains(&variable)
}
