//! The least cycle: walks with more and more steps, until one closes a cycle.
ghost use Rattle.std.specs.Prelude.{◌≡◌, ◌<◌, ◌+◌, ℕ, Bool, List, ◌&&◌, T, IfOk, IfSome, IfNone, length};
ghost use Rattle.solvable.specs.Tables.{at, IsSquare, Found};
ghost use Rattle.solvable.specs.Walking.{IsWalk, IsWalks, AreWalks, IsStart, IsClosedWalk};
ghost use Rattle.solvable.specs.Refusal.{IsAnswer};

use crate::tables::{between, table};
use std::alloc::{AllocError, Global};

/// The least cycle of variables that use one another, the first one the second strongly. None exactly where there is none.
pub(crate) fn least_cycle(
    alloc: Global,
    used: &Vec<Vec<bool>>,
    strong: &Vec<Vec<bool>>,
) -> Result<Option<Vec<usize>>, AllocError>
    requires used { IsSquare (length used.now.items) used.now.items }
    requires strong { IsSquare (length used.now.items) strong.now.items }
    requires linear { (i j : ℕ) → T (at strong.now.items i j) → T (at used.now.items i j) }
    ensures { IfOk result (IsAnswer (at used.now.items) (at strong.now.items)) }
{
    let mut walks = Vec::new(alloc);
    walks.push(walks_of_no_step(alloc, used.len())?)?;
    for steps in 0..used.len() {
        let told = &walks[steps];
        if let Some((first, second)) = start(strong, told) {
            let cycle = close_cycle(alloc, used, &walks, first, second)?;
            return Ok(Some(cycle));
        }
        let more = longer(alloc, used, told)?;
        walks.push(more)?;
    }
    Ok(None)
}

/// The walks of no step.
fn walks_of_no_step(alloc: Global, size: usize) -> Result<Vec<Vec<bool>>, AllocError>
    ensures { IfOk result (λ t. (uses : ℕ → ℕ → Bool) → IsWalks uses size 0 t.items) }
{
    table(alloc, size, &|i: usize, j: usize| i == j)
}

/// The walks of one step more.
fn longer(
    alloc: Global,
    used: &Vec<Vec<bool>>,
    walks: &Vec<Vec<bool>>,
) -> Result<Vec<Vec<bool>>, AllocError>
    requires used { IsSquare (length walks.now.items) used.now.items }
    requires walks { IsSquare (length walks.now.items) walks.now.items }
    ensures { IfOk result (λ t. (k : ℕ)
        → IsWalks (at used.now.items) (length walks.now.items) k walks.now.items
        → IsWalks (at used.now.items) (length walks.now.items) (k + 1) t.items) }
{
    table(
        alloc,
        walks.len(),
        &|i: usize, j: usize| leads_by_step(used, walks, i, j),
    )
}

/// Whether a step and then a walk lead from one variable to another.
fn leads_by_step(used: &Vec<Vec<bool>>, walks: &Vec<Vec<bool>>, from: usize, to: usize) -> bool
    requires used { IsSquare (length walks.now.items) used.now.items }
    requires walks { IsSquare (length walks.now.items) walks.now.items }
    requires from { from < length walks.now.items }
    requires to { to < length walks.now.items }
    ensures { Found (λ c. at used.now.items from c && at walks.now.items c to) result }
{
    between(used, walks, from, to).is_some()
}

/// The first place of a strong use that a walk leads back from.
fn start(strong: &Vec<Vec<bool>>, walks: &Vec<Vec<bool>>) -> Option<(usize, usize)>
    requires strong { IsSquare (length walks.now.items) strong.now.items }
    requires walks { IsSquare (length walks.now.items) walks.now.items }
    ensures some { IfSome result (λ s. IsStart (at strong.now.items) (at walks.now.items)
        (length walks.now.items) s.0 s.1) }
    ensures none { IfNone result ((x y : ℕ)
        → ¬ T (at strong.now.items x y && at walks.now.items y x)) }
{
    for first in 0..walks.len() {
        if let Some(second) = between(strong, walks, first, first) {
            return Some((first, second));
        }
    }
    None
}

/// The cycle that begins with these two variables, and goes on by the least walk of as many steps as the last table tells.
fn close_cycle(
    alloc: Global,
    used: &Vec<Vec<bool>>,
    walks: &Vec<Vec<Vec<bool>>>,
    first: usize,
    second: usize,
) -> Result<Vec<usize>, AllocError>
    requires used { IsSquare (length used.now.items) used.now.items }
    requires walks { AreWalks (at used.now.items) (length used.now.items) walks.now.items }
    requires first { first < length used.now.items }
    requires second { second < length used.now.items }
    requires some { 0 < length walks.now.items }
    requires walk { (k : ℕ) → k + 1 ≡ length walks.now.items
        → (vs : List ℕ) × IsWalk (at used.now.items) k second first vs }
    ensures { IfOk result (λ cycle. (k : ℕ) → k + 1 ≡ length walks.now.items
        → IsClosedWalk (at used.now.items) k first second cycle.items) }
{
    let mut cycle = Vec::new(alloc);
    cycle.push(first)?;
    cycle.push(second)?;
    let mut from = second;
    let mut left = walks.len() - 1;
    while left > 0 {
        left -= 1;
        if let Some(next) = between(used, &walks[left], from, first) {
            cycle.push(next)?;
            from = next;
        }
    }
    Ok(cycle)
}
