//! Finds the classes of variables of a map that use one another, or why the map isn't solvable.
//!
//! Proved: `classes` gives the classes in their one order, or the least cycle of uses round which a variable uses itself non-linearly.
//!
//! Notion: solvable maps: the article.
#![tactic(auto)]

ghost use Rattle.std.specs.Prelude.{◌≡◌, All, length, IsOk, IfOk, IfErr};
ghost use Rattle.poly.specs.Seen.{terms_each};
ghost use Rattle.solvable.specs.Refusal.{AreClassesOf, IsSolvable, IfClassesRefused};
ghost use Rattle.solvable.specs.Tables.{IsTable};
ghost use Rattle.solvable.specs.Terms.{is_used};

mod cycle;
mod groups;
mod tables;
mod variables;

use cycle::least_cycle;
use frac128::Frac;
pub use groups::Classes;
use groups::classes_of_uses;
use monos::Grevlex;
use poly::Poly;
use std::alloc::{AllocError, Global};
use tables::table;
use thiserror::Error;
use variables::uses_at;

/// Why a map has no classes.
#[derive(Debug, Drop, Error)]
pub enum SolvableError {
    /// The least cycle: each variable uses the next, the first one non-linearly, and the last is the first again.
    #[error("a variable uses itself non-linearly")]
    NotSolvable { cycle: Vec<usize> },
    #[error("out of memory")]
    Memory,
}

impl From<AllocError> for SolvableError {
    ghost use Rattle.solvable.specs.declared.SolvableError.TheVariants.{Memory};

    ghost from_gives = { λ _ e. e ≡ Memory };

    fn from(_: AllocError) -> SolvableError {
        SolvableError::Memory
    }
}

/// The classes of a map, which has one polynomial for each variable: each class ascending, and so listed that each uses but itself and earlier ones; of those that may come next, the one with the first variable comes.
/// A map without a cycle is a solvable one (Rodríguez-Carbonell and Kapur, "Generating all polynomial invariants in simple loops", 2007).
/// `NotSolvable` exactly where the map has a cycle, with the least one: shorter cycles come first, and then those with the lesser first place that differs.
pub fn classes(alloc: Global, images: &Vec<Poly<Frac, Grevlex>>) -> Result<Classes, SolvableError>
    requires { All (λ p. p.arity ≡ length images.now.items) images.now.items }
    ensures classes { IfOk result (λ c. AreClassesOf (terms_each images.now.items) c.groups.items) }
    ensures solvable { IsOk result → IsSolvable (terms_each images.now.items) }
    ensures refused { IfErr result (IfClassesRefused (terms_each images.now.items)) }
{
    let used = users(alloc, images, 0)?;
    let strong = users(alloc, images, 1)?;
    match least_cycle(alloc, &used, &strong)? {
        Some(cycle) => Err(SolvableError::NotSolvable { cycle }),
        None => Ok(Classes {
            groups: classes_of_uses(alloc, used)?,
        }),
    }
}

/// The table of which variable uses which by terms of a degree above `below`.
fn users(
    alloc: Global,
    images: &Vec<Poly<Frac, Grevlex>>,
    below: u32,
) -> Result<Vec<Vec<bool>>, AllocError>
    requires { All (λ p. p.arity ≡ length images.now.items) images.now.items }
    ensures { IfOk result (λ t. IsTable (length images.now.items)
        (λ i j b. b ≡ is_used below (terms_each images.now.items) i j) t.items) }
{
    table(
        alloc,
        images.len(),
        &|i: usize, j: usize| { uses_at(images, i, j, below) },
    )
}
