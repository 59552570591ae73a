//! Square tables of truth values, and walks through them.
ghost use Rattle.std.specs.Prelude.{◌≡◌, ◌<◌, ℕ, ◌&&◌, T, IfOk, IfSome, IfNone, length};
ghost use Rattle.solvable.specs.Tables.{at, IsSquare, IsTable, IsRow, First};

use std::alloc::{AllocError, Global};

/// The table of a test on places.
pub(crate) fn table<F: Fn(usize, usize) -> bool>(
    alloc: Global,
    size: usize,
    test: &F,
) -> Result<Vec<Vec<bool>>, AllocError>
    requires { (i j : ℕ) → i < size → j < size → F.pre test.now i j }
    ensures { IfOk result (λ t. IsTable size (λ i j b. F.post test.now i j b) t.items) }
{
    let mut table = Vec::new(alloc);
    for i in 0..size {
        table.push(row(alloc, size, i, test)?)?;
    }
    Ok(table)
}

/// A row of that table.
fn row<F: Fn(usize, usize) -> bool>(
    alloc: Global,
    size: usize,
    i: usize,
    test: &F,
) -> Result<Vec<bool>, AllocError>
    requires { (j : ℕ) → j < size → F.pre test.now i j }
    ensures { IfOk result (λ row. IsRow size (λ j b. F.post test.now i j b) row.items) }
{
    let mut row = Vec::new(alloc);
    for j in 0..size {
        row.push(test(i, j))?;
    }
    Ok(row)
}

/// The value in row `i` and column `j`.
pub(crate) fn entry(table: &Vec<Vec<bool>>, i: usize, j: usize) -> bool
    requires square { IsSquare (length table.now.items) table.now.items }
    requires row { i < length table.now.items }
    requires column { j < length table.now.items }
    ensures { result ≡ at table.now.items i j }
{
    table[i][j]
}

/// The first place that `first` has with `from`, and `rest` with `to`.
pub(crate) fn between(
    first: &Vec<Vec<bool>>,
    rest: &Vec<Vec<bool>>,
    from: usize,
    to: usize,
) -> Option<usize>
    requires first { IsSquare (length rest.now.items) first.now.items }
    requires rest { IsSquare (length rest.now.items) rest.now.items }
    requires from { from < length rest.now.items }
    requires to { to < length rest.now.items }
    ensures some { IfSome result (First (length rest.now.items)
        (λ c. at first.now.items from c && at rest.now.items c to)) }
    ensures none { IfNone result ((c : ℕ)
        → ¬ T (at first.now.items from c && at rest.now.items c to)) }
{
    for c in 0..rest.len() {
        if entry(first, from, c) && entry(rest, c, to) {
            return Some(c);
        }
    }
    None
}
