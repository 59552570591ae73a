//! Which pairs of places wait, as a table.
ghost use Rattle.std.specs.Prelude.{map};
ghost use Rattle.complete.specs.Table.{IsTriangle};

use std::alloc::{AllocError, Global};

/// For each place, whether its pairs with the earlier places wait.
#[derive(Drop)]
pub(crate) struct Table {
    rows: Vec<Vec<bool>>,
    pub ghost triangle: { IsTriangle (map (λ row. row.items) rows.items) },
}

impl Table {
    ghost use Rattle.std.specs.Prelude.{◌≡◌, ◌≢◌, ◌<◌, [], ◌∷◌, ◌++◌, length, OnOk};
    ghost use Rattle.complete.specs.Pairs.{rows_of};
    ghost use Rattle.complete.specs.Table.{of_either, without};

    /// The table of no places.
    pub(crate) fn new(alloc: Global) -> Table
        ensures { rows_of result ≡ [] }
    {
        Table {
            rows: Vec::new(alloc),
        }
    }

    /// Whether the pair of two places waits.
    pub(crate) fn waits(&self, i: u32, j: u32) -> bool
        requires apart { i ≢ j }
        requires inside { (i < length (rows_of self.now)) × (j < length (rows_of self.now)) }
        ensures { result ≡ of_either (rows_of self.now) i j }
    {
        if i < j {
            self.rows[j as usize][i as usize]
        } else {
            self.rows[i as usize][j as usize]
        }
    }

    /// Notes that the pair of two places waits no longer.
    pub(crate) fn take(&mut self, left: u32, right: u32)
        requires apart { left < right }
        requires inside { right < length (rows_of self.old) }
        ensures { rows_of self.new ≡ without (rows_of self.old) left right }
    {
        self.rows[right as usize][left as usize] = false;
    }

    /// A place more, with an entry for its pair with each earlier one.
    pub(crate) fn push(&mut self, row: Vec<bool>) -> Result<(), AllocError>
        requires { length row.items ≡ length (rows_of self.old) }
        ensures row { OnOk result (rows_of self.new ≡ rows_of self.old ++ row.items ∷ []) }
    {
        self.rows.push(row)?;
        Ok(())
    }
}
