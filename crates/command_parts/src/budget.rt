// The budget of an analysis.
ghost use Rattle.std.specs.Prelude.{◌≡◌, ◌≤◌};
ghost use Rattle.journal.specs.View.{most_units};
ghost use Rattle.command_parts.specs.Numerals.{usual_budget};

/// How many units an analysis may take, 1 to 1,000,000 (docs/USING.md).
#[derive(Clone, Copy)]
pub struct Budget {
    pub units: u64,
    pub ghost few: { units ≤ most_units },
}

impl Budget {
    /// The budget where no other is given.
    pub fn usual() -> Budget
        ensures { result.units ≡ usual_budget }
    {
        Budget { units: 200_000 }
    }
}
