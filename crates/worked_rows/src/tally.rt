// How many rows there were.
ghost use Rattle.std.specs.Prelude.{◌≡◌};
ghost use Rattle.worked_rows.specs.Counts.{with_row};

/// How many rows agree, and how many differ.
#[derive(Clone, Copy, PartialEq, Eq)]
pub struct Tally {
    pub agree: u64,
    pub differ: u64,
}

impl Tally {
    /// Of no rows.
    pub fn new() -> Tally
        ensures { result ≡ record { agree = 0; differ = 0 } }
    {
        Tally {
            agree: 0,
            differ: 0,
        }
    }

    /// Counts a row that agrees or differs, and nothing where there is none.
    pub fn count(&mut self, agrees: Option<bool>)
        ensures { self.new ≡ with_row self.old agrees }
    {
        match agrees {
            Some(true) => self.agree = self.agree.saturating_add(1),
            Some(false) => self.differ = self.differ.saturating_add(1),
            None => {}
        }
    }
}
