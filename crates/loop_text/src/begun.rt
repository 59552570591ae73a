//! How much of a loop was read.

ghost use Rattle.std.specs.Prelude.{◌≡◌, suc, OnOk};
ghost use Rattle.loop_text.specs.Limited.{Limits, statement_limit, branch_limit};

use poly_text::TextError;

/// The most statements of a loop.
const MOST_STATEMENTS: usize = 64;

const MOST_BRANCHES: usize = 6;

/// How many statements and branches began.
#[derive(Clone, Copy)]
pub struct Begun {
    pub statements: usize,
    pub branches: usize,
}

impl Begun {
    /// One statement more, whose first token is at an offset.
    #[tactic(auto, unfolding(loops::specs::Limits::most_statements))]
    pub fn begin_statement(&mut self, at: usize) -> Result<(), TextError>
        ensures count { OnOk result
            (self.new ≡ record self.old { statements = suc self.old.statements }) }
        ensures limit { Limits (statement_limit self.old.statements) at result }
    {
        if self.statements >= MOST_STATEMENTS {
            return Err(TextError::Limit { at });
        }
        self.statements += 1;
        Ok(())
    }

    /// One branch more, whose first token is at an offset.
    #[tactic(auto, unfolding(loops::specs::Limits::most_branches))]
    pub fn begin_branch(&mut self, at: usize) -> Result<(), TextError>
        ensures count { OnOk result
            (self.new ≡ record self.old { branches = suc self.old.branches }) }
        ensures limit { Limits (branch_limit self.old.branches) at result }
    {
        if self.branches >= MOST_BRANCHES {
            return Err(TextError::Limit { at });
        }
        self.branches += 1;
        Ok(())
    }
}
