//! Programs: the names of their variables, and their statements.

ghost use Rattle.std.specs.Prelude.{◌≡◌, ◌<◌, ◌≤◌, length};
ghost use Rattle.program_model.specs.Limits.{most_names, most_depth, depth};
ghost use Rattle.program_model.specs.Names.{HasNoUnknown};
ghost use Rattle.program_model.specs.WellFormed.{IsBlock};
ghost use Rattle.program_model.specs.StatementView.{block_of};

use crate::Statement;
use loop_model::Names;

/// A program over 1 to 16 variables, none of which has the name of an unknown, with at most 256 blocks in one another (a text has no more statements than that). Statements use names, and the inverses of the divisors before
/// them; an assignment has a value for each of its targets, none of which stands twice; no divisor is the number 0.
#[derive(Drop)]
pub struct Program {
    names: Names,
    statements: Vec<Statement>,
    end: usize,
    pub ghost some_name: { 0 < length names },
    pub ghost few_names: { length names ≤ most_names },
    pub ghost no_unknown: { HasNoUnknown names },
    pub ghost shallow: { depth (block_of statements.items) ≤ most_depth },
    pub ghost well_formed: { ∥ IsBlock (length names) (block_of statements.items) ∥₁ },
}

impl Program {
    ghost use Rattle.program_model.specs.ProgramView.{program_of};

    /// The program with these variables and statements, whose text ends at this offset.
    pub fn new(names: Names, statements: Vec<Statement>, end: usize) -> Program
        requires some_name { 0 < length names }
        requires few_names { length names ≤ most_names }
        requires no_unknown { HasNoUnknown names }
        requires shallow { depth (block_of statements.items) ≤ most_depth }
        requires well_formed { IsBlock (length names) (block_of statements.items) }
        ensures { program_of result ≡ record {
          names = names;
          statements = block_of statements.items;
          end = end;
        } }
    {
        Program {
            names,
            statements,
            end,
        }
    }

    /// The names of the variables, in declared order.
    pub fn names(&self) -> &Names
        ensures names { result.now ≡ (program_of self.now).names }
        ensures some { 0 < length result.now }
        ensures few { length result.now ≤ most_names }
        ensures no_unknown { HasNoUnknown result.now }
    {
        &self.names
    }

    /// The statements, in order.
    pub fn statements(&self) -> &Vec<Statement>
        ensures { block_of result.now.items ≡ (program_of self.now).statements }
    {
        &self.statements
    }

    /// The offset of the text's end.
    pub fn end(&self) -> usize
        ensures { result ≡ (program_of self.now).end }
    {
        self.end
    }
}
