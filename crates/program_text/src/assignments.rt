//! Reads names and assignments.

ghost use Rattle.std.specs.Prelude.{◌≡◌, ◌<◌, ◌∷◌, [], ℕ, List, Option, None, suc, map, length, IfOk, OnOk, IsTrue};
ghost use Rattle.grammars.specs.Grammar.{after_change};
ghost use Rattle.loop_model.specs.Ascii.{left_parenthesis};
ghost use Rattle.loop_model.specs.ExpressionView.{expr_of};
ghost use Rattle.poly_text.specs.Reasons.{Reason};
ghost use Rattle.poly_text.specs.Tokens.{is_sign};
ghost use Rattle.program_model.specs.StatementView.{block_of};
ghost use Rattle.program_model.specs.SyntaxView.{divisor_of};
ghost use Rattle.program_text.specs.CursorView.{bytes_left};
ghost use Rattle.program_text.specs.Kinds.{a_sign};
ghost use Rattle.program_text.specs.Lexemes.{is_sign_of};
ghost use Rattle.program_text.specs.NextToken.{seen_lexeme};
ghost use Rattle.program_text.specs.Programs as grammar;
ghost use Rattle.program_text.specs.Programs.{ProgramContext, ProgramValue, ProgramState, token_of, word};
ghost use Rattle.program_text.specs.States.{Goes, Reads, Limits, IsTarget, with_block, in_set, at_statement, statement_limit, is_keyword_of};
ghost use Rattle.program_text.specs.Words.{any_word};
ghost use Rattle.program_text.specs.WordsView.{seen_keyword};

use crate::ProgramTextError;
use crate::cursor::{Cursor, Read};
use crate::lexemes::Lexeme;
use crate::sums::{Progress, SumReader};
use crate::words::Keyword;
use loop_model::{Expr, MOST_BYTES, Names, Statement as Values};
use program_model::{Assignment, Divisor, Statement, Step};
use std::alloc::Global;

/// The most statements of a program.
const MOST_STATEMENTS: usize = 256;

/// The fault of a token that can't stand where it does.
pub fn syntax_fault(cursor: Cursor<'_>) -> ProgramTextError
    ensures { result ≡ ProgramTextError.Syntax cursor.entry.token.at }
{
    ProgramTextError::Syntax {
        at: cursor.token.at,
    }
}

/// Whether it is this keyword.
pub fn is_keyword(lexeme: &Lexeme<'_>, keyword: Keyword) -> bool
    ensures { result ≡ is_keyword_of (seen_lexeme lexeme.now) (seen_keyword keyword) }
{
    match lexeme {
        Lexeme::Keyword(found) => *found == keyword,
        _ => false,
    }
}

/// Goes on behind the sign.
pub fn expect_sign<'t>(cursor: Cursor<'t>, sign: u8) -> Result<Cursor<'t>, ProgramTextError>
    requires { IsTrue (is_sign sign) }
    ensures goes { (next : ProgramContext → ProgramContext)
        (build : ProgramContext → ProgramValue → ProgramValue)
        (s : ProgramState) → Goes (token_of (a_sign sign) (λ c. None) next build) s
        (after_change next build s) cursor.entry result }
    ensures falls { IfOk result (λ end. bytes_left end < bytes_left cursor.entry) }
{
    if cursor.token.lexeme.is_sign(sign) {
        Ok(cursor.next())
    } else {
        Err(syntax_fault(cursor))
    }
}

/// One statement more, whose first token is at an offset.
#[tactic(auto, unfolding(crate::specs::Programs::most_statements))]
pub fn begin_statement(begun: &mut usize, at: usize) -> Result<(), ProgramTextError>
    ensures count { OnOk result (begun.new ≡ suc begun.old) }
    ensures limit { Limits (statement_limit begun.old) at result }
{
    if *begun >= MOST_STATEMENTS {
        return Err(ProgramTextError::Limit { at });
    }
    *begun += 1;
    Ok(())
}

/// Right sides, and their divisors.
#[derive(Drop)]
struct Sides {
    values: Vec<Expr>,
    divisors: Vec<Divisor>,
}

/// Reads statements over these names.
#[derive(Clone, Copy)]
pub struct Reader<'n> {
    pub alloc: Global,
    pub names: &'n Names,
}

impl Reader<'_> {
    /// The place of the variable whose name is the next token, which isn't among those taken.
    #[tactic(auto, unfolding(loops::specs::Limits::most_bytes))]
    pub fn variable<'t>(&self, cursor: Cursor<'t>, taken: &[usize]) -> Read<'t, usize>
        ensures reads { (fault : ProgramContext → List ℕ → Option Reason)
            (next : ProgramContext → List ℕ → ProgramContext)
            (build : ProgramContext → List ℕ → ProgramValue → ProgramValue)
            (s : ProgramState) (after : ℕ → ProgramState) →
            IsTarget self.now.names.now taken.now fault next build s after →
            Reads (word fault next build) s after cursor.entry result }
        ensures falls { IfOk result (λ r. bytes_left r.1 < bytes_left cursor.entry) }
    {
        let at = cursor.token.at;
        let Lexeme::Name(word) = cursor.token.lexeme else {
            return Err(syntax_fault(cursor));
        };
        if word.len() > MOST_BYTES {
            return Err(ProgramTextError::Limit { at });
        }
        let Some(index) = self.names.position(word) else {
            return Err(ProgramTextError::Unknown { at });
        };
        if taken.contains(&index) {
            return Err(ProgramTextError::Twice { at });
        }
        Ok((index, cursor.next()))
    }

    /// Reads a right side and adds it to the values, and its divisors to the divisors.
    fn right_side<'t>(
        &self,
        cursor: Cursor<'t>,
        divisors: Vec<Divisor>,
        values: &mut Vec<Expr>,
    ) -> Read<'t, Vec<Divisor>>
        ensures reads { (n d : ℕ) (w : ProgramValue) (is : List ℕ) → Reads grammar.right_side
            (in_set self.now.names.now n d w is (map expr_of values.old.items)
            (map divisor_of divisors.items))
            (λ ds. in_set self.now.names.now n d w is (map expr_of values.new.items)
            (map divisor_of ds.items)) cursor.entry result }
        ensures falls { IfOk result (λ r. bytes_left r.1 < bytes_left cursor.entry) }
    {
        let sums = SumReader {
            alloc: self.alloc,
            names: self.names,
            free: true,
        };
        let progress = Progress {
            operators: 0,
            divisors,
        };
        let (sum, end) = sums.sum(cursor, progress, 0)?;
        values.push(Box::into_inner(sum.value))?;
        Ok((sum.progress.divisors, end))
    }

    /// Reads the name of a target that isn't among those before it, and adds it to them.
    fn target<'t>(
        &self,
        cursor: Cursor<'t>,
        targets: &mut Vec<usize>,
    ) -> Result<Cursor<'t>, ProgramTextError>
        ensures goes { (n d : ℕ) (w : ProgramValue) → Goes grammar.target
            (in_set self.now.names.now n d w targets.old.items [] [])
            (in_set self.now.names.now n d w targets.new.items [] []) cursor.entry result }
        ensures falls { IfOk result (λ end. bytes_left end < bytes_left cursor.entry) }
    {
        let (target, end) = self.variable(cursor, targets)?;
        targets.push(target)?;
        Ok(end)
    }

    /// Reads the names of a list, at least two, and the `)` behind them.
    fn targets<'t>(&self, cursor: Cursor<'t>) -> Read<'t, Vec<usize>>
        ensures reads { (n d : ℕ) (w : ProgramValue) → Reads grammar.targets
            (at_statement self.now.names.now n d w)
            (λ is. in_set self.now.names.now n d w is.items [] []) cursor.entry result }
        ensures falls { IfOk result (λ r. bytes_left r.1 < bytes_left cursor.entry) }
    {
        let mut targets = Vec::new(self.alloc);
        let behind = self.target(cursor, &mut targets)?;
        let mut at = expect_sign(behind, b',')?;
        loop {
            let end = self.target(at, &mut targets)?;
            if !end.token.lexeme.is_sign(b',') {
                let end = expect_sign(end, b')')?;
                return Ok((targets, end));
            }
            at = end.next();
        }
    }

    /// Reads `=`, and in parentheses as many right sides as there are targets.
    fn sides<'t>(&self, cursor: Cursor<'t>, count: usize) -> Read<'t, Sides>
        ensures reads { (n d : ℕ) (w : ProgramValue) (is : List ℕ) → length is ≡ count →
            Reads grammar.values (in_set self.now.names.now n d w is [] [])
            (λ r. in_set self.now.names.now n d w is (map expr_of r.values.items)
            (map divisor_of r.divisors.items)) cursor.entry result }
        ensures falls { IfOk result (λ r. bytes_left r.1 < bytes_left cursor.entry) }
    {
        let opening = expect_sign(cursor, b'=')?;
        let mut at = expect_sign(opening, b'(')?;
        let mut values = Vec::new(self.alloc);
        let mut divisors = Vec::new(self.alloc);
        loop {
            let (more, end) = self.right_side(at, divisors, &mut values)?;
            divisors = more;
            if values.len() >= count {
                let end = expect_sign(end, b')')?;
                return Ok((Sides { values, divisors }, end));
            }
            at = expect_sign(end, b',')?;
        }
    }

    /// Reads an assignment to a list of variables and adds it to the block.
    pub fn several<'t>(
        &self,
        cursor: Cursor<'t>,
        begun: &mut usize,
        block: &mut Vec<Statement>,
    ) -> Result<Cursor<'t>, ProgramTextError>
        requires { IsTrue (is_sign_of (seen_lexeme cursor.token.lexeme) left_parenthesis) }
        ensures goes { (d : ℕ) (w : ProgramValue) → Goes grammar.several
            (at_statement self.now.names.now begun.old d (with_block (block_of block.old.items) w))
            (at_statement self.now.names.now begun.new d (with_block (block_of block.new.items) w))
            cursor.entry result }
        ensures falls { IfOk result (λ end. bytes_left end < bytes_left cursor.entry) }
    {
        begin_statement(begun, cursor.token.at)?;
        let (targets, behind) = self.targets(cursor.next())?;
        let (sides, behind) = self.sides(behind, targets.len())?;
        let end = expect_sign(behind, b';')?;
        let values = sides.values;
        let divisors = sides.divisors;
        let statement = Values { targets, values };
        let assignment = Assignment {
            divisors,
            statement,
        };
        let step = Step::Assign { assignment };
        block.push(Statement::Do { step })?;
        Ok(end)
    }

    /// Reads an assignment to one variable, or `any` for it, and adds it to the block.
    pub fn single<'t>(
        &self,
        cursor: Cursor<'t>,
        begun: &mut usize,
        block: &mut Vec<Statement>,
    ) -> Result<Cursor<'t>, ProgramTextError>
        ensures goes { (d : ℕ) (w : ProgramValue) → Goes grammar.single
            (at_statement self.now.names.now begun.old d (with_block (block_of block.old.items) w))
            (at_statement self.now.names.now begun.new d (with_block (block_of block.new.items) w))
            cursor.entry result }
        ensures falls { IfOk result (λ end. bytes_left end < bytes_left cursor.entry) }
    {
        let Lexeme::Name(_) = cursor.token.lexeme else {
            return Err(syntax_fault(cursor));
        };
        begin_statement(begun, cursor.token.at)?;
        let (target, behind) = self.variable(cursor, &[])?;
        let right = expect_sign(behind, b'=')?;
        if is_keyword(&right.token.lexeme, Keyword::Any) {
            self.any_value(right, target, block)
        } else {
            self.set_value(right, target, block)
        }
    }

    /// Reads `any` and `;`, and adds any value for the target to the block.
    fn any_value<'t>(
        &self,
        cursor: Cursor<'t>,
        target: usize,
        block: &mut Vec<Statement>,
    ) -> Result<Cursor<'t>, ProgramTextError>
        requires { IsTrue (is_keyword_of (seen_lexeme cursor.token.lexeme) any_word) }
        ensures goes { (n d : ℕ) (w : ProgramValue) → Goes grammar.any_value
            (in_set self.now.names.now n d (with_block (block_of block.old.items) w)
            (target ∷ []) [] [])
            (at_statement self.now.names.now n d (with_block (block_of block.new.items) w))
            cursor.entry result }
        ensures falls { IfOk result (λ end. bytes_left end < bytes_left cursor.entry) }
    {
        let at = cursor.token.at;
        let end = expect_sign(cursor.next(), b';')?;
        let step = Step::Any { at, target };
        block.push(Statement::Do { step })?;
        Ok(end)
    }

    /// Reads a right side and `;`, and adds the assignment to the target to the block.
    fn set_value<'t>(
        &self,
        cursor: Cursor<'t>,
        target: usize,
        block: &mut Vec<Statement>,
    ) -> Result<Cursor<'t>, ProgramTextError>
        ensures goes { (n d : ℕ) (w : ProgramValue) → Goes grammar.set_value
            (in_set self.now.names.now n d (with_block (block_of block.old.items) w)
            (target ∷ []) [] [])
            (at_statement self.now.names.now n d (with_block (block_of block.new.items) w))
            cursor.entry result }
        ensures falls { IfOk result (λ end. bytes_left end < bytes_left cursor.entry) }
    {
        let mut values = Vec::new(self.alloc);
        let (divisors, behind) = self.right_side(cursor, Vec::new(self.alloc), &mut values)?;
        let end = expect_sign(behind, b';')?;
        let targets = vec![in self.alloc; target]?;
        let statement = Values { targets, values };
        let assignment = Assignment {
            divisors,
            statement,
        };
        let step = Step::Assign { assignment };
        block.push(Statement::Do { step })?;
        Ok(end)
    }
}
