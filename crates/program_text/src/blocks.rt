//! Reads statements and blocks by recursive descent.

ghost use Rattle.std.specs.Prelude.{◌≡◌, ◌<◌, ◌≤◌, ◌∷◌, [], ℕ, suc, pos, IfOk, OnOk, IsTrue};
ghost use Rattle.loops.specs.Program.{number, variable, add};
ghost use Rattle.grammars.specs.Grammar.{rule};
ghost use Rattle.loop_model.specs.ExpressionView.{expr_of};
ghost use Rattle.program_model.specs.Program.{empty};
ghost use Rattle.program_model.specs.StatementView.{block_of, statement_of};
ghost use Rattle.program_model.specs.SyntaxView.{guard_of};
ghost use Rattle.program_text.specs.CursorView.{bytes_left};
ghost use Rattle.program_text.specs.NextToken.{seen_lexeme};
ghost use Rattle.program_text.specs.Programs as grammar;
ghost use Rattle.program_text.specs.Programs.{ProgramValue, a_statement};
ghost use Rattle.program_text.specs.States.{Goes, Reads, with_block, at_statement, is_keyword_of, is_named};
ghost use Rattle.program_text.specs.Words.{while_word, if_word, for_word};

use crate::ProgramTextError;
use crate::assignments::{Reader, begin_statement, expect_sign, is_keyword, syntax_fault};
use crate::comparisons::Bounds;
use crate::cursor::{Cursor, Read};
use crate::guards::MOST_BLOCKS;
use crate::lexemes::Lexeme;
use crate::words::Keyword;
use frac128::Whole;
use loop_model::{BinaryOperator, Expr, Statement as Values};
use program_model::{Assignment, Comparison, Guard, Statement, Step};
use std::alloc::{AllocError, Global};

/// Whether it is a name.
fn is_named(lexeme: &Lexeme<'_>) -> bool
    ensures { result ≡ is_named (seen_lexeme lexeme.now) }
{
    match lexeme {
        Lexeme::Name(_) => true,
        _ => false,
    }
}

/// The value for the variable, with no divisor.
fn set(alloc: Global, target: usize, value: Expr) -> Result<Statement, AllocError>
    ensures { IfOk result
        (λ s. statement_of s ≡ grammar.set [] (target ∷ []) (expr_of value ∷ [])) }
{
    let targets = vec![in alloc; target]?;
    let values = vec![in alloc; value]?;
    let statement = Values { targets, values };
    let divisors = Vec::new(alloc);
    let assignment = Assignment {
        divisors,
        statement,
    };
    let step = Step::Assign { assignment };
    Ok(Statement::Do { step })
}

/// The number 1.
fn one() -> Whole
    ensures { result.value ≡ pos 1 }
{
    Whole::new(1).unwrap()
}

/// The variable and one, added at an offset.
fn one_more(alloc: Global, index: usize, at: usize) -> Result<Expr, AllocError>
    ensures { IfOk result (λ e. expr_of e ≡ add at (variable index) (number (pos 1))) }
{
    let left = Box::new(alloc, Expr::Variable { index })?;
    let value = one();
    let right = Box::new(alloc, Expr::Number { value })?;
    let operator = BinaryOperator::Add;
    Ok(Expr::Binary {
        at,
        operator,
        left,
        right,
    })
}

/// What holds as long as a `for` goes on: its variable differs from the upper bound.
fn until(alloc: Global, index: usize, at: usize, right: Expr) -> Result<Guard, AllocError>
    ensures { IfOk result (λ g. guard_of g ≡ grammar.until index (expr_of right) at) }
{
    let left = Expr::Variable { index };
    let comparison = Comparison {
        at,
        equal: false,
        left,
        right,
    };
    let says = vec![in alloc; comparison]?;
    Ok(Guard { says, alone: true })
}

/// Adds what a `for` at an offset says to the block.
fn push_count(
    alloc: Global,
    at: usize,
    counter: usize,
    bounds: Bounds,
    body: Vec<Statement>,
    block: &mut Vec<Statement>,
) -> Result<(), AllocError>
    ensures { OnOk result (block_of block.new.items
        ≡ grammar.counted at counter (expr_of bounds.from) (expr_of bounds.to) bounds.at
        (block_of body.items) (block_of block.old.items)) }
{
    let between = bounds.at;
    block.push(set(alloc, counter, bounds.from)?)?;
    let guard = until(alloc, counter, between, bounds.to)?;
    let mut body = body;
    body.push(set(alloc, counter, one_more(alloc, counter, between)?)?)?;
    block.push(Statement::While { at, guard, body })?;
    Ok(())
}

impl Reader<'_> {
    /// Reads `while`, a guard and a block, and adds them to the block.
    #[cycle(statement)]
    #[tactic(auto, unfolding(crate::specs::Programs::most_blocks))]
    fn while_loop<'t>(
        &self,
        cursor: Cursor<'t>,
        depth: usize,
        begun: &mut usize,
        block: &mut Vec<Statement>,
    ) -> Result<Cursor<'t>, ProgramTextError>
        requires { IsTrue (is_keyword_of (seen_lexeme cursor.token.lexeme) while_word) }
        ensures goes { (w : ProgramValue) → Goes grammar.while_loop
            (at_statement self.now.names.now begun.old depth
            (with_block (block_of block.old.items) w))
            (at_statement self.now.names.now begun.new depth
            (with_block (block_of block.new.items) w)) cursor.entry result }
        ensures falls { IfOk result (λ end. bytes_left end < bytes_left cursor.entry) }
    {
        let at = cursor.token.at;
        begin_statement(begun, at)?;
        let (guard, first) = self.guard(cursor, depth)?;
        let (body, end) = self.statements(first, depth + 1, begun)?;
        block.push(Statement::While { at, guard, body })?;
        Ok(end)
    }

    /// Reads `if`, a guard and a block, and what is behind `else`, and adds them to the block.
    #[cycle(statement)]
    #[tactic(auto, unfolding(crate::specs::Programs::most_blocks))]
    fn if_statement<'t>(
        &self,
        cursor: Cursor<'t>,
        depth: usize,
        begun: &mut usize,
        block: &mut Vec<Statement>,
    ) -> Result<Cursor<'t>, ProgramTextError>
        requires { IsTrue (is_keyword_of (seen_lexeme cursor.token.lexeme) if_word) }
        ensures goes { (w : ProgramValue) → Goes grammar.if_statement
            (at_statement self.now.names.now begun.old depth
            (with_block (block_of block.old.items) w))
            (at_statement self.now.names.now begun.new depth
            (with_block (block_of block.new.items) w)) cursor.entry result }
        ensures falls { IfOk result (λ end. bytes_left end < bytes_left cursor.entry) }
    {
        let at = cursor.token.at;
        begin_statement(begun, at)?;
        let (guard, first) = self.guard(cursor, depth)?;
        let (inner, behind) = self.statements(first, depth + 1, begun)?;
        let (other, end) = self.other_way(behind, depth, begun)?;
        block.push(Statement::If {
            at,
            guard,
            inner,
            other,
        })?;
        Ok(end)
    }

    /// Reads what is behind `else`, if the text goes on with it.
    #[cycle(statement)]
    fn other_way<'t>(
        &self,
        cursor: Cursor<'t>,
        depth: usize,
        begun: &mut usize,
    ) -> Read<'t, Vec<Statement>>
        ensures reads { (w : ProgramValue) → Reads grammar.other_way
            (at_statement self.now.names.now begun.old depth w)
            (λ ss. at_statement self.now.names.now begun.new depth
            (with_block (block_of ss.items) w)) cursor.entry result }
        ensures falls { IfOk result (λ r. bytes_left r.1 ≤ bytes_left cursor.entry) }
    {
        if !is_keyword(&cursor.token.lexeme, Keyword::Else) {
            return Ok((Vec::new(self.alloc), cursor));
        }
        let next = cursor.next();
        if is_keyword(&next.token.lexeme, Keyword::If) {
            let mut other = Vec::new(self.alloc);
            let end = self.if_statement(next, depth, begun, &mut other)?;
            Ok((other, end))
        } else {
            self.block(next, depth, begun)
        }
    }

    /// Reads `for`, a variable, bounds and a block, and adds what they say to the block.
    #[cycle(statement)]
    fn for_loop<'t>(
        &self,
        cursor: Cursor<'t>,
        depth: usize,
        begun: &mut usize,
        block: &mut Vec<Statement>,
    ) -> Result<Cursor<'t>, ProgramTextError>
        requires { IsTrue (is_keyword_of (seen_lexeme cursor.token.lexeme) for_word) }
        ensures goes { (w : ProgramValue) → Goes grammar.for_loop
            (at_statement self.now.names.now begun.old depth
            (with_block (block_of block.old.items) w))
            (at_statement self.now.names.now begun.new depth
            (with_block (block_of block.new.items) w)) cursor.entry result }
        ensures falls { IfOk result (λ end. bytes_left end < bytes_left cursor.entry) }
    {
        let at = cursor.token.at;
        begin_statement(begun, at)?;
        let (counter, behind) = self.variable(cursor.next(), &[])?;
        let first = expect_sign(behind, b'=')?;
        let (bounds, opening) = self.bounds(first)?;
        let (body, end) = self.block(opening, depth, begun)?;
        push_count(self.alloc, at, counter, bounds, body, block)?;
        Ok(end)
    }

    /// Reads a statement and adds it to the block, inside of so many blocks.
    #[cycle(statement)]
    pub fn statement<'t>(
        &self,
        cursor: Cursor<'t>,
        depth: usize,
        begun: &mut usize,
        block: &mut Vec<Statement>,
    ) -> Result<Cursor<'t>, ProgramTextError>
        ensures goes { (w : ProgramValue) → Goes (rule a_statement)
            (at_statement self.now.names.now begun.old depth
            (with_block (block_of block.old.items) w))
            (at_statement self.now.names.now begun.new depth
            (with_block (block_of block.new.items) w)) cursor.entry result }
        ensures falls { IfOk result (λ end. bytes_left end < bytes_left cursor.entry) }
    {
        let lexeme = &cursor.token.lexeme;
        if is_named(lexeme) {
            return self.single(cursor, begun, block);
        }
        if lexeme.is_sign(b'(') {
            return self.several(cursor, begun, block);
        }
        if is_keyword(lexeme, Keyword::If) {
            return self.if_statement(cursor, depth, begun, block);
        }
        if is_keyword(lexeme, Keyword::While) {
            return self.while_loop(cursor, depth, begun, block);
        }
        if is_keyword(lexeme, Keyword::For) {
            return self.for_loop(cursor, depth, begun, block);
        }
        if is_keyword(lexeme, Keyword::Assume) {
            return self.assumption(cursor, begun, block);
        }
        if is_keyword(lexeme, Keyword::Assert) {
            return self.assertion(cursor, begun, block);
        }
        Err(syntax_fault(cursor))
    }

    /// Reads a block, inside of so many blocks.
    #[cycle(statement)]
    #[tactic(auto, unfolding(crate::specs::Programs::most_blocks))]
    fn block<'t>(
        &self,
        cursor: Cursor<'t>,
        depth: usize,
        begun: &mut usize,
    ) -> Read<'t, Vec<Statement>>
        ensures reads { (w : ProgramValue) → Reads grammar.block
            (at_statement self.now.names.now begun.old depth w)
            (λ ss. at_statement self.now.names.now begun.new depth
            (with_block (block_of ss.items) w)) cursor.entry result }
        ensures falls { IfOk result (λ r. bytes_left r.1 < bytes_left cursor.entry) }
    {
        if !cursor.token.lexeme.is_sign(b'{') {
            return Err(syntax_fault(cursor));
        }
        if depth >= MOST_BLOCKS {
            return Err(ProgramTextError::Limit {
                at: cursor.token.at,
            });
        }
        self.statements(cursor.next(), depth + 1, begun)
    }

    /// Reads statements and the `}` behind them, inside of so many blocks, theirs with them.
    #[cycle(statement)]
    fn statements<'t>(
        &self,
        cursor: Cursor<'t>,
        depth: usize,
        begun: &mut usize,
    ) -> Read<'t, Vec<Statement>>
        ensures reads { (d : ℕ) (w : ProgramValue) → depth ≡ suc d → Reads grammar.statements
            (at_statement self.now.names.now begun.old depth (with_block empty w))
            (λ ss. at_statement self.now.names.now begun.new d
            (with_block (block_of ss.items) w)) cursor.entry result }
        ensures falls { IfOk result (λ r. bytes_left r.1 < bytes_left cursor.entry) }
    {
        let mut statements = Vec::new(self.alloc);
        let mut at = cursor;
        while !at.token.lexeme.is_sign(b'}') {
            at = self.statement(at, depth, begun, &mut statements)?;
        }
        Ok((statements, at.next()))
    }
}
