//! Reads comparisons, and the statements that are one: `assume` and `assert`.

ghost use Rattle.std.specs.Prelude.{◌≡◌, ◌<◌, ℕ, IfOk, IsTrue};
ghost use Rattle.loop_model.specs.ExpressionView.{expr_of};
ghost use Rattle.program_model.specs.StatementView.{block_of};
ghost use Rattle.program_model.specs.SyntaxView.{comparison_of};
ghost use Rattle.program_text.specs.CursorView.{bytes_left};
ghost use Rattle.program_text.specs.NextToken.{seen_lexeme};
ghost use Rattle.program_text.specs.Programs as grammar;
ghost use Rattle.program_text.specs.Programs.{ProgramValue};
ghost use Rattle.program_text.specs.States as spec;
ghost use Rattle.program_text.specs.States.{Goes, Reads, with_block, at_statement, plain_state, with_sides, with_bounds, is_keyword_of};
ghost use Rattle.program_text.specs.Sums as sums;
ghost use Rattle.program_text.specs.Sums.{SumValue, sum_language};
ghost use Rattle.program_text.specs.Telling as telling;
ghost use Rattle.program_text.specs.Words.{assume_word, assert_word};

use crate::ProgramTextError;
use crate::assignments::{Reader, begin_statement, expect_sign, syntax_fault};
use crate::cursor::{Cursor, Read};
use crate::doubles::Double;
use crate::lexemes::Lexeme;
use crate::sums::{Progress, SumReader};
use loop_model::Expr;
use program_model::{Comparison, Statement, Step};

/// Whether the sign says that both sides are equal; `None` where it is none, or says that they differ and may not.
fn sign_says(lexeme: &Lexeme<'_>, may_differ: bool) -> Option<bool>
    ensures { result ≡ spec.sign_says may_differ (seen_lexeme lexeme.now) }
{
    match lexeme {
        Lexeme::Sign(b'=') => Some(true),
        Lexeme::Pair(Double::Equal) => Some(true),
        Lexeme::Pair(Double::Differs) => { if may_differ { Some(false) } else { None } }
        _ => None,
    }
}

/// Whether it is `..`.
fn is_dots(lexeme: &Lexeme<'_>) -> bool
    ensures { result ≡ spec.is_dots (seen_lexeme lexeme.now) }
{
    match lexeme {
        Lexeme::Pair(Double::Dots) => true,
        _ => false,
    }
}

/// What stands around the `..` of a `for`, which is at an offset.
#[derive(Drop)]
pub struct Bounds {
    pub from: Expr,
    pub at: usize,
    pub to: Expr,
}

impl Reader<'_> {
    /// Reads a comparison; `!=` stands in it only if it may.
    pub fn comparison<'t>(&self, cursor: Cursor<'t>, may_differ: bool) -> Read<'t, Comparison>
        ensures reads { (v : SumValue) → telling.Reads sum_language
            (sums.comparison (spec.signs may_differ)) (plain_state self.now.names.now v)
            (λ k. plain_state self.now.names.now (with_sides (comparison_of k) v)) cursor.entry
            result }
        ensures falls { IfOk result (λ r. bytes_left r.1 < bytes_left cursor.entry) }
    {
        let sums = SumReader {
            alloc: self.alloc,
            names: self.names,
            free: false,
        };
        let progress = Progress {
            operators: 0,
            divisors: Vec::new(self.alloc),
        };
        let (left, sign) = sums.sum(cursor, progress, 0)?;
        let at = sign.token.at;
        let Some(equal) = sign_says(&sign.token.lexeme, may_differ) else {
            return Err(syntax_fault(sign));
        };
        let progress = Progress {
            operators: 0,
            divisors: Vec::new(self.alloc),
        };
        let (right, end) = sums.sum(sign.next(), progress, 0)?;
        let left = Box::into_inner(left.value);
        let right = Box::into_inner(right.value);
        Ok((
            Comparison {
                at,
                equal,
                left,
                right,
            },
            end,
        ))
    }

    /// Reads `assume`, a comparison and `;`, and adds them to the block.
    pub fn assumption<'t>(
        &self,
        cursor: Cursor<'t>,
        begun: &mut usize,
        block: &mut Vec<Statement>,
    ) -> Result<Cursor<'t>, ProgramTextError>
        requires { IsTrue (is_keyword_of (seen_lexeme cursor.token.lexeme) assume_word) }
        ensures goes { (d : ℕ) (w : ProgramValue) → Goes grammar.assumption_of
            (at_statement self.now.names.now begun.old d (with_block (block_of block.old.items) w))
            (at_statement self.now.names.now begun.new d (with_block (block_of block.new.items) w))
            cursor.entry result }
        ensures falls { IfOk result (λ end. bytes_left end < bytes_left cursor.entry) }
    {
        begin_statement(begun, cursor.token.at)?;
        let (comparison, behind) = self.comparison(cursor.next(), true)?;
        let end = expect_sign(behind, b';')?;
        let step = Step::Assume { comparison };
        block.push(Statement::Do { step })?;
        Ok(end)
    }

    /// Reads `assert`, an equation and `;`, and adds them to the block.
    pub fn assertion<'t>(
        &self,
        cursor: Cursor<'t>,
        begun: &mut usize,
        block: &mut Vec<Statement>,
    ) -> Result<Cursor<'t>, ProgramTextError>
        requires { IsTrue (is_keyword_of (seen_lexeme cursor.token.lexeme) assert_word) }
        ensures goes { (d : ℕ) (w : ProgramValue) → Goes grammar.assertion
            (at_statement self.now.names.now begun.old d (with_block (block_of block.old.items) w))
            (at_statement self.now.names.now begun.new d (with_block (block_of block.new.items) w))
            cursor.entry result }
        ensures falls { IfOk result (λ end. bytes_left end < bytes_left cursor.entry) }
    {
        let at = cursor.token.at;
        begin_statement(begun, at)?;
        let (comparison, behind) = self.comparison(cursor.next(), false)?;
        let end = expect_sign(behind, b';')?;
        block.push(Statement::Assert { at, comparison })?;
        Ok(end)
    }

    /// Reads the bounds of a `for`.
    pub fn bounds<'t>(&self, cursor: Cursor<'t>) -> Read<'t, Bounds>
        ensures reads { (n d : ℕ) (w : ProgramValue) → Reads grammar.bounds
            (at_statement self.now.names.now n d w)
            (λ b. at_statement self.now.names.now n d
            (with_bounds (expr_of b.from) b.at (expr_of b.to) w)) cursor.entry result }
        ensures falls { IfOk result (λ r. bytes_left r.1 < bytes_left cursor.entry) }
    {
        let sums = SumReader {
            alloc: self.alloc,
            names: self.names,
            free: false,
        };
        let progress = Progress {
            operators: 0,
            divisors: Vec::new(self.alloc),
        };
        let (left, sign) = sums.sum(cursor, progress, 0)?;
        let at = sign.token.at;
        if !is_dots(&sign.token.lexeme) {
            return Err(syntax_fault(sign));
        }
        let progress = Progress {
            operators: 0,
            divisors: Vec::new(self.alloc),
        };
        let (right, end) = sums.sum(sign.next(), progress, 0)?;
        let from = Box::into_inner(left.value);
        let to = Box::into_inner(right.value);
        Ok((Bounds { from, at, to }, end))
    }
}
