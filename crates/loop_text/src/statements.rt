//! Reads statements.

ghost use Rattle.std.specs.Prelude.{◌≡◌, ◌<◌, ◌++◌, ◌∷◌, ℕ, List, [], length, map, IfOk, OnOk, IsTrue};
ghost use Rattle.poly_text.specs.CursorView.{bytes_left};
ghost use Rattle.poly_text.specs.Lexemes.{is_sign_of};
ghost use Rattle.poly_text.specs.NextToken.{seen_lexeme};
ghost use Rattle.loop_model.specs.Ascii.{left_parenthesis};
ghost use Rattle.loop_model.specs.ExpressionView.{expr_of};
ghost use Rattle.loop_model.specs.Parts.{statement_of};
ghost use Rattle.loop_text.specs.declared.begun.Begun.{Begun};
ghost use Rattle.loop_text.specs.Loops as grammar;
ghost use Rattle.loop_text.specs.OpenBranch.{within, behind_statement};
ghost use Rattle.loop_text.specs.States.{Goes, Reads, Before, behind, between, in_branches, in_statement};

use crate::begun::Begun;
use crate::names::read_left;
use crate::places::still_unset;
use crate::tokens::{expect_sign, syntax_fault};
use loop_model::{Expr, Names, Statement};
use poly_text::{Cursor, Lexeme, Refusal, SumReader, TextError};
use std::alloc::{AllocError, Global};

/// Reads a right side and adds it to the values.
fn read_value<'t>(
    alloc: Global,
    cursor: Cursor<'t>,
    names: &Names,
    unset: &[usize],
    values: &mut Vec<Expr>,
) -> Result<Cursor<'t>, TextError>
    ensures goes { (n : Begun) (b : Before) (is : List ℕ) →
        Goes grammar.right_side
        (in_statement names.now unset.now n b is (map expr_of values.old.items))
        (in_statement names.now unset.now n b is (map expr_of values.new.items))
        cursor.entry result }
    ensures falls { IfOk result (λ end. bytes_left end < bytes_left cursor.entry) }
{
    let sums = SumReader {
        alloc,
        names,
        refused: unset,
        refusal: Refusal::Unset,
    };
    let (sum, end) = sums.sum(cursor, 0, 0)?;
    values.push(Box::into_inner(sum.value))?;
    Ok(end)
}

/// Reads `=`, and in parentheses as many right sides as there are targets.
fn read_values<'t>(
    alloc: Global,
    cursor: Cursor<'t>,
    names: &Names,
    unset: &[usize],
    count: usize,
) -> Result<(Vec<Expr>, Cursor<'t>), TextError>
    ensures reads { (n : Begun) (b : Before) (is : List ℕ) → length is ≡ count →
        Reads grammar.values (in_statement names.now unset.now n b is [])
        (λ values. in_statement names.now unset.now n b is (map expr_of values.items))
        cursor.entry result }
    ensures falls { IfOk result (λ r. bytes_left r.1 < bytes_left cursor.entry) }
{
    let opening = expect_sign(cursor, b'=')?;
    let mut at = expect_sign(opening, b'(')?;
    let mut values = Vec::new(alloc);
    loop {
        at = read_value(alloc, at, names, unset, &mut values)?;
        if values.len() >= count {
            let end = expect_sign(at, b')')?;
            return Ok((values, end));
        }
        at = expect_sign(at, b',')?;
    }
}

/// Reads the name of a target that isn't among those before it, and adds it to them.
fn read_target<'t>(
    cursor: Cursor<'t>,
    names: &Names,
    targets: &mut Vec<usize>,
) -> Result<Cursor<'t>, TextError>
    ensures goes { (us : List ℕ) (n : Begun) (b : Before) → Goes grammar.target
        (in_statement names.now us n b targets.old.items [])
        (in_statement names.now us n b targets.new.items []) cursor.entry result }
    ensures falls { IfOk result (λ end. bytes_left end < bytes_left cursor.entry) }
{
    let (target, end) = read_left(cursor, names, targets, &[])?;
    targets.push(target)?;
    Ok(end)
}

/// Reads the targets of a list, at least two, and the `)` behind them.
fn read_targets<'t>(
    alloc: Global,
    cursor: Cursor<'t>,
    names: &Names,
) -> Result<(Vec<usize>, Cursor<'t>), TextError>
    ensures reads { (us : List ℕ) (n : Begun) (b : Before) →
        Reads grammar.targets (between names.now us n b)
        (λ targets. in_statement names.now us n b targets.items []) cursor.entry result }
    ensures falls { IfOk result (λ r. bytes_left r.1 < bytes_left cursor.entry) }
{
    let mut targets = Vec::new(alloc);
    let behind = read_target(cursor, names, &mut targets)?;
    let mut at = expect_sign(behind, b',')?;
    loop {
        let end = read_target(at, names, &mut targets)?;
        if !end.token.lexeme.is_sign(b',') {
            let end = expect_sign(end, b')')?;
            return Ok((targets, end));
        }
        at = end.next();
    }
}

/// A branch that is open: its statements so far, and which places of the names are unset behind them.
#[derive(Drop)]
struct OpenBranch<'n> {
    names: &'n Names,
    unset: Vec<usize>,
    statements: Vec<Statement>,
}

impl OpenBranch<'_> {
    /// Reads a statement and adds it to the others, where so many of the loop came before.
    fn read_statement<'t>(
        &mut self,
        alloc: Global,
        cursor: Cursor<'t>,
        begun: &mut Begun,
    ) -> Result<Cursor<'t>, TextError>
        ensures goes { (b : Before) → Goes grammar.statement
            (within self.old begun.old b) (within self.new begun.new b) cursor.entry result }
        ensures falls { IfOk result (λ end. bytes_left end < bytes_left cursor.entry) }
    {
        if cursor.token.lexeme.is_sign(b'(') {
            self.read_list(alloc, cursor, begun)
        } else {
            self.read_single(alloc, cursor, begun)
        }
    }

    /// Reads a statement with a list of targets.
    fn read_list<'t>(
        &mut self,
        alloc: Global,
        cursor: Cursor<'t>,
        begun: &mut Begun,
    ) -> Result<Cursor<'t>, TextError>
        requires { IsTrue (is_sign_of (seen_lexeme cursor.token.lexeme) left_parenthesis) }
        ensures goes { (b : Before) → Goes grammar.several
            (within self.old begun.old b) (within self.new begun.new b) cursor.entry result }
        ensures falls { IfOk result (λ end. bytes_left end < bytes_left cursor.entry) }
    {
        begun.begin_statement(cursor.token.at)?;
        let (targets, behind) = read_targets(alloc, cursor.next(), self.names)?;
        let (values, behind) = read_values(alloc, behind, self.names, &self.unset, targets.len())?;
        let end = expect_sign(behind, b';')?;
        self.push_statement(alloc, targets, values)?;
        Ok(end)
    }

    /// Reads a statement with one target.
    fn read_single<'t>(
        &mut self,
        alloc: Global,
        cursor: Cursor<'t>,
        begun: &mut Begun,
    ) -> Result<Cursor<'t>, TextError>
        ensures goes { (b : Before) → Goes grammar.single
            (within self.old begun.old b) (within self.new begun.new b) cursor.entry result }
        ensures falls { IfOk result (λ end. bytes_left end < bytes_left cursor.entry) }
    {
        let Lexeme::Name(_) = cursor.token.lexeme else {
            return Err(syntax_fault(cursor));
        };
        begun.begin_statement(cursor.token.at)?;
        let (target, behind) = read_left(cursor, self.names, &[], &[])?;
        let right = expect_sign(behind, b'=')?;
        let mut values = Vec::new(alloc);
        let behind = read_value(alloc, right, self.names, &self.unset, &mut values)?;
        let end = expect_sign(behind, b';')?;
        let targets = vec![in alloc; target]?;
        self.push_statement(alloc, targets, values)?;
        Ok(end)
    }

    /// Adds a statement to the others.
    fn push_statement(
        &mut self,
        alloc: Global,
        targets: Vec<usize>,
        values: Vec<Expr>,
    ) -> Result<(), AllocError>
        ensures { OnOk result ((n : Begun) (b : Before) → within self.new n b
            ≡ behind_statement self.old targets.items values.items n b) }
    {
        let unset = still_unset(alloc, &targets, &self.unset)?;
        self.unset = unset;
        self.statements.push(Statement { targets, values })?;
        Ok(())
    }
}

/// Reads the statements of a branch and the `}` behind them, where so many statements of the loop came before and these places are unset.
pub fn read_statements<'t>(
    alloc: Global,
    cursor: Cursor<'t>,
    names: &Names,
    unset: Vec<usize>,
    begun: &mut Begun,
) -> Result<(Vec<Statement>, Cursor<'t>), TextError>
    ensures reads { (b : Before) → Reads grammar.statements
        (between names.now unset.items begun.old (behind b []))
        (λ ss. in_branches b.names b.locals begun.new b.init
        (b.branches ++ map statement_of ss.items ∷ [])) cursor.entry result }
    ensures falls { IfOk result (λ r. bytes_left r.1 < bytes_left cursor.entry) }
{
    let mut branch = OpenBranch {
        names,
        unset,
        statements: Vec::new(alloc),
    };
    let mut at = cursor;
    while !at.token.lexeme.is_sign(b'}') {
        at = branch.read_statement(alloc, at, begun)?;
    }
    Ok((branch.statements, at.next()))
}
