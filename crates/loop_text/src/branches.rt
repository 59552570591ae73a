//! Reads branches.

ghost use Rattle.std.specs.Prelude.{◌≡◌, ◌<◌, ◌≤◌, ◌∷◌, ◌++◌, [], length, map, IfOk, IsTrue};
ghost use Rattle.grammars.specs.Grammar.{sequence, some};
ghost use Rattle.poly_text.specs.CursorView.{bytes_left};
ghost use Rattle.poly_text.specs.NextToken.{seen_lexeme};
ghost use Rattle.loop_model.specs.Ascii.{left_brace};
ghost use Rattle.loop_model.specs.Words.{when_word};
ghost use Rattle.loop_text.specs.Loops as grammar;
ghost use Rattle.loop_text.specs.Loops.{LoopState};
ghost use Rattle.loop_model.specs.Parts.{statement_of};
ghost use Rattle.loops.specs.WellFormed.{local_places};
ghost use Rattle.loop_text.specs.States.{Goes, Reads, Inits, AreVariablesThenLocals, Before, behind, between, in_branches, branches_of, is_keyword_of};
ghost use Rattle.loop_model.specs.Limits.{all_names_limit};

use crate::begun::Begun;
use crate::names::LoopNames;
use crate::places::local_places;
use crate::statements::read_statements;
use crate::tokens::{expect_sign, is_keyword, syntax_fault};
use loop_model::{Keyword, Statement};
use poly_text::{Cursor, Lexeme, TextError};
use std::alloc::Global;

/// Goes on behind `when`, a guard, which has a byte at least, and the `{` behind it.
fn read_guard(cursor: Cursor<'_>) -> Result<Cursor<'_>, TextError>
    requires { IsTrue (is_keyword_of (seen_lexeme cursor.token.lexeme) when_word) }
    ensures goes { (s : LoopState) → Goes (sequence grammar.guard (grammar.sign left_brace)) s s
        cursor.entry result }
    ensures falls { IfOk result (λ end. bytes_left end < bytes_left cursor.entry) }
{
    let mut at = cursor.next_item();
    loop {
        let Lexeme::Item(_) = at.token.lexeme else {
            return Err(syntax_fault(at));
        };
        at = at.next_item();
        if at.token.lexeme.is_sign(b'{') {
            return Ok(at.next());
        }
    }
}

/// Goes on behind what stands between `branch` and the first statement.
fn read_head(cursor: Cursor<'_>) -> Result<Cursor<'_>, TextError>
    ensures goes { (s : LoopState) → Goes grammar.head s s cursor.entry result }
    ensures falls { IfOk result (λ end. bytes_left end < bytes_left cursor.entry) }
{
    if is_keyword(&cursor.token.lexeme, Keyword::When) {
        read_guard(cursor)
    } else {
        expect_sign(cursor, b'{')
    }
}

/// Reads a branch and adds it to the branches, where so many statements of the loop came before.
fn read_branch<'t>(
    alloc: Global,
    cursor: Cursor<'t>,
    names: &LoopNames,
    begun: &mut Begun,
    branches: &mut Vec<Vec<Statement>>,
) -> Result<Cursor<'t>, TextError>
    requires all { AreVariablesThenLocals names.now }
    requires few { length names.now.all ≤ all_names_limit }
    ensures goes { (init : Inits) → Goes grammar.branch
        (in_branches names.now.variables names.now.locals begun.old init
        (branches_of branches.old.items))
        (in_branches names.now.variables names.now.locals begun.new init
        (branches_of branches.new.items)) cursor.entry result }
    ensures falls { IfOk result (λ end. bytes_left end < bytes_left cursor.entry) }
{
    if !is_keyword(&cursor.token.lexeme, Keyword::Branch) {
        return Err(syntax_fault(cursor));
    }
    begun.begin_branch(cursor.token.at)?;
    let first = read_head(cursor.next())?;
    let unset = local_places(alloc, names.variables.len(), names.locals.len())?;
    let (statements, end) = read_statements(alloc, first, &names.all, unset, begun)?;
    branches.push(statements)?;
    Ok(end)
}

/// Reads statements between braces, as those of a branch are read. So many statements of the text came before.
pub fn read_block<'t>(
    alloc: Global,
    cursor: Cursor<'t>,
    names: &LoopNames,
    begun: &mut Begun,
) -> Result<(Vec<Statement>, Cursor<'t>), TextError>
    requires all { AreVariablesThenLocals names.now }
    requires few { length names.now.all ≤ all_names_limit }
    ensures reads { (b : Before) → b.names ≡ names.now.variables → b.locals ≡ names.now.locals
        → Reads grammar.block
        (between names.now.all (local_places (length b.names) (length b.locals)) begun.old
        (behind b []))
        (λ ss. in_branches b.names b.locals begun.new b.init
        (b.branches ++ map statement_of ss.items ∷ [])) cursor.entry result }
    ensures falls { IfOk result (λ r. bytes_left r.1 < bytes_left cursor.entry) }
{
    let first = expect_sign(cursor, b'{')?;
    let places = local_places(alloc, names.variables.len(), names.locals.len())?;
    read_statements(alloc, first, &names.all, places, begun)
}

/// Reads branches as long as the text goes on with one; there is one at least. So many statements came before, and so many branches of the loop.
pub fn read_branches<'t>(
    alloc: Global,
    cursor: Cursor<'t>,
    names: &LoopNames,
    begun: &mut Begun,
) -> Result<(Vec<Vec<Statement>>, Cursor<'t>), TextError>
    requires all { AreVariablesThenLocals names.now }
    requires few { length names.now.all ≤ all_names_limit }
    ensures reads { (init : Inits) → Reads (some grammar.branch)
        (in_branches names.now.variables names.now.locals begun.old init [])
        (λ bs. in_branches names.now.variables names.now.locals begun.new init
        (branches_of bs.items)) cursor.entry result }
    ensures falls { IfOk result (λ r. bytes_left r.1 < bytes_left cursor.entry) }
{
    let mut branches = Vec::new(alloc);
    let mut at = cursor;
    loop {
        at = read_branch(alloc, at, names, begun, &mut branches)?;
        if !is_keyword(&at.token.lexeme, Keyword::Branch) {
            return Ok((branches, at));
        }
    }
}
