//! Reads names: those of the variables, the local names, and those on left sides.

ghost use Rattle.std.specs.Prelude.{◌≡◌, ◌<◌, ◌≤◌, ◌++◌, [], ℕ, List, Option, None, length, map, IfOk, OnOk};
ghost use Rattle.std.specs.List.{list_any};
ghost use Rattle.poly_text.specs.CursorView.{bytes_left};
ghost use Rattle.poly_text.specs.Reasons.{Reason};
ghost use Rattle.loop_model.specs.Names.{place_of};
ghost use Rattle.loop_model.specs.Uses.{uses};
ghost use Rattle.loop_model.specs.ExpressionView.{expr_of};
ghost use Rattle.loop_model.specs.Parts.{equation_of};
ghost use Rattle.loop_text.specs.Loops as grammar;
ghost use Rattle.grammars.specs.Grammar.{sequence, separated, optional};
ghost use Rattle.loop_model.specs.Ascii.{comma, semicolon};
ghost use Rattle.loop_text.specs.Loops.{LoopContext, LoopState, nothing, locals_word, word as name_token};
ghost use Rattle.loop_text.specs.States.{Goes, Reads, IsLeft, IsDeclaration, AreVariablesThenLocals, used_in, with_names};
ghost use Rattle.loop_model.specs.Limits.{names_limit, all_names_limit};

use crate::tokens::{expect_sign, is_keyword, syntax_fault};
use loop_model::{Init, Keyword, MOST_BYTES, Names};
use poly_text::{Cursor, Lexeme, TextError};
use std::alloc::Global;

const MOST_NAMES: usize = 12;

/// The names of a loop: those of its variables, its local names, and both in this order, as statements count them.
#[derive(Drop)]
pub struct LoopNames {
    pub variables: Names,
    pub locals: Names,
    pub all: Names,
}

/// Adds the next token, which is a new name, to the names of its kind and to all.
#[tactic(auto, unfolding(loops::specs::Limits::most_bytes))]
fn read_name<'t>(
    cursor: Cursor<'t>,
    names: &mut Names,
    all: &mut Names,
) -> Result<Cursor<'t>, TextError>
    requires among { (w : List ℕ) → place_of all.old w ≡ None → place_of names.old w ≡ None }
    requires few { length all.old ≤ all_names_limit }
    ensures goes { (fault : LoopContext → List ℕ → Option Reason)
        (next : LoopContext → List ℕ → LoopContext) (s : LoopState)
        (after : List (List ℕ) → LoopState) →
        IsDeclaration names.old all.old fault next s after →
        Goes (name_token fault next) s (after names.new) cursor.entry result }
    ensures all { (before : List (List ℕ)) → all.old ≡ before ++ names.old
        → OnOk result (all.new ≡ before ++ names.new) }
    ensures few { OnOk result (length names.new ≤ names_limit) }
    ensures falls { IfOk result (λ end. bytes_left end < bytes_left cursor.entry) }
{
    let at = cursor.token.at;
    let Lexeme::Name(word) = cursor.token.lexeme else {
        return Err(syntax_fault(cursor));
    };
    if names.len() >= MOST_NAMES || word.len() > MOST_BYTES {
        return Err(TextError::Limit { at });
    }
    if all.position(word).is_some() {
        return Err(TextError::Twice { at });
    }
    names.push_new(word)?;
    all.push_new(word)?;
    Ok(cursor.next())
}

/// Reads `vars`, the names, and the `;` behind them.
pub fn read_names(alloc: Global, cursor: Cursor<'_>) -> Result<(LoopNames, Cursor<'_>), TextError>
    ensures reads { Reads grammar.names nothing (λ ns. with_names ns.variables []) cursor.entry
        result }
    ensures all { IfOk result (λ r. AreVariablesThenLocals r.0) }
    ensures none { IfOk result (λ r. r.0.locals ≡ []) }
    ensures few { IfOk result (λ r. length r.0.variables ≤ names_limit) }
{
    if !is_keyword(&cursor.token.lexeme, Keyword::Vars) {
        return Err(syntax_fault(cursor));
    }
    let mut variables = Names::empty(alloc);
    let mut all = Names::empty(alloc);
    let mut at = cursor.next();
    loop {
        let end = read_name(at, &mut variables, &mut all)?;
        if !end.token.lexeme.is_sign(b',') {
            let end = expect_sign(end, b';')?;
            let locals = Names::empty(alloc);
            return Ok((
                LoopNames {
                    variables,
                    locals,
                    all,
                },
                end,
            ));
        }
        at = end.next();
    }
}

/// Reads names up to the `;` behind them, and adds them to the local names.
fn read_local_names(
    cursor: Cursor<'_>,
    names: LoopNames,
) -> Result<(LoopNames, Cursor<'_>), TextError>
    requires all { AreVariablesThenLocals names }
    requires none { names.locals ≡ [] }
    requires few { length names.variables ≤ names_limit }
    ensures reads { Reads (sequence (separated (grammar.sign comma) grammar.local_name)
        (grammar.sign semicolon)) (with_names names.variables [])
        (λ ns. with_names names.variables ns.locals) cursor.entry result }
    ensures all { IfOk result (λ r. AreVariablesThenLocals r.0) }
    ensures variables { IfOk result (λ r. r.0.variables ≡ names.variables) }
    ensures few { IfOk result (λ r. length r.0.locals ≤ names_limit) }
{
    let mut names = names;
    let mut at = cursor;
    loop {
        let end = read_name(at, &mut names.locals, &mut names.all)?;
        if !end.token.lexeme.is_sign(b',') {
            let end = expect_sign(end, b';')?;
            return Ok((names, end));
        }
        at = end.next();
    }
}

/// Whether the word is `locals`, which is a name in any other place.
fn is_locals(word: &[u8]) -> bool
    ensures { result ≡ locals_word word.now }
{
    word == b"locals".as_slice()
}

/// Reads `locals`, the local names, and the `;` behind them, if the text goes on with a name.
pub fn read_locals(
    cursor: Cursor<'_>,
    names: LoopNames,
) -> Result<(LoopNames, Cursor<'_>), TextError>
    requires all { AreVariablesThenLocals names }
    requires none { names.locals ≡ [] }
    requires few { length names.variables ≤ names_limit }
    ensures reads { Reads (optional grammar.locals) (with_names names.variables [])
        (λ ns. with_names names.variables ns.locals) cursor.entry result }
    ensures all { IfOk result (λ r. AreVariablesThenLocals r.0) }
    ensures variables { IfOk result (λ r. r.0.variables ≡ names.variables) }
    ensures few { IfOk result (λ r. length r.0.locals ≤ names_limit) }
{
    let Lexeme::Name(word) = cursor.token.lexeme else {
        return Ok((names, cursor));
    };
    if !is_locals(word) {
        return Err(syntax_fault(cursor));
    }
    read_local_names(cursor.next(), names)
}

/// Whether the variable stands in a right side.
fn is_used(start: &[Init], var: usize) -> bool
    ensures { result ≡ list_any (λ i. uses (expr_of i.value) var) start.now }
{
    start.iter().any(|equation| equation.value.uses(var))
}

/// Reads the name on a left side, of a variable that isn't among those taken and stands in no right side of the start.
#[tactic(auto, unfolding(loops::specs::Limits::most_bytes))]
pub fn read_left<'t>(
    cursor: Cursor<'t>,
    names: &Names,
    taken: &[usize],
    start: &[Init],
) -> Result<(usize, Cursor<'t>), TextError>
    ensures reads { (fault : LoopContext → List ℕ → Option Reason)
        (next : LoopContext → List ℕ → LoopContext) (s : LoopState) (after : ℕ → LoopState) →
        let used = used_in (map equation_of start.now) in
        IsLeft names.now taken.now used fault next s after →
        Reads (name_token fault next) s after cursor.entry result }
    ensures falls { IfOk result (λ r. bytes_left r.1 < bytes_left cursor.entry) }
{
    let at = cursor.token.at;
    let Lexeme::Name(word) = cursor.token.lexeme else {
        return Err(syntax_fault(cursor));
    };
    if word.len() > MOST_BYTES {
        return Err(TextError::Limit { at });
    }
    let Some(var) = names.position(word) else {
        return Err(TextError::Unknown { at });
    };
    if taken.contains(&var) {
        return Err(TextError::Twice { at });
    }
    if is_used(start, var) {
        return Err(TextError::InitUses { at });
    }
    Ok((var, cursor.next()))
}
