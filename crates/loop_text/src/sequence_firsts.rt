//! Reads the values that are given, of each sequence.

ghost use Rattle.std.specs.Prelude.{◌≡◌, ◌<◌, ◌≤◌, ◌++◌, ◌∷◌, ℕ, suc, List, [], length, IfOk, OnOk};
ghost use Rattle.loops.specs.Limits.{most_names};
ghost use Rattle.loops.specs.Program as loops;
ghost use Rattle.poly_text.specs.CursorView.{bytes_left, rest};
ghost use Rattle.poly_text.specs.Kinds.{word_in};
ghost use Rattle.poly_text.specs.NextToken.{seen_lexeme};
ghost use Rattle.loop_model.specs.ExpressionView.{expr_of};
ghost use Rattle.loop_text.specs.Seqs as grammar;
ghost use Rattle.loop_text.specs.Seqs.{SeqState, nothing, last, variable_name};
ghost use Rattle.loop_text.specs.LoopLayout.{IsGiven};
ghost use Rattle.loop_text.specs.SequenceStates.{Goes, Reads, IsFault, reading, in_first, between};
ghost use Rattle.loop_text.specs.Standing.{AreTokens};
ghost use Rattle.loop_text.specs.Firsts.{values_in, opened, behind, behind_all, IsDeclared, AreMade, IsOpen};

use crate::sequence_sums::in_values;
use crate::sequence_tokens::expect_sign;
use crate::sequence_words::{is_seqname, is_sequences};
use crate::tokens::syntax_fault;
use itoa::Buffer;
use loop_model::{Expr, Init, Names};
use poly_text::{Cursor, Lexeme, Refusal, SumReader, TextError};
use std::alloc::{AllocError, Global};

/// The most bytes of a sequence's name.
const MOST_SEQNAME: usize = 24;

/// The most variables of a loop.
const MOST_NAMES: usize = 12;

/// Reads the first word of a text.
pub fn read_opening(cursor: Cursor<'_>) -> Result<Cursor<'_>, TextError>
    ensures goes { (s : SeqState) → Goes grammar.opening s s cursor.entry result }
    ensures falls { IfOk result (λ end. bytes_left end < bytes_left cursor.entry) }
{
    let Lexeme::Name(word) = cursor.token.lexeme else {
        return Err(syntax_fault(cursor));
    };
    if !is_sequences(word) {
        return Err(syntax_fault(cursor));
    }
    Ok(cursor.next())
}

/// Adds the next token, which is a new name of a sequence, to the names.
#[tactic(auto, unfolding(crate::specs::Seqs::most_seqname, loops::specs::Limits::most_bytes, loops::specs::Limits::most_names))]
fn read_name<'t>(cursor: Cursor<'t>, sequences: &mut Names) -> Result<Cursor<'t>, TextError>
    requires room { length sequences.old ≤ most_names }
    ensures goes { (vs : List (List ℕ)) (rs : List ℕ) (es : List (loops.Expr ℕ)) →
        Goes grammar.declared_name (between sequences.old vs rs es) (between sequences.new vs rs es)
        cursor.entry result }
    ensures declared { let w = word_in (seen_lexeme cursor.entry.token.lexeme) in
        IfOk result (λ _. IsDeclared w sequences.old sequences.new) }
    ensures falls { IfOk result (λ end. bytes_left end < bytes_left cursor.entry) }
{
    let at = cursor.token.at;
    let Lexeme::Name(word) = cursor.token.lexeme else {
        return Err(syntax_fault(cursor));
    };
    if !is_seqname(word) {
        return Err(syntax_fault(cursor));
    }
    if word.len() > MOST_SEQNAME {
        return Err(TextError::Limit { at });
    }
    if sequences.position(word).is_some() {
        return Err(TextError::Twice { at });
    }
    sequences.push_new(word)?;
    Ok(cursor.next())
}

/// The sequences that are declared, the variables that they make, the values that are given, and how many of each
/// finished sequence.
#[derive(Drop)]
pub struct Firsts {
    pub sequences: Names,
    pub variables: Names,
    pub start: Vec<Init>,
    pub orders: Vec<usize>,
}

/// The name of a variable: that of its sequence, and with it the index unless this is 0.
fn variable_name(alloc: Global, name: &[u8], index: usize) -> Result<Vec<u8>, AllocError>
    ensures { IfOk result (λ v. v.items ≡ variable_name name.now index) }
{
    let mut bytes = Vec::new(alloc);
    bytes.extend_from_slice(name)?;
    if index == 0 {
        return Ok(bytes);
    }
    let mut buffer = Buffer::new();
    bytes.push(b'_')?;
    bytes.extend_from_slice(buffer.format(index).as_bytes())?;
    Ok(bytes)
}

/// Reads a value, where there are so many variables before it.
#[tactic(auto, unfolding(loops::specs::Limits::most_names))]
fn read_value<'t>(
    alloc: Global,
    text: &[u8],
    cursor: Cursor<'t>,
    variables: usize,
) -> Result<(Expr, Cursor<'t>), TextError>
    requires tokens { AreTokens text.now (rest cursor) }
    ensures reads { (ws vs : List (List ℕ)) (rs : List ℕ) (es : List (loops.Expr ℕ)) (own : ℕ) →
        length vs ≡ variables → Reads grammar.value (in_first ws vs rs es own)
        (λ e. in_first ws (vs ++ variable_name (last ws) own ∷ []) rs (es ++ expr_of e ∷ [])
        (suc own))
        cursor.entry result }
    ensures given { IfOk result (λ r. IsGiven (expr_of r.0)) }
    ensures room { IfOk result (λ _. variables < most_names) }
    ensures falls { IfOk result (λ r. bytes_left r.1 < bytes_left cursor.entry) }
{
    if variables >= MOST_NAMES {
        return Err(too_many(cursor));
    }
    let none = Names::empty(alloc);
    let sums = SumReader {
        alloc,
        names: &none,
        refused: &[],
        refusal: Refusal::InitUses,
    };
    match sums.sum(cursor, 0, 0) {
        Ok((sum, end)) => Ok((Box::into_inner(sum.value), end)),
        Err(error) => Err(in_values(text, error)),
    }
}

/// The fault of a token behind as many values as there may be: what may begin a value is one too many.
fn too_many(cursor: Cursor<'_>) -> TextError
    ensures { (s : SeqState) → most_names ≤ length s.context.variables →
        IsFault result (reading grammar.value s (rest cursor.entry)) }
{
    let at = cursor.token.at;
    if cursor.token.lexeme.is_sign(b'(') {
        return TextError::Limit { at };
    }
    if cursor.token.lexeme.is_sign(b'-') {
        return TextError::Limit { at };
    }
    match cursor.token.lexeme {
        Lexeme::Name(word) => {
            if is_sequences(word) {
                TextError::Syntax { at }
            } else {
                TextError::Limit { at }
            }
        }
        Lexeme::Number(_) => TextError::Limit { at },
        Lexeme::Large => TextError::Limit { at },
        _ => TextError::Syntax { at },
    }
}

impl Firsts {
    /// Nothing was read.
    fn empty(alloc: Global) -> Firsts
        ensures state { behind result ≡ nothing }
        ensures made { AreMade result }
    {
        Firsts {
            sequences: Names::empty(alloc),
            variables: Names::empty(alloc),
            start: Vec::new(alloc),
            orders: Vec::new(alloc),
        }
    }

    /// One value more of the sequence with this name, of which there are so many.
    #[tactic(auto, unfolding(loops::specs::Limits::most_names))]
    fn push_value(
        &mut self,
        alloc: Global,
        name: &[u8],
        index: usize,
        value: Expr,
    ) -> Result<(), AllocError>
        requires open { IsOpen self.old index name.now }
        requires room { length self.old.variables < most_names }
        requires given { IsGiven (expr_of value) }
        ensures state { OnOk result (opened self.new (suc index)
            ≡ in_first self.old.sequences (self.old.variables ++ variable_name name.now index ∷ [])
            self.old.orders.items (values_in self.old ++ expr_of value ∷ []) (suc index)) }
        ensures open { OnOk result (IsOpen self.new (suc index) name.now) }
    {
        let variable = variable_name(alloc, name, index)?;
        let var = self.variables.len();
        self.variables.push_new(&variable)?;
        self.start.push(Init { var, value })?;
        Ok(())
    }
}

/// Reads the name of a sequence, and in parentheses the values that are given of it.
fn read_first<'t>(
    alloc: Global,
    text: &[u8],
    cursor: Cursor<'t>,
    firsts: &mut Firsts,
) -> Result<Cursor<'t>, TextError>
    requires tokens { AreTokens text.now (rest cursor) }
    requires made { AreMade firsts.old }
    ensures goes { Goes grammar.first (behind firsts.old) (behind firsts.new) cursor.entry result }
    ensures made { IfOk result (λ _. AreMade firsts.new) }
    ensures some { IfOk result (λ _. 0 < length firsts.new.sequences) }
    ensures falls { IfOk result (λ end. bytes_left end < bytes_left cursor.entry) }
{
    let Lexeme::Name(name) = cursor.token.lexeme else {
        return Err(syntax_fault(cursor));
    };
    let named = read_name(cursor, &mut firsts.sequences)?;
    let equals = expect_sign(named, b'=')?;
    let mut at = expect_sign(equals, b'(')?;
    let mut order = 0;
    loop {
        let (value, end) = read_value(alloc, text, at, firsts.variables.len())?;
        firsts.push_value(alloc, name, order, value)?;
        order += 1;
        if !end.token.lexeme.is_sign(b',') {
            let end = expect_sign(end, b')')?;
            firsts.orders.push(order)?;
            return Ok(end);
        }
        at = end.next();
    }
}

/// Reads the sequences with the values that are given of them, and the `;` behind them.
pub fn read_firsts<'t>(
    alloc: Global,
    text: &[u8],
    cursor: Cursor<'t>,
) -> Result<(Firsts, Cursor<'t>), TextError>
    requires tokens { AreTokens text.now (rest cursor) }
    ensures reads { Reads grammar.firsts nothing (λ f. behind_all f []) cursor.entry result }
    ensures made { IfOk result (λ r. AreMade r.0) }
    ensures some { IfOk result (λ r. 0 < length r.0.sequences) }
{
    let mut firsts = Firsts::empty(alloc);
    let mut at = cursor;
    loop {
        let end = read_first(alloc, text, at, &mut firsts)?;
        if !end.token.lexeme.is_sign(b',') {
            let end = expect_sign(end, b';')?;
            return Ok((firsts, end));
        }
        at = end.next();
    }
}
