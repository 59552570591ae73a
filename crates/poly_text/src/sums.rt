//! Reads sums by recursive descent.

ghost use Rattle.std.specs.Prelude.{◌≡◌, ◌≢◌, ◌≤◌, ◌<◌, ◌^◌, ℕ, List, pos, None, Err, IfSome, ◌∷◌, IfOk, IfErr, IsTrue, unwrap_or};
ghost use Rattle.std.specs.Option.{option_map};
ghost use Rattle.loops.specs.Limits.{most_operators};
ghost use Rattle.loop_model.specs.Ascii.{star, minus_sign, slash};
ghost use Rattle.loop_model.specs.Names.{place_of};
ghost use Rattle.loop_model.specs.ExpressionView.{expr_of};
ghost use Rattle.poly_text.specs.CursorView.{bytes_left};
ghost use Rattle.poly_text.specs.Faults.{fault_of, reason_of};
ghost use Rattle.grammars.specs.Grammar.{Placed, rule};
ghost use Rattle.poly_text.specs.Lexemes as spec;
ghost use Rattle.poly_text.specs.Lexemes.{sign, is_sign_of};
ghost use Rattle.poly_text.specs.NameFaults.{has, name_fault};
ghost use Rattle.poly_text.specs.NextToken.{seen_lexeme};
ghost use Rattle.poly_text.specs.Sums as grammar;
ghost use Rattle.poly_text.specs.Sums.{SumState, SumValue, sum_language, a_sum};
ghost use Rattle.poly_text.specs.Reads.{Around, around, inside, state_in, state_behind, with_exponent, with_divisor, Counts, ReadsPart, ReadsBehind};
ghost use Rattle.poly_text.specs.Telling.{reading, Reads, Goes};
ghost use Rattle.poly_text.specs.Tokens.{number_limit};

use crate::cursor::{Cursor, Read};
use crate::lexemes::Lexeme;
use crate::{Refusal, TextError};
use frac128::Whole;
use loop_model::{BinaryOperator, Expr, MOST_BYTES, Names, UnaryOperator};
use std::alloc::Global;

/// The most operators of a sum.
const MOST_OPERATORS: usize = 1024;

/// The most parentheses and leading minus signs that are open at once.
const MOST_DEPTH: usize = 64;

/// The greatest exponent.
const MOST_EXPONENT: u128 = 16;

/// A part of a sum, and how many operators were read up to its end.
#[derive(Drop)]
pub struct Part {
    pub value: Box<Expr>,
    pub operators: usize,
}

/// Reads sums over the names, in which no variable at a position that is refused may stand; `refusal` says why.
#[derive(Clone, Copy)]
pub struct SumReader<'a> {
    pub alloc: Global,
    pub names: &'a Names,
    pub refused: &'a [usize],
    pub refusal: Refusal,
}

/// The number of this value.
fn whole(value: u128) -> Whole
    requires { value < number_limit }
    ensures { result.value ≡ pos value }
{
    Whole::new(value as i128).unwrap()
}

/// The fault of a sign in place of a divisor: what begins a factor has the fault that it has there, or else is no divisor.
fn no_divisor(byte: u8, at: usize, operators: usize, depth: usize) -> TextError
    ensures { (a : Around) (ts : List (Placed spec.Lexeme)) → a.depth ≡ depth
        → IfSome (option_map (λ f. Err f) (fault_of result))
        (λ told. told ≡ reading sum_language grammar.divisor_token (state_in a operators)
        (record { at = at; lexeme = sign byte } ∷ ts)) }
{
    if byte != b'(' && byte != b'-' {
        return TextError::Syntax { at };
    }
    if depth >= MOST_DEPTH {
        return TextError::Limit { at };
    }
    if byte == b'-' && operators >= MOST_OPERATORS {
        return TextError::Limit { at };
    }
    TextError::Divisor { at }
}

/// The sum of both, or if it is negative their difference.
#[tactic(auto, unfolding(loop_model::specs::ExpressionView::expr_of))]
fn joint(negative: bool, at: usize, left: Box<Expr>, right: Box<Expr>) -> Expr
    ensures { expr_of result
        ≡ grammar.joint negative at (expr_of left.value) (expr_of right.value) }
{
    let operator = if negative {
        BinaryOperator::Sub
    } else {
        BinaryOperator::Add
    };
    Expr::Binary {
        at,
        operator,
        left,
        right,
    }
}

/// Goes on behind a `)`.
fn expect_closing<'t>(cursor: Cursor<'t>) -> Result<Cursor<'t>, TextError>
    ensures goes { (a : Around) (n : ℕ) → Goes sum_language grammar.closing
        (state_in (inside a) n) (state_in a n) cursor.entry result }
    ensures falls { IfOk result (λ end. bytes_left end < bytes_left cursor.entry) }
{
    let at = cursor.token.at;
    if cursor.token.lexeme.is_sign(b')') {
        Ok(cursor.next())
    } else {
        Err(TextError::Syntax { at })
    }
}

/// Goes on behind the operator, unless it is one too many.
#[tactic(auto, unfolding(loops::specs::Limits::most_operators))]
fn count_operator<'t>(cursor: Cursor<'t>, operators: usize) -> Result<Cursor<'t>, TextError>
    requires { cursor.token.lexeme ≢ Lexeme.End }
    ensures goes { Counts operators cursor.entry result }
    ensures few { IfOk result (λ _. operators < most_operators) }
    ensures falls { IfOk result (λ end. bytes_left end < bytes_left cursor.entry) }
{
    let at = cursor.token.at;
    if operators >= MOST_OPERATORS {
        return Err(TextError::Limit { at });
    }
    Ok(cursor.next())
}

/// Reads an exponent.
fn exponent<'t>(cursor: Cursor<'t>) -> Read<'t, u32>
    ensures reads { (s : SumState) →
        Reads sum_language grammar.exponent s (with_exponent s) cursor.entry result }
    ensures falls { IfOk result (λ r. bytes_left r.1 < bytes_left cursor.entry) }
{
    let at = cursor.token.at;
    match cursor.token.lexeme {
        Lexeme::Number(value) => {
            if value > MOST_EXPONENT {
                return Err(TextError::Limit { at });
            }
            Ok((value as u32, cursor.next()))
        }
        Lexeme::Large => Err(TextError::Limit { at }),
        _ => Err(TextError::Syntax { at }),
    }
}

impl SumReader<'_> {
    /// The position of the variable with this name, which stands at an offset.
    fn variable(&self, word: &[u8], at: usize) -> Result<usize, TextError>
        ensures ok { IfOk result (λ i. i ≡ unwrap_or (place_of self.now.names.now word.now) 0) }
        ensures free { IfOk result
            (λ _. name_fault self.now.names.now self.now.refused.now
            (reason_of self.now.refusal) word.now ≡ None) }
        ensures err { IfErr result
            (λ e. fault_of e ≡ option_map (λ why. record { reason = why; at = at })
            (name_fault self.now.names.now self.now.refused.now
            (reason_of self.now.refusal) word.now)) }
    {
        if word.len() > MOST_BYTES {
            return Err(TextError::Limit { at });
        }
        match self.names.position(word) {
            None => Err(TextError::Unknown { at }),
            Some(index) => {
                if self.is_refused(index) {
                    return Err(self.refusal.fault(at));
                }
                Ok(index)
            }
        }
    }

    /// Whether the variable at this position may not stand in the sum.
    fn is_refused(&self, index: usize) -> bool
        ensures { result ≡ has self.now.refused.now index }
    {
        self.refused.contains(&index)
    }

    /// Reads a number, a name, or a sum in parentheses.
    #[cycle(sum)]
    fn atom<'t>(&self, cursor: Cursor<'t>, operators: usize, depth: usize) -> Read<'t, Part>
        ensures reads { ReadsPart self.now depth grammar.atom operators cursor.entry result }
        ensures falls { IfOk result (λ r. bytes_left r.1 < bytes_left cursor.entry) }
    {
        let at = cursor.token.at;
        match cursor.token.lexeme {
            Lexeme::Number(value) => {
                let value = whole(value);
                let value = Box::new(self.alloc, Expr::Number { value })?;
                Ok((Part { value, operators }, cursor.next()))
            }
            Lexeme::Large => Err(TextError::Wide { at }),
            Lexeme::Name(word) => match self.variable(word, at) {
                Ok(index) => {
                    let value = Box::new(self.alloc, Expr::Variable { index })?;
                    Ok((Part { value, operators }, cursor.next()))
                }
                Err(error) => Err(error),
            },
            Lexeme::Sign(_) => self.parentheses(cursor, operators, depth),
            _ => Err(TextError::Syntax { at }),
        }
    }

    /// Reads a sum in parentheses.
    #[cycle(sum)]
    fn parentheses<'t>(&self, cursor: Cursor<'t>, operators: usize, depth: usize) -> Read<'t, Part>
        ensures reads { ReadsPart self.now depth grammar.parentheses operators cursor.entry result }
        ensures falls { IfOk result (λ r. bytes_left r.1 < bytes_left cursor.entry) }
    {
        let at = cursor.token.at;
        if !cursor.token.lexeme.is_sign(b'(') {
            return Err(TextError::Syntax { at });
        }
        if depth >= MOST_DEPTH {
            return Err(TextError::Limit { at });
        }
        let (sum, end) = self.sum(cursor.next(), operators, depth + 1)?;
        let end = expect_closing(end)?;
        Ok((sum, end))
    }

    /// Reads a `^` and the exponent, if they follow the atom.
    #[tactic(auto, unfolding(loops::specs::Limits::most_operators))]
    fn power<'t>(&self, atom: Part, cursor: Cursor<'t>) -> Read<'t, Part>
        ensures reads { (a : Around) →
            Reads sum_language grammar.raising (state_behind a atom) (state_behind a) cursor.entry
            result }
        ensures falls { IfOk result (λ r. bytes_left r.1 ≤ bytes_left cursor.entry) }
    {
        if !cursor.token.lexeme.is_sign(b'^') {
            return Ok((atom, cursor));
        }
        let at = cursor.token.at;
        let next = count_operator(cursor, atom.operators)?;
        let (exponent, end) = exponent(next)?;
        let operators = atom.operators + 1;
        let of = atom.value;
        let operator = UnaryOperator::Power { exponent };
        let value = Box::new(self.alloc, Expr::Unary { at, operator, of })?;
        Ok((Part { value, operators }, end))
    }

    /// Reads an atom with its exponent, or a factor behind a `-`.
    #[cycle(sum)]
    fn factor<'t>(&self, cursor: Cursor<'t>, operators: usize, depth: usize) -> Read<'t, Part>
        ensures reads { ReadsPart self.now depth grammar.factor operators cursor.entry result }
        ensures falls { IfOk result (λ r. bytes_left r.1 < bytes_left cursor.entry) }
    {
        if cursor.token.lexeme.is_sign(b'-') {
            return self.opposite(cursor, operators, depth);
        }
        let (atom, end) = self.atom(cursor, operators, depth)?;
        self.power(atom, end)
    }

    /// Reads a factor behind a `-`.
    #[cycle(sum)]
    fn opposite<'t>(&self, cursor: Cursor<'t>, operators: usize, depth: usize) -> Read<'t, Part>
        requires { IsTrue (is_sign_of (seen_lexeme cursor.token.lexeme) minus_sign) }
        ensures reads { ReadsPart self.now depth grammar.opposite operators cursor.entry result }
        ensures falls { IfOk result (λ r. bytes_left r.1 < bytes_left cursor.entry) }
    {
        let at = cursor.token.at;
        if depth >= MOST_DEPTH || operators >= MOST_OPERATORS {
            return Err(TextError::Limit { at });
        }
        let (factor, end) = self.factor(cursor.next(), operators + 1, depth + 1)?;
        let operators = factor.operators;
        let of = factor.value;
        let operator = UnaryOperator::Neg;
        let value = Box::new(self.alloc, Expr::Unary { at, operator, of })?;
        Ok((Part { value, operators }, end))
    }

    /// Reads a divisor.
    fn divisor<'t>(&self, cursor: Cursor<'t>, operators: usize, depth: usize) -> Read<'t, u128>
        ensures reads { (us : List ℕ) (v : SumValue) →
            let s = state_in (around self.now depth us v) operators in
            Reads sum_language grammar.divisor_token s (with_divisor s) cursor.entry result }
        ensures some { IfOk result (λ r. r.0 ≢ 0) }
        ensures small { IfOk result (λ r. r.0 < number_limit) }
        ensures falls { IfOk result (λ r. bytes_left r.1 < bytes_left cursor.entry) }
    {
        let at = cursor.token.at;
        match cursor.token.lexeme {
            Lexeme::Name(word) => match self.variable(word, at) {
                Ok(_) => Err(TextError::Divisor { at }),
                Err(error) => Err(error),
            },
            Lexeme::Number(value) => {
                if value == 0 {
                    return Err(TextError::Divisor { at });
                }
                Ok((value, cursor.next()))
            }
            Lexeme::Large => Err(TextError::Wide { at }),
            Lexeme::Sign(byte) => Err(no_divisor(byte, at, operators, depth)),
            _ => Err(TextError::Syntax { at }),
        }
    }

    /// Reads a `/` and a divisor behind the product.
    #[tactic(auto, unfolding(loops::specs::Limits::most_operators))]
    fn over<'t>(&self, product: Part, cursor: Cursor<'t>, depth: usize) -> Read<'t, Part>
        requires { IsTrue (is_sign_of (seen_lexeme cursor.token.lexeme) slash) }
        ensures reads { ReadsBehind self.now depth grammar.over product cursor.entry result }
        ensures falls { IfOk result (λ r. bytes_left r.1 < bytes_left cursor.entry) }
    {
        let at = cursor.token.at;
        let next = count_operator(cursor, product.operators)?;
        let operators = product.operators + 1;
        let (divisor, end) = self.divisor(next, operators, depth)?;
        let by = whole(divisor);
        let of = product.value;
        let operator = UnaryOperator::Div { by };
        let value = Box::new(self.alloc, Expr::Unary { at, operator, of })?;
        Ok((Part { value, operators }, end))
    }

    /// Reads a `*` and a factor behind the product.
    #[cycle(sum)]
    #[tactic(auto, unfolding(loops::specs::Limits::most_operators))]
    fn times<'t>(&self, product: Part, cursor: Cursor<'t>, depth: usize) -> Read<'t, Part>
        requires { IsTrue (is_sign_of (seen_lexeme cursor.token.lexeme) star) }
        ensures reads { ReadsBehind self.now depth grammar.times product cursor.entry result }
        ensures falls { IfOk result (λ r. bytes_left r.1 < bytes_left cursor.entry) }
    {
        let at = cursor.token.at;
        let next = count_operator(cursor, product.operators)?;
        let (factor, end) = self.factor(next, product.operators + 1, depth)?;
        let operators = factor.operators;
        let (left, right) = (product.value, factor.value);
        let operator = BinaryOperator::Mul;
        let value = Box::new(
            self.alloc,
            Expr::Binary {
                at,
                operator,
                left,
                right,
            },
        )?;
        Ok((Part { value, operators }, end))
    }

    /// Reads factors joined by `*`, and divisors behind `/`.
    #[cycle(sum)]
    fn product<'t>(&self, cursor: Cursor<'t>, operators: usize, depth: usize) -> Read<'t, Part>
        ensures reads { ReadsPart self.now depth grammar.product operators cursor.entry result }
        ensures falls { IfOk result (λ r. bytes_left r.1 < bytes_left cursor.entry) }
    {
        let (mut product, mut at) = self.factor(cursor, operators, depth)?;
        loop {
            if at.token.lexeme.is_sign(b'*') {
                let (next, end) = self.times(product, at, depth)?;
                product = next;
                at = end;
            } else if at.token.lexeme.is_sign(b'/') {
                let (next, end) = self.over(product, at, depth)?;
                product = next;
                at = end;
            } else {
                return Ok((product, at));
            }
        }
    }

    /// Reads a `+`, or a `-` if it is negative, and a product behind the sum.
    #[cycle(sum)]
    #[tactic(auto, unfolding(loops::specs::Limits::most_operators))]
    fn addition<'t>(
        &self,
        sum: Part,
        cursor: Cursor<'t>,
        depth: usize,
        negative: bool,
    ) -> Read<'t, Part>
        requires { IsTrue (is_sign_of (seen_lexeme cursor.token.lexeme)
            (grammar.sign_of negative)) }
        ensures reads { ReadsBehind self.now depth
            (grammar.joins negative) sum cursor.entry result }
        ensures falls { IfOk result (λ r. bytes_left r.1 < bytes_left cursor.entry) }
    {
        let at = cursor.token.at;
        let next = count_operator(cursor, sum.operators)?;
        let (product, end) = self.product(next, sum.operators + 1, depth)?;
        let operators = product.operators;
        let joint = joint(negative, at, sum.value, product.value);
        let value = Box::new(self.alloc, joint)?;
        Ok((Part { value, operators }, end))
    }

    /// Reads a sum, behind so many operators and inside so many parentheses and leading minus signs.
    #[cycle(sum)]
    pub fn sum<'t>(&self, cursor: Cursor<'t>, operators: usize, depth: usize) -> Read<'t, Part>
        ensures reads { ReadsPart self.now depth (rule a_sum) operators cursor.entry result }
        ensures falls { IfOk result (λ r. bytes_left r.1 < bytes_left cursor.entry) }
    {
        let (mut sum, mut at) = self.product(cursor, operators, depth)?;
        loop {
            if at.token.lexeme.is_sign(b'+') {
                let (next, end) = self.addition(sum, at, depth, false)?;
                sum = next;
                at = end;
            } else if at.token.lexeme.is_sign(b'-') {
                let (next, end) = self.addition(sum, at, depth, true)?;
                sum = next;
                at = end;
            } else {
                return Ok((sum, at));
            }
        }
    }
}
