//! Reads sums by recursive descent.

ghost use Rattle.std.specs.Prelude.{◌≡◌, ◌≢◌, ◌≤◌, ◌<◌, ◌^◌, List, pos, None, Err, IfSome, ◌∷◌, ◌&&◌, not, true, false, IfOk, IfErr, IsTrue, unwrap_or};
ghost use Rattle.std.specs.Option.{option_map};
ghost use Rattle.loops.specs.Limits.{most_operators};
ghost use Rattle.loop_model.specs.Ascii.{star, minus_sign, slash};
ghost use Rattle.loop_model.specs.Names.{place_of};
ghost use Rattle.loop_model.specs.ExpressionView.{expr_of};
ghost use Rattle.program_text.specs.CursorView.{bytes_left, begins_by_number};
ghost use Rattle.program_text.specs.Faults.{fault_of};
ghost use Rattle.grammars.specs.Grammar.{Placed, rule};
ghost use Rattle.program_text.specs.Lexemes as spec;
ghost use Rattle.program_text.specs.Lexemes.{sign, is_sign_of};
ghost use Rattle.program_text.specs.NameFaults.{name_fault};
ghost use Rattle.program_text.specs.NextToken.{seen_lexeme};
ghost use Rattle.program_text.specs.Sums as grammar;
ghost use Rattle.program_text.specs.Sums.{SumState, SumValue, sum_language, a_sum};
ghost use Rattle.program_text.specs.Reads.{Progress as Seen, Around, around, progress_of, inside, state_in, state_behind, with_exponent, with_divisor, Counts, ReadsPart, ReadsBehind, ReadsDivisor};
ghost use Rattle.program_text.specs.Telling.{reading, Reads, Goes};
ghost use Rattle.poly_text.specs.Tokens.{number_limit};

use crate::ProgramTextError;
use crate::cursor::{Cursor, Read};
use crate::lexemes::Lexeme;
use frac128::Whole;
use loop_model::{BinaryOperator, Expr, MOST_BYTES, Names, UnaryOperator};
use program_model::Divisor;
use std::alloc::Global;

/// The most operators of a sum.
const MOST_OPERATORS: usize = 1024;

/// The most parentheses and leading minus signs that are open at once.
const MOST_DEPTH: usize = 64;

/// The greatest exponent.
const MOST_EXPONENT: u128 = 16;

/// How many operators of a sum were read, and the divisors that are no numbers, in the order in which they were read to their ends.
#[derive(Drop)]
pub struct Progress {
    pub operators: usize,
    pub divisors: Vec<Divisor>,
}

/// A part of a sum, and what was read up to its end.
#[derive(Drop)]
pub struct Part {
    pub value: Box<Expr>,
    pub progress: Progress,
}

/// Reads sums over the names. If it is free, any factor may stand behind a `/`: it becomes a divisor, and one over the divisor at an index
/// is the variable at that index behind the names.
#[derive(Clone, Copy)]
pub struct SumReader<'a> {
    pub alloc: Global,
    pub names: &'a Names,
    pub free: bool,
}

/// The number of this value.
fn whole(value: u128) -> Whole
    requires { value < number_limit }
    ensures { result.value ≡ pos value }
{
    Whole::new(value as i128).unwrap()
}

/// How many operators of the sum stand before a token, and how many parentheses and leading minus signs are open there.
#[derive(Clone, Copy)]
struct Surroundings {
    operators: usize,
    depth: usize,
}

/// The fault of a sign in place of a divisor: what begins a factor has the fault that it has there, or else is no divisor.
fn no_divisor(byte: u8, at: usize, around: Surroundings) -> ProgramTextError
    ensures { (a : Around) (n : Seen) (ts : List (Placed spec.Lexeme)) → a.depth ≡ around.depth
        → n.operators ≡ around.operators → IfSome (option_map (λ f. Err f) (fault_of result))
        (λ told. told ≡ reading sum_language grammar.divisor_token (state_in a n)
        (record { at = at; lexeme = sign byte } ∷ ts)) }
{
    let Surroundings { operators, depth } = around;
    if byte != b'(' && byte != b'-' {
        return ProgramTextError::Syntax { at };
    }
    if depth >= MOST_DEPTH {
        return ProgramTextError::Limit { at };
    }
    if byte == b'-' && operators >= MOST_OPERATORS {
        return ProgramTextError::Limit { at };
    }
    ProgramTextError::Divisor { at }
}

/// The sum of both, or if it is negative their difference.
#[tactic(auto, unfolding(loop_model::specs::ExpressionView::expr_of))]
fn joint(negative: bool, at: usize, left: Box<Expr>, right: Box<Expr>) -> Expr
    ensures { expr_of result
        ≡ grammar.joint negative at (expr_of left.value) (expr_of right.value) }
{
    let operator = if negative {
        BinaryOperator::Sub
    } else {
        BinaryOperator::Add
    };
    Expr::Binary {
        at,
        operator,
        left,
        right,
    }
}

/// Goes on behind a `)`.
fn expect_closing<'t>(cursor: Cursor<'t>) -> Result<Cursor<'t>, ProgramTextError>
    ensures goes { (a : Around) (n : Seen) → Goes sum_language grammar.closing
        (state_in (inside a) n) (state_in a n) cursor.entry result }
    ensures falls { IfOk result (λ end. bytes_left end < bytes_left cursor.entry) }
{
    let at = cursor.token.at;
    if cursor.token.lexeme.is_sign(b')') {
        Ok(cursor.next())
    } else {
        Err(ProgramTextError::Syntax { at })
    }
}

/// Goes on behind the operator, unless it is one too many.
#[tactic(auto, unfolding(loops::specs::Limits::most_operators))]
fn count_operator<'t>(cursor: Cursor<'t>, operators: usize) -> Result<Cursor<'t>, ProgramTextError>
    requires { cursor.token.lexeme ≢ Lexeme.End }
    ensures goes { Counts operators cursor.entry result }
    ensures few { IfOk result (λ _. operators < most_operators) }
    ensures falls { IfOk result (λ end. bytes_left end < bytes_left cursor.entry) }
{
    let at = cursor.token.at;
    if operators >= MOST_OPERATORS {
        return Err(ProgramTextError::Limit { at });
    }
    Ok(cursor.next())
}

/// Whether a number comes next.
fn begins_by_number(cursor: Cursor<'_>) -> bool
    ensures { result ≡ begins_by_number cursor.entry }
{
    match cursor.token.lexeme {
        Lexeme::Number(_) => true,
        Lexeme::Large => true,
        _ => false,
    }
}

/// Reads an exponent.
fn exponent<'t>(cursor: Cursor<'t>) -> Read<'t, u32>
    ensures reads { (s : SumState) →
        Reads sum_language grammar.exponent s (with_exponent s) cursor.entry result }
    ensures falls { IfOk result (λ r. bytes_left r.1 < bytes_left cursor.entry) }
{
    let at = cursor.token.at;
    match cursor.token.lexeme {
        Lexeme::Number(value) => {
            if value > MOST_EXPONENT {
                return Err(ProgramTextError::Limit { at });
            }
            Ok((value as u32, cursor.next()))
        }
        Lexeme::Large => Err(ProgramTextError::Limit { at }),
        _ => Err(ProgramTextError::Syntax { at }),
    }
}

impl SumReader<'_> {
    /// The position of the variable with this name, which stands at an offset.
    #[tactic(auto, unfolding(loops::specs::Limits::most_bytes))]
    fn variable(&self, word: &[u8], at: usize) -> Result<usize, ProgramTextError>
        ensures ok { IfOk result (λ i. i ≡ unwrap_or (place_of self.now.names.now word.now) 0) }
        ensures free { IfOk result (λ _. name_fault self.now.names.now word.now ≡ None) }
        ensures err { IfErr result
            (λ e. fault_of e ≡ option_map (λ why. record { reason = why; at = at })
            (name_fault self.now.names.now word.now)) }
    {
        if word.len() > MOST_BYTES {
            return Err(ProgramTextError::Limit { at });
        }
        match self.names.position(word) {
            None => Err(ProgramTextError::Unknown { at }),
            Some(index) => Ok(index),
        }
    }

    /// Reads a number, a name, or a sum in parentheses.
    #[cycle(sum)]
    fn atom<'t>(&self, cursor: Cursor<'t>, progress: Progress, depth: usize) -> Read<'t, Part>
        ensures reads { ReadsPart self.now depth grammar.atom (progress_of progress) cursor.entry
            result }
        ensures falls { IfOk result (λ r. bytes_left r.1 < bytes_left cursor.entry) }
    {
        let at = cursor.token.at;
        match cursor.token.lexeme {
            Lexeme::Number(value) => {
                let value = whole(value);
                let value = Box::new(self.alloc, Expr::Number { value })?;
                Ok((Part { value, progress }, cursor.next()))
            }
            Lexeme::Large => Err(ProgramTextError::Wide { at }),
            Lexeme::Name(word) => match self.variable(word, at) {
                Ok(index) => {
                    let value = Box::new(self.alloc, Expr::Variable { index })?;
                    Ok((Part { value, progress }, cursor.next()))
                }
                Err(error) => Err(error),
            },
            Lexeme::Sign(_) => self.parentheses(cursor, progress, depth),
            _ => Err(ProgramTextError::Syntax { at }),
        }
    }

    /// Reads a sum in parentheses.
    #[cycle(sum)]
    fn parentheses<'t>(
        &self,
        cursor: Cursor<'t>,
        progress: Progress,
        depth: usize,
    ) -> Read<'t, Part>
        ensures reads { ReadsPart self.now depth grammar.parentheses (progress_of progress)
            cursor.entry result }
        ensures falls { IfOk result (λ r. bytes_left r.1 < bytes_left cursor.entry) }
    {
        let at = cursor.token.at;
        if !cursor.token.lexeme.is_sign(b'(') {
            return Err(ProgramTextError::Syntax { at });
        }
        if depth >= MOST_DEPTH {
            return Err(ProgramTextError::Limit { at });
        }
        let (sum, end) = self.sum(cursor.next(), progress, depth + 1)?;
        let end = expect_closing(end)?;
        Ok((sum, end))
    }

    /// Reads a `^` and the exponent, if they follow the atom.
    #[tactic(auto, unfolding(loops::specs::Limits::most_operators))]
    fn power<'t>(&self, atom: Part, cursor: Cursor<'t>) -> Read<'t, Part>
        ensures reads { (a : Around) →
            Reads sum_language grammar.raising (state_behind a atom) (state_behind a) cursor.entry
            result }
        ensures falls { IfOk result (λ r. bytes_left r.1 ≤ bytes_left cursor.entry) }
    {
        if !cursor.token.lexeme.is_sign(b'^') {
            return Ok((atom, cursor));
        }
        let at = cursor.token.at;
        let before = atom.progress;
        let next = count_operator(cursor, before.operators)?;
        let (exponent, end) = exponent(next)?;
        let progress = Progress {
            operators: before.operators + 1,
            divisors: before.divisors,
        };
        let of = atom.value;
        let operator = UnaryOperator::Power { exponent };
        let value = Box::new(self.alloc, Expr::Unary { at, operator, of })?;
        Ok((Part { value, progress }, end))
    }

    /// Reads an atom with its exponent, or a factor behind a `-`.
    #[cycle(sum)]
    fn factor<'t>(&self, cursor: Cursor<'t>, progress: Progress, depth: usize) -> Read<'t, Part>
        ensures reads { ReadsPart self.now depth grammar.factor (progress_of progress) cursor.entry
            result }
        ensures falls { IfOk result (λ r. bytes_left r.1 < bytes_left cursor.entry) }
    {
        if cursor.token.lexeme.is_sign(b'-') {
            return self.opposite(cursor, progress, depth);
        }
        let (atom, end) = self.atom(cursor, progress, depth)?;
        self.power(atom, end)
    }

    /// Reads a factor behind a `-`.
    #[cycle(sum)]
    fn opposite<'t>(&self, cursor: Cursor<'t>, progress: Progress, depth: usize) -> Read<'t, Part>
        requires { IsTrue (is_sign_of (seen_lexeme cursor.token.lexeme) minus_sign) }
        ensures reads { ReadsPart self.now depth grammar.opposite (progress_of progress)
            cursor.entry result }
        ensures falls { IfOk result (λ r. bytes_left r.1 < bytes_left cursor.entry) }
    {
        let at = cursor.token.at;
        if depth >= MOST_DEPTH || progress.operators >= MOST_OPERATORS {
            return Err(ProgramTextError::Limit { at });
        }
        let behind = Progress {
            operators: progress.operators + 1,
            divisors: progress.divisors,
        };
        let (factor, end) = self.factor(cursor.next(), behind, depth + 1)?;
        let progress = factor.progress;
        let of = factor.value;
        let operator = UnaryOperator::Neg;
        let value = Box::new(self.alloc, Expr::Unary { at, operator, of })?;
        Ok((Part { value, progress }, end))
    }

    /// Reads a divisor that is a number.
    fn divisor<'t>(&self, cursor: Cursor<'t>, operators: usize, depth: usize) -> Read<'t, u128>
        ensures reads { (n : Seen) (v : SumValue) → n.operators ≡ operators →
            let s = state_in (around self.now depth v) n in
            Reads sum_language grammar.divisor_token s (with_divisor s) cursor.entry result }
        ensures some { IfOk result (λ r. r.0 ≢ 0) }
        ensures small { IfOk result (λ r. r.0 < number_limit) }
        ensures falls { IfOk result (λ r. bytes_left r.1 < bytes_left cursor.entry) }
    {
        let at = cursor.token.at;
        match cursor.token.lexeme {
            Lexeme::Name(word) => match self.variable(word, at) {
                Ok(_) => Err(ProgramTextError::Divisor { at }),
                Err(error) => Err(error),
            },
            Lexeme::Number(value) => {
                if value == 0 {
                    return Err(ProgramTextError::Divisor { at });
                }
                Ok((value, cursor.next()))
            }
            Lexeme::Large => Err(ProgramTextError::Wide { at }),
            Lexeme::Sign(byte) => Err(no_divisor(byte, at, Surroundings { operators, depth })),
            _ => Err(ProgramTextError::Syntax { at }),
        }
    }

    /// The product over the number that is read, behind a `/` at an offset.
    fn over_number<'t>(
        &self,
        product: Box<Expr>,
        at: usize,
        cursor: Cursor<'t>,
        progress: Progress,
        depth: usize,
    ) -> Read<'t, Part>
        requires { (self.now.free && not (begins_by_number cursor)) ≡ false }
        ensures reads { ReadsDivisor self.now depth (expr_of product.value) at
            (progress_of progress) cursor.entry result }
        ensures falls { IfOk result (λ r. bytes_left r.1 < bytes_left cursor.entry) }
    {
        let (divisor, end) = self.divisor(cursor, progress.operators, depth)?;
        let by = whole(divisor);
        let of = product;
        let operator = UnaryOperator::Div { by };
        let value = Box::new(self.alloc, Expr::Unary { at, operator, of })?;
        Ok((Part { value, progress }, end))
    }

    /// The product over the factor that is read, behind a `/` at an offset.
    #[cycle(sum)]
    fn over_factor<'t>(
        &self,
        product: Box<Expr>,
        at: usize,
        cursor: Cursor<'t>,
        progress: Progress,
        depth: usize,
    ) -> Read<'t, Part>
        requires free { self.now.free ≡ true }
        requires no_number { begins_by_number cursor ≡ false }
        ensures reads { ReadsDivisor self.now depth (expr_of product.value) at
            (progress_of progress) cursor.entry result }
        ensures falls { IfOk result (λ r. bytes_left r.1 < bytes_left cursor.entry) }
    {
        let (factor, end) = self.factor(cursor, progress, depth)?;
        let operators = factor.progress.operators;
        let mut divisors = factor.progress.divisors;
        let index = self.names.len() + divisors.len();
        let value = Box::into_inner(factor.value);
        divisors.push(Divisor { at, value })?;
        let progress = Progress {
            operators,
            divisors,
        };
        let left = product;
        let right = Box::new(self.alloc, Expr::Variable { index })?;
        let operator = BinaryOperator::Mul;
        let value = Box::new(
            self.alloc,
            Expr::Binary {
                at,
                operator,
                left,
                right,
            },
        )?;
        Ok((Part { value, progress }, end))
    }

    /// Reads a `/` and a divisor behind the product.
    #[cycle(sum)]
    #[tactic(auto, unfolding(loops::specs::Limits::most_operators))]
    fn over<'t>(&self, product: Part, cursor: Cursor<'t>, depth: usize) -> Read<'t, Part>
        requires { IsTrue (is_sign_of (seen_lexeme cursor.token.lexeme) slash) }
        ensures reads { ReadsBehind self.now depth grammar.over product cursor.entry result }
        ensures falls { IfOk result (λ r. bytes_left r.1 < bytes_left cursor.entry) }
    {
        let at = cursor.token.at;
        let before = product.progress;
        let next = count_operator(cursor, before.operators)?;
        let progress = Progress {
            operators: before.operators + 1,
            divisors: before.divisors,
        };
        if self.free && !begins_by_number(next) {
            self.over_factor(product.value, at, next, progress, depth)
        } else {
            self.over_number(product.value, at, next, progress, depth)
        }
    }

    /// Reads a `*` and a factor behind the product.
    #[cycle(sum)]
    #[tactic(auto, unfolding(loops::specs::Limits::most_operators))]
    fn times<'t>(&self, product: Part, cursor: Cursor<'t>, depth: usize) -> Read<'t, Part>
        requires { IsTrue (is_sign_of (seen_lexeme cursor.token.lexeme) star) }
        ensures reads { ReadsBehind self.now depth grammar.times product cursor.entry result }
        ensures falls { IfOk result (λ r. bytes_left r.1 < bytes_left cursor.entry) }
    {
        let at = cursor.token.at;
        let before = product.progress;
        let next = count_operator(cursor, before.operators)?;
        let behind = Progress {
            operators: before.operators + 1,
            divisors: before.divisors,
        };
        let (factor, end) = self.factor(next, behind, depth)?;
        let progress = factor.progress;
        let (left, right) = (product.value, factor.value);
        let operator = BinaryOperator::Mul;
        let value = Box::new(
            self.alloc,
            Expr::Binary {
                at,
                operator,
                left,
                right,
            },
        )?;
        Ok((Part { value, progress }, end))
    }

    /// Reads factors joined by `*`, and divisors behind `/`.
    #[cycle(sum)]
    fn product<'t>(&self, cursor: Cursor<'t>, progress: Progress, depth: usize) -> Read<'t, Part>
        ensures reads { ReadsPart self.now depth grammar.product (progress_of progress)
            cursor.entry result }
        ensures falls { IfOk result (λ r. bytes_left r.1 < bytes_left cursor.entry) }
    {
        let (mut product, mut at) = self.factor(cursor, progress, depth)?;
        loop {
            if at.token.lexeme.is_sign(b'*') {
                let (next, end) = self.times(product, at, depth)?;
                product = next;
                at = end;
            } else if at.token.lexeme.is_sign(b'/') {
                let (next, end) = self.over(product, at, depth)?;
                product = next;
                at = end;
            } else {
                return Ok((product, at));
            }
        }
    }

    /// Reads a `+`, or a `-` if it is negative, and a product behind the sum.
    #[cycle(sum)]
    #[tactic(auto, unfolding(loops::specs::Limits::most_operators))]
    fn addition<'t>(
        &self,
        sum: Part,
        cursor: Cursor<'t>,
        depth: usize,
        negative: bool,
    ) -> Read<'t, Part>
        requires { IsTrue (is_sign_of (seen_lexeme cursor.token.lexeme)
            (grammar.sign_of negative)) }
        ensures reads { ReadsBehind self.now depth
            (grammar.joins negative) sum cursor.entry result }
        ensures falls { IfOk result (λ r. bytes_left r.1 < bytes_left cursor.entry) }
    {
        let at = cursor.token.at;
        let before = sum.progress;
        let next = count_operator(cursor, before.operators)?;
        let behind = Progress {
            operators: before.operators + 1,
            divisors: before.divisors,
        };
        let (product, end) = self.product(next, behind, depth)?;
        let progress = product.progress;
        let joint = joint(negative, at, sum.value, product.value);
        let value = Box::new(self.alloc, joint)?;
        Ok((Part { value, progress }, end))
    }

    /// Reads a sum, behind this progress and inside so many parentheses and leading minus signs.
    #[cycle(sum)]
    pub fn sum<'t>(&self, cursor: Cursor<'t>, progress: Progress, depth: usize) -> Read<'t, Part>
        ensures reads { ReadsPart self.now depth (rule a_sum) (progress_of progress) cursor.entry
            result }
        ensures falls { IfOk result (λ r. bytes_left r.1 < bytes_left cursor.entry) }
    {
        let (mut sum, mut at) = self.product(cursor, progress, depth)?;
        loop {
            if at.token.lexeme.is_sign(b'+') {
                let (next, end) = self.addition(sum, at, depth, false)?;
                sum = next;
                at = end;
            } else if at.token.lexeme.is_sign(b'-') {
                let (next, end) = self.addition(sum, at, depth, true)?;
                sum = next;
                at = end;
            } else {
                return Ok((sum, at));
            }
        }
    }
}
