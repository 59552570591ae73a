//! Reads numbers.
ghost use Rattle.std.specs.Prelude.{◌≡◌, ◌<◌, ◌==◌, length, pos, position, None, Some, option_map, IfSome};
ghost use Rattle.std.specs.Str.{all_ascii_digits};
ghost use Rattle.frac128.specs.FracMeaning.{fraction_of};
ghost use Rattle.loop_model.specs.Ascii.{slash};
ghost use Rattle.poly_text.specs.Number as number;

use crate::number_value;
use frac128::Frac;
use ring_laws::Ring;

fn are_digits(text: &[u8]) -> bool
    ensures { result ≡ all_ascii_digits text.now }
{
    text.iter().all(|byte| byte.is_ascii_digit())
}

#[tactic(auto, unfolding(crate::specs::Number::is_digits))]
fn is_digits(text: &[u8]) -> bool
    ensures { result ≡ number.is_digits text.now }
{
    !text.is_empty() && are_digits(text)
}

fn slash_in(text: &[u8]) -> Option<usize>
    ensures place { result ≡ position (λ c. c == slash) text.now }
    ensures within { IfSome result (λ slash. slash < length text.now) }
{
    text.iter().position(|byte| *byte == b'/')
}

#[tactic(auto, unfolding(crate::specs::Number::is_amount))]
fn is_amount(text: &[u8]) -> bool
    ensures { result ≡ number.is_amount text.now }
{
    match slash_in(text) {
        None => is_digits(text),
        Some(slash) => is_digits(&text[..slash]) && is_digits(&text[slash + 1..]),
    }
}

/// Whether the text has the form of a number: an optional minus sign, digits, and optionally a slash
/// and digits.
#[tactic(auto, unfolding(crate::specs::Number::unsigned))]
pub fn is_number(text: &[u8]) -> bool
    ensures { result ≡ number.is_number text.now }
{
    match text {
        [b'-', rest @ ..] => is_amount(rest),
        _ => is_amount(text),
    }
}

/// The number that the digits are, one at least, where it is at most 2^127 - 1.
#[tactic(auto, unfolding(crate::specs::Number::numeral_of))]
pub fn read_numeral(digits: &[u8]) -> Option<i128>
    ensures { result ≡ option_map (λ n. pos n) (number.numeral_of digits.now) }
{
    if digits.is_empty() || !are_digits(digits) {
        return None;
    }
    number_value(digits)
}

fn whole(digits: &[u8]) -> Option<Frac>
    ensures { option_map fraction_of result ≡ number.amount_at digits.now None }
{
    Frac::new(read_numeral(digits)?, 1).ok()
}

fn quotient(num: &[u8], den: &[u8]) -> Option<Frac>
    ensures { option_map fraction_of result ≡
        number.quotient_of (number.numeral_of num.now) (number.numeral_of den.now) }
{
    Frac::new(read_numeral(num)?, read_numeral(den)?).ok()
}

// The fraction of a text without a sign.
#[tactic(auto, unfolding(crate::specs::Number::amount_of))]
fn amount(text: &[u8]) -> Option<Frac>
    ensures { option_map fraction_of result ≡ number.amount_of text.now }
{
    match slash_in(text) {
        None => whole(text),
        Some(slash) => quotient(&text[..slash], &text[slash + 1..]),
    }
}

/// The fraction that the text is, where it has the form of a number, its numbers are at most
/// 2^127 - 1 and it isn't divided by 0.
#[tactic(auto, unfolding(crate::specs::Number::number_of))]
pub fn read_number(text: &[u8]) -> Option<Frac>
    ensures { option_map fraction_of result ≡ number.number_of text.now }
{
    match text {
        [] => None,
        [b'-', rest @ ..] => Some(amount(rest)?.neg()),
        [_, ..] => amount(text),
    }
}
