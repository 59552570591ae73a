//! The bytes of tokens.

ghost use Rattle.std.specs.Prelude.{◌≡◌, ℕ, ◌≤◌, ◌+◌, ◌-◌, ◌*◌, ◌<◌, ◌^◌, length, take_while, IsTrue, pos};
ghost use Rattle.std.specs.Char.{is_ascii_digit};
ghost use Rattle.std.specs.Option.{SomeIff};
ghost use Rattle.std.specs.Str.{all_ascii_digits};
ghost use Rattle.std.specs.Str.Parse.{digits_value};
ghost use Rattle.loop_model.specs.Ascii.{digit_zero};
ghost use Rattle.loop_model.specs.Words as words;
ghost use Rattle.poly_text.specs.Tokens as spec;
ghost use Rattle.poly_text.specs.Tokens.{start_of, number_limit};

use loop_model::words::is_word;

fn is_blank(byte: u8) -> bool
    ensures { result ≡ spec.is_blank byte }
{
    byte == b' ' || byte == b'\t' || byte == b'\n' || byte == b'\r'
}

pub(crate) fn is_sign(byte: u8) -> bool
    ensures { result ≡ spec.is_sign byte }
{
    b",;=(){}+-*/^".contains(&byte)
}

pub(crate) fn skip_blanks(text: &[u8], from: usize) -> usize
    requires { from ≤ length text.now }
    ensures start { result ≡ start_of text.now from }
    ensures within { result ≤ length text.now }
{
    let mut in_comment = false;
    for at in from..text.len() {
        let byte = text[at];
        if in_comment {
            in_comment = byte != b'\n';
        } else if byte == b'#' {
            in_comment = true;
        } else if !is_blank(byte) {
            return at;
        }
    }
    text.len()
}

pub(crate) fn word_len(text: &[u8]) -> usize
    ensures { result ≡ length (take_while words.is_word text.now) }
{
    text.iter().take_while(|byte| is_word(**byte)).count()
}

pub(crate) fn digits_len(text: &[u8]) -> usize
    ensures { result ≡ length (take_while is_ascii_digit text.now) }
{
    text.iter().take_while(|byte| byte.is_ascii_digit()).count()
}

/// The number that `value` becomes when the digit follows it; `None` where it is above 2^127 - 1.
fn with_digit(value: i128, digit: u8) -> Option<i128>
    requires { IsTrue (is_ascii_digit digit) }
    ensures { (n : ℕ) → value ≡ pos n
        → SomeIff result (n * 10 + (digit - digit_zero) < number_limit)
        (pos (n * 10 + (digit - digit_zero))) }
{
    value.checked_mul(10)?.checked_add(i128::from(digit - b'0'))
}

/// The value of digits, as of a number token; `None` where it is above 2^127 - 1.
pub fn number_value(digits: &[u8]) -> Option<i128>
    requires { IsTrue (all_ascii_digits digits.now) }
    ensures { SomeIff result (digits_value 10 digits.now < number_limit)
        (pos (digits_value 10 digits.now)) }
{
    let mut value = 0;
    for digit in digits {
        value = with_digit(value, *digit)?;
    }
    Some(value)
}
