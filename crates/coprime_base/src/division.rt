//! The exponents of a fraction over a base, by division alone.
ghost use Rattle.std.specs.Prelude.{◌≡◌, ◌≢◌, ◌<◌, ◌^◌, ◌*◌, ◌%◌, pos, ◌-ℤ◌};
ghost use Rattle.algebra.specs.Limits.{word_bits};

/// How often `by` goes into the number, and what is left.
pub(crate) fn taken_out(number: u128, by: u128) -> (u8, u128)
    requires number { 0 < number }
    requires by { 1 < by }
    ensures whole { by ^ result.0 * result.1 ≡ number }
    ensures over { result.1 % by ≢ 0 }
    ensures few { result.0 < word_bits }
{
    let mut times = 0;
    let mut left = number;
    while left % by == 0 {
        left /= by;
        times += 1;
    }
    (times, left)
}

/// The exponent of what goes so often into a numerator and into its denominator.
pub(crate) fn exponent(over: u8, under: u8) -> i32
    ensures { result ≡ pos over -ℤ pos under }
{
    i32::from(over) - i32::from(under)
}
