//! Exponents in the lanes of one word, the first in the lowest.
ghost use Rattle.std.specs.Prelude.{◌≡◌, ◌≤◌, ◌<◌, ◌*◌, ◌/◌, ◌^◌, ◌%◌, ◌↔◌, suc, length, sum, take, IsTrue};
ghost use Rattle.std.specs.Cmp.Lexicographic.{slice_cmp};
ghost use Rattle.std.specs.Ordering.{nat_cmp};
ghost use Rattle.monos.specs.Lanes.{AreSmall, lane_room, lane_count, lanes, word, guards, most_room, word_bits};
ghost use Rattle.monos.specs.Variables.{most_inline};

use std::cmp::Ordering;

/// How many bits an exponent has in its lane.
#[inline(always)]
#[tactic(auto, unfolding(crate::specs::Lanes::lane_room))]
pub(crate) fn room_of(arity: u8) -> u32
    ensures room { result ≡ lane_room arity }
    ensures few { result ≤ most_room }
{
    if arity <= 8 { 15 } else { 7 }
}

/// The guards of all lanes.
#[inline(always)]
pub(crate) fn guards_of(arity: u8) -> u128
    ensures { result ≡ guards (lane_room arity) (lane_count arity) }
{
    if arity <= 8 {
        0x8000_8000_8000_8000_8000_8000_8000_8000
    } else {
        0x8080_8080_8080_8080_8080_8080_8080_8080
    }
}

/// The lowest bits of a word.
#[inline(always)]
pub(crate) fn lowest_bits(word: u128, bits: u32) -> u128
    requires { bits < word_bits }
    ensures { result ≡ word % 2 ^ bits }
{
    word & ((1 << bits) - 1)
}

/// Whether all exponents have room in lanes.
pub(crate) fn are_small(exponents: &[u16], room: u32) -> bool
    requires { room ≤ most_room }
    ensures { IsTrue result ↔ AreSmall room exponents.now }
{
    let bound = 1 << room;
    for exponent in exponents {
        if *exponent >= bound {
            return false;
        }
    }
    true
}

/// The word with the exponents in its lanes.
pub(crate) fn word_of(exponents: &[u16], room: u32) -> u128
    requires room { room ≤ most_room }
    requires fits { suc room * length exponents.now ≤ word_bits }
    requires small { AreSmall room exponents.now }
    ensures { result ≡ word room exponents.now }
{
    match exponents.split_first() {
        Some((exponent, others)) => (word_of(others, room) << (room + 1)) + u128::from(*exponent),
        None => 0,
    }
}

/// The exponents in the lanes, with zeros behind them.
pub(crate) fn exponents_in(word: u128, room: u32, count: usize) -> [u16; 16]
    requires room { room ≤ most_room }
    requires few { count ≤ most_inline }
    ensures { take count result ≡ lanes room count word }
{
    let mut exponents = [0; 16];
    let mut rest = word;
    for i in 0..count {
        exponents[i] = lowest_bits(rest, room + 1) as u16;
        rest = rest >> (room + 1);
    }
    exponents
}

/// The sum of the exponents in the lowest lanes.
pub(crate) fn degree_in(word: u128, room: u32, count: usize) -> u32
    requires room { room ≤ most_room }
    requires few { count ≤ most_inline }
    ensures degree { result ≡ sum (lanes room count word) }
    ensures bound { result ≤ 2 ^ suc most_room * count }
{
    if count == 0 {
        return 0;
    }
    lowest_bits(word, room + 1) as u32 + degree_in(word >> (room + 1), room, count - 1)
}

/// Where the exponents in the lanes of one word stand to those in the lanes of another, from the first on.
/// The lowest bit in which the words differ lies in the first lane that decides.
pub(crate) fn compare_lanes(left: u128, right: u128, room: u32, count: usize) -> Ordering
    requires room { room ≤ most_room }
    requires left_fits { left < 2 ^ (suc room * count) }
    requires right_fits { right < 2 ^ (suc room * count) }
    ensures { result ≡ slice_cmp nat_cmp (lanes room count left) (lanes room count right) }
{
    if left == right {
        return Ordering::Equal;
    }
    let at = lane_start((left ^ right).trailing_zeros(), room);
    lowest_bits(left >> at, room + 1).cmp(&lowest_bits(right >> at, room + 1))
}

/// The lowest bit of the lane that has this bit.
#[inline(always)]
fn lane_start(bit: u32, room: u32) -> u32
    requires { room ≤ most_room }
    ensures { result ≡ bit / suc room * suc room }
{
    // a division by a number that is known is a shift
    if room == 15 {
        bit / 16 * 16
    } else {
        bit / (room + 1) * (room + 1)
    }
}
