//! Numbers as they are written.
ghost use Rattle.std.specs.Prelude.{◌≡◌, ◌≤◌, ◌<◌, ◌*◌, ◌^◌, ℕ, List, All, IfSome, IsTrue, length, take};
ghost use Rattle.std.specs.Int.Digits.{number_from_digits};
ghost use Rattle.line_words.specs.Digits.{HoldsDigits, IsFirstDigit, IsFirstNumber};
ghost use Rattle.line_words.specs.Words.{whole_number as whole_number_of};

use std::simd::prelude::*;

/// The greatest number that a word may be.
pub const GREATEST_NUMBER: u64 = 1_000_000_000_000_000;

// How many bytes are looked at together: fifteen digits, the most of a number that is read quickly, and the one behind them.
const TOGETHER: usize = 16;

// By what fewer than eight digits move the number that stands before them.
const POWERS_OF_TEN: [u64; 8] = [1, 10, 100, 1_000, 10_000, 100_000, 1_000_000, 10_000_000];

/// Digits at the front of a piece, and the number that they write.
#[derive(Clone, Copy, Debug, PartialEq, Eq)]
pub(crate) struct Digits {
    /// The number.
    pub number: u64,
    /// How many digits.
    pub count: usize,
}

// The first byte of a piece, where it is a digit above 0.
fn first_digit(piece: &[u8]) -> Option<Digits>
    ensures { IfSome result (IsFirstDigit piece.now) }
{
    if piece.is_empty() || !piece[0].is_ascii_digit() || piece[0] == b'0' {
        return None;
    }
    Some(Digits {
        number: u64::from(piece[0] - b'0'),
        count: 1,
    })
}

// The digits at the front of a piece, from some on that write a number above 0: so long as the number can't come above `GREATEST_NUMBER`.
fn more_digits(piece: &[u8], begun: Digits) -> Digits
    requires number { IsFirstNumber piece.now begun }
    requires some { 1 ≤ begun.number }
    ensures { IsFirstNumber piece.now result }
{
    let Digits {
        mut number,
        count: mut place,
    } = begun;
    while place < piece.len() && piece[place].is_ascii_digit() && number < GREATEST_NUMBER / 10 {
        number = 10 * number + u64::from(piece[place] - b'0');
        place += 1;
    }
    Digits {
        number,
        count: place,
    }
}

// The number that eight digits write, of which a word holds the first in its lowest byte.
#[inline(always)]
fn eight_together(word: u64) -> u64
    requires fits { 11 * word < 2 ^ 64 }
    ensures { (digits : List ℕ) → HoldsDigits word digits → result ≡ number_from_digits 10 digits }
{
    // Each second byte of the pairs is the number of two digits. A product puts two of the four into its upper half, each with its
    // weight: what comes above that is cut off, and what stands below is less than one.
    let pairs = 10 * word + (word >> 8);
    let first_and_third = pairs & 0xff_0000_00ff;
    let second_and_fourth = (pairs >> 16) & 0xff_0000_00ff;
    let sum = first_and_third
        .wrapping_mul(100 + (1_000_000 << 32))
        .wrapping_add(second_and_fourth.wrapping_mul(1 + (10_000 << 32)));
    sum >> 32
}

// How many lanes lead that are digits, where not all of them are.
#[inline(always)]
fn leading_digits(lanes: u8x16) -> usize
    ensures { result < TOGETHER → All (λ digit. digit ≤ 9) (take result lanes) }
{
    lanes.simd_gt(u8x16::splat(9)).to_bitmask().trailing_zeros() as usize
}

// Whether so many lanes lead that are digits, and no more.
#[inline(always)]
fn lead(lanes: u8x16, count: usize) -> bool
    requires { count < TOGETHER }
    ensures { IsTrue result → All (λ digit. digit ≤ 9) (take count lanes) }
{
    leading_digits(lanes) == count
}

// The number that the first lanes write, more than eight of them; it doesn't matter what stands in the others.
#[inline(always)]
fn together(lanes: [u8; 16], count: usize) -> u64
    requires many { 8 < count }
    requires few { count < TOGETHER }
    requires digits { All (λ digit. digit ≤ 9) (take count lanes) }
    ensures number { result ≡ number_from_digits 10 (take count lanes) }
    ensures small { result < 10 ^ 15 }
{
    let word = u128::from_le_bytes(lanes);
    let front = eight_together((word % (1 << 64)) as u64);
    // What is moved to the end of a word stands behind zeros there.
    let behind = eight_together(((word >> 64) as u64) << (8 * (16 - count)));
    front * POWERS_OF_TEN[count - 8] + behind
}

/// So many digits at the front of a piece, from nine to fifteen, the first of them above 0, which are read together: where the piece
/// goes on behind them, no digit follows, and the piece has room for sixteen.
#[inline(always)]
pub(crate) fn digits_together(piece: &[u8], count: usize) -> Option<Digits>
    ensures number { IfSome result (IsFirstNumber piece.now) }
    ensures more { IfSome result (λ digits. digits.count < length piece.now) }
{
    if piece.len() < TOGETHER || piece[0] == b'0' || count <= 8 || count >= TOGETHER {
        return None;
    }
    let lanes = u8x16::from_slice(piece) - u8x16::splat(b'0');
    if !lead(lanes, count) {
        return None;
    }
    Some(Digits {
        number: together(lanes.to_array(), count),
        count,
    })
}

/// How many digits lead a piece, where it has room for sixteen bytes and not all of them are digits, and else any number.
#[inline(always)]
pub fn digit_count(piece: &[u8]) -> usize {
    if piece.len() < TOGETHER {
        return TOGETHER;
    }
    leading_digits(u8x16::from_slice(piece) - u8x16::splat(b'0'))
}

/// From nine to fifteen digits at the front of a piece, the first of them above 0, which are read together: where the piece goes on
/// behind them, and has room for sixteen.
#[inline(always)]
pub(crate) fn many_digits(piece: &[u8]) -> Option<Digits>
    ensures number { IfSome result (IsFirstNumber piece.now) }
    ensures more { IfSome result (λ digits. digits.count < length piece.now) }
{
    digits_together(piece, digit_count(piece))
}

// The digits of the number at the front of a piece, read one by one.
fn few_digits(piece: &[u8]) -> Option<Digits>
    ensures { IfSome result (IsFirstNumber piece.now) }
{
    match first_digit(piece) {
        Some(begun) => Some(more_digits(piece, begun)),
        None if !piece.is_empty() && piece[0] == b'0' => Some(Digits {
            number: 0,
            count: 1,
        }),
        None => None,
    }
}

/// The digits of the number at the front of a piece, behind which more of them may stand where it isn't 0.
pub(crate) fn first_number(piece: &[u8]) -> Option<Digits>
    ensures { IfSome result (IsFirstNumber piece.now) }
{
    match many_digits(piece) {
        Some(digits) => Some(digits),
        None => few_digits(piece),
    }
}

// The number that a word is, a digit at a time.
fn slow_number(word: &[u8]) -> Option<u64>
    ensures { result ≡ whole_number_of word.now }
{
    if word.is_empty() {
        return None;
    }
    if word[0] == b'0' && word.len() > 1 {
        return None;
    }
    let mut number = 0;
    for byte in word {
        if !byte.is_ascii_digit() {
            return None;
        }
        number = 10 * number + u64::from(*byte - b'0');
        if number > GREATEST_NUMBER {
            return None;
        }
    }
    Some(number)
}

/// The number that a word is. Its digits are read together where they are a number well below the greatest.
pub(crate) fn whole_number(word: &[u8]) -> Option<u64>
    ensures { result ≡ whole_number_of word.now }
{
    match first_number(word) {
        Some(digits) if digits.count == word.len() => Some(digits.number),
        _ => slow_number(word),
    }
}
