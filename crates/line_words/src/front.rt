//! The number at the front of the words of a line.
ghost use Rattle.std.specs.Prelude.{◌≡◌, ◌<◌, IfSome, None, length};
ghost use Rattle.line_words.specs.Digits.{IsFirstNumber, IsFrontNumber, IsFrontOf};
ghost use Rattle.line_words.specs.Words.{first_word, number_in, whole_number as whole_number_of};

use crate::cut::cut_at;
use crate::digits::{Digits, digits_together, first_number, whole_number};
use crate::range::Range;

/// A number at the front of words, and the words behind it.
#[derive(Clone, Copy, Debug)]
pub struct Taken<'a> {
    /// The number.
    pub number: u64,
    /// The bytes behind the space that follows it; None where nothing does.
    pub rest: Option<&'a [u8]>,
}

// The number that digits at the front of bytes write, where a space stands behind them.
#[inline(always)]
fn before_space(bytes: &[u8], digits: Digits) -> Option<Taken<'_>>
    requires number { IsFirstNumber bytes.now digits }
    requires more { digits.count < length bytes.now }
    ensures { IfSome result (IsFrontNumber bytes.now) }
{
    if bytes[digits.count] != b' ' {
        return None;
    }
    Some(Taken {
        number: digits.number,
        rest: Some(&bytes[digits.count + 1..]),
    })
}

/// The number at the front of bytes, where it has so many digits, which are read together, and a space stands behind them, or nothing.
#[inline(always)]
pub fn quick_front_number(bytes: &[u8], count: usize) -> Option<Taken<'_>>
    ensures { IfSome result (IsFrontNumber bytes.now) }
{
    let digits = digits_together(bytes, count)?;
    before_space(bytes, digits)
}

// The same, where a space stands behind the digits, or nothing.
fn fast_front_number(bytes: &[u8]) -> Option<Taken<'_>>
    ensures { IfSome result (IsFrontNumber bytes.now) }
{
    let digits = first_number(bytes)?;
    if digits.count == bytes.len() {
        return Some(Taken {
            number: digits.number,
            rest: None,
        });
    }
    before_space(bytes, digits)
}

// The number that the first word of bytes is.
fn slow_front_number(bytes: &[u8]) -> Option<Taken<'_>>
    ensures some { IfSome result (IsFrontNumber bytes.now) }
    ensures none { result ≡ None → whole_number_of (first_word bytes.now) ≡ None }
{
    let word = cut_at(bytes, b' ');
    let number = whole_number(word.front)?;
    Some(Taken {
        number,
        rest: word.rest,
    })
}

/// The number that the first word of bytes is, quickly where it can be.
pub(crate) fn front_number(bytes: &[u8]) -> Option<Taken<'_>>
    ensures some { IfSome result (IsFrontNumber bytes.now) }
    ensures none { result ≡ None → whole_number_of (first_word bytes.now) ≡ None }
{
    match fast_front_number(bytes) {
        Some(taken) => Some(taken),
        None => slow_front_number(bytes),
    }
}

/// The number of a range that the first word of bytes is.
pub fn front_number_in(range: Range, bytes: &[u8]) -> Option<Taken<'_>>
    ensures some { IfSome result (IsFrontOf range bytes.now) }
    ensures none { result ≡ None → number_in range (first_word bytes.now) ≡ None }
{
    match front_number(bytes) {
        Some(taken) if range.contains(taken.number) => Some(taken),
        _ => None,
    }
}
