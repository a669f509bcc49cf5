//! The tail of a leaf's line: the weights of sums.
ghost use Rattle.std.specs.Prelude.{◌≡◌, ◌≤◌, ◌<◌, ◌*◌, [], All, IfErr, IfOk, Ok, Err, false, length};
ghost use Rattle.bound_certificate.specs.Grammar.{are_rising, is_tail, sums_of, tail_said, weights_of};
ghost use Rattle.bound_certificate.specs.Taken.{IsTailed};
ghost use Rattle.bound_certificate.specs.Weights.{side_said as side_said_of};
ghost use Rattle.line_words.specs.Words.{first_word, parts_behind, words_of};

use crate::fault::FaultKind;
use crate::limits::MOST_DATES;
use crate::row::{Numbers, Row, read_row};
use arrayvec::ArrayVec;
use line_words::{Cut, cut_at};
use memchr::memchr;
use proof_tree::{MOST_WEIGHTS, Side, SumWeight};

/// The weights of sums of a leaf's line.
pub(crate) type SumWeights = ArrayVec<SumWeight, MOST_WEIGHTS>;

// Cuts a line before its first word that is `t`, word by word.
fn cut_words(line: &[u8]) -> Cut<'_>
    requires { is_tail (first_word line.now) ≡ false }
    ensures { IsTailed line.now result.front.now result.rest }
{
    let mut rest = cut_at(line, b' ').rest;
    while let Some(words) = rest {
        let word = cut_at(words, b' ');
        if b"t".as_slice() == word.front {
            return Cut {
                front: &line[..line.len() - words.len() - 1],
                rest,
            };
        }
        rest = word.rest;
    }
    Cut {
        front: line,
        rest: None,
    }
}

/// Cuts a line, whose first word isn't `t`, before the first word that is. Most lines have no such byte, which is sooner seen.
pub(crate) fn cut_tail(line: &[u8]) -> Cut<'_>
    requires { is_tail (first_word line.now) ≡ false }
    ensures { IsTailed line.now result.front.now result.rest }
{
    match memchr(b't', line) {
        Some(_) => cut_words(line),
        None => Cut {
            front: line,
            rest: None,
        },
    }
}

// The side that a number says.
fn side_said(number: u64) -> Side
    ensures { result ≡ side_said_of number }
{
    if number == 1 {
        Side::AtLeast
    } else {
        Side::AtMost
    }
}

// Adds the weights of sums that numbers are by threes: need date, side and weight of each.
fn list_weights(numbers: &[u64], weights: &mut SumWeights)
    requires empty { weights.old.items ≡ [] }
    requires sums { All (λ own. own.sum < 65_535) (weights_of numbers.now) }
    requires few { length numbers.now ≤ 3 * MOST_WEIGHTS }
    ensures { weights.new.items ≡ weights_of numbers.now }
{
    let mut place = 0;
    while place + 2 < numbers.len() {
        weights.push(SumWeight {
            sum: (numbers[place] as u16).saturating_sub(1),
            side: side_said(numbers[place + 1]),
            weight: numbers[place + 2],
        });
        place += 3;
    }
}

// Whether each sum is above the one before.
fn sums_rise(weights: &[SumWeight]) -> bool
    ensures { result ≡ are_rising (sums_of weights.now) }
{
    for place in 1..weights.len() {
        if weights[place - 1].sum >= weights[place].sum {
            return false;
        }
    }
    true
}

// The weights of sums of a tail.
fn take_weights(
    dates: u16,
    tail: &[u8],
    numbers: &mut Numbers,
    weights: &mut SumWeights,
) -> Result<(), FaultKind>
    requires dates { dates ≤ MOST_DATES }
    requires empty { weights.old.items ≡ [] }
    ensures ok { IfOk result (λ _. tail_said dates (words_of tail.now) ≡ Ok weights.new.items) }
    ensures err { IfErr result (λ found. tail_said dates (words_of tail.now) ≡ Err found) }
{
    read_row(Row::Tail, true, dates, 0, tail, numbers)?;
    list_weights(numbers.as_slice(), weights);
    if sums_rise(weights.as_slice()) {
        Ok(())
    } else {
        Err(FaultKind::Order)
    }
}

/// The weights of sums of a tail, where there is one, come to those that are there, which are none. Its numbers come into `numbers`, so that
/// they need no room of their own on the stack.
///
/// # Errors
///
/// Why it isn't the tail of a leaf.
pub(crate) fn take_tail(
    dates: u16,
    tail: Option<&[u8]>,
    numbers: &mut Numbers,
    weights: &mut SumWeights,
) -> Result<(), FaultKind>
    requires dates { dates ≤ MOST_DATES }
    requires empty { weights.old.items ≡ [] }
    ensures ok { IfOk result (λ _. tail_said dates (parts_behind 32 tail.entry) ≡ Ok weights.new.items) }
    ensures err { IfErr result (λ found. tail_said dates (parts_behind 32 tail.entry) ≡ Err found) }
{
    match tail {
        Some(tail) => take_weights(dates, tail, numbers, weights),
        None => Ok(()),
    }
}
