//! The field of a price: a decimal, or whole percents and thirty-seconds.
ghost use Rattle.std.specs.Prelude.{◌≡◌, ◌+◌, ◌*◌, ◌≤◌, ◌<◌, IfSome, IfOk};
ghost use Rattle.escrow_units.specs.PriceText.{PricesAreSpelled, thirty_seconds_of, eighths_of, fraction_of, quoted_of, price_units_of, price_of};

use crate::amount::Price8;
use crate::decimal::{decimal, in_range, place_of, whole_number};
use crate::fault::NumberFault;
use crate::limits::{GREATEST_PRICE, LEAST_PRICE};

/// One percent of par, in units of 10^-8 percent.
const PERCENT: u64 = 100_000_000;
/// One thirty-second of a percent.
const THIRTY_SECOND: u64 = 3_125_000;
/// One eighth of a thirty-second.
const EIGHTH: u64 = 390_625;

fn thirty_seconds(tens: u8, ones: u8) -> Option<u64>
    ensures value { result ≡ thirty_seconds_of tens ones }
    ensures bound { IfSome result (λ n. n ≤ 31) }
{
    match whole_number(&[tens, ones], 2) {
        Some(n) if n <= 31 => Some(n),
        _ => None,
    }
}

fn eighths(byte: u8) -> Option<u64>
    ensures value { result ≡ eighths_of byte }
    ensures bound { IfSome result (λ n. n < 8) }
{
    match byte {
        b'+' => Some(4),
        b'0'..=b'7' => Some((byte - b'0') as u64),
        _ => None,
    }
}

// The units of the thirty-seconds that follow a hyphen.
#[tactic(auto, unfolding(crate::specs::PriceText::fraction_of))]
fn fraction(bytes: &[u8]) -> Option<u64>
    ensures value { result ≡ fraction_of bytes.now }
    ensures bound { IfSome result (λ n. n < 100_000_000) }
{
    match bytes {
        [tens, ones] => Some(thirty_seconds(*tens, *ones)? * THIRTY_SECOND),
        [tens, ones, last] => {
            let count = thirty_seconds(*tens, *ones)?;
            Some(count * THIRTY_SECOND + eighths(*last)? * EIGHTH)
        }
        _ => None,
    }
}

#[tactic(auto, unfolding(crate::specs::PriceText::quoted_of))]
fn quoted(front: &[u8], back: &[u8]) -> Option<u64>
    ensures { result ≡ quoted_of front.now back.now }
{
    let whole = whole_number(front, 3)?;
    Some(whole * PERCENT + fraction(back)?)
}

fn price_units(bytes: &[u8]) -> Option<u64>
    ensures { result ≡ price_units_of bytes.now }
{
    match place_of(bytes, b'-') {
        Some(hyphen) => quoted(&bytes[..hyphen], &bytes[hyphen + 1..]),
        None => decimal(bytes, 3, 8),
    }
}

/// Reads a price in percent of par: a decimal as `99.5`, or thirty-seconds as `99-16`.
///
/// A decimal is 1 to 3 digits, then optionally a point and 1 to 8 digits. Thirty-seconds are 1 to 3
/// digits of percent, a hyphen and two digits from 00 to 31, then optionally one digit from 0 to 7 for
/// eighths of a thirty-second, or `+` for four of them. Leading zeros are allowed; no sign, comma or
/// blank is. Other bytes are `BadNumber`, and a price outside 10 to 300 percent is `PriceRange`. The
/// spelling is this project's own.
#[tactic(auto, unfolding(crate::specs::PriceText::price_of))]
pub fn read_price(bytes: &[u8]) -> Result<Price8, NumberFault>
    ensures value { result ≡ price_of bytes.now }
    ensures limit { IfOk result (λ price. (LEAST_PRICE ≤ price.0) × (price.0 ≤ GREATEST_PRICE)) }
{
    let number = price_units(bytes);
    Ok(Price8(in_range(number, LEAST_PRICE, GREATEST_PRICE, NumberFault::PriceRange)?))
}

/// A law on the prices that are read, which does nothing when it is called: which texts a price has, and their value.
///
/// A price is a decimal, or whole percents, a hyphen and thirty-seconds of a percent, maybe with eighths of one.
pub fn price_spelling()
    ensures { PricesAreSpelled }
{}
