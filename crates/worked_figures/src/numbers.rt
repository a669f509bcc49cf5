//! Numbers as text, rounding and interest.

ghost use Rattle.std.specs.Prelude.{◌^◌, ◌≤◌, IfOk};

use escrow_units::{
    AMOUNT_LIMIT, Cents, GREATEST_INDEX, GREATEST_PRICE, NumberFault, Price8, Rate, Terms,
    YieldUnits, earned, face_price, half_coupon, near, print_cents, print_rate, print_yield,
    read_cap, read_cents, read_count, read_dollars, read_price, read_rate, read_terms, read_yield,
};
use figure_sheets::{Unread, bytes_of, cents, number_of, rate, up_to};
use std::alloc::{AllocError, Global};

// The number that was read, or why none was.
fn shown(alloc: Global, read: Result<u64, NumberFault>) -> Result<String, AllocError> {
    match read {
        Ok(number) => format!(in alloc; "{number}"),
        Err(fault) => format!(in alloc; "{fault:?}"),
    }
}

// What a reader reads of a text.
fn number_read(name: &str, text: &[u8]) -> Option<Result<u64, NumberFault>> {
    match name.as_bytes() {
        b"read_cents" => Some(read_cents(text).map(|cents| cents.0)),
        b"read_dollars" => Some(read_dollars(text)),
        b"read_count" => Some(read_count(text).map(u64::from)),
        b"read_rate" => Some(read_rate(text).map(|rate| u64::from(rate.0))),
        b"read_yield" => Some(read_yield(text).map(|units| units.0)),
        b"read_price" => Some(read_price(text).map(|price| price.0)),
        _ => None,
    }
}

// The denominations that two texts give.
fn terms(alloc: Global, minimum: &str, step: &str) -> Result<Result<Terms, NumberFault>, Unread> {
    let minimum = bytes_of(alloc, minimum)?;
    let step = bytes_of(alloc, step)?;
    Ok(read_terms(minimum.as_slice(), step.as_slice()))
}

// The denominations that two texts give, or why they give none.
fn terms_shown(alloc: Global, minimum: &str, step: &str) -> Result<String, Unread> {
    match terms(alloc, minimum, step)? {
        Ok(terms) => Ok(format!(in alloc; "{} {}", terms.minimum, terms.step)?),
        Err(fault) => Ok(format!(in alloc; "{fault:?}")?),
    }
}

// The greatest purchase that a text gives, where these are the denominations.
fn cap_shown(alloc: Global, minimum: &str, step: &str, text: &str) -> Result<String, Unread> {
    match terms(alloc, minimum, step)? {
        Ok(terms) => Ok(shown(alloc, read_cap(bytes_of(alloc, text)?.as_slice(), terms))?),
        Err(_) => Err(Unread::Argument),
    }
}

// A number as it is printed.
fn printed(alloc: Global, name: &str, number: u64) -> Result<String, Unread> {
    let text = match name.as_bytes() {
        b"print_cents" => print_cents(Cents(number)),
        b"print_rate" if number <= u64::from(u32::MAX) => print_rate(Rate(number as u32)),
        b"print_yield" => print_yield(YieldUnits(number)),
        _ => return Err(Unread::NoCall),
    };
    Ok(String::from_str(alloc, text.as_str())?)
}

// A number up to 10^37.
fn large(word: &str) -> Result<u128, Unread>
    ensures { IfOk result (λ number. number ≤ 10 ^ 37) }
{
    match word.parse::<u128>() {
        Ok(number) if number <= 10_u128.pow(37) => Ok(number),
        _ => Err(Unread::Argument),
    }
}

// A quotient, rounded to the nearest whole number.
fn rounded(alloc: Global, dividend: &str, divisor: &str) -> Result<String, Unread> {
    let dividend = large(dividend)?;
    let divisor = large(divisor)?;
    if divisor == 0 {
        return Err(Unread::Argument);
    }
    Ok(format!(in alloc; "{}", near(dividend, divisor))?)
}

// The interest that a face earns in parts of a year.
fn interest(face: &str, at: &str, parts: &str, year: &str) -> Result<Cents, Unread> {
    let parts = up_to(parts, u64::from(GREATEST_INDEX))? as u32;
    let year = up_to(year, u64::from(GREATEST_INDEX))? as u32;
    if year == 0 {
        return Err(Unread::Argument);
    }
    Ok(earned(cents(face, AMOUNT_LIMIT)?, rate(at)?, parts, year))
}

// What a face comes to, by a call on it.
fn amount(name: &str, arguments: &[&str]) -> Result<Cents, Unread> {
    match (name.as_bytes(), arguments) {
        (b"half_coupon", [face, at]) => Ok(half_coupon(cents(face, AMOUNT_LIMIT)?, rate(at)?)),
        (b"earned", [face, at, parts, year]) => interest(face, at, parts, year),
        (b"face_price", [face, price]) => {
            let price = Price8(up_to(price, GREATEST_PRICE)?);
            Ok(face_price(cents(face, AMOUNT_LIMIT)?, price))
        }
        _ => Err(Unread::NoCall),
    }
}

/// What a call on numbers comes to, if it is one.
pub(crate) fn answer(alloc: Global, name: &str, arguments: &[&str]) -> Result<String, Unread> {
    match (name.as_bytes(), arguments) {
        (b"near", [dividend, divisor]) => rounded(alloc, dividend, divisor),
        (b"read_terms", [minimum, step]) => terms_shown(alloc, minimum, step),
        (b"read_cap", [minimum, step, text]) => cap_shown(alloc, minimum, step, text),
        (b"half_coupon" | b"earned" | b"face_price", _) => {
            Ok(format!(in alloc; "{}", amount(name, arguments)?.0)?)
        }
        (b"print_cents" | b"print_rate" | b"print_yield", [number]) => {
            printed(alloc, name, number_of(number)?)
        }
        (_, [text]) => match number_read(name, bytes_of(alloc, text)?.as_slice()) {
            Some(read) => Ok(shown(alloc, read)?),
            None => Err(Unread::NoCall),
        },
        _ => Err(Unread::NoCall),
    }
}
