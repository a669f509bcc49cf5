//! The texts of days.
ghost use Rattle.std.specs.Prelude.{◌≡◌, ◌<◌, Some, None, IfOk, IfErr, IfSome, OnErr};
ghost use Rattle.escrow_units.specs.DateText.{IsFieldDay, date_number, day_of, day_text, two_digits};

use crate::calendar::{day_of_date, plain_date};
use crate::day::Day;
use crate::digits::{push_ascii, push_last};
use crate::fault::NumberFault;
use arrayvec::ArrayString;
use jiff::civil::Date;

// The number of two digits.
fn two_digit_number(tens: u8, ones: u8) -> Option<u8>
    ensures value { result ≡ two_digits tens ones }
    ensures bound { IfSome result (λ n. n < 100) }
{
    if !tens.is_ascii_digit() || !ones.is_ascii_digit() {
        return None;
    }
    Some(10 * (tens - b'0') + (ones - b'0'))
}

// The day with this date, where the calendar has it and it is of the years that fields have.
fn field_day(year: u16, month: u8, day: u8) -> Option<Day>
    requires month { month < 100 }
    requires day { day < 100 }
    ensures { result ≡ date_number year month day }
{
    if year < 1900 || year > 2199 {
        return None;
    }
    match Date::new(year as i16, month as i8, day as i8) {
        Ok(date) => Some(day_of_date(date.to_plain())),
        Err(_) => None,
    }
}

// The day that ten bytes spell.
fn spelled_day(bytes: &[u8]) -> Option<Day>
    ensures { result ≡ day_of bytes.now }
{
    match bytes {
        [a, b, c, d, p, e, f, q, g, h] => {
            if *p != b'-' || *q != b'-' {
                return None;
            }
            let century = two_digit_number(*a, *b)?;
            let year = two_digit_number(*c, *d)?;
            let month = two_digit_number(*e, *f)?;
            let day = two_digit_number(*g, *h)?;
            field_day(100 * century as u16 + year as u16, month, day)
        }
        _ => None,
    }
}

/// Reads a day from ten bytes as `2025-01-15`, of the years 1900 to 2199.
///
/// # Errors
///
/// `BadDate`, exactly where the bytes don't spell a date that the calendar has in these years.
pub fn read_day(bytes: &[u8]) -> Result<Day, NumberFault>
    ensures ok { IfOk result (λ day. day_of bytes.now ≡ Some day) }
    ensures err { IfErr result (λ fault. fault ≡ NumberFault.BadDate) }
    ensures none { OnErr result (day_of bytes.now ≡ None) }
    ensures years { IfOk result IsFieldDay }
{
    match spelled_day(bytes) {
        Some(day) => Ok(day),
        None => Err(NumberFault::BadDate),
    }
}

/// A day as `2025-01-15`: ten characters, which `read_day` reads where the day is of the years 1900 to 2199.
#[tactic(auto, using(crate::proofs::DigitFacts::digit_facts))]
pub fn print_day(value: Day) -> ArrayString<32>
    ensures text { result.bytes ≡ day_text value }
    ensures again { IsFieldDay value → day_of result.bytes ≡ Some value }
{
    let date = plain_date(value);
    let mut text = ArrayString::new();
    push_last(&mut text, 4, date.year as u64);
    push_ascii(&mut text, b'-');
    push_last(&mut text, 2, date.month as u64);
    push_ascii(&mut text, b'-');
    push_last(&mut text, 2, date.day as u64);
    text
}
