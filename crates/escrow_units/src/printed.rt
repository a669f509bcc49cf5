//! Printed amounts, rates and yields.
ghost use Rattle.std.specs.Prelude.{◌≡◌, ◌≤◌, ◌^◌, Ok};
ghost use Rattle.escrow_units.specs.Digits.{fixed};
ghost use Rattle.escrow_units.specs.NumberText.{cents_of, rate_of, yield_of};

use crate::amount::{Cents, Rate, YieldUnits};
use crate::digits::{push_ascii, push_decimal, push_last};
use crate::limits::{AMOUNT_LIMIT, GREATEST_GIVEN_YIELD, GREATEST_RATE};
use arrayvec::ArrayString;

// A number of units of 10^-places, with that many decimals.
#[tactic(auto, using(crate::proofs::DigitFacts::digit_facts))]
fn fixed_text(n: u64, places: u8) -> ArrayString<32>
    requires { places ≤ 8 }
    ensures { result.bytes ≡ fixed places n }
{
    let unit = 10u64.pow(places as u32);
    let mut text = ArrayString::new();
    push_decimal(&mut text, n / unit);
    push_ascii(&mut text, b'.');
    push_last(&mut text, places, n % unit);
    text
}

/// Prints an amount in dollars with two decimals, as `5000.00`.
///
/// `read_cents` reads it back, up to its limit of 10^13 cents.
pub fn print_cents(value: Cents) -> ArrayString<32>
    ensures text { result.bytes ≡ fixed 2 value.0 }
    ensures reads_back { value.0 ≤ AMOUNT_LIMIT → cents_of result.bytes ≡ Ok value }
{
    fixed_text(value.0, 2)
}

/// Prints a rate in percent with three decimals, as `4.250`.
///
/// `read_rate` reads it back, up to its limit of 30.000 percent.
pub fn print_rate(value: Rate) -> ArrayString<32>
    ensures text { result.bytes ≡ fixed 3 value.0 }
    ensures reads_back { value.0 ≤ GREATEST_RATE → rate_of result.bytes ≡ Ok value }
{
    fixed_text(value.0 as u64, 3)
}

/// Prints a yield in percent with eight decimals, as `4.00100000`.
///
/// `read_yield` reads it back, up to its limit of 29.99 percent.
pub fn print_yield(value: YieldUnits) -> ArrayString<32>
    ensures text { result.bytes ≡ fixed 8 value.0 }
    ensures reads_back { value.0 ≤ GREATEST_GIVEN_YIELD → yield_of result.bytes ≡ Ok value }
{
    fixed_text(value.0, 8)
}
