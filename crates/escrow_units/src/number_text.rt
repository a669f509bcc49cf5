//! The fields of amounts, rates, yields and counts.
ghost use Rattle.std.specs.Prelude.{ℕ, List, Some, ◌≡◌, ◌≤◌, ◌^◌, IfOk};
ghost use Rattle.escrow_units.specs.NumberText.{decimal_of, SpellsDecimal, cents_of, dollars_of, rate_of, yield_of, count_of};

use crate::amount::{Cents, Rate, YieldUnits};
use crate::decimal::{decimal, in_range, whole_number};
use crate::fault::NumberFault;
use crate::limits::{AMOUNT_LIMIT, GREATEST_GIVEN_YIELD, GREATEST_RATE};

/// Reads dollars and cents: 1 to 15 digits, then optionally a point and 1 or 2 digits.
///
/// Leading zeros are allowed; no sign, comma or blank is. Other bytes are `BadNumber`, and more than
/// 10^13 cents are `OutOfRange`. The spelling is this project's own.
#[tactic(auto, unfolding(crate::specs::NumberText::cents_of))]
pub fn read_cents(bytes: &[u8]) -> Result<Cents, NumberFault>
    ensures value { result ≡ cents_of bytes.now }
    ensures limit { IfOk result (λ cents. cents.0 ≤ AMOUNT_LIMIT) }
{
    let number = decimal(bytes, 15, 2);
    Ok(Cents(in_range(number, 0, AMOUNT_LIMIT, NumberFault::OutOfRange)?))
}

/// Reads whole dollars: 1 to 15 digits.
///
/// Leading zeros are allowed; no sign, comma, point or blank is. Other bytes are `BadNumber`, and a
/// number outside 1 to 1,000,000,000 is `OutOfRange`. The spelling is this project's own.
#[tactic(auto, unfolding(crate::specs::NumberText::dollars_of))]
pub fn read_dollars(bytes: &[u8]) -> Result<u64, NumberFault>
    ensures value { result ≡ dollars_of bytes.now }
    ensures limit { IfOk result (λ dollars. (1 ≤ dollars) × (dollars ≤ 1_000_000_000)) }
{
    in_range(
        whole_number(bytes, 15),
        1,
        1_000_000_000,
        NumberFault::OutOfRange,
    )
}

/// Reads a rate or a coupon in percent: 1 to 3 digits, then optionally a point and 1 to 3 digits.
///
/// Leading zeros are allowed; no sign, comma or blank is. Other bytes are `BadNumber`, and more than
/// 30.000 percent are `OutOfRange`. The spelling is this project's own.
#[tactic(auto, unfolding(crate::specs::NumberText::rate_of))]
pub fn read_rate(bytes: &[u8]) -> Result<Rate, NumberFault>
    ensures value { result ≡ rate_of bytes.now }
    ensures limit { IfOk result (λ rate. rate.0 ≤ GREATEST_RATE) }
{
    let number = decimal(bytes, 3, 3);
    let most = GREATEST_RATE as u64;
    Ok(Rate(in_range(number, 0, most, NumberFault::OutOfRange)? as u32))
}

/// Reads a yield in percent: 1 to 3 digits, then optionally a point and 1 to 8 digits.
///
/// Leading zeros are allowed; no sign, comma or blank is. Other bytes are `BadNumber`, and more than
/// 29.99 percent are `OutOfRange`. The spelling is this project's own.
#[tactic(auto, unfolding(crate::specs::NumberText::yield_of))]
pub fn read_yield(bytes: &[u8]) -> Result<YieldUnits, NumberFault>
    ensures value { result ≡ yield_of bytes.now }
    ensures limit { IfOk result (λ units. units.0 ≤ GREATEST_GIVEN_YIELD) }
{
    let number = decimal(bytes, 3, 8);
    Ok(YieldUnits(in_range(number, 0, GREATEST_GIVEN_YIELD, NumberFault::OutOfRange)?))
}

/// Reads a count: 1 to 6 digits.
///
/// Leading zeros are allowed; no sign, comma, point or blank is. Other bytes are `BadNumber`, and a
/// number outside 1 to 10,000 is `OutOfRange`. The spelling is this project's own.
#[tactic(auto, unfolding(crate::specs::NumberText::count_of))]
pub fn read_count(bytes: &[u8]) -> Result<u32, NumberFault>
    ensures value { result ≡ count_of bytes.now }
    ensures limit { IfOk result (λ count. (1 ≤ count) × (count ≤ 10_000)) }
{
    let number = whole_number(bytes, 6);
    Ok(in_range(number, 1, 10_000, NumberFault::OutOfRange)? as u32)
}

/// A law on the decimals that are read, which does nothing when it is called.
///
/// The readers take exactly digits and then, where a point stands, at least one digit more; leading
/// zeros count. The number read is what all the digits write, over 10 for each decimal.
pub fn decimal_spelling()
    ensures spelled { (most places units : ℕ) (bytes : List ℕ) →
        decimal_of most places bytes ≡ Some units → SpellsDecimal most places units bytes }
    ensures read { (most places units : ℕ) (bytes : List ℕ) →
        SpellsDecimal most places units bytes → decimal_of most places bytes ≡ Some units }
{}
