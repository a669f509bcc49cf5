//! Dates of the calendar, and the days that are counted from them.
ghost use Rattle.std.specs.Prelude.{◌≡◌, ◌<◌, ◌≤◌, ◌-◌, pos, ◌+ℤ◌, ◌≤ℤ◌, neg_ℤ, unsigned_abs};
ghost use Rattle.jiff.specs.Words.{add_months, days_in_month, epoch_day};
ghost use Rattle.escrow_units.specs.Calendar.{IsBaseDay, thirty_day_place_of, half_back_of, years_after_of};
ghost use Rattle.escrow_units.specs.DayNumber.{IsDayNumber};

use crate::day::Day;
use crate::limits::GREATEST_INDEX;
use crate::security::StepRule;
use jiff::ToSpan;
use jiff::civil::Date;
use jiff_core::civil::days_in_month;

/// The date of a day.
pub fn plain_date(day: Day) -> jiff_core::civil::Date
    ensures number { epoch_day result ≡ day }
    ensures years { IsDayNumber day }
{
    match jiff_core::civil::Date::from_unix_epoch_day(day.number() as i64) {
        Ok(date) => date,
        Err(_) => unreachable!(),
    }
}

// The day of a date of the years 1900 to 2299.
pub(crate) fn day_of_date(date: jiff_core::civil::Date) -> Day
    requires { IsDayNumber (epoch_day date) }
    ensures { result ≡ epoch_day date }
{
    Day::new(date.to_unix_epoch_day())
}

/// The days from one day to another that is not before it.
pub fn days_between(a: Day, b: Day) -> u32
    requires { a ≤ℤ b }
    ensures { a +ℤ pos result ≡ b }
{
    (b.number() - a.number()) as u32
}

// The place of a day in years of twelve months of thirty days.
pub(crate) fn thirty_day_place(day: Day) -> u32
    ensures value { result ≡ thirty_day_place_of day }
    ensures bound { result < 1_000_000 }
    ensures years { IsDayNumber day }
{
    let date = plain_date(day);
    360 * date.year as u32 + 30 * date.month as u32 + (date.day as u32).min(30)
}

/// The index of a day: how many days it comes after settlement, by years of twelve months of thirty days (30E/360).
///
/// A 31st counts as the 30th, so the index of a later day can be the same. Settlement isn't after the day, and the day
/// isn't later than 40 years after settlement.
pub fn index360(settle: Day, day: Day) -> u32
    requires order { settle ≤ℤ day }
    requires near { day ≤ℤ years_after_of settle 40 }
    ensures value { result ≡ thirty_day_place_of day - thirty_day_place_of settle }
    ensures bound { result ≤ GREATEST_INDEX }
{
    thirty_day_place(day) - thirty_day_place(settle)
}

// The same day of the month so many months later, or the last day of a shorter month.
fn shifted(date: Date, months: i32) -> Date
    requires few { unsigned_abs months ≤ 600 }
    requires base { IsBaseDay (epoch_day date) }
    ensures { epoch_day result ≡ add_months date months }
{
    match date.checked_add((months as i64).months()) {
        Ok(later) => later,
        Err(_) => unreachable!(),
    }
}

// The same day of the month so many months before, or the last day of a shorter month.
fn months_before(date: jiff_core::civil::Date, months: u32) -> jiff_core::civil::Date
    requires few { months ≤ 600 }
    requires base { IsBaseDay (epoch_day date) }
    ensures { epoch_day result ≡ add_months date (neg_ℤ (pos months)) }
{
    let place = 12 * date.year as u32 + (date.month as u32 - 1) - months;
    jiff_core::civil::Date::constrain((place / 12) as i16, (place % 12) as u8 + 1, date.day)
}

// The last day of a date's month.
fn last_of_month(date: jiff_core::civil::Date) -> jiff_core::civil::Date
    ensures year { result.year ≡ date.year }
    ensures month { result.month ≡ date.month }
    ensures day { result.day ≡ days_in_month date.year date.month }
{
    jiff_core::civil::Date::constrain(date.year, date.month, 31)
}

// The day `k` half-years before a date of the years 2000 to 2190, as [`half_back`] has it.
pub(crate) fn half_years_before(date: jiff_core::civil::Date, k: u32, rule: StepRule) -> Day
    requires few { k ≤ 84 }
    requires base { IsBaseDay (epoch_day date) }
    ensures { result ≡ half_back_of (epoch_day date) k rule }
{
    let back = months_before(date, 6 * k);
    match rule {
        StepRule::SameDay => day_of_date(back),
        StepRule::MonthEnd => {
            if date.day == days_in_month(date.year, date.month) {
                day_of_date(last_of_month(back))
            } else {
                day_of_date(back)
            }
        }
    }
}

/// The day `k` half-years before maturity, which is of the years 2000 to 2190, for `k` up to 84.
///
/// It is counted from maturity itself and not from the step before: back from 31 August come 28 February and again
/// 31 August.
pub fn half_back(maturity: Day, k: u32, rule: StepRule) -> Day
    requires few { k ≤ 84 }
    requires base { IsBaseDay maturity }
    ensures { result ≡ half_back_of maturity k rule }
{
    half_years_before(plain_date(maturity), k, rule)
}

/// The same month and day up to 40 years later, or 28 February for a 29th that isn't there.
///
/// The day is of the years 2000 to 2190.
pub fn years_after(day: Day, years: u32) -> Day
    requires few { years ≤ 40 }
    requires base { IsBaseDay day }
    ensures { result ≡ years_after_of day years }
{
    let date = Date::from_plain(plain_date(day));
    day_of_date(shifted(date, 12 * years as i32).to_plain())
}
