//! The days of a certificate's year.
ghost use Rattle.std.specs.Prelude.{◌≡◌, ◌↔◌, ◌⊎◌, IsTrue, ◌≤ℤ◌, ◌<ℤ◌};
ghost use Rattle.jiff_core.specs.Calendar.{IsYear};
ghost use Rattle.escrow_units.specs.Calendar.{date_of, years_after_of};
ghost use Rattle.escrow_units.specs.SlgsTerms.{IsSettlement};
ghost use Rattle.slgs_interest.specs.LeapDay.{HasLeapDay};
ghost use Rattle.slgs_interest.specs.Payments.{basis_of};

use escrow_units::{Day, plain_date};
use jiff_core::civil::Date;

// The year of a day.
fn year_of(day: Day) -> i16
    ensures year { result ≡ (date_of day).year }
    ensures range { IsYear result }
{
    plain_date(day).year
}

// Whether a day number lies after one day and not after another.
fn lies_after(number: i32, after: Day, last: Day) -> bool
    ensures { IsTrue result ↔ ((after <ℤ number) × (number ≤ℤ last)) }
{
    after.number() < number && number <= last.number()
}

// Whether the year has a 29 February, after one day and not after another.
fn has_leap_day(year: i16, after: Day, last: Day) -> bool
    requires { IsYear year }
    ensures { IsTrue result ↔ HasLeapDay year after last }
{
    let end_of_february = Date::constrain(year, 2, 29);
    if end_of_february.day < 29 {
        return false;
    }
    lies_after(end_of_february.to_unix_epoch_day(), after, last)
}

// Whether a 29 February of the year of settlement or maturity lies after settlement and not after maturity.
fn spans_leap_day(settle: Day, maturity: Day) -> bool
    ensures { IsTrue result
        ↔ (HasLeapDay (date_of settle).year settle maturity ⊎ HasLeapDay (date_of maturity).year settle maturity) }
{
    has_leap_day(year_of(settle), settle, maturity)
        || has_leap_day(year_of(maturity), settle, maturity)
}

/// The days of a certificate's year: 366 where a 29 February lies after settlement and not after maturity, else 365.
///
/// Maturity isn't before settlement, and at most one year after it.
pub(crate) fn basis(settle: Day, maturity: Day) -> u32
    requires settlement { IsSettlement settle }
    requires order { settle ≤ℤ maturity }
    requires term { maturity ≤ℤ years_after_of settle 1 }
    ensures { result ≡ basis_of settle maturity }
{
    if spans_leap_day(settle, maturity) {
        366
    } else {
        365
    }
}
