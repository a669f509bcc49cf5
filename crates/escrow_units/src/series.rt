//! The dates of a series around a day, each counted back once.
ghost use Rattle.std.specs.Prelude.{◌≡◌, ◌≤ℤ◌, ◌<ℤ◌, ◌+ℤ◌, pos};
ghost use Rattle.escrow_units.specs.Calendar.{IsBaseDay};
ghost use Rattle.escrow_units.specs.CalendarLaws.{IsHalfYear};
ghost use Rattle.escrow_units.specs.Series.{IsFirstAfter, IsLastBy, dates_after_of, next_date_of, previous_date_of};

use crate::calendar::{days_between, half_years_before, plain_date};
use crate::day::Day;
use crate::security::StepRule;
use arrayvec::ArrayVec;

/// The dates of a series around a day.
#[derive(Drop)]
pub struct SeriesDates {
    /// The last date up to the day.
    pub previous: Day,
    /// The first date after the day.
    pub next: Day,
    /// All dates after the day, in order; the last is maturity.
    pub after: ArrayVec<Day, 84>,
}

/// The dates of the series that ends at maturity, around an earlier day: each is counted back from maturity once.
///
/// Maturity is of the years 2000 to 2190, and at most 14,640 days after the day, which are 40 years.
pub fn series_around(maturity: Day, rule: StepRule, day: Day) -> SeriesDates
    requires base { IsBaseDay maturity }
    requires before { day <ℤ maturity }
    requires near { maturity ≤ℤ (day +ℤ pos 14_640) }
    ensures previous { result.previous ≡ previous_date_of maturity rule day }
    ensures next { result.next ≡ next_date_of maturity rule day }
    ensures after { result.after.items ≡ dates_after_of maturity rule day }
    ensures last { IsLastBy maturity rule day result.previous }
    ensures first { IsFirstAfter maturity rule day result.next }
    ensures half_year { IsHalfYear result.previous result.next }
{
    let end = plain_date(maturity);
    let mut after = ArrayVec::new();
    let mut next = maturity;
    let mut date = maturity;
    while date > day {
        after.push(date);
        next = date;
        date = half_years_before(end, after.len() as u32, rule);
    }
    after.reverse();
    SeriesDates {
        previous: date,
        next,
        after,
    }
}

/// The dates of a series next to a day.
#[derive(Clone, Copy, Debug, PartialEq, Eq)]
pub struct DatesBeside {
    /// The last date up to the day.
    pub previous: Day,
    /// The first date after the day.
    pub next: Day,
}

/// The dates next to an earlier day, of the series that ends at maturity: those that [`series_around`] has, but the dates behind
/// them aren't counted.
///
/// Maturity is of the years 2000 to 2190, and at most 14,640 days after the day, which are 40 years.
pub fn dates_beside(maturity: Day, rule: StepRule, day: Day) -> DatesBeside
    requires base { IsBaseDay maturity }
    requires before { day <ℤ maturity }
    requires near { maturity ≤ℤ (day +ℤ pos 14_640) }
    ensures previous { result.previous ≡ previous_date_of maturity rule day }
    ensures next { result.next ≡ next_date_of maturity rule day }
    ensures last { IsLastBy maturity rule day result.previous }
    ensures first { IsFirstAfter maturity rule day result.next }
    ensures half_year { IsHalfYear result.previous result.next }
{
    let end = plain_date(maturity);
    // No half-year has more than 184 days, so that so many lead to a date after the day.
    let mut steps = (days_between(day, maturity) - 1) / 184;
    let mut next = half_years_before(end, steps, rule);
    let mut previous = half_years_before(end, steps + 1, rule);
    while previous > day {
        steps += 1;
        next = previous;
        previous = half_years_before(end, steps + 1, rule);
    }
    DatesBeside { previous, next }
}
