//! For which part of a year a first payment's interest is earned.
ghost use Rattle.std.specs.Prelude.{◌≡◌, ◌≢◌, length};
ghost use Rattle.escrow_units.specs.SlgsTerms.{IsSettlement, IsSlgs};
ghost use Rattle.payment_schedule.specs.Schedule.{IsShort};
ghost use Rattle.slgs_interest.specs.Payments.{before_first, certificate_accrual, first_accrual_of, first_period_accrual, payment_dates};

use crate::leap_day::basis;
use escrow_units::{Accrual, Day, SeriesDates, Slgs, SlgsKind, StepRule, days_between, half_back};

// A certificate's accrual.
fn of_certificate(slgs: &Slgs) -> Accrual
    requires settlement { IsSettlement slgs.now.settle }
    requires terms { IsSlgs slgs.now }
    requires kind { slgs.now.kind ≡ SlgsKind.Certificate }
    ensures { result ≡ certificate_accrual slgs.now }
{
    Accrual {
        parts: days_between(slgs.settle, slgs.maturity),
        year: basis(slgs.settle, slgs.maturity),
    }
}

// The first accrual of a note or bond that pays on so many dates, by the date of its series before them.
fn of_first_period(slgs: &Slgs, before: Day, dates: u32) -> Accrual
    requires settlement { IsSettlement slgs.now.settle }
    requires terms { IsSlgs slgs.now }
    requires kind { slgs.now.kind ≢ SlgsKind.Certificate }
    requires before { before ≡ before_first slgs.now }
    requires dates { dates ≡ length (payment_dates slgs.now) }
    ensures { result ≡ first_period_accrual slgs.now }
{
    if slgs.settle < before {
        let second_before = half_back(slgs.maturity, dates + 1, StepRule::SameDay);
        let half_year = days_between(second_before, before);
        let days = half_year + days_between(slgs.settle, before);
        Accrual {
            parts: days,
            year: 2 * half_year,
        }
    } else {
        let half_year = days_between(before, slgs.first);
        Accrual {
            parts: days_between(slgs.settle, slgs.first),
            year: 2 * half_year,
        }
    }
}

/// For which part of a year the interest of a security's first payment is earned, by the dates of its series around the day
/// before: a certificate's for its days of a year of 365 days, or of 366 where a 29 February lies after settlement and not after
/// maturity; a note's or bond's for its days of the half-year in which it settles, or for a half-year and its days of the
/// half-year before that, of a year that is twice that half-year. It is of at most sixteen months.
#[tactic(auto, unfolding(crate::specs::Payments::first_accrual_of))]
pub(crate) fn accrual_by(slgs: &Slgs, dates: &SeriesDates) -> Accrual
    requires settlement { IsSettlement slgs.now.settle }
    requires terms { IsSlgs slgs.now }
    requires before { dates.now.previous ≡ before_first slgs.now }
    requires dates { dates.now.after.items ≡ payment_dates slgs.now }
    ensures value { result ≡ first_accrual_of slgs.now }
    ensures short { IsShort result }
{
    match slgs.kind {
        SlgsKind::Certificate => of_certificate(slgs),
        SlgsKind::Note | SlgsKind::Bond => {
            of_first_period(slgs, dates.previous, dates.after.len() as u32)
        }
    }
}
