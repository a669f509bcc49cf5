//! A day of the calendar.
ghost use Rattle.std.specs.Prelude.{◌≡◌, pos};
ghost use Rattle.escrow_units.specs.DayNumber.{IsDayNumber};

use std::default::Default;
use std::marker::Model;

/// A calendar day of the years 1900 to 2299, by its number: days count from 1970-01-01, which is 0.
///
/// Contracts see a day as that number. Days compare by it.
#[derive(Clone, Copy, Debug, PartialEq, Eq, PartialOrd, Ord)]
pub struct Day {
    number: i32,
}

impl Model for Day {
    ghost use Rattle.std.specs.Prelude.{ℤ};
    ghost use Rattle.escrow_units.specs.DayNumber.{IsDayNumber};

    ghost Value = { ℤ };

    ghost view = { λ d. d.number };

    ghost invariant = { λ d. IsDayNumber d.number };

    ghost inverse = { λ n. record { number = n } };
}

impl Default for Day {
    /// 1970-01-01.
    fn default() -> Day
        ensures { result ≡ pos 0 }
    {
        Day { number: 0 }
    }
}

impl Day {
    /// The day with a number, of the years 1900 to 2299.
    pub fn new(number: i32) -> Day
        requires { IsDayNumber number }
        ensures { result ≡ number }
    {
        Day { number }
    }

    /// How many days after 1970-01-01 it is; negative before.
    pub fn number(self) -> i32
        ensures value { result ≡ self }
        ensures bound { IsDayNumber self }
    {
        self.number
    }
}
