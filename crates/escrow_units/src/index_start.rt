//! The day from which indices count.
ghost use Rattle.std.specs.Prelude.{◌≡◌, ◌≤◌, ◌-◌, ◌≤ℤ◌};
ghost use Rattle.escrow_units.specs.Calendar.{thirty_day_place_of, years_after_of};

use crate::calendar::thirty_day_place;
use crate::day::Day;
use crate::limits::GREATEST_INDEX;
use std::marker::Model;

/// The day from which many indices count: its date is read once.
///
/// Contracts see it as that day.
#[derive(Debug, Drop)]
pub struct IndexStart {
    day: Day,
    place: u32,
}

impl Model for IndexStart {
    ghost use Rattle.std.specs.Prelude.{ℤ, ◌≡◌};
    ghost use Rattle.escrow_units.specs.Calendar.{thirty_day_place_of};
    ghost use Rattle.escrow_units.specs.DayNumber.{IsDayNumber};

    ghost Value = { ℤ };

    ghost view = { λ start. start.day };

    ghost invariant = { λ start. IsDayNumber start.day × (start.place ≡ thirty_day_place_of start.day) };
}

impl IndexStart {
    /// Indices count from this day.
    pub fn new(settle: Day) -> IndexStart
        ensures { result ≡ settle }
    {
        IndexStart {
            day: settle,
            place: thirty_day_place(settle),
        }
    }

    /// The index of a day, as [`index360`](crate::index360) has it: the day isn't before the one from which indices count, nor
    /// later than 40 years after it.
    pub fn index(&self, day: Day) -> u32
        requires order { self.now ≤ℤ day }
        requires near { day ≤ℤ years_after_of self.now 40 }
        ensures value { result ≡ thirty_day_place_of day - thirty_day_place_of self.now }
        ensures bound { result ≤ GREATEST_INDEX }
    {
        thirty_day_place(day) - self.place
    }
}
