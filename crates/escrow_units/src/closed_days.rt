//! Days on which no receipt comes.
ghost use Rattle.std.specs.Prelude.{◌≡◌, ◌≤◌, ◌<◌, ◌&&◌, true, false, length, pos, ◌+ℤ◌, ◌≤ℤ◌, ◌<ℤ◌, ℤ, All, IfOk};
ghost use Rattle.jiff_core.specs.Calendar.{weekday_number};
ghost use Rattle.escrow_units.specs.OpenDays.{Closings, IsBy2190, IsOpenDay, is_weekend, no_closings, open_day as open_day_of};
ghost use Rattle.escrow_units.specs.OpenTable.{AreInOrder, OpenFrom};

use crate::day::Day;
use std::alloc::{AllocError, Global};
use std::default::Default;
use std::marker::Model;

/// Which days are closed: each Saturday and Sunday or none, and a list of days. Contracts see the flag and the list.
#[derive(Debug, Drop)]
pub struct ClosedDays {
    weekends: bool,
    days: Vec<Day>,
    // the same days in order
    ordered: Vec<Day>,
    // beside each of these its open day, so that many closed days in a row are passed by one look
    opens: Vec<Day>,
}

impl Model for ClosedDays {
    ghost use Rattle.escrow_units.specs.OpenDays.{Closings};
    ghost use Rattle.escrow_units.specs.OpenTable.{IsOpenTable};

    ghost Value = { Closings };

    ghost view = { λ c. record { weekends = c.weekends; days = c.days.items } };

    ghost invariant = { λ c. IsOpenTable (record { weekends = c.weekends; days = c.days.items }) c.ordered.items c.opens.items };
}

// The weekday of a day, counted from Monday, which is 0. Day 0 was a Thursday.
fn weekday(day: Day) -> i32
    ensures { result ≡ pos (weekday_number day) }
{
    (day.number() + 3).rem_euclid(7)
}

// The first day from a day on that isn't of a weekend, where weekends are closed.
fn past_weekend(weekends: bool, day: Day) -> Day
    requires { day ≤ℤ pos 80_719 }
    ensures from { day ≤ℤ result }
    ensures near { result ≤ℤ (day +ℤ pos 2) }
    ensures past { (weekends && is_weekend result) ≡ false }
    ensures between { (other : ℤ) → day ≤ℤ other → other <ℤ result → (weekends && is_weekend other) ≡ true }
{
    if weekends {
        let weekday = weekday(day);
        if weekday >= 5 {
            return Day::new(day.number() + 7 - weekday);
        }
    }
    day
}

// The open day of a day, by the days of the list in order and the open days of those that aren't before it.
fn open_from(weekends: bool, ordered: &[Day], opens: &[Day], day: Day) -> Day
    requires count { length opens.now ≡ length ordered.now }
    requires by { day ≤ℤ pos 80_719 }
    ensures { (closed : Closings) → closed.weekends ≡ weekends → AreInOrder closed ordered.now → OpenFrom closed ordered.now opens.now day → IsOpenDay closed day result }
{
    let past = past_weekend(weekends, day);
    match ordered.binary_search(&past) {
        Ok(place) => opens[place],
        Err(_) => past,
    }
}

// Puts beside each day of the list, which stand in order, its open day: from the last to the first, since that of a day is the
// open day of the next day.
fn put_opens(weekends: bool, ordered: &[Day], opens: &mut [Day])
    requires count { length opens.old ≡ length ordered.now }
    requires by { All IsBy2190 ordered.now }
    ensures count { length opens.new ≡ length ordered.now }
    ensures opens { (closed : Closings) → closed.weekends ≡ weekends → AreInOrder closed ordered.now → (day : ℤ) → OpenFrom closed ordered.now opens.new day }
{
    let mut place = ordered.len();
    while place > 0 {
        place -= 1;
        let next = Day::new(ordered[place].number() + 1);
        opens[place] = open_from(weekends, ordered, opens, next);
    }
}

impl ClosedDays {
    /// No day is closed.
    pub fn none(alloc: Global) -> ClosedDays
        ensures { result ≡ no_closings }
    {
        ClosedDays {
            weekends: false,
            days: Vec::new(alloc),
            ordered: Vec::new(alloc),
            opens: Vec::new(alloc),
        }
    }

    /// The days of a list are closed, and each Saturday and Sunday, where weekends are. The days may come in any order, and
    /// more than once; they are up to 2190-12-31.
    ///
    /// # Errors
    ///
    /// Where memory ran out.
    pub fn new(alloc: Global, weekends: bool, days: Vec<Day>) -> Result<ClosedDays, AllocError>
        requires { All IsBy2190 days.items }
        ensures { IfOk result (λ closed. closed ≡ record { weekends = weekends; days = days.items }) }
    {
        let mut ordered = Vec::from_slice(alloc, days.as_slice())?;
        ordered.sort_unstable();
        let mut opens = vec![in alloc; Day::default(); ordered.len()]?;
        put_opens(weekends, ordered.as_slice(), opens.as_mut_slice());
        Ok(ClosedDays {
            weekends,
            days,
            ordered,
            opens,
        })
    }

    /// Whether each Saturday and Sunday is closed.
    pub fn weekends(&self) -> bool
        ensures { result ≡ self.now.weekends }
    {
        self.weekends
    }

    /// The list of closed days, in the order in which they were given.
    pub fn days(&self) -> &[Day]
        ensures value { result.now ≡ self.now.days }
        ensures by { All IsBy2190 result.now }
    {
        self.days.as_slice()
    }

    /// The open day of a day: the least day at or after it that is open. The day is up to 2190-12-31.
    ///
    /// It is one look at the weekday and one binary search, however many closed days are in a row, and takes no memory.
    pub fn open_day(&self, day: Day) -> Day
        requires { IsBy2190 day }
        ensures value { result ≡ open_day_of self.now day }
        ensures least { IsOpenDay self.now day result }
    {
        open_from(
            self.weekends,
            self.ordered.as_slice(),
            self.opens.as_slice(),
            day,
        )
    }
}
