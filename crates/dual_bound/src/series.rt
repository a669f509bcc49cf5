//! The regular days of lines as runs of series, so that what a run is worth is a difference of two sums. A line that shares no day
//! with another has no run.
ghost use Rattle.std.specs.Prelude.{All, ◌≡◌, ◌+◌, ◌*◌, ◌<◌, ◌≤◌, ℕ, true, [], ◌∷◌, ◌++◌, IfOk, IfSome, OnOk, length, map};
ghost use Rattle.std.specs.List.{AllZip};
ghost use Rattle.dual_bound.specs.Columns.{Extends, IsLaid, IsRun, IsRunOf, IsSmallColumn, IsStopWithin, stop_day as stop_day_of};
ghost use Rattle.dual_bound.specs.declared.column.Column.{Column as ColumnOf};
ghost use Rattle.dual_bound.specs.declared.series.Stop.TheVariants.{Day as DayOf, Start};

use crate::column::Column;
use crate::date_days::{DateDays, days_by_date};
use crate::worth::PricedDay;
use escrow_desk::NoMemory;
use std::alloc::Global;
use std::cmp::Reverse;

/// A stop of series that stand one behind another.
#[derive(Clone, Copy, Debug, PartialEq, Eq)]
pub(crate) enum Stop {
    /// A series starts.
    Start,
    /// A day on which lines pay, by its place.
    Day(u16),
}

/// A run of a series: the stops behind one, up to another.
#[derive(Clone, Copy, Debug, PartialEq, Eq)]
pub(crate) struct Run {
    /// The stop before its first.
    pub from: usize,
    /// Its last stop.
    pub to: usize,
}

/// The stops of series, as runs are put into them.
#[derive(Drop)]
pub(crate) struct Stops {
    /// The stops.
    pub stops: Vec<Stop>,
    /// Where the day at each place stands last, or 0. It shows where to look for a run, and nothing rests on it.
    pub latest: Vec<usize>,
}

/// The series of a book's lines: the regular days of each line that shares days with another are a run of one.
#[derive(Drop)]
pub(crate) struct Series {
    /// The series, one behind another.
    pub stops: Vec<Stop>,
    /// The run of each line, where it is found.
    pub runs: Vec<Option<Run>>,
    /// The stops whose days each need date prices.
    pub date_stops: Vec<DateDays>,
}

// Whether a stop is the day at a place.
fn is_day(stop: Stop, place: u16) -> bool
    ensures { result ≡ true → stop ≡ DayOf place }
{
    match stop {
        Stop::Start => false,
        Stop::Day(own) => own == place,
    }
}

// Whether days stand behind a stop, one by one.
fn stand(stops: &[Stop], from: usize, places: &[u16]) -> bool
    requires from { from ≤ length stops.now }
    requires few { length places.now ≤ 84 }
    ensures { result ≡ true → IsRun stops.now places.now (record { from = from; to = from + length places.now }) }
{
    if stops.len() - from <= places.len() {
        return false;
    }
    for at in 0..places.len() {
        if !is_day(stops[from + 1 + at], places[at]) {
            return false;
        }
    }
    true
}

impl Stops {
    // No stops yet, for so many days.
    fn new(alloc: Global, days: usize) -> Result<Stops, NoMemory>
        ensures { IfOk result (λ stops. stops.stops.items ≡ []) }
    {
        let latest = vec![in alloc; 0usize; days]?;
        Ok(Stops {
            stops: Vec::new(alloc),
            latest,
        })
    }

    // Where days may stand, by where one of them stands last.
    fn guess(&self, places: &[u16], at: usize) -> usize
        requires { at < 2 }
        ensures { result ≤ length self.now.stops.items }
    {
        let latest = match places.get(at) {
            Some(place) => self.latest.get(usize::from(*place)).copied().unwrap_or(0),
            None => 0,
        };
        latest.saturating_sub(at + 1).min(self.stops.len())
    }

    // The run in which days stand, if it is found by the first of them or the second: of two days half a year apart, one
    // isn't shared with a series that pays on another day of the month.
    fn find(&self, places: &[u16]) -> Option<Run>
        requires { length places.now ≤ 84 }
        ensures { IfSome result (IsRun self.now.stops.items places.now) }
    {
        for at in 0..2 {
            let from = self.guess(places, at);
            if stand(self.stops.as_slice(), from, places) {
                return Some(Run {
                    from,
                    to: from + places.len(),
                });
            }
        }
        None
    }

    // Puts a day behind the others.
    fn push(&mut self, place: u16) -> Result<(), NoMemory>
        ensures { OnOk result (self.new.stops.items ≡ self.old.stops.items ++ DayOf place ∷ []) }
    {
        let at = usize::from(place);
        if at < self.latest.len() {
            self.latest[at] = self.stops.len();
        }
        self.stops.push(Stop::Day(place))?;
        Ok(())
    }

    // Puts days behind the others, as a series of their own.
    fn add(&mut self, places: &[u16]) -> Result<Run, NoMemory>
        requires few { length places.now ≤ 84 }
        requires room { length self.old.stops.items ≤ 90_000 }
        ensures stops { OnOk result (self.new.stops.items ≡ self.old.stops.items ++ Start ∷ map DayOf places.now) }
        ensures run { IfOk result (λ run. run ≡ record { from = length self.old.stops.items; to = length self.old.stops.items + length places.now }) }
    {
        let from = self.stops.len();
        self.stops.push(Stop::Start)?;
        for place in places {
            self.push(*place)?;
        }
        Ok(Run {
            from,
            to: from + places.len(),
        })
    }

    // The run of a line, which is put behind the others where it isn't there yet.
    fn run(&mut self, places: &[u16]) -> Result<Run, NoMemory>
        requires few { length places.now ≤ 84 }
        requires room { length self.old.stops.items ≤ 90_000 }
        ensures run { IfOk result (IsRun self.new.stops.items places.now) }
        ensures extends { OnOk result (Extends self.old.stops.items self.new.stops.items) }
        ensures more { OnOk result (length self.new.stops.items ≤ length self.old.stops.items + 85) }
        ensures within { OnOk result ((days : ℕ) → All (λ place. place < days) places.now → All (IsStopWithin days) self.old.stops.items → All (IsStopWithin days) self.new.stops.items) }
    {
        match self.find(places) {
            Some(run) => Ok(run),
            None => self.add(places),
        }
    }

    // Puts the days of lines into series, the given lines in their order.
    fn lay_out(&mut self, columns: &[Column], order: &[usize], days: usize) -> Result<(), NoMemory>
        requires few { length order.now ≤ 513 }
        requires small { All IsSmallColumn columns.now }
        requires there { All (λ (column : ColumnOf). All (λ place. place < days) column.places.items) columns.now }
        requires empty { length self.old.stops.items ≡ 0 }
        ensures within { OnOk result (All (IsStopWithin days) self.new.stops.items) }
        ensures few { OnOk result (length self.new.stops.items ≤ 513 * 85) }
    {
        for line in order {
            if let Some(column) = columns.get(*line) {
                self.run(column.places.as_slice())?;
            }
        }
        Ok(())
    }

    // The runs of all lines, as far as they are found.
    fn runs(&self, alloc: Global, columns: &[Column]) -> Result<Vec<Option<Run>>, NoMemory>
        requires small { All IsSmallColumn columns.now }
        ensures { IfOk result (λ runs. AllZip (IsRunOf self.now.stops.items) columns.now runs.items) }
    {
        let mut runs = Vec::with_capacity(alloc, columns.len())?;
        for column in columns {
            runs.push(self.find(column.places.as_slice()))?;
        }
        Ok(runs)
    }
}

// Counts one line more on the day at each of some places.
fn count_line(counts: &mut [usize], places: &[u16]) {
    for place in places {
        let at = usize::from(*place);
        if at < counts.len() {
            counts[at] = counts[at].saturating_add(1);
        }
    }
}

// How many lines pay regularly on the day at each place. It shows which lines to lay out, and nothing rests on it.
fn lines_by_day(alloc: Global, columns: &[Column], days: usize) -> Result<Vec<usize>, NoMemory> {
    let mut counts = vec![in alloc; 0usize; days]?;
    for column in columns {
        count_line(counts.as_mut_slice(), column.places.as_slice());
    }
    Ok(counts)
}

// Whether more than one line pays regularly on one of some days.
fn are_shared(counts: &[usize], places: &[u16]) -> bool {
    for place in places {
        if counts.get(usize::from(*place)).copied().unwrap_or(0) > 1 {
            return true;
        }
    }
    false
}

// How many regular days a line has.
fn regular_days(columns: &[Column], line: usize) -> usize {
    match columns.get(line) {
        Some(column) => column.places.len(),
        None => 0,
    }
}

// The lines that share a regular day with another, those with the most regular days first. What no other line shares is summed up
// for its line alone.
fn longest_first(alloc: Global, columns: &[Column], days: usize) -> Result<Vec<usize>, NoMemory>
    ensures { IfOk result (λ order. length order.items ≤ length columns.now) }
{
    let counts = lines_by_day(alloc, columns, days)?;
    let mut order = Vec::new(alloc);
    for line in 0..columns.len() {
        if are_shared(counts.as_slice(), columns[line].places.as_slice()) {
            order.push(line)?;
        }
    }
    order.sort_by_key(|line| Reverse(regular_days(columns, *line)))?;
    Ok(order)
}

// What prices a stop: its day. The start of a series has no need date.
fn stop_day(dates: u16, days: &[PricedDay], stop: Stop) -> PricedDay
    requires { IsStopWithin (length days.now) stop }
    ensures { result ≡ stop_day_of dates days.now stop }
{
    match stop {
        Stop::Start => PricedDay {
            need: usize::from(dates),
            power: 0,
        },
        Stop::Day(place) => days[usize::from(place)],
    }
}

// What prices each stop.
fn stop_days(
    alloc: Global,
    dates: u16,
    days: &[PricedDay],
    stops: &[Stop],
) -> Result<Vec<PricedDay>, NoMemory>
    requires { All (IsStopWithin (length days.now)) stops.now }
    ensures { IfOk result (λ list. list.items ≡ map (stop_day_of dates days.now) stops.now) }
{
    let mut list = Vec::with_capacity(alloc, stops.len())?;
    for stop in stops {
        list.push(stop_day(dates, days, *stop))?;
    }
    Ok(list)
}

impl Series {
    /// The series of columns.
    ///
    /// # Errors
    ///
    /// Where memory ran out.
    pub(crate) fn make(
        alloc: Global,
        dates: u16,
        days: &[PricedDay],
        columns: &[Column],
    ) -> Result<Series, NoMemory>
        requires lines { length columns.now ≤ 513 }
        requires small { All IsSmallColumn columns.now }
        requires there { All (λ (column : ColumnOf). All (λ place. place < length days.now) column.places.items) columns.now }
        ensures laid { IfOk result (IsLaid dates days.now columns.now) }
    {
        let mut stops = Stops::new(alloc, days.len())?;
        let order = longest_first(alloc, columns, days.len())?;
        stops.lay_out(columns, order.as_slice(), days.len())?;
        let runs = stops.runs(alloc, columns)?;
        let list = stop_days(alloc, dates, days, stops.stops.as_slice())?;
        let date_stops = days_by_date(alloc, dates, list.as_slice())?;
        Ok(Series {
            stops: stops.stops,
            runs,
            date_stops,
        })
    }
}
