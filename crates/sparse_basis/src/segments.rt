//! Runs of dates with the same price.

use crate::basis::Basis;
use crate::cells::read;
use crate::sparse::Stop;
use escrow_desk::NoMemory;
use std::alloc::Global;

/// The run of joined dates that a date belongs to.
#[derive(Clone, Copy, PartialEq, Eq)]
pub enum Segment {
    /// The run with the day of settlement, whose price is the greatest.
    Head,
    /// A run with a price of its own, counted from 0.
    Free(u16),
    /// The run with what is left at the end, whose price is 0.
    Tail,
}

/// Where the dates are that share their run with another one: none before the first, none from the end on.
#[derive(Clone, Copy)]
pub struct SharedSpan {
    /// The first of them; the number of dates and two where there is none.
    pub first: usize,
    /// The date after the last of them; 0 where there is none.
    pub end: usize,
}

/// The run of each date, and whether another date is in it.
#[derive(Drop)]
pub struct Segments {
    of_date: Vec<Segment>,
    shared: Vec<bool>,
    shared_span: SharedSpan,
    free: u16,
    multiplier: u16,
}

/// The run of a date in a list with one for each date. It stops where there is no such date.
pub(crate) fn run_of(runs: &[Segment], date: usize) -> Result<Segment, Stop> {
    read(runs, date)
}

// Puts the run of each date, where all runs but the head are counted from 0. How many there are beside the head.
fn count_runs(of_date: &mut [Segment], basis: &Basis) -> Result<u16, Stop> {
    let mut run = Segment::Head;
    let mut opened = 0u16;
    for date in 1..of_date.len() {
        if !basis.is_joined(date - 1)? {
            run = Segment::Free(opened);
            opened = opened.saturating_add(1);
        }
        of_date[date] = run;
    }
    Ok(opened)
}

// Marks the dates that share their run with another one, and finds where they are. The last date, which no link follows, shares
// that of the one before it.
fn mark_shared(shared: &mut [bool], basis: &Basis) -> Result<SharedSpan, Stop> {
    let mut span = SharedSpan {
        first: shared.len(),
        end: 0,
    };
    let mut joins_next = false;
    for date in (0..shared.len()).rev() {
        let joins_last = date > 0 && basis.is_joined(date - 1)?;
        shared[date] = joins_last || joins_next;
        joins_next = joins_last;
        if shared[date] {
            span.first = date;
            span.end = span.end.max(date + 1);
        }
    }
    Ok(span)
}

// Turns a run into the tail.
fn end_with(of_date: &mut [Segment], last: u16) {
    for date in 0..of_date.len() {
        if of_date[date] == Segment::Free(last) {
            of_date[date] = Segment::Tail;
        }
    }
}

impl Segments {
    /// Room for so many dates, and the two before and after them.
    ///
    /// # Errors
    ///
    /// Where memory ran out.
    pub fn make(alloc: Global, dates: u16) -> Result<Segments, NoMemory> {
        Ok(Segments {
            of_date: vec![in alloc; Segment::Head; usize::from(dates) + 2]?,
            shared: vec![in alloc; true; usize::from(dates) + 2]?,
            shared_span: SharedSpan {
                first: 0,
                end: usize::from(dates) + 2,
            },
            free: 0,
            multiplier: dates.saturating_add(1),
        })
    }

    /// The runs of a basis. It stops where no link is open.
    pub fn refresh(&mut self, basis: &Basis) -> Result<(), Stop> {
        self.free = 0;
        let opened = count_runs(self.of_date.as_mut_slice(), basis)?;
        if opened == 0 {
            return Err(Stop::Irregular);
        }
        self.free = opened - 1;
        end_with(self.of_date.as_mut_slice(), self.free);
        self.shared_span = mark_shared(self.shared.as_mut_slice(), basis)?;
        Ok(())
    }

    /// The run of a date, from 0 to the one after the last. It stops at others.
    pub fn of(&self, date: usize) -> Result<Segment, Stop> {
        run_of(self.of_date.as_slice(), date)
    }

    /// Whether a date shares its run with another one. It stops where there is no such date.
    pub fn is_shared(&self, date: usize) -> Result<bool, Stop> {
        read(self.shared.as_slice(), date)
    }

    /// Where the dates are that share their run with another one.
    pub fn shared_span(&self) -> SharedSpan {
        self.shared_span
    }

    /// The row of the multiplier, behind those of all runs that there can be.
    pub fn multiplier_row(&self) -> u16 {
        self.multiplier
    }

    /// How many runs have a price of their own.
    pub fn free(&self) -> u16 {
        self.free
    }
}
