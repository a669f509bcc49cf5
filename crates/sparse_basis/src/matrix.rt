//! The columns of the lines of a linear program.
ghost use Rattle.std.specs.Prelude.{◌≡◌, ◌<◌, ◌≤◌, IfOk, length};

use crate::cells::{push_within, read};
use crate::number::Price;
use crate::sparse::{Entry, MOST_ENTRIES, Sparse, Stop};
use escrow_desk::NoMemory;
use std::alloc::Global;

/// What a cent of each line pays on the dates, and what it is worth by the yield limit: its column in the linear program. The lines
/// are added once, and never change.
#[derive(Drop)]
pub struct Matrix {
    dates: u16,
    lines: u16,
    pays: Sparse,
    // What each line has in the row of the multiplier of the yield limit.
    values: Vec<Price>,
    order: Vec<u16>,
}

/// The last date on which a line pays; 0 where there is none.
pub fn last_date(pays: &[Entry]) -> usize {
    match pays.last() {
        Some(entry) => usize::from(entry.place),
        None => 0,
    }
}

// The last date of a line. One that wasn't added comes first: a solve stops at it.
fn last_date_of(pays: &Sparse, line: u16) -> usize {
    match pays.column(usize::from(line)) {
        Ok(column) => last_date(column),
        Err(_) => 0,
    }
}

// The lines by their last date.
fn order_of(alloc: Global, pays: &Sparse, lines: u16) -> Result<Vec<u16>, NoMemory> {
    let mut order = Vec::with_capacity(alloc, usize::from(lines))?;
    for line in 0..lines {
        order.push(line)?;
    }
    order.sort_by_key(|line| last_date_of(pays, *line))?;
    Ok(order)
}

impl Matrix {
    /// Room for so many lines, over so many dates, with so many payments of all of them together.
    ///
    /// # Errors
    ///
    /// Where memory ran out.
    pub fn with_room(
        alloc: Global,
        dates: u16,
        lines: u16,
        payments: usize,
    ) -> Result<Matrix, NoMemory> {
        Ok(Matrix {
            dates,
            lines,
            pays: Sparse::with_room(alloc, usize::from(lines), payments)?,
            values: Vec::with_capacity(alloc, usize::from(lines))?,
            order: Vec::new(alloc),
        })
    }

    /// Adds what a cent of the line that is being added pays on a date, counted from 1: to its last payment where that is on the
    /// same date. Dates come in order.
    pub fn pay(&mut self, date: u16, value: Price) -> Result<(), Stop> {
        self.pays.add(Entry { place: date, value })
    }

    /// Ends the line that is being added, with what a cent of it is worth by the yield limit.
    pub fn end_line(&mut self, value: Price) -> Result<(), Stop> {
        push_within(&mut self.values, value)?;
        self.pays.end_column()
    }

    /// Puts the lines that were added in order.
    ///
    /// # Errors
    ///
    /// Where memory ran out.
    pub fn arrange(&mut self, alloc: Global) -> Result<(), NoMemory> {
        self.order = order_of(alloc, &self.pays, self.lines)?;
        Ok(())
    }

    /// How many dates there are. They are counted from 1; 0 stands for the day of settlement, and the next number after the last
    /// for what is left at the end.
    pub fn dates(&self) -> u16 {
        self.dates
    }

    /// How many lines there are, counted from 0.
    pub fn lines(&self) -> u16 {
        self.lines
    }

    /// How many payments the columns of all lines have together.
    pub fn entry_count(&self) -> usize {
        self.pays.entry_count()
    }

    /// What a cent of a line pays on each date, counted from 1: an entry a date, in order. It stops where there is no such line.
    pub fn pays(&self, line: u16) -> Result<&[Entry], Stop>
        ensures few { IfOk result (λ entries. length entries.now ≤ MOST_ENTRIES) }
    {
        self.pays.column(usize::from(line))
    }

    /// What a cent of a line is worth by the yield limit: its coefficient in the row of the multiplier. It stops where there is no
    /// such line.
    pub fn value(&self, line: u16) -> Result<Price, Stop> {
        read(self.values.as_slice(), usize::from(line))
    }

    /// The lines in order of their last date, and of those of the same date in the order in which they were added.
    pub fn order(&self) -> &[u16] {
        self.order.as_slice()
    }
}
