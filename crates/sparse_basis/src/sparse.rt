//! Columns of a sparse matrix.
ghost use Rattle.std.specs.Prelude.{◌≤◌, IfOk, length};

use crate::cells::read;
use crate::number::Price;
use escrow_desk::NoMemory;
use std::alloc::Global;

/// The most entries that a column has: more than there are need dates.
pub const MOST_ENTRIES: usize = 512;

/// Why a solve can't go on.
#[derive(Clone, Copy, Debug, PartialEq, Eq)]
pub enum Stop {
    /// The basis isn't regular: a column depends on others, there are more or fewer columns than rows, or nothing can enter it.
    Irregular,
    /// The room that was taken is used up.
    NoRoom,
    /// A line, a date, a row or a column was named that isn't there, which is a mistake of who named it.
    WrongPlace,
}

/// An entry of a column.
#[derive(Clone, Copy)]
pub struct Entry {
    /// Its row, or its date.
    pub place: u16,
    /// Its value.
    pub value: Price,
}

impl Entry {
    // The entry that fills room that isn't used.
    fn empty() -> Entry {
        Entry {
            place: 0,
            value: Price::zero(),
        }
    }
}

/// Columns one after another, in room that is taken once.
#[derive(Drop)]
pub(crate) struct Sparse {
    entries: Vec<Entry>,
    used: usize,
    ends: Vec<usize>,
    columns: usize,
    // Where the column that is being made begins.
    begin: usize,
}

impl Sparse {
    /// Room for so many columns, and so many entries in all.
    ///
    /// # Errors
    ///
    /// Where memory ran out.
    pub(crate) fn with_room(
        alloc: Global,
        columns: usize,
        entries: usize,
    ) -> Result<Sparse, NoMemory> {
        Ok(Sparse {
            entries: vec![in alloc; Entry::empty(); entries]?,
            used: 0,
            ends: vec![in alloc; 0; columns]?,
            columns: 0,
            begin: 0,
        })
    }

    /// Leaves so many columns, the first ones, and no entry of one that is being made.
    pub(crate) fn truncate(&mut self, columns: usize) -> Result<(), Stop> {
        self.columns = self.columns.min(columns);
        self.begin = self.start(self.columns)?;
        self.used = self.begin;
        Ok(())
    }

    /// How many entries there are in all columns together.
    pub(crate) fn entry_count(&self) -> usize {
        self.used
    }

    /// Adds an entry to the column that is being made.
    pub(crate) fn push(&mut self, entry: Entry) -> Result<(), Stop> {
        if self.used >= self.entries.len() {
            return Err(Stop::NoRoom);
        }
        self.entries[self.used] = entry;
        self.used += 1;
        Ok(())
    }

    /// Adds an entry to the column that is being made, or to its last entry where that is of the same place.
    pub(crate) fn add(&mut self, entry: Entry) -> Result<(), Stop> {
        if self.used <= self.begin {
            return self.push(entry);
        }
        match self.entries.get_mut(self.used - 1) {
            Some(last) if last.place == entry.place => {
                last.value = last.value.plus(entry.value);
                Ok(())
            }
            Some(_) => self.push(entry),
            None => Err(Stop::WrongPlace),
        }
    }

    /// Ends the column that is being made.
    pub(crate) fn end_column(&mut self) -> Result<(), Stop> {
        if self.columns >= self.ends.len() {
            return Err(Stop::NoRoom);
        }
        self.ends[self.columns] = self.used;
        self.columns += 1;
        self.begin = self.used;
        Ok(())
    }

    // Where a column begins: behind the columns before it.
    fn start(&self, column: usize) -> Result<usize, Stop> {
        if column == 0 {
            return Ok(0);
        }
        read(self.ends.as_slice(), column - 1)
    }

    /// The entries of a column, counted from 0. It stops where there is no such column, or it has more than the most entries.
    pub(crate) fn column(&self, column: usize) -> Result<&[Entry], Stop>
        ensures few { IfOk result (λ entries. length entries.now ≤ MOST_ENTRIES) }
    {
        if column >= self.columns {
            return Err(Stop::WrongPlace);
        }
        let start = self.start(column)?;
        let end = self.start(column + 1)?;
        if end < start || MOST_ENTRIES < end - start || self.entries.len() < end {
            return Err(Stop::WrongPlace);
        }
        Ok(&self.entries.as_slice()[start..end])
    }
}
