//! The factor of a basis: its columns, made triangular.
ghost use Rattle.std.specs.Prelude.{◌≤◌, ◌^◌, unsigned_abs};

use crate::cells::{push_within, put, read};
use crate::number::Price;
use crate::scatter::Scatter;
use crate::segments::{Segment, Segments};
use crate::sparse::{Entry, Sparse, Stop};
use escrow_desk::NoMemory;
use std::alloc::Global;

// How many more entries there is room for, by the row.
const MORE_ENTRIES: usize = 8;

/// A pivot: where a column of the basis is solved for.
#[derive(Clone, Copy)]
pub(crate) struct Pivot {
    /// The row: a free run of dates, or behind them all the multiplier.
    pub row: u16,
    /// The value that is divided by.
    pub value: Price,
    /// The line whose column it is.
    pub line: u16,
}

/// A column with entries below its pivot, and the row of the pivot.
#[derive(Clone, Copy)]
pub(crate) struct Elimination {
    /// The column, counted from 0.
    pub column: usize,
    /// The row of its pivot.
    pub row: u16,
}

/// The columns of the basic lines, each with its pivot. All its memory is taken when it is made.
#[derive(Drop)]
pub(crate) struct Factor {
    /// How many rows there are: the free runs of dates, and the multiplier where it is free.
    pub rows: usize,
    /// The runs of dates that the columns were made for. The columns before the first change needn't be made again.
    pub runs: Vec<Segment>,
    /// Whether the multiplier had a row.
    pub free: bool,
    /// Whether the columns are those of a whole basis.
    pub made: bool,
    /// The pivot of each column.
    pub pivots: Vec<Pivot>,
    /// How many of the first columns are those of their lines as they stand, each with its pivot in the next run: nothing else is
    /// kept of them.
    pub standing: usize,
    /// Whether each row has a pivot.
    pub pivoted: Vec<bool>,
    /// What the columns have below their pivots, by these.
    pub lower: Sparse,
    /// What they have above them.
    pub upper: Sparse,
    /// The columns that have anything below their pivots.
    pub eliminations: Vec<Elimination>,
    /// The column that is being made.
    pub column: Scatter,
}

/// A price that has 40 more places, divided by a pivot. It stops where the pivot is too near to 0.
pub(crate) fn over_pivot(left: i128, pivot: Price) -> Result<Price, Stop>
    requires { unsigned_abs left ≤ 2 ^ 126 }
{
    if left == 0 {
        return Ok(Price::zero());
    }
    Price::quotient(left, pivot).ok_or(Stop::Irregular)
}

impl Factor {
    /// Room for a factor over so many dates, of columns with so many entries.
    ///
    /// # Errors
    ///
    /// Where memory ran out.
    pub(crate) fn make(alloc: Global, dates: u16, entries: usize) -> Result<Factor, NoMemory> {
        let rows = usize::from(dates) + 2;
        let more = MORE_ENTRIES * rows;
        Ok(Factor {
            rows: 0,
            runs: vec![in alloc; Segment::Head; rows]?,
            free: false,
            made: false,
            pivots: Vec::with_capacity(alloc, rows)?,
            standing: 0,
            pivoted: vec![in alloc; false; rows]?,
            lower: Sparse::with_room(alloc, rows, more)?,
            upper: Sparse::with_room(alloc, rows, entries.saturating_add(more))?,
            eliminations: Vec::with_capacity(alloc, rows)?,
            column: Scatter::with_room(alloc, rows)?,
        })
    }

    // Takes the marks off the pivots from a column on.
    fn unmark(&mut self, columns: usize) -> Result<(), Stop> {
        for place in columns..self.pivots.len() {
            let row = usize::from(self.pivots[place].row);
            put(self.pivoted.as_mut_slice(), row, false)?;
        }
        Ok(())
    }

    // How many eliminations are of so many first columns.
    fn eliminations_before(&self, columns: usize) -> usize {
        let mut count = 0usize;
        for elimination in self.eliminations.as_slice() {
            if elimination.column < columns {
                count = count.saturating_add(1);
            }
        }
        count
    }

    /// Leaves so many columns, the first ones.
    pub(crate) fn truncate(&mut self, columns: usize) -> Result<(), Stop> {
        let eliminations = self.eliminations_before(columns);
        self.unmark(columns)?;
        self.pivots.truncate(columns);
        self.standing = self.standing.min(columns);
        self.eliminations.truncate(eliminations);
        self.lower.truncate(columns)?;
        self.upper.truncate(columns)?;
        self.column.clear()
    }

    /// Notes the runs of dates that the columns are made for.
    pub(crate) fn note_runs(&mut self, segments: &Segments) -> Result<(), Stop> {
        for date in 0..self.runs.len() {
            self.runs[date] = segments.of(date)?;
        }
        Ok(())
    }

    /// Whether each row has a pivot.
    pub(crate) fn is_full(&self) -> bool {
        self.pivots.len() == self.rows
    }

    /// Whether all columns are those of their lines as they stand, and the next may be.
    pub(crate) fn may_stand(&self) -> bool {
        !self.free && self.standing == self.pivots.len()
    }

    /// Whether a row has a pivot.
    pub(crate) fn is_pivoted(&self, row: u16) -> Result<bool, Stop> {
        read(self.pivoted.as_slice(), usize::from(row))
    }

    /// Carries out on the column that is being made the eliminations of those before it.
    pub(crate) fn eliminate(&mut self) -> Result<(), Stop> {
        for elimination in self.eliminations.as_slice() {
            let times = self.column.get(elimination.row)?;
            if !times.is_zero() {
                self.column
                    .subtract(self.lower.column(elimination.column)?, times)?;
            }
        }
        Ok(())
    }

    /// The pivot of the column that is being made: the greatest of its values in rows without a pivot, where it is at least so
    /// great.
    pub(crate) fn pivot_of(&self, line: u16, least: u64) -> Result<Option<Pivot>, Stop> {
        let mut greatest = None;
        let mut size = least.saturating_sub(1);
        for row in self.column.rows() {
            let value = self.column.get(*row)?;
            if size < value.size() && !self.is_pivoted(*row)? {
                size = value.size();
                greatest = Some(Pivot {
                    row: *row,
                    value,
                    line,
                });
            }
        }
        Ok(greatest)
    }

    // Keeps an entry of a column below its pivot, divided by it.
    fn keep_below(&mut self, entry: Entry, pivot: Price) -> Result<(), Stop> {
        let value = over_pivot(entry.value.widened(), pivot)?;
        if value.is_zero() {
            return Ok(());
        }
        self.lower.push(Entry {
            place: entry.place,
            value,
        })
    }

    // Keeps what the column that is being made has in a row beside its pivot: above where the row has a pivot, and else below.
    fn keep_entry(&mut self, row: u16, pivot: &Pivot) -> Result<(), Stop> {
        let value = self.column.get(row)?;
        if row == pivot.row || value.is_zero() {
            return Ok(());
        }
        let entry = Entry { place: row, value };
        if self.is_pivoted(row)? {
            self.upper.push(entry)
        } else {
            self.keep_below(entry, pivot.value)
        }
    }

    /// Keeps the column that is being made, which has a pivot.
    pub(crate) fn keep(&mut self, pivot: &Pivot) -> Result<(), Stop> {
        for place in 0..self.column.rows().len() {
            let row = read(self.column.rows(), place)?;
            self.keep_entry(row, pivot)?;
        }
        self.keep_pivot(pivot)
    }

    /// Keeps the pivot of the column whose entries were kept. Then the column is added.
    pub(crate) fn keep_pivot(&mut self, pivot: &Pivot) -> Result<(), Stop> {
        let column = self.pivots.len();
        self.upper.end_column()?;
        self.lower.end_column()?;
        if !self.lower.column(column)?.is_empty() {
            push_within(
                &mut self.eliminations,
                Elimination {
                    column,
                    row: pivot.row,
                },
            )?;
        }
        put(self.pivoted.as_mut_slice(), usize::from(pivot.row), true)?;
        push_within(&mut self.pivots, *pivot)
    }
}
