//! Factoring: the columns of the basic lines, made triangular one after another.

use crate::cells::read;
use crate::factor::Pivot;
use crate::factored::FactoredBasis;
use crate::matrix::last_date;
use crate::number::{PIVOT_TOLERANCE, Price};
use crate::segments::{Segment, run_of};
use crate::sparse::{Entry, Stop};

// How many of the first columns stay as they are, and the place of the next line in the order of the lines.
#[derive(Clone, Copy)]
struct Kept {
    columns: usize,
    next: usize,
}

impl FactoredBasis {
    // How many rows the basis has.
    fn row_count(&self) -> usize {
        usize::from(self.segments.free()) + usize::from(self.is_free())
    }

    // The first date whose run is another than that of the factor; the day of settlement where the factor isn't whole, or the
    // multiplier has come to a row or lost it.
    fn first_change(&self) -> Result<usize, Stop> {
        if !self.factor.made || self.factor.free != self.is_free() {
            return Ok(0);
        }
        for date in 0..self.factor.runs.len() {
            if self.factor.runs[date] != self.segments.of(date)? {
                return Ok(date);
            }
        }
        Ok(self.factor.runs.len())
    }

    // Whether a line has a column that stays as it is: the line pays before the first change alone.
    fn stays(&self, column: usize, line: u16, change: usize) -> Result<bool, Stop> {
        match self.factor.pivots.get(column) {
            Some(pivot) if pivot.line == line => { Ok(last_date(self.matrix.pays(line)?) < change) }
            _ => Ok(false),
        }
    }

    // How many of the first columns stay as they are, and where the other lines begin in their order.
    fn kept(&self, change: usize) -> Result<Kept, Stop> {
        let order = self.matrix.order();
        let mut columns = 0usize;
        for place in 0..order.len() {
            let line = order[place];
            if self.is_basic(line)? {
                if !self.stays(columns, line, change)? {
                    return Ok(Kept {
                        columns,
                        next: place,
                    });
                }
                columns = columns.saturating_add(1);
            }
        }
        Ok(Kept {
            columns,
            next: order.len(),
        })
    }

    /// Leaves so many columns, the first ones, and notes for what the others are made.
    pub(crate) fn begin(&mut self, columns: usize) -> Result<(), Stop> {
        self.factor.made = false;
        self.factor.truncate(columns)?;
        self.factor.note_runs(&self.segments)?;
        self.factor.free = self.is_free();
        self.factor.rows = self.row_count();
        Ok(())
    }

    // Puts a line's column into the rows.
    fn scatter(&mut self, line: u16) -> Result<(), Stop> {
        for entry in self.matrix.pays(line)? {
            if let Segment::Free(row) = self.segments.of(usize::from(entry.place))? {
                self.factor.column.add(row, entry.value)?;
            }
        }
        if self.is_free() {
            let value = self.matrix.value(line)?.negated();
            self.factor
                .column
                .put(self.segments.multiplier_row(), value)?;
        }
        Ok(())
    }

    // What is paid in a run at the end.
    fn paid_at_end(&self, pays: &[Entry], run: Segment) -> Result<Price, Stop> {
        let mut paid = Price::zero();
        for entry in pays.iter().rev() {
            if run_of(self.factor.runs.as_slice(), usize::from(entry.place))? != run {
                return Ok(paid);
            }
            paid = paid.plus(entry.value);
        }
        Ok(paid)
    }

    // The pivot of the column of a line as it stands: where it ends in the run that is next, and so do all columns before it.
    fn standing_pivot(&self, line: u16, least: u64) -> Result<Option<Pivot>, Stop> {
        let pays = self.matrix.pays(line)?;
        let run = run_of(self.factor.runs.as_slice(), last_date(pays))?;
        match run {
            Segment::Free(row) if usize::from(row) == self.count() && self.factor.may_stand() => {
                let value = self.paid_at_end(pays, run)?;
                if value.size() < least {
                    return Ok(None);
                }
                Ok(Some(Pivot { row, value, line }))
            }
            _ => Ok(None),
        }
    }

    /// Adds the column of a line. Whether it has a pivot, of at least so great a value: else it depends on those before it, or
    /// there is no row left for it.
    pub(crate) fn add_line(&mut self, line: u16, least: u64) -> Result<bool, Stop> {
        if self.factor.rows <= self.count() {
            return Ok(false);
        }
        if let Some(pivot) = self.standing_pivot(line, least)? {
            self.factor.standing = self.factor.standing.saturating_add(1);
            self.factor.keep_pivot(&pivot)?;
            return Ok(true);
        }
        self.factor.column.clear()?;
        self.scatter(line)?;
        self.factor.eliminate()?;
        let Some(pivot) = self.factor.pivot_of(line, least)? else {
            return Ok(false);
        };
        self.factor.keep(&pivot)?;
        Ok(true)
    }

    /// The line at a place in the order of the lines, where it is basic. It stops where there is no such place.
    pub(crate) fn basic_at(&self, place: usize) -> Result<Option<u16>, Stop> {
        let line = read(self.matrix.order(), place)?;
        if self.is_basic(line)? {
            Ok(Some(line))
        } else {
            Ok(None)
        }
    }

    // Adds the columns of the basic lines from a place in their order on.
    fn add_lines(&mut self, next: usize) -> Result<(), Stop> {
        for place in next..self.matrix.order().len() {
            if let Some(line) = self.basic_at(place)? {
                if !self.add_line(line, PIVOT_TOLERANCE)? {
                    return Err(Stop::Irregular);
                }
            }
        }
        if self.factor.is_full() {
            Ok(())
        } else {
            Err(Stop::Irregular)
        }
    }

    /// The runs and the factor of the basis as it stands. It answers how many of the first columns stayed as they were. It stops
    /// where a column depends on others, or there are more or fewer columns than rows.
    pub fn refactor(&mut self) -> Result<usize, Stop> {
        self.segments.refresh(&self.basis)?;
        let kept = self.kept(self.first_change()?)?;
        self.begin(kept.columns)?;
        self.add_lines(kept.next)?;
        self.factor.made = true;
        Ok(kept.columns)
    }
}
