//! How much of each line may be bought.
ghost use Rattle.std.specs.Prelude.{◌≡◌, ◌+◌, ◌*◌, ◌^◌, ◌<◌, ◌≤◌, unsigned_abs};

use crate::program::proper_step;
use cash_table::place_of;
use escrow_desk::NoMemory;
use escrow_units::{Cents, Flow};
use offer_book::Book;
use proof_tree::Interval;
use sparse_basis::{AMOUNT_PLACES, Amount, Entry, Matrix, Stop, Total, put, read};
use std::alloc::Global;

/// The range of a line.
#[derive(Clone, Copy)]
pub(crate) struct Range {
    /// The least amount of face.
    pub low: Amount,
    /// The greatest amount of face.
    pub high: Amount,
}

/// What a number of units of a line comes to exactly.
#[derive(Clone, Copy)]
pub struct Holding<'a> {
    /// The units.
    pub units: u64,
    /// What they cost.
    pub cost: Cents,
    /// What they pay, in order of date.
    pub payments: &'a [Flow],
    /// What they pay is worth so much at the yield of the limit, less what they cost, in units of 2^-62 of a cent: 0 for opening
    /// cash.
    pub excess: i128,
}

/// What a fixed line costs and is worth exactly.
#[derive(Clone, Copy)]
pub(crate) struct Exact {
    /// What it costs, in cents.
    pub cost: u64,
    /// What it is worth at the yield of the limit, less what it costs.
    pub excess: Total,
}

/// The ranges of all lines, and what fixed lines cost and pay exactly. All its memory is taken when it is made.
#[derive(Drop)]
pub(crate) struct LineRanges<'a> {
    book: &'a Book,
    ranges: Vec<Range>,
    // Of a fixed line what it costs, and what it is worth beyond that.
    exact: Vec<Option<Exact>>,
    // Where the receipts of a line start, and at last where they end. There is one for each entry of a column.
    starts: Vec<usize>,
    receipts: Vec<u64>,
    // What all fixed lines pay on each date.
    paid: Vec<Total>,
}

impl Range {
    // From so many units to so many.
    fn of(interval: Interval, step: u64) -> Range {
        Range {
            low: face(interval.low, step),
            high: face(interval.high, step),
        }
    }

    /// Whether there is no choice.
    pub(crate) fn is_single(self) -> bool {
        self.low.get() == self.high.get()
    }
}

// Units of a line with a step, as an amount of face.
fn face(units: u64, step: u64) -> Amount {
    Amount::clamp(i128::from(units) * i128::from(proper_step(step)) << AMOUNT_PLACES)
}

// Where the receipts of each line start, as far as its lines were added.
fn starts_of(alloc: Global, matrix: &Matrix) -> Result<Vec<usize>, NoMemory> {
    let mut starts = Vec::new(alloc);
    let mut start: usize = 0;
    for line in 0..matrix.lines() {
        starts.push(start)?;
        let Ok(pays) = matrix.pays(line) else {
            return Ok(starts);
        };
        start = start.saturating_add(pays.len());
    }
    starts.push(start)?;
    Ok(starts)
}

// Every amount of each line of a book.
fn whole_ranges(alloc: Global, book: &Book) -> Result<Vec<Range>, NoMemory> {
    let mut ranges = Vec::new(alloc);
    for line in book.lines() {
        let whole = Interval {
            low: 0,
            high: line.most,
        };
        ranges.push(Range::of(whole, line.step))?;
    }
    Ok(ranges)
}

impl<'a> LineRanges<'a> {
    /// Every amount of each line of a book, whose columns are given.
    ///
    /// # Errors
    ///
    /// Where memory ran out.
    pub(crate) fn make(
        alloc: Global,
        book: &'a Book,
        matrix: &Matrix,
    ) -> Result<LineRanges<'a>, NoMemory> {
        Ok(LineRanges {
            book,
            ranges: whole_ranges(alloc, book)?,
            exact: vec![in alloc; None; usize::from(book.line_count())]?,
            starts: starts_of(alloc, matrix)?,
            receipts: vec![in alloc; 0; matrix.entry_count()]?,
            paid: vec![in alloc; Total::zero(); usize::from(book.need_count()) + 1]?,
        })
    }

    /// The range of a line. It stops where there is no such line.
    pub(crate) fn range(&self, line: u16) -> Result<Range, Stop> {
        read(self.ranges.as_slice(), usize::from(line))
    }

    /// Whether a line has a single amount. It stops where there is no such line.
    pub(crate) fn is_single(&self, line: u16) -> Result<bool, Stop> {
        Ok(self.range(line)?.is_single())
    }

    /// What a fixed line comes to; None where it isn't fixed. It stops where there is no such line.
    pub(crate) fn exact(&self, line: u16) -> Result<Option<Exact>, Stop> {
        read(self.exact.as_slice(), usize::from(line))
    }

    // Where the receipts of a line start.
    fn start(&self, line: u16) -> Result<usize, Stop> {
        read(self.starts.as_slice(), usize::from(line))
    }

    /// What a fixed line pays, in cents: a number for each entry of its column, in order; those of the lines after it follow.
    pub(crate) fn receipts(&self, line: u16) -> Result<&[u64], Stop> {
        let start = self.start(line)?;
        if self.receipts.len() < start {
            return Err(Stop::WrongPlace);
        }
        Ok(&self.receipts.as_slice()[start..])
    }

    /// What all fixed lines pay on a date, counted from 1; nothing on the day of settlement. It stops where there is no such date.
    pub(crate) fn paid(&self, date: usize) -> Result<Total, Stop> {
        read(self.paid.as_slice(), date)
    }

    // Units of a line as a range.
    fn range_of(&self, line: u16, interval: Interval) -> Result<Range, Stop> {
        match self.book.lines().get(usize::from(line)) {
            Some(line) => Ok(Range::of(interval, line.step)),
            None => Err(Stop::WrongPlace),
        }
    }

    // Sets a range, and what a fixed line comes to; what it paid before is cleared.
    fn put(
        &mut self,
        line: u16,
        interval: Interval,
        exact: Option<Exact>,
        pays: &[Entry],
    ) -> Result<(), Stop> {
        let range = self.range_of(line, interval)?;
        self.clear_receipts(line, pays)?;
        put(self.ranges.as_mut_slice(), usize::from(line), range)?;
        put(self.exact.as_mut_slice(), usize::from(line), exact)
    }

    /// Sets the range of a line, whose column is given, in units. It isn't fixed any longer.
    pub(crate) fn set(
        &mut self,
        line: u16,
        interval: Interval,
        pays: &[Entry],
    ) -> Result<(), Stop> {
        self.put(line, interval, None, pays)
    }

    /// Fixes a line, whose column is given, at a number of units.
    pub(crate) fn fix(&mut self, line: u16, holding: &Holding, pays: &[Entry]) -> Result<(), Stop> {
        let single = Interval {
            low: holding.units,
            high: holding.units,
        };
        let exact = Exact {
            cost: holding.cost.0,
            excess: Total::of_excess(holding.excess),
        };
        self.put(line, single, Some(exact), pays)?;
        let start = self.start(line)?;
        for payment in holding.payments {
            self.receive(pays, start, payment)?;
        }
        Ok(())
    }

    // Clears a receipt.
    fn clear(&mut self, place: usize, date: u16) -> Result<(), Stop> {
        let cents = read(self.receipts.as_slice(), place)?;
        let paid = self.paid(usize::from(date))?.minus(Total::of_cents(cents));
        put(self.paid.as_mut_slice(), usize::from(date), paid)?;
        put(self.receipts.as_mut_slice(), place, 0)
    }

    // Clears the receipts of a line, if it is fixed.
    fn clear_receipts(&mut self, line: u16, pays: &[Entry]) -> Result<(), Stop> {
        if self.exact(line)?.is_none() {
            return Ok(());
        }
        let mut place = self.start(line)?;
        for entry in pays {
            self.clear(place, entry.place)?;
            place = place.saturating_add(1);
        }
        Ok(())
    }

    // Adds a payment to the receipts of a line; one after the last date is left out. It stops at one on a date on which the line's
    // column has no entry.
    fn receive(&mut self, pays: &[Entry], start: usize, payment: &Flow) -> Result<(), Stop> {
        let date = place_of(self.book.needs(), payment.day).saturating_add(1);
        if self.book.needs().len() < date {
            return Ok(());
        }
        let entry = pays.partition_point(|entry| usize::from(entry.place) < date);
        match pays.get(entry) {
            Some(found) if usize::from(found.place) == date => {
                self.add(start.saturating_add(entry), date, payment.cents.0)
            }
            _ => Err(Stop::WrongPlace),
        }
    }

    // Adds to a receipt of a date.
    fn add(&mut self, place: usize, date: usize, cents: u64) -> Result<(), Stop> {
        let received = read(self.receipts.as_slice(), place)?.saturating_add(cents);
        put(self.receipts.as_mut_slice(), place, received)?;
        let paid = self.paid(date)?.plus(Total::of_cents(cents));
        put(self.paid.as_mut_slice(), date, paid)
    }
}
