//! Prices, the multiplier and reduced costs.

use crate::base::Base;
use escrow_desk::NoMemory;
use sparse_basis::{Entry, Multiplier, Price, Segment, Stop, product, put, read};
use std::alloc::Global;

/// The prices of the dates, the multiplier of the yield limit, and the reduced costs of the lines. All its memory is taken when it
/// is made.
#[derive(Drop)]
pub(crate) struct Duals {
    // From the day of settlement to the date after the last.
    prices: Vec<Price>,
    multiplier: Price,
    reduced_costs: Vec<Price>,
    // For each column what its payments in runs with a price of their own have to be worth.
    right: Vec<Price>,
    // The price of each row.
    rows: Vec<Price>,
    // Whether the rows are those of the right-hand side, as the columns alone give them.
    solved: bool,
}

impl<'a> Base<'a> {
    // What is paid in the run with the day of settlement: on the first dates.
    fn head_payments(&self, pays: &[Entry]) -> Result<Price, Stop> {
        let mut paid = Price::zero();
        for entry in pays {
            if self.run_of(usize::from(entry.place))? != Segment::Head {
                return Ok(paid);
            }
            paid = paid.plus(entry.value);
        }
        Ok(paid)
    }

    // The multiplier as far as the basis says it: its own row says the rest.
    fn known_multiplier(&self) -> Price {
        match self.multiplier() {
            Multiplier::Top => self.aim.multiplier,
            Multiplier::Zero | Multiplier::Free => Price::zero(),
        }
    }

    // What the payments of a basic line have to be worth in the runs with a price of their own.
    fn owed(&self, line: u16) -> Result<Price, Stop> {
        let own = self.cost(line)?.widened() + self.known_multiplier().times(self.value(line)?);
        let head = self.head_payments(self.pays(line)?)?;
        Ok(Price::narrowed(own - head.times(self.aim.price)))
    }
}

impl Duals {
    /// Room for the prices of a program.
    ///
    /// # Errors
    ///
    /// Where memory ran out.
    pub(crate) fn make(alloc: Global, base: &Base) -> Result<Duals, NoMemory> {
        let dates = usize::from(base.dates());
        Ok(Duals {
            prices: vec![in alloc; Price::zero(); dates + 2]?,
            multiplier: Price::zero(),
            reduced_costs: vec![in alloc; Price::zero(); usize::from(base.lines())]?,
            right: vec![in alloc; Price::zero(); dates + 2]?,
            rows: vec![in alloc; Price::zero(); dates + 2]?,
            solved: false,
        })
    }

    /// The prices, from the day of settlement to the date after the last.
    pub(crate) fn prices(&self) -> &[Price] {
        self.prices.as_slice()
    }

    /// The price of a date.
    pub(crate) fn price(&self, date: usize) -> Result<Price, Stop> {
        read(self.prices.as_slice(), date)
    }

    /// Puts the price of a date.
    pub(crate) fn put_price(&mut self, date: usize, price: Price) -> Result<(), Stop> {
        put(self.prices.as_mut_slice(), date, price)
    }

    /// The multiplier.
    pub(crate) fn multiplier(&self) -> Price {
        self.multiplier
    }

    /// Puts the multiplier.
    pub(crate) fn put_multiplier(&mut self, multiplier: Price) {
        self.multiplier = multiplier;
    }

    /// The reduced cost of a line; 0 of one that is in the basis, or has a single amount.
    pub(crate) fn reduced_cost(&self, line: u16) -> Result<Price, Stop> {
        read(self.reduced_costs.as_slice(), usize::from(line))
    }

    /// The prices and reduced costs of a basis, by its factor, of which so many first columns are those of the last time. Where it
    /// stops, the prices stay as they are, unless a place wasn't there.
    pub(crate) fn refresh(&mut self, base: &Base, kept: usize) -> Result<(), Stop> {
        let same = self.set_right(base)?;
        let first = if self.solved { same.min(kept) } else { 0 };
        self.solved = false;
        base.factored
            .solve_prices_from(first, self.right.as_slice(), self.rows.as_mut_slice())?;
        self.solved = base.factored.is_triangular();
        self.spread(base)?;
        self.reduce(base)
    }

    // Sets the right-hand side of each column. How many of the first ones are as they were.
    fn set_right(&mut self, base: &Base) -> Result<usize, Stop> {
        let mut same = base.factored.count();
        for column in (0..base.factored.count()).rev() {
            let right = base.owed(base.factored.line_of(column)?)?;
            if read(self.right.as_slice(), column)?.get() != right.get() {
                same = column;
            }
            put(self.right.as_mut_slice(), column, right)?;
        }
        Ok(same)
    }

    // The price of a date by the rows.
    fn price_by_rows(&self, base: &Base, date: usize) -> Result<Price, Stop> {
        match base.run_of(date)? {
            Segment::Head => Ok(base.aim.price),
            Segment::Free(run) => read(self.rows.as_slice(), usize::from(run)),
            Segment::Tail => Ok(Price::zero()),
        }
    }

    // Sets prices and the multiplier by the rows.
    fn spread(&mut self, base: &Base) -> Result<(), Stop> {
        for date in 0..usize::from(base.dates()) + 2 {
            let price = self.price_by_rows(base, date)?;
            self.put_price(date, price)?;
        }
        self.multiplier = if base.factored.is_free() {
            read(self.rows.as_slice(), base.factored.multiplier_row())?
        } else {
            base.known_multiplier()
        };
        Ok(())
    }

    // The reduced cost of a line at the prices that stand; none is asked of one that is basic, or has a single amount.
    fn reduced_cost_of(&self, base: &Base, line: u16) -> Result<Price, Stop> {
        if !base.may_enter(line)? {
            return Ok(Price::zero());
        }
        let own = base.cost(line)?.widened() + self.multiplier.times(base.value(line)?);
        let worth = product(base.pays(line)?, self.prices.as_slice())?;
        Ok(Price::narrowed(own - worth))
    }

    /// Sets the reduced costs by the prices and the multiplier that stand.
    pub(crate) fn reduce(&mut self, base: &Base) -> Result<(), Stop> {
        for line in 0..base.lines() {
            let reduced_cost = self.reduced_cost_of(base, line)?;
            put(
                self.reduced_costs.as_mut_slice(),
                usize::from(line),
                reduced_cost,
            )?;
        }
        Ok(())
    }
}
