//! What lines pay, cost and are worth together.

use crate::base::Base;
use escrow_desk::NoMemory;
use sparse_basis::{Amount, Entry, Segment, Stop, Total, last_date, read};
use std::alloc::Global;

/// What is still needed on each date, what the lines are worth beyond their cost, and what they cost.
#[derive(Drop)]
pub(crate) struct Sums {
    rest: Vec<Total>,
    /// What the lines are worth at the yield of the limit, less what they cost.
    pub excess: Total,
    /// What they cost.
    pub cost: Total,
}

impl Sums {
    /// Room for so many dates, and the day of settlement.
    ///
    /// # Errors
    ///
    /// Where memory ran out.
    pub(crate) fn make(alloc: Global, dates: u16) -> Result<Sums, NoMemory> {
        Ok(Sums {
            rest: vec![in alloc; Total::zero(); usize::from(dates) + 1]?,
            excess: Total::zero(),
            cost: Total::zero(),
        })
    }

    /// What is still needed on a date. It stops where there is no such date.
    pub(crate) fn rest(&self, date: usize) -> Result<Total, Stop> {
        read(self.rest.as_slice(), date)
    }

    // Takes what an amount of a line pays on a date from what is needed.
    fn take(&mut self, entry: Entry, amount: Amount) -> Result<(), Stop> {
        match self.rest.get_mut(usize::from(entry.place)) {
            Some(rest) => {
                *rest = rest.without(entry.value, amount);
                Ok(())
            }
            None => Err(Stop::WrongPlace),
        }
    }

    // Needs cents again that were paid on a date.
    fn need_again(&mut self, date: u16, cents: u64) -> Result<(), Stop> {
        match self.rest.get_mut(usize::from(date)) {
            Some(rest) => {
                *rest = rest.plus(Total::of_cents(cents));
                Ok(())
            }
            None => Err(Stop::WrongPlace),
        }
    }

    /// Starts from the needs, less what fixed lines pay.
    pub(crate) fn start(&mut self, base: &Base) -> Result<(), Stop> {
        self.excess = Total::zero();
        self.cost = Total::zero();
        for date in 0..self.rest.len() {
            let need = Total::of_cents(base.need(date)?);
            self.rest[date] = need.minus(base.ranges.paid(date)?);
        }
        Ok(())
    }

    // Takes the payments of an amount of a line from what is needed.
    fn pay(&mut self, base: &Base, line: u16, amount: Amount) -> Result<(), Stop> {
        for entry in base.pays(line)? {
            self.take(*entry, amount)?;
        }
        Ok(())
    }

    // The same of a basic line, on the dates that share their run: on others nothing is left over, and no cash is carried.
    fn pay_shared(&mut self, base: &Base, line: u16, amount: Amount) -> Result<(), Stop> {
        let pays = base.pays(line)?;
        let span = base.factored.segments.shared_span();
        if last_date(pays) < span.first {
            return Ok(());
        }
        for entry in pays {
            let date = usize::from(entry.place);
            if span.end <= date {
                return Ok(());
            }
            if base.factored.segments.is_shared(date)? {
                self.take(*entry, amount)?;
            }
        }
        Ok(())
    }

    /// Leaves what a basic line pays to its column, if it is fixed: it was taken from what is needed.
    pub(crate) fn give_back(&mut self, base: &Base, line: u16) -> Result<(), Stop> {
        if base.ranges.exact(line)?.is_none() {
            return Ok(());
        }
        for (entry, cents) in base.pays(line)?.iter().zip(base.ranges.receipts(line)?) {
            self.need_again(entry.place, *cents)?;
        }
        Ok(())
    }

    // Counts what an amount of a line costs and is worth.
    fn count(&mut self, base: &Base, line: u16, amount: Amount) -> Result<(), Stop> {
        self.excess = self.excess.with(base.value(line)?, amount);
        self.cost = self.cost.with(base.cost(line)?, amount);
        Ok(())
    }

    /// Buys a line that isn't basic, at its end. What a fixed one pays is taken already.
    pub(crate) fn buy_at_end(
        &mut self,
        base: &Base,
        line: u16,
        amount: Amount,
    ) -> Result<(), Stop> {
        if amount.is_zero() {
            return Ok(());
        }
        let Some(exact) = base.ranges.exact(line)? else {
            self.pay(base, line, amount)?;
            return self.count(base, line, amount);
        };
        self.excess = self.excess.plus(exact.excess);
        if base.aim.costs() {
            self.cost = self.cost.plus(Total::of_cents(exact.cost));
        }
        Ok(())
    }

    /// Buys an amount of a basic line.
    pub(crate) fn buy_basic(&mut self, base: &Base, line: u16, amount: Amount) -> Result<(), Stop> {
        self.pay_shared(base, line, amount)?;
        self.count(base, line, amount)
    }

    /// What is needed in the run with the day of settlement, on the first dates: it is bought at the greatest price.
    pub(crate) fn head_rest(&self, base: &Base) -> Result<Total, Stop> {
        let mut head = Total::zero();
        for date in 0..self.rest.len() {
            if base.run_of(date)? != Segment::Head {
                return Ok(head);
            }
            head = head.plus(self.rest[date]);
        }
        Ok(head)
    }
}
