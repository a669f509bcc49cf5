//! Amounts of the lines and cash carried between dates.

use crate::base::Base;
use crate::sums::Sums;
use escrow_desk::NoMemory;
use sparse_basis::{Amount, Multiplier, Segment, Stop, Total, put, read};
use std::alloc::Global;

/// The amounts of the lines, the cash carried over each link, what the amounts are worth at the yield of the limit beyond their
/// cost, and the objective. All its memory is taken when it is made.
#[derive(Drop)]
pub(crate) struct Primal {
    amounts: Vec<Amount>,
    carried: Vec<Amount>,
    excess: Amount,
    objective: Total,
    sums: Sums,
    // What the basic lines have to pay in each run, and be worth.
    right: Vec<Amount>,
    // The amount of each column.
    columns: Vec<Amount>,
}

impl Primal {
    /// Room for the amounts of a program.
    ///
    /// # Errors
    ///
    /// Where memory ran out.
    pub(crate) fn make(alloc: Global, base: &Base) -> Result<Primal, NoMemory> {
        let dates = usize::from(base.dates());
        Ok(Primal {
            amounts: vec![in alloc; Amount::zero(); usize::from(base.lines())]?,
            carried: vec![in alloc; Amount::zero(); dates + 1]?,
            excess: Amount::zero(),
            objective: Total::zero(),
            sums: Sums::make(alloc, base.dates())?,
            right: vec![in alloc; Amount::zero(); dates + 2]?,
            columns: vec![in alloc; Amount::zero(); dates + 2]?,
        })
    }

    /// How much of a line is bought, at par. It stops where there is no such line.
    pub(crate) fn amount(&self, line: u16) -> Result<Amount, Stop> {
        read(self.amounts.as_slice(), usize::from(line))
    }

    /// The cash carried over a link: from a date to the next. It stops where there is no such link.
    pub(crate) fn carried(&self, link: usize) -> Result<Amount, Stop> {
        read(self.carried.as_slice(), link)
    }

    /// What the amounts are worth at the yield of the limit, less their cost: more than 0 where the limit is broken.
    pub(crate) fn excess(&self) -> Amount {
        self.excess
    }

    /// What the amounts cost, with the greatest price for cash that is lacking, and the greatest multiplier for an excess.
    pub(crate) fn objective(&self) -> Total {
        self.objective
    }

    /// The amounts of a basis, by its factor.
    pub(crate) fn refresh(&mut self, base: &Base) -> Result<(), Stop> {
        self.sums.start(base)?;
        self.buy_at_ends(base)?;
        self.set_right(base)?;
        base.factored
            .solve_amounts(self.right.as_mut_slice(), self.columns.as_mut_slice())?;
        self.buy_basic(base)?;
        self.excess = self.sums.excess.rounded();
        let head = self.sums.head_rest(base)?;
        self.set_objective(base, head);
        self.carry(base, head)
    }

    // Buys a line that isn't basic, at its end.
    fn buy_at_end(&mut self, base: &Base, line: u16) -> Result<(), Stop> {
        let amount = base.end_amount(line)?;
        put(self.amounts.as_mut_slice(), usize::from(line), amount)?;
        self.sums.buy_at_end(base, line, amount)
    }

    // Buys the lines that aren't basic.
    fn buy_at_ends(&mut self, base: &Base) -> Result<(), Stop> {
        for line in 0..base.lines() {
            if base.factored.is_basic(line)? {
                self.sums.give_back(base, line)?;
            } else {
                self.buy_at_end(base, line)?;
            }
        }
        Ok(())
    }

    // Buys the line of a column.
    fn buy_column(&mut self, base: &Base, line: u16, column: usize) -> Result<(), Stop> {
        let amount = read(self.columns.as_slice(), column)?;
        put(self.amounts.as_mut_slice(), usize::from(line), amount)?;
        self.sums.buy_basic(base, line, amount)
    }

    // Buys the basic lines.
    fn buy_basic(&mut self, base: &Base) -> Result<(), Stop> {
        for column in 0..base.factored.count() {
            let line = base.factored.line_of(column)?;
            self.buy_column(base, line, column)?;
        }
        Ok(())
    }

    // Puts what a run needs together, if it has a row.
    fn put_need(&mut self, base: &Base, date: usize, need: Total) -> Result<(), Stop> {
        if let Segment::Free(run) = base.run_of(date)? {
            put(self.right.as_mut_slice(), usize::from(run), need.rounded())?;
        }
        Ok(())
    }

    // What the basic lines have to pay in each run, and be worth where the multiplier is free.
    fn set_right(&mut self, base: &Base) -> Result<(), Stop> {
        let mut need = Total::zero();
        for date in 1..usize::from(base.dates()) + 1 {
            need = need.plus(self.sums.rest(date)?);
            if base.run_of(date)? != base.run_of(date + 1)? {
                self.put_need(base, date, need)?;
                need = Total::zero();
            }
        }
        if base.factored.is_free() {
            let row = base.factored.multiplier_row();
            put(self.right.as_mut_slice(), row, self.sums.excess.rounded())?;
        }
        Ok(())
    }

    // Sets the objective; the run with the day of settlement lacks so much.
    fn set_objective(&mut self, base: &Base, head: Total) {
        let mut objective = self.sums.cost;
        if head.is_positive() {
            objective = objective.plus(head.times(base.aim.greatest_price()));
        }
        if base.multiplier() == Multiplier::Top && self.sums.excess.is_positive() {
            let excess = self.sums.excess.times(base.aim.greatest_multiplier());
            objective = objective.plus(excess);
        }
        self.objective = objective;
    }

    // Sets the cash that is carried: along each run from nothing, but from what is bought in the first.
    fn carry(&mut self, base: &Base, head: Total) -> Result<(), Stop> {
        let mut cash = head;
        for link in 0..self.carried.len() {
            cash = cash.minus(self.sums.rest(link)?);
            if base.is_joined(link)? {
                self.carried[link] = cash.rounded();
            } else {
                self.carried[link] = Amount::zero();
                cash = Total::zero();
            }
        }
        Ok(())
    }
}
