//! Bases to start from.
ghost use Rattle.std.specs.Prelude.{◌≤◌};

use crate::base::Base;
use crate::duals::Duals;
use proof_tree::{Leaf, PRICE_SCALE};
use sparse_basis::{LineState, Multiplier, PRICE_PLACES, Price, Stop, last_date, product};

// The least that a line pays on its last date, for each cent, to make the price of that date: a half.
const LEAST_PAYMENT: i64 = 1 << 39;

// The reduced cost below which a line is taken into the basis of a leaf, in units of 2^-40.
const BASIC_TOLERANCE: i64 = 1 << 10;

// How far the greedy prices are made.
#[derive(Clone, Copy)]
struct Progress {
    // How many lines are passed, in order of their last date.
    passed: usize,
    // The price of the last date, or of the line that is named.
    price: Price,
    // The line that makes the price, where there is one.
    line: Option<u16>,
}

// A price of a leaf as a number of the program.
fn from_leaf(price: u64) -> Price {
    Price::clamp((i128::from(price) << PRICE_PLACES) / i128::from(PRICE_SCALE))
}

// Where a line stands by its reduced cost; one near 0 is taken into the basis, where it can be bought in more than one amount.
fn state_by(reduced_cost: Price, single: bool) -> LineState {
    let cost = reduced_cost.get();
    if !single && -BASIC_TOLERANCE < cost && cost < BASIC_TOLERANCE {
        LineState::Basic
    } else if cost < 0 {
        LineState::High
    } else {
        LineState::Low
    }
}

impl<'a> Base<'a> {
    // The price of a line's last date at which it has a reduced cost of 0, from the prices of the dates before; None where it pays
    // too little on that date.
    fn own_price(&self, duals: &Duals, line: u16) -> Result<Option<Price>, Stop> {
        let [before @ .., last] = self.pays(line)? else {
            return Ok(None);
        };
        if self.ranges.is_single(line)? || last.value.get() < LEAST_PAYMENT {
            return Ok(None);
        }
        let left = self.cost(line)?.widened() - product(before, duals.prices())?;
        match Price::quotient(left, last.value) {
            Some(price) if 0 <= price.get() => Ok(Some(price)),
            _ => Ok(None),
        }
    }

    // With a line that matures on the date: it makes the price where its own is lower.
    fn with_line(&self, duals: &Duals, line: u16, before: Progress) -> Result<Progress, Stop> {
        let passed = before.passed.saturating_add(1);
        match self.own_price(duals, line)? {
            Some(price) if price.get() < before.price.get() => Ok(Progress {
                passed,
                price,
                line: Some(line),
            }),
            _ => Ok(Progress {
                passed,
                price: before.price,
                line: before.line,
            }),
        }
    }

    // The price of a date, from those before it.
    fn next_price(&self, duals: &Duals, date: usize, before: Progress) -> Result<Progress, Stop> {
        let mut progress = Progress {
            passed: before.passed,
            price: before.price,
            line: None,
        };
        let order = self.factored.matrix.order();
        for place in before.passed..order.len() {
            let line = order[place];
            if date < last_date(self.pays(line)?) {
                return Ok(progress);
            }
            progress = self.with_line(duals, line, progress)?;
        }
        Ok(progress)
    }

    // Puts the line that makes the price of a date into the basis, and opens the link before the date.
    fn take_in(&mut self, date: usize, line: Option<u16>) -> Result<(), Stop>
        requires { 1 ≤ date }
    {
        if let Some(line) = line {
            self.factored.basis.put_line(line, LineState::Basic)?;
            self.factored.basis.put_link(date - 1, false)?;
        }
        Ok(())
    }

    /// Starts from the highest prices that never rise under which no line that matures so far has a negative reduced cost.
    pub(crate) fn start_greedily(&mut self, duals: &mut Duals) -> Result<(), Stop> {
        self.factored.basis.reset(Multiplier::Zero);
        duals.put_multiplier(Price::zero());
        duals.put_price(0, self.aim.price)?;
        let mut progress = Progress {
            passed: 0,
            price: self.aim.price,
            line: None,
        };
        let dates = usize::from(self.dates());
        for date in 1..dates + 1 {
            progress = self.next_price(duals, date, progress)?;
            self.take_in(date, progress.line)?;
            duals.put_price(date, progress.price)?;
        }
        self.factored.basis.put_link(dates, false)?;
        duals.put_price(dates + 1, Price::zero())
    }

    // Takes over the prices and the multiplier of a leaf. It stops where that has more or fewer prices than there are need dates.
    fn take_prices(&self, duals: &mut Duals, leaf: &Leaf) -> Result<(), Stop> {
        if leaf.prices.as_slice().len() != usize::from(self.dates()) {
            return Err(Stop::WrongPlace);
        }
        duals.put_multiplier(from_leaf(leaf.mu));
        duals.put_price(0, self.aim.price)?;
        let mut date: usize = 1;
        for price in leaf.prices.as_slice() {
            duals.put_price(date, from_leaf(*price))?;
            date = date.saturating_add(1);
        }
        duals.put_price(usize::from(self.dates()) + 1, Price::zero())
    }

    // Where the multiplier of a leaf stands.
    fn multiplier_at(&self, multiplier: Price) -> Multiplier {
        if multiplier.get() <= 0 {
            Multiplier::Zero
        } else if self.aim.multiplier.get() <= multiplier.get() {
            Multiplier::Top
        } else {
            Multiplier::Free
        }
    }

    // The end of the multiplier that is nearer.
    fn nearer_end(&self, multiplier: Price) -> Multiplier {
        if multiplier.get() < self.aim.multiplier.get() / 2 {
            Multiplier::Zero
        } else {
            Multiplier::Top
        }
    }

    // Joins the dates of equal prices, and opens the links between others.
    fn join_equal(&mut self, duals: &Duals) -> Result<(), Stop> {
        for link in 0..usize::from(self.dates()) + 1 {
            let joined = duals.price(link)?.get() == duals.price(link + 1)?.get();
            self.factored.basis.put_link(link, joined)?;
        }
        Ok(())
    }

    // Puts each line where it stands by its reduced cost.
    fn place_lines(&mut self, duals: &Duals) -> Result<(), Stop> {
        for line in 0..self.lines() {
            let state = state_by(duals.reduced_cost(line)?, self.ranges.is_single(line)?);
            self.factored.basis.put_line(line, state)?;
        }
        Ok(())
    }

    /// Starts from a leaf's prices: dates of equal prices are joined, and lines with a reduced cost near 0 are basic. It stops where
    /// no basis comes of it.
    pub(crate) fn start_at(&mut self, duals: &mut Duals, leaf: &Leaf) -> Result<(), Stop> {
        self.take_prices(duals, leaf)?;
        let multiplier = duals.multiplier();
        let state = self.multiplier_at(multiplier);
        self.factored.basis.reset(state);
        self.join_equal(duals)?;
        duals.reduce(self)?;
        self.place_lines(duals)?;
        let nearer = self.nearer_end(multiplier);
        self.factored.repair(nearer)
    }
}
