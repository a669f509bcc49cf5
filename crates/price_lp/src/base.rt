//! The linear program of a book, and where a solve of it stands.
ghost use Rattle.std.specs.Prelude.{◌≤◌, IfOk, length};
ghost use Rattle.fixed_powers.specs.DiscountPowers.{IsLowTable, PowerTable};

use crate::aim::Aim;
use crate::duals::Duals;
use crate::line_ranges::{Holding, LineRanges, Range};
use crate::program::Program;
use escrow_desk::NoMemory;
use fixed_powers::Powers;
use offer_book::Book;
use proof_tree::Interval;
use sparse_basis::{
    Amount, Entry, FactoredBasis, LineState, MOST_ENTRIES, Multiplier, PRICE_PLACES, Price,
    Segment, Stop, read,
};
use std::alloc::Global;

/// The program, what a solve of it is for, the ranges of the lines, and the basis with its factor.
#[derive(Drop)]
pub(crate) struct Base<'a> {
    book: &'a Book,
    /// What the solve is for.
    pub aim: Aim,
    /// The ranges of the lines.
    pub ranges: LineRanges<'a>,
    /// The columns, the basis and the factor.
    pub factored: FactoredBasis,
    costs: Vec<Price>,
}

// The reduced cost up to which a line may stand at either end, where the multiplier is below one, in units of 2^-40.
const DUAL_TOLERANCE: i128 = 16;

// The dual tolerance: the reduced cost up to which a line may stand at either end. The greater the multiplier, the less exact are
// prices.
fn dual_tolerance(multiplier: Price) -> Price {
    Price::clamp(DUAL_TOLERANCE + 4 * (multiplier.wide().max(0) >> PRICE_PLACES))
}

// Where a line stands by its reduced cost.
fn standing(state: LineState, reduced_cost: Price, tolerance: Price, range: Range) -> LineState {
    if state == LineState::Basic {
        LineState::Basic
    } else if reduced_cost.get() < -tolerance.get() {
        LineState::High
    } else if tolerance.get() < reduced_cost.get() || range.is_single() {
        LineState::Low
    } else {
        state
    }
}

impl<'a> Base<'a> {
    /// The first base of a book, at the yield of powers.
    ///
    /// # Errors
    ///
    /// Where memory ran out.
    pub(crate) fn make(
        alloc: Global,
        book: &'a Book,
        powers: &Powers,
        aim: Aim,
    ) -> Result<Base<'a>, NoMemory>
        requires { IsLowTable powers.now }
    {
        let program = Program::make(alloc, book, powers)?;
        Ok(Base {
            book,
            aim,
            ranges: LineRanges::make(alloc, book, &program.matrix)?,
            factored: FactoredBasis::make(alloc, program.matrix)?,
            costs: program.costs,
        })
    }

    /// How many need dates there are, counted from 1.
    pub(crate) fn dates(&self) -> u16 {
        self.factored.matrix.dates()
    }

    /// How many lines there are, counted from 0.
    pub(crate) fn lines(&self) -> u16 {
        self.factored.matrix.lines()
    }

    /// What is needed on a date, counted from 1, in cents; nothing on the day of settlement. It stops where there is no such date.
    pub(crate) fn need(&self, date: usize) -> Result<u64, Stop> {
        if date == 0 {
            return Ok(0);
        }
        match self.book.needs().get(date - 1) {
            Some(need) => Ok(need.cents.0),
            None => Err(Stop::WrongPlace),
        }
    }

    /// What a cent of a line pays on each date, counted from 1: an entry a date, in order. It stops where there is no such line.
    pub(crate) fn pays(&self, line: u16) -> Result<&[Entry], Stop>
        ensures few { IfOk result (λ entries. length entries.now ≤ MOST_ENTRIES) }
    {
        self.factored.matrix.pays(line)
    }

    /// What a cent of a line is worth at the yield of the limit, less what it costs; 0 for opening cash.
    pub(crate) fn value(&self, line: u16) -> Result<Price, Stop> {
        self.factored.matrix.value(line)
    }

    /// What a cent of a line costs, perturbed, where the cost counts.
    pub(crate) fn cost(&self, line: u16) -> Result<Price, Stop> {
        if self.aim.costs() {
            read(self.costs.as_slice(), usize::from(line))
        } else {
            Ok(Price::zero())
        }
    }

    /// The run of a date, from the day of settlement, 0, to the date after the last.
    pub(crate) fn run_of(&self, date: usize) -> Result<Segment, Stop> {
        self.factored.segments.of(date)
    }

    /// Where the multiplier stands.
    pub(crate) fn multiplier(&self) -> Multiplier {
        self.factored.basis.multiplier()
    }

    /// Whether a link is joined.
    pub(crate) fn is_joined(&self, link: usize) -> Result<bool, Stop> {
        self.factored.basis.is_joined(link)
    }

    /// Whether a line isn't basic, and can be bought in more than one amount.
    pub(crate) fn may_enter(&self, line: u16) -> Result<bool, Stop> {
        Ok(!self.factored.is_basic(line)? && !self.ranges.is_single(line)?)
    }

    /// The amount at the end where a line stands that isn't in the basis.
    pub(crate) fn end_amount(&self, line: u16) -> Result<Amount, Stop> {
        let range = self.ranges.range(line)?;
        if self.factored.basis.line(line)? == LineState::High {
            Ok(range.high)
        } else {
            Ok(range.low)
        }
    }

    /// The range of a line, in units. It isn't fixed any longer.
    pub(crate) fn set_range(&mut self, line: u16, interval: Interval) -> Result<(), Stop> {
        let pays = self.factored.matrix.pays(line)?;
        self.ranges.set(line, interval, pays)
    }

    /// Fixes a line at a number of units.
    pub(crate) fn fix(&mut self, line: u16, holding: &Holding) -> Result<(), Stop> {
        let pays = self.factored.matrix.pays(line)?;
        self.ranges.fix(line, holding, pays)
    }

    // Puts a line that isn't in the basis at the end that its reduced cost asks for; where that is within the tolerance, it stays.
    fn stand(&mut self, line: u16, reduced_cost: Price, tolerance: Price) -> Result<(), Stop> {
        let range = self.ranges.range(line)?;
        let basis = &mut self.factored.basis;
        let state = standing(basis.line(line)?, reduced_cost, tolerance, range);
        basis.put_line(line, state)
    }

    /// Puts each line that isn't in the basis at the end that its reduced cost asks for.
    pub(crate) fn put_lines(&mut self, duals: &Duals) -> Result<(), Stop> {
        let tolerance = dual_tolerance(duals.multiplier());
        for line in 0..self.lines() {
            self.stand(line, duals.reduced_cost(line)?, tolerance)?;
        }
        Ok(())
    }
}
