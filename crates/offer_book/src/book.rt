//! Books.

ghost use Rattle.std.specs.Prelude.{◌≡◌, ◌*◌, ◌^◌, ◌<◌, ◌≤◌, length, slice_index_or, ℕ};
ghost use Rattle.escrow_units.specs.Flows.{total, FallWithinFortyYears};
ghost use Rattle.offer_book.specs.Book.{IsBook};
ghost use Rattle.offer_book.specs.Coefficients.{EnclosesUnits, cost_coefficients, pay_coefficients};
ghost use Rattle.offer_book.specs.Portfolio.{line_cost as line_cost_of, line_payments as line_payments_of};
ghost use Rattle.offer_book.specs.declared.line.Line.{Line};

use crate::coefficients::Coefficients;
use crate::line::Line;
use crate::payment_days::PaymentDays;
use arrayvec::ArrayVec;
use escrow_units::{Cents, ClosedDays, Day, Flow};
use std::marker::Model;

/// The settlement day and the closed days, the needs and the lines of one case.
///
/// Line 0 is opening cash, and the lines from 1 are securities. Contracts see a book as the record of its payment days, its
/// needs and its lines, which keeps every limit.
#[derive(Drop)]
pub struct Book {
    days: PaymentDays,
    needs: Vec<Flow>,
    lines: Vec<Line>,
}

impl Model for Book {
    ghost use Rattle.offer_book.specs.Book.{BookContents, IsBook};

    ghost Value = { BookContents };

    ghost view = { λ b. record { days = b.days; needs = b.needs.items; lines = b.lines.items } };

    ghost invariant = { λ b. IsBook (record { days = b.days; needs = b.needs.items; lines = b.lines.items }) };
}

impl Book {
    /// A book of these needs, in order of day, and lines, opening cash first, in a case with these closed days. It takes no
    /// memory.
    pub fn make(settle: Day, needs: Vec<Flow>, lines: Vec<Line>, closed: ClosedDays) -> Book
        requires limits { IsBook (record { days = record { settle = settle; closed = closed }; needs = needs.items; lines = lines.items }) }
        ensures { result ≡ record { days = record { settle = settle; closed = closed }; needs = needs.items; lines = lines.items } }
    {
        Book {
            days: PaymentDays { settle, closed },
            needs,
            lines,
        }
    }

    /// The settlement day.
    pub fn settle(&self) -> Day
        ensures { result ≡ self.now.days.settle }
    {
        self.days.settle
    }

    /// The days on which no receipt comes.
    pub fn closed(&self) -> &ClosedDays
        ensures { result.now ≡ self.now.days.closed }
    {
        &self.days.closed
    }

    /// The settlement day and the closed days.
    pub fn payment_days(&self) -> &PaymentDays
        ensures { result.now ≡ self.now.days }
    {
        &self.days
    }

    /// How many need dates there are: at most 480.
    pub fn need_count(&self) -> u16
        ensures value { result ≡ length self.now.needs }
        ensures limits { IsBook self.now }
    {
        self.needs.len() as u16
    }

    /// The need at a place, counted from 0.
    pub fn need(&self, place: u16) -> Flow
        requires { place < length self.now.needs }
        ensures { result ≡ slice_index_or self.now.needs place result }
    {
        self.needs[place as usize]
    }

    /// How many lines there are, line 0 included: from 1 to 513.
    pub fn line_count(&self) -> u16
        ensures value { result ≡ length self.now.lines }
        ensures limits { IsBook self.now }
    {
        self.lines.len() as u16
    }

    /// A line, counted from 0.
    pub fn line(&self, line: u16) -> &Line
        requires { line < length self.now.lines }
        ensures { result.now ≡ slice_index_or self.now.lines line result.now }
    {
        &self.lines[line as usize]
    }

    /// The needs, in order of day.
    pub fn needs(&self) -> &[Flow]
        ensures value { result.now ≡ self.now.needs }
        ensures limits { IsBook self.now }
    {
        &self.needs
    }

    /// The lines, opening cash first.
    pub fn lines(&self) -> &[Line]
        ensures value { result.now ≡ self.now.lines }
        ensures limits { IsBook self.now }
    {
        &self.lines
    }

    /// What units of a line cost, in cents. The line is counted from 0, and the units are at most its `most`.
    pub fn line_cost(&self, line: u16, units: u64) -> Cents
        requires line { line < length self.now.lines }
        requires units { (d : Line) → units ≤ (slice_index_or self.now.lines line d).most }
        ensures { (d : Line) → result.0 ≡ line_cost_of (slice_index_or self.now.lines line d) units }
    {
        self.lines[line as usize].cost(units)
    }

    /// What units of a line pay, in order of date, on open days. The line is counted from 0, and the units are at most its `most`.
    ///
    /// 0 units pay 0 cents on each date. It takes no memory.
    pub fn line_payments(&self, line: u16, units: u64) -> ArrayVec<Flow, 84>
        requires line { line < length self.now.lines }
        requires units { (d : Line) → units ≤ (slice_index_or self.now.lines line d).most }
        ensures value { (d : Line) → result.items ≡ line_payments_of self.now.days (slice_index_or self.now.lines line d) units }
        ensures within { FallWithinFortyYears self.now.days.settle result.items }
        ensures bound { total result.items ≤ 2 * 10 ^ 13 }
    {
        self.lines[line as usize].payments(&self.days, units)
    }

    /// What one unit of a line costs and pays, scaled and rounded outward, as [`Line::coefficients`] says. The line is counted
    /// from 0. It takes no memory.
    pub fn coefficients(&self, line: u16) -> Coefficients
        requires { line < length self.now.lines }
        ensures costs { (d : Line) → cost_coefficients (slice_index_or self.now.lines line d) ≡ record { low = result.cost_low; high = result.cost_high; slack = result.cost_slack } }
        ensures pays { (d : Line) → result.pays.items ≡ pay_coefficients self.now.days (slice_index_or self.now.lines line d) }
        ensures enclosing { (d : Line) (units : ℕ) → EnclosesUnits self.now.days (slice_index_or self.now.lines line d) units }
    {
        self.lines[line as usize].coefficients(&self.days)
    }
}
