//! Portfolios, and the first line that isn't permitted.

ghost use Rattle.std.specs.Prelude.{◌≡◌, ◌<◌, ◌↔◌, length, replicate, slice_index, slice_set, IfOk, IsNone};
ghost use Rattle.offer_book.specs.Portfolio.{IsPermitted};
ghost use Rattle.cash_table.specs.First.{first_unpermitted_of};

use escrow_desk::NoMemory;
use offer_book::Book;
use std::alloc::Global;
use std::marker::Model;

/// A portfolio: a number of units for each line of a book. Contracts see it as the list of these numbers.
#[derive(Drop)]
pub struct Plan {
    units: Vec<u64>,
}

impl Model for Plan {
    ghost use Rattle.std.specs.Prelude.{ℕ, List};

    ghost Value = { List ℕ };

    ghost view = { λ p. p.units.items };
}

impl Plan {
    /// The portfolio with 0 units of each line of a book.
    pub fn zero(alloc: Global, book: &Book) -> Result<Plan, NoMemory>
        ensures { IfOk result (λ plan. plan ≡ replicate (length book.now.lines) 0) }
    {
        match vec![in alloc; 0u64; book.line_count() as usize] {
            Ok(units) => Ok(Plan { units }),
            Err(_) => Err(NoMemory),
        }
    }

    /// The same portfolio once more.
    pub fn copy(&self, alloc: Global) -> Result<Plan, NoMemory>
        ensures { IfOk result (λ plan. plan ≡ self.now) }
    {
        match self.units.to_vec(alloc) {
            Ok(units) => Ok(Plan { units }),
            Err(_) => Err(NoMemory),
        }
    }

    /// The number of units of a line.
    pub fn get(&self, line: u16) -> u64
        requires { line < length self.now }
        ensures { result ≡ slice_index self.now line }
    {
        self.units[usize::from(line)]
    }

    /// Sets the number of units of a line, and changes no other.
    pub fn put(&mut self, line: u16, units: u64)
        requires { line < length self.old }
        ensures { self.new ≡ slice_set self.old line units }
    {
        let place = usize::from(line);
        self.units[place] = units;
    }

    // The numbers of units.
    pub(crate) fn units(&self) -> &[u64]
        ensures { result.now ≡ self.now }
    {
        &self.units
    }
}

/// The first line whose number of units isn't permitted, counted from 0; None exactly where the portfolio is
/// permitted.
pub fn first_unpermitted(book: &Book, plan: &Plan) -> Option<u16>
    requires { length plan.now ≡ length book.now.lines }
    ensures value { result ≡ first_unpermitted_of book.now plan.now }
    ensures none { IsNone result ↔ IsPermitted book.now plan.now }
{
    for line in 0..book.line_count() {
        if !book.line(line).permits(plan.get(line)) {
            return Some(line);
        }
    }
    None
}
