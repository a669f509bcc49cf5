//! The payments of a book's lines by their terms, made once.

ghost use Rattle.std.specs.Prelude.{◌≡◌, ◌<◌, [], length, slice_index_or, IfOk};
ghost use Rattle.escrow_units.specs.SlgsTerms.{IsSettlement};
ghost use Rattle.offer_book.specs.Book.{IsBook, IsLine};
ghost use Rattle.cash_table.specs.Schedules.{kept_of, schedules_of};

use escrow_desk::NoMemory;
use offer_book::{Book, Line, PaymentDays};
use payment_schedule::ScheduledPayment;
use std::alloc::Global;
use std::marker::Model;

/// The payments of a book's lines by their terms, made once, so that no calendar is read again for them. None are kept of a line
/// that bears no interest: its principal alone pays. Contracts see a list for each line.
#[derive(Drop)]
pub struct Schedules {
    lines: Vec<Vec<ScheduledPayment>>,
}

impl Model for Schedules {
    ghost use Rattle.std.specs.Prelude.{List, map};
    ghost use Rattle.payment_schedule.specs.declared.schedule.ScheduledPayment.{ScheduledPayment as Payment};

    ghost Value = { List (List Payment) };

    ghost view = { λ schedules. map (λ line. line.items) schedules.lines.items };
}

// The payments that are kept of a line.
fn kept(alloc: Global, days: &PaymentDays, line: &Line) -> Result<Vec<ScheduledPayment>, NoMemory>
    requires settlement { IsSettlement days.now.settle }
    requires line { IsLine days.now line.now }
    ensures { IfOk result (λ payments. payments.items ≡ kept_of days.now line.now) }
{
    if line.rate().0 == 0 {
        return Ok(Vec::new(alloc));
    }
    Ok(Vec::from_slice(alloc, line.schedule(days).as_slice())?)
}

impl Schedules {
    /// The schedules of the lines of a book.
    ///
    /// # Errors
    ///
    /// Where memory ran out.
    pub fn make(alloc: Global, book: &Book) -> Result<Schedules, NoMemory>
        ensures { IfOk result (λ schedules. schedules ≡ schedules_of book.now) }
    {
        let mut lines = Vec::with_capacity(alloc, book.lines().len())?;
        for line in book.lines() {
            lines.push(kept(alloc, book.payment_days(), line)?)?;
        }
        Ok(Schedules { lines })
    }

    /// The payments that are kept of a line, counted from 0.
    pub fn line(&self, line: usize) -> &[ScheduledPayment]
        requires { line < length self.now }
        ensures { result.now ≡ slice_index_or self.now line [] }
    {
        self.lines[line].as_slice()
    }
}
