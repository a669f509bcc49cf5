//! The lines that pay for each need date.
ghost use Rattle.std.specs.Prelude.{All, ◌≡◌, ◌<◌, ◌≤◌, ◌+◌, ℕ, ℤ, false, true, IfOk, OnOk, length, slice_index, slice_index_or};
ghost use Rattle.std.specs.List.{Contains};
ghost use Rattle.offer_book.specs.Book.{IsBook, IsNeeds};
ghost use Rattle.dual_tune.specs.Payers.{ArePayers, ArePayersByDate, IsRisingTo, Serves};
ghost use Rattle.dual_tune.specs.declared.payers.Payers.{Payers as PayersOf};

use cash_table::place_of;
use escrow_desk::NoMemory;
use escrow_units::{Day, Flow};
use offer_book::Book;
use std::alloc::Global;

/// The lines that pay for a need date.
#[derive(Drop)]
pub(crate) struct Payers {
    /// The lines, counted from 0, in rising order.
    pub lines: Vec<u16>,
}

// Whether a line is the last of some.
fn is_last(lines: &[u16], line: u16) -> bool
    ensures yes { result ≡ true → Contains lines.now line }
    ensures no { result ≡ false → (k : ℕ) → length lines.now ≡ k + 1 → ¬ (slice_index lines.now k ≡ line) }
{
    match lines.last() {
        Some(last) => *last == line,
        None => false,
    }
}

impl Payers {
    // Puts a line behind the others, where it isn't the last one already.
    fn add(&mut self, line: u16) -> Result<(), NoMemory>
        requires { IsRisingTo line self.old.lines.items }
        ensures rising { OnOk result (IsRisingTo line self.new.lines.items) }
        ensures there { OnOk result (Contains self.new.lines.items line) }
        ensures kept { OnOk result ((other : ℕ) → Contains self.old.lines.items other → Contains self.new.lines.items other) }
    {
        if is_last(self.lines.as_slice(), line) {
            return Ok(());
        }
        self.lines.push(line)?;
        Ok(())
    }
}

// The place of the need that a payment of a day serves; how many there are where it serves none.
fn served(needs: &[Flow], day: Day) -> usize
    requires { (settle : ℤ) × IsNeeds settle needs.now }
    ensures { Serves needs.now day result }
{
    place_of(needs, day)
}

// Nobody pays, for each of so many need dates.
fn no_payers(alloc: Global, dates: u16) -> Result<Vec<Payers>, NoMemory>
    ensures count { IfOk result (λ by_date. length by_date.items ≡ dates) }
    ensures empty { IfOk result (λ by_date. All (λ (payers : PayersOf). length payers.lines.items ≡ 0) by_date.items) }
{
    let mut by_date = Vec::new(alloc);
    for _ in 0..dates {
        by_date.push(Payers {
            lines: Vec::new(alloc),
        })?;
    }
    Ok(by_date)
}

// Puts a line to the payers of a need date, where there is one.
fn add_payer(by_date: &mut [Payers], place: usize, line: u16) -> Result<(), NoMemory>
    requires { All (λ (payers : PayersOf). IsRisingTo line payers.lines.items) by_date.old }
    ensures rising { OnOk result (All (λ (payers : PayersOf). IsRisingTo line payers.lines.items) by_date.new) }
    ensures there { OnOk result ((e : PayersOf) → place < length by_date.old → Contains (slice_index_or by_date.new place e).lines.items line) }
    ensures kept { OnOk result ((date : ℕ) (e : PayersOf) (other : ℕ) → date < length by_date.old
        → Contains (slice_index_or by_date.old date e).lines.items other → Contains (slice_index_or by_date.new date e).lines.items other) }
{
    if place >= by_date.len() {
        return Ok(());
    }
    by_date[place].add(line)
}

// Puts a line to the payers of each need date for which it pays.
fn add_line(book: &Book, line: u16, by_date: &mut [Payers]) -> Result<(), NoMemory>
    requires line { line < length book.now.lines }
    requires before { ArePayersByDate book.now line by_date.old }
    ensures after { OnOk result (ArePayersByDate book.now (line + 1) by_date.new) }
{
    let needs = book.needs();
    for payment in book.line(line).schedule(book.payment_days()).as_slice() {
        add_payer(by_date, served(needs, payment.day), line)?;
    }
    Ok(())
}

/// The lines that pay for each need date.
///
/// # Errors
///
/// Where memory ran out.
pub(crate) fn payers_by_date(alloc: Global, book: &Book) -> Result<Vec<Payers>, NoMemory>
    ensures { IfOk result (λ by_date. ArePayersByDate book.now (length book.now.lines) by_date.items) }
{
    let mut by_date = no_payers(alloc, book.need_count())?;
    for line in 0..book.line_count() {
        add_line(book, line, by_date.as_mut_slice())?;
    }
    Ok(by_date)
}
