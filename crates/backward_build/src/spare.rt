//! What is left after each need date, and what a line has to pay for that.
//!
//! Amounts are kept in a list with a place for each need date.

ghost use Rattle.std.specs.Prelude.{◌≡◌, ℕ, ◌+◌, ◌-◌, ◌^◌, ◌<◌, ◌≤◌, ◌↔◌, IsTrue, length, slice_index, slice_index_or, take};
ghost use Rattle.escrow_units.specs.Flows.{total};
ghost use Rattle.escrow_units.specs.declared.security.Flow.{Flow};
ghost use Rattle.offer_book.specs.Portfolio.{IsPermitted, Meets, line_payments, payments};
ghost use Rattle.offer_book.specs.declared.line.Line.{Line};
ghost use Rattle.backward_build.specs.Spare.{ArePaid, AreSpare, Cover};

use cash_table::{Plan, add_receipts, covers, receipts, run_up};
use escrow_units::{Flow, MOST_NEED_DATES};
use offer_book::Book;

// Takes off what is needed up to each need date.
fn take_needs(amounts: &mut [u64], needs: &[Flow])
    requires places { length needs.now ≤ length amounts.old }
    requires small { total needs.now < 2 ^ 64 }
    requires met { (k : ℕ) → k < length needs.now → total (take (k + 1) needs.now) ≤ slice_index amounts.old k }
    ensures { (k : ℕ) → k < length needs.now → total (take (k + 1) needs.now) + slice_index amounts.new k ≡ slice_index amounts.old k }
{
    let mut needed = 0;
    for place in 0..needs.len() {
        needed += needs[place].cents.0;
        amounts[place] -= needed;
    }
}

/// What is left after each need date of a permitted plan that meets the needs, in cents. It isn't inlined, nor are [`put_paid`] and
/// [`suffices`]: each has a table on the stack.
#[inline(never)]
pub(crate) fn spare_of(book: &Book, plan: &Plan) -> [u64; MOST_NEED_DATES]
    requires permitted { IsPermitted book.now plan.now }
    requires meets { Meets book.now plan.now }
    ensures { AreSpare book.now.needs (payments book.now plan.now) result }
{
    let mut spare = receipts(book, plan);
    run_up(&mut spare, usize::from(book.need_count()));
    take_needs(&mut spare, book.needs());
    spare
}

/// Puts in the place of each need date what units of a line pay up to and on it, in cents.
#[inline(never)]
pub(crate) fn put_paid(book: &Book, line: u16, units: u64, paid: &mut [u64; MOST_NEED_DATES])
    requires line { line < length book.now.lines }
    requires units { (d : Line) → units ≤ (slice_index_or book.now.lines line d).most }
    ensures { (d : Line) → ArePaid book.now.needs (line_payments book.now.days (slice_index_or book.now.lines line d) units) paid.new }
{
    *paid = [0; MOST_NEED_DATES];
    add_receipts(
        paid,
        book.needs(),
        book.line_payments(line, units).as_slice(),
    );
    run_up(paid, usize::from(book.need_count()));
}

/// Takes what a line pays up to each need date down to what it has to pay by then, so that nothing is short: all but what is
/// spare.
pub(crate) fn take_spare(paid: &mut [u64], spare: &[u64])
    requires { length spare.now ≡ length paid.old }
    ensures { (k : ℕ) → k < length paid.old → slice_index paid.new k ≡ slice_index paid.old k - slice_index spare.now k }
{
    for place in 0..paid.len() {
        paid[place] = paid[place].saturating_sub(spare[place]);
    }
}

/// Whether units of a line pay what is due by each need date.
#[inline(never)]
pub(crate) fn suffices(book: &Book, line: u16, units: u64, due: &[u64]) -> bool
    requires line { line < length book.now.lines }
    requires units { (d : Line) → units ≤ (slice_index_or book.now.lines line d).most }
    requires places { length book.now.needs ≤ length due.now }
    ensures { (d : Line) → IsTrue result ↔ Cover book.now.needs due.now (line_payments book.now.days (slice_index_or book.now.lines line d) units) }
{
    let mut paid = [0; MOST_NEED_DATES];
    put_paid(book, line, units, &mut paid);
    covers(&paid, due, usize::from(book.need_count()))
}

/// Takes what a line pays less by each need date off what is left.
pub(crate) fn pay_less(spare: &mut [u64], before: &[u64], after: &[u64], dates: usize)
    requires spare { dates ≤ length spare.old }
    requires before { dates ≤ length before.now }
    requires after { dates ≤ length after.now }
    requires less { (k : ℕ) → k < dates → slice_index after.now k ≤ slice_index before.now k }
    requires enough { (k : ℕ) → k < dates → slice_index before.now k ≤ slice_index spare.old k + slice_index after.now k }
    ensures { (k : ℕ) → k < dates → slice_index spare.new k + slice_index before.now k ≡ slice_index spare.old k + slice_index after.now k }
{
    for place in 0..dates {
        spare[place] -= before[place] - after[place];
    }
}
