//! The cash of an escrow, day by day.

ghost use Rattle.std.specs.Prelude.{◌≡◌, ◌+◌, ◌≤◌, ◌<◌, ◌^◌, ℤ, pos, ◌+ℤ◌, ◌≤ℤ◌, IfOk};
ghost use Rattle.escrow_units.specs.Calendar.{years_after_of};
ghost use Rattle.escrow_units.specs.Flows.{total, FallWithin};
ghost use Rattle.escrow_units.specs.SlgsTerms.{IsSettlement};
ghost use Rattle.day_sums.specs.Summed.{total_by};
ghost use Rattle.offer_book.specs.Portfolio.{IsPermitted, Meets};
ghost use Rattle.cash_table.specs.Receipts.{total_before};
ghost use Rattle.cash_table.specs.Balances.{AreBalances, balances_of, entries_of, entry_on, is_listed as is_listed_at};

use crate::plan::Plan;
use crate::security_flows::add_bought;
use day_sums::DaySums;
use escrow_desk::NoMemory;
use escrow_units::{Cents, Day, days_between, years_after};
use offer_book::Book;
use std::alloc::Global;

/// The cash of a day: an entry of the balances of an escrow.
#[derive(Clone, Copy, Debug, PartialEq, Eq)]
pub struct Balance {
    /// The day.
    pub day: Day,
    /// What is received on the day, in cents; on the settlement day opening cash is among it.
    pub receipts: Cents,
    /// What is needed on the day, in cents.
    pub needs: Cents,
    /// All receipts less all needs, up to and on the day, in cents.
    pub balance: Cents,
}

/// The balances of a permitted portfolio that meets the needs: an entry for the settlement day, each need date and each day
/// on which securities pay, each once, in order of day.
///
/// # Errors
///
/// Where memory ran out.
pub fn balances(alloc: Global, book: &Book, plan: &Plan) -> Result<Vec<Balance>, NoMemory>
    requires permitted { IsPermitted book.now plan.now }
    requires meets { Meets book.now plan.now }
    ensures value { IfOk result (λ entries. entries.items ≡ balances_of book.now plan.now) }
    ensures meaning { IfOk result (λ entries. AreBalances book.now plan.now entries.items) }
{
    let lines = book.lines();
    let settle = book.settle();
    let last = years_after(settle, 40);
    let mut receipts = DaySums::between(alloc, settle, last)?;
    add_bought(&mut receipts, book.payment_days(), lines, plan.units());
    let mut needs = DaySums::between(alloc, settle, last)?;
    needs.add(book.needs());
    entries(alloc, settle, &receipts, &needs)
}

// The entries of receipts and needs that fall within 40 years of settlement.
fn entries(
    alloc: Global,
    settle: Day,
    receipts: &DaySums,
    needs: &DaySums,
) -> Result<Vec<Balance>, NoMemory>
    requires settlement { IsSettlement settle }
    requires receipts_from { receipts.now.from ≡ settle }
    requires receipts_to { receipts.now.to ≡ years_after_of settle 40 }
    requires needs_from { needs.now.from ≡ settle }
    requires needs_to { needs.now.to ≡ years_after_of settle 40 }
    requires receipts_within { FallWithin settle (years_after_of settle 40) receipts.now.sums }
    requires needs_within { FallWithin settle (years_after_of settle 40) needs.now.sums }
    requires meets { (t : ℤ) → total_by t needs.now.sums ≤ total_by t receipts.now.sums }
    requires room { total receipts.now.sums < 2 ^ 64 }
    ensures { IfOk result (λ entries. entries.items ≡ entries_of settle receipts.now.sums needs.now.sums) }
{
    let mut entries = Vec::new(alloc);
    let mut balance = 0;
    for place in 0..days_between(settle, years_after(settle, 40)) + 1 {
        let day = day_after(settle, place);
        let entry = entry_of(day, balance, receipts, needs);
        balance = entry.balance.0;
        if is_listed(settle, &entry) {
            entries.push(entry)?;
        }
    }
    Ok(entries)
}

// The day so many days after settlement, at most 40 years after it.
fn day_after(settle: Day, days: u32) -> Day
    requires settlement { IsSettlement settle }
    requires within { (settle +ℤ pos days) ≤ℤ years_after_of settle 40 }
    ensures { result ≡ settle +ℤ pos days }
{
    Day::new(settle.number() + days as i32)
}

// The entry of a day, from the balance before it.
fn entry_of(day: Day, before: u64, receipts: &DaySums, needs: &DaySums) -> Balance
    requires receipts_from { receipts.now.from ≤ℤ day }
    requires receipts_to { day ≤ℤ receipts.now.to }
    requires needs_from { needs.now.from ≤ℤ day }
    requires needs_to { day ≤ℤ needs.now.to }
    requires before { total_before day needs.now.sums + before ≡ total_before day receipts.now.sums }
    requires meets { total_by day needs.now.sums ≤ total_by day receipts.now.sums }
    requires room { total receipts.now.sums < 2 ^ 64 }
    ensures { result ≡ entry_on receipts.now.sums needs.now.sums day }
{
    let received = receipts.on(day);
    let needed = needs.on(day);
    Balance {
        day,
        receipts: received,
        needs: needed,
        balance: Cents(before + received.0 - needed.0),
    }
}

// Whether a day's entry stands in the list: settlement's, and those on which something is received or needed.
fn is_listed(settle: Day, entry: &Balance) -> bool
    ensures { result ≡ is_listed_at settle entry.now }
{
    entry.day == settle || entry.receipts.0 > 0 || entry.needs.0 > 0
}
