//! What is rolled, from when to when.

ghost use Rattle.std.specs.Prelude.{◌≡◌, ◌≤◌, ℕ, true, false, not, IfOk, IfSome};
ghost use Rattle.escrow_units.specs.Calendar.{IsBaseDay, years_after_of};
ghost use Rattle.escrow_units.specs.Denomination.{AreTerms};
ghost use Rattle.escrow_units.specs.OpenDays.{is_closed};
ghost use Rattle.offer_book.specs.Portfolio.{IsPermitted, Meets, security_flows};
ghost use Rattle.roll_plan.specs.Steps.{AreInOrder};
ghost use Rattle.roll_plan.specs.RollsOf.{most_rolled as most_rolled_of, most_subscribed as most_subscribed_of, rolls_along as rolls_along_of, rolls_of};
ghost use Rattle.roll_plan.specs.Rolls.{AreRollsOf, IsRollTerm, StillMeet};

use case_file::Case;
use cash_table::{Balance, Plan, balances, flows};
use day_sums::DaySums;
use escrow_desk::NoMemory;
use escrow_units::{Cents, ClosedDays, Day, Terms, years_after};
use offer_book::Book;
use std::alloc::Global;

/// The fewest days of a security without interest (31 CFR part 344).
const SHORTEST: i32 = 15;

/// A planned subscription: a zero-interest certificate of indebtedness.
#[derive(Clone, Copy, Debug, PartialEq, Eq)]
pub struct Roll {
    /// The day on which it is bought.
    pub day: Day,
    /// The day on which it pays.
    pub next: Day,
    /// Its face, which is what it costs and what it pays, in cents.
    pub cents: Cents,
}

// Whether a day is open.
fn is_open(closed: &ClosedDays, day: Day) -> bool
    requires { IsBaseDay day }
    ensures { result ≡ not (is_closed closed.now day) }
{
    closed.open_day(day) == day
}

// Whether a zero-interest certificate may run from a day to another.
fn is_roll_term(closed: &ClosedDays, from: Day, to: Day) -> bool
    requires from { IsBaseDay from }
    requires to { IsBaseDay to }
    ensures yes { result ≡ true → IsRollTerm closed.now from to }
    ensures no { result ≡ false → IsRollTerm closed.now from to → ⊥ }
{
    if to.number() < from.number() + SHORTEST || years_after(from, 1) < to {
        return false;
    }
    is_open(closed, from) && is_open(closed, to)
}

// The most cents that may be subscribed for, up to a number of cents.
fn most_subscribed(terms: Terms, free: u64) -> u64
    requires { AreTerms terms }
    ensures { result ≡ most_subscribed_of terms free }
{
    let whole = free - free % (100 * terms.step);
    if whole < 100 * terms.minimum {
        return 0;
    }
    whole
}

// The most that is rolled from a day to another, of so many cents.
fn most_rolled(closed: &ClosedDays, terms: Terms, from: Day, to: Day, free: u64) -> u64
    requires terms { AreTerms terms }
    requires from { IsBaseDay from }
    requires to { IsBaseDay to }
    ensures { result ≡ most_rolled_of closed.now terms from to free }
{
    if !is_roll_term(closed, from, to) {
        return 0;
    }
    most_subscribed(terms, free)
}

// What securities pay, by day.
fn received(alloc: Global, book: &Book, plan: &Plan) -> Result<DaySums, NoMemory>
    requires { IsPermitted book.now plan.now }
    ensures { IfOk result (λ sums. sums ≡ record { from = book.now.days.settle; to = years_after_of book.now.days.settle 40; sums = security_flows book.now plan.now }) }
{
    // A book keeps its limits.
    prove!(book.line_count() > 0);
    let settle = book.settle();
    let flows = flows(alloc, book, plan)?;
    let mut sums = DaySums::between(alloc, settle, years_after(settle, 40))?;
    sums.add(flows.as_slice());
    Ok(sums)
}

// The rolls of entries and of what securities pay, in order of day.
fn rolls_along(
    alloc: Global,
    closed: &ClosedDays,
    terms: Terms,
    entries: &[Balance],
    paid: &DaySums,
) -> Result<Vec<Roll>, NoMemory>
    requires terms { AreTerms terms }
    requires entries { AreInOrder paid.now entries.now }
    ensures { IfOk result (λ rolls. rolls.items ≡ rolls_along_of closed.now terms paid.now.sums entries.now) }
{
    let mut rolls = Vec::new(alloc);
    let mut back = 0;
    for place in 1..entries.len() {
        let entry = entries[place - 1];
        let next = entries[place].day;
        let free = entry.balance.0.min(paid.on(entry.day).0 + back);
        back = most_rolled(closed, terms, entry.day, next, free);
        if back > 0 {
            rolls.push(Roll {
                day: entry.day,
                next,
                cents: Cents(back),
            })?;
        }
    }
    Ok(rolls)
}

/// The rolls of a permitted portfolio that meets the needs, in order of day: what would lie idle from a day on which cash moves to the
/// next is put into a zero-interest certificate of indebtedness, where both days are open and at least 15 days and at most a year apart.
/// It is the most that may be subscribed for in the denominations of the rate file, in dollars; without them nothing is rolled. Opening
/// cash isn't rolled.
///
/// With them opening cash and receipts are at least the needs on every day. It is linear in the days on which cash moves, once these
/// are listed.
///
/// # Errors
///
/// Where memory ran out.
pub fn rolls(
    alloc: Global,
    case: &Case,
    plan: &Plan,
    terms: Option<Terms>,
) -> Result<Vec<Roll>, NoMemory>
    requires permitted { IsPermitted case.now.book plan.now }
    requires meets { Meets case.now.book plan.now }
    requires terms { IfSome terms AreTerms }
    ensures rolls { IfOk result (λ rolls. AreRollsOf case.now.book plan.now terms rolls.items) }
    ensures value { IfOk result (λ rolls. rolls.items ≡ rolls_of case.now.book plan.now terms) }
    ensures meet { IfOk result (λ rolls. StillMeet case.now.book plan.now rolls.items) }
{
    let Some(terms) = terms else {
        return Ok(Vec::new(alloc));
    };
    let book = &case.book;
    // A book keeps its limits.
    prove!(book.line_count() > 0);
    let entries = balances(alloc, book, plan)?;
    let paid = received(alloc, book, plan)?;
    rolls_along(alloc, book.closed(), terms, entries.as_slice(), &paid)
}
