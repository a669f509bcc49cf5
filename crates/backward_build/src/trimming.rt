//! Plans taken down to a local minimum.

ghost use Rattle.std.specs.Prelude.{ℕ, ◌<◌, ◌≤◌, ◌↔◌, IsTrue, IfOk, IfSome, length, slice_index_or};
ghost use Rattle.std.specs.List.{All};
ghost use Rattle.offer_book.specs.Portfolio.{IsPermitted, IsPermittedUnits, Meets, cost, line_payments, payments};
ghost use Rattle.offer_book.specs.declared.line.Line.{Line};
ghost use Rattle.backward_build.specs.Order.{ArePrices};
ghost use Rattle.backward_build.specs.Spare.{AreSpare, Cover};
ghost use Rattle.backward_build.specs.Trim.{HasNoMore, IsFewest, IsTrimmed};

use crate::bisection::least_passing;
use crate::order::{Candidate, order};
use crate::price_curve::bootstrap;
use crate::spare::{pay_less, put_paid, spare_of, suffices, take_spare};
use cash_table::Plan;
use escrow_desk::NoMemory;
use escrow_units::MOST_NEED_DATES;
use offer_book::Book;
use proof_tree::Prices;
use std::alloc::Global;

// The fewest units of a line that pay what is due by each need date, from its least purchase on, where so many do. By
// bisection: more units pay no less.
fn fewest_bought(book: &Book, line: u16, units: u64, due: &[u64]) -> u64
    requires line { line < length book.now.lines }
    requires least { (d : Line) → (slice_index_or book.now.lines line d).least ≤ units }
    requires most { (d : Line) → units ≤ (slice_index_or book.now.lines line d).most }
    requires places { length book.now.needs ≤ length due.now }
    requires enough { (d : Line) → Cover book.now.needs due.now (line_payments book.now.days (slice_index_or book.now.lines line d) units) }
    ensures least { (d : Line) → (slice_index_or book.now.lines line d).least ≤ result }
    ensures most { result ≤ units }
    ensures enough { (d : Line) → Cover book.now.needs due.now (line_payments book.now.days (slice_index_or book.now.lines line d) result) }
    ensures fewest { (fewer : ℕ) (d : Line) → fewer < result → (slice_index_or book.now.lines line d).least ≤ fewer
        → ¬ Cover book.now.needs due.now (line_payments book.now.days (slice_index_or book.now.lines line d) fewer) }
{
    let passes = |fewer: u64| -> bool
        requires line { line < length book.now.lines }
        requires most { (d : Line) → fewer ≤ (slice_index_or book.now.lines line d).most }
        requires places { length book.now.needs ≤ length due.now }
        ensures { (d : Line) → IsTrue result ↔ Cover book.entry.now.needs due.entry.now (line_payments book.entry.now.days (slice_index_or book.entry.now.lines line d) fewer) }
    { suffices(book, line, fewer, due) };
    least_passing(book.line(line).least, units, passes)
}

// The fewest permitted units of a line that pay what is due by each need date, where so many do.
fn fewest(book: &Book, line: u16, units: u64, due: &[u64]) -> u64
    requires line { line < length book.now.lines }
    requires permitted { (d : Line) → IsPermittedUnits (slice_index_or book.now.lines line d) units }
    requires places { length book.now.needs ≤ length due.now }
    requires enough { (d : Line) → Cover book.now.needs due.now (line_payments book.now.days (slice_index_or book.now.lines line d) units) }
    ensures permitted { (d : Line) → IsPermittedUnits (slice_index_or book.now.lines line d) result }
    ensures most { result ≤ units }
    ensures enough { (d : Line) → Cover book.now.needs due.now (line_payments book.now.days (slice_index_or book.now.lines line d) result) }
    ensures fewest { (fewer : ℕ) (d : Line) → fewer < result → IsPermittedUnits (slice_index_or book.now.lines line d) fewer
        → ¬ Cover book.now.needs due.now (line_payments book.now.days (slice_index_or book.now.lines line d) fewer) }
{
    if suffices(book, line, 0, due) {
        0
    } else {
        fewest_bought(book, line, units, due)
    }
}

// Takes a line down as far as the needs allow, and with it what is left after each need date. It isn't inlined: its tables would stand
// on the stack while lines are put in order.
#[inline(never)]
fn trim_line(book: &Book, plan: &mut Plan, spare: &mut [u64; MOST_NEED_DATES], line: u16)
    requires line { line < length book.now.lines }
    requires permitted { IsPermitted book.now plan.old }
    requires spare { AreSpare book.now.needs (payments book.now plan.old) spare.old }
    ensures permitted { IsPermitted book.now plan.new }
    ensures spare { AreSpare book.now.needs (payments book.now plan.new) spare.new }
    ensures no_more { HasNoMore plan.new plan.old }
    ensures fewest { IsFewest book.now plan.new line }
{
    let dates = usize::from(book.need_count());
    let units = plan.get(line);
    let mut before = [0; MOST_NEED_DATES];
    put_paid(book, line, units, &mut before);
    let mut due = before;
    take_spare(&mut due, spare);
    let fewest = fewest(book, line, units, &due);
    let mut after = [0; MOST_NEED_DATES];
    put_paid(book, line, fewest, &mut after);
    pay_less(spare, &before, &after, dates);
    plan.put(line, fewest);
}

// Takes each line of a list down in turn. What one gives back only tightens the others, so that once is enough.
fn trim_lines(book: &Book, plan: &mut Plan, spare: &mut [u64; MOST_NEED_DATES], order: &[Candidate])
    requires lines { All (λ candidate. candidate.line < length book.now.lines) order.now }
    requires permitted { IsPermitted book.now plan.old }
    requires spare { AreSpare book.now.needs (payments book.now plan.old) spare.old }
    ensures permitted { IsPermitted book.now plan.new }
    ensures spare { AreSpare book.now.needs (payments book.now plan.new) spare.new }
    ensures no_more { HasNoMore plan.new plan.old }
    ensures fewest { All (λ candidate. IsFewest book.now plan.new candidate.line) order.now }
{
    for candidate in order {
        trim_line(book, plan, spare, candidate.line);
    }
}

/// Takes each line of a permitted plan that meets the needs down as far as the needs allow, once, in the order that saves most:
/// what a unit costs beyond what its payments are worth at the given prices, and where none are given, what it costs.
///
/// # Errors
///
/// [`NoMemory`] where there is no memory for the new plan and the order of the lines.
pub fn trim_at(
    alloc: Global,
    book: &Book,
    plan: &Plan,
    prices: Option<&Prices>,
) -> Result<Plan, NoMemory>
    requires permitted { IsPermitted book.now plan.now }
    requires meets { Meets book.now plan.now }
    requires prices { IfSome prices (λ prices. ArePrices book.now.needs prices.now) }
    ensures permitted { IfOk result (λ trimmed. IsPermitted book.now trimmed) }
    ensures meets { IfOk result (λ trimmed. Meets book.now trimmed) }
    ensures no_more { IfOk result (λ trimmed. HasNoMore trimmed plan.now) }
    ensures cost { IfOk result (λ trimmed. cost book.now trimmed ≤ cost book.now plan.now) }
    ensures trimmed { IfOk result (λ trimmed. IsTrimmed book.now trimmed) }
{
    let order = order(alloc, book, prices)?;
    let mut trimmed = plan.copy(alloc)?;
    let mut spare = spare_of(book, plan);
    trim_lines(book, &mut trimmed, &mut spare, &order);
    Ok(trimmed)
}

/// Takes each line of a permitted plan that meets the needs down as far as the needs allow, once, in the order that saves most:
/// what a unit costs beyond what its payments are worth at the bootstrapped prices, where there are any.
///
/// The new plan is permitted and meets the needs, has no more units of any line and costs no more; and none of its lines can go
/// to a lower permitted number of units alone and still meet the needs. It need not be the cheapest plan. The given plan stays
/// as it is.
///
/// # Errors
///
/// [`NoMemory`] where there is no memory for the new plan and the order of the lines.
pub fn trim(alloc: Global, book: &Book, plan: &Plan) -> Result<Plan, NoMemory>
    requires permitted { IsPermitted book.now plan.now }
    requires meets { Meets book.now plan.now }
    ensures permitted { IfOk result (λ trimmed. IsPermitted book.now trimmed) }
    ensures meets { IfOk result (λ trimmed. Meets book.now trimmed) }
    ensures no_more { IfOk result (λ trimmed. HasNoMore trimmed plan.now) }
    ensures cost { IfOk result (λ trimmed. cost book.now trimmed ≤ cost book.now plan.now) }
    ensures trimmed { IfOk result (λ trimmed. IsTrimmed book.now trimmed) }
{
    match bootstrap(alloc, book)? {
        Some(leaf) => trim_at(alloc, book, plan, Some(&leaf.prices)),
        None => trim_at(alloc, book, plan, None),
    }
}
