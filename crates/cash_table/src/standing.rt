//! What is to be known of a portfolio on trial: whether it is short, and what its securities yield.

ghost use Rattle.std.specs.Prelude.{◌≡◌, IfOk, length};
ghost use Rattle.std.specs.List.{sum};
ghost use Rattle.escrow_units.specs.Flows.{total};
ghost use Rattle.offer_book.specs.Portfolio.{IsPermitted, payments, security_flows};
ghost use Rattle.cash_table.specs.First.{first_short_of};
ghost use Rattle.cash_table.specs.Points.{plan_yield as plan_yield_of};
ghost use Rattle.cash_table.specs.Receipts.{AreReceipts};
ghost use Rattle.cash_table.specs.Schedules.{schedules_of};

use crate::cash::{add_receipts, first_uncovered, line_receipts};
use crate::costs::security_cost;
use crate::plan::Plan;
use crate::schedules::Schedules;
use crate::security_flows::scheduled;
use escrow_desk::NoMemory;
use escrow_units::{Day, Flow};
use offer_book::Book;
use std::alloc::Global;
use yield_enclosure::{YieldAnswer, interval};

/// How a portfolio stands.
#[derive(Clone, Copy, Debug)]
pub struct Standing {
    /// The first day on which it doesn't meet the needs, if there is one.
    pub short: Option<Day>,
    /// What its securities yield.
    pub answer: YieldAnswer,
}

/// How a permitted portfolio stands: as [`first_short`](crate::first_short) and [`plan_yield`](crate::plan_yield) have it, but
/// what its securities pay is looked up once for both, by the schedules of the book's lines.
///
/// # Errors
///
/// Where memory ran out.
pub fn plan_standing(
    alloc: Global,
    book: &Book,
    schedules: &Schedules,
    plan: &Plan,
) -> Result<Standing, NoMemory>
    requires permitted { IsPermitted book.now plan.now }
    requires schedules { schedules.now ≡ schedules_of book.now }
    ensures short { IfOk result (λ standing. standing.short ≡ first_short_of book.now plan.now) }
    ensures answer { IfOk result (λ standing. standing.answer ≡ plan_yield_of book.now plan.now) }
{
    let flows = scheduled(alloc, book, schedules, plan)?;
    let cost = security_cost(book, plan);
    let answer = interval(alloc, book.settle(), flows.as_slice(), cost)?;
    Ok(Standing {
        short: first_short_by(book, plan, flows.as_slice()),
        answer,
    })
}

// The first day on which a permitted portfolio doesn't meet the needs, by what its securities pay, summed by day.
fn first_short_by(book: &Book, plan: &Plan, flows: &[Flow]) -> Option<Day>
    requires permitted { IsPermitted book.now plan.now }
    requires flows { flows.now ≡ security_flows book.now plan.now }
    ensures { result ≡ first_short_of book.now plan.now }
{
    let needs = book.needs();
    let mut receipts = line_receipts(book, 0, plan.get(0));
    add_receipts(&mut receipts, needs, flows);
    first_uncovered(needs, &receipts)
}
