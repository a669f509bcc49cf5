//! What the securities of a portfolio yield.

ghost use Rattle.std.specs.Prelude.{◌≡◌, IfOk};
ghost use Rattle.escrow_units.specs.Flows.{indexed};
ghost use Rattle.yield_enclosure.specs.YieldAnswers.{IsYieldAnswer};
ghost use Rattle.offer_book.specs.Portfolio.{IsPermitted, security_cost as security_cost_of, security_flows};
ghost use Rattle.cash_table.specs.Points.{is_within_limit, plan_yield as plan_yield_of};

use crate::costs::security_cost;
use crate::plan::Plan;
use crate::security_flows::flows;
use escrow_desk::NoMemory;
use escrow_units::YieldUnits;
use offer_book::Book;
use std::alloc::Global;
use yield_enclosure::{YieldAnswer, interval, within};

/// The yield of a permitted portfolio's securities, as an interval of at most two units.
///
/// # Errors
///
/// Where memory ran out.
pub fn plan_yield(alloc: Global, book: &Book, plan: &Plan) -> Result<YieldAnswer, NoMemory>
    requires { IsPermitted book.now plan.now }
    ensures value { IfOk result (λ answer. answer ≡ plan_yield_of book.now plan.now) }
    ensures meaning { IfOk result (λ answer. IsYieldAnswer (indexed book.now.days.settle (security_flows book.now plan.now)) (security_cost_of book.now plan.now) answer) }
{
    let flows = flows(alloc, book, plan)?;
    let cost = security_cost(book, plan);
    interval(alloc, book.settle(), flows.as_slice(), cost)
}

/// Whether the yield of a permitted portfolio's securities is within a limit, in units of 10^-10: it has none, or it is below 0,
/// or the upper end of its interval is at most the limit. It tries two yields alone.
///
/// # Errors
///
/// Where memory ran out.
pub fn within_limit(
    alloc: Global,
    book: &Book,
    plan: &Plan,
    limit: YieldUnits,
) -> Result<bool, NoMemory>
    requires { IsPermitted book.now plan.now }
    ensures { IfOk result (λ yes. yes ≡ is_within_limit limit.0 book.now plan.now) }
{
    let flows = flows(alloc, book, plan)?;
    let cost = security_cost(book, plan);
    within(alloc, book.settle(), flows.as_slice(), cost, limit)
}
