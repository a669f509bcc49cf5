//! What a refunding saves, and what idle yield costs.
ghost use Rattle.std.specs.Prelude.{◌≡◌, ◌≤◌, IfOk, IfSome};
ghost use Rattle.escrow_units.specs.Flows.{indexed};
ghost use Rattle.case_file.specs.Case.{case_view};
ghost use Rattle.case_file.specs.Limit.{materially_higher};
ghost use Rattle.issue_schedule.specs.IssueTerms.{IsIssue};
ghost use Rattle.offer_book.specs.Portfolio.{IsPermitted};
ghost use Rattle.savings_table.specs.PresentRange.{LiesInRange};
ghost use Rattle.savings_table.specs.Savings.{AreOfOneSet, AreSavings, difference as difference_of, known as known_of, new_value as new_value_of, restricted_yield as restricted_yield_of, savings_at};

use crate::discounting::{Discounts, PvRange};
use crate::old_bonds::old_service;
use case_file::Case;
use cash_table::{Plan, flows, security_cost};
use escrow_desk::NoMemory;
use escrow_units::{Cents, GREATEST_YIELD, YieldUnits};
use issue_schedule::{Issue, Restricted};
use std::alloc::Global;

// By how much the limit of a case is above its restricted yield: one thousandth of a percentage point.
const MATERIALLY_HIGHER: u64 = 100_000;

/// Two whole numbers of cents between which an amount lies that may be below 0.
#[derive(Clone, Copy, Debug, PartialEq, Eq)]
pub struct SignedRange {
    /// It is at least this.
    pub lo: i128,
    /// And at most this.
    pub hi: i128,
}

/// What a refunding saves in present value at the restricted yield, and what idle yield costs there, in cents.
#[derive(Clone, Copy, Debug, PartialEq, Eq)]
pub struct Savings {
    /// What the old service is worth: the payments of the old bonds, were they not called.
    pub old_value: PvRange,
    /// What the new service is worth: the payments of the refunding issue. None where its restricted yield is given, since the
    /// payments aren't known then.
    pub new_value: Option<PvRange>,
    /// The old service less the new one; None where the new one is.
    pub saved: Option<SignedRange>,
    /// The cost of idle yield (negative arbitrage): what the securities cost, less what their receipts are worth.
    pub idle: SignedRange,
}

// The restricted yield of a case.
fn restricted_yield(case: &Case) -> YieldUnits
    requires least { materially_higher ≤ case.now.limit.0 }
    requires most { case.now.limit.0 ≤ GREATEST_YIELD }
    ensures value { result.0 ≡ restricted_yield_of (case_view case.now) }
    ensures most { result.0 ≤ GREATEST_YIELD }
{
    YieldUnits(case.limit.0 - MATERIALLY_HIGHER)
}

// An amount that is known to the cent.
fn known(cents: Cents) -> PvRange
    ensures { result ≡ known_of cents.0 }
{
    PvRange {
        lo: cents.0,
        hi: cents.0,
    }
}

// One amount less another, each between two ends: the ends cross.
fn difference(amount: PvRange, less: PvRange) -> SignedRange
    ensures { result ≡ difference_of amount less }
{
    SignedRange {
        lo: i128::from(amount.lo) - i128::from(less.hi),
        hi: i128::from(amount.hi) - i128::from(less.lo),
    }
}

// What the new service is worth, where the issue says it.
fn new_value(issue: &Issue, discounts: &Discounts) -> Option<PvRange>
    requires { IsIssue issue.now }
    ensures value { result ≡ new_value_of issue.now discounts.now }
    ensures exact { IfSome result (LiesInRange discounts.now (indexed issue.now.settle issue.now.pays)) }
{
    match issue.restricted {
        Restricted::Given(_) => None,
        Restricted::Computed { .. } => Some(discounts.range(issue.settle, issue.pays.as_slice())),
    }
}

/// What a refunding saves, and what idle yield costs, at the restricted yield of its issue.
///
/// The issue and the case are of one set of files, and the portfolio is permitted. Each present value has two ends, rounded
/// outward to whole cents; a difference has as its lower end the lower end less the upper one, and as its upper end the upper
/// end less the lower one. It takes memory for two tables of powers, the old service and the receipts.
///
/// # Errors
///
/// Where memory ran out.
pub fn savings_of(
    alloc: Global,
    issue: &Issue,
    case: &Case,
    plan: &Plan,
) -> Result<Savings, NoMemory>
    requires set { AreOfOneSet issue.now (case_view case.now) }
    requires permitted { IsPermitted case.now.book plan.now }
    ensures value { IfOk result (λ savings. savings ≡ savings_at issue.now (case_view case.now) (restricted_yield_of (case_view case.now)) plan.now) }
    ensures exact { IfOk result (λ savings. AreSavings issue.now (case_view case.now) (restricted_yield_of (case_view case.now)) plan.now savings) }
{
    let discounts = Discounts::make(alloc, restricted_yield(case))?;
    let service = old_service(alloc, issue)?;
    let receipts = flows(alloc, &case.book, plan)?;
    let old_value = discounts.range(issue.settle, service.as_slice());
    let new_value = new_value(issue, &discounts);
    let securities = discounts.range(case.book.settle(), receipts.as_slice());
    Ok(Savings {
        old_value,
        new_value,
        saved: new_value.map(|less| difference(old_value, less)),
        idle: difference(known(security_cost(&case.book, plan)), securities),
    })
}
