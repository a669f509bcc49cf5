//! The needs of an issue, by day.
ghost use Rattle.std.specs.Prelude.{◌≡◌, ◌≤◌, ◌+◌, sum_by, IfOk};
ghost use Rattle.escrow_units.specs.Calendar.{years_after_of};
ghost use Rattle.escrow_units.specs.Flows.{Rise, total, FallWithin};
ghost use Rattle.day_sums.specs.SummedLaws.{AreAboveZero};
ghost use Rattle.issue_schedule.specs.IssueTerms.{HasNeeds};
ghost use Rattle.issue_schedule.specs.Needs.{bond_needs as bond_needs_of, needs_of};

use crate::bond::bond_needs;
use crate::issue::Issue;
use day_sums::DaySums;
use escrow_desk::NoMemory;
use escrow_units::{AMOUNT_LIMIT, Flow, years_after};
use std::alloc::Global;

// What is needed on each day.
fn needs_by_day(alloc: Global, issue: &Issue) -> Result<DaySums, NoMemory>
    requires { HasNeeds issue.now }
    ensures { IfOk result (λ sums. sums ≡ record { from = issue.now.settle; to = years_after_of issue.now.settle 40; sums = needs_of issue.now.settle issue.now.call issue.now.direct issue.now.bonds }) }
{
    let mut sums = DaySums::between(alloc, issue.settle, years_after(issue.settle, 40))?;
    sums.add(issue.direct.as_slice());
    for bond in issue.bonds.as_slice() {
        sums.add(bond_needs(issue.settle, issue.call, bond).as_slice());
    }
    Ok(sums)
}

/// The need dates of an issue, in order, with what is needed on each: the direct needs, and what the old bonds pay. They lie
/// from settlement to 40 years later, and come to the needs of the issue: at most 10^13 cents.
///
/// A bond pays half its coupon on each date of its series after settlement, up to maturity, and there its principal. One
/// that matures after the call pays the interest up to the call, and there the call price; where the call is no date of
/// the series it pays accrued interest too, by years of twelve months of thirty days. Each amount is rounded to the cent,
/// halves up.
///
/// # Errors
///
/// Where memory ran out.
pub fn needs(alloc: Global, issue: &Issue) -> Result<Vec<Flow>, NoMemory>
    requires { HasNeeds issue.now }
    ensures value { IfOk result (λ needs. needs.items ≡ needs_of issue.now.settle issue.now.call issue.now.direct issue.now.bonds) }
    ensures within { IfOk result (λ needs. FallWithin issue.now.settle (years_after_of issue.now.settle 40) needs.items) }
    ensures rise { IfOk result (λ needs. Rise needs.items) }
    ensures above { IfOk result (λ needs. AreAboveZero needs.items) }
    ensures total { IfOk result (λ needs. total needs.items ≡ total issue.now.direct + sum_by (λ bond. total (bond_needs_of issue.now.settle issue.now.call bond)) issue.now.bonds) }
    ensures limit { IfOk result (λ needs. total needs.items ≤ AMOUNT_LIMIT) }
{
    needs_by_day(alloc, issue)?.into_flows(alloc)
}
