//! What the old bonds pay where they aren't called.
ghost use Rattle.std.specs.Prelude.{◌≡◌, ◌≤◌, length, sum_by, IfOk, None};
ghost use Rattle.escrow_units.specs.Calendar.{years_after_of};
ghost use Rattle.escrow_units.specs.Flows.{FallWithinFortyYears, Rise, total};
ghost use Rattle.escrow_units.specs.SlgsTerms.{IsSettlement};
ghost use Rattle.day_sums.specs.SummedLaws.{AreAboveZero};
ghost use Rattle.issue_schedule.specs.IssueTerms.{HasNeeds, IsBond};
ghost use Rattle.issue_schedule.specs.Needs.{bond_needs, held_needs};
ghost use Rattle.savings_table.specs.OldService.{old_service_of};

use crate::limits::SERVICE_LIMIT;
use arrayvec::ArrayVec;
use day_sums::DaySums;
use escrow_desk::{FILE_LIMIT, NoMemory};
use escrow_units::{
    Day, Flow, StepRule, half_coupon, series_around, series_laws, year_laws, years_after,
};
use issue_schedule::{Bond, Issue};
use std::alloc::Global;

// What a bond pays that isn't called: its principal at maturity, and half its coupon on each date of its series after
// settlement.
fn held_payments(settle: Day, bond: &Bond) -> ArrayVec<Flow, 85>
    requires settle { IsSettlement settle }
    requires bond { IsBond settle bond.now }
    ensures { result.items ≡ held_needs settle bond.now }
{
    year_laws();
    series_laws();
    let dates = series_around(bond.maturity, StepRule::SameDay, settle);
    let cents = half_coupon(bond.principal, bond.coupon);
    let mut flows = ArrayVec::new();
    flows.push(Flow {
        day: bond.maturity,
        cents: bond.principal,
    });
    for date in dates.after.as_slice() {
        flows.push(Flow { day: *date, cents });
    }
    flows
}

// What the bonds pay on each day.
fn service_by_day(alloc: Global, issue: &Issue) -> Result<DaySums, NoMemory>
    requires needs { HasNeeds issue.now }
    requires bonds { length issue.now.bonds ≤ FILE_LIMIT }
    ensures { IfOk result (λ sums. sums ≡ record { from = issue.now.settle; to = years_after_of issue.now.settle 40; sums = old_service_of issue.now.settle issue.now.bonds }) }
{
    let mut sums = DaySums::between(alloc, issue.settle, years_after(issue.settle, 40))?;
    for bond in issue.bonds.as_slice() {
        sums.add(held_payments(issue.settle, bond).as_slice());
    }
    Ok(sums)
}

/// The old service: what the old bonds of an issue would pay were they not called, summed by day, in order of day, each day once,
/// none of 0 cents. Direct needs are no part of it.
///
/// A bond pays half its coupon on each date of its series after settlement, up to maturity, and there its principal. The issue
/// keeps all that its reader tries, and has at most 1,048,576 bonds, as each issue file has that is read. Then its old service
/// comes to at most 2 * 10^15 cents.
///
/// # Errors
///
/// Where memory ran out.
pub fn old_service(alloc: Global, issue: &Issue) -> Result<Vec<Flow>, NoMemory>
    requires needs { HasNeeds issue.now }
    requires bonds { length issue.now.bonds ≤ FILE_LIMIT }
    ensures value { IfOk result (λ flows. flows.items ≡ old_service_of issue.now.settle issue.now.bonds) }
    ensures within { IfOk result (λ flows. FallWithinFortyYears issue.now.settle flows.items) }
    ensures rise { IfOk result (λ flows. Rise flows.items) }
    ensures above { IfOk result (λ flows. AreAboveZero flows.items) }
    ensures total { IfOk result (λ flows. total flows.items ≡ sum_by (λ bond. total (bond_needs issue.now.settle None bond)) issue.now.bonds) }
    ensures limit { IfOk result (λ flows. total flows.items ≤ SERVICE_LIMIT) }
{
    service_by_day(alloc, issue)?.into_flows(alloc)
}
