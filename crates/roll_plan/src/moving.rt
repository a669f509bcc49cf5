//! What securities pay where rolls are made.

ghost use Rattle.std.specs.Prelude.{◌≡◌, ◌+◌, ◌<◌, ◌≤◌, ◌^◌, ◌≤ℤ◌, ◌++◌, Option, All, IfOk};
ghost use Rattle.escrow_units.specs.Calendar.{years_after_of};
ghost use Rattle.escrow_units.specs.Flows.{FallWithinFortyYears, total};
ghost use Rattle.escrow_units.specs.SlgsTerms.{IsSettlement};
ghost use Rattle.escrow_units.specs.declared.security.Terms.{Terms};
ghost use Rattle.day_sums.specs.Summed.{cents_on, on, summed};
ghost use Rattle.offer_book.specs.Portfolio.{IsPermitted, Meets, security_cost, security_flows};
ghost use Rattle.roll_plan.specs.RolledFlows.{AreRolledFlows, YieldsNoMore};
ghost use Rattle.roll_plan.specs.Steps.{lessened_by};
ghost use Rattle.roll_plan.specs.RollsOf.{moved_by};
ghost use Rattle.roll_plan.specs.Rolls.{AreRollsOf, returned as returned_by, taken as taken_by};

use crate::planning::Roll;
use case_file::Case;
use cash_table::{Plan, flows};
use day_sums::DaySums;
use escrow_desk::NoMemory;
use escrow_units::{Cents, Day, Flow, years_after};
use std::alloc::{AllocError, Global};

// What a roll takes away from its day.
fn taken_flow(roll: &Roll) -> Flow
    ensures { result ≡ on roll.now.day roll.now.cents.0 }
{
    Flow {
        day: roll.day,
        cents: roll.cents,
    }
}

// What a roll brings back.
fn returned_flow(roll: &Roll) -> Flow
    ensures { result ≡ on roll.now.next roll.now.cents.0 }
{
    Flow {
        day: roll.next,
        cents: roll.cents,
    }
}

// What rolls take away from their days.
fn taken(alloc: Global, rolls: &[Roll]) -> Result<Vec<Flow>, AllocError>
    ensures { IfOk result (λ flows. flows.items ≡ taken_by rolls.now) }
{
    rolls.iter().map(taken_flow).collect(alloc)
}

// What rolls bring back on the days to which they run.
fn returned(alloc: Global, rolls: &[Roll]) -> Result<Vec<Flow>, AllocError>
    ensures { IfOk result (λ flows. flows.items ≡ returned_by rolls.now) }
{
    rolls.iter().map(returned_flow).collect(alloc)
}

// The sums of flows and more flows by day.
fn sums_of(alloc: Global, settle: Day, flows: &[Flow], more: &[Flow]) -> Result<DaySums, NoMemory>
    requires settlement { IsSettlement settle }
    requires flows { FallWithinFortyYears settle flows.now }
    requires more { FallWithinFortyYears settle more.now }
    requires room { total flows.now + total more.now < 2 ^ 64 }
    ensures { IfOk result (λ sums. sums ≡ record { from = settle; to = years_after_of settle 40; sums = summed (flows.now ++ more.now) }) }
{
    let mut sums = DaySums::between(alloc, settle, years_after(settle, 40))?;
    sums.add(flows);
    sums.add(more);
    Ok(sums)
}

// Flows, less what is taken away from their days, without zeros.
fn lessened(alloc: Global, flows: &[Flow], taken: &DaySums) -> Result<Vec<Flow>, NoMemory>
    requires from { All (λ flow. taken.now.from ≤ℤ flow.day) flows.now }
    requires to { All (λ flow. flow.day ≤ℤ taken.now.to) flows.now }
    requires within { All (λ flow. cents_on flow.day taken.now.sums ≤ flow.cents.0) flows.now }
    ensures { IfOk result (λ left. left.items ≡ lessened_by taken.now.sums flows.now) }
{
    let mut left = Vec::new(alloc);
    for flow in flows {
        let cents = flow.cents.0 - taken.on(flow.day).0;
        if cents > 0 {
            left.push(Flow {
                day: flow.day,
                cents: Cents(cents),
            })?;
        }
    }
    Ok(left)
}

/// What the securities of a permitted portfolio that meets the needs pay where rolls are made: on each day what they pay, less what is
/// rolled away from it, and what comes back on it; in order of day, none of 0 cents. The rolls are those of the portfolio, by some
/// denominations.
///
/// They come to as much as without rolls, and for the securities' cost they yield no more: neither end of the yield's interval is above
/// that of the first.
///
/// # Errors
///
/// Where memory ran out.
pub fn rolled(
    alloc: Global,
    case: &Case,
    plan: &Plan,
    rolls: &[Roll],
) -> Result<Vec<Flow>, NoMemory>
    requires permitted { IsPermitted case.now.book plan.now }
    requires meets { Meets case.now.book plan.now }
    requires rolls { (terms : Option Terms) × AreRollsOf case.now.book plan.now terms rolls.now }
    ensures flows { IfOk result (λ moved. AreRolledFlows (security_flows case.now.book plan.now) rolls.now moved.items) }
    ensures value { IfOk result (λ moved. moved.items ≡ moved_by (security_flows case.now.book plan.now) rolls.now) }
    ensures total { IfOk result (λ moved. total moved.items ≡ total (security_flows case.now.book plan.now)) }
    ensures yields { IfOk result (λ moved. YieldsNoMore case.now.book.days.settle (security_cost case.now.book plan.now) (security_flows case.now.book plan.now) moved.items) }
    ensures within { IfOk result (λ moved. FallWithinFortyYears case.now.book.days.settle moved.items) }
{
    // A book keeps its limits.
    prove!(case.book.line_count() > 0);
    let settle = case.book.settle();
    let flows = flows(alloc, &case.book, plan)?;
    let taken = taken(alloc, rolls)?;
    let returned = returned(alloc, rolls)?;
    let received = sums_of(alloc, settle, flows.as_slice(), returned.as_slice())?;
    let taken = sums_of(alloc, settle, taken.as_slice(), &[])?;
    let received = received.into_flows(alloc)?;
    lessened(alloc, received.as_slice(), &taken)
}
