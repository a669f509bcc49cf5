//! What the securities of a portfolio pay.

ghost use Rattle.std.specs.Prelude.{◌≡◌, ◌*◌, ◌^◌, ◌<◌, ◌≤◌, [], IfOk, drop, map};
ghost use Rattle.std.specs.List.{All, flat_map, zip};
ghost use Rattle.escrow_units.specs.Calendar.{years_after_of};
ghost use Rattle.escrow_units.specs.Flows.{Rise, total, FallWithinFortyYears};
ghost use Rattle.escrow_units.specs.SlgsTerms.{IsSettlement};
ghost use Rattle.day_sums.specs.Summed.{summed};
ghost use Rattle.day_sums.specs.SummedLaws.{AreAboveZero};
ghost use Rattle.offer_book.specs.Book.{IsLine};
ghost use Rattle.cash_table.specs.LaterFlows.{HaveLaterAmount};
ghost use Rattle.cash_table.specs.Schedules.{kept_of, schedules_of};
ghost use Rattle.offer_book.specs.Portfolio.{IsPermitted, IsPermittedUnits, line_payments, security_flows};

use crate::plan::Plan;
use crate::schedules::Schedules;
use arrayvec::ArrayVec;
use day_sums::DaySums;
use escrow_desk::NoMemory;
use escrow_units::{Flow, years_after};
use offer_book::{Book, Line, PaymentDays};
use payment_schedule::{ScheduledPayment, scheduled_flows};
use std::alloc::Global;

/// What the securities of a permitted portfolio pay, summed by day: in order of day, each day once, none of 0 cents.
///
/// # Errors
///
/// Where memory ran out.
pub fn flows(alloc: Global, book: &Book, plan: &Plan) -> Result<Vec<Flow>, NoMemory>
    requires { IsPermitted book.now plan.now }
    ensures value { IfOk result (λ flows. flows.items ≡ security_flows book.now plan.now) }
    ensures rise { IfOk result (λ flows. Rise flows.items) }
    ensures above { IfOk result (λ flows. AreAboveZero flows.items) }
    ensures within { IfOk result (λ flows. FallWithinFortyYears book.now.days.settle flows.items) }
    ensures later { IfOk result (λ flows. HaveLaterAmount book.now.days.settle flows.items) }
    ensures bound { IfOk result (λ flows. total flows.items ≤ 69 * 10 ^ 13) }
{
    let lines = book.lines();
    let settle = book.settle();
    let mut sums = DaySums::between(alloc, settle, years_after(settle, 40))?;
    add_bought(
        &mut sums,
        book.payment_days(),
        &lines[1..],
        &plan.units()[1..],
    );
    sums.into_flows(alloc)
}

// Adds what the bought lines pay. A line without units pays nothing, so its dates aren't looked for.
pub(crate) fn add_bought(sums: &mut DaySums, days: &PaymentDays, lines: &[Line], plan: &[u64])
    requires none { sums.old ≡ record { from = days.now.settle; to = years_after_of days.now.settle 40; sums = [] } }
    requires settlement { IsSettlement days.now.settle }
    requires lines { All (λ line. IsLine days.now line) lines.now }
    requires permitted { All (λ p. IsPermittedUnits p.0 p.1) (zip lines.now plan.now) }
    requires room { total (flat_map (λ p. line_payments days.now p.0 p.1) (zip lines.now plan.now)) < 2 ^ 64 }
    ensures { sums.new ≡ record sums.old { sums = summed (flat_map (λ p. line_payments days.now p.0 p.1) (zip lines.now plan.now)) } }
{
    for (line, units) in lines.iter().zip(plan) {
        if *units > 0 {
            sums.add(line.payments(days, *units).as_slice());
        }
    }
}

// What the securities of a permitted portfolio pay, as `flows` has it, by the schedules of the book's lines: no calendar is read
// again for a line that bears interest.
pub(crate) fn scheduled(
    alloc: Global,
    book: &Book,
    schedules: &Schedules,
    plan: &Plan,
) -> Result<Vec<Flow>, NoMemory>
    requires permitted { IsPermitted book.now plan.now }
    requires schedules { schedules.now ≡ schedules_of book.now }
    ensures value { IfOk result (λ flows. flows.items ≡ security_flows book.now plan.now) }
    ensures within { IfOk result (λ flows. FallWithinFortyYears book.now.days.settle flows.items) }
    ensures bound { IfOk result (λ flows. total flows.items ≤ 69 * 10 ^ 13) }
{
    let lines = book.lines();
    let settle = book.settle();
    let mut sums = DaySums::between(alloc, settle, years_after(settle, 40))?;
    add_scheduled(
        &mut sums,
        book.payment_days(),
        &lines[1..],
        schedules,
        &plan.units()[1..],
    );
    sums.into_flows(alloc)
}

// Adds what the bought lines behind the first pay, by their schedules. A line without units pays nothing, so its payments aren't
// looked for.
fn add_scheduled(
    sums: &mut DaySums,
    days: &PaymentDays,
    lines: &[Line],
    schedules: &Schedules,
    plan: &[u64],
)
    requires none { sums.old ≡ record { from = days.now.settle; to = years_after_of days.now.settle 40; sums = [] } }
    requires settlement { IsSettlement days.now.settle }
    requires lines { All (λ line. IsLine days.now line) lines.now }
    requires schedules { drop 1 schedules.now ≡ map (kept_of days.now) lines.now }
    requires permitted { All (λ p. IsPermittedUnits p.0 p.1) (zip lines.now plan.now) }
    requires room { total (flat_map (λ p. line_payments days.now p.0 p.1) (zip lines.now plan.now)) < 2 ^ 64 }
    ensures { sums.new ≡ record sums.old { sums = summed (flat_map (λ p. line_payments days.now p.0 p.1) (zip lines.now plan.now)) } }
{
    let mut place = 0;
    for (line, units) in lines.iter().zip(plan) {
        place += 1;
        if *units > 0 {
            sums.add(paid(days, line, schedules.line(place), *units).as_slice());
        }
    }
}

// What units of a line pay, by the payments that are kept of it.
fn paid(
    days: &PaymentDays,
    line: &Line,
    kept: &[ScheduledPayment],
    units: u64,
) -> ArrayVec<Flow, 84>
    requires settlement { IsSettlement days.now.settle }
    requires line { IsLine days.now line.now }
    requires kept { kept.now ≡ kept_of days.now line.now }
    requires units { units ≤ line.now.most }
    ensures value { result.items ≡ line_payments days.now line.now units }
    ensures within { FallWithinFortyYears days.now.settle result.items }
    ensures bound { total result.items ≤ 2 * 10 ^ 13 }
{
    if line.rate().0 == 0 {
        line.payments(days, units)
    } else {
        scheduled_flows(kept, line.rate(), line.par(units))
    }
}
