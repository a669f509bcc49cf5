//! Payments of securities, and the days on which they come.

ghost use Rattle.std.specs.Prelude.{◌≤◌, IfOk};
ghost use Rattle.escrow_units.specs.SlgsTerms.{IsSettlement, IsSlgs};

use escrow_units::{AMOUNT_LIMIT, AskedRate, ClosedDays, GREATEST_RATE, Slgs};
use figure_sheets::{Unread, base_day, cents, rate, settlement, shown_day, shown_flows};
use payment_schedule::{HALF_YEAR, ScheduledPayment, scheduled_flows};
use slgs_interest::payments;
use slgs_rules::classify;
use std::alloc::Global;

// What an amount pays by two payments of half a year's interest, the second with the principal.
fn scheduled(
    alloc: Global,
    closed: &ClosedDays,
    at: &str,
    amount: &str,
    dates: [&str; 2],
) -> Result<String, Unread> {
    let [first, last] = dates;
    let schedule = [
        ScheduledPayment::due(closed, base_day(first)?, HALF_YEAR, false),
        ScheduledPayment::due(closed, base_day(last)?, HALF_YEAR, true),
    ];
    let flows = scheduled_flows(&schedule, rate(at)?, cents(amount, AMOUNT_LIMIT)?);
    Ok(shown_flows(alloc, flows.as_slice())?)
}

// The security that is sold from a settlement day on, at a rate.
fn sold(settle: &str, maturity: &str, at: &str, first: &str) -> Result<Slgs, Unread>
    ensures settlement { IfOk result (λ slgs. IsSettlement slgs.settle) }
    ensures terms { IfOk result IsSlgs }
    ensures rate { IfOk result (λ slgs. slgs.rate.0 ≤ GREATEST_RATE) }
{
    let settle = settlement(settle)?;
    let rate = rate(at)?;
    let first = base_day(first)?;
    let maturity = base_day(maturity)?;
    match classify(
        settle,
        maturity,
        AskedRate::At(rate),
        Some(first),
        Some(rate),
    ) {
        Ok(slgs) if slgs.settle == settle && slgs.rate == rate => Ok(slgs),
        _ => Err(Unread::Argument),
    }
}

/// What a call on payments comes to, if it is one.
pub(crate) fn answer(
    alloc: Global,
    closed: &ClosedDays,
    name: &str,
    arguments: &[&str],
) -> Result<String, Unread> {
    match (name.as_bytes(), arguments) {
        (b"open_day", [date]) => { Ok(shown_day(alloc, Some(closed.open_day(base_day(date)?)))?) }
        (b"closed", []) => {
            let weekends = if closed.weekends() {
                " and weekends"
            } else {
                ""
            };
            Ok(format!(in alloc; "{} days{weekends}", closed.days().len())?)
        }
        (b"scheduled", [at, amount, first, last]) => {
            scheduled(alloc, closed, at, amount, [first, last])
        }
        (b"slgs_payments", [settle, maturity, at, first, face]) => {
            let slgs = sold(settle, maturity, at, first)?;
            let flows = payments(&slgs, cents(face, 100_000_000_000)?, closed);
            Ok(shown_flows(alloc, flows.as_slice())?)
        }
        _ => Err(Unread::NoCall),
    }
}
