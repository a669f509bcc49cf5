//! The yield of flows for a cost.

ghost use Rattle.std.specs.Prelude.{◌≡◌, ◌+◌, ◌≤◌, true};
ghost use Rattle.escrow_units.specs.Calendar.{IsBaseDay};
ghost use Rattle.escrow_units.specs.Flows.{total, FallWithinFortyYears};

use escrow_units::{Cents, Day, FLOWS_LIMIT, Flow, YieldUnits, years_after};
use figure_sheets::{Unread, flows_of, number_of, settlement, shown_yes};
use std::alloc::Global;
use yield_enclosure::{YieldAnswer, interval, within};

// Whether a yield can be asked of these: the flows fall within forty years of settlement, and don't come to too much
// with the cost.
fn are_allowed(settle: Day, flows: &[Flow], cost: Cents) -> bool
    requires { IsBaseDay settle }
    ensures days { result ≡ true → FallWithinFortyYears settle flows.now }
    ensures cents { result ≡ true → total flows.now + cost.0 ≤ FLOWS_LIMIT }
{
    let last = years_after(settle, 40);
    let mut sum = cost.0;
    if FLOWS_LIMIT < sum {
        return false;
    }
    for flow in flows {
        if flow.day < settle || last < flow.day || FLOWS_LIMIT - sum < flow.cents.0 {
            return false;
        }
        sum += flow.cents.0;
    }
    true
}

// What is known of a yield.
fn shown(alloc: Global, answer: YieldAnswer) -> Result<String, Unread> {
    match answer {
        YieldAnswer::Between { lo, hi } => Ok(format!(in alloc; "{} {}", lo.0, hi.0)?),
        YieldAnswer::Empty => Ok(String::from_str(alloc, "empty")?),
        YieldAnswer::Negative => Ok(String::from_str(alloc, "negative")?),
        YieldAnswer::Above => Ok(String::from_str(alloc, "above")?),
    }
}

// The yield of flows for a cost, from settlement on; or, by a limit, whether it is within that.
fn yield_of(
    alloc: Global,
    settle: &str,
    cost: &str,
    limit: Option<YieldUnits>,
    flows: &[&str],
) -> Result<String, Unread> {
    let (settle, cost) = (settlement(settle)?, Cents(number_of(cost)?));
    let flows = flows_of(alloc, flows)?;
    if !are_allowed(settle, flows.as_slice(), cost) {
        return Err(Unread::Argument);
    }
    let Some(limit) = limit else {
        return match interval(alloc, settle, flows.as_slice(), cost) {
            Ok(answer) => shown(alloc, answer),
            Err(_) => Err(Unread::NoMemory),
        };
    };
    match within(alloc, settle, flows.as_slice(), cost, limit) {
        Ok(yes) => Ok(shown_yes(alloc, yes)?),
        Err(_) => Err(Unread::NoMemory),
    }
}

/// What a call on yields comes to, if it is one.
pub(crate) fn answer(alloc: Global, name: &str, arguments: &[&str]) -> Result<String, Unread> {
    match (name.as_bytes(), arguments) {
        (b"interval", [settle, cost, flows @ ..]) => yield_of(alloc, settle, cost, None, flows),
        (b"within", [settle, cost, limit, flows @ ..]) => {
            let limit = YieldUnits(number_of(limit)?);
            yield_of(alloc, settle, cost, Some(limit), flows)
        }
        _ => Err(Unread::NoCall),
    }
}
