//! The lines of a report that prove the yield.

ghost use Rattle.std.specs.Prelude.{◌≡◌, ◌+◌, ◌≤◌, ◌≤ℤ◌, ◌++◌, OnOk};
ghost use Rattle.std.specs.List.{flat_map};
ghost use Rattle.escrow_units.specs.Calendar.{years_after_of};
ghost use Rattle.escrow_units.specs.Flows.{FallWithinFortyYears};
ghost use Rattle.escrow_units.specs.SlgsTerms.{IsSettlement};
ghost use Rattle.fixed_powers.specs.DiscountPowers.{one};
ghost use Rattle.verification_report.specs.Report.{discounted_down as discounted_down_of, discounted_up as discounted_up_of, HasEndsWithin, proof_line, proof_lines};

use crate::text::push_word;
use escrow_desk::NoMemory;
use escrow_units::{
    Cents, Day, Flow, GREATEST_INDEX, GREATEST_YIELD, YieldUnits, index360, print_cents, print_day,
};
use fixed_powers::{ONE, Powers, Side};
use std::alloc::Global;
use yield_enclosure::YieldAnswer;

// Cents discounted by a power, in whole cents, rounded down.
fn discounted_down(cents: Cents, power: u64) -> Cents
    requires { power ≤ one }
    ensures { result.0 ≡ discounted_down_of cents.0 power }
{
    Cents((u128::from(cents.0) * u128::from(power) / u128::from(ONE)) as u64)
}

// Cents discounted by a power, in whole cents, rounded up.
fn discounted_up(cents: Cents, power: u64) -> Cents
    requires { power ≤ one }
    ensures { result.0 ≡ discounted_up_of cents.0 power }
{
    Cents((u128::from(cents.0) * u128::from(power)).div_ceil(u128::from(ONE)) as u64)
}

// Adds the line of a flow, with its present values by the powers of the two ends.
fn push_flow(
    text: &mut Vec<u8>,
    settle: Day,
    low: &Powers,
    high: &Powers,
    flow: &Flow,
) -> Result<(), NoMemory>
    requires settlement { IsSettlement settle }
    requires low_side { low.now.side ≡ Side.Low }
    requires high_side { high.now.side ≡ Side.High }
    requires low_longest { low.now.longest ≡ GREATEST_INDEX }
    requires high_longest { high.now.longest ≡ GREATEST_INDEX }
    requires from { settle ≤ℤ flow.now.day }
    requires to { flow.now.day ≤ℤ years_after_of settle 40 }
    ensures { OnOk result (text.new.items ≡ text.old.items ++ proof_line settle low.now.yield_units high.now.yield_units flow.now) }
{
    let index = index360(settle, flow.day);
    let least = discounted_down(flow.cents, low.power(index));
    let most = discounted_up(flow.cents, high.power(index));
    text.extend_from_slice(b"proof")?;
    push_word(text, print_day(flow.day).as_bytes())?;
    push_word(text, print_cents(flow.cents).as_bytes())?;
    push_word(text, print_cents(least).as_bytes())?;
    push_word(text, print_cents(most).as_bytes())?;
    text.push(b'\n')?;
    Ok(())
}

// Adds the lines of flows, with their present values at the two ends of a yield.
fn push_flows(
    alloc: Global,
    text: &mut Vec<u8>,
    settle: Day,
    lo: YieldUnits,
    hi: YieldUnits,
    flows: &[Flow],
) -> Result<(), NoMemory>
    requires settlement { IsSettlement settle }
    requires lo { lo.0 ≤ GREATEST_YIELD + 1 }
    requires hi { hi.0 ≤ GREATEST_YIELD + 1 }
    requires within { FallWithinFortyYears settle flows.now }
    ensures { OnOk result (text.new.items ≡ text.old.items ++ flat_map (proof_line settle lo.0 hi.0) flows.now) }
{
    let low = Powers::make(alloc, lo, Side::Low, GREATEST_INDEX)?;
    let high = Powers::make(alloc, hi, Side::High, GREATEST_INDEX)?;
    for flow in flows {
        push_flow(text, settle, &low, &high, flow)?;
    }
    Ok(())
}

/// Adds the proof of a yield, flow by flow, where it has two ends.
pub(crate) fn push_proof(
    alloc: Global,
    text: &mut Vec<u8>,
    settle: Day,
    answer: YieldAnswer,
    flows: &[Flow],
) -> Result<(), NoMemory>
    requires settlement { IsSettlement settle }
    requires ends { HasEndsWithin answer }
    requires within { FallWithinFortyYears settle flows.now }
    ensures { OnOk result (text.new.items ≡ text.old.items ++ proof_lines settle answer flows.now) }
{
    match answer {
        YieldAnswer::Between { lo, hi } => push_flows(alloc, text, settle, lo, hi, flows),
        YieldAnswer::Empty | YieldAnswer::Negative | YieldAnswer::Above => Ok(()),
    }
}
