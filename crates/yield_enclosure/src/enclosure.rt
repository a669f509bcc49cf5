//! The yield interval, by a search over present values.

ghost use Rattle.std.specs.Prelude.{◌≡◌, true, false, ◌+◌, ◌*◌, ◌<◌, ◌≤◌, ◌^◌, IfOk, IfSome, None};
ghost use Rattle.escrow_units.specs.PresentValue.{last_index};
ghost use Rattle.fixed_powers.specs.DiscountPowers.{one};
ghost use Rattle.escrow_units.specs.Flows.{indexed, total, FallWithinFortyYears};
ghost use Rattle.fixed_powers.specs.PresentValues.{HasLaterAmount, total_cents, present_value};
ghost use Rattle.fixed_powers.specs.declared.side.Side.TheVariants.{Low};
ghost use Rattle.yield_enclosure.specs.YieldAnswers.{AreDearerBelow, is_within, is_worth, is_no_dearer, IsLowerEnd, IsUpperEnd, IsYieldAnswer, answer_of_covered, yield_answer_of};

use crate::answer::YieldAnswer;
use crate::timeline::{AboutWorth, Timeline};
use escrow_desk::NoMemory;
use escrow_units::{Cents, Day, FLOWS_LIMIT, Flow, GREATEST_INDEX, GREATEST_YIELD, YieldUnits};
use fixed_powers::{ONE, Side};
use std::alloc::Global;

// 30 percent: a yield that reaches it is above the interval's bounds.
const MOST: YieldUnits = YieldUnits(GREATEST_YIELD);

// 4 percent: a yield such as many are, to begin with where nothing tells more.
const USUAL: u64 = 400_000_000;

// 200 percent of a yield: 2 * 10^10 units.
const TWO_HUNDRED_PERCENT: u64 = 20_000_000_000;

// The days of a half-year, by the 30/360 index.
const HALF_YEAR: u128 = 180;

// A tangent's step of fewer units than these leaves a small part of a unit.
const CLOSE: u64 = 3_000;

// The sum of the flows, in cents.
fn sum_of(flows: &[Flow]) -> u64
    requires { total flows.now < 2 ^ 64 }
    ensures { result ≡ total flows.now }
{
    let mut sum = 0;
    for flow in flows {
        sum += flow.cents.0;
    }
    sum
}

// Whether the flows are worth the cost at a yield, rounded down.
fn is_worth(alloc: Global, flows: &Timeline, cost: Cents, n: YieldUnits) -> Result<bool, NoMemory>
    requires yield_units { n.0 ≤ GREATEST_YIELD + 1 }
    requires cents { total_cents flows.now + cost.0 ≤ FLOWS_LIMIT }
    ensures { IfOk result (λ yes. yes ≡ is_worth flows.now cost.0 n.0) }
{
    let value = flows.present_value(alloc, n, Side::Low)?;
    Ok(ONE as u128 * cost.0 as u128 <= value)
}

// Whether the flows are worth no more than the cost at a yield, rounded up.
fn is_no_dearer(
    alloc: Global,
    flows: &Timeline,
    cost: Cents,
    n: YieldUnits,
) -> Result<bool, NoMemory>
    requires yield_units { n.0 ≤ GREATEST_YIELD + 1 }
    requires cents { total_cents flows.now + cost.0 ≤ FLOWS_LIMIT }
    ensures { IfOk result (λ yes. yes ≡ is_no_dearer flows.now cost.0 n.0) }
{
    let value = flows.present_value(alloc, n, Side::High)?;
    Ok(value <= ONE as u128 * cost.0 as u128)
}

// A yield that was tried, with what the flows are worth at it, or about that.
#[derive(Clone, Copy)]
struct Tried {
    n: u64,
    value: u128,
}

// Where a line through two tried yields meets the worth that is wanted, roughly. It shows where to try next, and nothing rests
// on it.
fn meeting(first: Tried, second: Tried, wanted: u128) -> u64 {
    let (low, high) = if first.n < second.n {
        (first, second)
    } else {
        (second, first)
    };
    let width = u128::from(high.n.saturating_sub(low.n));
    let fall = low.value.saturating_sub(high.value) >> 30;
    if fall == 0 {
        return low.n;
    }
    let beyond = (low.value.abs_diff(wanted) >> 30).saturating_mul(width) / fall;
    let step = beyond.min(u128::from(MOST.0)) as u64;
    if low.value >= wanted {
        low.n.saturating_add(step)
    } else {
        low.n.saturating_sub(step)
    }
}

// The yield to try next, above one and up to another: by the last two that were tried, and halfway once that was done sixteen
// times.
fn next_try(tries: u32, previous: Tried, last: Tried, wanted: u128, worth: u64, most: u64) -> u64
    requires { worth < most }
    ensures above { worth < result }
    ensures within { result ≤ most }
{
    if tries < 16 {
        meeting(previous, last, wanted).max(worth + 1).min(most)
    } else {
        most - (most - worth) / 2
    }
}

// The same, where the first tries are as near a guess as may be.
fn next_by_guess(
    tries: u32,
    guess: u64,
    previous: Tried,
    last: Tried,
    wanted: u128,
    worth: u64,
    most: u64,
) -> u64
    requires { worth < most }
    ensures above { worth < result }
    ensures within { result ≤ most }
{
    if tries < 3 {
        guess.max(worth + 1).min(most)
    } else {
        next_try(tries, previous, last, wanted, worth, most)
    }
}

// The natural logarithm of how much more one amount is than another, roughly, with 40 fraction bits: by the first terms of the series
// of the inverse hyperbolic tangent.
fn about_logarithm(more: u128, less: u128) -> u128 {
    let both = more.saturating_add(less);
    if both == 0 {
        return 0;
    }
    let ratio = (more.saturating_sub(less) << 40) / both;
    let square = ratio.wrapping_mul(ratio) >> 40;
    let third = ratio.wrapping_mul(square) >> 40;
    let fifth = third.wrapping_mul(square) >> 40;
    let sum = ratio.wrapping_add(third / 3).wrapping_add(fifth / 5);
    sum.wrapping_mul(2)
}

// The yield at which flows would be worth what is wanted if they all fell on their mean index, roughly.
fn about_mean_yield(whole: AboutWorth, wanted: u128) -> u64 {
    let sum = whole.value >> 30;
    let days = whole.by_index >> 30;
    if sum == 0 || days == 0 {
        return USUAL;
    }
    let mean = (days << 20) / sum;
    let logarithm = about_logarithm(sum, wanted >> 30);
    // the logarithm of what a half-year yields
    let half_year = (logarithm.wrapping_mul(HALF_YEAR) << 20) / mean.max(1);
    let growth = half_year.min(1 << 40);
    let more = growth.wrapping_add(growth.wrapping_mul(growth) >> 41);
    (more.wrapping_mul(u128::from(TWO_HUNDRED_PERCENT)) >> 40).min(u128::from(MOST.0 - 2)) as u64
}

// Where the tangent at a yield meets the worth that is wanted, roughly.
fn tangent_meeting(n: u64, about: AboutWorth, wanted: u128) -> u64 {
    let slope = about.by_index >> 30;
    if slope == 0 {
        return n;
    }
    let width = u128::from(TWO_HUNDRED_PERCENT.saturating_add(n)).wrapping_mul(HALF_YEAR);
    let beyond = (about.value.abs_diff(wanted) >> 30).saturating_mul(width) / slope;
    let step = beyond.min(u128::from(MOST.0)) as u64;
    if about.value >= wanted {
        n.saturating_add(step)
    } else {
        n.saturating_sub(step).saturating_sub(1)
    }
}

// The greatest yield at which the flows are worth what is wanted, roughly. It shows where to try first, and nothing rests on it.
//
// The first guess takes all flows together. What flows are worth falls ever more slowly as the yield rises. So no tangent meets the
// worth that is wanted above the yield that is looked for, and each meets it nearer than the one before: about twice as many digits
// are right.
fn about_yield(flows: &Timeline, wanted: u128) -> u64
    ensures { result + 1 < GREATEST_YIELD }
{
    let mut guess = about_mean_yield(flows.about_total(), wanted).min(MOST.0 - 2);
    for _ in 0..16 {
        let next = tangent_meeting(guess, flows.about_worth(guess), wanted).min(MOST.0 - 2);
        let step = next.abs_diff(guess);
        guess = next;
        if step < CLOSE {
            break;
        }
    }
    guess
}

// The greatest yield that is still to be tried, below 30 percent: one unit above it the flows aren't worth the cost. `None` where they
// are worth it at 30 percent, which is tried only where they are worth it one unit above the guess.
fn most_to_try(
    alloc: Global,
    flows: &Timeline,
    cost: Cents,
    guess: u64,
) -> Result<Option<u64>, NoMemory>
    requires guess { guess + 1 < GREATEST_YIELD }
    requires cents { total_cents flows.now + cost.0 ≤ FLOWS_LIMIT }
    ensures some { IfOk result (λ most. IfSome most (λ n. (n < GREATEST_YIELD) × (present_value Low (n + 1) flows.now < one * cost.0))) }
    ensures none { IfOk result (λ most. most ≡ None → one * cost.0 ≤ present_value Low GREATEST_YIELD flows.now) }
{
    if !is_worth(alloc, flows, cost, YieldUnits(guess + 1))? {
        return Ok(Some(guess));
    }
    if is_worth(alloc, flows, cost, MOST)? {
        return Ok(None);
    }
    Ok(Some(MOST.0 - 1))
}

// The lower end, and whether the flows are known to be worth more than the cost at it, rounded down.
#[derive(Clone, Copy)]
struct LowerEnd {
    lo: YieldUnits,
    is_dearer: bool,
}

// The greatest yield at which the flows are worth the cost, up to the greatest that is still to be tried.
fn lower_end(
    alloc: Global,
    flows: &Timeline,
    cost: Cents,
    guess: u64,
    greatest: u64,
) -> Result<LowerEnd, NoMemory>
    requires cents { total_cents flows.now + cost.0 ≤ FLOWS_LIMIT }
    requires covered { cost.0 ≤ total_cents flows.now }
    requires within { greatest < GREATEST_YIELD }
    requires less { present_value Low (greatest + 1) flows.now < one * cost.0 }
    ensures lower { IfOk result (λ end. IsLowerEnd flows.now cost.0 end.lo.0) }
    ensures dearer { IfOk result (λ end. end.is_dearer ≡ true → one * cost.0 < present_value Low end.lo.0 flows.now) }
{
    // Present values fall with the yield, so the flows are worth the cost at each yield up to the greatest.
    let wanted = ONE as u128 * cost.0 as u128;
    let mut previous = Tried {
        n: MOST.0,
        value: 0,
    };
    let mut last = previous;
    let mut tries = 0u32;
    let mut worth = 0;
    let mut is_dearer = false;
    let mut most = greatest;
    while worth < most {
        let middle = next_by_guess(tries, guess, previous, last, wanted, worth, most);
        let value = flows.present_value(alloc, YieldUnits(middle), Side::Low)?;
        previous = last;
        last = Tried { n: middle, value };
        tries = tries.saturating_add(1);
        if wanted <= value {
            worth = middle;
            is_dearer = wanted < value;
        } else {
            most = middle - 1;
        }
    }
    Ok(LowerEnd {
        lo: YieldUnits(worth),
        is_dearer,
    })
}

// Whether the flows are worth no more than the cost at the lower end, rounded up. Where they are worth more rounded down, no table
// is made.
fn is_met_below(
    alloc: Global,
    flows: &Timeline,
    cost: Cents,
    end: LowerEnd,
) -> Result<bool, NoMemory>
    requires yield_units { end.lo.0 ≤ GREATEST_YIELD }
    requires cents { total_cents flows.now + cost.0 ≤ FLOWS_LIMIT }
    requires dearer { end.is_dearer ≡ true → one * cost.0 < present_value Low end.lo.0 flows.now }
    ensures { IfOk result (λ yes. yes ≡ is_no_dearer flows.now cost.0 end.lo.0) }
{
    if end.is_dearer {
        return Ok(false);
    }
    is_no_dearer(alloc, flows, cost, end.lo)
}

// The least yield at which the flows are worth no more than the cost: it is at most two units above the lower end,
// since rounding never hides one unit of yield.
fn upper_end(
    alloc: Global,
    flows: &Timeline,
    cost: Cents,
    end: LowerEnd,
) -> Result<YieldUnits, NoMemory>
    requires near { last_index flows.now ≤ GREATEST_INDEX }
    requires cents { total_cents flows.now + cost.0 ≤ FLOWS_LIMIT }
    requires covered { cost.0 ≤ total_cents flows.now }
    requires less { present_value Low GREATEST_YIELD flows.now < one * cost.0 }
    requires lower { IsLowerEnd flows.now cost.0 end.lo.0 }
    requires dearer { end.is_dearer ≡ true → one * cost.0 < present_value Low end.lo.0 flows.now }
    requires below { end.lo.0 < GREATEST_YIELD }
    ensures { IfOk result (λ hi. IsUpperEnd flows.now cost.0 hi.0) }
{
    if is_met_below(alloc, flows, cost, end)? {
        return Ok(end.lo);
    }
    let next = YieldUnits(end.lo.0 + 1);
    if is_no_dearer(alloc, flows, cost, next)? {
        return Ok(next);
    }
    Ok(YieldUnits(end.lo.0 + 2))
}

// The answer where the flows sum to the cost or more.
fn answer_of_covered(alloc: Global, flows: &Timeline, cost: Cents) -> Result<YieldAnswer, NoMemory>
    requires near { last_index flows.now ≤ GREATEST_INDEX }
    requires cents { total_cents flows.now + cost.0 ≤ FLOWS_LIMIT }
    requires covered { cost.0 ≤ total_cents flows.now }
    ensures value { IfOk result (λ answer. answer ≡ answer_of_covered flows.now cost.0) }
    ensures meaning { IfOk result (λ answer. IsYieldAnswer flows.now cost.0 answer) }
{
    let guess = about_yield(flows, ONE as u128 * cost.0 as u128);
    let Some(greatest) = most_to_try(alloc, flows, cost, guess)? else {
        return Ok(YieldAnswer::Above);
    };
    let end = lower_end(alloc, flows, cost, guess, greatest)?;
    let hi = upper_end(alloc, flows, cost, end)?;
    Ok(YieldAnswer::Between { lo: end.lo, hi })
}

/// The yield of flows for a cost, as an interval of at most two units.
///
/// The flows fall from settlement to 40 years after it, in any order and with as many on a day as there are. They and
/// the cost come to at most 10^15 cents together. A yield is tried by one table of powers, up to the last flow: two or three
/// yields near a guess for the lower end, 50 at most, and one or two for the upper. It takes memory for the flows and one table.
///
/// # Errors
///
/// `NoMemory` where there is no room for the flows or the table.
pub fn interval(
    alloc: Global,
    settle: Day,
    flows: &[Flow],
    cost: Cents,
) -> Result<YieldAnswer, NoMemory>
    requires days { FallWithinFortyYears settle flows.now }
    requires cents { total flows.now + cost.0 ≤ FLOWS_LIMIT }
    ensures value { IfOk result (λ answer. answer ≡ yield_answer_of (indexed settle flows.now) cost.0) }
    ensures meaning { IfOk result (λ answer. IsYieldAnswer (indexed settle flows.now) cost.0 answer) }
{
    if flows.is_empty() && cost.0 == 0 {
        return Ok(YieldAnswer::Empty);
    }
    if sum_of(flows) < cost.0 {
        return Ok(YieldAnswer::Negative);
    }
    let timeline = Timeline::make(alloc, settle, flows)?;
    answer_of_covered(alloc, &timeline, cost)
}

// Whether the yield is within the limit where the flows sum to the cost or more: two yields are tried.
fn is_covered_within(
    alloc: Global,
    flows: &Timeline,
    cost: Cents,
    limit: YieldUnits,
) -> Result<bool, NoMemory>
    requires near { last_index flows.now ≤ GREATEST_INDEX }
    requires cents { total_cents flows.now + cost.0 ≤ FLOWS_LIMIT }
    requires covered { cost.0 ≤ total_cents flows.now }
    ensures value { IfOk result (λ yes. yes ≡ is_within limit.0 (answer_of_covered flows.now cost.0)) }
    ensures refusal { IfOk result (λ yes. yes ≡ false
        → 1 ≤ limit.0
        → limit.0 ≤ GREATEST_YIELD
        → HasLaterAmount flows.now
        → AreDearerBelow flows.now cost.0 limit.0) }
{
    if is_worth(alloc, flows, cost, MOST)? {
        return Ok(false);
    }
    // The upper end is at most one unit above 30 percent.
    if MOST.0 < limit.0 {
        return Ok(true);
    }
    is_no_dearer(alloc, flows, cost, limit)
}

/// Whether the yield of flows for a cost is within a limit: there is none, or it is below 0, or the upper end of its
/// interval is at most the limit.
///
/// The conditions are those of `interval`, and it takes no more memory. It tries two yields alone. Where an amount above
/// 0 falls at an index of 1 or more, it answers false only where the flows are worth more than the cost at a yield one
/// unit below the limit, which is from 1 to 3,000,000,000 units.
///
/// # Errors
///
/// `NoMemory` where there is no room for the flows or the table.
pub fn within(
    alloc: Global,
    settle: Day,
    flows: &[Flow],
    cost: Cents,
    limit: YieldUnits,
) -> Result<bool, NoMemory>
    requires days { FallWithinFortyYears settle flows.now }
    requires cents { total flows.now + cost.0 ≤ FLOWS_LIMIT }
    ensures value { IfOk result (λ yes. yes ≡ is_within limit.0 (yield_answer_of (indexed settle flows.now) cost.0)) }
    ensures refusal { IfOk result (λ yes. yes ≡ false
        → 1 ≤ limit.0
        → limit.0 ≤ GREATEST_YIELD
        → HasLaterAmount (indexed settle flows.now)
        → AreDearerBelow (indexed settle flows.now) cost.0 limit.0) }
{
    if flows.is_empty() && cost.0 == 0 || sum_of(flows) < cost.0 {
        return Ok(true);
    }
    let timeline = Timeline::make(alloc, settle, flows)?;
    is_covered_within(alloc, &timeline, cost, limit)
}
