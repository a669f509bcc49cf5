//! What a cent is worth at a leaf, on each day on which lines pay.
ghost use Rattle.std.specs.Prelude.{All, ◌≡◌, ◌⊎◌, ◌+◌, ◌*◌, ◌/◌, ◌^◌, ◌<◌, ◌≤◌, ℕ, length, map, slice_index, slice_index_or, unsigned_abs};
ghost use Rattle.std.specs.List.{AllZip, Contains};
ghost use Rattle.fixed_powers.specs.DiscountPowers.{one};
ghost use Rattle.dual_bound.specs.Columns.{IsPriced, signed_worth, worth_between as worth_between_of, worth_on};
ghost use Rattle.proof_tree.specs.Tree.{IsLeaf};
ghost use Rattle.dual_bound.specs.declared.worth.PricedDay.{PricedDay as PricedDayOf};
ghost use Rattle.dual_bound.specs.declared.worth.Worth.{Worth as WorthOf};

use fixed_powers::ONE;
use proof_tree::{Leaf, PRICE_SCALE};

/// A day on which lines pay, by what prices it.
#[derive(Clone, Copy, Debug, PartialEq, Eq)]
pub(crate) struct PricedDay {
    /// The place of the first need date on or after it, or how many need dates there are.
    pub need: usize,
    /// The power that discounts it for the limit.
    pub power: u64,
}

/// What a cent that is paid on a day is worth, in units of 1 / [`PRICE_SCALE`]: so much above nothing, or below it.
#[derive(Clone, Copy, Debug, PartialEq, Eq)]
pub(crate) struct Worth {
    /// How much above nothing, or 0.
    pub above: u64,
    /// How much below nothing, or 0.
    pub below: u64,
}

impl Worth {
    /// The worth as a signed number: by one difference of the machine, since it is less than 2^63.
    pub(crate) fn signed(self) -> i128
        requires { self.above + self.below < 2 ^ 63 }
        ensures { result ≡ signed_worth self }
    {
        i128::from(self.above as i64 - self.below as i64)
    }

    /// Two worths together.
    pub(crate) fn plus(self, other: Worth) -> Worth
        requires above { self.above + other.above < 2 ^ 64 }
        requires below { self.below + other.below < 2 ^ 64 }
        ensures { result ≡ record { above = self.above + other.above; below = self.below + other.below } }
    {
        Worth {
            above: self.above + other.above,
            below: self.below + other.below,
        }
    }

    /// What is left of a worth without another that is part of it.
    pub(crate) fn minus(self, other: Worth) -> Worth
        requires above { other.above ≤ self.above }
        requires below { other.below ≤ self.below }
        ensures above { result.above + other.above ≡ self.above }
        ensures below { result.below + other.below ≡ self.below }
    {
        Worth {
            above: self.above - other.above,
            below: self.below - other.below,
        }
    }
}

// A price less what the limit takes.
fn worth_between(price: u64, limit: u64) -> Worth
    ensures { result ≡ worth_between_of price limit }
{
    Worth {
        above: price.saturating_sub(limit),
        below: limit.saturating_sub(price),
    }
}

// What the limit takes from a cent, by its multiplier and a power: nothing without a product where that is 0.
fn limit_part(weight: u64, power: u64) -> u64
    requires weight { weight ≤ PRICE_SCALE }
    requires power { power ≤ one }
    ensures { result ≡ weight * power / one }
{
    if weight == 0 {
        return 0;
    }
    (u128::from(weight) * u128::from(power) / u128::from(ONE)) as u64
}

/// The price at a place, and 0 past the last one.
pub(crate) fn price_at(prices: &[u64], place: usize) -> u64
    ensures { result ≡ slice_index prices.now place }
{
    match prices.get(place) {
        Some(price) => *price,
        None => 0,
    }
}

// What a cent on a day is worth, at prices and with a multiplier of the limit.
#[inline(always)]
fn worth_of(prices: &[u64], multiplier: u64, day: PricedDay) -> Worth
    requires multiplier { multiplier ≤ PRICE_SCALE }
    requires power { day.power ≤ one }
    ensures { result ≡ worth_between_of (slice_index prices.now day.need) (multiplier * day.power / one) }
{
    worth_between(
        price_at(prices, day.need),
        limit_part(multiplier, day.power),
    )
}

/// What a cent on a day is worth at a leaf that keeps its limits.
pub(crate) fn price_day(leaf: &Leaf, day: PricedDay) -> Worth
    requires leaf { leaf.now.mu ≤ PRICE_SCALE }
    requires power { day.power ≤ one }
    ensures { result ≡ worth_on leaf.now day }
{
    worth_of(leaf.prices.as_slice(), leaf.mu, day)
}

// Prices each of some days, at prices and with a multiplier of the limit.
#[inline(always)]
fn price_all(prices: &[u64], multiplier: u64, days: &[PricedDay], worths: &mut [Worth])
    requires multiplier { multiplier ≤ PRICE_SCALE }
    requires powers { All (λ priced. priced.power ≤ one) days.now }
    requires same { length worths.old ≡ length days.now }
    ensures { worths.new ≡ map (λ (day : PricedDayOf). worth_between_of (slice_index prices.now day.need) (multiplier * day.power / one)) days.now }
{
    for place in 0..days.len() {
        worths[place] = worth_of(prices, multiplier, days[place]);
    }
}

/// Prices each of some days at a leaf that keeps its limits: once for each day, however many lines pay on it. Where the limit has
/// no multiplier, the loop is compiled without a product.
pub(crate) fn price_days(leaf: &Leaf, days: &[PricedDay], worths: &mut [Worth])
    requires leaf { leaf.now.mu ≤ PRICE_SCALE }
    requires powers { All (λ priced. priced.power ≤ one) days.now }
    requires same { length worths.old ≡ length days.now }
    ensures { worths.new ≡ map (worth_on leaf.now) days.now }
{
    let prices = leaf.prices.as_slice();
    if leaf.mu == 0 {
        price_all(prices, 0, days, worths);
    } else {
        price_all(prices, leaf.mu, days, worths);
    }
}

/// Prices the days at some places at a leaf that keeps its limits. A day that is priced at it already stays so.
pub(crate) fn price_days_at(leaf: &Leaf, days: &[PricedDay], places: &[usize], worths: &mut [Worth])
    requires leaf { leaf.now.mu ≤ PRICE_SCALE }
    requires powers { All (λ priced. priced.power ≤ one) days.now }
    requires same { length worths.old ≡ length days.now }
    requires there { All (λ place. place < length days.now) places.now }
    ensures { (place : ℕ) → place < length days.now → (IsPriced leaf.now days.now worths.old place ⊎ Contains places.now place) → IsPriced leaf.now days.now worths.new place }
{
    for place in places {
        worths[*place] = price_day(leaf, days[*place]);
    }
}
