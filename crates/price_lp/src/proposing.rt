//! Prices as those of a leaf.
ghost use Rattle.std.specs.Prelude.{All, AllPairs, ◌≡◌, ◌*◌, ◌≤◌, length};
ghost use Rattle.proof_tree.specs.declared.prices.TheConstants.{PRICE_SCALE};

use crate::duals::Duals;
use proof_tree::{PRICE_SCALE, Prices};
use sparse_basis::{PRICE_PLACES, Price};

/// The least by which a leaf weighs the cost that is proposed, where the cost counts: a hundredth.
pub const LEAST_WEIGHT: u64 = PRICE_SCALE / 100;

// By how much a number may be multiplied at most, in units of a leaf, so that it isn't above so many times 1.
fn greatest_scale(number: Price, times: u64) -> u64 {
    let number = number.wide();
    if number <= 0 {
        return PRICE_SCALE;
    }
    let scale = (i128::from(times) * i128::from(PRICE_SCALE) << PRICE_PLACES) / number;
    match u64::try_from(scale) {
        Ok(scale) => scale,
        Err(_) => PRICE_SCALE,
    }
}

/// By how much the prices and the multiplier are multiplied, in units of a leaf, so that a leaf may have them: 1 as a rule, and less
/// where a price would be above 2, or the multiplier above 1. It is the weight of the cost, where that counts. What is still too great at
/// a hundredth is cut off.
pub(crate) fn proposed_scale(duals: &Duals) -> u64
    ensures from { LEAST_WEIGHT ≤ result }
    ensures to { result ≤ PRICE_SCALE }
{
    let first = duals.price(1).unwrap_or(Price::zero());
    let by_price = greatest_scale(first, 2);
    let by_multiplier = greatest_scale(duals.multiplier(), 1);
    by_price.min(by_multiplier).clamp(LEAST_WEIGHT, PRICE_SCALE)
}

// A number multiplied, in units of a leaf, rounded down, from 0 to a greatest number.
fn proposed(number: Price, scale: u64, greatest: u64) -> u64
    requires { scale ≤ PRICE_SCALE }
    ensures { result ≤ greatest }
{
    let scaled = number.wide() * i128::from(scale) >> PRICE_PLACES;
    if scaled < 0 {
        return 0;
    }
    match u64::try_from(scaled) {
        Ok(units) => units.min(greatest),
        Err(_) => greatest,
    }
}

/// The multiplier of the yield limit that a leaf may have, at a scale.
pub(crate) fn proposed_multiplier(multiplier: Price, scale: u64) -> u64
    requires { scale ≤ PRICE_SCALE }
    ensures { result ≤ PRICE_SCALE }
{
    proposed(multiplier, scale, PRICE_SCALE)
}

/// Puts the prices of the need dates into those of a leaf, at a scale: each at most 2, and at most the one before it. A date that has
/// none gets 0; a solve stops there.
pub(crate) fn propose_prices(duals: &Duals, dates: u16, scale: u64, prices: &mut Prices)
    requires scale { scale ≤ PRICE_SCALE }
    requires dates { length prices.old ≡ dates }
    ensures every_date { length prices.new ≡ dates }
    ensures range { All (λ price. price ≤ 2 * PRICE_SCALE) prices.new }
    ensures falling { AllPairs (λ earlier later. later ≤ earlier) prices.new }
{
    let mut price = 2 * PRICE_SCALE;
    for place in 0..dates {
        let number = duals.price(usize::from(place) + 1).unwrap_or(Price::zero());
        price = proposed(number, scale, price);
        prices.put(place, price);
    }
}
