//! The factor of one index day: tried at a guess and beside it, or else by bisection.

ghost use Rattle.std.specs.Prelude.{◌≡◌, ◌<◌, ◌≤◌, ◌+◌, ◌*◌, ◌^◌, ◌↔◌, IsTrue};
ghost use Rattle.escrow_units.specs.PresentValue.{half_year, two_hundred_percent};
ghost use Rattle.fixed_powers.specs.DiscountPowers.{one, down, up, root_low, root_high, IsRootLow, IsRootHigh, IsAtMostPower, IsAtLeastPower};

use crate::chain::{ONE, power_down, power_up};
use escrow_units::{GREATEST_YIELD, YieldUnits};

// The days of a half-year, by the 30/360 index.
const HALF_YEAR: u32 = 180;

// 200 percent of a yield: 2 * 10^10 units.
const TWO_HUNDRED_PERCENT: u64 = 20_000_000_000;

// Whether the half-year's power of a factor, rounded up, is at most the half-year's discount factor.
fn is_low_enough(factor: u64, units: u64) -> bool
    requires factor { factor ≤ one }
    requires units { units ≤ GREATEST_YIELD + 1 }
    ensures { IsTrue result ↔ (up factor half_year * (two_hundred_percent + units) ≤ one * two_hundred_percent) }
{
    power_up(factor, HALF_YEAR) as u128 * (TWO_HUNDRED_PERCENT + units) as u128
        <= ONE as u128 * TWO_HUNDRED_PERCENT as u128
}

// Whether the half-year's power of a factor, rounded down, is at least the half-year's discount factor.
fn is_high_enough(factor: u64, units: u64) -> bool
    requires factor { factor ≤ one }
    requires units { units ≤ GREATEST_YIELD + 1 }
    ensures { IsTrue result ↔ (one * two_hundred_percent ≤ down factor half_year * (two_hundred_percent + units)) }
{
    power_down(factor, HALF_YEAR) as u128 * (TWO_HUNDRED_PERCENT + units) as u128
        >= ONE as u128 * TWO_HUNDRED_PERCENT as u128
}

/// The product of two numbers of 62 fraction bits, roughly, and at most one. Nothing rests on it.
pub fn about_product(first: u64, second: u64) -> u64 {
    ((first as u128 * second as u128) >> 62).min(ONE as u128) as u64
}

// The power of a half-year, roughly, by squares.
fn about_half_year(factor: u64) -> u64 {
    let second = about_product(factor, factor);
    let fourth = about_product(second, second);
    let eighth = about_product(fourth, fourth);
    let sixteenth = about_product(eighth, eighth);
    let thirty_second = about_product(sixteenth, sixteenth);
    let sixty_fourth = about_product(thirty_second, thirty_second);
    let most_days = about_product(about_product(sixty_fourth, sixty_fourth), thirty_second);
    about_product(most_days, about_product(sixteenth, fourth))
}

/// About the factor of one index day at a yield of at most 3,000,000,001 units, as a number of 62 fraction bits: by a few steps of
/// Newton's method down from one. It shows where to try first, and nothing rests on it.
pub fn about_root(units: u64) -> u64
    requires { units ≤ GREATEST_YIELD + 1 }
{
    let half_year = ONE as u128 * TWO_HUNDRED_PERCENT as u128
        / (TWO_HUNDRED_PERCENT + units) as u128;
    let mut root = ONE;
    for _ in 0..8 {
        let power = about_half_year(root) as u128;
        if power <= half_year {
            break;
        }
        let step = (power - half_year) * root as u128 / (HALF_YEAR as u128 * power);
        root -= step.min(root as u128) as u64;
        if step < 4 {
            break;
        }
    }
    root
}

// Where to try next, from one number to another: as near a guess as may be, and halfway once that was done sixteen times.
fn next_try(tries: u32, guess: u64, least: u64, most: u64) -> u64
    requires { least ≤ most }
    ensures above { least ≤ result }
    ensures within { result ≤ most }
{
    if tries < 16 {
        guess.max(least).min(most)
    } else {
        most - (most - least) / 2
    }
}

/// The factor of one index day at a yield of at most 3,000,000,001 units, rounded down: the greatest number of 62
/// fraction bits, up to one, whose power of a half-year, rounded up, is at most the half-year's discount factor.
pub fn root_low(n: YieldUnits) -> u64
    requires { n.0 ≤ GREATEST_YIELD + 1 }
    ensures value { result ≡ root_low n.0 }
    ensures greatest { IsRootLow n.0 result }
    ensures encloses { IsAtMostPower n.0 1 result }
{
    // A smaller factor has smaller powers, so all factors up to the greatest are low enough, and none above it is.
    // To round up 180 times takes about two units off the factor.
    let guess = about_root(n.0).saturating_sub(2);
    let mut tries = 0u32;
    let mut enough = 0;
    let mut most = ONE;
    while enough < most {
        let middle = next_try(tries, guess, enough + 1, most);
        tries = tries.saturating_add(1);
        if is_low_enough(middle, n.0) {
            enough = middle;
        } else {
            most = middle - 1;
        }
    }
    enough
}

/// The factor of one index day at a yield of at most 3,000,000,001 units, rounded up: the least number of 62 fraction
/// bits whose power of a half-year, rounded down, is at least the half-year's discount factor.
pub fn root_high(n: YieldUnits) -> u64
    requires { n.0 ≤ GREATEST_YIELD + 1 }
    ensures value { result ≡ root_high n.0 }
    ensures least { IsRootHigh n.0 result }
    ensures encloses { IsAtLeastPower n.0 1 result }
{
    // A greater factor has greater powers, so all factors from the least on are high enough, and none below it is.
    let guess = about_root(n.0);
    let mut tries = 0u32;
    let mut least = 0;
    let mut enough = ONE;
    while least < enough {
        let middle = next_try(tries, guess, least, enough - 1);
        tries = tries.saturating_add(1);
        if is_high_enough(middle, n.0) {
            enough = middle;
        } else {
            least = middle + 1;
        }
    }
    enough
}
