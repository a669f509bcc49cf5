//! Flows by their index, and what they are worth at a yield.

ghost use Rattle.std.specs.Prelude.{◌≡◌, ◌+◌, ◌<◌, ◌≤◌, ◌^◌, IfOk};
ghost use Rattle.std.specs.List.{All};
ghost use Rattle.escrow_units.specs.PresentValue.{IndexedFlow, last_index};
ghost use Rattle.escrow_units.specs.Flows.{indexed, FallWithinFortyYears};
ghost use Rattle.fixed_powers.specs.PresentValues.{total_cents, present_value};

use escrow_desk::NoMemory;
use escrow_units::{
    Cents, Day, FLOWS_LIMIT, Flow, GREATEST_INDEX, GREATEST_YIELD, IndexStart, YieldUnits,
};
use fixed_powers::{ONE, Powers, Side, about_product, about_root};
use std::alloc::{AllocError, Global};
use std::marker::Model;

// An amount by its index, which counts from settlement.
#[derive(Clone, Copy)]
pub(crate) struct IndexedAmount {
    index: u32,
    cents: Cents,
}

impl Model for IndexedAmount {
    ghost use Rattle.std.specs.Prelude.{◌≤◌};
    ghost use Rattle.escrow_units.specs.PresentValue.{IndexedFlow};

    ghost Value = { IndexedFlow };

    ghost view = { λ a. record { index = a.index; cents = a.cents.0 } };

    ghost inverse = { λ flow. record { index = flow.index; cents = record { 0 = flow.cents } } };
}

// Flows by their index, and the greatest index that a table of powers needs.
#[derive(Drop)]
pub(crate) struct Timeline {
    amounts: Vec<IndexedAmount>,
    longest: u32,
}

impl Model for Timeline {
    ghost use Rattle.escrow_units.specs.declared.limits.TheConstants.{GREATEST_INDEX};
    ghost use Rattle.std.specs.Prelude.{◌≤◌, List};
    ghost use Rattle.std.specs.List.{All};
    ghost use Rattle.escrow_units.specs.PresentValue.{IndexedFlow};

    ghost Value = { List IndexedFlow };

    ghost view = { λ t. t.amounts.items };

    ghost invariant = { λ t. All (λ flow. flow.index ≤ t.longest) t.amounts.items × (t.longest ≤ GREATEST_INDEX) };
}

// What flows are worth at a yield, roughly, in units of 2^-62 of a cent. It shows which yields to try, and nothing rests on it.
#[derive(Clone, Copy)]
pub(crate) struct AboutWorth {
    pub(crate) value: u128,
    // the worth of each amount times its index
    pub(crate) by_index: u128,
}

// What amounts are worth by a table of powers.
fn worth(amounts: &[IndexedAmount], powers: &Powers) -> u128
    requires indices { All (λ flow. flow.index ≤ powers.now.longest) amounts.now }
    requires room { present_value powers.now.side powers.now.yield_units amounts.now < 2 ^ 128 }
    ensures { result ≡ present_value powers.now.side powers.now.yield_units amounts.now }
{
    let mut total = 0;
    for amount in amounts {
        total += amount.cents.0 as u128 * powers.power(amount.index) as u128;
    }
    total
}

// The powers of a factor from 0 to 127, roughly.
fn about_powers(factor: u64) -> [u64; 128] {
    let mut powers = [ONE; 128];
    for place in 1..128usize {
        powers[place] = about_product(powers[place - 1], factor);
    }
    powers
}

impl Timeline {
    // Flows by their index: it takes memory for one amount a flow.
    pub(crate) fn make(alloc: Global, settle: Day, flows: &[Flow]) -> Result<Timeline, NoMemory>
        requires { FallWithinFortyYears settle flows.now }
        ensures value { IfOk result (λ timeline. timeline ≡ indexed settle flows.now) }
        ensures near { IfOk result (λ timeline. last_index timeline ≤ GREATEST_INDEX) }
    {
        let mut amounts = Vec::with_capacity(alloc, flows.len())?;
        let mut longest = 0;
        let start = IndexStart::new(settle);
        for flow in flows {
            let index = start.index(flow.day);
            amounts.push(IndexedAmount {
                index,
                cents: flow.cents,
            })?;
            longest = longest.max(index);
        }
        Ok(Timeline { amounts, longest })
    }

    // What the flows come to undiscounted.
    pub(crate) fn about_total(&self) -> AboutWorth {
        let mut value = 0u128;
        let mut by_index = 0u128;
        for amount in &self.amounts {
            let cents = u128::from(amount.cents.0);
            value = value.wrapping_add(cents);
            by_index = by_index.wrapping_add(cents.wrapping_mul(u128::from(amount.index)));
        }
        AboutWorth {
            value: value << 62,
            by_index: by_index << 62,
        }
    }

    // What the flows are worth at a yield, roughly: each power is the product of two of 128.
    pub(crate) fn about_worth(&self, n: u64) -> AboutWorth {
        let factor = about_root(n.min(GREATEST_YIELD));
        let near = about_powers(factor);
        let far = about_powers(about_product(near[127], factor));
        let mut value = 0u128;
        let mut by_index = 0u128;
        for amount in &self.amounts {
            let place = amount.index as usize;
            let power = about_product(near[place % 128], far[place / 128 % 128]);
            let worth = u128::from(amount.cents.0).wrapping_mul(u128::from(power));
            value = value.wrapping_add(worth);
            by_index = by_index.wrapping_add(worth.wrapping_mul(u128::from(amount.index)));
        }
        AboutWorth { value, by_index }
    }

    // The present value at a yield, rounded to a side, in units of 2^-62 of a cent.
    pub(crate) fn present_value(
        &self,
        alloc: Global,
        n: YieldUnits,
        side: Side,
    ) -> Result<u128, NoMemory>
        requires yield_units { n.0 ≤ GREATEST_YIELD + 1 }
        requires cents { total_cents self.now ≤ FLOWS_LIMIT }
        ensures { IfOk result (λ value. value ≡ present_value side n.0 self.now) }
    {
        let powers = Powers::make(alloc, n, side, self.longest)?;
        Ok(worth(&self.amounts, &powers))
    }
}
