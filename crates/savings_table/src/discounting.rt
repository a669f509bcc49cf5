//! Present values between two whole numbers of cents.
ghost use Rattle.std.specs.Prelude.{◌≡◌, ◌*◌, ◌/◌, ◌≤◌, IfOk};
ghost use Rattle.std.specs.Int.{div_ceil};
ghost use Rattle.escrow_units.specs.Flows.{FallWithinFortyYears, indexed, total};
ghost use Rattle.fixed_powers.specs.DiscountPowers.{one};
ghost use Rattle.fixed_powers.specs.PresentValues.{present_value};
ghost use Rattle.savings_table.specs.PresentRange.{LiesInRange, present_range};

use crate::limits::SERVICE_LIMIT;
use escrow_desk::NoMemory;
use escrow_units::{Day, Flow, GREATEST_INDEX, GREATEST_YIELD, YieldUnits, index360};
use fixed_powers::{ONE, Powers, Side};
use std::alloc::Global;
use std::marker::Model;

/// Two whole numbers of cents between which a present value lies.
#[derive(Clone, Copy, Debug, PartialEq, Eq)]
pub struct PvRange {
    /// It is at least this.
    pub lo: u64,
    /// And at most this.
    pub hi: u64,
}

// The discount factors of 40 years at one yield, rounded to each side. Contracts see the yield.
#[derive(Drop)]
pub(crate) struct Discounts {
    low: Powers,
    high: Powers,
}

impl Model for Discounts {
    ghost use Rattle.std.specs.Prelude.{◌≡◌, ℕ};
    ghost use Rattle.escrow_units.specs.declared.limits.TheConstants.{GREATEST_INDEX};
    ghost use Rattle.fixed_powers.specs.declared.side.Side.TheVariants.{High, Low};

    ghost Value = { ℕ };

    ghost view = { λ d. d.low.yield_units };

    ghost invariant = { λ d. (d.low ≡ record { yield_units = d.low.yield_units; side = Low; longest = GREATEST_INDEX }) × (d.high ≡ record { yield_units = d.low.yield_units; side = High; longest = GREATEST_INDEX }) };
}

// What flows are worth by a table of powers, in units of 2^-62 of a cent.
fn worth(settle: Day, powers: &Powers, flows: &[Flow]) -> u128
    requires longest { GREATEST_INDEX ≤ powers.now.longest }
    requires days { FallWithinFortyYears settle flows.now }
    requires cents { total flows.now ≤ SERVICE_LIMIT }
    ensures value { result ≡ present_value powers.now.side powers.now.yield_units (indexed settle flows.now) }
    ensures most { result ≤ one * SERVICE_LIMIT }
{
    let mut total = 0;
    for flow in flows {
        total += flow.cents.0 as u128 * powers.power(index360(settle, flow.day)) as u128;
    }
    total
}

// What flows are worth, in whole cents, rounded down.
fn cents_down(worth: u128) -> u64
    requires { worth ≤ one * SERVICE_LIMIT }
    ensures { result ≡ worth / one }
{
    (worth / u128::from(ONE)) as u64
}

// What flows are worth, in whole cents, rounded up.
fn cents_up(worth: u128) -> u64
    requires { worth ≤ one * SERVICE_LIMIT }
    ensures { result ≡ div_ceil worth one }
{
    worth.div_ceil(u128::from(ONE)) as u64
}

impl Discounts {
    // The discount factors at a yield: a table a side.
    pub(crate) fn make(alloc: Global, n: YieldUnits) -> Result<Discounts, NoMemory>
        requires { n.0 ≤ GREATEST_YIELD }
        ensures { IfOk result (λ discounts. discounts ≡ n.0) }
    {
        Ok(Discounts {
            low: Powers::make(alloc, n, Side::Low, GREATEST_INDEX)?,
            high: Powers::make(alloc, n, Side::High, GREATEST_INDEX)?,
        })
    }

    // Between which cents the present value of flows lies.
    pub(crate) fn range(&self, settle: Day, flows: &[Flow]) -> PvRange
        requires days { FallWithinFortyYears settle flows.now }
        requires cents { total flows.now ≤ SERVICE_LIMIT }
        ensures value { result ≡ present_range settle self.now flows.now }
        ensures exact { LiesInRange self.now (indexed settle flows.now) result }
    {
        PvRange {
            lo: cents_down(worth(settle, &self.low, flows)),
            hi: cents_up(worth(settle, &self.high, flows)),
        }
    }
}

/// Between which cents the present value of flows lies at a yield `n`, in units of 10^-10.
///
/// The flows fall from settlement to 40 years after it, in any order and with as many on a day as there are, and come to at most
/// 2 * 10^15 cents. The yield is at most 3,000,000,000 units, which are 30 percent. The ends are the present values by discount
/// factors of 62 binary places that are rounded down and up, themselves rounded outward to whole cents. It takes memory for two
/// tables of powers.
///
/// # Errors
///
/// `NoMemory` where there is no room for the tables.
pub fn present(
    alloc: Global,
    settle: Day,
    n: YieldUnits,
    flows: &[Flow],
) -> Result<PvRange, NoMemory>
    requires yield_units { n.0 ≤ GREATEST_YIELD }
    requires days { FallWithinFortyYears settle flows.now }
    requires cents { total flows.now ≤ SERVICE_LIMIT }
    ensures value { IfOk result (λ range. range ≡ present_range settle n.0 flows.now) }
    ensures exact { IfOk result (λ range. LiesInRange n.0 (indexed settle flows.now) range) }
{
    Ok(Discounts::make(alloc, n)?.range(settle, flows))
}
