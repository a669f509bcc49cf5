//! Tables of powers.

ghost use Rattle.std.specs.Prelude.{◌≡◌, ◌<◌, ◌≤◌, ◌+◌, ◌-◌, ◌^◌, ℕ, IfOk, slice_index, vec_len};
ghost use Rattle.fixed_powers.specs.DiscountPowers.{one, down, up, chain, root_of, power_of, PowerTable, ArePowers, LiesOutward};

use crate::chain::{ONE, step_down, step_up};
use crate::root::{root_high, root_low};
use crate::side::Side;
use escrow_desk::NoMemory;
use escrow_units::{GREATEST_INDEX, GREATEST_YIELD, YieldUnits};
use std::alloc::{AllocError, Global};
use std::marker::Model;

/// The discount factors of 0 to `longest` index days at one yield, rounded to one side.
#[derive(Drop)]
pub struct Powers {
    n: YieldUnits,
    side: Side,
    table: Vec<u64>,
}

impl Model for Powers {
    ghost Value = { PowerTable };

    ghost view = { λ p. record { yield_units = p.n.0; side = p.side; longest = vec_len p.table - 1 } };

    ghost invariant = { λ p. (0 < vec_len p.table) × ArePowers p.side p.n.0 p.table.items };
}

// The factor of one index day.
fn root(n: YieldUnits, side: Side) -> u64
    requires { n.0 ≤ GREATEST_YIELD + 1 }
    ensures value { result ≡ root_of side n.0 }
    ensures within { result ≤ one }
{
    match side {
        Side::Low => root_low(n),
        Side::High => root_high(n),
    }
}

// The powers of a factor from 0 to the longest, each from the one before it, rounded down.
#[tactic(auto, unfolding(crate::specs::DiscountPowers::down))]
fn lows_of(alloc: Global, factor: u64, longest: u32) -> Result<Vec<u64>, AllocError>
    requires { factor ≤ one }
    ensures count { IfOk result (λ v. vec_len v ≡ longest + 1) }
    ensures values { IfOk result (λ v. (d : ℕ) → d ≤ longest → slice_index v.items d ≡ down factor d) }
{
    let mut table = Vec::with_capacity(alloc, longest as usize + 1)?;
    let mut power = ONE;
    table.push_reserved(power);
    for _ in 0..longest {
        power = step_down(power, factor);
        table.push_reserved(power);
    }
    Ok(table)
}

// The same, rounded up.
#[tactic(auto, unfolding(crate::specs::DiscountPowers::up))]
fn highs_of(alloc: Global, factor: u64, longest: u32) -> Result<Vec<u64>, AllocError>
    requires { factor ≤ one }
    ensures count { IfOk result (λ v. vec_len v ≡ longest + 1) }
    ensures values { IfOk result (λ v. (d : ℕ) → d ≤ longest → slice_index v.items d ≡ up factor d) }
{
    let mut table = Vec::with_capacity(alloc, longest as usize + 1)?;
    let mut power = ONE;
    table.push_reserved(power);
    for _ in 0..longest {
        power = step_up(power, factor);
        table.push_reserved(power);
    }
    Ok(table)
}

// The powers of a factor from 0 to the longest, rounded to a side.
fn powers_of(alloc: Global, factor: u64, side: Side, longest: u32) -> Result<Vec<u64>, AllocError>
    requires { factor ≤ one }
    ensures count { IfOk result (λ v. vec_len v ≡ longest + 1) }
    ensures values { IfOk result (λ v. (d : ℕ) → d ≤ longest → slice_index v.items d ≡ chain side factor d) }
{
    match side {
        Side::Low => lows_of(alloc, factor, longest),
        Side::High => highs_of(alloc, factor, longest),
    }
}

impl Powers {
    /// The powers of a yield of at most 3,000,000,001 units, from 0 to `longest` index days, at most 14,400.
    ///
    /// The root is found once, and each power by one multiplication. It takes memory for the table alone.
    ///
    /// # Errors
    ///
    /// `NoMemory` where there is no room for the table.
    #[tactic(auto, using(crate::proofs::PowerFacts::chain_facts))]
    pub fn make(alloc: Global, n: YieldUnits, side: Side, longest: u32) -> Result<Powers, NoMemory>
        requires yield_units { n.0 ≤ GREATEST_YIELD + 1 }
        requires longest { longest ≤ GREATEST_INDEX }
        ensures table { IfOk result (λ powers. powers ≡ record { yield_units = n.0; side = side; longest = longest }) }
        // Each power that the table has encloses the exact one.
        ensures encloses { IfOk result (λ powers. (d : ℕ) → d ≤ powers.longest → LiesOutward side n.0 d (power_of side n.0 d)) }
    {
        match powers_of(alloc, root(n, side), side, longest) {
            Ok(table) => Ok(Powers { n, side, table }),
            Err(_) => Err(NoMemory),
        }
    }

    /// The yield, in units of 10^-10.
    pub fn yield_units(&self) -> YieldUnits
        ensures { result.0 ≡ self.now.yield_units }
    {
        self.n
    }

    /// The discount factor of `d` index days, at most the table's `longest`, rounded to the table's side: a number from
    /// 0 to 2^62, which stands for one. It is a look-up, and takes no memory.
    pub fn power(&self, d: u32) -> u64
        requires { d ≤ self.now.longest }
        ensures value { result ≡ power_of self.now.side self.now.yield_units d }
        ensures encloses { LiesOutward self.now.side self.now.yield_units d result }
        ensures within { result ≤ one }
    {
        self.table[d as usize]
    }
}
