//! A limit on the yield, with the table by which portfolios are held against it.
ghost use Rattle.std.specs.Prelude.{◌≡◌, ◌+◌, ◌≤◌, IfOk};
ghost use Rattle.fixed_powers.specs.DiscountPowers.{IsLowTable, PowerTable};

use escrow_desk::NoMemory;
use escrow_units::{GREATEST_INDEX, GREATEST_YIELD, YieldUnits};
use fixed_powers::{Powers, Side};
use std::alloc::Global;
use std::marker::Model;

/// A limit on the yield, and the powers of one unit below it, of the low side and for forty years: what is worth at most its cost by
/// these is within the limit. The table is made once for a search. Contracts see the limit, in units of 10^-10.
#[derive(Drop)]
pub struct YieldLimit {
    units: YieldUnits,
    powers: Powers,
}

impl Model for YieldLimit {
    ghost use Rattle.std.specs.Prelude.{◌≡◌, ◌+◌, ◌≤◌, ℕ};
    ghost use Rattle.escrow_units.specs.declared.limits.TheConstants.{GREATEST_YIELD};
    ghost use Rattle.fixed_powers.specs.DiscountPowers.{IsLowTable};

    ghost Value = { ℕ };

    ghost view = { λ l. l.units.0 };

    ghost invariant = { λ l. IsLowTable l.powers × (l.powers.yield_units + 1 ≡ l.units.0) × (l.units.0 ≤ GREATEST_YIELD) };
}

impl YieldLimit {
    /// A limit, from 1 to 3,000,000,000 units of 10^-10, with its table.
    ///
    /// # Errors
    ///
    /// Where memory ran out.
    #[inline(never)]
    pub fn make(alloc: Global, units: YieldUnits) -> Result<YieldLimit, NoMemory>
        requires from { 1 ≤ units.0 }
        requires to { units.0 ≤ GREATEST_YIELD }
        ensures { IfOk result (λ limit. limit ≡ units.0) }
    {
        let powers = Powers::make(alloc, YieldUnits(units.0 - 1), Side::Low, GREATEST_INDEX)?;
        Ok(YieldLimit { units, powers })
    }

    /// The limit, in units of 10^-10.
    pub fn units(&self) -> YieldUnits
        ensures value { result.0 ≡ self.now }
        ensures from { 1 ≤ result.0 }
        ensures to { result.0 ≤ GREATEST_YIELD }
    {
        self.units
    }

    /// The powers of one unit below the limit.
    pub fn powers(&self) -> &Powers
        ensures table { IsLowTable result.now }
        ensures below { result.now.yield_units + 1 ≡ self.now }
    {
        &self.powers
    }
}
