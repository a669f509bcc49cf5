//! The days on which securities may be bought.
ghost use Rattle.std.specs.Prelude.{◌≡◌, ◌↔◌, IsTrue};
ghost use Rattle.escrow_units.specs.SlgsTerms.{IsSettlement, is_settlement as is_settlement_day};

use crate::day::Day;

// 2000-01-01.
const FIRST_SETTLEMENT: i32 = 10_957;

// 2150-01-01.
const LAST_SETTLEMENT: i32 = 65_744;

/// Whether securities may be bought on a day: from 2000-01-01 to 2150-01-01 (this project's own).
pub fn is_settlement(day: Day) -> bool
    ensures value { result ≡ is_settlement_day day }
    ensures within { IsTrue result ↔ IsSettlement day }
{
    Day::new(FIRST_SETTLEMENT) <= day && day <= Day::new(LAST_SETTLEMENT)
}
