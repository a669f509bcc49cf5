//! Sums of what amounts cost, pay or are worth.
ghost use Rattle.std.specs.Prelude.{◌≡◌, ◌+◌, ◌*◌, ◌^◌, ◌<◌, ◌≤◌, unsigned_abs};

use crate::number::{AMOUNT_PLACES, Amount, PRICE_PLACES, Price};
use std::marker::Model;

/// How many binary places a total has, in cents.
pub const TOTAL_PLACES: u32 = PRICE_PLACES + AMOUNT_PLACES;

// How many binary places an excess has, in cents.
const EXCESS_PLACES: u32 = 62;

// The greatest total on both sides.
const GREATEST: i128 = 1 << 120;

// The greatest total on both sides that is multiplied as it stands.
const GREATEST_FACTOR: i128 = 1 << 104;

/// A sum of products of a price and an amount, in units of 2^-50 of a cent. What would be beyond 2^120 is clamped, which no sum of
/// a permitted case comes near to.
#[derive(Clone, Copy)]
pub struct Total {
    value: i128,
}

impl Model for Total {
    ghost use Rattle.std.specs.Prelude.{ℤ, ◌^◌, ◌≤◌, unsigned_abs};

    ghost Value = { ℤ };

    ghost view = { λ t. t.value };

    ghost invariant = { λ t. unsigned_abs t.value ≤ 2 ^ 120 };

    ghost inverse = { λ v. record { value = v } };
}

impl Total {
    /// Nothing.
    pub fn zero() -> Total {
        Total { value: 0 }
    }

    /// The nearest total that is kept.
    pub fn clamp(value: i128) -> Total {
        if value >= GREATEST {
            Total { value: GREATEST }
        } else if value < -GREATEST {
            Total { value: -GREATEST }
        } else {
            Total { value }
        }
    }

    /// An amount, times one.
    pub fn of(amount: Amount) -> Total {
        Total::clamp(amount.wide() << PRICE_PLACES)
    }

    /// Cents, times one.
    pub fn of_cents(cents: u64) -> Total {
        Total::clamp(i128::from(cents) << TOTAL_PLACES)
    }

    /// An excess in units of 2^-62 of a cent.
    pub fn of_excess(excess: i128) -> Total {
        Total::clamp(excess >> (EXCESS_PLACES - TOTAL_PLACES))
    }

    /// With what an amount comes to at a price.
    pub fn with(self, price: Price, amount: Amount) -> Total {
        Total::clamp(self.value + price.times_amount(amount))
    }

    /// Without what an amount comes to at a price.
    pub fn without(self, price: Price, amount: Amount) -> Total {
        Total::clamp(self.value - price.times_amount(amount))
    }

    /// With another total.
    pub fn plus(self, other: Total) -> Total {
        Total::clamp(self.value + other.value)
    }

    /// Without another total.
    pub fn minus(self, other: Total) -> Total {
        Total::clamp(self.value - other.value)
    }

    /// So many times.
    pub fn times(self, factor: u16) -> Total {
        if self.value > GREATEST_FACTOR {
            Total { value: GREATEST }
        } else if self.value < -GREATEST_FACTOR {
            Total { value: -GREATEST }
        } else {
            Total::clamp(self.value * i128::from(factor))
        }
    }

    /// The total as an amount, rounded down.
    pub fn rounded(self) -> Amount {
        Amount::clamp(self.value >> PRICE_PLACES)
    }

    /// Whether it is more than nothing.
    pub fn is_positive(self) -> bool {
        0 < self.value
    }

    /// The total, in units of 2^-50 of a cent.
    pub fn wide(self) -> i128
        ensures value { result ≡ self }
        ensures size { unsigned_abs result ≤ 2 ^ 120 }
    {
        self.value
    }
}
