//! Numbers in fixed point: prices, and amounts.
ghost use Rattle.std.specs.Prelude.{IfSome, ◌≡◌, ◌+◌, ◌*◌, ◌^◌, ◌≤◌, unsigned_abs};

use std::marker::Model;

/// How many binary places a price has.
pub const PRICE_PLACES: u32 = 40;

/// How many binary places an amount has, in cents.
pub const AMOUNT_PLACES: u32 = 10;

// What stands for one, as a price.
const ONE: i64 = 1 << PRICE_PLACES;

// The greatest number on both sides.
const GREATEST: i64 = 1 << 58;

// The greatest dividend of a ratio: far more than any coefficient.
const GREATEST_DIVIDEND: u128 = 1 << 80;

/// The least pivot that is divided by, in units of 2^-40.
pub const PIVOT_TOLERANCE: u64 = 1 << 8;

/// What a cent costs, pays or is worth: a price, a coefficient of a line, or a multiplier, in units of 2^-40, from -2^58 to 2^58.
/// What would be greater is clamped; then the proposal is poor, and no more.
#[derive(Clone, Copy)]
pub struct Price {
    value: i64,
}

/// How much of a line is bought, or how much cash is carried: in units of 2^-10 of a cent, from -2^58 to 2^58. What would be
/// greater is clamped.
#[derive(Clone, Copy)]
pub struct Amount {
    value: i64,
}

impl Model for Price {
    ghost use Rattle.std.specs.Prelude.{ℤ, ◌^◌, ◌≤◌, unsigned_abs};

    ghost Value = { ℤ };

    ghost view = { λ f. f.value };

    ghost invariant = { λ f. unsigned_abs f.value ≤ 2 ^ 58 };

    ghost inverse = { λ v. record { value = v } };
}

impl Model for Amount {
    ghost use Rattle.std.specs.Prelude.{ℤ, ◌^◌, ◌≤◌, unsigned_abs};

    ghost Value = { ℤ };

    ghost view = { λ f. f.value };

    ghost invariant = { λ f. unsigned_abs f.value ≤ 2 ^ 58 };

    ghost inverse = { λ v. record { value = v } };
}

// The nearest number that is kept.
fn clamped(value: i128) -> i64
    ensures { unsigned_abs result ≤ 2 ^ 58 }
{
    value.clamp(-i128::from(GREATEST), i128::from(GREATEST)) as i64
}

// The nearest number that is kept of a quotient; None where the divisor is too near to 0.
fn divided(dividend: i128, divisor: i64) -> Option<i64>
    requires { unsigned_abs dividend ≤ 2 ^ 126 }
    ensures { IfSome result (λ value. unsigned_abs value ≤ 2 ^ 58) }
{
    if divisor.unsigned_abs() < PIVOT_TOLERANCE {
        return None;
    }
    Some(clamped(dividend / i128::from(divisor)))
}

// A ratio in units of 2^-40, of a dividend with something added to it, rounded down.
fn ratio(dividend: u128, more: u128, divisor: u128) -> Price
    requires some { 1 ≤ divisor }
    requires small { divisor ≤ 2 ^ 64 }
    requires more { more ≤ 2 ^ 64 }
{
    let places = dividend.min(GREATEST_DIVIDEND) * (ONE as u128);
    Price::clamp(((places + more) / divisor) as i128)
}

impl Price {
    /// Nothing.
    pub fn zero() -> Price {
        Price { value: 0 }
    }

    /// One.
    pub fn one() -> Price {
        Price { value: ONE }
    }

    /// A whole number.
    pub fn whole(number: u16) -> Price {
        Price::clamp(i128::from(number) << PRICE_PLACES)
    }

    /// The nearest price that is kept, in units of 2^-40.
    pub fn clamp(value: i128) -> Price {
        Price {
            value: clamped(value),
        }
    }

    /// A price from one with 40 more places, rounded down.
    pub fn narrowed(wide: i128) -> Price {
        Price::clamp(wide >> PRICE_PLACES)
    }

    /// A ratio, rounded down.
    pub fn ratio_down(dividend: u128, divisor: u128) -> Price
        requires some { 1 ≤ divisor }
        requires small { divisor ≤ 2 ^ 64 }
    {
        ratio(dividend, 0, divisor)
    }

    /// A ratio, rounded up.
    pub fn ratio_up(dividend: u128, divisor: u128) -> Price
        requires some { 1 ≤ divisor }
        requires small { divisor ≤ 2 ^ 64 }
    {
        ratio(dividend, divisor - 1, divisor)
    }

    /// The units of it, with room to add up to 2^68 of their kind.
    pub fn wide(self) -> i128
        ensures value { result ≡ self }
        ensures size { unsigned_abs result ≤ 2 ^ 58 }
    {
        i128::from(self.value)
    }

    /// The units of it.
    pub fn get(self) -> i64
        ensures value { result ≡ self }
        ensures size { unsigned_abs result ≤ 2 ^ 58 }
    {
        self.value
    }

    /// Whether it is nothing.
    pub fn is_zero(self) -> bool {
        self.value == 0
    }

    /// How far it is from nothing, in units of 2^-40.
    pub fn size(self) -> u64 {
        self.value.unsigned_abs()
    }

    /// The price with the other sign.
    pub fn negated(self) -> Price {
        Price { value: -self.value }
    }

    /// The sum.
    pub fn plus(self, other: Price) -> Price {
        Price::clamp(self.wide() + other.wide())
    }

    /// The difference.
    pub fn minus(self, other: Price) -> Price {
        Price::clamp(self.wide() - other.wide())
    }

    /// The price with 40 more places.
    pub fn widened(self) -> i128
        ensures { unsigned_abs result ≤ 2 ^ 98 }
    {
        self.wide() * i128::from(ONE)
    }

    /// The price less one with 40 more places.
    pub fn less_wide(self, taken: i128) -> Price
        requires { unsigned_abs taken ≤ 2 ^ 126 }
    {
        Price::clamp(self.wide() - (taken >> PRICE_PLACES))
    }

    /// The price less a product.
    pub fn less_product(self, factor: Price, times: Price) -> Price {
        Price::clamp(self.wide() - (times.times(factor) >> PRICE_PLACES))
    }

    /// The product, with twice as many places.
    pub fn times(self, other: Price) -> i128
        ensures { unsigned_abs result ≤ 2 ^ 116 }
    {
        i128::from(self.value) * i128::from(other.value)
    }

    /// The product with an amount: in units of 2^-50 of a cent.
    pub fn times_amount(self, amount: Amount) -> i128
        ensures { unsigned_abs result ≤ 2 ^ 116 }
    {
        i128::from(self.value) * i128::from(amount.value)
    }

    /// A price of twice as many places, divided; None where the divisor is too near to 0.
    pub fn quotient(dividend: i128, divisor: Price) -> Option<Price>
        requires { unsigned_abs dividend ≤ 2 ^ 126 }
    {
        let value = divided(dividend, divisor.value)?;
        Some(Price { value })
    }
}

impl Amount {
    /// Nothing.
    pub fn zero() -> Amount {
        Amount { value: 0 }
    }

    /// The nearest amount that is kept, in units of 2^-10 of a cent.
    pub fn clamp(value: i128) -> Amount {
        Amount {
            value: clamped(value),
        }
    }

    /// The units of it, with room to add up to 2^68 of their kind.
    pub fn wide(self) -> i128
        ensures value { result ≡ self }
        ensures size { unsigned_abs result ≤ 2 ^ 58 }
    {
        i128::from(self.value)
    }

    /// The units of it.
    pub fn get(self) -> i64
        ensures value { result ≡ self }
        ensures size { unsigned_abs result ≤ 2 ^ 58 }
    {
        self.value
    }

    /// Whether it is nothing.
    pub fn is_zero(self) -> bool {
        self.value == 0
    }

    /// The amount with the other sign.
    pub fn negated(self) -> Amount {
        Amount { value: -self.value }
    }

    /// The difference.
    pub fn minus(self, other: Amount) -> Amount {
        Amount::clamp(self.wide() - other.wide())
    }

    /// The amount less what another one pays by a coefficient.
    pub fn less_paid(self, coefficient: Price, amount: Amount) -> Amount {
        Amount::clamp(self.wide() - (coefficient.times_amount(amount) >> PRICE_PLACES))
    }

    /// The amount of which a coefficient makes this one; None where the coefficient is too near to 0.
    pub fn over(self, coefficient: Price) -> Option<Amount> {
        let value = divided(self.wide() * i128::from(ONE), coefficient.value)?;
        Some(Amount { value })
    }
}
