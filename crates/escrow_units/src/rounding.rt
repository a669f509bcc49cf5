//! Rounding to the nearest whole number.
ghost use Rattle.std.specs.Prelude.{◌≡◌, ◌<◌, ◌+◌, ◌*◌, ◌^◌};
ghost use Rattle.escrow_units.specs.Rounding.{near, IsNearest};

/// The whole number nearest to `a / b`, halves up.
///
/// Every amount in cents is rounded so; the rule is this project's own.
pub fn near(a: u128, b: u128) -> u128
    requires above { 0 < b }
    requires fits { 2 * a + b < 2 ^ 128 }
    ensures value { result ≡ near a b }
    ensures nearest { IsNearest a b result }
{
    (2 * a + b) / 2 / b
}
