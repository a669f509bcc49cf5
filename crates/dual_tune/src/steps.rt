//! The steps of a leaf.
ghost use Rattle.std.specs.Prelude.{◌≡◌, ◌<◌, ◌≤◌, ◌*◌, length, slice_index, slice_index_or};
ghost use Rattle.dual_tune.specs.Steps.{price_after as price_after_of, price_before as price_before_of, mu_of_multiplier, price_beside as price_beside_of};

use proof_tree::PRICE_SCALE;

/// Which price a price becomes in a step.
#[derive(Clone, Copy)]
pub(crate) enum Side {
    /// That of the need date before.
    Before,
    /// That of the need date after.
    After,
}

/// A multiplier of the limit that is tried.
#[derive(Clone, Copy)]
pub(crate) enum Multiplier {
    /// 0.
    Nothing,
    /// A half.
    Half,
    /// 1.
    Whole,
}

/// A multiplier of the limit, in units of 1 / [`PRICE_SCALE`].
pub(crate) fn mu_of(multiplier: Multiplier) -> u64
    ensures value { result ≡ mu_of_multiplier multiplier }
    ensures limit { result ≤ PRICE_SCALE }
{
    match multiplier {
        Multiplier::Nothing => 0,
        Multiplier::Half => PRICE_SCALE / 2,
        Multiplier::Whole => PRICE_SCALE,
    }
}

// The price before that of a place: 2 before the first.
fn price_before(prices: &[u64], place: u16) -> u64
    requires { place < length prices.now }
    ensures { result ≡ price_before_of prices.now place }
{
    if place == 0 {
        2 * PRICE_SCALE
    } else {
        prices[usize::from(place) - 1]
    }
}

// The price after that of a place: 0 after the last.
fn price_after(prices: &[u64], place: u16) -> u64
    ensures { result ≡ price_after_of prices.now place }
{
    prices.get(usize::from(place) + 1).copied().unwrap_or(0)
}

/// The price beside that of a place.
pub(crate) fn price_beside(prices: &[u64], place: u16, side: Side) -> u64
    requires { place < length prices.now }
    ensures { result ≡ price_beside_of prices.now place side }
{
    match side {
        Side::Before => price_before(prices, place),
        Side::After => price_after(prices, place),
    }
}
