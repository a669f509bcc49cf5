//! Whether prices rise after changes to prices that never rise, or in stairs.
ghost use Rattle.std.specs.Prelude.{◌≡◌, ◌+◌, ◌-◌, ◌<◌, ◌||◌, List, Option, ℕ, length, nat_lt, slice_index};
ghost use Rattle.bound_certificate.specs.Grammar.{ArePlaces, rises};
ghost use Rattle.bound_certificate.specs.Packed.{changed};
ghost use Rattle.bound_certificate.specs.Taken.{IsBase};

use crate::packed::Change;

// Whether the price at a place, from 0, is above the one before it, or below the one behind it.
fn rises_at(prices: &[u64], place: usize) -> bool
    requires { place < length prices.now }
    ensures { result ≡ (nat_lt (slice_index prices.now (place - 1)) (slice_index prices.now place) || nat_lt (slice_index prices.now place) (slice_index prices.now (place + 1))) }
{
    let before = prices[place.saturating_sub(1)];
    let behind = if place + 1 < prices.len() {
        prices[place + 1]
    } else {
        0
    };
    before < prices[place] || prices[place] < behind
}

/// Whether a price is above the one before, where the prices are a vector's after changes or stairs: those of the vector never rise, and
/// stairs are level but at their steps, so that it can be so beside a change alone.
pub(crate) fn rises_near(prices: &[u64], changes: &[Change]) -> bool
    requires { ArePlaces (length prices.now) changes.now }
    ensures { (dates : ℕ) (vector : Option (List ℕ)) → IsBase dates vector → prices.now ≡ changed dates vector changes.now → result ≡ rises prices.now }
{
    for change in changes {
        if rises_at(prices, usize::from(change.place) - 1) {
            return true;
        }
    }
    false
}
