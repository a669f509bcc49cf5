//! What a leaf shows that a rival costs at least.
ghost use Rattle.std.specs.Prelude.{◌≡◌};
ghost use Rattle.node_ranges.specs.Claims.{least_cost as least_cost_of};

/// What a leaf shows that a rival costs at least, in units of 1 / [`COEFFICIENT_SCALE`](offer_book::COEFFICIENT_SCALE) of a cent: its
/// bound divided by how much it weighs the cost, rounded up. Of a leaf that doesn't weigh the cost it is the bound itself.
pub fn least_cost(rho: u64, bound: i128) -> i128
    ensures { result ≡ least_cost_of rho bound }
{
    if rho == 0 {
        return bound;
    }
    let weight = i128::from(rho);
    if bound > 0 {
        (bound - 1) / weight + 1
    } else {
        bound / weight
    }
}
