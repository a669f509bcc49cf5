//! The least gap that a bound or a tree supports, and the greatest cost that a bound supports with a gap.

ghost use Rattle.std.specs.Prelude.{All, ◌≡◌, ◌⊎◌, ℕ, length, ◌*◌, ◌^◌, ◌<◌, ◌≤◌, true, Some, pos, ◌-ℤ◌, unsigned_abs};
ghost use Rattle.node_ranges.specs.Claims.{bears_out};
ghost use Rattle.search_tree.specs.Tree.{IsBorneBy, IsLeastGap, IsNeededFor};

use escrow_units::{AMOUNT_LIMIT, Cents};
use node_pool::NodeId;
use offer_book::COEFFICIENT_SCALE;
use search_tree::{Closing, SearchNode, SearchTree};

// A cent, in units of least costs.
const CENT: i128 = COEFFICIENT_SCALE as i128;

/// The least gap, in cents, with which a bound bears out a cost: what the cost is above the bound, in whole cents.
pub(crate) fn least_gap(bound: i128, cost: Cents) -> u64
    requires bound { unsigned_abs bound < 10 ^ 28 }
    requires cost { cost.0 ≤ 172 * 10 ^ 12 }
    ensures supported { bears_out bound (Some (pos cost.0 -ℤ pos result)) ≡ true }
    ensures least { (gap : ℕ) → bears_out bound (Some (pos cost.0 -ℤ pos gap)) ≡ true → result ≤ gap }
{
    let over = CENT * i128::from(cost.0) - bound;
    if over <= 0 {
        0
    } else {
        (over as u128 / CENT as u128) as u64
    }
}

/// The greatest cost, in cents, that a bound bears out with a gap of at most the allowance; 0 where it bears out none.
pub(crate) fn greatest_cost(bound: i128, allowance: Cents) -> Cents
    requires bound { unsigned_abs bound < 10 ^ 28 }
    requires allowance { allowance.0 ≤ AMOUNT_LIMIT }
    ensures supported { (result.0 ≡ 0) ⊎ (bears_out bound (Some (pos result.0 -ℤ pos allowance.0)) ≡ true) }
    ensures greatest { (cost : ℕ) → bears_out bound (Some (pos cost -ℤ pos allowance.0)) ≡ true → cost ≤ result.0 }
{
    if bound > 0 {
        let whole = ((bound - 1) as u128 / CENT as u128) as u64;
        Cents(whole + 1 + allowance.0)
    } else {
        let below = ((0 - bound) as u128 / CENT as u128) as u64;
        Cents(allowance.0.saturating_sub(below))
    }
}

/// A bound in whole cents, rounded up; 0 below 0.
pub(crate) fn whole_cents(bound: i128) -> Cents {
    if bound <= 0 {
        return Cents(0);
    }
    let cents = (bound as u128).div_ceil(CENT as u128);
    Cents(u64::try_from(cents).unwrap_or(u64::MAX))
}

// The greater of a gap and the least one with which a node's leaf, where that closes it, bears out a cost.
fn greater_gap(gap: u64, node: &SearchNode, cost: Cents) -> u64
    requires cost { cost.0 ≤ 172 * 10 ^ 12 }
    requires bound { unsigned_abs node.now.priced.bound < 10 ^ 28 }
    ensures no_less { gap ≤ result }
    ensures borne { IsBorneBy node.now cost.0 result }
    ensures least { (result ≡ gap) ⊎ IsNeededFor node.now cost.0 result }
{
    let Closing::Borne = &node.closing else {
        return gap;
    };
    let own = least_gap(node.priced.bound, cost);
    if gap < own { own } else { gap }
}

/// The least gap, in cents, with which each leaf that closes its own node bears out what a plan costs.
pub(crate) fn tree_gap(tree: &SearchTree, cost: Cents) -> u64
    requires cost { cost.0 ≤ 172 * 10 ^ 12 }
    requires bounds { All (λ own. unsigned_abs own.priced.bound < 10 ^ 28) tree.now.nodes }
    ensures { IsLeastGap tree.now.nodes (length tree.now.nodes) cost.0 result }
{
    let mut gap = 0;
    for number in 0..tree.count() {
        gap = greater_gap(gap, tree.node(NodeId(number)), cost);
    }
    gap
}
