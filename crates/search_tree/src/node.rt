//! A node of the search's tree: its leaf, and how it was closed.

use escrow_units::Day;
use proof_tree::Leaf;

/// How a node is closed, if it is.
#[derive(Debug, Drop)]
pub enum Closing {
    /// It isn't.
    Open,
    /// By its own leaf, which bears out that no rival costs less than the best plan by more than the allowance.
    Borne,
    /// By the leaf that weighs the needs up to a day alone: its ranges don't reach them.
    Unreached(Day),
    /// By a leaf that doesn't weigh the cost: no permitted portfolio of its ranges meets the needs within the limit.
    Infeasible(Leaf),
    /// As a point: it holds one portfolio, which is no rival, or costs no less than the best plan.
    Point,
}

/// A leaf over the ranges of a node, and what it shows there.
#[derive(Drop)]
pub struct Priced {
    /// The leaf, which weighs the cost.
    pub leaf: Leaf,
    /// What it shows that a rival of the node's ranges costs at least, one unit below the limit, in units of 1 /
    /// [`COEFFICIENT_SCALE`](offer_book::COEFFICIENT_SCALE) of a cent.
    pub bound: i128,
}

/// A node of the search's tree.
#[derive(Drop)]
pub struct SearchNode {
    /// Its leaf, and what that shows.
    pub priced: Priced,
    /// How it was closed.
    pub closing: Closing,
}
