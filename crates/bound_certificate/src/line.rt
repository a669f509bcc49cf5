//! What a line of a certificate says.
ghost use Rattle.std.specs.Prelude.{◌≡◌, ◌≤◌, ◌*◌, All};
ghost use Rattle.bound_certificate.specs.Grammar.{begins_with as begins_with_of, node_row as node_row_of, rises as rises_of};

use crate::certificate::Buy;
use crate::packed::Changes;
use crate::row::Row;
use crate::version::Version;
use crate::weighing::Weighing;
use line_words::cut_at;
use proof_tree::{Leaf, PRICE_SCALE, Part, Prices, Weights};

/// What a line says.
#[derive(Debug, Drop)]
pub(crate) enum Line {
    /// The first line, with the version.
    Title(Version),
    /// How many purchases follow; None says that there is no portfolio.
    Portfolio(Option<u64>),
    /// A purchase.
    Purchase(Buy),
    /// The gap, in cents.
    Gap(u64),
    /// How many vectors follow.
    Vectors(u64),
    /// A vector.
    Vector(Prices),
    /// How many nodes follow.
    Nodes(u64),
    /// A split of the range of a line or of a sum.
    Split {
        /// The line or the sum.
        part: Part,
        /// The most units of the left range.
        at: u64,
    },
    /// A point.
    Point,
    /// A leaf of a vector or of stairs, with changes and weights of sums.
    Closed {
        /// How its line says how much it weighs the cost.
        weighing: Weighing,
        /// The weight of a cent of cost.
        rho: u64,
        /// The multiplier of the yield limit.
        mu: u64,
        /// The vector, counted from 1; 0 stands for stairs.
        vector: u16,
        /// The other prices.
        changes: Changes,
        /// The weights of sums.
        weights: Weights,
    },
    /// A leaf with all its prices.
    Leaf(Leaf),
    /// The last line.
    End,
}

// Whether a price is above the one before. All are looked at, several at once: where one rises, the difference goes below 0 and its
// highest bit is set.
pub(crate) fn rises(prices: &[u64]) -> bool
    requires { All (λ price. price ≤ 2 * PRICE_SCALE) prices.now }
    ensures { result ≡ rises_of prices.now }
{
    let mut differences = 0;
    for place in 1..prices.len() {
        differences |= prices[place - 1].wrapping_sub(prices[place]);
    }
    differences >= 1 << 63
}

// Whether the first word of a line is this one.
pub(crate) fn begins_with(word: &[u8], line: &[u8]) -> bool
    ensures { result ≡ begins_with_of word.now line.now }
{
    word == cut_at(line, b' ').front
}

// What the first word of a line names that stands for a node.
pub(crate) fn node_row(version: Version, line: &[u8]) -> Row
    ensures { result ≡ node_row_of version line.now }
{
    if begins_with(b"s", line) {
        Row::Split
    } else if begins_with(b"p", line) {
        Row::Point
    } else if version.has_sums() && begins_with(b"t", line) {
        Row::SumSplit
    } else {
        version.leaf_row()
    }
}
