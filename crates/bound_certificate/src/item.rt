//! What a reader of certificates gives.

use crate::certificate::Buy;
use proof_tree::Part;

/// What a line says.
#[derive(Clone, Copy, Debug, PartialEq, Eq)]
pub enum Item {
    /// No line ended.
    Nothing,
    /// The first line.
    Header,
    /// How many purchases follow; None says that there is no portfolio.
    Portfolio(Option<u32>),
    /// A purchase.
    Buy(Buy),
    /// The gap, in cents.
    Gap(u64),
    /// How many vectors follow, of version 2 or 3.
    Vectors(u32),
    /// A vector of prices, of version 2 or 3.
    Vector,
    /// How many nodes follow.
    Nodes(u32),
    /// A split of the range of a line, or, in version 3, of a sum.
    Split {
        /// The line or the sum.
        part: Part,
        /// The most units of the left range.
        at: u64,
    },
    /// A point.
    Point,
    /// A leaf, which `CertReader::leaf` lends.
    Leaf,
    /// The last line.
    End,
}

/// How many bytes of a piece were taken, and what the line says that ended.
#[derive(Clone, Copy, Debug, PartialEq, Eq)]
pub struct Fed {
    /// How many bytes were taken of the piece's front.
    pub used: u32,
    /// What the line says.
    pub item: Item,
}
