//! The tree by which a certificate proves its gap: its nodes, the weights of a leaf, and the intervals that splits narrow.
#![tactic(auto)]

mod interval;
mod prices;
mod tree;
mod weights;

pub use interval::Interval;
pub use prices::{PRICE_SCALE, Prices};
pub use tree::{GREATEST_UNITS, Leaf, Nodes, Part, TreeNode};
pub use weights::{MOST_WEIGHTS, Side, SumWeight, Weights};
