//! The tree of a search: its nodes with their leaves, what it keeps while it grows, and what it shows in the end.
#![tactic(auto)]

mod laws;
mod node;
mod tree;

pub use laws::{growth_laws, leaf_laws, tree_laws};
pub use node::{Closing, Priced, SearchNode};
pub use tree::SearchTree;
