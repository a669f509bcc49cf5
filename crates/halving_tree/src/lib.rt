//! The halving tree of a case, by which the work of a search is measured: where a node is split, and the leaves that close one.
#![tactic(auto)]

mod base;
mod laws;
mod rule;

pub use base::{base_leaf, put_reach, reach_leaf};
pub use laws::halving_laws;
pub use rule::{Split, SplitRule};
