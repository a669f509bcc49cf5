//! The pool of a search's nodes: a tree that grows by splits, and the nodes that wait, least key first.
#![tactic(auto)]

mod heap;
mod laws;
mod node;
mod pool;
mod queue;
mod tree;
mod way;

pub use laws::heap_laws;
pub use node::{Full, Link, NodeId};
pub use pool::Pool;
