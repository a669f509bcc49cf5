//! How a search is watched while it works.

use escrow_units::{Cents, Rate};

/// How far a search is where it takes a node of its tree.
#[derive(Clone, Copy)]
pub struct Standing {
    /// Whether this is the second tree, which grows where the budget of the first one is spent.
    pub again: bool,
    /// How many nodes the tree has.
    pub nodes: u32,
    /// The most nodes that it may have.
    pub budget: u32,
    /// The bound of the node, which is the least of those that wait, in cents, rounded up; 0 below 0.
    pub bound: Cents,
    /// What the best plan costs so far, opening cash included, in cents, if there is one.
    pub best: Option<Cents>,
}

/// What a watcher is told.
#[derive(Clone, Copy)]
pub enum Sight {
    /// From here on the case is searched at this common cap on its SLGS rates, in thousandths of a percentage point.
    Cap(Rate),
    /// A search takes a node.
    Node(Standing),
    /// A search has ended.
    End,
}

/// Watches searches while they work. It is told what is seen and promises nothing; a search comes to the same whoever watches it.
pub trait Watcher {
    /// Is told what is seen: each node that a search takes, when a search ends, and each cap before it is tried.
    fn see(&mut self, sight: Sight);
}

/// Nobody watches.
#[derive(Clone, Copy)]
pub struct Unwatched;

impl Watcher for Unwatched {
    fn see(&mut self, _sight: Sight) {}
}
