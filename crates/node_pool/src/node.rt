//! The nodes of a pool.

/// The number of a node, from 0, in the order of making.
#[derive(Clone, Copy, Debug, PartialEq, Eq)]
pub struct NodeId(pub u32);

/// No two nodes more have room.
#[derive(Clone, Copy, Debug, PartialEq, Eq)]
pub struct Full;

/// A node of a tree in preorder.
#[derive(Clone, Copy, Debug, PartialEq, Eq)]
pub enum Link {
    /// A line's range is split: the left subtree follows, and then the right one.
    Split {
        /// The line, counted from 0.
        line: u16,
        /// The most units of the left range.
        at: u64,
    },
    /// A closed node, with the number of its leaf.
    Leaf(u32),
}

/// What has become of a node.
#[derive(Clone, Copy, Debug, PartialEq, Eq)]
pub(crate) enum State {
    /// It waits, with a key.
    Waiting(i128),
    /// It was taken, to be split, closed or put back.
    InHand,
    /// It is closed, with the number of a leaf.
    Closed(u32),
    /// It is split.
    Split {
        /// The line, counted from 0.
        line: u16,
        /// The most units of the left range.
        at: u64,
        /// The left child.
        left: NodeId,
        /// The right child.
        right: NodeId,
    },
}

/// The place of a waiting node in the heap.
#[derive(Clone, Copy, Debug, PartialEq, Eq)]
pub(crate) struct Links {
    /// The heap on the left.
    pub left: Option<NodeId>,
    /// The heap on the right.
    pub right: Option<NodeId>,
    /// How many nodes the way to the right has, this one included.
    pub rank: u32,
}

/// A node.
#[derive(Clone, Copy, Debug, PartialEq, Eq)]
pub(crate) struct Node {
    /// The split that made it; None at the root.
    pub parent: Option<NodeId>,
    /// What has become of it.
    pub state: State,
    /// Its place in the heap while it waits.
    pub links: Links,
}
