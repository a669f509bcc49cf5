//! The nodes of a tree, and the weights of its leaves.
ghost use Rattle.std.specs.Prelude.{◌≡◌, ◌++◌, ◌∷◌, [], if◌then◌else◌, IfOk, OnOk, replicate};
ghost use Rattle.proof_tree.specs.Tree.{IsLeaf};
ghost use Rattle.proof_tree.specs.declared.tree.TreeNode.TheVariants as node;

use crate::prices::{PRICE_SCALE, Prices};
use crate::weights::Weights;
use escrow_desk::NoMemory;
use std::alloc::Global;
use std::marker::Model;

/// The greatest number of units of a purchase or a split.
pub const GREATEST_UNITS: u64 = 10_000_000_000_000;

/// The weights by which the lower bound of a leaf is computed.
#[derive(Debug, Drop)]
pub struct Leaf {
    /// The weight of a cent of cost, in units of 1 / `PRICE_SCALE`, from 0 to `PRICE_SCALE`. Where it is 0, the bound is on needs that
    /// can't be met.
    pub rho: u64,
    /// The multiplier of the yield limit, at most `PRICE_SCALE`.
    pub mu: u64,
    /// The price of a cent on each need date.
    pub prices: Prices,
    /// The weights of sums: at most [`MOST_WEIGHTS`], by rising sums.
    pub weights: Weights,
}

impl Leaf {
    /// A leaf whose cost counts wholly or not at all, without multiplier of the limit, whose prices are 0: one for each of so many
    /// need dates.
    ///
    /// # Errors
    ///
    /// Where memory ran out.
    pub fn of_zeros(alloc: Global, whole: bool, count: u16) -> Result<Leaf, NoMemory>
        ensures value { IfOk result (λ leaf. leaf ≡ record { rho = if whole then PRICE_SCALE else 0; mu = 0; prices = replicate count 0; weights = [] }) }
        ensures leaf { IfOk result (IsLeaf count) }
    {
        let prices = vec![in alloc; 0u64; usize::from(count)]?;
        Ok(Leaf {
            rho: if whole { PRICE_SCALE } else { 0 },
            mu: 0,
            prices: Prices::new(prices),
            weights: Weights::none(alloc),
        })
    }

    /// The same leaf once more.
    ///
    /// # Errors
    ///
    /// Where memory ran out.
    pub fn copy(&self, alloc: Global) -> Result<Leaf, NoMemory>
        ensures { IfOk result (λ leaf. leaf ≡ self.now) }
    {
        Ok(Leaf {
            rho: self.rho,
            mu: self.mu,
            prices: Prices::new(self.prices.as_slice().to_vec(alloc)?),
            weights: self.weights.copy(alloc)?,
        })
    }
}

/// What a split narrows.
#[derive(Clone, Copy, Debug, PartialEq, Eq)]
pub enum Part {
    /// The units of a line, counted from 0.
    Line(u16),
    /// The units together of the coarse lines that pay after a need date: those of the sum of a need date, counted from 0.
    Sum(u16),
}

/// A node of a tree over ranges of units, in preorder.
#[derive(Debug, Drop)]
pub enum TreeNode {
    /// The range of a line or of a sum is split: on the left up to a number of units, on the right from one more. The left
    /// subtree follows, and then the right one.
    Split {
        /// The line or the sum.
        part: Part,
        /// The most units of the left range.
        at: u64,
    },
    /// Each line's range is a single number of units.
    Point,
    /// A leaf with its weights.
    Closed(Leaf),
}

/// The nodes of a tree in preorder. Contracts see the list of them.
#[derive(Debug, Drop)]
pub struct Nodes {
    nodes: Vec<TreeNode>,
}

impl Model for Nodes {
    ghost use Rattle.std.specs.Prelude.{List};
    ghost use Rattle.proof_tree.specs.declared.tree.TreeNode.{TreeNode};

    ghost Value = { List TreeNode };

    ghost view = { λ n. n.nodes.items };
}

impl Nodes {
    /// These nodes.
    pub fn new(nodes: Vec<TreeNode>) -> Nodes
        ensures { result ≡ nodes.items }
    {
        Nodes { nodes }
    }

    /// The nodes as a slice.
    pub fn as_slice(&self) -> &[TreeNode]
        ensures { result.now ≡ self.now }
    {
        self.nodes.as_slice()
    }

    /// The nodes as they were given.
    pub fn into_vec(self) -> Vec<TreeNode>
        ensures { result.items ≡ self }
    {
        self.nodes
    }

    /// One more.
    ///
    /// # Errors
    ///
    /// Where memory ran out.
    pub fn push(&mut self, node: TreeNode) -> Result<(), NoMemory>
        ensures { OnOk result (self.new ≡ self.old ++ node ∷ []) }
    {
        self.nodes.push(node)?;
        Ok(())
    }

    /// One more leaf, copied.
    ///
    /// # Errors
    ///
    /// Where memory ran out.
    pub fn push_leaf(&mut self, alloc: Global, leaf: &Leaf) -> Result<(), NoMemory>
        ensures { OnOk result (self.new ≡ self.old ++ node.Closed leaf.now ∷ []) }
    {
        self.push(TreeNode::Closed(leaf.copy(alloc)?))
    }
}
