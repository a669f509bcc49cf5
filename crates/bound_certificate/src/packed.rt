//! What a packed certificate says: leaves that share their prices.
ghost use Rattle.std.specs.Prelude.{◌≡◌, ◌++◌, ◌∷◌, [], OnOk};

use crate::certificate::Buys;
use escrow_desk::NoMemory;
use proof_tree::{Part, Prices, Weights};
use std::marker::Model;

/// Another price than a vector's own, on one need date; of stairs another than the one before it, from one need date on.
#[derive(Clone, Copy, Debug, Default, PartialEq, Eq)]
pub struct Change {
    /// The need date, counted from 1.
    pub place: u16,
    /// The price, in units of 1 / `PRICE_SCALE`.
    pub price: u64,
}

/// The changes of a leaf, by rising places. Contracts see the list of them.
#[derive(Debug, Drop)]
pub struct Changes {
    list: Vec<Change>,
}

impl Model for Changes {
    ghost use Rattle.std.specs.Prelude.{List};
    ghost use Rattle.bound_certificate.specs.declared.packed.Change.{Change};

    ghost Value = { List Change };

    ghost view = { λ c. c.list.items };
}

impl Changes {
    /// These changes.
    pub fn new(list: Vec<Change>) -> Changes
        ensures { result ≡ list.items }
    {
        Changes { list }
    }

    /// The changes as a slice.
    pub fn as_slice(&self) -> &[Change]
        ensures { result.now ≡ self.now }
    {
        self.list.as_slice()
    }

    /// The changes as they were given.
    pub fn into_vec(self) -> Vec<Change>
        ensures { result.items ≡ self }
    {
        self.list
    }
}

/// A node of a packed tree, in preorder.
#[derive(Debug, Drop)]
pub enum PackedNode {
    /// The range of a line or of a sum is split: on the left up to a number of units, on the right from one more. The left
    /// subtree follows, and then the right one.
    Split {
        /// The line or the sum.
        part: Part,
        /// The most units of the left range.
        at: u64,
    },
    /// Each range is a single number of units.
    Point,
    /// A leaf, whose prices are those of a vector, with another one at some places; or stairs: the greatest price, and from each
    /// place on another one, up to the next.
    Closed {
        /// The weight of a cent of cost, in units of 1 / `PRICE_SCALE`, from 0 to `PRICE_SCALE`.
        rho: u64,
        /// The multiplier of the yield limit, at most `PRICE_SCALE`.
        mu: u64,
        /// The vector, counted from 1; 0 stands for stairs, which version 3 alone has.
        vector: u16,
        /// The other prices.
        changes: Changes,
        /// The weights of sums, which version 3 alone has.
        weights: Weights,
    },
}

/// The vectors of prices that leaves share, each with one price for each need date. Contracts see the list of them.
#[derive(Debug, Drop)]
pub struct Vectors {
    vectors: Vec<Prices>,
}

impl Model for Vectors {
    ghost use Rattle.std.specs.Prelude.{ℕ, List};

    ghost Value = { List (List ℕ) };

    ghost view = { λ v. v.vectors.items };
}

impl Vectors {
    /// These vectors.
    pub fn new(vectors: Vec<Prices>) -> Vectors
        ensures { result ≡ vectors.items }
    {
        Vectors { vectors }
    }

    /// The vectors as a slice.
    pub fn as_slice(&self) -> &[Prices]
        ensures { result.now ≡ self.now }
    {
        self.vectors.as_slice()
    }

    /// The vectors as they were given.
    pub fn into_vec(self) -> Vec<Prices>
        ensures { result.items ≡ self }
    {
        self.vectors
    }

    /// One more.
    ///
    /// # Errors
    ///
    /// Where memory ran out.
    pub fn push(&mut self, prices: Prices) -> Result<(), NoMemory>
        ensures { OnOk result (self.new ≡ self.old ++ prices ∷ []) }
    {
        self.vectors.push(prices)?;
        Ok(())
    }
}

/// The nodes of a packed tree in preorder. Contracts see the list of them.
#[derive(Debug, Drop)]
pub struct PackedNodes {
    nodes: Vec<PackedNode>,
}

impl Model for PackedNodes {
    ghost use Rattle.std.specs.Prelude.{List};
    ghost use Rattle.bound_certificate.specs.declared.packed.PackedNode.{PackedNode};

    ghost Value = { List PackedNode };

    ghost view = { λ n. n.nodes.items };
}

impl PackedNodes {
    /// These nodes.
    pub fn new(nodes: Vec<PackedNode>) -> PackedNodes
        ensures { result ≡ nodes.items }
    {
        PackedNodes { nodes }
    }

    /// The nodes as a slice.
    pub fn as_slice(&self) -> &[PackedNode]
        ensures { result.now ≡ self.now }
    {
        self.nodes.as_slice()
    }

    /// The nodes as they were given.
    pub fn into_vec(self) -> Vec<PackedNode>
        ensures { result.items ≡ self }
    {
        self.nodes
    }

    /// One more.
    pub(crate) fn push(&mut self, node: PackedNode) -> Result<(), NoMemory>
        ensures { OnOk result (self.new ≡ self.old ++ node ∷ []) }
    {
        self.nodes.push(node)?;
        Ok(())
    }
}

/// A certificate whose leaves share their prices: a portfolio, by how much it may cost more than the cheapest, and a tree that shows it.
#[derive(Debug, Drop)]
pub struct Packed {
    /// The purchases; None says that there is no portfolio.
    pub buys: Option<Buys>,
    /// The gap, in cents.
    pub gap: u64,
    /// The prices that leaves share.
    pub vectors: Vectors,
    /// The tree.
    pub nodes: PackedNodes,
}
