//! What a certificate says.
ghost use Rattle.std.specs.Prelude.{option_map, ◌≡◌, ◌++◌, ◌∷◌, [], IfOk, OnOk};
ghost use Rattle.bound_certificate.specs.Draft.{no_lines, with_item};

use crate::item::Item;
use escrow_desk::NoMemory;
use proof_tree::{Leaf, Nodes, TreeNode};
use std::alloc::Global;
use std::marker::Model;

/// A purchase of a number of units of a line.
#[derive(Clone, Copy, Debug, PartialEq, Eq)]
pub struct Buy {
    /// The line, counted from 0, which is opening cash.
    pub line: u16,
    /// The number of units, from 1.
    pub units: u64,
}

/// The purchases of a portfolio, by rising lines. Contracts see the list of them.
#[derive(Debug, Drop)]
pub struct Buys {
    buys: Vec<Buy>,
}

impl Model for Buys {
    ghost use Rattle.std.specs.Prelude.{List};
    ghost use Rattle.bound_certificate.specs.declared.certificate.Buy.{Buy};

    ghost Value = { List Buy };

    ghost view = { λ b. b.buys.items };
}

impl Buys {
    /// These purchases.
    pub fn new(buys: Vec<Buy>) -> Buys
        ensures { result ≡ buys.items }
    {
        Buys { buys }
    }

    /// The purchases as a slice.
    pub fn as_slice(&self) -> &[Buy]
        ensures { result.now ≡ self.now }
    {
        self.buys.as_slice()
    }

    /// The purchases as they were given.
    pub fn into_vec(self) -> Vec<Buy>
        ensures { result.items ≡ self }
    {
        self.buys
    }

    /// One more.
    pub(crate) fn push(&mut self, buy: Buy) -> Result<(), NoMemory>
        ensures { OnOk result (self.new ≡ self.old ++ buy ∷ []) }
    {
        self.buys.push(buy)?;
        Ok(())
    }
}

/// A copy of the purchases of a portfolio.
///
/// # Errors
///
/// Where memory ran out.
pub fn copied_buys(alloc: Global, buys: Option<&Buys>) -> Result<Option<Buys>, NoMemory>
    ensures { IfOk result (λ copy. copy ≡ option_map (λ b. b.now) buys.entry) }
{
    match buys {
        None => Ok(None),
        Some(buys) => Ok(Some(Buys::new(buys.as_slice().to_vec(alloc)?))),
    }
}

/// What a certificate says: a portfolio, by how much it may cost more than the cheapest, and a tree that shows it.
#[derive(Debug, Drop)]
pub struct Certificate {
    /// The purchases; None says that there is no portfolio.
    pub buys: Option<Buys>,
    /// The gap, in cents.
    pub gap: u64,
    /// The tree.
    pub nodes: Nodes,
}

impl Certificate {
    /// Before the first line.
    pub(crate) fn empty(alloc: Global) -> Certificate
        ensures { result ≡ no_lines }
    {
        Certificate {
            buys: None,
            gap: 0,
            nodes: Nodes::new(Vec::new(alloc)),
        }
    }

    /// Takes in what one more line says, and the leaf of a leaf's line.
    ///
    /// # Errors
    ///
    /// Where memory ran out.
    pub(crate) fn take(&mut self, alloc: Global, item: Item, leaf: &Leaf) -> Result<(), NoMemory>
        ensures { OnOk result (self.new ≡ with_item self.old item leaf.now) }
    {
        match item {
            Item::Portfolio(None) => self.buys = None,
            Item::Portfolio(Some(_)) => self.buys = Some(Buys::new(Vec::new(alloc))),
            Item::Buy(buy) => {
                if let Some(buys) = &mut self.buys {
                    buys.push(buy)?;
                }
            }
            Item::Gap(cents) => self.gap = cents,
            Item::Split { part, at } => self.nodes.push(TreeNode::Split { part, at })?,
            Item::Point => self.nodes.push(TreeNode::Point)?,
            Item::Leaf => self.nodes.push_leaf(alloc, leaf)?,
            Item::Nothing
            | Item::Header
            | Item::Vectors(_)
            | Item::Vector
            | Item::Nodes(_)
            | Item::End => {}
        }
        Ok(())
    }
}
