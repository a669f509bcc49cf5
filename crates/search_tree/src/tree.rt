//! The tree of a search while it grows: the pool of its nodes, and what is known at each.
ghost use Rattle.std.specs.Prelude.{All, ◌≡◌, ◌⊎◌, ◌*◌, ◌^◌, ◌<◌, ◌≤◌, ◌+◌, ◌++◌, ◌∷◌, [], ℕ, length, List, slice_set, slice_index_or, ℤ, unsigned_abs, IfOk, IfSome, IsNone};
ghost use Rattle.node_ranges.specs.Ranges.{AreTight, root_of};
ghost use Rattle.node_pool.specs.Pool.{IsInHand, IsLeast, IsOneTree, NoneWaits, SplitsAreWhole, pool_with, split_pool};
ghost use Rattle.node_pool.specs.Way.{AreProper, IsWay, Step, ranges_at};
ghost use Rattle.node_pool.specs.declared.node.State.TheVariants as state;
ghost use Rattle.node_pool.specs.Tree.{AreEnded};
ghost use Rattle.search_tree.specs.Tree.{AreNodesOf, HaveOwnNumbers, IsDrained, IsInside, closed_tree, end_node, link_node, new_tree, split_tree, waiting_tree};
ghost use Rattle.search_tree.specs.Growing.{node_of};
ghost use Rattle.search_tree.specs.declared.node.Closing.TheVariants as closing;

use crate::node::{Closing, Priced, SearchNode};
use escrow_desk::NoMemory;
use halving_tree::{Split, reach_leaf};
use node_pool::{Link, NodeId, Pool};
use node_ranges::Ranges;
use offer_book::Book;
use proof_tree::{Nodes, Part, TreeNode};
use std::alloc::Global;
use std::marker::Model;

/// The tree of a search: the pool of its nodes, and each node's leaf and closing. Contracts see the pool and the list of the nodes.
#[derive(Drop)]
pub struct SearchTree {
    pool: Pool,
    nodes: Vec<SearchNode>,
}

impl Model for SearchTree {
    ghost use Rattle.std.specs.Prelude.{◌≡◌, ◌≤◌, length};
    ghost use Rattle.std.specs.Vec.{vec_capacity};
    ghost use Rattle.search_tree.specs.Tree.{TreeContents};

    ghost Value = { TreeContents };

    ghost view = { λ t. record { pool = t.pool; nodes = t.nodes.items } };

    ghost invariant = { λ t. (length t.nodes.items ≡ length t.pool.states) × (t.pool.capacity ≤ vec_capacity t.nodes) };
}

// A node that isn't closed.
fn open_node(priced: Priced) -> SearchNode
    ensures { result ≡ record { priced = priced; closing = closing.Open } }
{
    SearchNode {
        priced,
        closing: Closing::Open,
    }
}

impl SearchTree {
    /// A tree with room for so many nodes, whose root waits.
    ///
    /// # Errors
    ///
    /// Where memory ran out.
    pub fn start(alloc: Global, capacity: u32, root: Priced) -> Result<SearchTree, NoMemory>
        requires { 1 ≤ capacity }
        ensures { IfOk result (λ tree. tree ≡ new_tree capacity root) }
    {
        let mut nodes = Vec::with_capacity(alloc, capacity as usize)?;
        let pool = Pool::make(alloc, capacity, root.bound)?;
        nodes.push(open_node(root))?;
        Ok(SearchTree { pool, nodes })
    }

    /// Begins again with a root alone, which waits. The capacity stays, and the memory for the nodes; the leaves are given back.
    pub fn restart(&mut self, root: Priced)
        ensures { self.new ≡ new_tree self.old.pool.capacity root }
    {
        self.nodes.clear();
        self.pool.restart(root.bound);
        // A pool has room for its nodes, and so has the list of them.
        prove!(self.pool.count() > 0);
        let _pushed = self.nodes.push(open_node(root));
    }

    /// Takes the waiting node of the least bound.
    pub fn pop(&mut self) -> Option<NodeId>
        ensures none { IsNone result → NoneWaits self.old.pool.states × (self.new ≡ self.old) }
        ensures some { IfSome result (λ node. IsLeast self.old.pool.states node.0 × (self.new ≡ record self.old { pool = pool_with self.old.pool node.0 state.InHand })) }
        ensures in_hand { IfSome result (λ node. IsInHand self.new.pool.states node.0) }
        ensures one { IsOneTree self.old.pool.states }
    {
        // The nodes of a pool are one tree.
        prove!(self.pool.count() > 0);
        self.pool.pop_least()
    }

    /// Goes to the ranges of a node; those of the root are given. It takes no memory.
    pub fn ranges_of(&self, node: NodeId, book: &Book, root: &Ranges, into: &mut Ranges)
        requires way { (way : List Step) × IsWay self.now.pool.states node.0 way × AreProper book.now way }
        requires root { root.now ≡ root_of book.now }
        requires lines { length into.old.lines ≡ length root.now.lines }
        requires sums { length into.old.sums ≡ length root.now.sums }
        ensures value { (way : List Step) → IsWay self.now.pool.states node.0 way → AreProper book.now way → into.new ≡ ranges_at book.now way }
        ensures tight { AreTight book.now into.new }
    {
        self.pool.box_of(node, book, root, into);
    }

    /// What is known at a node.
    pub fn node(&self, node: NodeId) -> &SearchNode
        requires { node.0 < length self.now.nodes }
        ensures { result.now ≡ node_of self.now.nodes node.0 }
    {
        &self.nodes[node.0 as usize]
    }

    /// Closes a node in hand.
    pub fn close(&mut self, node: NodeId, closing: Closing)
        requires { IsInHand self.old.pool.states node.0 }
        ensures { self.new ≡ closed_tree self.old node.0 closing }
    {
        self.nodes[node.0 as usize].closing = closing;
        self.pool.close(node, node.0);
    }

    /// Lets a node in hand wait again, by its bound.
    pub fn put_back(&mut self, node: NodeId)
        requires { IsInHand self.old.pool.states node.0 }
        ensures { self.new ≡ waiting_tree self.old node.0 }
    {
        let bound = self.nodes[node.0 as usize].priced.bound;
        self.pool.put_back(node, bound);
    }

    /// Splits a node in hand, where there is room for two more; its sides wait.
    pub fn split(&mut self, node: NodeId, split: Split, left: Priced, right: Priced)
        requires in_hand { IsInHand self.old.pool.states node.0 }
        requires room { length self.old.pool.states + 2 ≤ self.old.pool.capacity }
        ensures { self.new ≡ split_tree self.old node.0 split.line split.at left right }
    {
        if self
            .pool
            .split(node, split.line, split.at, left.bound, right.bound)
            .is_ok()
        {
            let _left = self.nodes.push(open_node(left));
            let _right = self.nodes.push(open_node(right));
        }
    }

    /// How many nodes there are.
    pub fn count(&self) -> u32
        ensures value { result ≡ length self.now.pool.states }
        ensures nodes { result ≡ length self.now.nodes }
        ensures few { result ≤ self.now.pool.capacity }
        ensures one { IsOneTree self.now.pool.states }
        ensures whole { SplitsAreWhole self.now.pool.states }
    {
        self.pool.count()
    }

    /// Closes each node that waits by its own leaf.
    pub fn close_waiting(&mut self)
        ensures drained { IsDrained self.old self.new }
        ensures capacity { self.new.pool.capacity ≡ self.old.pool.capacity }
    {
        // What the tree keeps is known where its fields are used.
        let _ = &self.pool;
        while let Some(node) = self.pop() {
            self.close(node, Closing::Borne);
        }
    }

    /// The nodes in preorder, each closed one as it stands in a certificate.
    ///
    /// # Errors
    ///
    /// Where memory ran out.
    pub fn nodes(&self, alloc: Global, book: &Book) -> Result<Nodes, NoMemory>
        requires ended { AreEnded self.now.pool.states }
        requires own { HaveOwnNumbers self.now.pool.states }
        ensures { IfOk result (AreNodesOf book.now.needs self.now) }
    {
        let links = self.pool.tree(alloc)?;
        let mut nodes = Vec::with_capacity(alloc, links.len())?;
        for link in links.as_slice() {
            nodes.push(self.tree_node(alloc, book, *link)?)?;
        }
        Ok(Nodes::new(nodes))
    }

    // A node as it stands in a certificate.
    fn tree_node(&self, alloc: Global, book: &Book, link: Link) -> Result<TreeNode, NoMemory>
        requires { IsInside (length self.now.nodes) link }
        ensures { IfOk result (λ next. next ≡ link_node (λ number. end_node book.now.needs (node_of self.now.nodes number)) link) }
    {
        match link {
            Link::Split { line, at } => Ok(TreeNode::Split {
                part: Part::Line(line),
                at,
            }),
            Link::Leaf(number) => closed_node(alloc, book, &self.nodes[number as usize]),
        }
    }
}

// A closed node as it stands in a certificate: a point, or the leaf that closes it.
fn closed_node(alloc: Global, book: &Book, node: &SearchNode) -> Result<TreeNode, NoMemory>
    ensures { IfOk result (λ next. next ≡ end_node book.now.needs node.now) }
{
    match &node.closing {
        Closing::Point => Ok(TreeNode::Point),
        Closing::Unreached(day) => Ok(TreeNode::Closed(reach_leaf(alloc, book, *day)?)),
        Closing::Infeasible(leaf) => Ok(TreeNode::Closed(leaf.copy(alloc)?)),
        Closing::Borne | Closing::Open => Ok(TreeNode::Closed(node.priced.leaf.copy(alloc)?)),
    }
}
