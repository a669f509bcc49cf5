//! The pool of nodes.
ghost use Rattle.std.specs.Prelude.{◌≡◌, ◌<◌, ◌≤◌, ◌+◌, ◌++◌, ◌∷◌, [], ℕ, List, None, Some, length, IfErr, IfOk, IfSome};
ghost use Rattle.std.specs.Vec.{vec_capacity};
ghost use Rattle.node_pool.specs.Heap.{node_at};
ghost use Rattle.node_pool.specs.Queue.{IsQueue, states_of};
ghost use Rattle.std.specs.List.{count_by};
ghost use Rattle.node_pool.specs.declared.node.State.TheVariants as state;
ghost use Rattle.node_pool.specs.Pool.{IsInHand, IsLeast, IsOneTree, NoneWaits, SplitsAreWhole, is_waiting, new_pool, pool_with, split_pool};
ghost use Rattle.node_pool.specs.Tree.{AreEnded, IsPreorderOf};
ghost use Rattle.node_ranges.specs.Ranges.{AreTight, root_of};
ghost use Rattle.node_pool.specs.Way.{AreProper, IsWay, Step, ranges_at};

use crate::node::{Full, Link, Links, Node, NodeId, State};
use crate::queue::{insert, set_state, take_first};
use crate::tree::preorder_of;
use crate::way::narrow_up;
use escrow_desk::NoMemory;
use node_ranges::Ranges;
use offer_book::Book;
use std::alloc::Global;
use std::marker::Model;

/// The nodes of a search: one tree, which grows by splits from its root. A node waits with a key, is in hand, is closed with the
/// number of a leaf, or is split. Contracts see the nodes' states in the order of making, and the capacity.
#[derive(Debug, Drop)]
pub struct Pool {
    nodes: Vec<Node>,
    first: Option<NodeId>,
    waiting: u32,
    capacity: u32,
}

impl Model for Pool {
    ghost use Rattle.std.specs.Prelude.{◌≤◌};
    ghost use Rattle.std.specs.Vec.{vec_capacity};
    ghost use Rattle.node_pool.specs.Pool.{PoolContents};
    ghost use Rattle.node_pool.specs.Queue.{IsPool, states_of};

    ghost Value = { PoolContents };

    ghost view = { λ p. record { capacity = p.capacity; states = states_of p.nodes.items } };

    ghost invariant = { λ p. IsPool p.nodes.items p.first p.waiting p.capacity × (p.capacity ≤ vec_capacity p.nodes) };
}

// A node in hand.
fn node_in_hand(parent: Option<NodeId>) -> Node
    ensures { result ≡ record { parent = parent; state = state.InHand; links = record { left = None; right = None; rank = 1 } } }
{
    Node {
        parent,
        state: State::InHand,
        links: Links {
            left: None,
            right: None,
            rank: 1,
        },
    }
}

// The root of a pool, which waits with a key.
fn waiting_root(key: i128) -> Node
    ensures { result ≡ record { parent = None; state = state.Waiting key; links = record { left = None; right = None; rank = 1 } } }
{
    let mut root = node_in_hand(None);
    root.state = State::Waiting(key);
    root
}

// One more node, the child of a split, which waits with a key; the link to all that wait.
fn add_waiting(
    nodes: &mut Vec<Node>,
    link: Option<NodeId>,
    parent: NodeId,
    key: i128,
) -> Option<NodeId>
    requires queue { (count : ℕ) × (count < 4_294_967_295) × IsQueue nodes.old.items link count }
    requires room { length nodes.old.items < vec_capacity nodes.old }
    requires few { length nodes.old.items < 4_294_967_295 }
    ensures states { states_of nodes.new.items ≡ states_of nodes.old.items ++ state.Waiting key ∷ [] }
    ensures queue { (count : ℕ) → count < 4_294_967_295 → IsQueue nodes.old.items link count → IsQueue nodes.new.items result (count + 1) }
    ensures capacity { vec_capacity nodes.old ≤ vec_capacity nodes.new }
    ensures own { (node_at nodes.new.items (length nodes.old.items)).parent ≡ Some parent }
    ensures others { (number : ℕ) → number < length nodes.old.items → (node_at nodes.new.items number).parent ≡ (node_at nodes.old.items number).parent }
{
    let node = NodeId(nodes.len() as u32);
    let _pushed = nodes.push(node_in_hand(Some(parent)));
    insert(nodes.as_mut_slice(), link, node, key)
}

impl Pool {
    /// A pool with room for so many nodes, of which the root waits with a key. All memory is taken here, but for `tree`'s.
    ///
    /// # Errors
    ///
    /// Where memory ran out.
    pub fn make(alloc: Global, capacity: u32, key: i128) -> Result<Pool, NoMemory>
        requires { 1 ≤ capacity }
        ensures { IfOk result (λ pool. pool ≡ new_pool capacity key) }
    {
        let mut nodes = Vec::with_capacity(alloc, capacity as usize)?;
        nodes.push(waiting_root(key))?;
        Ok(Pool {
            nodes,
            first: Some(NodeId(0)),
            waiting: 1,
            capacity,
        })
    }

    /// Begins again with a root alone, which waits with a key. The capacity stays, and the memory for the nodes.
    pub fn restart(&mut self, key: i128)
        ensures { self.new ≡ new_pool self.old.capacity key }
    {
        self.nodes.clear();
        // There is room for it.
        let _pushed = self.nodes.push(waiting_root(key));
        self.first = Some(NodeId(0));
        self.waiting = 1;
    }

    /// Takes the waiting node of the least key, and of the lowest number among equals, into the hand; None where none waits.
    pub fn pop_least(&mut self) -> Option<NodeId>
        ensures none { result ≡ None → NoneWaits self.old.states × (self.new ≡ self.old) }
        ensures some { IfSome result (λ node. IsLeast self.old.states node.0 × (self.new ≡ pool_with self.old node.0 state.InHand)) }
        ensures in_hand { IfSome result (λ node. IsInHand self.new.states node.0) }
    {
        let first = self.first?;
        self.first = take_first(self.nodes.as_mut_slice(), first);
        self.waiting -= 1;
        Some(first)
    }

    /// Lets a node in hand wait with a key.
    pub fn put_back(&mut self, node: NodeId, key: i128)
        requires { IsInHand self.old.states node.0 }
        ensures { self.new ≡ pool_with self.old node.0 (state.Waiting key) }
    {
        self.first = insert(self.nodes.as_mut_slice(), self.first, node, key);
        self.waiting += 1;
    }

    /// Splits a node in hand at a number of units of a line, counted from 0. Its two children, the left one first, wait with
    /// these keys.
    ///
    /// # Errors
    ///
    /// Where the capacity has no room for two nodes more; nothing changed then.
    pub fn split(
        &mut self,
        node: NodeId,
        line: u16,
        at: u64,
        left: i128,
        right: i128,
    ) -> Result<(NodeId, NodeId), Full>
        requires { IsInHand self.old.states node.0 }
        ensures full { IfErr result (λ _. (self.old.capacity < length self.old.states + 2) × (self.new ≡ self.old)) }
        ensures room { IfOk result (λ _. length self.old.states + 2 ≤ self.old.capacity) }
        ensures children { IfOk result (λ made. (made.0.0 ≡ length self.old.states) × (made.1.0 ≡ length self.old.states + 1)) }
        ensures split { IfOk result (λ _. self.new ≡ split_pool self.old node.0 line at left right) }
    {
        let count = self.nodes.len() as u32;
        if self.capacity - count < 2 {
            return Err(Full);
        }
        let left_child = NodeId(count);
        let right_child = NodeId(count + 1);
        self.first = add_waiting(&mut self.nodes, self.first, node, left);
        self.first = add_waiting(&mut self.nodes, self.first, node, right);
        self.waiting += 2;
        let split = State::Split {
            line,
            at,
            left: left_child,
            right: right_child,
        };
        set_state(self.nodes.as_mut_slice(), node, split);
        Ok((left_child, right_child))
    }

    /// Closes a node in hand with the number of a leaf, which is kept as given.
    pub fn close(&mut self, node: NodeId, leaf: u32)
        requires { IsInHand self.old.states node.0 }
        ensures { self.new ≡ pool_with self.old node.0 (state.Closed leaf) }
    {
        set_state(self.nodes.as_mut_slice(), node, State::Closed(leaf));
    }

    /// Goes to the ranges of a node: those of the root, which are given, narrowed by the splits on its way, left and right. It takes no
    /// memory. The splits on the way are proper for this book, and there are as many intervals as at the root.
    pub fn box_of(&self, node: NodeId, book: &Book, root: &Ranges, into: &mut Ranges)
        requires way { (way : List Step) × IsWay self.now.states node.0 way × AreProper book.now way }
        requires root { root.now ≡ root_of book.now }
        requires lines { length into.old.lines ≡ length root.now.lines }
        requires sums { length into.old.sums ≡ length root.now.sums }
        ensures value { (way : List Step) → IsWay self.now.states node.0 way → AreProper book.now way → into.new ≡ ranges_at book.now way }
        ensures tight { AreTight book.now into.new }
    {
        narrow_up(self.nodes.as_slice(), node, book, root, into);
    }

    /// How many nodes there are, the root at least. They are one tree: each but the root is a child of exactly one split, and
    /// comes after it.
    pub fn count(&self) -> u32
        ensures value { result ≡ length self.now.states }
        ensures some { 1 ≤ result }
        ensures few { result ≤ self.now.capacity }
        ensures tree { IsOneTree self.now.states }
        ensures whole { SplitsAreWhole self.now.states }
    {
        self.nodes.len() as u32
    }

    /// How many nodes wait.
    pub fn waiting(&self) -> u32
        ensures { result ≡ count_by is_waiting self.now.states }
    {
        self.waiting
    }

    /// The nodes of the tree in preorder, left first: each split with its line and its number of units, each leaf by its number.
    ///
    /// # Errors
    ///
    /// Where memory ran out.
    pub fn tree(&self, alloc: Global) -> Result<Vec<Link>, NoMemory>
        requires { AreEnded self.now.states }
        ensures { IfOk result (λ links. IsPreorderOf self.now.states links.items) }
    {
        preorder_of(alloc, self.nodes.as_slice())
    }
}
