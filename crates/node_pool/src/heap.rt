//! The heap of waiting nodes, linked by index.
ghost use Rattle.std.specs.Prelude.{◌≡◌, ◌<◌, ◌+◌, ◌≤◌, IfSome, None, Some, length, ◌⊎◌, ℕ};
ghost use Rattle.node_pool.specs.Heap.{AreApart, AreLeft, Heap, IsLeft, KeepsNodes, LeadsTo, SomeAreLeft, SomeIsLeft, comes_before, key_of as key_of_state, links_of, merged, node_at, rank_at, with_links};

use crate::node::{Links, Node, NodeId, State};
use std::cmp::Ordering;

// The key of a node that waits.
fn key_of(nodes: &[Node], node: NodeId) -> i128
    requires { node.0 < length nodes.now }
    ensures { result ≡ key_of_state (node_at nodes.now node.0).state }
{
    match nodes[node.0 as usize].state {
        State::Waiting(key) => key,
        _ => 0,
    }
}

// Whether a node comes before another: by key, and then by number.
fn precedes(nodes: &[Node], node: NodeId, other: NodeId) -> bool
    requires node { node.0 < length nodes.now }
    requires other { other.0 < length nodes.now }
    ensures { result ≡ comes_before node.0 (key_of_state (node_at nodes.now node.0).state) other.0 (key_of_state (node_at nodes.now other.0).state) }
{
    match key_of(nodes, node).cmp(&key_of(nodes, other)) {
        Ordering::Less => true,
        Ordering::Equal => node.0 < other.0,
        Ordering::Greater => false,
    }
}

// The rank of the node that a link leads to; where it leads to none, 0.
fn rank_of(nodes: &[Node], link: Option<NodeId>) -> u32
    requires { IfSome link (λ node. node.0 < length nodes.now) }
    ensures { result ≡ rank_at nodes.now link }
{
    match link {
        Some(node) => nodes[node.0 as usize].links.rank,
        None => 0,
    }
}

// Links a node to the heap on its left and another: the one with the longer way to the right goes to the left.
fn attach(nodes: &mut [Node], node: NodeId, other: Option<NodeId>)
    requires node { node.0 < length nodes.old }
    requires left { IfSome (node_at nodes.old node.0).links.left (λ left. left.0 < length nodes.old) }
    requires other { IfSome other (λ top. top.0 < length nodes.old) }
    requires left_rank { rank_at nodes.old (node_at nodes.old node.0).links.left < 4_294_967_295 }
    requires other_rank { rank_at nodes.old other < 4_294_967_295 }
    ensures { nodes.new ≡ with_links nodes.old node.0 (links_of (node_at nodes.old node.0).links.left other
        (rank_at nodes.old (node_at nodes.old node.0).links.left) (rank_at nodes.old other)) }
{
    let left = nodes[node.0 as usize].links.left;
    let left_rank = rank_of(nodes, left);
    let other_rank = rank_of(nodes, other);
    nodes[node.0 as usize].links = if left_rank < other_rank {
        Links {
            left: other,
            right: left,
            rank: left_rank + 1,
        }
    } else {
        Links {
            left,
            right: other,
            rank: other_rank + 1,
        }
    };
}

// The right link of a node.
fn right_of(nodes: &[Node], node: NodeId) -> Option<NodeId>
    requires { node.0 < length nodes.now }
    ensures { result ≡ (node_at nodes.now node.0).links.right }
{
    nodes[node.0 as usize].links.right
}

// Takes the right link of a node, and puts another in its place.
fn hang(nodes: &mut [Node], node: NodeId, link: Option<NodeId>) -> Option<NodeId>
    requires { node.0 < length nodes.old }
    ensures taken { result ≡ (node_at nodes.old node.0).links.right }
    ensures value { nodes.new ≡ with_links nodes.old node.0 (record (node_at nodes.old node.0).links { right = link }) }
{
    let links = &mut nodes[node.0 as usize].links;
    let right = links.right;
    links.right = link;
    right
}

// Two heaps that are left of a merge, and the way above them.
#[derive(Clone, Copy, Debug, PartialEq, Eq)]
pub(crate) struct Descent {
    spine: Option<NodeId>,
    first: Option<NodeId>,
    second: Option<NodeId>,
}

// One step down: from the lesser of two tops to the heap on its right. Its right link leads back up for the while.
fn go_down(nodes: &mut [Node], down: Descent, node: NodeId, other: NodeId) -> Descent
    requires first { down.first ≡ Some node }
    requires second { down.second ≡ Some other }
    requires left { (whole : Heap) × SomeAreLeft nodes.old down whole }
    ensures value { (steps : ℕ) (whole : Heap) → AreLeft nodes.old steps down whole → AreLeft nodes.new (steps + 1) result whole }
    ensures kept { KeepsNodes nodes.old nodes.new }
{
    if precedes(nodes, node, other) {
        let right = hang(nodes, node, down.spine);
        return Descent {
            spine: Some(node),
            first: right,
            second: down.second,
        };
    }
    let right = hang(nodes, other, down.spine);
    Descent {
        spine: Some(other),
        first: down.first,
        second: right,
    }
}

// Goes down to the right of two heaps, each time from the lesser of their tops, until one is empty.
fn descend(nodes: &mut [Node], first: Option<NodeId>, second: Option<NodeId>) -> Descent
    requires { AreApart nodes.old first second }
    ensures value { (apart : AreApart nodes.old first second) → SomeAreLeft nodes.new result (merged apart.one apart.other) }
    ensures kept { KeepsNodes nodes.old nodes.new }
    ensures done { (result.first ≡ None) ⊎ (result.second ≡ None) }
{
    let mut down = Descent {
        spine: None,
        first,
        second,
    };
    for _ in 0..u64::MAX {
        let (Some(node), Some(other)) = (down.first, down.second) else {
            return down;
        };
        down = go_down(nodes, down, node, other);
    }
    down
}

// One step back up: the node is linked to the heap on its left and another. The link above it is given.
fn go_up(nodes: &mut [Node], node: NodeId, link: Option<NodeId>) -> Option<NodeId>
    requires { SomeIsLeft nodes.old (Some node) link }
    ensures value { (steps : ℕ) (whole : Heap) → IsLeft nodes.old steps (Some node) link whole → IsLeft nodes.new (steps + 1) result (Some node) whole }
    ensures kept { KeepsNodes nodes.old nodes.new }
{
    let above = right_of(nodes, node);
    attach(nodes, node, link);
    above
}

// Goes the way back up from a heap.
fn ascend(nodes: &mut [Node], spine: Option<NodeId>, rest: Option<NodeId>) -> Option<NodeId>
    requires { (whole : Heap) × IsLeft nodes.old 0 spine rest whole }
    ensures value { (whole : Heap) → IsLeft nodes.old 0 spine rest whole → LeadsTo nodes.new result whole }
    ensures kept { KeepsNodes nodes.old nodes.new }
{
    let mut above = spine;
    let mut link = rest;
    for _ in 0..u64::MAX {
        let Some(node) = above else {
            return link;
        };
        above = go_up(nodes, node, link);
        link = Some(node);
    }
    link
}

/// Two heaps as one. It takes no memory, and as many steps as the ways to the right of both have nodes.
pub(crate) fn merge(
    nodes: &mut [Node],
    first: Option<NodeId>,
    second: Option<NodeId>,
) -> Option<NodeId>
    requires { AreApart nodes.old first second }
    ensures value { (apart : AreApart nodes.old first second) → LeadsTo nodes.new result (merged apart.one apart.other) }
    ensures kept { KeepsNodes nodes.old nodes.new }
{
    let down = descend(nodes, first, second);
    ascend(nodes, down.spine, down.first.or(down.second))
}
