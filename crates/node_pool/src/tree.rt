//! The tree of a pool.
ghost use Rattle.std.specs.Prelude.{◌≡◌, ◌<◌, ◌≤◌, ◌++◌, length, IfOk, OnOk};
ghost use Rattle.node_pool.specs.Pool.{SplitsAreWhole};
ghost use Rattle.node_pool.specs.Queue.{states_of};
ghost use Rattle.node_pool.specs.Heap.{node_at};
ghost use Rattle.node_pool.specs.Tree.{AreEnded, IsPreorderOf, link_of, sides_of};

use crate::node::{Link, Node, NodeId, State};
use escrow_desk::NoMemory;
use std::alloc::Global;

// A node of a tree in preorder; the sides of a split are opened, the left one last.
fn open_node(nodes: &[Node], node: NodeId, open: &mut Vec<NodeId>) -> Result<Link, NoMemory>
    requires { node.0 < length nodes.now }
    ensures value { IfOk result (λ own. own ≡ link_of (node_at nodes.now node.0).state) }
    ensures open { OnOk result (open.new.items ≡ open.old.items ++ sides_of (node_at nodes.now node.0).state) }
{
    match nodes[node.0 as usize].state {
        State::Split {
            line,
            at,
            left,
            right,
        } => {
            open.push(right)?;
            open.push(left)?;
            Ok(Link::Split { line, at })
        }
        State::Closed(leaf) => Ok(Link::Leaf(leaf)),
        State::Waiting(_) | State::InHand => Ok(Link::Leaf(0)),
    }
}

/// The nodes of the tree below the root in preorder, left first.
pub(crate) fn preorder_of(alloc: Global, nodes: &[Node]) -> Result<Vec<Link>, NoMemory>
    requires some { 1 ≤ length nodes.now }
    requires ended { AreEnded (states_of nodes.now) }
    requires whole { SplitsAreWhole (states_of nodes.now) }
    ensures { IfOk result (λ links. IsPreorderOf (states_of nodes.now) links.items) }
{
    let mut links = Vec::with_capacity(alloc, nodes.len())?;
    let mut open = Vec::new(alloc);
    open.push(NodeId(0))?;
    while let Some(node) = open.pop() {
        links.push(open_node(nodes, node, &mut open)?)?;
    }
    Ok(links)
}
