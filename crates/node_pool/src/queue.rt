//! The nodes that wait, as a queue.
ghost use Rattle.std.specs.Prelude.{◌≡◌, ◌<◌, ◌≤◌, ◌+◌, ◌-◌, ℕ, None, Some, length, slice_set};
ghost use Rattle.node_pool.specs.declared.node.State.TheVariants as state;
ghost use Rattle.node_pool.specs.Heap.{AreApart, KeepsNodes, lone_links, node_at};
ghost use Rattle.node_pool.specs.Pool.{IsLeast, with_state};
ghost use Rattle.node_pool.specs.Queue.{IsQueue, SomeQueue, states_of, times_waiting, with_node_state};

use crate::heap::merge;
use crate::node::{Links, Node, NodeId, State};

/// A node's state changes.
pub(crate) fn set_state(nodes: &mut [Node], node: NodeId, new: State)
    requires { node.0 < length nodes.old }
    ensures { nodes.new ≡ with_node_state nodes.old node.0 new }
{
    nodes[node.0 as usize].state = new;
}

// The links of a node.
fn links_at(nodes: &[Node], node: NodeId) -> Links
    requires { node.0 < length nodes.now }
    ensures { result ≡ (node_at nodes.now node.0).links }
{
    nodes[node.0 as usize].links
}

// A node waits, alone.
fn set_waiting(nodes: &mut [Node], node: NodeId, key: i128)
    requires { node.0 < length nodes.old }
    ensures { nodes.new ≡ slice_set nodes.old node.0 (record (node_at nodes.old node.0) { state = state.Waiting key; links = lone_links }) }
{
    let own = &mut nodes[node.0 as usize];
    own.state = State::Waiting(key);
    own.links = Links {
        left: None,
        right: None,
        rank: 1,
    };
}

/// Takes the first node of a queue into the hand; the link to those that still wait.
pub(crate) fn take_first(nodes: &mut [Node], first: NodeId) -> Option<NodeId>
    requires { SomeQueue nodes.old (Some first) }
    ensures states { states_of nodes.new ≡ with_state (states_of nodes.old) first.0 state.InHand }
    ensures parents { (number : ℕ) → (node_at nodes.new number).parent ≡ (node_at nodes.old number).parent }
    ensures least { IsLeast (states_of nodes.old) first.0 }
    ensures queue { (count : ℕ) → count ≤ 4_294_967_295 → IsQueue nodes.old (Some first) count → IsQueue nodes.new result (count - 1) }
    ensures some { (count : ℕ) → count ≤ 4_294_967_295 → IsQueue nodes.old (Some first) count → 1 ≤ count }
{
    let links = links_at(nodes, first);
    set_state(nodes, first, State::InHand);
    merge(nodes, links.left, links.right)
}

/// Lets a node wait that doesn't; the link to all that wait.
pub(crate) fn insert(
    nodes: &mut [Node],
    link: Option<NodeId>,
    node: NodeId,
    key: i128,
) -> Option<NodeId>
    requires queue { (count : ℕ) × (count < 4_294_967_295) × IsQueue nodes.old link count }
    requires there { node.0 < length nodes.old }
    requires out { times_waiting (node_at nodes.old node.0).state ≡ 0 }
    ensures states { states_of nodes.new ≡ with_state (states_of nodes.old) node.0 (state.Waiting key) }
    ensures parents { (number : ℕ) → (node_at nodes.new number).parent ≡ (node_at nodes.old number).parent }
    ensures queue { (count : ℕ) → count < 4_294_967_295 → IsQueue nodes.old link count → IsQueue nodes.new result (count + 1) }
{
    set_waiting(nodes, node, key);
    merge(nodes, link, Some(node))
}
