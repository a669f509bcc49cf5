//! The ranges of a node, by the splits on its way to the root.
ghost use Rattle.std.specs.Prelude.{◌≡◌, ◌<◌, length, List};
ghost use Rattle.node_ranges.specs.Ranges.{AreTight, root_of};
ghost use Rattle.node_pool.specs.Heap.{node_at};
ghost use Rattle.node_pool.specs.Pool.{SplitsAreWhole};
ghost use Rattle.node_pool.specs.Queue.{AreParents, states_of};
ghost use Rattle.node_pool.specs.Way.{AreProper, IsWay, Step, narrowed_by, ranges_at};

use crate::node::{Node, NodeId, State};
use node_ranges::{Ranges, range_laws};
use offer_book::Book;
use proof_tree::Part;

// Goes to the side of a split on which a child is, where the split is proper in these ranges; where it isn't, ranges further down
// have narrowed that end already.
fn narrow_by(state: State, child: NodeId, book: &Book, into: &mut Ranges)
    requires { AreTight book.now into.old }
    ensures value { into.new ≡ narrowed_by book.now into.old state child.0 }
    ensures tight { AreTight book.now into.new }
{
    if let State::Split {
        line,
        at,
        right,
        ..
    } = state
    {
        let part = Part::Line(line);
        if into.proper(part, at) {
            into.narrow(book, part, at, right.0 == child.0);
        }
    }
}

// Goes back to the ranges of the root.
fn go_to_root(book: &Book, root: &Ranges, into: &mut Ranges)
    requires root { root.now ≡ root_of book.now }
    requires lines { length into.old.lines ≡ length root.now.lines }
    requires sums { length into.old.sums ≡ length root.now.sums }
    ensures value { into.new ≡ root_of book.now }
    ensures tight { AreTight book.now into.new }
{
    range_laws();
    // A book keeps its limits.
    prove!(book.line_count() > 0);
    into.copy(root);
}

// The parent of a node.
fn parent_of(nodes: &[Node], node: NodeId) -> Option<NodeId>
    requires { node.0 < length nodes.now }
    ensures { result ≡ (node_at nodes.now node.0).parent }
{
    nodes[node.0 as usize].parent
}

// The state of a node.
fn state_of(nodes: &[Node], node: NodeId) -> State
    requires { node.0 < length nodes.now }
    ensures { result ≡ (node_at nodes.now node.0).state }
{
    nodes[node.0 as usize].state
}

/// Goes to the ranges of a node; those of the root are given.
pub(crate) fn narrow_up(nodes: &[Node], node: NodeId, book: &Book, root: &Ranges, into: &mut Ranges)
    requires whole { SplitsAreWhole (states_of nodes.now) }
    requires parents { AreParents nodes.now }
    requires way { (way : List Step) × IsWay (states_of nodes.now) node.0 way × AreProper book.now way }
    requires root { root.now ≡ root_of book.now }
    requires lines { length into.old.lines ≡ length root.now.lines }
    requires sums { length into.old.sums ≡ length root.now.sums }
    ensures value { (way : List Step) → IsWay (states_of nodes.now) node.0 way → AreProper book.now way → into.new ≡ ranges_at book.now way }
    ensures tight { AreTight book.now into.new }
{
    range_laws();
    go_to_root(book, root, into);
    let mut child = node;
    while child.0 != 0 {
        let Some(parent) = parent_of(nodes, child) else {
            return;
        };
        narrow_by(state_of(nodes, parent), child, book, into);
        child = parent;
    }
}
