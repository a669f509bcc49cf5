//! Pools of nodes, of which the least that waits is taken again and again.
ghost use Rattle.std.specs.Prelude.{◌≤◌, IfOk};
ghost use Rattle.node_pool.specs.Pool.{NoneInHand};

use figure_sheets::{Unread, number_of, up_to};
use node_pool::{Full, Link, NodeId, Pool};
use std::alloc::{AllocError, Global};

// The most nodes of a pool.
const MOST_NODES: u64 = 10_000;

// What is done with the least node that waits, or asked of a pool.
#[derive(Clone, Copy)]
enum Step {
    // It is put back with another key.
    Put(i64),
    // It is split, or closed where the pool is full.
    Split {
        line: u16,
        at: u64,
        left: i64,
        right: i64,
    },
    // It is closed with its own number.
    Close,
    // How many nodes there are.
    Count,
    // How many wait.
    Waiting,
    // How many nodes the tree has in preorder.
    Nodes,
    // A node of the tree in preorder, counted from 0.
    Node(u16),
}

// The key of a word.
fn key_of(word: &str) -> Result<i64, Unread> {
    word.parse().map_err(|_| Unread::Argument)
}

// The place of a word, or the line.
fn place_of(word: &str) -> Result<u16, Unread> {
    word.parse().map_err(|_| Unread::Argument)
}

// The step of a word such as `split:3:8:2:2`.
fn step_of(alloc: Global, word: &str) -> Result<Step, Unread> {
    let mut fields = Vec::new(alloc);
    for field in word.split(':') {
        fields.push(field)?;
    }
    match fields.as_slice() {
        ["put", key] => Ok(Step::Put(key_of(key)?)),
        ["split", line, at, left, right] => Ok(Step::Split {
            line: place_of(line)?,
            at: number_of(at)?,
            left: key_of(left)?,
            right: key_of(right)?,
        }),
        ["close"] => Ok(Step::Close),
        ["count"] => Ok(Step::Count),
        ["waiting"] => Ok(Step::Waiting),
        ["nodes"] => Ok(Step::Nodes),
        ["node", place] => Ok(Step::Node(place_of(place)?)),
        _ => Err(Unread::Argument),
    }
}

// Puts the least node back with another key.
fn put_first(pool: &mut Pool, key: i64) -> Option<NodeId>
    requires { NoneInHand pool.old.states }
    ensures { NoneInHand pool.new.states }
{
    let node = pool.pop_least()?;
    pool.put_back(node, i128::from(key));
    Some(node)
}

// Closes the least node with its own number.
fn close_first(pool: &mut Pool) -> Option<NodeId>
    requires { NoneInHand pool.old.states }
    ensures { NoneInHand pool.new.states }
{
    let node = pool.pop_least()?;
    pool.close(node, node.0);
    Some(node)
}

// A node that was to be split, with its children, if the pool had room for them.
#[derive(Drop)]
struct Made {
    node: NodeId,
    children: Result<(NodeId, NodeId), Full>,
}

// Splits the least node, or closes it where the pool is full.
fn split_first(pool: &mut Pool, line: u16, at: u64, left: i64, right: i64) -> Option<Made>
    requires { NoneInHand pool.old.states }
    ensures { NoneInHand pool.new.states }
{
    let node = pool.pop_least()?;
    let children = pool.split(node, line, at, i128::from(left), i128::from(right));
    if children.is_err() {
        pool.close(node, 0);
    }
    Some(Made { node, children })
}

// A node, if there is one.
fn node_text(alloc: Global, node: Option<NodeId>) -> Result<String, AllocError> {
    match node {
        Some(node) => format!(in alloc; "{}", node.0),
        None => String::from_str(alloc, "none"),
    }
}

// A node that was to be split, and its children.
fn made_text(alloc: Global, made: Option<Made>) -> Result<String, AllocError> {
    let Some(made) = made else {
        return String::from_str(alloc, "none");
    };
    match made.children {
        Ok((left, right)) => format!(in alloc; "{} into {} {}", made.node.0, left.0, right.0),
        Err(Full) => format!(in alloc; "{} full", made.node.0),
    }
}

// The nodes of the tree in preorder, where none waits.
fn tree_of(alloc: Global, pool: &Pool) -> Result<Vec<Link>, Unread>
    requires { NoneInHand pool.now.states }
{
    if pool.waiting() > 0 {
        return Err(Unread::Argument);
    }
    pool.tree(alloc).map_err(|_| Unread::NoMemory)
}

// A node of the tree in preorder.
fn link_text(alloc: Global, link: Option<&Link>) -> Result<String, AllocError> {
    match link {
        Some(Link::Split { line, at }) => format!(in alloc; "split {line} {at}"),
        Some(Link::Leaf(leaf)) => format!(in alloc; "leaf {leaf}"),
        None => String::from_str(alloc, "none"),
    }
}

// Takes a step, and tells what it comes to.
fn take(alloc: Global, pool: &mut Pool, step: Step) -> Result<String, Unread>
    requires { NoneInHand pool.old.states }
    ensures { NoneInHand pool.new.states }
{
    let told = match step {
        Step::Put(key) => node_text(alloc, put_first(pool, key)),
        Step::Close => node_text(alloc, close_first(pool)),
        Step::Split {
            line,
            at,
            left,
            right,
        } => made_text(alloc, split_first(pool, line, at, left, right)),
        Step::Count => format!(in alloc; "{}", pool.count()),
        Step::Waiting => format!(in alloc; "{}", pool.waiting()),
        Step::Nodes => format!(in alloc; "{}", tree_of(alloc, pool)?.len()),
        Step::Node(place) => link_text(alloc, tree_of(alloc, pool)?.get(usize::from(place))),
    };
    Ok(told?)
}

// How often a step of a word is taken, and the word of the step: of `3*close` three times `close`.
fn repeated(word: &str) -> (u32, &str) {
    let Some((count, step)) = word.split_once('*') else {
        return (1, word);
    };
    match count.parse() {
        Ok(count) => (count, step),
        Err(_) => (1, word),
    }
}

// Takes a step so often, and tells what it comes to the last time.
fn take_times(alloc: Global, pool: &mut Pool, step: Step, times: u32) -> Result<String, Unread>
    requires { NoneInHand pool.old.states }
    ensures { NoneInHand pool.new.states }
{
    let mut told = String::new(alloc);
    for _ in 0..times {
        told = take(alloc, pool, step)?;
    }
    Ok(told)
}

/// What the last of some steps comes to, of a pool with room for so many nodes, whose root waits with a key.
pub(crate) fn steps(
    alloc: Global,
    capacity: &str,
    key: &str,
    words: &[&str],
) -> Result<String, Unread> {
    let capacity = up_to(capacity, MOST_NODES)?;
    let key = key_of(key)?;
    if capacity == 0 {
        return Err(Unread::Argument);
    }
    let made = Pool::make(alloc, capacity as u32, i128::from(key));
    let mut pool = made.map_err(|_| Unread::NoMemory)?;
    let mut told = String::new(alloc);
    for word in words {
        let (times, step) = repeated(word);
        told = take_times(alloc, &mut pool, step_of(alloc, step)?, times)?;
    }
    Ok(told)
}
