//! Pools whose nodes have drawn keys.
ghost use Rattle.std.specs.Prelude.{◌≤◌};

use figure_sheets::{Unread, number_of, up_to};
use node_pool::{NodeId, Pool};
use std::alloc::{AllocError, Global};

// The most splits of a tree.
const MOST_SPLITS: u64 = 4_999;

// A draw below a number; the state goes on.
fn draw(state: &mut u64, below: u64) -> u64
    requires { 1 ≤ below }
{
    *state = state
        .wrapping_mul(6_364_136_223_846_793_005)
        .wrapping_add(1_442_695_040_888_963_407);
    (*state >> 33) % below
}

// Splits the least node that waits, and keeps the keys of its children by their numbers. Whether there was room for them.
fn grow(pool: &mut Pool, keys: &mut Vec<u64>, left: u64, right: u64) -> Result<bool, AllocError> {
    let Some(node) = pool.pop_least() else {
        return Ok(false);
    };
    if pool
        .split(node, 0, 0, i128::from(left), i128::from(right))
        .is_err()
    {
        return Ok(false);
    }
    keys.push(left)?;
    keys.push(right)?;
    Ok(true)
}

// Closes the least node that waits.
fn close_first(pool: &mut Pool) -> Option<NodeId> {
    let node = pool.pop_least()?;
    pool.close(node, node.0);
    Some(node)
}

// How many nodes come in the order of their keys, and of their numbers where keys are equal, one after another.
fn in_order(pool: &mut Pool, keys: &[u64]) -> u32 {
    let mut before = None;
    for count in 0..pool.count() {
        let Some(node) = close_first(pool) else {
            return count;
        };
        let here = Some((keys.get(node.0 as usize).copied(), node.0));
        if before >= here {
            return count;
        }
        before = here;
    }
    pool.count()
}

/// How many nodes come in order, of a pool that is split so often, whose keys are drawn below a number.
pub(crate) fn drawn(alloc: Global, splits: &str, below: &str) -> Result<String, Unread> {
    let splits = up_to(splits, MOST_SPLITS)?;
    let below = number_of(below)?;
    if below == 0 {
        return Err(Unread::Argument);
    }
    let mut pool = Pool::make(alloc, 9_999, 0).map_err(|_| Unread::NoMemory)?;
    let mut keys = vec![in alloc; 0]?;
    let mut state = 1;
    for _ in 0..splits {
        let left = draw(&mut state, below);
        let right = draw(&mut state, below);
        if !grow(&mut pool, &mut keys, left, right)? {
            break;
        }
    }
    let count = in_order(&mut pool, keys.as_slice());
    Ok(format!(in alloc; "{count} of {}", pool.count())?)
}
