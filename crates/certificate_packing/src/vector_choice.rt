//! The vectors of a packed certificate: prices of some of its leaves, to which those of the others are near.
ghost use Rattle.std.specs.Prelude.{◌≡◌, ◌≤◌, ◌<◌, All, IfOk, false, length, true};
ghost use Rattle.std.specs.Bool.{Decides};
ghost use Rattle.certificate_packing.specs.Packing.{AreLeafPrices, IsCandidateOf, IsLeafNode, IsLeafPlace, IsSomeForLeaf, node_prices};

use bound_certificate::{MOST_VECTORS, Vectors};
use escrow_desk::NoMemory;
use proof_tree::{PRICE_SCALE, Prices, TreeNode};
use std::alloc::Global;

// The prices of at most so many leaves are tried as vectors: of the first that differ from each other.
const MOST_CANDIDATES: usize = 256;

/// A leaf whose prices may become a vector.
#[derive(Drop)]
pub(crate) struct Candidate {
    /// The place of the leaf among the nodes.
    pub leaf: usize,
    /// At how many places the prices of each leaf differ from its own, in the order of the leaves.
    pub differences: Vec<u16>,
}

// The candidate with which most changes are saved, and how many.
#[derive(Clone, Copy, Debug)]
struct Best {
    candidate: usize,
    saved: u64,
}

// The prices of a leaf; another node has none.
fn prices_of(node: &TreeNode) -> &[u64]
    ensures { result.now ≡ node_prices node.now }
{
    match node {
        TreeNode::Closed(leaf) => leaf.prices.as_slice(),
        _ => &[],
    }
}

// Whether a node is a leaf.
fn is_leaf(node: &TreeNode) -> bool
    ensures { Decides result (IsLeafNode node.now) }
{
    matches!(node, TreeNode::Closed(_))
}

// The places of the leaves among the nodes.
fn list_leaves(alloc: Global, nodes: &[TreeNode]) -> Result<Vec<usize>, NoMemory>
    ensures leaves { IfOk result (λ leaves. All (IsLeafPlace nodes.now) leaves.items) }
    ensures some { IfOk result (λ leaves. IsSomeForLeaf nodes.now (length leaves.items)) }
{
    let mut leaves = Vec::new(alloc);
    for (place, node) in nodes.iter().enumerate() {
        if is_leaf(node) {
            leaves.push(place)?;
        }
    }
    Ok(leaves)
}

// At how many places prices differ, as far as both go.
fn count_differences(first: &[u64], second: &[u64]) -> u16 {
    let mut count = 0u16;
    for (one, other) in first.iter().zip(second) {
        if one != other {
            count = count.saturating_add(1);
        }
    }
    count
}

// As how many changes from the one before prices are said as stairs, where the first is compared with the greatest.
pub(crate) fn count_steps(prices: &[u64]) -> u16 {
    let mut count = 0u16;
    let mut before = 2 * PRICE_SCALE;
    for price in prices {
        if *price != before {
            count = count.saturating_add(1);
        }
        before = *price;
    }
    count
}

impl Candidate {
    // A leaf as a candidate.
    fn of(
        alloc: Global,
        nodes: &[TreeNode],
        leaves: &[usize],
        leaf: usize,
    ) -> Result<Candidate, NoMemory>
        requires leaves { All (IsLeafPlace nodes.now) leaves.now }
        requires leaf { IsLeafPlace nodes.now leaf }
        ensures { IfOk result (IsCandidateOf nodes.now) }
    {
        let prices = prices_of(&nodes[leaf]);
        let mut differences = Vec::with_capacity(alloc, leaves.len())?;
        for other in leaves {
            differences.push(count_differences(prices, prices_of(&nodes[*other])))?;
        }
        Ok(Candidate { leaf, differences })
    }
}

// Whether no candidate has the prices of a leaf.
fn is_new(nodes: &[TreeNode], candidates: &[Candidate], leaf: usize) -> bool
    requires candidates { All (IsCandidateOf nodes.now) candidates.now }
    requires leaf { IsLeafPlace nodes.now leaf }
    ensures { length candidates.now ≡ 0 → result ≡ true }
{
    let prices = prices_of(&nodes[leaf]);
    for candidate in candidates {
        if prices_of(&nodes[candidate.leaf]) == prices {
            return false;
        }
    }
    true
}

// The candidates among the leaves.
fn list_candidates(
    alloc: Global,
    nodes: &[TreeNode],
    leaves: &[usize],
) -> Result<Vec<Candidate>, NoMemory>
    requires { All (IsLeafPlace nodes.now) leaves.now }
    ensures candidates { IfOk result (λ candidates. All (IsCandidateOf nodes.now) candidates.items) }
    ensures some { IfOk result (λ candidates. 0 < length leaves.now → 0 < length candidates.items) }
{
    let mut candidates = Vec::new(alloc);
    for leaf in leaves {
        if candidates.len() < MOST_CANDIDATES && is_new(nodes, candidates.as_slice(), *leaf) {
            candidates.push(Candidate::of(alloc, nodes, leaves, *leaf)?)?;
        }
    }
    Ok(candidates)
}

// How many changes a candidate saves, where each leaf has so many now.
fn saved_by(changes: &[u16], differences: &[u16]) -> u64 {
    let mut saved = 0u64;
    for (before, differing) in changes.iter().zip(differences) {
        saved = saved.saturating_add(u64::from(before.saturating_sub(*differing)));
    }
    saved
}

// The candidate with which most changes are saved, the first of those that tie.
fn best_of(candidates: &[Candidate], changes: &[u16]) -> Best
    requires { 0 < length candidates.now }
    ensures { result.candidate < length candidates.now }
{
    let mut best = Best {
        candidate: 0,
        saved: 0,
    };
    for (candidate, own) in candidates.iter().enumerate() {
        let saved = saved_by(changes, own.differences.as_slice());
        if saved > best.saved {
            best = Best { candidate, saved };
        }
    }
    best
}

// How many changes each leaf has, with a candidate more.
fn take_candidate(changes: &mut [u16], differences: &[u16]) {
    for (fewest, differing) in changes.iter_mut().zip(differences) {
        *fewest = (*fewest).min(*differing);
    }
}

// How many changes each leaf has before there is a vector: as stairs its steps, and else more than any.
fn first_changes(
    alloc: Global,
    nodes: &[TreeNode],
    leaves: &[usize],
    stairs: bool,
) -> Result<Vec<u16>, NoMemory>
    requires { All (IsLeafPlace nodes.now) leaves.now }
{
    let mut changes = Vec::with_capacity(alloc, leaves.len())?;
    for leaf in leaves {
        let count = if stairs {
            count_steps(prices_of(&nodes[*leaf]))
        } else {
            u16::MAX
        };
        changes.push(count)?;
    }
    Ok(changes)
}

// One candidate, unless leaves may have stairs, and then those that save more changes than they have prices, each time the one that saves
// most, as far as there is room.
fn choose(
    alloc: Global,
    nodes: &[TreeNode],
    candidates: &[Candidate],
    stairs: bool,
    mut changes: Vec<u16>,
) -> Result<Vectors, NoMemory>
    requires candidates { All (IsCandidateOf nodes.now) candidates.now }
    requires some { 0 < length candidates.now }
    ensures prices { IfOk result (AreLeafPrices nodes.now) }
    ensures few { IfOk result (λ vectors. length vectors ≤ MOST_VECTORS) }
    ensures some { IfOk result (λ vectors. stairs ≡ false → 0 < length vectors) }
{
    let mut vectors = Vectors::new(Vec::new(alloc));
    while vectors.as_slice().len() < MOST_VECTORS as usize {
        let best = best_of(candidates, changes.as_slice());
        let own = &candidates[best.candidate];
        let prices = prices_of(&nodes[own.leaf]);
        if best.saved <= prices.len() as u64 && (stairs || !vectors.as_slice().is_empty()) {
            return Ok(vectors);
        }
        take_candidate(changes.as_mut_slice(), own.differences.as_slice());
        vectors.push(Prices::new(prices.to_vec(alloc)?))?;
    }
    Ok(vectors)
}

/// Vectors for the leaves among nodes, at most 64, and one at least where there is a leaf, unless leaves may have stairs: each is the
/// prices of a leaf, and each but the first one that has to be saves more changes than it has prices.
///
/// # Errors
///
/// Where memory ran out.
pub(crate) fn choose_vectors(
    alloc: Global,
    nodes: &[TreeNode],
    stairs: bool,
) -> Result<Vectors, NoMemory>
    ensures prices { IfOk result (AreLeafPrices nodes.now) }
    ensures few { IfOk result (λ vectors. length vectors ≤ MOST_VECTORS) }
    ensures some { IfOk result (λ vectors. stairs ≡ false → IsSomeForLeaf nodes.now (length vectors)) }
{
    let leaves = list_leaves(alloc, nodes)?;
    let candidates = list_candidates(alloc, nodes, leaves.as_slice())?;
    if candidates.is_empty() {
        return Ok(Vectors::new(Vec::new(alloc)));
    }
    let changes = first_changes(alloc, nodes, leaves.as_slice(), stairs)?;
    choose(alloc, nodes, candidates.as_slice(), stairs, changes)
}
