//! Packs a certificate: leaves share their prices.
ghost use Rattle.std.specs.Prelude.{◌≡◌, ◌≤◌, ◌<◌, ◌+◌, All, IfOk, Some, None, false, length};
ghost use Rattle.std.specs.Bool.{Decides};
ghost use Rattle.bound_certificate.specs.Certificate.{IsPlainNode};
ghost use Rattle.bound_certificate.specs.Packed.{IsPackableCert, vector_of};
ghost use Rattle.bound_certificate.specs.declared.limits.TheConstants.{MOST_VECTORS};
ghost use Rattle.certificate_packing.specs.Packing.{HaveLength, IsDifference, IsLeafPacked, IsNodePacked, IsPackedOf, IsPackingAt, IsPackingLeaf};

use crate::vector_choice::{choose_vectors, count_steps};
use bound_certificate::{
    Certificate, Change, Changes, MOST_DATES, Packed, PackedNode, PackedNodes, copied_buys,
};
use escrow_desk::NoMemory;
use proof_tree::{Leaf, PRICE_SCALE, Part, Prices, TreeNode};
use std::alloc::Global;

// Whether versions 1 and 2 can say a node: a split of a line, a point, or a leaf without weights of sums at which the cost counts wholly or
// not at all.
fn is_plain(node: &TreeNode) -> bool
    ensures { Decides result (IsPlainNode node.now) }
{
    match node {
        TreeNode::Split { part, .. } => matches!(part, Part::Line(_)),
        TreeNode::Point => true,
        TreeNode::Closed(leaf) => {
            (leaf.rho == 0 || leaf.rho == PRICE_SCALE) && leaf.weights.as_slice().is_empty()
        }
    }
}

// Whether versions 1 and 2 can say each node.
fn are_plain(nodes: &[TreeNode]) -> bool
    ensures { Decides result (All IsPlainNode nodes.now) }
{
    for node in nodes {
        if !is_plain(node) {
            return false;
        }
    }
    true
}

// The places at which prices differ from a vector's, with the prices there.
fn difference(alloc: Global, vector: &[u64], prices: &[u64]) -> Result<Vec<Change>, NoMemory>
    requires same { length vector.now ≡ length prices.now }
    requires few { length prices.now ≤ MOST_DATES }
    ensures { IfOk result (λ changes. IsDifference (Some vector.now) prices.now changes.items) }
{
    let mut changes = Vec::new(alloc);
    for place in 0..prices.len() {
        if vector[place] == prices[place] {
            continue;
        }
        changes.push(Change {
            place: place as u16 + 1,
            price: prices[place],
        })?;
    }
    Ok(changes)
}

// The places at which prices differ from the one before, which first is the greatest, with the prices there.
fn steps(alloc: Global, prices: &[u64]) -> Result<Vec<Change>, NoMemory>
    requires { length prices.now ≤ MOST_DATES }
    ensures { IfOk result (λ changes. IsDifference None prices.now changes.items) }
{
    let mut changes = Vec::new(alloc);
    let mut before = 2 * PRICE_SCALE;
    for place in 0..prices.len() {
        if prices[place] == before {
            continue;
        }
        before = prices[place];
        changes.push(Change {
            place: place as u16 + 1,
            price: before,
        })?;
    }
    Ok(changes)
}

// At how many places prices differ from a vector's, as far as that is at most a count: else one more than it.
fn count_changes(vector: &[u64], prices: &[u64], most: usize) -> usize
    requires same { length vector.now ≡ length prices.now }
    requires few { most ≤ length prices.now }
    requires short { length prices.now ≤ MOST_DATES }
    ensures { result ≤ most + 1 }
{
    let mut changes = 0;
    for place in 0..prices.len() {
        if vector[place] != prices[place] {
            changes += 1;
            if changes > most {
                return changes;
            }
        }
    }
    changes
}

// The vector from which prices differ at the fewest places, counted from 0, the last of those that tie.
fn nearest(vectors: &[Prices], prices: &[u64]) -> usize
    requires some { 0 < length vectors.now }
    requires same { HaveLength (length prices.now) vectors.now }
    requires short { length prices.now ≤ MOST_DATES }
    ensures { result < length vectors.now }
{
    let mut nearest = 0;
    let mut fewest = prices.len();
    for (vector, others) in vectors.iter().enumerate() {
        let changes = count_changes(others.as_slice(), prices, fewest);
        if changes <= fewest {
            nearest = vector;
            fewest = changes;
        }
    }
    nearest
}

// The prices of a leaf: the number of its vector, from 1, and its changes from that; or 0, and its steps as stairs.
#[derive(Drop)]
struct Form {
    vector: u16,
    changes: Vec<Change>,
}

// Prices as stairs.
fn stairs_form(alloc: Global, prices: &[u64]) -> Result<Form, NoMemory>
    requires { length prices.now ≤ MOST_DATES }
    ensures vector { IfOk result (λ form. form.vector ≡ 0) }
    ensures steps { IfOk result (λ form. IsDifference None prices.now form.changes.items) }
{
    Ok(Form {
        vector: 0,
        changes: steps(alloc, prices)?,
    })
}

// Prices with changes from the nearest vector, or as stairs where they may be and have fewer steps, or there is no vector.
fn form_of(
    alloc: Global,
    vectors: &[Prices],
    stairs: bool,
    prices: &[u64],
) -> Result<Form, NoMemory>
    requires some { stairs ≡ false → 0 < length vectors.now }
    requires few { length vectors.now ≤ MOST_VECTORS }
    requires same { HaveLength (length prices.now) vectors.now }
    requires short { length prices.now ≤ MOST_DATES }
    ensures first { IfOk result (λ form. stairs ≡ false → 1 ≤ form.vector) }
    ensures last { IfOk result (λ form. form.vector ≤ length vectors.now) }
    ensures form { IfOk result (λ form. IsDifference (vector_of vectors.now form.vector) prices.now form.changes.items) }
{
    if vectors.is_empty() {
        return stairs_form(alloc, prices);
    }
    let place = nearest(vectors, prices);
    let vector = vectors[place].as_slice();
    if stairs && usize::from(count_steps(prices)) < count_changes(vector, prices, prices.len()) {
        return stairs_form(alloc, prices);
    }
    Ok(Form {
        vector: place as u16 + 1,
        changes: difference(alloc, vector, prices)?,
    })
}

// A leaf with changes from the nearest vector, or as stairs where it may have them and they are shorter.
fn pack_leaf(
    alloc: Global,
    vectors: &[Prices],
    stairs: bool,
    leaf: &Leaf,
) -> Result<PackedNode, NoMemory>
    requires { IsPackingLeaf stairs vectors.now leaf.now }
    ensures { IfOk result (IsLeafPacked stairs vectors.now leaf.now) }
{
    let form = form_of(alloc, vectors, stairs, leaf.prices.as_slice())?;
    Ok(PackedNode::Closed {
        rho: leaf.rho,
        mu: leaf.mu,
        vector: form.vector,
        changes: Changes::new(form.changes),
        weights: leaf.weights.copy(alloc)?,
    })
}

// Packs a node, of which leaves may have stairs or not.
fn pack_node(
    alloc: Global,
    vectors: &[Prices],
    stairs: bool,
    node: &TreeNode,
) -> Result<PackedNode, NoMemory>
    requires { IsPackingAt stairs vectors.now node.now }
    ensures { IfOk result (IsNodePacked stairs vectors.now node.now) }
{
    match node {
        TreeNode::Split { part, at } => Ok(PackedNode::Split {
            part: *part,
            at: *at,
        }),
        TreeNode::Point => Ok(PackedNode::Point),
        TreeNode::Closed(leaf) => pack_leaf(alloc, vectors, stairs, leaf),
    }
}

/// Packs a certificate: its leaves share at most 64 vectors of prices, and each has its own price at the places at which it differs. Where
/// version 2 can't say the certificate, a leaf has stairs if these are shorter. It takes time in proportion to the prices times the
/// leaves that are tried as vectors, at most 256.
///
/// # Errors
///
/// Where memory ran out.
pub fn pack(alloc: Global, cert: &Certificate) -> Result<Packed, NoMemory>
    requires { IsPackableCert cert.now }
    ensures { IfOk result (IsPackedOf cert.now) }
{
    let stairs = !are_plain(cert.nodes.as_slice());
    let vectors = choose_vectors(alloc, cert.nodes.as_slice(), stairs)?;
    let mut nodes = Vec::with_capacity(alloc, cert.nodes.as_slice().len())?;
    for node in cert.nodes.as_slice() {
        nodes.push(pack_node(alloc, vectors.as_slice(), stairs, node)?)?;
    }
    Ok(Packed {
        buys: copied_buys(alloc, cert.buys.as_ref())?,
        gap: cert.gap,
        vectors,
        nodes: PackedNodes::new(nodes),
    })
}
