//! The library's face: texts of version 1, and certificates that are unpacked. The program itself writes packed ones.
ghost use Rattle.std.specs.Prelude.{◌≡◌, ◌≤◌, ◌<◌, ◌++◌, map, All, AllPairs, IfOk, OnOk, Some, None, length, option_map, true};
ghost use Rattle.std.specs.List.{flat_map};
ghost use Rattle.bound_certificate.specs.Certificate.{IsWritable};
ghost use Rattle.bound_certificate.specs.Grammar.{ArePlaces, are_rising, places_of};
ghost use Rattle.bound_certificate.specs.Packed.{HasLength, IsChange, IsPackable, IsPackedWellFormed, IsUnpackable, changed, unpacked, unpacked_node as unpacked_node_of, vector_of};
ghost use Rattle.bound_certificate.specs.Text.{line_text, text_of, tree_line};
ghost use Rattle.bound_certificate.specs.declared.line.Line.TheVariants as line;

use crate::certificate::{Certificate, copied_buys};
use crate::limits::MOST_DATES;
use crate::packed::{Change, Packed, PackedNode};
use crate::taken::{put_changes, put_stairs};
use crate::version::Version;
use crate::weighing::Weighing;
use crate::write::{push_begin, push_line, push_number, push_numbers, push_split};
use escrow_desk::NoMemory;
use proof_tree::{Leaf, Nodes, Prices, TreeNode};
use std::alloc::Global;

// Adds the line of a leaf.
fn push_leaf(text: &mut Vec<u8>, leaf: &Leaf) -> Result<(), NoMemory>
    ensures { OnOk result (text.new.items ≡ text.old.items ++ line_text (line.Leaf leaf.now)) }
{
    text.push(b'l')?;
    push_number(text, Weighing::WholeOrNone.number(leaf.rho))?;
    push_number(text, leaf.mu)?;
    push_numbers(text, leaf.prices.as_slice())?;
    text.push(b'\n')?;
    Ok(())
}

// Adds the line of a node.
fn push_node(text: &mut Vec<u8>, node: &TreeNode) -> Result<(), NoMemory>
    ensures { OnOk result (text.new.items ≡ text.old.items ++ line_text (tree_line node.now)) }
{
    match node {
        TreeNode::Split { part, at } => push_split(text, *part, *at),
        TreeNode::Point => push_line(text, b"p", &[]),
        TreeNode::Closed(leaf) => push_leaf(text, leaf),
    }
}

// Adds the lines of nodes.
fn push_nodes(text: &mut Vec<u8>, nodes: &[TreeNode]) -> Result<(), NoMemory>
    ensures { OnOk result (text.new.items ≡ text.old.items ++ flat_map line_text (map tree_line nodes.now)) }
{
    for node in nodes {
        push_node(text, node)?;
    }
    Ok(())
}

/// The one text of a certificate, in version 1.
///
/// # Errors
///
/// Where memory ran out.
pub fn write_cert(alloc: Global, cert: &Certificate) -> Result<Vec<u8>, NoMemory>
    requires { IsWritable cert.now }
    ensures { IfOk result (λ text. text.items ≡ text_of cert.now) }
{
    let mut text = Vec::new(alloc);
    push_begin(&mut text, Version::One, cert.buys.as_ref(), cert.gap)?;
    push_line(&mut text, b"nodes", &[cert.nodes.as_slice().len() as u64])?;
    push_nodes(&mut text, cert.nodes.as_slice())?;
    push_line(&mut text, b"end", &[])?;
    Ok(text)
}

// The prices of a vector after changes.
fn changed_prices(alloc: Global, vector: &[u64], changes: &[Change]) -> Result<Prices, NoMemory>
    requires { ArePlaces (length vector.now) changes.now }
    ensures { IfOk result (λ prices. prices ≡ changed (length vector.now) (Some vector.now) changes.now) }
{
    let mut prices = Prices::new(vector.to_vec(alloc)?);
    put_changes(&mut prices, changes);
    Ok(prices)
}

// The prices of stairs for so many need dates.
fn stairs(alloc: Global, dates: u16, steps: &[Change]) -> Result<Prices, NoMemory>
    requires places { ArePlaces dates steps.now }
    requires rising { are_rising (places_of steps.now) ≡ true }
    ensures { IfOk result (λ prices. prices ≡ changed dates None steps.now) }
{
    let mut prices = Prices::new(vec![in alloc; 0; usize::from(dates)]?);
    put_stairs(&mut prices, dates, steps);
    Ok(prices)
}

// The prices of a leaf of a vector, counted from 1, or of stairs, written out.
fn unpacked_prices(
    alloc: Global,
    dates: u16,
    vectors: &[Prices],
    vector: u16,
    changes: &[Change],
) -> Result<Prices, NoMemory>
    requires last { vector ≤ length vectors.now }
    requires vector { HasLength dates (vector_of vectors.now vector) }
    requires all { All (IsChange dates) changes.now }
    requires rising { AllPairs (λ earlier later. earlier.place < later.place) changes.now }
    ensures { IfOk result (λ prices. prices ≡ changed dates (vector_of vectors.now vector) changes.now) }
{
    if vector == 0 {
        return stairs(alloc, dates, changes);
    }
    changed_prices(alloc, vectors[usize::from(vector) - 1].as_slice(), changes)
}

// A node with the prices of its leaf written out.
fn unpacked_node(
    alloc: Global,
    dates: u16,
    vectors: &[Prices],
    node: &PackedNode,
) -> Result<TreeNode, NoMemory>
    requires { IsUnpackable dates vectors.now node.now }
    ensures { IfOk result (λ tree. tree ≡ unpacked_node_of dates vectors.now node.now) }
{
    match node {
        PackedNode::Split { part, at } => Ok(TreeNode::Split {
            part: *part,
            at: *at,
        }),
        PackedNode::Point => Ok(TreeNode::Point),
        PackedNode::Closed {
            rho,
            mu,
            vector,
            changes,
            weights,
        } => Ok(TreeNode::Closed(Leaf {
            rho: *rho,
            mu: *mu,
            prices: unpacked_prices(alloc, dates, vectors, *vector, changes.as_slice())?,
            weights: weights.copy(alloc)?,
        })),
    }
}

/// The certificate of a packed one for so many need dates, at most 480: the prices of each leaf are those of its vector, with another price at
/// each place of a change, or stairs.
///
/// # Errors
///
/// Where memory ran out.
pub fn unpack(alloc: Global, packed: &Packed, dates: u16) -> Result<Certificate, NoMemory>
    requires dates { dates ≤ MOST_DATES }
    requires packed { IsPackedWellFormed dates packed.now }
    ensures same { IfOk result (λ cert. cert ≡ unpacked dates packed.now) }
    ensures packable { IfOk result (IsPackable dates) }
{
    let mut nodes = Vec::with_capacity(alloc, packed.nodes.as_slice().len())?;
    for node in packed.nodes.as_slice() {
        nodes.push(unpacked_node(alloc, dates, packed.vectors.as_slice(), node)?)?;
    }
    Ok(Certificate {
        buys: copied_buys(alloc, packed.buys.as_ref())?,
        gap: packed.gap,
        nodes: Nodes::new(nodes),
    })
}
