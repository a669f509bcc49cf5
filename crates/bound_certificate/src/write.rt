//! The text of a packed certificate, line by line.
ghost use Rattle.std.specs.Prelude.{◌≡◌, [], ◌∷◌, ◌++◌, map, IfOk, OnOk, option_map};
ghost use Rattle.std.specs.Fmt.{decimal};
ghost use Rattle.std.specs.List.{flat_map, list_all};
ghost use Rattle.bound_certificate.specs.Grammar.{title_word};
ghost use Rattle.bound_certificate.specs.Packed.{IsPackedWritable};
ghost use Rattle.bound_certificate.specs.Text.{change_numbers, is_plain as is_plain_of, line_text, numbered, packed_line, packed_text_of, packed_weighing, portfolio_lines, spaced_numbers, split_number as split_number_of, split_word as split_word_of, tail_text, weight_numbers};
ghost use Rattle.bound_certificate.specs.Weights.{side_number as side_number_of};
ghost use Rattle.bound_certificate.specs.declared.line.Line.TheVariants as line;

use crate::certificate::{Buy, Buys};
use crate::packed::{Change, Packed, PackedNode};
use crate::version::Version;
use crate::weighing::Weighing;
use escrow_desk::NoMemory;
use itoa::Buffer;
use proof_tree::{PRICE_SCALE, Part, Prices, Side, SumWeight};
use std::alloc::Global;

/// Adds a space and a number.
pub(crate) fn push_number(text: &mut Vec<u8>, number: u64) -> Result<(), NoMemory>
    ensures { OnOk result (text.new.items ≡ text.old.items ++ 32 ∷ decimal number) }
{
    let mut digits = Buffer::new();
    text.push(b' ')?;
    text.extend_from_slice(digits.format(number).as_bytes())?;
    Ok(())
}

/// Adds numbers, with a space before each.
pub(crate) fn push_numbers(text: &mut Vec<u8>, numbers: &[u64]) -> Result<(), NoMemory>
    ensures { OnOk result (text.new.items ≡ text.old.items ++ spaced_numbers numbers.now) }
{
    for number in numbers {
        push_number(text, *number)?;
    }
    Ok(())
}

/// Adds a line of a word and numbers.
pub(crate) fn push_line(text: &mut Vec<u8>, word: &[u8], numbers: &[u64]) -> Result<(), NoMemory>
    ensures { OnOk result (text.new.items ≡ text.old.items ++ numbered word.now numbers.now) }
{
    text.extend_from_slice(word)?;
    push_numbers(text, numbers)?;
    text.push(b'\n')?;
    Ok(())
}

// Adds the lines of purchases.
fn push_buys(text: &mut Vec<u8>, buys: &[Buy]) -> Result<(), NoMemory>
    ensures { OnOk result (text.new.items ≡ text.old.items ++ flat_map line_text (map line.Purchase buys.now)) }
{
    for buy in buys {
        push_line(text, b"buy", &[buy.line as u64, buy.units])?;
    }
    Ok(())
}

/// Adds the lines of a portfolio.
pub(crate) fn push_portfolio(text: &mut Vec<u8>, buys: Option<&Buys>) -> Result<(), NoMemory>
    ensures { OnOk result (text.new.items ≡ text.old.items ++ flat_map line_text (portfolio_lines (option_map (λ b. b.now) buys.entry))) }
{
    let Some(buys) = buys else {
        text.extend_from_slice(b"portfolio none\n")?;
        return Ok(());
    };
    let buys = buys.as_slice();
    push_line(text, b"portfolio", &[buys.len() as u64])?;
    push_buys(text, buys)
}

/// Adds the first lines of a certificate: the version, the portfolio and the gap.
pub(crate) fn push_begin(
    text: &mut Vec<u8>,
    version: Version,
    buys: Option<&Buys>,
    gap: u64,
) -> Result<(), NoMemory>
    ensures { OnOk result (text.new.items ≡ text.old.items ++ flat_map line_text (line.Title version ∷ (portfolio_lines (option_map (λ b. b.now) buys.entry) ++ line.Gap gap ∷ []))) }
{
    push_line(text, version.title(), &[])?;
    push_portfolio(text, buys)?;
    push_line(text, b"gap", &[gap])
}

// The first word of the line of a split.
fn split_word(part: Part) -> &'static [u8]
    ensures { result.now ≡ split_word_of part }
{
    match part {
        Part::Line(_) => b"s",
        Part::Sum(_) => b"t",
    }
}

// The number of what is split: a line counts from 0, and the need date of a sum from 1.
fn split_number(part: Part) -> u64
    ensures { result ≡ split_number_of part }
{
    match part {
        Part::Line(line) => u64::from(line),
        Part::Sum(sum) => u64::from(sum) + 1,
    }
}

/// Adds the line of a split.
pub(crate) fn push_split(text: &mut Vec<u8>, part: Part, at: u64) -> Result<(), NoMemory>
    ensures { OnOk result (text.new.items ≡ text.old.items ++ line_text (line.Split part at)) }
{
    push_line(text, split_word(part), &[split_number(part), at])
}

// Adds the place and the price of each change.
fn push_changes(text: &mut Vec<u8>, changes: &[Change]) -> Result<(), NoMemory>
    ensures { OnOk result (text.new.items ≡ text.old.items ++ spaced_numbers (change_numbers changes.now)) }
{
    for change in changes {
        push_numbers(text, &[u64::from(change.place), change.price])?;
    }
    Ok(())
}

// The number that says a side.
fn side_number(side: Side) -> u64
    ensures { result ≡ side_number_of side }
{
    match side {
        Side::AtMost => 0,
        Side::AtLeast => 1,
    }
}

// Adds the need date of the sum, counted from 1, the side and the weight of each weight.
fn push_weights(text: &mut Vec<u8>, weights: &[SumWeight]) -> Result<(), NoMemory>
    ensures { OnOk result (text.new.items ≡ text.old.items ++ spaced_numbers (weight_numbers weights.now)) }
{
    for own in weights {
        let date = u64::from(own.sum) + 1;
        push_numbers(text, &[date, side_number(own.side), own.weight])?;
    }
    Ok(())
}

// Adds the tail of a leaf's line, where it has weights of sums.
fn push_tail(text: &mut Vec<u8>, weights: &[SumWeight]) -> Result<(), NoMemory>
    ensures { OnOk result (text.new.items ≡ text.old.items ++ tail_text weights.now) }
{
    if weights.is_empty() {
        return Ok(());
    }
    text.extend_from_slice(b" t")?;
    push_weights(text, weights)
}

// Adds the line of a node.
fn push_packed_node(
    text: &mut Vec<u8>,
    weighing: Weighing,
    node: &PackedNode,
) -> Result<(), NoMemory>
    ensures { OnOk result (text.new.items ≡ text.old.items ++ line_text (packed_line weighing node.now)) }
{
    match node {
        PackedNode::Split { part, at } => push_split(text, *part, *at),
        PackedNode::Point => push_line(text, b"p", &[]),
        PackedNode::Closed {
            rho,
            mu,
            vector,
            changes,
            weights,
        } => {
            text.push(b'l')?;
            push_numbers(text, &[weighing.number(*rho), *mu, u64::from(*vector)])?;
            push_changes(text, changes.as_slice())?;
            push_tail(text, weights.as_slice())?;
            text.push(b'\n')?;
            Ok(())
        }
    }
}

// Adds the lines of nodes.
fn push_packed_nodes(
    text: &mut Vec<u8>,
    weighing: Weighing,
    nodes: &[PackedNode],
) -> Result<(), NoMemory>
    ensures { OnOk result (text.new.items ≡ text.old.items ++ flat_map line_text (map (packed_line weighing) nodes.now)) }
{
    for node in nodes {
        push_packed_node(text, weighing, node)?;
    }
    Ok(())
}

// Adds the lines of vectors.
fn push_vectors(text: &mut Vec<u8>, vectors: &[Prices]) -> Result<(), NoMemory>
    ensures { OnOk result (text.new.items ≡ text.old.items ++ flat_map line_text (map line.Vector vectors.now)) }
{
    for vector in vectors {
        push_line(text, b"v", vector.as_slice())?;
    }
    Ok(())
}

// Whether version 2 can say a node: the split of a line, a point, or a leaf of a vector, without weights of sums, at which the cost counts
// wholly or not at all.
fn is_plain(node: &PackedNode) -> bool
    ensures { result ≡ is_plain_of node.now }
{
    match node {
        PackedNode::Split {
            part: Part::Sum(_),
            ..
        } => false,
        PackedNode::Closed { weights, .. } if !weights.as_slice().is_empty() => false,
        PackedNode::Closed { rho, vector, .. } => (*rho == 0 || *rho == PRICE_SCALE)
            && *vector >= 1,
        _ => true,
    }
}

// Whether version 2 can say each node.
fn are_plain(nodes: &[PackedNode]) -> bool
    ensures { result ≡ list_all is_plain_of nodes.now }
{
    for node in nodes {
        if !is_plain(node) {
            return false;
        }
    }
    true
}

// The version of a tree: 2 where it can say each node, and else 3.
fn weighing_of(nodes: &[PackedNode]) -> Weighing
    ensures { result ≡ packed_weighing nodes.now }
{
    if are_plain(nodes) {
        Weighing::WholeOrNone
    } else {
        Weighing::Number
    }
}

/// The text of a packed certificate: in version 2 where no sum is split or weighed, and each leaf is of a vector and the cost counts
/// wholly or not at all there, and else in version 3.
///
/// # Errors
///
/// Where memory ran out.
pub fn write_packed(alloc: Global, packed: &Packed) -> Result<Vec<u8>, NoMemory>
    requires { IsPackedWritable packed.now }
    ensures { IfOk result (λ text. text.items ≡ packed_text_of packed.now) }
{
    let mut text = Vec::new(alloc);
    let weighing = weighing_of(packed.nodes.as_slice());
    push_begin(
        &mut text,
        Version::Packed(weighing),
        packed.buys.as_ref(),
        packed.gap,
    )?;
    push_line(
        &mut text,
        b"vectors",
        &[packed.vectors.as_slice().len() as u64],
    )?;
    push_vectors(&mut text, packed.vectors.as_slice())?;
    push_line(&mut text, b"nodes", &[packed.nodes.as_slice().len() as u64])?;
    push_packed_nodes(&mut text, weighing, packed.nodes.as_slice())?;
    push_line(&mut text, b"end", &[])?;
    Ok(text)
}
