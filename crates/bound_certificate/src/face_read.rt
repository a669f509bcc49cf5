//! The library's face: texts that are there whole, of version 1 alone and of versions 2 and 3. The program itself reads by
//! [`CertReader`](crate::CertReader), in pieces.
ghost use Rattle.std.specs.Prelude.{◌≡◌, ◌≤◌, ◌⊎◌, IfErr, IfOk, OnOk, Ok, Err};
ghost use Rattle.bound_certificate.specs.Draft.{no_packed, with_line};
ghost use Rattle.bound_certificate.specs.Faults.{IsCause, IsPackedCause};
ghost use Rattle.bound_certificate.specs.Taken.{AreOfLeaf, line_with};
ghost use Rattle.bound_certificate.specs.Text.{IsPackedTextOf, IsTextOf};
ghost use Rattle.bound_certificate.specs.declared.certificate.Certificate.{Certificate as CertificateOf};
ghost use Rattle.bound_certificate.specs.declared.fault.CertError.TheVariants as error;
ghost use Rattle.bound_certificate.specs.declared.item.Item.TheVariants as item_of;
ghost use Rattle.bound_certificate.specs.declared.packed.Packed.{Packed as PackedOf};

use crate::certificate::{Buys, Certificate};
use crate::due::Due;
use crate::fault::{CertError, CertFault, rest_fault};
use crate::item::Item;
use crate::lent_leaf::LentLeaf;
use crate::limits::MOST_DATES;
use crate::line::Line;
use crate::packed::{Changes, Packed, PackedNode, PackedNodes, Vectors};
use crate::taken::{list_changes, take_line};
use crate::vector_room::VectorRoom;
use crate::version::{Version, weighing_of_title};
use crate::weighing::Weighing;
use arrayvec::ArrayVec;
use escrow_desk::NoMemory;
use line_words::cut_line;
use proof_tree::{Prices, Weights};
use std::alloc::Global;

/// Reads the text of a certificate for so many need dates, at most 480: a leaf has a price for each.
///
/// # Errors
///
/// The first fault of the text, and else where memory ran out.
pub fn read_cert(alloc: Global, bytes: &[u8], dates: u16) -> Result<Certificate, CertError>
    requires { dates ≤ MOST_DATES }
    ensures ok { IfOk result (λ cert. IsTextOf dates cert bytes.now) }
    ensures err { IfErr result (λ error. IsCause dates bytes.now error) }
    ensures back { (cert : CertificateOf) → IsTextOf dates cert bytes.now → (result ≡ Ok cert) ⊎ (result ≡ Err error.NoMemory) }
{
    let mut numbers = ArrayVec::new();
    let mut vectors = VectorRoom::make(alloc)?;
    let mut leaf = LentLeaf::make(alloc, dates)?;
    let mut cert = Certificate::empty(alloc);
    let mut due = Due::Title;
    let mut number = 1;
    let mut part = cut_line(bytes);
    while let Some(rest) = part.rest {
        let item = match take_line(
            Version::One,
            due,
            dates,
            &mut vectors,
            part.front,
            &mut numbers,
            &mut leaf,
        ) {
            Ok(item) => item,
            Err(kind) => return Err(CertError::Fault(CertFault { line: number, kind })),
        };
        due = due.after(Version::One, item);
        cert.take(alloc, item, leaf.as_leaf())?;
        number += 1;
        part = cut_line(rest);
    }
    match rest_fault(due.is_over(), part.front) {
        Some(kind) => Err(CertError::Fault(CertFault { line: number, kind })),
        None => Ok(cert),
    }
}

impl Packed {
    // Before the first line.
    fn empty(alloc: Global) -> Packed
        ensures { result ≡ no_packed }
    {
        Packed {
            buys: None,
            gap: 0,
            vectors: Vectors::new(Vec::new(alloc)),
            nodes: PackedNodes::new(Vec::new(alloc)),
        }
    }

    // Takes in what one more line says.
    fn take(&mut self, alloc: Global, line: Line) -> Result<(), NoMemory>
        ensures { OnOk result (self.new ≡ with_line self.old line) }
    {
        match line {
            Line::Portfolio(None) => self.buys = None,
            Line::Portfolio(Some(_)) => self.buys = Some(Buys::new(Vec::new(alloc))),
            Line::Purchase(buy) => {
                if let Some(buys) = &mut self.buys {
                    buys.push(buy)?;
                }
            }
            Line::Gap(cents) => self.gap = cents,
            Line::Vector(prices) => self.vectors.push(prices)?,
            Line::Split { part, at } => self.nodes.push(PackedNode::Split { part, at })?,
            Line::Point => self.nodes.push(PackedNode::Point)?,
            Line::Closed {
                rho,
                mu,
                vector,
                changes,
                weights,
                ..
            } => self.nodes.push(PackedNode::Closed {
                rho,
                mu,
                vector,
                changes,
                weights,
            })?,
            Line::Title(_) | Line::Vectors(_) | Line::Nodes(_) | Line::End => {}
            Line::Leaf(_leaf) => {}
        }
        Ok(())
    }
}

// A leaf, by its numbers before the tail and the weights of the tail.
fn leaf_line(
    alloc: Global,
    weighing: Weighing,
    numbers: &[u64],
    weights: &Weights,
) -> Result<Line, NoMemory>
    requires { AreOfLeaf numbers.now }
    ensures { IfOk result (λ said. said ≡ line_with weighing item_of.Leaf numbers.now weights.now) }
{
    let changes = list_changes::<MOST_DATES>(&numbers[3..]);
    Ok(Line::Closed {
        weighing,
        rho: weighing.weight(numbers[0]),
        mu: numbers[1],
        vector: numbers[2] as u16,
        changes: Changes::new(changes.as_slice().to_vec(alloc)?),
        weights: weights.copy(alloc)?,
    })
}

// What a line says, by its item, its numbers before a tail and the weights of the tail.
fn line_of(
    alloc: Global,
    weighing: Weighing,
    item: Item,
    numbers: &[u64],
    weights: &Weights,
) -> Result<Line, NoMemory>
    requires { item ≡ item_of.Leaf → AreOfLeaf numbers.now }
    ensures { IfOk result (λ said. said ≡ line_with weighing item numbers.now weights.now) }
{
    Ok(match item {
        Item::Header => Line::Title(Version::Packed(weighing)),
        Item::Portfolio(None) => Line::Portfolio(None),
        Item::Portfolio(Some(count)) => Line::Portfolio(Some(u64::from(count))),
        Item::Buy(buy) => Line::Purchase(buy),
        Item::Gap(cents) => Line::Gap(cents),
        Item::Vectors(count) => Line::Vectors(u64::from(count)),
        Item::Vector => Line::Vector(Prices::new(numbers.to_vec(alloc)?)),
        Item::Nodes(count) => Line::Nodes(u64::from(count)),
        Item::Split { part, at } => Line::Split { part, at },
        Item::Point => Line::Point,
        Item::Leaf => leaf_line(alloc, weighing, numbers, weights)?,
        Item::Nothing | Item::End => Line::End,
    })
}

/// Reads the text of a packed certificate, of version 2 or 3, for so many need dates, at most 480: a vector has a price for each.
///
/// # Errors
///
/// The first fault of the text, and else where memory ran out.
pub fn read_packed(alloc: Global, bytes: &[u8], dates: u16) -> Result<Packed, CertError>
    requires { dates ≤ MOST_DATES }
    ensures ok { IfOk result (λ packed. IsPackedTextOf dates packed bytes.now) }
    ensures err { IfErr result (λ error. IsPackedCause dates bytes.now error) }
    ensures back { (packed : PackedOf) → IsPackedTextOf dates packed bytes.now → (result ≡ Ok packed) ⊎ (result ≡ Err error.NoMemory) }
{
    let mut numbers = ArrayVec::new();
    let mut vectors = VectorRoom::make(alloc)?;
    let mut leaf = LentLeaf::make(alloc, dates)?;
    let mut packed = Packed::empty(alloc);
    let mut due = Due::Title;
    let mut number = 1;
    let mut part = cut_line(bytes);
    let weighing = weighing_of_title(part.front);
    while let Some(rest) = part.rest {
        let item = match take_line(
            Version::Packed(weighing),
            due,
            dates,
            &mut vectors,
            part.front,
            &mut numbers,
            &mut leaf,
        ) {
            Ok(item) => item,
            Err(kind) => return Err(CertError::Fault(CertFault { line: number, kind })),
        };
        due = due.after(Version::Packed(weighing), item);
        let weights = &leaf.as_leaf().weights;
        packed.take(
            alloc,
            line_of(alloc, weighing, item, numbers.as_slice(), weights)?,
        )?;
        number += 1;
        part = cut_line(rest);
    }
    match rest_fault(due.is_over(), part.front) {
        Some(kind) => Err(CertError::Fault(CertFault { line: number, kind })),
        None => Ok(packed),
    }
}
