//! What the lines of a certificate say one after another, as it comes in pieces.
ghost use Rattle.std.specs.Prelude.{◌≤◌};

use crate::texts::fault_text;
use bound_certificate::{CertFault, CertReader, Item, MOST_DATES};
use figure_cases::leaf_text;
use figure_sheets::{Unread, bytes_of};
use proof_tree::{Leaf, Part};
use std::alloc::{AllocError, Global};

// What a line says.
fn item_text(alloc: Global, item: Item, leaf: &Leaf) -> Result<String, AllocError> {
    match item {
        Item::Nothing => String::from_str(alloc, "nothing"),
        Item::Header => String::from_str(alloc, "title"),
        Item::Portfolio(None) => String::from_str(alloc, "portfolio none"),
        Item::Portfolio(Some(count)) => format!(in alloc; "portfolio {count}"),
        Item::Buy(buy) => format!(in alloc; "buy {} {}", buy.line, buy.units),
        Item::Gap(cents) => format!(in alloc; "gap {cents}"),
        Item::Vectors(count) => format!(in alloc; "vectors {count}"),
        Item::Vector => String::from_str(alloc, "vector"),
        Item::Nodes(count) => format!(in alloc; "nodes {count}"),
        Item::Split {
            part: Part::Line(line),
            at,
        } => format!(in alloc; "split {line} {at}"),
        Item::Split {
            part: Part::Sum(sum),
            at,
        } => format!(in alloc; "split sum {sum} {at}"),
        Item::Point => String::from_str(alloc, "point"),
        Item::Leaf => {
            let leaf = leaf_text(alloc, leaf)?;
            format!(in alloc; "leaf {leaf}")
        }
        Item::End => String::from_str(alloc, "end"),
    }
}

// Hears a piece, and tells what its lines say.
fn hear(
    alloc: Global,
    reader: &mut CertReader,
    piece: &[u8],
    told: &mut String,
) -> Result<Option<CertFault>, AllocError> {
    let mut rest = piece;
    while !rest.is_empty() {
        let fed = match reader.feed(&rest[..rest.len().min(65_536)]) {
            Err(fault) => return Ok(Some(fault)),
            Ok(fed) => fed,
        };
        told.push_str(item_text(alloc, fed.item, reader.leaf())?.as_str())?;
        told.push_str(", ")?;
        rest = &rest[fed.used as usize..];
    }
    Ok(None)
}

/// What the lines of pieces say, and the fault of the whole.
pub(crate) fn items(alloc: Global, pieces: &[&str], dates: u16) -> Result<String, Unread>
    requires { dates ≤ MOST_DATES }
{
    let mut told = String::new(alloc);
    let mut reader = CertReader::make(alloc, dates).map_err(|_| Unread::NoMemory)?;
    for piece in pieces {
        let piece = bytes_of(alloc, piece)?;
        if hear(alloc, &mut reader, piece.as_slice(), &mut told)?.is_some() {
            break;
        }
    }
    told.push_str("fault ")?;
    told.push_str(fault_text(alloc, reader.finish().err())?.as_str())?;
    Ok(told)
}
