//! Texts of certificates: their first faults, and how they are written, packed and unpacked.
ghost use Rattle.std.specs.Prelude.{◌≤◌};

use bound_certificate::{
    CertError, CertFault, CertReader, MOST_DATES, packed_text_laws, read_cert, read_packed, unpack,
    write_cert, write_packed,
};
use certificate_packing::pack;
use escrow_desk::NoMemory;
use figure_sheets::Unread;
use std::alloc::{AllocError, Global};

// The first line of a certificate of version 2, and of version 3.
const PACKED_TITLE: &[u8] = b"escrow-certificate 2\n";

const WEIGHED_TITLE: &[u8] = b"escrow-certificate 3\n";

// The sizes of the pieces in which a text is read besides.
const SIZES: [usize; 4] = [1, 2, 7, 65_536];

/// Which readers are asked.
#[derive(Clone, Copy, PartialEq, Eq)]
pub(crate) enum Version {
    /// That of version 1.
    Plain,
    /// That of versions 2 and 3.
    Packed,
}

// Whether a text is of version 2 or 3, as its first line says.
fn is_packed(text: &[u8]) -> bool {
    text.starts_with(PACKED_TITLE) || text.starts_with(WEIGHED_TITLE)
}

/// A fault, or none.
pub(crate) fn fault_text(alloc: Global, fault: Option<CertFault>) -> Result<String, AllocError> {
    match fault {
        Some(CertFault { line, kind }) => format!(in alloc; "{line} {kind:?}"),
        None => String::from_str(alloc, "none"),
    }
}

// The fault of a text that is there whole, by the reader of a version.
fn whole_fault(
    alloc: Global,
    text: &[u8],
    dates: u16,
    version: Version,
) -> Result<Option<CertFault>, NoMemory>
    requires { dates ≤ MOST_DATES }
{
    let error = match version {
        Version::Plain => read_cert(alloc, text, dates).err(),
        Version::Packed => read_packed(alloc, text, dates).err(),
    };
    match error {
        Some(CertError::Fault(fault)) => Ok(Some(fault)),
        Some(CertError::NoMemory) => Err(NoMemory),
        None => Ok(None),
    }
}

// The fault of a text in pieces of so many bytes.
fn fault_in_pieces(
    alloc: Global,
    text: &[u8],
    dates: u16,
    size: usize,
) -> Result<Option<CertFault>, NoMemory>
    requires dates { dates ≤ MOST_DATES }
    requires some { 1 ≤ size }
    requires few { size ≤ 65_536 }
{
    let mut reader = CertReader::make(alloc, dates)?;
    let mut rest = text;
    while !rest.is_empty() {
        match reader.feed(&rest[..size.min(rest.len())]) {
            Err(fault) => return Ok(Some(fault)),
            Ok(fed) => rest = &rest[fed.used as usize..],
        }
    }
    Ok(reader.finish().err())
}

/// The fault of a text by the reader of a version alone.
pub(crate) fn fault_by(
    alloc: Global,
    text: &[u8],
    dates: u16,
    version: Version,
) -> Result<String, Unread>
    requires { dates ≤ MOST_DATES }
{
    let fault = whole_fault(alloc, text, dates, version).map_err(|_| Unread::NoMemory)?;
    Ok(fault_text(alloc, fault)?)
}

/// The fault of a text, by the reader of the version that its first line names, and in pieces of several sizes.
pub(crate) fn fault(alloc: Global, text: &[u8], dates: u16) -> Result<String, Unread>
    requires { dates ≤ MOST_DATES }
{
    let version = if is_packed(text) {
        Version::Packed
    } else {
        Version::Plain
    };
    let whole = whole_fault(alloc, text, dates, version).map_err(|_| Unread::NoMemory)?;
    for size in SIZES {
        let found = fault_in_pieces(alloc, text, dates, size).map_err(|_| Unread::NoMemory)?;
        if found != whole {
            let found = fault_text(alloc, found)?;
            return Ok(format!(in alloc; "{found} in pieces of {size}")?);
        }
    }
    Ok(fault_text(alloc, whole)?)
}

// A certificate of version 1, packed.
fn packed(alloc: Global, text: &[u8], dates: u16) -> Result<Vec<u8>, CertError>
    requires { dates ≤ MOST_DATES }
{
    let whole = read_cert(alloc, text, dates)?;
    let packed = pack(alloc, &whole)?;
    Ok(write_packed(alloc, &packed)?)
}

// A certificate of version 2 or 3, unpacked and packed again.
fn packed_again(alloc: Global, text: &[u8], dates: u16) -> Result<Vec<u8>, CertError>
    requires { dates ≤ MOST_DATES }
{
    packed_text_laws();
    let packed = read_packed(alloc, text, dates)?;
    let again = pack(alloc, &unpack(alloc, &packed, dates)?)?;
    Ok(write_packed(alloc, &again)?)
}

// A certificate as it is written after it was read.
fn written_again(alloc: Global, text: &[u8], dates: u16) -> Result<Vec<u8>, CertError>
    requires { dates ≤ MOST_DATES }
{
    if is_packed(text) {
        let packed = read_packed(alloc, text, dates)?;
        Ok(write_packed(alloc, &packed)?)
    } else {
        let whole = read_cert(alloc, text, dates)?;
        Ok(write_cert(alloc, &whole)?)
    }
}

/// What is done with a certificate.
#[derive(Clone, Copy, PartialEq, Eq)]
pub(crate) enum Rewriting {
    /// One of version 1 is packed.
    Packed,
    /// One of version 2 or 3 is unpacked and packed again.
    PackedAgain,
    /// It is read and written.
    Written,
}

/// The text that a certificate becomes, or its fault; `same` where it is the text that was given.
pub(crate) fn rewritten(
    alloc: Global,
    text: &[u8],
    dates: u16,
    rewriting: Rewriting,
) -> Result<String, Unread>
    requires { dates ≤ MOST_DATES }
{
    let made = match rewriting {
        Rewriting::Packed => packed(alloc, text, dates),
        Rewriting::PackedAgain => packed_again(alloc, text, dates),
        Rewriting::Written => written_again(alloc, text, dates),
    };
    match made {
        Ok(made) if made.as_slice() == text => Ok(String::from_str(alloc, "same")?),
        Ok(made) => Ok(shown(alloc, made.as_slice())?),
        Err(CertError::Fault(fault)) => Ok(fault_text(alloc, Some(fault))?),
        Err(CertError::NoMemory) => Err(Unread::NoMemory),
    }
}

// A text as a word of a sheet.
fn shown(alloc: Global, text: &[u8]) -> Result<String, AllocError> {
    let mut shown = String::from_str(alloc, "\"")?;
    for line in str::from_utf8(text).unwrap_or("no text").lines() {
        shown.push_str(line)?;
        shown.push_str("\\n")?;
    }
    shown.push_str("\"")?;
    Ok(shown)
}

// Adds a blank and a number.
fn push_number(alloc: Global, text: &mut String, number: u64) -> Result<(), AllocError> {
    let word = format!(in alloc; " {number}")?;
    text.push_str(word.as_str())
}

/// The text of a leaf of which each price is another than its vector's.
pub(crate) fn changed_text(
    alloc: Global,
    dates: u16,
    old: u64,
    new: u64,
) -> Result<String, AllocError> {
    let mut text = String::from_str(
        alloc,
        "escrow-certificate 2\nportfolio none\ngap 0\nvectors 1\nv",
    )?;
    for _ in 0..dates {
        push_number(alloc, &mut text, old)?;
    }
    text.push_str("\nnodes 1\nl 1 0 1")?;
    for place in 0..dates {
        push_number(alloc, &mut text, u64::from(place) + 1)?;
        push_number(alloc, &mut text, new)?;
    }
    text.push_str("\nend\n")?;
    Ok(text)
}
