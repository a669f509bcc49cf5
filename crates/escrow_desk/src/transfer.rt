//! Whole files read and written, and whole texts said.

ghost use Rattle.std.specs.Prelude.{◌≡◌, ◌≤◌, length, OnOk, OnErr, IfOk, IsErrOf};
ghost use Rattle.escrow_desk.specs.Counts.{CountsReadAll, CountsWrite};
ghost use Rattle.escrow_desk.specs.Content.{IsFile, IsAbsent, IsLonger, SaidAll, SaidPart, WroteAll, WrotePart};

use crate::desk::{Desk, DeskError, Failed};
use crate::refusal::ReadRefusal;
use std::alloc::{AllocError, Global};

// The most bytes that one read takes. They stand on the heap, so that a small stack is enough, and are few, since each is cleared
// for each file.
const PIECE: usize = 8_192;

// Room for a piece.
fn new_piece(alloc: Global) -> Result<Vec<u8>, AllocError>
    ensures { IfOk result (λ piece. length piece.items ≡ 8_192) }
{
    Ok(vec![in alloc; 0u8; PIECE]?)
}

/// Reads a whole file of at most `limit` bytes.
///
/// # Errors
///
/// `TooLong` exactly where the file has more than `limit` bytes, `NoFile` where it isn't there, `Fault` where a read
/// failed, and `NoMemory`. No content changes.
pub fn read_all<D: Desk>(
    alloc: Global,
    desk: &mut D,
    name: &str,
    limit: u64,
) -> Result<Vec<u8>, ReadRefusal>
    ensures whole { IfOk result (λ bytes. IsFile (D.told desk.old) name.now bytes.items) }
    ensures within { IfOk result (λ bytes. length bytes.items ≤ limit) }
    ensures too_long { IsErrOf result ReadRefusal.TooLong → IsLonger (D.told desk.old) name.now limit }
    ensures absent { IsErrOf result ReadRefusal.NoFile → IsAbsent (D.told desk.old) name.now }
    ensures told { D.told desk.new ≡ D.told desk.old }
    // Only a fault and an absence raise a count, and each its own alone.
    ensures counts { CountsReadAll result (D.counts desk.old) (D.counts desk.new) }
{
    let mut bytes = Vec::new(alloc);
    let mut room = new_piece(alloc)?;
    let piece = room.as_mut_slice();
    'pieces: while bytes.len() as u64 <= limit {
        // At most one byte past the limit is read.
        let more = limit - bytes.len() as u64;
        let most = if more < PIECE as u64 - 1 {
            more as usize + 1
        } else {
            PIECE
        };
        match desk.read(name, bytes.len() as u64, &mut piece[..most]) {
            Ok(0) => return Ok(bytes),
            Ok(count) => bytes.extend_from_slice(&piece[..count])?,
            Err(DeskError::Failed) => return Err(ReadRefusal::Fault),
            Err(DeskError::NoFile) => return Err(ReadRefusal::NoFile),
        }
    }
    Err(ReadRefusal::TooLong)
}

/// Begins a file and appends all the bytes.
///
/// # Errors
///
/// Where a call of the desk failed. The file is then as before, or holds a prefix of the bytes; all other content stays
/// as it is.
pub fn write_all<D: Desk>(desk: &mut D, name: &str, bytes: &[u8]) -> Result<(), Failed>
    ensures whole { OnOk result (WroteAll (D.told desk.old) name.now bytes.now (D.told desk.new)) }
    ensures part { OnErr result (WrotePart (D.told desk.old) name.now bytes.now (D.told desk.new)) }
    ensures counts { CountsWrite result (D.counts desk.old) (D.counts desk.new) }
{
    desk.begin(name)?;
    let mut written = 0;
    while written < bytes.len() {
        let count = desk.append(name, &bytes[written..])?;
        written += count;
    }
    Ok(())
}

/// Says all the bytes.
///
/// # Errors
///
/// Where a call of the desk failed. What was said grew by a prefix of the bytes then; all other content stays as it is.
pub fn say_all<D: Desk>(desk: &mut D, bytes: &[u8]) -> Result<(), Failed>
    ensures whole { OnOk result (SaidAll (D.told desk.old) bytes.now (D.told desk.new)) }
    ensures part { OnErr result (SaidPart (D.told desk.old) bytes.now (D.told desk.new)) }
    ensures counts { CountsWrite result (D.counts desk.old) (D.counts desk.new) }
{
    let mut said = 0;
    while said < bytes.len() {
        let count = desk.say(&bytes[said..])?;
        said += count;
    }
    Ok(())
}
