//! The certificate, read in pieces.

ghost use Rattle.std.specs.Prelude.{◌≡◌, ◌+◌, ◌≤◌, IfOk, IsErrOf};
ghost use Rattle.escrow_desk.specs.Content.{IsAbsent};
ghost use Rattle.case_file.specs.Case.{HasTerms, case_view};
ghost use Rattle.offer_book.specs.Book.{IsBook};
ghost use Rattle.certificate_answers.specs.Reading.{IsHeard, IsHeardRight};
ghost use Rattle.certificate_answers.specs.Stopping.{CountsStep};

use crate::stop::Stop;
use case_file::Case;
use escrow_check::{Checker, Verdict};
use escrow_desk::{CERTIFICATE_LIMIT, Desk, DeskError};
use std::alloc::Global;

// The most bytes that one read takes. They stand on the heap, so that a small stack is enough.
const PIECE: usize = 16_384;

/// What was read of a certificate.
#[derive(Drop)]
pub(crate) enum Heard {
    /// All of it, and this is the verdict.
    Whole(Verdict),
    /// It has more bytes than its limit.
    TooLong,
}

// How many bytes the next read may take, after so many: at most one byte past the limit is read.
fn room_after(read: u64) -> usize
    requires { read ≤ CERTIFICATE_LIMIT }
    ensures some { 1 ≤ result }
    ensures few { result ≤ PIECE }
    ensures within { read + result ≤ CERTIFICATE_LIMIT + 1 }
{
    let more = CERTIFICATE_LIMIT - read;
    if more < PIECE as u64 {
        more as usize + 1
    } else {
        PIECE
    }
}

/// The verdict on the certificate of a name, which is read in pieces and never held whole. No content changes.
pub(crate) fn hear<D: Desk>(
    alloc: Global,
    desk: &mut D,
    name: &str,
    case: &Case,
) -> Result<Heard, Stop>
    requires book { IsBook case.now.book }
    requires terms { HasTerms (case_view case.now) }
    ensures heard { IfOk result (IsHeard (D.told desk.old) name.now (case_view case.now)) }
    ensures right { IfOk result (IsHeardRight (case_view case.now)) }
    ensures absent { IsErrOf result Stop.NoFile → IsAbsent (D.told desk.old) name.now }
    ensures told { D.told desk.new ≡ D.told desk.old }
    ensures counts { CountsStep result (D.counts desk.old) (D.counts desk.new) }
{
    let mut checker = Checker::make(alloc, case)?;
    let mut room = vec![in alloc; 0u8; PIECE]?;
    let piece = room.as_mut_slice();
    let mut read: u64 = 0;
    'pieces: while read <= CERTIFICATE_LIMIT {
        let most = room_after(read);
        match desk.read(name, read, &mut piece[..most]) {
            Ok(0) => return Ok(Heard::Whole(checker.finish()?)),
            Ok(count) => {
                checker.feed(alloc, &piece[..count])?;
                read += count as u64;
            }
            Err(DeskError::Failed) => return Err(Stop::ReadFault),
            Err(DeskError::NoFile) => return Err(Stop::NoFile),
        }
    }
    Ok(Heard::TooLong)
}
