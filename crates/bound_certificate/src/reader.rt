//! A reader of certificates that come in pieces.
ghost use Rattle.std.specs.Prelude.{◌≡◌, ◌≤◌, ◌<◌, [], List, length, IfErr, IfOk, None, ℕ};
ghost use Rattle.bound_certificate.specs.declared.due.Due.TheVariants as due;
ghost use Rattle.bound_certificate.specs.declared.item.Item.TheVariants as item_of;
ghost use Rattle.bound_certificate.specs.TextReading.{Finishes, HasRead, Reads, ReadsFault, TakesLine, stage_due};

use crate::fault::{CertFault, FaultKind};
use crate::item::{Fed, Item};
use crate::lent_leaf::LentLeaf;
use crate::limits::MOST_DATES;
use crate::part::Part;
use crate::row::Numbers;
use crate::text_reading::{Stage, TextReading};
use crate::vector_room::VectorRoom;
use crate::version::Version;
use arrayvec::ArrayVec;
use escrow_desk::NoMemory;
use line_words::cut_line;
use proof_tree::Leaf;
use std::alloc::Global;
use std::marker::Model;

/// A reader of the text of a certificate of whichever version, in pieces. Contracts see what has come of it.
#[derive(Drop)]
pub struct CertReader {
    reading: TextReading,
    // The numbers of a line. They stand on the heap: a reader is moved where stacks are small.
    numbers: Box<Numbers>,
}

impl Model for CertReader {
    ghost use Rattle.bound_certificate.specs.Moves.{IsTextReading};
    ghost use Rattle.bound_certificate.specs.declared.text_reading.TextReading.{TextReading};

    ghost Value = { TextReading };

    ghost view = { λ r. r.reading };

    ghost invariant = { λ r. IsTextReading r.reading };
}

// No line ended in so many bytes.
fn nothing(used: u32) -> Fed
    ensures used { result.used ≡ used }
    ensures item { result.item ≡ item_of.Nothing }
{
    Fed {
        used,
        item: Item::Nothing,
    }
}

// Room for the numbers of a line. It isn't inlined: they would stand on the stack where a reader is made.
#[inline(never)]
fn numbers_room(alloc: Global) -> Result<Box<Numbers>, NoMemory> {
    match Box::new(alloc, ArrayVec::new()) {
        Ok(numbers) => Ok(numbers),
        Err(_) => Err(NoMemory),
    }
}

impl CertReader {
    /// A reader of a certificate for so many need dates. All memory is taken here.
    ///
    /// # Errors
    ///
    /// Where memory ran out.
    pub fn make(alloc: Global, dates: u16) -> Result<CertReader, NoMemory>
        requires { dates ≤ MOST_DATES }
        ensures read { IfOk result (HasRead dates []) }
        ensures going { IfOk result (λ reader. reader.fault ≡ None) }
        ensures first { IfOk result (λ reader. stage_due reader.stage ≡ due.Title) }
    {
        let reading = TextReading {
            line: 1,
            stage: Stage::First,
            vectors: VectorRoom::make(alloc)?,
            part: Part::make(alloc)?,
            leaf: LentLeaf::make(alloc, dates)?,
            fault: None,
        };
        let numbers = numbers_room(alloc)?;
        Ok(CertReader { reading, numbers })
    }

    /// Takes bytes of a piece, up to and with its first line feed, and says what the line says that ended; where no line
    /// ended the whole piece is taken. A piece has at most 65,536 bytes. It takes no memory.
    ///
    /// # Errors
    ///
    /// The fault of the first line that isn't one of a certificate, at its line feed; `Trailing` at the first byte behind
    /// the last line. After a fault every later call answers the same one.
    pub fn feed(&mut self, piece: &[u8]) -> Result<Fed, CertFault>
        requires { length piece.now ≤ 65_536 }
        ensures takes { IfOk result (TakesLine piece.now) }
        ensures used { IfOk result (λ fed. (fed.used ≤ length piece.now) × (0 < length piece.now → 0 < fed.used)) }
        ensures going { IfOk result (λ _. self.old.fault ≡ None) }
        ensures ok { IfOk result (λ fed. (dates : ℕ) (bytes : List ℕ) → HasRead dates bytes self.old → Reads dates bytes piece.now fed self.old self.new) }
        ensures err { IfErr result (λ fault. (dates : ℕ) (bytes : List ℕ) → HasRead dates bytes self.old → ReadsFault dates bytes piece.now fault self.new) }
    {
        if let Some(fault) = self.reading.fault {
            return Err(fault);
        }
        if self.reading.stage.is_over() {
            return self.reading.feed_over(piece);
        }
        let cut = cut_line(piece);
        if cut.rest.is_none() {
            self.reading.part.add(piece);
            return Ok(nothing(piece.len() as u32));
        }
        let item = self.reading.end_line(cut.front, &mut self.numbers)?;
        Ok(Fed {
            used: cut.front.len() as u32 + 1,
            item,
        })
    }

    /// The leaf that was read last. It takes no memory.
    pub fn leaf(&self) -> &Leaf
        ensures { result.now ≡ self.now.leaf }
    {
        self.reading.leaf.as_leaf()
    }

    /// The vector whose prices those of the leaf that was read last are but for its changes, counted from 0; 0 in version 1 and of stairs. It shows
    /// which leaves are near to each other, and nothing rests on it. It takes no memory.
    pub fn vector(&self) -> usize {
        match (self.reading.stage, self.numbers.as_slice().get(2)) {
            (
                Stage::Later {
                    version: Version::Packed(_),
                    ..
                },
                Some(number),
            ) => (*number as usize).saturating_sub(1),
            _ => 0,
        }
    }

    /// Whether the bytes so far are the text of a certificate. It takes no memory.
    ///
    /// # Errors
    ///
    /// The first fault of the bytes so far; `Truncated` at the line that has not ended.
    pub fn finish(&self) -> Result<(), CertFault>
        ensures { (dates : ℕ) (bytes : List ℕ) → HasRead dates bytes self.now → Finishes dates bytes self.now result }
    {
        if let Some(fault) = self.reading.fault {
            return Err(fault);
        }
        if self.reading.stage.is_over() {
            return Ok(());
        }
        Err(CertFault {
            line: self.reading.line,
            kind: FaultKind::Truncated,
        })
    }
}
