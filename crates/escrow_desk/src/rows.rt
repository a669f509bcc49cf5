//! The records of a text of comma-separated fields.

ghost use Rattle.std.specs.Prelude.{◌≡◌, ◌<◌, ◌≤◌, [], length, IfOk, slice_index_or};
ghost use Rattle.escrow_desk.specs.Rows.{rows_of};

use crate::buffer::RowBuffer;
use crate::limits::FILE_LIMIT;
use crate::refusal::NoMemory;
use csv::{ByteRecord, ReaderBuilder};
use std::alloc::Global;
use std::marker::Model;

/// The records of a text of comma-separated fields, seen as a list of lists of byte lists.
#[derive(Drop)]
pub struct Rows {
    buffer: RowBuffer,
}

impl Model for Rows {
    ghost use Rattle.std.specs.Prelude.{ℕ, List};
    ghost use Rattle.escrow_desk.specs.Buffer.{IsRowBuffer, rows_in};
    ghost use Rattle.escrow_desk.specs.Sizes.{AreSmall};

    ghost Value = { List (List (List ℕ)) };

    ghost view = { λ rows. rows_in rows.buffer };

    ghost invariant = { λ rows. IsRowBuffer rows.buffer × AreSmall (rows_in rows.buffer) };
}

impl Rows {
    /// How many records there are.
    pub fn count(&self) -> u32
        ensures { result ≡ length self.now }
    {
        self.buffer.count() as u32
    }

    /// How many fields a record has. Records are counted from 0.
    pub fn width(&self, row: u32) -> u32
        requires { row < length self.now }
        ensures { result ≡ length (slice_index_or self.now row []) }
    {
        self.buffer.width(row as usize)
    }

    /// The bytes of a field. Records and places are counted from 0.
    pub fn field(&self, row: u32, place: u32) -> &[u8]
        requires row { row < length self.now }
        requires place { place < length (slice_index_or self.now row []) }
        ensures { result.now ≡ slice_index_or (slice_index_or self.now row []) place [] }
    {
        self.buffer.field(row as usize, place)
    }
}

/// The records of a text of at most 1,048,576 bytes, as `csv` defines them: no header row, records of any length, no
/// trimming, and a byte order mark at the very start is no part of the text.
///
/// # Errors
///
/// Where memory ran out. A fault of the crate, of which none is known over bytes in memory, is answered so too.
pub fn read_rows(alloc: Global, bytes: &[u8]) -> Result<Rows, NoMemory>
    requires { length bytes.now ≤ FILE_LIMIT }
    ensures { IfOk result (λ rows. rows ≡ rows_of bytes.now) }
{
    // Many cases have an empty file, for which no reader is made: to make one takes longer than to read some lines.
    if bytes.is_empty() {
        return Ok(Rows {
            buffer: RowBuffer::new(alloc),
        });
    }
    let mut reader = ReaderBuilder::new()
        .flexible(true)
        .from_reader(alloc, bytes);
    // With a header row that is set, none is read, and the reader keeps no copy of the first record.
    let Ok(()) = reader.set_byte_headers(ByteRecord::new(alloc)) else {
        return Err(NoMemory);
    };
    let mut record = ByteRecord::new(alloc);
    let mut buffer = RowBuffer::new(alloc);
    'rows: loop {
        match reader.read_byte_record(&mut record) {
            Ok(true) => buffer.push(&record)?,
            Ok(false) => return Ok(Rows { buffer }),
            Err(_) => return Err(NoMemory),
        }
    }
}
