//! Records in one buffer: the bytes of all fields, where fields end, and where records end.

ghost use Rattle.std.specs.Prelude.{◌≡◌, ◌<◌, ◌++◌, ◌∷◌, [], length, IfOk, OnOk, slice_index_or};
ghost use Rattle.csv.specs.Records.{fields_of, prev};
ghost use Rattle.escrow_desk.specs.Buffer.{IsRowBuffer, rows_in};
ghost use Rattle.escrow_desk.specs.Parts.{AreEnds, parts};

use crate::refusal::NoMemory;
use csv::ByteRecord;
use std::alloc::Global;

/// Records, seen as the buffer that holds them.
#[derive(Drop)]
pub(crate) struct RowBuffer {
    /// The bytes of all fields, one after the other.
    pub bytes: Vec<u8>,
    /// Where each field ends among the bytes.
    pub field_ends: Vec<u32>,
    /// Where each record ends among the fields.
    pub row_ends: Vec<u32>,
}

// A length as a place; a buffer that outgrows 32 bits is want of memory.
fn place_at(length: usize) -> Result<u32, NoMemory>
    ensures { IfOk result (λ place. place ≡ length) }
{
    match u32::try_from(length) {
        Ok(place) => Ok(place),
        Err(_) => Err(NoMemory),
    }
}

// Where the part of a number starts.
fn start_of(ends: &[u32], part: usize) -> u32
    requires { part < length ends.now }
    ensures { result ≡ prev 0 ends.now part }
{
    if part == 0 { 0 } else { ends[part - 1] }
}

// The bytes of the part of a number.
fn part_of<'a>(bytes: &'a [u8], ends: &[u32], part: usize) -> &'a [u8]
    requires kept { AreEnds ends.now (length bytes.now) }
    requires part { part < length ends.now }
    ensures { result.now ≡ slice_index_or (parts ends.now bytes.now) part [] }
{
    let start = start_of(ends, part) as usize;
    let end = ends[part] as usize;
    &bytes[start..end]
}

// Adds the fields of a record.
fn push_fields(bytes: &mut Vec<u8>, ends: &mut Vec<u32>, row: &ByteRecord) -> Result<(), NoMemory>
    requires { AreEnds ends.old.items (length bytes.old.items) }
    ensures kept { OnOk result (AreEnds ends.new.items (length bytes.new.items)) }
    ensures fields { OnOk result (parts ends.new.items bytes.new.items ≡ parts ends.old.items bytes.old.items ++ fields_of row.now) }
{
    for field in row.iter() {
        bytes.extend_from_slice(field)?;
        ends.push(place_at(bytes.len())?)?;
    }
    Ok(())
}

impl RowBuffer {
    /// No records yet.
    pub fn new(alloc: Global) -> RowBuffer
        ensures kept { IsRowBuffer result }
        ensures rows { rows_in result ≡ [] }
    {
        RowBuffer {
            bytes: Vec::new(alloc),
            field_ends: Vec::new(alloc),
            row_ends: Vec::new(alloc),
        }
    }

    /// Adds a record. Where memory ran out, no record may be added any more.
    pub fn push(&mut self, row: &ByteRecord) -> Result<(), NoMemory>
        requires { IsRowBuffer self.old }
        ensures kept { OnOk result (IsRowBuffer self.new) }
        ensures rows { OnOk result (rows_in self.new ≡ rows_in self.old ++ fields_of row.now ∷ []) }
    {
        push_fields(&mut self.bytes, &mut self.field_ends, row)?;
        self.row_ends.push(place_at(self.field_ends.len())?)?;
        Ok(())
    }

    /// How many records there are.
    pub fn count(&self) -> usize
        ensures { result ≡ length (rows_in self.now) }
    {
        self.row_ends.len()
    }

    /// How many fields a record has.
    pub fn width(&self, row: usize) -> u32
        requires kept { IsRowBuffer self.now }
        requires row { row < length (rows_in self.now) }
        ensures { result ≡ length (slice_index_or (rows_in self.now) row []) }
    {
        self.row_ends[row] - start_of(self.row_ends.as_slice(), row)
    }

    /// The bytes of a field.
    pub fn field(&self, row: usize, place: u32) -> &[u8]
        requires kept { IsRowBuffer self.now }
        requires row { row < length (rows_in self.now) }
        requires place { place < length (slice_index_or (rows_in self.now) row []) }
        ensures { result.now ≡ slice_index_or (slice_index_or (rows_in self.now) row []) place [] }
    {
        let field = start_of(self.row_ends.as_slice(), row) as usize + place as usize;
        part_of(self.bytes.as_slice(), self.field_ends.as_slice(), field)
    }
}
