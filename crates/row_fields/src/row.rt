//! One row of a file.
ghost use Rattle.std.specs.Prelude.{◌≡◌, ◌<◌, [], length, slice_index_or};

use escrow_desk::Rows;
use std::marker::Model;

/// A row of a file. Contracts see the list of its fields.
#[derive(Drop)]
pub struct Row<'a> {
    rows: &'a Rows,
    // Where it stands, from 0.
    place: u32,
}

impl<'a> Model for Row<'a> {
    ghost use Rattle.std.specs.Prelude.{ℕ, List, [], ◌<◌, length, slice_index_or};

    ghost Value = { List (List ℕ) };

    ghost view = { λ row. slice_index_or row.rows.now row.place [] };

    ghost invariant = { λ row. row.place < length row.rows.now };
}

impl<'a> Row<'a> {
    /// The row at a place, from 0.
    pub fn at(rows: &'a Rows, place: u32) -> Row<'a>
        requires { place < length rows.now }
        ensures { result ≡ slice_index_or rows.now place [] }
    {
        Row { rows, place }
    }

    /// How many fields it has.
    pub fn width(&self) -> u32
        ensures { result ≡ length self.now }
    {
        let rows = self.rows;
        rows.width(self.place)
    }

    /// The bytes of a field, by its place from 0.
    pub fn field(&self, place: u32) -> &[u8]
        requires { place < length self.now }
        ensures { result.now ≡ slice_index_or self.now place [] }
    {
        let rows = self.rows;
        rows.field(self.place, place)
    }

    /// Its first field, which says what the row is; that of a row without fields is empty.
    pub fn word(&self) -> &[u8]
        ensures { result.now ≡ slice_index_or self.now 0 [] }
    {
        if self.width() == 0 {
            return &[];
        }
        self.field(0)
    }
}
