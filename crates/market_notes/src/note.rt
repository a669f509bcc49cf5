//! A note, and the file of them.
ghost use Rattle.std.specs.Prelude.{◌≡◌};

use escrow_units::{Day, Price8, Rate, Terms};
use std::marker::Model;

/// A marketable Treasury note on offer.
#[derive(Clone, Copy, Debug, PartialEq, Eq)]
pub struct Note {
    /// The day on which it is bought.
    pub settle: Day,
    /// The day on which it pays its principal.
    pub maturity: Day,
    /// Its coupon, in thousandths of a percentage point a year: at most 30 percent.
    pub coupon: Rate,
    /// Its price without accrued interest: from 10 to 300 percent of par.
    pub price: Price8,
    /// The greatest purchase, in dollars: from the minimum of the file to 1,000,000,000.
    pub cap: u64,
}

/// Notes on offer, in the order of their rows. Contracts see the list of them.
#[derive(Debug, Drop)]
pub struct Notes {
    notes: Vec<Note>,
}

impl Model for Notes {
    ghost use Rattle.std.specs.Prelude.{List};
    ghost use Rattle.market_notes.specs.declared.note.Note.{Note};

    ghost Value = { List Note };

    ghost view = { λ n. n.notes.items };
}

impl Notes {
    /// These notes.
    pub fn new(notes: Vec<Note>) -> Notes
        ensures { result ≡ notes.items }
    {
        Notes { notes }
    }

    /// The notes as a slice.
    pub fn as_slice(&self) -> &[Note]
        ensures { result.now ≡ self.now }
    {
        self.notes.as_slice()
    }

    /// The notes as they were given.
    pub fn into_vec(self) -> Vec<Note>
        ensures { result.items ≡ self }
    {
        self.notes
    }
}

/// What a price file says: the denominations of its notes, and the notes.
#[derive(Debug, Drop)]
pub struct NoteFile {
    /// The least purchase and the step; None where the file has no rows.
    pub terms: Option<Terms>,
    /// The notes on offer.
    pub notes: Notes,
}
