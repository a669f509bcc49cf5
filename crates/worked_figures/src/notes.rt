//! The price file of a sheet.

use crate::rates::{rows_in, terms_shown};
use escrow_units::{ClosedDays, Day, print_day, print_rate};
use figure_sheets::{Unread, cents, number_of, settlement, shown_flows};
use market_notes::{Note, NoteFile, note_cost, note_payments, read_notes};
use std::alloc::{AllocError, Global};
use std::marker::Model;

/// What a price file says, and the day on which its notes settle.
#[derive(Drop)]
pub(crate) struct Prices {
    settle: Day,
    file: NoteFile,
}

impl Model for Prices {
    ghost use Rattle.market_notes.specs.declared.note.NoteFile.{NoteFile};

    ghost Value = { NoteFile };

    ghost use Rattle.market_notes.specs.NoteTerms.{IsNoteFile};

    ghost view = { λ prices. prices.file };

    ghost invariant = { λ prices. IsNoteFile prices.settle prices.file };
}

// A note: its maturity, its coupon, its price in units of 10^-8 percent, and the greatest purchase.
fn note_shown(alloc: Global, note: &Note) -> Result<String, AllocError> {
    let (maturity, coupon) = (print_day(note.maturity), print_rate(note.coupon));
    format!(in alloc;
        "{} {} {} {}",
        maturity.as_str(),
        coupon.as_str(),
        note.price.0,
        note.cap
    )
}

impl Prices {
    ghost use Rattle.std.specs.Prelude.{IfOk};
    ghost use Rattle.market_notes.specs.NoteTerms.{IsNote};

    /// The price file of a part's lines, the first of which says when its notes settle.
    pub(crate) fn read(alloc: Global, settle: &str, lines: &str) -> Result<Prices, Unread> {
        let settle = settlement(settle.trim())?;
        match read_notes(alloc, settle, &rows_in(alloc, lines)?) {
            Ok(file) => Ok(Prices { settle, file }),
            Err(_) => Err(Unread::Part),
        }
    }

    // A note, which its number from 1 names.
    fn note(&self, number: &str) -> Result<&Note, Unread>
        ensures { IfOk result (λ note. IsNote note.now) }
    {
        let notes = self.file.notes.as_slice();
        let place = number_of(number)?;
        if place == 0 || place > notes.len() as u64 {
            return Err(Unread::Argument);
        }
        Ok(&notes[place as usize - 1])
    }

    /// What a call on the file comes to, if it is one.
    pub(crate) fn answer(
        &self,
        alloc: Global,
        closed: &ClosedDays,
        name: &str,
        arguments: &[&str],
    ) -> Result<String, Unread> {
        let text = match (name.as_bytes(), arguments) {
            (b"note_terms", []) => terms_shown(alloc, self.file.terms),
            (b"notes", []) => format!(in alloc; "{}", self.file.notes.as_slice().len()),
            (b"note", [number]) => note_shown(alloc, self.note(number)?),
            (b"note_cost", [number, face]) => {
                let note = self.note(number)?;
                format!(in alloc; "{}", note_cost(note, cents(face, 100_000_000_000)?).0)
            }
            (b"note_payments", [number, face]) => {
                let note = self.note(number)?;
                let flows = note_payments(note, cents(face, 100_000_000_000)?, closed);
                shown_flows(alloc, flows.as_slice())
            }
            _ => return Err(Unread::NoCall),
        };
        Ok(text?)
    }
}
