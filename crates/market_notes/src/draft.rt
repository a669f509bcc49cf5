//! What has been read of a price file so far.
ghost use Rattle.std.specs.Prelude.{◌≡◌, Ok, IfOk};
ghost use Rattle.std.specs.Result.{result_and};
ghost use Rattle.escrow_units.specs.Denomination.{AreTerms};
ghost use Rattle.escrow_units.specs.SlgsTerms.{IsSettlement};
ghost use Rattle.row_fields.specs.RowForm.{RowAnswers};
ghost use Rattle.market_notes.specs.NoteTerms.{IsNoteFile, IsOffered};
ghost use Rattle.market_notes.specs.PriceForm.{file_of, none_read, note_row_of, price_row_of, with_note, with_row};
ghost use Rattle.market_notes.specs.PriceRows.{IsPriceRow};

use crate::note::{Note, NoteFile, Notes};
use crate::row::{PriceRow, has_matured};
use escrow_desk::RefusalKind;
use escrow_units::{Day, Terms, read_cap, read_price, read_rate, years_after};
use row_fields::{Row, RowFault, day_by, refusal_kind, terms_row};
use std::alloc::Global;
use std::marker::Model;

/// What has been read of a price file so far.
#[derive(Drop)]
pub(crate) struct Draft {
    settle: Day,
    // The latest maturity, 40 years after settlement.
    latest: Day,
    terms: Terms,
    notes: Vec<Note>,
}

impl Model for Draft {
    ghost use Rattle.market_notes.specs.NoteTerms.{NotesRead};

    ghost Value = { NotesRead };

    ghost use Rattle.market_notes.specs.NoteDraft.{IsDraft};

    ghost view = { λ draft. record { settle = draft.settle; terms = draft.terms; notes = draft.notes.items } };

    ghost invariant = { λ draft. IsDraft draft.latest (record { settle = draft.settle; terms = draft.terms; notes = draft.notes.items }) };
}

impl Draft {
    /// No notes yet.
    pub fn new(alloc: Global, settle: Day, terms: Terms) -> Draft
        requires settle { IsSettlement settle }
        requires terms { AreTerms terms }
        ensures { result ≡ none_read settle terms }
    {
        Draft {
            settle,
            latest: years_after(settle, 40),
            terms,
            notes: Vec::new(alloc),
        }
    }

    // `note,MATURITY,COUPON,PRICE,CAP`
    fn note_row(&self, row: &Row) -> Result<Note, RefusalKind>
        ensures value { result ≡ note_row_of self.now.settle self.now.terms row.now }
        ensures note { IfOk result (IsOffered self.now.settle self.now.terms) }
    {
        if row.width() != 5 {
            return Err(RefusalKind::WrongFields);
        }
        let maturity = day_by(row.field(1), self.latest)?;
        let coupon = read_rate(row.field(2)).map_err(refusal_kind)?;
        let price = read_price(row.field(3)).map_err(refusal_kind)?;
        let cap = read_cap(row.field(4), self.terms).map_err(refusal_kind)?;
        if has_matured(self.settle, maturity) {
            return Err(RefusalKind::Matured);
        }
        Ok(Note {
            settle: self.settle,
            maturity,
            coupon,
            price,
            cap,
        })
    }

    // What one more row says.
    fn price_row(&self, row: &Row) -> Result<PriceRow, RefusalKind>
        ensures value { result ≡ price_row_of self.now.settle self.now.terms row.now }
        ensures row { IfOk result (IsPriceRow self.now.settle self.now.terms) }
    {
        let word = row.word();
        if word == b"terms".as_slice() {
            Ok(PriceRow::Terms(terms_row(row)?))
        } else if word == b"note".as_slice() {
            Ok(PriceRow::Note(self.note_row(row)?))
        } else {
            Err(RefusalKind::UnknownRow)
        }
    }

    // One more note.
    fn add_note(&mut self, note: Note) -> Result<(), RowFault>
        requires { IsOffered self.old.settle self.old.terms note }
        ensures added { RowAnswers (result_and result (Ok self.new)) (with_note self.old note) }
        ensures settle { self.new.settle ≡ self.old.settle }
    {
        self.notes.push(note)?;
        Ok(())
    }

    /// One more row.
    pub fn add_row(&mut self, row: &Row) -> Result<(), RowFault>
        ensures added { RowAnswers (result_and result (Ok self.new)) (with_row self.old row.now) }
        ensures settle { self.new.settle ≡ self.old.settle }
    {
        match self.price_row(row)? {
            PriceRow::Terms(_) => Err(RowFault::Refused(RefusalKind::Repeated)),
            PriceRow::Note(note) => self.add_note(note),
        }
    }

    /// What has been read, as the file.
    pub fn into_file(self) -> NoteFile
        ensures file { result ≡ file_of self }
        ensures kept { IsNoteFile self.settle result }
    {
        NoteFile {
            terms: Some(self.terms),
            notes: Notes::new(self.notes),
        }
    }
}
