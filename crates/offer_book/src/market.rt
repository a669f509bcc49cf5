//! The lines of a price file's notes.

ghost use Rattle.std.specs.Prelude.{◌≡◌, ◌+◌, All, IfOk, length, vec_items};
ghost use Rattle.std.specs.Result.{result_map_both};
ghost use Rattle.escrow_units.specs.Denomination.{AreTerms};
ghost use Rattle.escrow_units.specs.SlgsTerms.{IsSettlement};
ghost use Rattle.market_notes.specs.NoteTerms.{IsNote, IsNoteFile};
ghost use Rattle.row_fields.specs.RowForm.{Answers};
ghost use Rattle.offer_book.specs.Book.{IsSecurityLine};
ghost use Rattle.offer_book.specs.MarketLines.{AreLinesOfNotes, note_line as note_line_of, note_lines_of};

use crate::line::{Line, LineKind};
use crate::offers::ending_in_time;
use crate::payment_days::PaymentDays;
use escrow_desk::{CaseError, FileKind, NoMemory, RefusalKind};
use escrow_units::Terms;
use market_notes::{Note, NoteFile};
use row_fields::at_row;
use std::alloc::Global;

// The row of a note by its place, from 0, among the notes of its file: row 1 is that of the terms. A number that no row has is
// answered as want of memory.
fn note_row(place: usize) -> Result<u32, NoMemory>
    ensures { IfOk result (λ row. row ≡ place + 2) }
{
    match u32::try_from(place) {
        Ok(place) if place < u32::MAX - 2 => Ok(place + 2),
        _ => Err(NoMemory),
    }
}

// The line of a note, by the terms of its file, or the refusal of one whose maturity opens too late.
fn note_line(days: &PaymentDays, terms: Terms, note: &Note) -> Result<Line, RefusalKind>
    requires settlement { IsSettlement days.now.settle }
    requires note { IsNote note.now }
    requires same { note.now.settle ≡ days.now.settle }
    requires terms { AreTerms terms }
    ensures { result ≡ note_line_of days.now terms note.now }
{
    let line = Line::of(terms, LineKind::Market(*note), note.cap);
    ending_in_time(days, note.maturity, line)
}

/// The lines of the notes that a price file offers, in the order of their rows.
///
/// The file is one that was read. A line's step is the file's, in cents; its least number of units makes the file's
/// minimum, and its greatest is that of whole steps within the note's cap. A file without rows offers nothing.
///
/// # Errors
///
/// `Refused` with file `Prices` for the first note whose maturity opens more than 40 years after settlement, with its row, from
/// 1, and `ClosedPastEnd`. `NoMemory` where memory ran out.
pub(crate) fn note_lines(
    alloc: Global,
    days: &PaymentDays,
    file: &NoteFile,
) -> Result<Vec<Line>, CaseError>
    requires settlement { IsSettlement days.now.settle }
    requires file { IsNoteFile days.now.settle file.now }
    ensures lines { Answers (result_map_both vec_items (λ error. error) result) (note_lines_of days.now file.now) }
    ensures rules { IfOk result (λ lines. AreLinesOfNotes days.now file.now lines.items) }
    ensures count { IfOk result (λ lines. length lines.items ≡ length file.now.notes) }
    ensures securities { IfOk result (λ lines. All (IsSecurityLine days.now) lines.items) }
{
    let mut lines = Vec::new(alloc);
    let Some(terms) = file.terms else {
        return Ok(lines);
    };
    for (place, note) in file.notes.as_slice().iter().enumerate() {
        let row = note_row(place)?;
        let line = at_row(FileKind::Prices, row, note_line(days, terms, note))?;
        // Its fields are copied one by one, since the proof of the push reads their types.
        lines.push(Line { ..line })?;
    }
    Ok(lines)
}
