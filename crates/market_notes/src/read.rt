//! The reader of price files.
ghost use Rattle.std.specs.Prelude.{◌≡◌, ◌≤◌, drop, length, IfOk};
ghost use Rattle.escrow_units.specs.Denomination.{AreTerms};
ghost use Rattle.escrow_units.specs.SlgsTerms.{IsSettlement};
ghost use Rattle.row_fields.specs.RowForm.{Answers};
ghost use Rattle.market_notes.specs.NoteTerms.{IsNoteFile};
ghost use Rattle.market_notes.specs.PriceForm.{none_read, note_file_of, with_price_rows};

use crate::draft::Draft;
use crate::note::{NoteFile, Notes};
use escrow_desk::{CaseError, FileKind, Rows};
use escrow_units::{Day, Terms};
use row_fields::{Row, at_row, first_terms, row_answer};
use std::alloc::Global;

// The rest of the rows, after row 1 with the terms.
fn read_rest(alloc: Global, rows: &Rows, settle: Day, terms: Terms) -> Result<Draft, CaseError>
    requires settle { IsSettlement settle }
    requires terms { AreTerms terms }
    requires rows { 1 ≤ length rows.now }
    ensures read { Answers result (with_price_rows (none_read settle terms) 2 (drop 1 rows.now)) }
    ensures settle { IfOk result (λ draft. draft.settle ≡ settle) }
{
    let mut draft = Draft::new(alloc, settle, terms);
    for place in 1..rows.count() {
        let added = draft.add_row(&Row::at(rows, place));
        row_answer(FileKind::Prices, place + 1, added)?;
    }
    Ok(draft)
}

/// Reads a price file: no rows, or row 1 `terms,MINIMUM,STEP`, and then rows `note,MATURITY,COUPON,PRICE,CAP`.
///
/// MINIMUM, STEP and CAP are whole dollars, COUPON is in percent, at most 30.000, and PRICE is from 10 to 300 percent of
/// par, as a decimal or in thirty-seconds. A maturity comes after settlement with an index of at least 1 by 30/360, and
/// at most 40 years after settlement. Settlement is from 2000-01-01 to 2150-01-01. The rows are this project's own.
///
/// # Errors
///
/// `Refused` with the first row that is faulty, from 1, and the first of its faults. In row 1 that is `Missing` where
/// it isn't `terms`; else, in this order, `UnknownRow`, `WrongFields`, the fault of a field (`BadNumber`, `BadDate`,
/// `OutOfRange`, `PriceRange`) from left to right, `OutOfRange` for a minimum that isn't a multiple of the step or a cap
/// below the minimum, `Repeated` for a second `terms` row, and `Matured` for a maturity that isn't late enough.
/// `NoMemory` where memory ran out.
#[tactic(auto, unfolding(crate::specs::PriceForm::note_file_of))]
pub fn read_notes(alloc: Global, settle: Day, rows: &Rows) -> Result<NoteFile, CaseError>
    requires { IsSettlement settle }
    ensures file { Answers result (note_file_of settle rows.now) }
    ensures kept { IfOk result (IsNoteFile settle) }
{
    if rows.count() == 0 {
        return Ok(NoteFile {
            terms: None,
            notes: Notes::new(Vec::new(alloc)),
        });
    }
    let terms = at_row(FileKind::Prices, 1, first_terms(&Row::at(rows, 0)))?;
    Ok(read_rest(alloc, rows, settle, terms)?.into_file())
}
