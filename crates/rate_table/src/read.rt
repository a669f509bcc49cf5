//! The reader of rate files.
ghost use Rattle.std.specs.Prelude.{◌≡◌, ◌≤◌, Some, Ok, drop, length, IfOk, OnOk};
ghost use Rattle.escrow_units.specs.Denomination.{AreTerms};
ghost use Rattle.escrow_desk.specs.declared.refusal.FileKind.TheVariants.{Rates};
ghost use Rattle.row_fields.specs.RowForm.{Answers, with_rows};
ghost use Rattle.rate_table.specs.RateForm.{bare_file, rate_file_of, with_row};
ghost use Rattle.rate_table.specs.Table.{IsRateFile};

use crate::draft::Draft;
use crate::table::{Offers, RateFile, RateRanges};
use escrow_desk::{CaseError, FileKind, Rows};
use escrow_units::{Day, Terms};
use row_fields::{Row, at_row, first_terms, row_answer};
use std::alloc::Global;

// The rest of the rows, added to row 1's terms.
fn read_rest(alloc: Global, rows: &Rows, terms: Terms) -> Result<RateFile, CaseError>
    requires terms { AreTerms terms }
    requires rows { 1 ≤ length rows.now }
    ensures file { Answers result (with_rows Rates (with_row terms) (bare_file (Some terms)) 2 (drop 1 rows.now)) }
    ensures kept { IfOk result IsRateFile }
{
    let mut draft = Draft::new(alloc, terms);
    for place in 1..rows.count() {
        let added = draft.add_row(&Row::at(rows, place), place + 1, terms);
        row_answer(FileKind::Rates, place + 1, added)?;
    }
    Ok(draft.into_file())
}

/// Reads a rate file: no rows, or row 1 `terms`, and then `rate` and `offer` rows in any order.
///
/// Settlement plays no part: no day of these rows is tried against it.
///
/// # Errors
///
/// `Refused` with the first row that is faulty, from 1, and the first of its faults. In row 1 that is `Missing` where
/// it isn't `terms`; else, in this order, `UnknownRow`, `WrongFields`, the fault of a field (`BadNumber`, `BadDate`,
/// `OutOfRange`) from left to right, `OutOfRange` for a minimum that isn't a multiple of the step or a cap below the
/// minimum, `Repeated` for a second `terms` row, `DateOrder` and `Overlap`. `NoMemory` where memory ran out.
#[tactic(auto, unfolding(crate::specs::RateForm::rate_file_of))]
pub fn read_rates(alloc: Global, _settle: Day, rows: &Rows) -> Result<RateFile, CaseError>
    ensures file { Answers result (rate_file_of rows.now) }
    ensures kept { IfOk result IsRateFile }
{
    if rows.count() == 0 {
        return Ok(RateFile {
            terms: None,
            ranges: RateRanges::new(Vec::new(alloc)),
            offers: Offers::new(Vec::new(alloc)),
        });
    }
    let terms = at_row(FileKind::Rates, 1, first_terms(&Row::at(rows, 0)))?;
    read_rest(alloc, rows, terms)
}
