//! The reader of files of holdings.

ghost use Rattle.std.specs.Prelude.{◌≡◌, ◌≤◌, ◌≤ℤ◌, nat_le, Ok, IfOk};
ghost use Rattle.std.specs.Result.{result_and, result_map_both};
ghost use Rattle.escrow_units.specs.Calendar.{years_after_of};
ghost use Rattle.escrow_units.specs.Flows.{FallWithinFortyYears, total};
ghost use Rattle.escrow_units.specs.SlgsTerms.{IsSettlement};
ghost use Rattle.day_sums.specs.Summed.{summed};
ghost use Rattle.row_fields.specs.RowForm.{Answers, RowAnswers};
ghost use Rattle.held_escrow.specs.HeldForm.{held_of, held_row_of, receipts_of, with_row};
ghost use Rattle.held_escrow.specs.Holdings.{AreHoldings};

use day_sums::DaySums;
use escrow_desk::{CaseError, FileKind, NoMemory, RefusalKind, Rows};
use escrow_units::{AMOUNT_LIMIT, Day, Flow, read_cents, years_after};
use row_fields::{Row, RowFault, at_row, day_by, refusal_kind, row_answer};
use std::alloc::Global;

// `held,DATE,AMOUNT`, with a date from settlement up to the last day.
fn held_row(row: &Row, settle: Day, last: Day) -> Result<Flow, RefusalKind>
    requires { last ≡ years_after_of settle 40 }
    ensures value { result ≡ held_row_of settle row.now }
    ensures from { IfOk result (λ receipt. settle ≤ℤ receipt.day) }
    ensures by { IfOk result (λ receipt. receipt.day ≤ℤ last) }
{
    if row.word() != b"held".as_slice() {
        return Err(RefusalKind::UnknownRow);
    }
    if row.width() != 3 {
        return Err(RefusalKind::WrongFields);
    }
    let day = day_by(row.field(1), last)?;
    let cents = read_cents(row.field(2)).map_err(refusal_kind)?;
    if day < settle {
        return Err(RefusalKind::DateOrder);
    }
    Ok(Flow { day, cents })
}

// One more row, whose receipt joins those that were read.
fn add_row(receipts: &mut Vec<Flow>, row: &Row, settle: Day, last: Day) -> Result<(), RowFault>
    requires last { last ≡ years_after_of settle 40 }
    requires within { FallWithinFortyYears settle receipts.old.items }
    ensures added { RowAnswers (result_and result (Ok receipts.new.items)) (with_row settle receipts.old.items row.now) }
    ensures within { FallWithinFortyYears settle receipts.new.items }
{
    let receipt = held_row(row, settle, last)?;
    receipts.push(receipt)?;
    Ok(())
}

// The receipts of rows, in their order.
fn read_receipts(alloc: Global, settle: Day, rows: &Rows) -> Result<Vec<Flow>, CaseError>
    requires { IsSettlement settle }
    ensures receipts { Answers (result_map_both (λ receipts. receipts.items) (λ error. error) result) (receipts_of settle rows.now) }
    ensures within { IfOk result (λ receipts. FallWithinFortyYears settle receipts.items) }
{
    let last = years_after(settle, 40);
    let mut receipts = Vec::new(alloc);
    for place in 0..rows.count() {
        let added = add_row(&mut receipts, &Row::at(rows, place), settle, last);
        row_answer(FileKind::Held, place + 1, added)?;
    }
    Ok(receipts)
}

// Whether receipts together keep to the limit of amounts.
fn is_within_limit(receipts: &[Flow]) -> bool
    ensures { result ≡ nat_le (total receipts.now) AMOUNT_LIMIT }
{
    let mut room = AMOUNT_LIMIT;
    for receipt in receipts {
        if receipt.cents.0 > room {
            return false;
        }
        room -= receipt.cents.0;
    }
    true
}

// Receipts summed by day.
fn summed_by_day(alloc: Global, settle: Day, receipts: &[Flow]) -> Result<Vec<Flow>, NoMemory>
    requires settlement { IsSettlement settle }
    requires within { FallWithinFortyYears settle receipts.now }
    requires small { total receipts.now ≤ AMOUNT_LIMIT }
    ensures held { IfOk result (λ held. held.items ≡ summed receipts.now) }
    ensures kept { IfOk result (λ held. AreHoldings settle held.items) }
{
    let mut sums = DaySums::between(alloc, settle, years_after(settle, 40))?;
    sums.add(receipts);
    sums.into_flows(alloc)
}

/// Reads a file of holdings: rows `held,DATE,AMOUNT`, each a receipt of what the escrow holds already, from settlement to 40 years
/// after it. They are summed by day, in order, without zeros, in cents. A file without rows holds nothing. Settlement is from
/// 2000-01-01 to 2150-01-01. The rows are this project's own.
///
/// # Errors
///
/// `Refused` with the first row that is faulty, from 1, and the first of its faults, in this order: `UnknownRow`, `WrongFields`, the
/// fault of a field (`BadDate`, `BadNumber`, `OutOfRange`) from left to right, where a day past settlement + 40 years is
/// `OutOfRange`, and `DateOrder` for a day before settlement. After all rows `Refused` with row 0: `HeldTooLarge` where they come to
/// more than 10^13 cents together. `NoMemory` where memory ran out.
#[tactic(auto, unfolding(crate::specs::HeldForm::held_of))]
pub fn read_held(alloc: Global, settle: Day, rows: &Rows) -> Result<Vec<Flow>, CaseError>
    requires { IsSettlement settle }
    ensures held { Answers (result_map_both (λ held. held.items) (λ error. error) result) (held_of settle rows.now) }
    ensures kept { IfOk result (λ held. AreHoldings settle held.items) }
{
    let receipts = read_receipts(alloc, settle, rows)?;
    if !is_within_limit(receipts.as_slice()) {
        return at_row(FileKind::Held, 0, Err(RefusalKind::HeldTooLarge));
    }
    Ok(summed_by_day(alloc, settle, receipts.as_slice())?)
}
