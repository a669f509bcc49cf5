//! The reader of issue files.
ghost use Rattle.std.specs.Prelude.{◌≡◌, ◌≤◌, drop, length, IfOk, OnOk, IfSome, All};
ghost use Rattle.escrow_desk.specs.declared.refusal.FileKind.TheVariants.{Issue as IssueFile};
ghost use Rattle.escrow_units.specs.Flows.{total};
ghost use Rattle.escrow_units.specs.SlgsTerms.{IsSettlement};
ghost use Rattle.row_fields.specs.RowForm.{Answers, RowAnswers, with_rows};
ghost use Rattle.issue_schedule.specs.IssueForm.{bare_read, draft_of, finished_of, is_within_limit_of, issue_of, issue_with_of, restricted_of, with_row, within_limits_of};
ghost use Rattle.issue_schedule.specs.IssueTerms.{HasNeeds, IsBond, IsCall, IsDirect, IsIssue, IsRead, IsRestricted, need_dates};

use crate::draft::{Draft, IssueRead};
use crate::issue::{Issue, Restricted};
use crate::limits::{limited_bonds, limited_sum};
use crate::row::first_settle;
use crate::schedule::needs;
use escrow_desk::{CaseError, FileKind, NoMemory, RefusalKind, Rows};
use escrow_units::{AMOUNT_LIMIT, Cents, ClosedDays, Day, MOST_NEED_DATES};
use row_fields::{Row, RowFault, at_row, row_answer};
use std::alloc::Global;

// The rest of the rows, after row 1 with the settlement day.
fn read_rest(alloc: Global, rows: &Rows, settle: Day) -> Result<Draft, CaseError>
    requires settle { IsSettlement settle }
    requires rows { 1 ≤ length rows.now }
    ensures { Answers result (with_rows IssueFile with_row (bare_read settle) 2 (drop 1 rows.now)) }
{
    let mut draft = Draft::new(alloc, settle);
    for place in 1..rows.count() {
        let added = draft.add_row(&Row::at(rows, place), place + 1);
        row_answer(FileKind::Issue, place + 1, added)?;
    }
    Ok(draft)
}

// What the rows give, or the first that is refused.
#[tactic(auto, unfolding(crate::specs::IssueForm::draft_of))]
fn read_draft(alloc: Global, rows: &Rows) -> Result<Draft, CaseError>
    ensures { Answers result (draft_of rows.now) }
{
    if rows.count() == 0 {
        return at_row(FileKind::Issue, 1, Err(RefusalKind::Missing));
    }
    let settle = at_row(FileKind::Issue, 1, first_settle(&Row::at(rows, 0)))?;
    read_rest(alloc, rows, settle)
}

// The restricted yield, given or to be computed.
fn restricted_yield(read: &IssueRead) -> Result<Restricted, RefusalKind>
    requires { IsRead read.now }
    ensures value { result ≡ restricted_of read.now.restricted read.now.price read.now.pays }
    ensures kept { IfOk result IsRestricted }
{
    if let Some(units) = read.restricted {
        return Ok(Restricted::Given(units));
    }
    match read.price {
        Some(price) if !read.pays.is_empty() => Ok(Restricted::Computed {
            row: price.row,
            price: price.cents,
        }),
        _ => Err(RefusalKind::Missing),
    }
}

// What the rows say, before the limits are tried.
fn issue_with(alloc: Global, read: IssueRead, restricted: Restricted) -> Result<Issue, NoMemory>
    requires { IsRead read }
    ensures { IfOk result (λ issue. issue ≡ issue_with_of read restricted) }
{
    let closed = ClosedDays::new(alloc, read.weekends, read.closed.into_vec())?;
    Ok(Issue {
        settle: read.settle,
        call: read.call,
        bonds: read.bonds,
        direct: read.direct,
        cash: read.cash.unwrap_or(Cents(0)),
        restricted,
        pays: read.pays,
        allowance: read.allowance.unwrap_or(Cents(0)),
        budget: read.budget.unwrap_or(1000),
        closed,
    })
}

// Whether the needs, and the payments, keep to the limit together.
fn is_within_limit(issue: &Issue) -> bool
    requires settle { IsSettlement issue.now.settle }
    requires call { IfSome issue.now.call (IsCall issue.now.settle) }
    requires bonds { All (IsBond issue.now.settle) issue.now.bonds }
    ensures { result ≡ is_within_limit_of issue.now }
{
    let Some(direct) = limited_sum(0, issue.direct.as_slice()) else {
        return false;
    };
    limited_bonds(direct, issue).is_some() && limited_sum(0, issue.pays.as_slice()).is_some()
}

// An issue that keeps to the limits of the whole file, or the refusal.
fn within_limits(alloc: Global, issue: Issue) -> Result<Issue, RowFault>
    requires settle { IsSettlement issue.settle }
    requires call { IfSome issue.call (IsCall issue.settle) }
    requires bonds { All (IsBond issue.settle) issue.bonds }
    requires direct { All (IsDirect issue.settle) issue.direct }
    ensures issue { RowAnswers result (within_limits_of issue) }
    ensures same { IfOk result (λ answer. answer ≡ issue) }
    ensures needs { OnOk result (HasNeeds issue) }
    ensures dates { OnOk result (need_dates issue ≤ MOST_NEED_DATES) }
    ensures closed { OnOk result (length issue.closed.days ≤ 1000) }
    ensures pays { OnOk result (total issue.pays ≤ AMOUNT_LIMIT) }
{
    if !is_within_limit(&issue) {
        return Err(RowFault::Refused(RefusalKind::NeedsTooLarge));
    }
    let dates = needs(alloc, &issue)?;
    if dates.len() > MOST_NEED_DATES || issue.closed.days().len() > 1000 {
        return Err(RowFault::Refused(RefusalKind::TooManyDates));
    }
    Ok(issue)
}

// What all the rows give, or a refusal of the whole file.
fn finished(alloc: Global, draft: Draft) -> Result<Issue, RowFault>
    ensures issue { RowAnswers result (finished_of draft) }
    ensures kept { IfOk result IsIssue }
{
    let read = draft.into_read();
    let restricted = restricted_yield(&read)?;
    within_limits(alloc, issue_with(alloc, read, restricted)?)
}

/// Reads an issue file: row 1 is `settle`, and the other rows come in any order.
///
/// # Errors
///
/// `Refused` with the first row that is faulty, from 1, and the first of its faults: in row 1 `Missing` where it isn't
/// `settle`; then `UnknownRow`, `WrongFields`, the fault of a field (`BadNumber`, `BadDate`, `OutOfRange`, `PriceRange`)
/// from left to right, where a day past settlement + 40 years is `OutOfRange`; `Repeated` for a word that may stand once,
/// for a day that an earlier `closed` row closes, and where a restricted yield stands beside a price or payments; and
/// `DateOrder` for a day on the wrong side of settlement. After all rows `Refused` with row 0: `Missing` where there is
/// neither a restricted yield nor a price with payments, `NeedsTooLarge` where the needs or the payments together are over
/// 10^13 cents, and `TooManyDates` where there are more than 480 need dates, or more than 1,000 `closed` rows. `NoMemory`
/// where memory ran out.
#[tactic(auto, unfolding(crate::specs::IssueForm::issue_of))]
pub fn read_issue(alloc: Global, rows: &Rows) -> Result<Issue, CaseError>
    ensures issue { Answers result (issue_of rows.now) }
    ensures kept { IfOk result IsIssue }
{
    let draft = read_draft(alloc, rows)?;
    row_answer(FileKind::Issue, 0, finished(alloc, draft))
}
