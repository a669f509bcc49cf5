//! The case of three files.

ghost use Rattle.std.specs.Prelude.{◌≡◌, ◌≤◌, IfOk, length};
ghost use Rattle.escrow_desk.specs.Rows.{rows_of};
ghost use Rattle.escrow_units.specs.SlgsTerms.{IsSettlement};
ghost use Rattle.issue_schedule.specs.IssueForm.{issue_of};
ghost use Rattle.issue_schedule.specs.IssueTerms.{IsIssue};
ghost use Rattle.market_notes.specs.NoteTerms.{IsNoteFile};
ghost use Rattle.market_notes.specs.PriceForm.{note_file_of};
ghost use Rattle.rate_table.specs.RateForm.{rate_file_of};
ghost use Rattle.rate_table.specs.Table.{IsRateFile};
ghost use Rattle.row_fields.specs.RowForm.{Answers};
ghost use Rattle.case_file.specs.Case.{CaseAnswers, HasTerms, IsKept, case_view, case_with, rows_case};
ghost use Rattle.case_file.specs.Limit.{RestsOn};

use crate::limit::limit;
use escrow_desk::{CaseError, FILE_LIMIT, read_rows};
use escrow_units::{Cents, Day, YieldUnits};
use issue_schedule::{Issue, read_issue};
use market_notes::{NoteFile, read_notes};
use offer_book::{Book, make_book};
use rate_table::{RateFile, read_rates};
use std::alloc::Global;

/// What the input files say together.
#[derive(Drop)]
pub struct Case {
    /// The settlement day, the needs and the lines.
    pub book: Book,
    /// The limit on the yield of an escrow: the restricted yield plus one thousandth of a percentage point
    /// (26 CFR 1.148-2(d)(2)), in units of 10^-10.
    pub limit: YieldUnits,
    /// The greatest gap that is allowed, in cents.
    pub allowance: Cents,
    /// The greatest number of nodes of a search, from 1 to 10,000.
    pub budget: u32,
}

// The issue of an issue file's bytes.
fn issue_of_text(alloc: Global, text: &[u8]) -> Result<Issue, CaseError>
    requires { length text.now ≤ FILE_LIMIT }
    ensures issue { Answers result (issue_of (rows_of text.now)) }
    ensures kept { IfOk result IsIssue }
{
    let rows = read_rows(alloc, text)?;
    read_issue(alloc, &rows)
}

// The rate file of its bytes.
fn rates_of_text(alloc: Global, settle: Day, text: &[u8]) -> Result<RateFile, CaseError>
    requires { length text.now ≤ FILE_LIMIT }
    ensures rates { Answers result (rate_file_of (rows_of text.now)) }
    ensures kept { IfOk result IsRateFile }
{
    let rows = read_rows(alloc, text)?;
    read_rates(alloc, settle, &rows)
}

// The price file of its bytes.
fn notes_of_text(alloc: Global, settle: Day, text: &[u8]) -> Result<NoteFile, CaseError>
    requires text { length text.now ≤ FILE_LIMIT }
    requires settlement { IsSettlement settle }
    ensures notes { Answers result (note_file_of settle (rows_of text.now)) }
    ensures kept { IfOk result (IsNoteFile settle) }
{
    let rows = read_rows(alloc, text)?;
    read_notes(alloc, settle, &rows)
}

// The case of an issue and its book.
fn case_of_book(alloc: Global, issue: &Issue, book: Book) -> Result<Case, CaseError>
    requires { IsIssue issue.now }
    ensures case { CaseAnswers result (case_with issue.now book) }
    ensures book { IfOk result (λ case. case.book ≡ book) }
    ensures rests { IfOk result (λ case. RestsOn issue.now case.limit.0) }
    ensures terms { IfOk result (λ case. HasTerms (case_view case)) }
{
    let limit = limit(alloc, issue)?;
    Ok(Case {
        book,
        limit,
        allowance: issue.allowance,
        budget: issue.budget,
    })
}

/// The case that the bytes of an issue file, a rate file and a price file give. Each has at most 1,048,576 bytes.
///
/// Its limit is one thousandth of a percentage point above the restricted yield: the given one, or else the lower end of the
/// yield of the issue's own payments for its price, which isn't above their exact yield.
///
/// # Errors
///
/// `Refused` with the first that stands, in this order: the refusal of the issue file, as `read_issue` has it; of the rate
/// file, as `read_rates`; of the price file, as `read_notes`; of an offer that breaks a rule of SLGS securities, or else of
/// the first note that opens more than 40 years after settlement, or else of more than 512 lines, as `make_book`; and, where
/// the restricted yield is to be computed, `OutOfRange` of the issue file at its price's row, where the issue's own payments
/// come to less than its price, or the lower end of their yield is over 29.99 percent. `NoMemory` where memory ran out.
#[tactic(auto, unfolding(crate::specs::Case::rows_case))]
pub fn read_case(
    alloc: Global,
    issue: &[u8],
    rates: &[u8],
    prices: &[u8],
) -> Result<Case, CaseError>
    requires issue { length issue.now ≤ FILE_LIMIT }
    requires rates { length rates.now ≤ FILE_LIMIT }
    requires prices { length prices.now ≤ FILE_LIMIT }
    ensures case { CaseAnswers result (rows_case (rows_of issue.now) (rows_of rates.now) (rows_of prices.now)) }
    ensures kept { IfOk result (λ case. IsKept (rows_of issue.now) (rows_of rates.now) (rows_of prices.now) (case_view case)) }
{
    let issue = issue_of_text(alloc, issue)?;
    let rates = rates_of_text(alloc, issue.settle, rates)?;
    let notes = notes_of_text(alloc, issue.settle, prices)?;
    let book = make_book(alloc, &issue, &rates, &notes)?;
    case_of_book(alloc, &issue, book)
}
