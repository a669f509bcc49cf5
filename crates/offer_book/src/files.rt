//! The book of three files.

ghost use Rattle.std.specs.Prelude.{◌≡◌, ◌∷◌, ◌++◌, ◌≤◌, IfOk, All, length};
ghost use Rattle.escrow_units.specs.declared.limits.TheConstants.{MOST_LINES as MOST_LINES_OF};
ghost use Rattle.issue_schedule.specs.IssueTerms.{IsIssue};
ghost use Rattle.rate_table.specs.Table.{IsRateFile};
ghost use Rattle.market_notes.specs.NoteTerms.{IsNoteFile};
ghost use Rattle.row_fields.specs.RowForm.{Answers};
ghost use Rattle.offer_book.specs.Book.{IsBook, IsSecurityLine};
ghost use Rattle.offer_book.specs.CaseBook.{BooksAreOfTheirFiles, BooksAreRefusedInOrder, IsBookOf, book_of, book_of_files, cash_line, issue_days, within_most_lines};

use crate::book::Book;
use crate::line::{Line, LineKind};
use crate::market::note_lines;
use crate::offers::slgs_lines;
use crate::payment_days::PaymentDays;
use escrow_desk::{CaseError, FileKind, NoMemory, Refusal, RefusalKind};
use escrow_units::{Cents, ClosedDays, MOST_LINES};
use issue_schedule::{Issue, needs};
use market_notes::NoteFile;
use rate_table::RateFile;
use std::alloc::Global;

// That at most 512 lines are on offer.
fn require_few_lines(count: usize) -> Result<(), CaseError>
    ensures { Answers result (within_most_lines count) }
{
    if count > MOST_LINES {
        return Err(CaseError::Refused(Refusal {
            file: FileKind::Prices,
            row: 0,
            kind: RefusalKind::TooManyLines,
        }));
    }
    Ok(())
}

// The lines of a book: opening cash, of which every amount up to the most is permitted, the offers and the notes.
fn lines_with_cash(
    alloc: Global,
    most: Cents,
    offers: &[Line],
    market: &[Line],
) -> Result<Vec<Line>, NoMemory>
    ensures { IfOk result (λ lines. lines.items ≡ cash_line most.0 ∷ (offers.now ++ market.now)) }
{
    let mut lines = Vec::new(alloc);
    lines.push(Line {
        kind: LineKind::Cash,
        step: 1,
        least: 1,
        most: most.0,
    })?;
    lines.extend_from_slice(offers)?;
    lines.extend_from_slice(market)?;
    Ok(lines)
}

// The settlement day and the closed days of an issue.
fn payment_days(alloc: Global, issue: &Issue) -> Result<PaymentDays, NoMemory>
    ensures { IfOk result (λ days. days ≡ issue_days issue.now) }
{
    let days = Vec::from_slice(alloc, issue.closed.days())?;
    Ok(PaymentDays {
        settle: issue.settle,
        closed: ClosedDays::new(alloc, issue.closed.weekends(), days)?,
    })
}

// The book of an issue, its payment days and at most 512 lines on offer.
fn book_of_issue(
    alloc: Global,
    issue: &Issue,
    days: PaymentDays,
    offers: &[Line],
    market: &[Line],
) -> Result<Book, NoMemory>
    requires issue { IsIssue issue.now }
    requires days { days ≡ issue_days issue.now }
    requires lines { All (IsSecurityLine (issue_days issue.now)) (offers.now ++ market.now) }
    requires few { length (offers.now ++ market.now) ≤ MOST_LINES }
    ensures book { IfOk result (λ book. book ≡ book_of issue.now (offers.now ++ market.now)) }
    ensures limits { IfOk result IsBook }
{
    let lines = lines_with_cash(alloc, issue.cash, offers, market)?;
    let needs = needs(alloc, issue)?;
    Ok(Book::make(days.settle, needs, lines, days.closed))
}

/// The book of an issue, a rate file and a price file, each of which was read for the same settlement day.
///
/// Its lines are opening cash, the offers in the order of their rows, and the notes in the order of theirs. Its closed days are
/// those of the issue.
///
/// # Errors
///
/// `Refused` for the first faulty offer, as `slgs_lines` says; else with file `Prices`, its row and `ClosedPastEnd` for the
/// first note whose maturity opens more than 40 years after settlement; else with file `Prices`, row 0 and `TooManyLines`
/// where there are more than 512 offers and notes. `NoMemory` where memory ran out.
#[tactic(auto, unfolding(crate::specs::CaseBook::book_of_files))]
pub fn make_book(
    alloc: Global,
    issue: &Issue,
    rates: &RateFile,
    notes: &NoteFile,
) -> Result<Book, CaseError>
    requires issue { IsIssue issue.now }
    requires rates { IsRateFile rates.now }
    requires notes { IsNoteFile issue.now.settle notes.now }
    ensures book { Answers result (book_of_files issue.now rates.now notes.now) }
    ensures rows { IfOk result (IsBookOf issue.now rates.now notes.now) }
    ensures limits { IfOk result IsBook }
{
    let days = payment_days(alloc, issue)?;
    let offers = slgs_lines(alloc, &days, rates)?;
    let market = note_lines(alloc, &days, notes)?;
    require_few_lines(rates.offers.as_slice().len() + notes.notes.as_slice().len())?;
    Ok(book_of_issue(alloc, issue, days, offers.as_slice(), market.as_slice())?)
}

/// What the book of three files is: its lines are opening cash and those of the files' rows, in order, and it keeps every
/// limit; and that files are refused for their first faulty offer, or else for their first note that opens too late, or else
/// for more than 512 lines.
pub fn book_laws()
    ensures books { BooksAreOfTheirFiles }
    ensures refusals { BooksAreRefusedInOrder }
{}
