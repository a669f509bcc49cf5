//! What is said of the savings of a portfolio.

ghost use Rattle.std.specs.Prelude.{◌≡◌, ◌∷◌, ◌++◌, ◌≤◌, IfOk, IsOk, Ok, OnOk, codes, length};
ghost use Rattle.escrow_desk.specs.Rows.{rows_of};
ghost use Rattle.issue_schedule.specs.IssueForm.{issue_of};
ghost use Rattle.issue_schedule.specs.IssueTerms.{IsIssue};
ghost use Rattle.case_file.specs.Case.{IsKept, case_view};
ghost use Rattle.offer_book.specs.Portfolio.{IsPermitted};
ghost use Rattle.verification_report.specs.Summary.{text_line};
ghost use Rattle.certificate_answers.specs.Reading.{files_view};
ghost use Rattle.certificate_answers.specs.SavingsText.{range_words, saved_text as saved_text_of, savings_text as savings_text_of, signed_words, words_or_none};

use crate::files::InputFiles;
use case_file::Case;
use cash_table::Plan;
use escrow_desk::{CaseError, FILE_LIMIT, NoMemory, read_rows};
use escrow_units::{Cents, print_cents};
use issue_schedule::{Issue, read_issue};
use savings_table::{PvRange, Savings, SignedRange, one_set, print_signed, savings_of};
use std::alloc::Global;
use verification_report::push_line;

// Adds a line of words and two amounts.
fn push_pair(text: &mut Vec<u8>, words: &[u8], lo: &[u8], hi: &[u8]) -> Result<(), NoMemory>
    ensures { OnOk result (text.new.items ≡ text.old.items ++ text_line words.now (lo.now ++ 32 ∷ hi.now)) }
{
    text.extend_from_slice(words)?;
    text.extend_from_slice(lo)?;
    push_line(text, b" ", hi)
}

// Adds a line of words and of the two amounts between which a present value lies.
fn push_range(text: &mut Vec<u8>, words: &[u8], range: &PvRange) -> Result<(), NoMemory>
    ensures { OnOk result (text.new.items ≡ text.old.items ++ text_line words.now (range_words range.now)) }
{
    push_pair(
        text,
        words,
        print_cents(Cents(range.lo)).as_bytes(),
        print_cents(Cents(range.hi)).as_bytes(),
    )
}

// Adds a line of words and of the two amounts between which a difference lies.
fn push_signed(text: &mut Vec<u8>, words: &[u8], range: &SignedRange) -> Result<(), NoMemory>
    ensures { OnOk result (text.new.items ≡ text.old.items ++ text_line words.now (signed_words range.now)) }
{
    push_pair(
        text,
        words,
        print_signed(range.lo).as_bytes(),
        print_signed(range.hi).as_bytes(),
    )
}

// Adds the line of the new service.
fn push_new(text: &mut Vec<u8>, range: &Option<PvRange>) -> Result<(), NoMemory>
    ensures { OnOk result (text.new.items ≡ text.old.items ++ text_line (codes "new ") (words_or_none range_words range.now)) }
{
    match range {
        Some(range) => push_range(text, b"new ", range),
        None => push_line(text, b"new ", b"none"),
    }
}

// Adds the line of what is saved.
fn push_saved(text: &mut Vec<u8>, range: &Option<SignedRange>) -> Result<(), NoMemory>
    ensures { OnOk result (text.new.items ≡ text.old.items ++ text_line (codes "saved ") (words_or_none signed_words range.now)) }
{
    match range {
        Some(range) => push_signed(text, b"saved ", range),
        None => push_line(text, b"saved ", b"none"),
    }
}

// The four lines of savings.
fn savings_text(alloc: Global, savings: &Savings) -> Result<Vec<u8>, NoMemory>
    ensures { IfOk result (λ text. text.items ≡ savings_text_of savings.now) }
{
    let mut text = Vec::new(alloc);
    push_range(&mut text, b"old ", &savings.old_value)?;
    push_new(&mut text, &savings.new_value)?;
    push_saved(&mut text, &savings.saved)?;
    push_signed(&mut text, b"idle ", &savings.idle)?;
    Ok(text)
}

// The issue of an issue file that was read before, and wasn't refused.
fn issue_again(alloc: Global, text: &[u8]) -> Result<Issue, NoMemory>
    requires within { length text.now ≤ FILE_LIMIT }
    requires read { IsOk (issue_of (rows_of text.now)) }
    ensures issue { IfOk result (λ issue. issue_of (rows_of text.now) ≡ Ok issue) }
    ensures kept { IfOk result IsIssue }
{
    let rows = read_rows(alloc, text)?;
    match read_issue(alloc, &rows) {
        Ok(issue) => Ok(issue),
        Err(CaseError::NoMemory) => Err(NoMemory),
        Err(CaseError::Refused(_)) => unreachable!(),
    }
}

/// What is said of the savings of a permitted portfolio of the case of input files. Their issue is read once more, since the case
/// keeps neither its bonds nor its payments. It isn't inlined: its tables would stand on the stack while the certificate is read.
#[inline(never)]
pub(crate) fn saved_text(
    alloc: Global,
    files: &InputFiles,
    case: &Case,
    plan: &Plan,
) -> Result<Vec<u8>, NoMemory>
    requires within { length (files_view files.now).issue ≤ FILE_LIMIT }
    requires kept { IsKept (rows_of (files_view files.now).issue) (rows_of (files_view files.now).rates) (rows_of (files_view files.now).prices) (case_view case.now) }
    requires permitted { IsPermitted case.now.book plan.now }
    ensures { IfOk result (λ text. text.items ≡ saved_text_of (issue_of (rows_of (files_view files.now).issue)) (case_view case.now) plan.now) }
{
    one_set();
    let issue = issue_again(alloc, files.issue.as_slice())?;
    let savings = savings_of(alloc, &issue, case, plan)?;
    savings_text(alloc, &savings)
}
