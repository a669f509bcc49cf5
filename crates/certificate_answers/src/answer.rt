//! Answers: their status and their text.

ghost use Rattle.std.specs.Prelude.{◌≡◌, IfOk, IsTrue, decimal};
ghost use Rattle.escrow_check.specs.declared.verdict.Reason.TheVariants.{Grammar};
ghost use Rattle.certificate_answers.specs.Answer.{fault_word as fault_word_of, file_word as file_word_of, kind_word as kind_word_of, none_text, portfolio_text as portfolio_text_of, reason_text, refused as refused_answer, refused_text, verdict_answer as verdict_answer_of, yes_text as yes_text_of};
ghost use Rattle.offer_book.specs.Portfolio.{IsPermitted, Meets};
ghost use Rattle.verification_report.specs.Summary.{text_line};
ghost use Rattle.row_fields.specs.RowForm.{refusal_of};
ghost use Rattle.case_file.specs.Case.{case_view};
ghost use Rattle.certificate_answers.specs.CaseOf.{AreWithin};
ghost use Rattle.certificate_answers.specs.Statuses.{is_checked};
ghost use Rattle.certificate_answers.specs.Reading.{IsKeptFor, KeepsRight, files_view};

use crate::files::InputFiles;
use crate::inquiry::Inquiry;
use crate::rolling::rolled_text;
use crate::savings::saved_text;
use crate::status::Status;
use bound_certificate::{CertFault, FaultKind};
use case_file::Case;
use escrow_check::{Portfolio, Reason, Verdict};
use escrow_desk::{FileKind, NoMemory, Refusal, RefusalKind};
use escrow_units::print_day;
use std::alloc::Global;
use std::marker::Model;
use verification_report::{Figures, push_line, push_summary};

/// A status, and the text that is said with it.
#[derive(Debug, Drop)]
pub struct Answer {
    status: Status,
    text: Vec<u8>,
}

impl Model for Answer {
    ghost use Rattle.certificate_answers.specs.Answer.{Answer as AnswerContents};

    ghost Value = { AnswerContents };

    ghost view = { λ a. record { status = a.status; text = a.text.items } };
}

impl Answer {
    /// A status, and this text that is said with it.
    pub fn new(status: Status, text: Vec<u8>) -> Answer
        ensures { result ≡ record { status = status; text = text.items } }
    {
        Answer { status, text }
    }

    /// The status.
    pub fn status(&self) -> Status
        ensures { result ≡ self.now.status }
    {
        self.status
    }

    /// The text that is said with it.
    pub fn text(&self) -> &[u8]
        ensures { result.now ≡ self.now.text }
    {
        self.text.as_slice()
    }
}

// A text of one line.
fn one_line(alloc: Global, words: &[u8], value: &[u8]) -> Result<Vec<u8>, NoMemory>
    ensures { IfOk result (λ text. text.items ≡ text_line words.now value.now) }
{
    let mut text = Vec::new(alloc);
    push_line(&mut text, words, value)?;
    Ok(text)
}

// What is wrong with a line of a certificate, in the texts.
fn fault_word(kind: FaultKind) -> &'static [u8]
    ensures { result.now ≡ fault_word_of kind }
{
    match kind {
        FaultKind::Header => b"Header",
        FaultKind::Number => b"Number",
        FaultKind::Order => b"Order",
        FaultKind::Count => b"Count",
        FaultKind::Truncated => b"Truncated",
        FaultKind::Trailing => b"Trailing",
    }
}

// The text of a line of a certificate that isn't one.
fn fault_line(alloc: Global, fault: CertFault) -> Result<Vec<u8>, NoMemory>
    ensures { IfOk result (λ text. text.items ≡ reason_text (Grammar fault)) }
{
    let mut text = Vec::new(alloc);
    text.extend_from_slice(b"no Grammar ")?;
    text.extend_from_slice(fault.line.to_string(alloc)?.as_bytes())?;
    push_line(&mut text, b" ", fault_word(fault.kind))?;
    Ok(text)
}

// The text of a reason with a number.
fn numbered_line(alloc: Global, words: &[u8], number: u32) -> Result<Vec<u8>, NoMemory>
    ensures { IfOk result (λ text. text.items ≡ text_line words.now (decimal number)) }
{
    one_line(alloc, words, number.to_string(alloc)?.as_bytes())
}

// The text of a reason.
fn reason_line(alloc: Global, reason: Reason) -> Result<Vec<u8>, NoMemory>
    ensures { IfOk result (λ text. text.items ≡ reason_text reason) }
{
    match reason {
        Reason::Grammar(fault) => fault_line(alloc, fault),
        Reason::NotPermitted(line) => numbered_line(alloc, b"no NotPermitted ", u32::from(line)),
        Reason::ShortOn(day) => one_line(alloc, b"no ShortOn ", print_day(day).as_bytes()),
        Reason::YieldAbove => one_line(alloc, b"no YieldAbove", b""),
        Reason::BadSplit(node) => numbered_line(alloc, b"no BadSplit ", node),
        Reason::WeakLeaf(node) => numbered_line(alloc, b"no WeakLeaf ", node),
        Reason::GapAbove => one_line(alloc, b"no GapAbove", b""),
    }
}

// The word of a file in the texts.
fn file_word(kind: FileKind) -> &'static [u8]
    ensures { result.now ≡ file_word_of kind }
{
    match kind {
        FileKind::Issue => b"issue",
        FileKind::Rates => b"rates",
        FileKind::Prices => b"prices",
        FileKind::Held => b"held",
        FileKind::Cert => b"cert",
    }
}

// The name of a refusal in the texts.
fn kind_word(kind: RefusalKind) -> &'static [u8]
    ensures { result.now ≡ kind_word_of kind }
{
    match kind {
        RefusalKind::TooLong => b"TooLong",
        RefusalKind::Missing => b"Missing",
        RefusalKind::UnknownRow => b"UnknownRow",
        RefusalKind::WrongFields => b"WrongFields",
        RefusalKind::BadNumber => b"BadNumber",
        RefusalKind::BadDate => b"BadDate",
        RefusalKind::OutOfRange => b"OutOfRange",
        RefusalKind::PriceRange => b"PriceRange",
        RefusalKind::Repeated => b"Repeated",
        RefusalKind::DateOrder => b"DateOrder",
        RefusalKind::Overlap => b"Overlap",
        RefusalKind::Matured => b"Matured",
        RefusalKind::NeedsTooLarge => b"NeedsTooLarge",
        RefusalKind::TooManyDates => b"TooManyDates",
        RefusalKind::NoRate => b"NoRate",
        RefusalKind::RateAboveTable => b"RateAboveTable",
        RefusalKind::TooShort => b"TooShort",
        RefusalKind::TooLongTerm => b"TooLongTerm",
        RefusalKind::FirstDate => b"FirstDate",
        RefusalKind::TooManyLines => b"TooManyLines",
        RefusalKind::ClosedPastEnd => b"ClosedPastEnd",
        RefusalKind::HeldTooLarge => b"HeldTooLarge",
    }
}

// The text of a refusal.
fn refusal_line(alloc: Global, refusal: &Refusal) -> Result<Vec<u8>, NoMemory>
    ensures { IfOk result (λ text. text.items ≡ refused_text refusal.now) }
{
    let mut text = Vec::new(alloc);
    text.extend_from_slice(b"refused ")?;
    text.extend_from_slice(file_word(refusal.file))?;
    text.extend_from_slice(b" row ")?;
    text.extend_from_slice(refusal.row.to_string(alloc)?.as_bytes())?;
    push_line(&mut text, b" ", kind_word(refusal.kind))?;
    Ok(text)
}

/// The answer that a file is refused.
///
/// # Errors
///
/// Where memory ran out.
pub fn refused(alloc: Global, refusal: &Refusal) -> Result<Answer, NoMemory>
    ensures answer { IfOk result (λ answer. answer ≡ refused_answer refusal.now) }
    ensures status { IfOk result (λ answer. answer.status ≡ Status.Refused) }
{
    Ok(Answer {
        status: Status::Refused,
        text: refusal_line(alloc, refusal)?,
    })
}

/// The answer that a file has more bytes than its limit.
///
/// # Errors
///
/// Where memory ran out.
pub fn too_long(alloc: Global, file: FileKind) -> Result<Answer, NoMemory>
    ensures answer { IfOk result (λ answer. answer ≡ refused_answer (refusal_of file 0 RefusalKind.TooLong)) }
    ensures status { IfOk result (λ answer. answer.status ≡ Status.Refused) }
{
    let refusal = Refusal {
        file,
        row: 0,
        kind: RefusalKind::TooLong,
    };
    refused(alloc, &refusal)
}

// `yes` and the summary of a portfolio.
fn yes_text(alloc: Global, case: &Case, portfolio: &Portfolio) -> Result<Vec<u8>, NoMemory>
    ensures { IfOk result (λ text. text.items ≡ yes_text_of (case_view case.now) portfolio.now) }
{
    let mut text = one_line(alloc, b"yes", b"")?;
    let figures = Figures {
        cost: portfolio.cost,
        answer: portfolio.answer,
        limit: case.limit,
        gap: portfolio.gap,
    };
    push_summary(&mut text, &figures)?;
    Ok(text)
}

// What is said of an accepted portfolio, by what is asked of the files.
fn portfolio_text(
    alloc: Global,
    inquiry: Inquiry,
    files: &InputFiles,
    case: &Case,
    portfolio: &Portfolio,
) -> Result<Vec<u8>, NoMemory>
    requires within { AreWithin (files_view files.now) }
    requires kept { IsKeptFor inquiry (files_view files.now) (case_view case.now) }
    requires permitted { IsPermitted case.now.book portfolio.now.plan }
    requires meets { Meets case.now.book portfolio.now.plan }
    ensures { IfOk result (λ text. text.items ≡ portfolio_text_of inquiry (files_view files.now) (case_view case.now) portfolio.now) }
{
    match inquiry {
        Inquiry::Check | Inquiry::AtCap(_) => yes_text(alloc, case, portfolio),
        Inquiry::Savings => saved_text(alloc, files, case, &portfolio.plan),
        Inquiry::Roll => rolled_text(alloc, files, case, &portfolio.plan),
    }
}

/// The answer to a verdict on a certificate, for the case by which it is judged, by what is asked of the input files.
pub(crate) fn verdict_answer(
    alloc: Global,
    inquiry: Inquiry,
    files: &InputFiles,
    case: &Case,
    verdict: &Verdict,
) -> Result<Answer, NoMemory>
    requires within { AreWithin (files_view files.now) }
    requires kept { IsKeptFor inquiry (files_view files.now) (case_view case.now) }
    requires right { KeepsRight (case_view case.now) verdict.now }
    ensures answer { IfOk result (λ answer. answer ≡ verdict_answer_of (portfolio_text_of inquiry (files_view files.now) (case_view case.now)) verdict.now) }
    ensures status { IfOk result (λ answer. IsTrue (is_checked answer.status)) }
{
    let (status, text) = match verdict {
        Verdict::Yes(portfolio) => (
            Status::Done,
            portfolio_text(alloc, inquiry, files, case, portfolio)?,
        ),
        Verdict::YesNone => (Status::Done, one_line(alloc, b"yes none", b"")?),
        Verdict::No(reason) => (Status::No, reason_line(alloc, *reason)?),
    };
    Ok(Answer { status, text })
}
