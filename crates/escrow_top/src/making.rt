//! `make`, from a number to what it is about to put out.

ghost use Rattle.std.specs.Prelude.{◌≡◌, IfOk, IsTrue, Ok};
ghost use Rattle.branch_search.specs.Plain.{IsPlainWithin};
ghost use Rattle.branch_search.specs.Search.{EndsOf};
ghost use Rattle.branch_search.specs.declared.found.SearchEnd.TheVariants.{NoMemory as OutOfMemory};
ghost use Rattle.case_file.specs.Case.{HasTerms, case_view};
ghost use Rattle.offer_book.specs.Book.{IsBook};
ghost use Rattle.offer_book.specs.Portfolio.{IsPermitted};
ghost use Rattle.certificate_answers.specs.Answer.{case_of};
ghost use Rattle.escrow_top.specs.Making.{HasAcceptedText, IsAnswerToNumber, IsMadeAnswer, made_answer, made_files, made_text as made_text_of, none_answer as none_answer_of};
ghost use Rattle.certificate_answers.specs.CaseOf.{AreWithin};
ghost use Rattle.certificate_answers.specs.Reading.{files_view};
ghost use Rattle.escrow_top.specs.Settling.{SettlesPlain};
ghost use Rattle.certificate_answers.specs.Stopping.{is_structured};

use crate::unfound::{budget_spent, infeasible, none_within, push_nodes};
use branch_search::{Found, SearchEnd, Watcher, search};
use case_file::Case;
use case_maker::make;
use certificate_answers::{Answer, InputFiles, Status, given_case, refused};
use escrow_desk::{CaseError, NoMemory};
use escrow_units::Cents;
use halving_tree::halving_laws;
use itoa::Buffer;
use proof_tree::Nodes;
use std::alloc::Global;
use verification_report::{push_line, summary};

/// The names of the three files of a made-up case.
#[derive(Clone, Copy)]
pub(crate) struct MadeNames<'a> {
    pub issue: &'a str,
    pub rates: &'a str,
    pub prices: &'a str,
}

/// What is to be made.
#[derive(Clone, Copy)]
pub(crate) struct Making<'a> {
    /// The number of the case.
    pub number: u64,
    /// The names of its files.
    pub names: MadeNames<'a>,
}

/// What `make` is about to put out. All its texts are built before anything is written.
#[derive(Drop)]
pub(crate) struct MadeDraft {
    /// The files of the case.
    pub files: InputFiles,
    /// The answer to it, which is said after they are written.
    pub answer: Answer,
}

// What is said of a portfolio that was found for the case of a number.
fn made_text(alloc: Global, number: u64, case: &Case, found: &Found) -> Result<Vec<u8>, NoMemory>
    requires { IsPermitted case.now.book found.now.plan }
    ensures { IfOk result (λ text. text.items ≡ made_text_of number (case_view case.now) found.now.plan found.now.gap found.now.tree) }
{
    let summary = summary(alloc, case, &found.plan, Cents(found.gap))?;
    let mut text = Vec::new(alloc);
    let mut digits = Buffer::new();
    push_line(&mut text, b"number ", digits.format(number).as_bytes())?;
    text.extend_from_slice(summary.as_slice())?;
    push_nodes(alloc, &mut text, &found.tree)?;
    Ok(text)
}

// The answer that a portfolio was found for the case of a number.
fn found_answer(alloc: Global, number: u64, case: &Case, found: &Found) -> Result<Answer, NoMemory>
    requires { IsPermitted case.now.book found.now.plan }
    ensures { IfOk result (λ answer. answer ≡ made_answer number (case_view case.now) found.now.plan found.now.gap found.now.tree) }
{
    Ok(Answer::new(Status::Done, made_text(alloc, number, case, found)?))
}

// The answer that there is no rival.
fn none_answer(alloc: Global, nodes: &Nodes) -> Result<Answer, NoMemory>
    ensures { IfOk result (λ answer. answer ≡ none_answer_of nodes.now) }
{
    Ok(Answer::new(Status::NoneWithinYield, none_within(alloc, nodes)?))
}

// The answer where a search found no portfolio.
fn answer_of_end(
    alloc: Global,
    number: u64,
    case: &Case,
    ended: &SearchEnd,
) -> Result<Answer, NoMemory>
    requires book { IsBook case.now.book }
    requires terms { HasTerms (case_view case.now) }
    requires ended { EndsOf (case_view case.now) ended.now }
    ensures answer { IfOk result (IsMadeAnswer number (Ok (case_view case.now))) }
    ensures status { IfOk result (λ answer. IsTrue (is_structured answer.status)) }
    ensures memory { ended.now ≡ OutOfMemory → IfOk result (λ answer. answer.status ≡ Status.Done) }
{
    // How large the halving tree can be.
    halving_laws();
    match ended {
        SearchEnd::Short(day) => infeasible(alloc, *day),
        SearchEnd::NoneWithinYield(nodes) => none_answer(alloc, nodes),
        SearchEnd::BudgetSpent(spent) => budget_spent(alloc, &case.book, spent),
        SearchEnd::NoMemory => Err(NoMemory),
    }
}

// The answer to the case of a number. It isn't inlined: the tables of the search would stand on the stack while rows are read.
#[inline(never)]
fn answer_of_case<W: Watcher>(
    alloc: Global,
    number: u64,
    case: &Case,
    watcher: &mut W,
) -> Result<Answer, NoMemory>
    requires book { IsBook case.now.book }
    requires terms { HasTerms (case_view case.now) }
    ensures answer { IfOk result (IsMadeAnswer number (Ok (case_view case.now))) }
    ensures status { IfOk result (λ answer. IsTrue (is_structured answer.status)) }
    ensures plain { IsPlainWithin (case_view case.now) → IfOk result (λ answer. answer.status ≡ Status.Done) }
{
    match search(
        alloc,
        &case.book,
        case.limit,
        case.allowance,
        case.budget,
        watcher,
    ) {
        Ok(found) => found_answer(alloc, number, case, &found),
        Err(ended) => answer_of_end(alloc, number, case, &ended),
    }
}

// The answer to the files of the case of a number.
fn answer_of_files<W: Watcher>(
    alloc: Global,
    number: u64,
    files: &InputFiles,
    watcher: &mut W,
) -> Result<Answer, NoMemory>
    requires { AreWithin (files_view files.now) }
    ensures answer { IfOk result (IsMadeAnswer number (case_of (files_view files.now))) }
    ensures status { IfOk result (λ answer. IsTrue (is_structured answer.status)) }
    ensures accepted { IfOk result (λ answer. answer.status ≡ Status.Done → HasAcceptedText (files_view files.now)) }
    ensures accepted_none { IfOk result (λ answer. answer.status ≡ Status.NoneWithinYield → HasAcceptedText (files_view files.now)) }
    ensures plain { IfOk result (λ answer. IfOk (case_of (files_view files.now)) (SettlesPlain answer.status)) }
{
    match given_case(alloc, files) {
        Ok(case) => answer_of_case(alloc, number, &case, watcher),
        Err(CaseError::Refused(refusal)) => refused(alloc, &refusal),
        Err(CaseError::NoMemory) => Err(NoMemory),
    }
}

/// What `make` is about to put out for a number: the files of its case, and the answer to them.
pub(crate) fn made<W: Watcher>(
    alloc: Global,
    number: u64,
    watcher: &mut W,
) -> Result<MadeDraft, NoMemory>
    ensures files { IfOk result (λ draft. files_view draft.files ≡ made_files number) }
    ensures answer { IfOk result (λ draft. IsAnswerToNumber number draft.answer) }
    ensures status { IfOk result (λ draft. IsTrue (is_structured draft.answer.status)) }
    ensures accepted { IfOk result (λ draft. draft.answer.status ≡ Status.Done → HasAcceptedText (made_files number)) }
    ensures accepted_none { IfOk result (λ draft. draft.answer.status ≡ Status.NoneWithinYield → HasAcceptedText (made_files number)) }
    ensures plain { IfOk result (λ draft. IfOk (case_of (made_files number)) (SettlesPlain draft.answer.status)) }
{
    let made = make(alloc, number)?;
    let files = InputFiles {
        issue: made.issue,
        rates: made.rates,
        prices: made.prices,
        held: None,
    };
    let answer = answer_of_files(alloc, number, &files, watcher)?;
    Ok(MadeDraft { files, answer })
}
