//! `structure` and `structure-held`, from the names of its files to what it is about to put out.

ghost use Rattle.std.specs.Prelude.{◌≡◌, IfOk, IsErrOf};
ghost use Rattle.case_file.specs.Case.{HasTerms, case_view};
ghost use Rattle.branch_search.specs.Plain.{IsPlainWithin};
ghost use Rattle.branch_search.specs.Search.{EndsOf, IsFound, IsFoundBy, IsNoneFound};
ghost use Rattle.branch_search.specs.declared.found.SearchEnd.TheVariants.{NoMemory as OutOfMemory};
ghost use Rattle.offer_book.specs.Book.{IsBook};
ghost use Rattle.certificate_answers.specs.Answer.{searched_of};
ghost use Rattle.certificate_answers.specs.CaseOf.{AreWithin};
ghost use Rattle.certificate_answers.specs.Reading.{LacksInput, files_view, names_view};
ghost use Rattle.escrow_top.specs.Structure.{AreNoneTexts, AreTexts, FindsPlain, FindsPlainFor, IsAcceptedDraft, IsAcceptedFor, IsDraft, IsDraftFor, IsDraftOf, IsFoundDraft, IsStructuredDraft, told_text as told_text_of, telling_for as telling_of};
ghost use Rattle.certificate_answers.specs.Stopping.{CountsStep};

use crate::certificate_text::{certificate_text, found_text};
use crate::draft::{Draft, Telling, Texts};
use crate::unfound::{budget_spent, infeasible, none_within};
use bound_certificate::Certificate;
use branch_search::{Found, SearchEnd, Watcher, search};
use case_file::Case;
use certificate_answers::{
    FileNames, InputFiles, Inputs, Inquiry, Stop, judged_case, read_inputs, refused, too_long,
};
use escrow_desk::{CaseError, Desk, NoMemory};
use escrow_units::Cents;
use halving_tree::halving_laws;
use proof_tree::Nodes;
use std::alloc::Global;
use verification_report::{report, summary};

// What is said of a portfolio that is found: beside holdings its summary, and else its report.
fn telling_for(files: &InputFiles) -> Telling
    ensures { result ≡ telling_of (files_view files.now).held }
{
    match &files.held {
        None => Telling::Report,
        Some(_) => Telling::Summary,
    }
}

// What is said of a portfolio that was found for a case.
fn told_text(alloc: Global, tells: Telling, case: &Case, found: &Found) -> Result<Vec<u8>, NoMemory>
    requires book { IsBook case.now.book }
    requires terms { HasTerms (case_view case.now) }
    requires found { IsFound (case_view case.now) found.now.plan found.now.tree found.now.gap }
    ensures { IfOk result (λ text. text.items ≡ told_text_of tells (case_view case.now) found.now.plan found.now.gap) }
{
    match tells {
        Telling::Report => report(alloc, case, &found.plan, Cents(found.gap)),
        Telling::Summary => summary(alloc, case, &found.plan, Cents(found.gap)),
    }
}

// The texts of a portfolio that was found for a case: its certificate, and what is said of it.
fn texts_of(alloc: Global, tells: Telling, case: &Case, found: Found) -> Result<Texts, NoMemory>
    requires book { IsBook case.now.book }
    requires terms { HasTerms (case_view case.now) }
    requires found { IsFound (case_view case.now) found.plan found.tree found.gap }
    requires found_by { IsFoundBy (case_view case.now) found.plan found.tree }
    ensures { IfOk result (λ texts. AreTexts tells (case_view case.now) texts.cert.items texts.said.items) }
{
    let said = told_text(alloc, tells, case, &found)?;
    let cert = found_text(alloc, case, found)?;
    Ok(Texts { cert, said })
}

// The texts of a tree which shows that there is no rival: its certificate, and how many nodes it has.
fn none_texts(alloc: Global, case: &Case, nodes: Nodes) -> Result<Texts, NoMemory>
    requires book { IsBook case.now.book }
    requires terms { HasTerms (case_view case.now) }
    requires none { IsNoneFound (case_view case.now) nodes }
    ensures { IfOk result (λ texts. AreNoneTexts (case_view case.now) texts.cert.items texts.said.items) }
{
    let said = none_within(alloc, &nodes)?;
    let certificate = Certificate {
        buys: None,
        gap: 0,
        nodes,
    };
    let cert = certificate_text(alloc, &certificate)?;
    Ok(Texts { cert, said })
}

// What is put out where a search found no portfolio.
fn draft_of_end(
    alloc: Global,
    tells: Telling,
    case: &Case,
    ended: SearchEnd,
) -> Result<Draft, NoMemory>
    requires book { IsBook case.now.book }
    requires terms { HasTerms (case_view case.now) }
    requires ended { EndsOf (case_view case.now) ended }
    ensures draft { IfOk result (IsDraftOf tells (case_view case.now)) }
    ensures status { IfOk result IsStructuredDraft }
    ensures memory { ended ≡ OutOfMemory → IfOk result IsFoundDraft }
{
    // How large the halving tree can be.
    halving_laws();
    match ended {
        SearchEnd::Short(day) => Ok(Draft::Said(infeasible(alloc, day)?)),
        SearchEnd::NoneWithinYield(nodes) => {
            Ok(Draft::NoneWithinYield(none_texts(alloc, case, nodes)?))
        }
        SearchEnd::BudgetSpent(spent) => Ok(Draft::Said(budget_spent(alloc, &case.book, &spent)?)),
        SearchEnd::NoMemory => Err(NoMemory),
    }
}

// What is put out for a case. It isn't inlined: the tables of the search would stand on the stack while rows are read.
#[inline(never)]
fn draft_of_case<W: Watcher>(
    alloc: Global,
    tells: Telling,
    case: &Case,
    watcher: &mut W,
) -> Result<Draft, NoMemory>
    requires book { IsBook case.now.book }
    requires terms { HasTerms (case_view case.now) }
    ensures draft { IfOk result (IsDraftOf tells (case_view case.now)) }
    ensures plain { IsPlainWithin (case_view case.now) → IfOk result IsFoundDraft }
    ensures status { IfOk result IsStructuredDraft }
{
    match search(
        alloc,
        &case.book,
        case.limit,
        case.allowance,
        case.budget,
        watcher,
    ) {
        Ok(found) => Ok(Draft::Found(texts_of(alloc, tells, case, found)?)),
        Err(ended) => draft_of_end(alloc, tells, case, ended),
    }
}

// What is put out for the input files that were read.
fn draft_of_files<W: Watcher>(
    alloc: Global,
    files: &InputFiles,
    watcher: &mut W,
) -> Result<Draft, NoMemory>
    requires { AreWithin (files_view files.now) }
    ensures draft { IfOk result (IsDraft (telling_of (files_view files.now).held) (searched_of (files_view files.now))) }
    ensures accepted { IfOk result (IsAcceptedDraft (files_view files.now)) }
    ensures plain { IfOk result (FindsPlain (searched_of (files_view files.now))) }
    ensures status { IfOk result IsStructuredDraft }
{
    // The case by which `check` judges: beside the holdings, where they are given.
    match judged_case(alloc, Inquiry::Check, files) {
        Ok(case) => draft_of_case(alloc, telling_for(files), &case, watcher),
        Err(CaseError::Refused(refusal)) => Ok(Draft::Said(refused(alloc, &refusal)?)),
        Err(CaseError::NoMemory) => Err(NoMemory),
    }
}

/// What `structure`, or beside holdings `structure-held`, is about to put out for the input files of these names, which are read in their order. No content changes.
pub(crate) fn structure<D: Desk, W: Watcher>(
    alloc: Global,
    desk: &mut D,
    names: &FileNames<'_>,
    watcher: &mut W,
) -> Result<Draft, Stop>
    ensures draft { IfOk result (IsDraftFor (D.told desk.old) (names_view names.now)) }
    ensures accepted { IfOk result (IsAcceptedFor (D.told desk.old) (names_view names.now)) }
    ensures plain { IfOk result (FindsPlainFor (D.told desk.old) (names_view names.now)) }
    ensures status { IfOk result IsStructuredDraft }
    ensures absent { IsErrOf result Stop.NoFile → LacksInput (D.told desk.old) (names_view names.now) }
    ensures told { D.told desk.new ≡ D.told desk.old }
    ensures counts { CountsStep result (D.counts desk.old) (D.counts desk.new) }
{
    match read_inputs(alloc, desk, names)? {
        Inputs::Within(files) => Ok(draft_of_files(alloc, &files, watcher)?),
        Inputs::TooLong(kind) => Ok(Draft::Said(too_long(alloc, kind)?)),
    }
}
