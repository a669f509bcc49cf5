//! `cap`, from the names of its files to what it is about to put out.

ghost use Rattle.std.specs.Prelude.{◌≡◌, ◌++◌, All, IfOk, IsErrOf, IsTrue, OnOk, option_map};
ghost use Rattle.branch_search.specs.Search.{IsFound};
ghost use Rattle.cap_finder.specs.Ends.{IsInTheWay, IsNoneFound};
ghost use Rattle.case_file.specs.Case.{HasTerms, case_view};
ghost use Rattle.offer_book.specs.Portfolio.{IsPermitted};
ghost use Rattle.rate_cap.specs.CaseAt.{slgs_rates};
ghost use Rattle.rate_table.specs.Table.{IsTableRate};
ghost use Rattle.certificate_answers.specs.Answer.{case_of};
ghost use Rattle.escrow_top.specs.Capped.{IsCappedDraft, IsCappedFor};
ghost use Rattle.certificate_answers.specs.CaseOf.{AreWithin};
ghost use Rattle.escrow_top.specs.Capping.{IsCapDraft, IsCapDraftFor, IsCapDraftOf, IsCapEnded, IsUncappedStatus, cap_text as cap_text_of, next_line, obstacle_answer as obstacle_answer_of, obstacle_line, uncapped as uncapped_of};
ghost use Rattle.certificate_answers.specs.Reading.{LacksInput, files_view, names_view};
ghost use Rattle.certificate_answers.specs.Stopping.{CountsStep, is_unfound};
ghost use Rattle.escrow_top.specs.Structure.{IsFoundText};

use crate::certificate_text::found_text;
use crate::draft::Texts;
use crate::unfound::{budget_spent, infeasible, none_within};
use branch_search::{Watcher, found_laws, settled_laws};
use cap_finder::{CapEnd, CappedEscrow, CaseAtZero, GreatestCap, Obstacle, Unfound, find_cap};
use case_file::Case;
use certificate_answers::{
    Answer, FileNames, InputFiles, Inputs, Status, Stop, given_case, read_inputs, refused, too_long,
};
use escrow_desk::{CaseError, Desk, NoMemory};
use escrow_units::{Cents, print_cents, print_day, print_rate};
use halving_tree::halving_laws;
use rate_cap::cap_laws;
use std::alloc::Global;
use verification_report::{push_line, summary};

/// What `cap` is about to put out. All its texts are built before anything is written.
#[derive(Drop)]
pub(crate) enum CapDraft {
    /// An escrow was found at a cap.
    Found(Texts),
    /// This is said, and no file is written.
    Said(Answer),
}

// Adds why no escrow was found at a cap.
fn push_obstacle(text: &mut Vec<u8>, obstacle: &Obstacle) -> Result<(), NoMemory>
    ensures { OnOk result (text.new.items ≡ text.old.items ++ obstacle_line obstacle.now) }
{
    match obstacle {
        Obstacle::Short(day) => push_line(text, b" infeasible ", print_day(*day).as_bytes()),
        Obstacle::NoneWithinYield(_) => push_line(text, b" none within yield", b""),
        Obstacle::BudgetSpent(spent) => {
            push_line(text, b" budget spent ", print_cents(spent.bound).as_bytes())
        }
    }
}

// Adds what is known of the next hundredth.
fn push_next(text: &mut Vec<u8>, next: Option<&Unfound>) -> Result<(), NoMemory>
    ensures { OnOk result (text.new.items ≡ text.old.items ++ next_line (option_map (λ unfound. unfound.now) next.entry)) }
{
    let Some(unfound) = next else {
        return push_line(text, b"next ", b"none");
    };
    text.extend_from_slice(b"next ")?;
    text.extend_from_slice(print_rate(unfound.cap).as_bytes())?;
    push_obstacle(text, &unfound.obstacle)
}

// What is said of the greatest cap.
fn cap_text(alloc: Global, greatest: &GreatestCap) -> Result<Vec<u8>, NoMemory>
    requires { IsPermitted greatest.now.escrow.case.book greatest.now.escrow.found.plan }
    ensures { IfOk result (λ text. text.items ≡ cap_text_of greatest.now) }
{
    let escrow = &greatest.escrow;
    let summary = summary(
        alloc,
        &escrow.case,
        &escrow.found.plan,
        Cents(escrow.found.gap),
    )?;
    let mut text = Vec::new(alloc);
    push_line(&mut text, b"cap ", print_rate(escrow.cap).as_bytes())?;
    text.extend_from_slice(summary.as_slice())?;
    push_next(&mut text, greatest.next.as_ref())?;
    Ok(text)
}

// The texts of an escrow at the greatest cap: its certificate, and what is said.
fn texts_of(alloc: Global, greatest: GreatestCap) -> Result<Texts, NoMemory>
    requires terms { HasTerms (case_view greatest.escrow.case) }
    requires found { IsFound (case_view greatest.escrow.case) greatest.escrow.found.plan greatest.escrow.found.tree greatest.escrow.found.gap }
    ensures cert { IfOk result (λ texts. IsFoundText (case_view greatest.escrow.case) greatest.escrow.found.plan greatest.escrow.found.tree greatest.escrow.found.gap texts.cert.items) }
    ensures said { IfOk result (λ texts. texts.said.items ≡ cap_text_of greatest) }
{
    // A book keeps its limits.
    prove!(greatest.escrow.case.book.line_count() > 0);
    let said = cap_text(alloc, &greatest)?;
    let CappedEscrow { case, found, .. } = greatest.escrow;
    let cert = found_text(alloc, &case, found)?;
    Ok(Texts { cert, said })
}

// Why no escrow was found for a case, as `structure` says it.
fn obstacle_answer(alloc: Global, case: &Case, obstacle: &Obstacle) -> Result<Answer, NoMemory>
    requires { IsInTheWay (case_view case.now) obstacle.now }
    ensures answer { IfOk result (λ answer. answer ≡ obstacle_answer_of (case_view case.now) obstacle.now) }
    ensures status { IfOk result (λ answer. IsUncappedStatus answer.status) }
{
    match obstacle {
        Obstacle::Short(day) => infeasible(alloc, *day),
        Obstacle::NoneWithinYield(nodes) => Ok(Answer::new(
            Status::NoneWithinYield,
            none_within(alloc, nodes)?,
        )),
        Obstacle::BudgetSpent(spent) => budget_spent(alloc, &case.book, spent),
    }
}

// The answer that no escrow was found, neither at the top nor at cap 0.
fn uncapped(alloc: Global, zero: &CaseAtZero) -> Result<Answer, NoMemory>
    requires { IsInTheWay (case_view zero.now.case) zero.now.obstacle }
    ensures answer { IfOk result (λ answer. answer ≡ uncapped_of zero.now) }
    ensures status { IfOk result (λ answer. IsUncappedStatus answer.status) }
{
    let own = obstacle_answer(alloc, &zero.case, &zero.obstacle)?;
    let mut text = Vec::new(alloc);
    push_line(&mut text, b"cap ", b"none")?;
    text.extend_from_slice(own.text())?;
    Ok(Answer::new(own.status(), text))
}

// What is put out for a case. It isn't inlined: the tables of the search would stand on the stack while rows are read.
#[inline(never)]
fn draft_of_case<W: Watcher>(
    alloc: Global,
    case: &Case,
    watcher: &mut W,
) -> Result<CapDraft, NoMemory>
    requires terms { HasTerms (case_view case.now) }
    requires rates { All IsTableRate (slgs_rates case.now.book.lines) }
    ensures draft { IfOk result (IsCapDraftOf (case_view case.now)) }
    ensures status { IfOk result IsCapEnded }
{
    // A book keeps its limits; how large the halving tree can be; how searches end; and that there is one case at each cap.
    prove!(case.book.line_count() > 0);
    halving_laws();
    found_laws();
    settled_laws();
    cap_laws();
    match find_cap(alloc, case, watcher)? {
        CapEnd::Found(greatest) => Ok(CapDraft::Found(texts_of(alloc, greatest)?)),
        CapEnd::NoneFound(zero) => Ok(CapDraft::Said(uncapped(alloc, &zero)?)),
    }
}

// What is put out for the input files that were read.
fn draft_of_files<W: Watcher>(
    alloc: Global,
    files: &InputFiles,
    watcher: &mut W,
) -> Result<CapDraft, NoMemory>
    requires { AreWithin (files_view files.now) }
    ensures draft { IfOk result (IsCapDraft (case_of (files_view files.now))) }
    ensures capped { IfOk result (IsCappedDraft (files_view files.now)) }
    ensures status { IfOk result IsCapEnded }
{
    // The rates of files are those of the table; and what is found is accepted.
    cap_laws();
    found_laws();
    match given_case(alloc, files) {
        Ok(case) => draft_of_case(alloc, &case, watcher),
        Err(CaseError::Refused(refusal)) => Ok(CapDraft::Said(refused(alloc, &refusal)?)),
        Err(CaseError::NoMemory) => Err(NoMemory),
    }
}

/// What `cap` is about to put out for the input files of these names, which are read in their order. No content changes.
pub(crate) fn cap<D: Desk, W: Watcher>(
    alloc: Global,
    desk: &mut D,
    names: &FileNames<'_>,
    watcher: &mut W,
) -> Result<CapDraft, Stop>
    ensures draft { IfOk result (IsCapDraftFor (D.told desk.old) (names_view names.now)) }
    ensures capped { IfOk result (IsCappedFor (D.told desk.old) (names_view names.now)) }
    ensures status { IfOk result IsCapEnded }
    ensures absent { IsErrOf result Stop.NoFile → LacksInput (D.told desk.old) (names_view names.now) }
    ensures told { D.told desk.new ≡ D.told desk.old }
    ensures counts { CountsStep result (D.counts desk.old) (D.counts desk.new) }
{
    match read_inputs(alloc, desk, names)? {
        Inputs::Within(files) => Ok(draft_of_files(alloc, &files, watcher)?),
        Inputs::TooLong(kind) => Ok(CapDraft::Said(too_long(alloc, kind)?)),
    }
}
