//! The one call, from words to a status.

ghost use Rattle.std.specs.Prelude.{◌≡◌, ◌≢◌, ◌↔◌, codes, map, string_bytes, IfSome, IsTrue};
ghost use Rattle.escrow_desk.specs.Counts.{AllSteady};
ghost use Rattle.certificate_answers.specs.Accepted.{Accepted, IsAcceptedText};
ghost use Rattle.certificate_answers.specs.Meaning.{OfNamedFiles};
ghost use Rattle.certificate_answers.specs.NotAccepted.{NotAccepted};
ghost use Rattle.certificate_answers.specs.Reading.{LacksAsked, LacksInput, asking_view, files_view, names_view};
ghost use Rattle.certificate_answers.specs.Stopping.{EndedAs, is_reached, is_structured};
ghost use Rattle.escrow_top.specs.Capping.{IsCapEnded, IsCapOutcome, cap_draft_outcome};
ghost use Rattle.escrow_top.specs.Command.{command_of_words, command_view};
ghost use Rattle.escrow_top.specs.Effects.{FailedIn, IsDone, Reaches, ReachesPart, effect_view, saying, writing};
ghost use Rattle.escrow_top.specs.Ending.{AnswersBytes, IsAnswerTo, IsAskedOutcome, IsOutcome, LacksFile, OfNames, ReadsNoFile, SaidOfFiles, usage_answer};
ghost use Rattle.escrow_top.specs.Making.{IsMadeOutcome, made_names_view, made_outcome, making_view};
ghost use Rattle.escrow_top.specs.Means.{AskedMeans, CapMeans, IsFoundStatus, MakeMeans, Means, StructureMeans};
ghost use Rattle.escrow_top.specs.Structure.{IsStructureOutcome, IsStructuredDraft, WroteAccepted, draft_outcome};

use crate::capping::{CapDraft, cap};
use crate::command::{Command, command_of};
use crate::draft::{Draft, Texts};
use crate::effects::{Effect, carry_all};
use crate::making::{MadeDraft, MadeNames, Making, made};
use crate::structure::structure;
use branch_search::{Unwatched, Watcher};
use certificate_answers::{Answer, Asking, FileNames, Status, check};
use escrow_desk::Desk;
use std::alloc::Global;

// The words of each command; those that came later stand at the end.
const USAGE: &[u8] =
    b"usage: structure ISSUE RATES PRICES CERT | check ISSUE RATES PRICES CERT | make NUMBER ISSUE RATES PRICES \
    | cap ISSUE RATES PRICES CERT | check-cap RATE ISSUE RATES PRICES CERT | roll ISSUE RATES PRICES CERT \
    | structure-held ISSUE RATES PRICES HELD CERT | check-held ISSUE RATES PRICES HELD CERT \
    | savings ISSUE RATES PRICES CERT\n";

// Does all that is to be done, and answers the status that was reached; `WriteFault` where a call of the desk failed.
fn finish<D: Desk>(desk: &mut D, status: Status, effects: &[Effect<'_>]) -> Status
    requires { IsTrue (is_reached status) }
    ensures whole { IsTrue (is_reached result) → IsDone (D.told desk.old) (record { status = status; effects = map effect_view effects.now }) result (D.told desk.new) }
    ensures part { result ≡ Status.WriteFault → FailedIn (D.told desk.old) (map effect_view effects.now) (D.told desk.new) }
    ensures no_other { (result ≡ Status.ReadFault → ⊥) × (result ≡ Status.NoFile → ⊥) × (result ≡ Status.NoMemory → ⊥) }
    ensures counts { EndedAs result (D.counts desk.old) (D.counts desk.new) (D.told desk.old) (D.told desk.new) }
{
    match carry_all(desk, effects) {
        Ok(()) => status,
        Err(_) => Status::WriteFault,
    }
}

// Says an answer.
fn say_answer<D: Desk>(desk: &mut D, answer: &Answer) -> Status
    requires { IsTrue (is_reached answer.now.status) }
    ensures whole { IsTrue (is_reached result) → IsDone (D.told desk.old) (saying answer.now) result (D.told desk.new) }
    ensures part { result ≡ Status.WriteFault → FailedIn (D.told desk.old) (saying answer.now).effects (D.told desk.new) }
    ensures no_other { (result ≡ Status.ReadFault → ⊥) × (result ≡ Status.NoFile → ⊥) × (result ≡ Status.NoMemory → ⊥) }
    ensures counts { EndedAs result (D.counts desk.old) (D.counts desk.new) (D.told desk.old) (D.told desk.new) }
{
    finish(desk, answer.status(), &[Effect::Say(answer.text())])
}

// Says how the program is used.
fn say_usage<D: Desk>(desk: &mut D) -> Status
    ensures whole { IsTrue (is_reached result) → IsDone (D.told desk.old) (saying usage_answer) result (D.told desk.new) }
    ensures part { result ≡ Status.WriteFault → FailedIn (D.told desk.old) (saying usage_answer).effects (D.told desk.new) }
    ensures no_other { (result ≡ Status.ReadFault → ⊥) × (result ≡ Status.NoFile → ⊥) × (result ≡ Status.NoMemory → ⊥) }
    ensures counts { EndedAs result (D.counts desk.old) (D.counts desk.new) (D.told desk.old) (D.told desk.new) }
{
    finish(desk, Status::Usage, &[Effect::Say(USAGE)])
}

// Answers what is asked of the files of these names.
fn run_asking<D: Desk>(alloc: Global, asking: &Asking<'_>, desk: &mut D) -> Status
    ensures means { IsTrue (is_reached result) → AskedMeans (D.told desk.old) (asking_view asking.now) result (D.told desk.new) }
    ensures answers { IsTrue (is_reached result) → Reaches (IsAskedOutcome (D.told desk.old) (asking_view asking.now)) (D.told desk.old) result (D.told desk.new) }
    ensures bytes { AllSteady (D.counts desk.old) (D.counts desk.new) → result ≢ Status.NoMemory → OfNamedFiles (IsAnswerTo (D.told desk.old) result (D.told desk.new) asking.now.inquiry) (D.told desk.old) (names_view asking.now.names) }
    ensures part { result ≡ Status.WriteFault → ReachesPart (IsAskedOutcome (D.told desk.old) (asking_view asking.now)) (D.told desk.old) (D.told desk.new) }
    ensures lacks { result ≡ Status.NoFile → LacksAsked (D.told desk.old) (asking_view asking.now) }
    ensures counts { EndedAs result (D.counts desk.old) (D.counts desk.new) (D.told desk.old) (D.told desk.new) }
{
    match check(alloc, desk, asking) {
        Ok(answer) => say_answer(desk, &answer),
        Err(stop) => stop.status(),
    }
}

// Writes a certificate whole, and then says the text of the status that was reached.
fn put_out_texts<D: Desk>(desk: &mut D, name: &str, status: Status, texts: &Texts) -> Status
    requires { IsTrue (is_reached status) }
    ensures whole { IsTrue (is_reached result) → IsDone (D.told desk.old) (writing status name.now texts.now.cert.items texts.now.said.items) result (D.told desk.new) }
    ensures part { result ≡ Status.WriteFault → FailedIn (D.told desk.old) (writing status name.now texts.now.cert.items texts.now.said.items).effects (D.told desk.new) }
    ensures no_other { (result ≡ Status.ReadFault → ⊥) × (result ≡ Status.NoFile → ⊥) × (result ≡ Status.NoMemory → ⊥) }
    ensures counts { EndedAs result (D.counts desk.old) (D.counts desk.new) (D.told desk.old) (D.told desk.new) }
{
    let certificate = Effect::Write(name, texts.cert.as_slice());
    finish(
        desk,
        status,
        &[certificate, Effect::Say(texts.said.as_slice())],
    )
}

// Puts out a draft: the texts of what was found, or what is said alone.
#[tactic(auto, using(crate::proofs::StructureLaws::unfound_reached, crate::proofs::StructureLaws::unfound_structured))]
fn put_out<D: Desk>(desk: &mut D, name: &str, draft: &Draft) -> Status
    requires { IsStructuredDraft draft.now }
    ensures structured { IsTrue (is_reached result) → IsTrue (is_structured result) }
    ensures whole { IsTrue (is_reached result) → IsDone (D.told desk.old) (draft_outcome name.now draft.now) result (D.told desk.new) }
    ensures part { result ≡ Status.WriteFault → FailedIn (D.told desk.old) (draft_outcome name.now draft.now).effects (D.told desk.new) }
    ensures no_other { (result ≡ Status.ReadFault → ⊥) × (result ≡ Status.NoFile → ⊥) × (result ≡ Status.NoMemory → ⊥) }
    ensures counts { EndedAs result (D.counts desk.old) (D.counts desk.new) (D.told desk.old) (D.told desk.new) }
{
    match draft {
        Draft::Found(texts) => put_out_texts(desk, name, Status::Done, texts),
        Draft::NoneWithinYield(texts) => {
            put_out_texts(desk, name, Status::NoneWithinYield, texts)
        }
        Draft::Said(answer) => say_answer(desk, answer),
    }
}

// Puts out what `cap` drew up: the texts of an escrow at a cap, or what is said alone.
fn put_out_cap<D: Desk>(desk: &mut D, name: &str, draft: &CapDraft) -> Status
    requires { IsCapEnded draft.now }
    ensures structured { IsTrue (is_reached result) → IsTrue (is_structured result) }
    ensures whole { IsTrue (is_reached result) → IsDone (D.told desk.old) (cap_draft_outcome name.now draft.now) result (D.told desk.new) }
    ensures part { result ≡ Status.WriteFault → FailedIn (D.told desk.old) (cap_draft_outcome name.now draft.now).effects (D.told desk.new) }
    ensures no_other { (result ≡ Status.ReadFault → ⊥) × (result ≡ Status.NoFile → ⊥) × (result ≡ Status.NoMemory → ⊥) }
    ensures counts { EndedAs result (D.counts desk.old) (D.counts desk.new) (D.told desk.old) (D.told desk.new) }
{
    match draft {
        CapDraft::Found(texts) => put_out_texts(desk, name, Status::Done, texts),
        CapDraft::Said(answer) => say_answer(desk, answer),
    }
}

// Carries `structure`, or beside holdings `structure-held`, out on the files of these names.
fn run_structure<D: Desk, W: Watcher>(
    alloc: Global,
    names: &FileNames<'_>,
    desk: &mut D,
    watcher: &mut W,
) -> Status
    ensures means { IsTrue (is_reached result) → StructureMeans (D.told desk.old) (names_view names.now) result (D.told desk.new) }
    ensures answers { IsTrue (is_reached result) → Reaches (IsStructureOutcome (D.told desk.old) (names_view names.now)) (D.told desk.old) result (D.told desk.new) }
    ensures part { result ≡ Status.WriteFault → ReachesPart (IsStructureOutcome (D.told desk.old) (names_view names.now)) (D.told desk.old) (D.told desk.new) }
    ensures lacks { result ≡ Status.NoFile → LacksInput (D.told desk.old) (names_view names.now) }
    ensures counts { EndedAs result (D.counts desk.old) (D.counts desk.new) (D.told desk.old) (D.told desk.new) }
{
    match structure(alloc, desk, names, watcher) {
        Ok(draft) => put_out(desk, names.cert, &draft),
        Err(stop) => stop.status(),
    }
}

// Carries `cap` out on the files of these names.
fn run_cap<D: Desk, W: Watcher>(
    alloc: Global,
    names: &FileNames<'_>,
    desk: &mut D,
    watcher: &mut W,
) -> Status
    ensures means { IsTrue (is_reached result) → CapMeans (D.told desk.old) (names_view names.now) result (D.told desk.new) }
    ensures answers { IsTrue (is_reached result) → Reaches (IsCapOutcome (D.told desk.old) (names_view names.now)) (D.told desk.old) result (D.told desk.new) }
    ensures part { result ≡ Status.WriteFault → ReachesPart (IsCapOutcome (D.told desk.old) (names_view names.now)) (D.told desk.old) (D.told desk.new) }
    ensures lacks { result ≡ Status.NoFile → LacksInput (D.told desk.old) (names_view names.now) }
    ensures counts { EndedAs result (D.counts desk.old) (D.counts desk.new) (D.told desk.old) (D.told desk.new) }
{
    match cap(alloc, desk, names, watcher) {
        Ok(draft) => put_out_cap(desk, names.cert, &draft),
        Err(stop) => stop.status(),
    }
}

// Writes the files of a case whole, and then says the answer.
fn put_out_made<D: Desk>(desk: &mut D, names: &MadeNames<'_>, draft: &MadeDraft) -> Status
    requires { IsTrue (is_reached draft.now.answer.status) }
    ensures whole { IsTrue (is_reached result) → IsDone (D.told desk.old) (made_outcome (made_names_view names.now) (files_view draft.now.files) draft.now.answer) result (D.told desk.new) }
    ensures part { result ≡ Status.WriteFault → FailedIn (D.told desk.old) (made_outcome (made_names_view names.now) (files_view draft.now.files) draft.now.answer).effects (D.told desk.new) }
    ensures no_other { (result ≡ Status.ReadFault → ⊥) × (result ≡ Status.NoFile → ⊥) × (result ≡ Status.NoMemory → ⊥) }
    ensures counts { EndedAs result (D.counts desk.old) (D.counts desk.new) (D.told desk.old) (D.told desk.new) }
{
    let effects = [
        Effect::Write(names.issue, draft.files.issue.as_slice()),
        Effect::Write(names.rates, draft.files.rates.as_slice()),
        Effect::Write(names.prices, draft.files.prices.as_slice()),
        Effect::Say(draft.answer.text()),
    ];
    finish(desk, draft.answer.status(), &effects)
}

// Carries `make` out.
fn run_make<D: Desk, W: Watcher>(
    alloc: Global,
    making: &Making<'_>,
    desk: &mut D,
    watcher: &mut W,
) -> Status
    ensures means { IsTrue (is_reached result) → MakeMeans (making_view making.now) result }
    ensures answers { IsTrue (is_reached result) → Reaches (IsMadeOutcome (making_view making.now)) (D.told desk.old) result (D.told desk.new) }
    ensures part { result ≡ Status.WriteFault → ReachesPart (IsMadeOutcome (making_view making.now)) (D.told desk.old) (D.told desk.new) }
    ensures no_read { (result ≡ Status.ReadFault → ⊥) × (result ≡ Status.NoFile → ⊥) }
    ensures counts { EndedAs result (D.counts desk.old) (D.counts desk.new) (D.told desk.old) (D.told desk.new) }
{
    match made(alloc, making.number, watcher) {
        Ok(draft) => put_out_made(desk, &making.names, &draft),
        Err(_) => Status::NoMemory,
    }
}

// Carries a command out.
fn carry_out<D: Desk, W: Watcher>(
    alloc: Global,
    command: &Command<'_>,
    desk: &mut D,
    watcher: &mut W,
) -> Status
    ensures means { IsTrue (is_reached result) → Means (D.told desk.old) (command_view command.now) result (D.told desk.new) }
    ensures answers { IsTrue (is_reached result) → Reaches (IsOutcome (D.told desk.old) (Some (command_view command.now))) (D.told desk.old) result (D.told desk.new) }
    ensures bytes { AllSteady (D.counts desk.old) (D.counts desk.new) → result ≢ Status.NoMemory → AnswersBytes (D.told desk.old) (command_view command.now) result (D.told desk.new) }
    ensures part { result ≡ Status.WriteFault → ReachesPart (IsOutcome (D.told desk.old) (Some (command_view command.now))) (D.told desk.old) (D.told desk.new) }
    ensures lacks { result ≡ Status.NoFile → LacksFile (D.told desk.old) (Some (command_view command.now)) }
    ensures no_read { ReadsNoFile (command_view command.now) result }
    ensures counts { EndedAs result (D.counts desk.old) (D.counts desk.new) (D.told desk.old) (D.told desk.new) }
{
    match command {
        Command::Structure(names) => run_structure(alloc, names, desk, watcher),
        Command::Cap(names) => run_cap(alloc, names, desk, watcher),
        Command::Ask(asking) => run_asking(alloc, asking, desk),
        Command::Make(making) => run_make(alloc, making, desk, watcher),
    }
}

/// Carries out the words of a command line, which are those after the program's name, over a desk.
///
/// `check ISSUE RATES PRICES CERT` answers whether the certificate is accepted for the three input files, and says why or why
/// not. `check-cap RATE ISSUE RATES PRICES CERT` answers the same of the case in which each SLGS rate is at most RATE, which is in
/// percent, in whole hundredths up to 30. `savings ISSUE RATES PRICES CERT` answers as `check`, and says of an accepted portfolio
/// what the refunding saves in present value at the restricted yield, and what idle yield costs. `roll ISSUE RATES PRICES CERT`
/// answers as `check`, and says of an accepted portfolio what is rolled into zero-interest certificates of indebtedness in place of
/// lying idle, and what its securities yield without and with these rolls. `structure ISSUE RATES PRICES
/// CERT` searches the cheapest permitted purchases, writes their certificate and says their report; or it writes a certificate
/// which shows that there is no rival, and says so; or it says that the needs can't be met, or that the budget is spent, with the
/// bound that its tree shows and the best plan. `cap ISSUE RATES PRICES CERT` searches the greatest common cap on the SLGS rates at
/// which an escrow is found, writes the certificate for the case at that cap, and says the cap, the summary and why none was found
/// at the next hundredth; or it says that none was found, and why. `make NUMBER ISSUE RATES PRICES` structures the made-up case of
/// a number from 0 to 2^64 - 1, written in decimal digits without a leading zero; it writes the three files of the case, in this
/// order, and then says the number, the summary of what was found and how many nodes the tree has, or what `structure` says where
/// it finds no portfolio. `check-held ISSUE RATES PRICES HELD CERT` and `structure-held ISSUE RATES PRICES HELD CERT` do as `check` and
/// `structure`, of the case beside what the escrow holds already, whose needs are what these holdings leave; the latter says the
/// summary in place of the report. All other words are `Usage`.
///
/// It returns for all words and every desk. It writes no file but the certificate of `structure`, `structure-held` or `cap` and the files of
/// `make`, and all texts are built before. The texts are this project's own.
pub fn run<D: Desk>(alloc: Global, words: &[String], desk: &mut D) -> Status
    // What `yes` means to `check`, of the bytes of the four files.
    ensures yes { result ≡ Status.Done → OfNames (codes "check") (λ names. SaidOfFiles Accepted (D.told desk.old) names (D.told desk.new)) (map string_bytes words.now) }
    // What `no` means to it: which reason stands, and that no earlier one does.
    ensures no { result ≡ Status.No → OfNames (codes "check") (λ names. SaidOfFiles NotAccepted (D.told desk.old) names (D.told desk.new)) (map string_bytes words.now) }
    // `structure` writes only certificates that `check` accepts.
    ensures wrote { IsFoundStatus result → OfNames (codes "structure") (WroteAccepted IsAcceptedText (D.told desk.old) (D.told desk.new)) (map string_bytes words.now) }
    // What the status means to each command.
    ensures means { IsTrue (is_reached result) → IfSome (command_of_words (map string_bytes words.now)) (λ command. Means (D.told desk.old) command result (D.told desk.new)) }
    // The status is `Usage` exactly where the words are no command.
    ensures usage { IsTrue (is_reached result) → ((result ≡ Status.Usage) ↔ (command_of_words (map string_bytes words.now) ≡ None)) }
    // Where the run wasn't cut off, the status and what stands then are the answer to the words over the desk's content.
    ensures answers { IsTrue (is_reached result) → Reaches (IsOutcome (D.told desk.old) (command_of_words (map string_bytes words.now))) (D.told desk.old) result (D.told desk.new) }
    // Where no call of the desk failed and memory lasted, what is asked of four files that are there is answered by their bytes.
    ensures bytes { AllSteady (D.counts desk.old) (D.counts desk.new) → result ≢ Status.NoMemory → IfSome (command_of_words (map string_bytes words.now)) (λ command. AnswersBytes (D.told desk.old) command result (D.told desk.new)) }
    // Where a write failed, a part of the answer stands.
    ensures part { result ≡ Status.WriteFault → ReachesPart (IsOutcome (D.told desk.old) (command_of_words (map string_bytes words.now))) (D.told desk.old) (D.told desk.new) }
    // A file isn't there only where a command reads it.
    ensures lacks { result ≡ Status.NoFile → LacksFile (D.told desk.old) (command_of_words (map string_bytes words.now)) }
    // `make` reads no file.
    ensures no_read { IfSome (command_of_words (map string_bytes words.now)) (λ command. ReadsNoFile command result) }
    // Each way of being cut off has its cause: a count of the desk that rose in this call, or stands at its last value.
    ensures counts { EndedAs result (D.counts desk.old) (D.counts desk.new) (D.told desk.old) (D.told desk.new) }
{
    run_watched(alloc, words, desk, &mut Unwatched)
}

/// Does the same as [`run`], and keeps each of its clauses, while a watcher sees how far the searches of `structure`, `structure-held`, `cap`
/// and `make` are: each node that is taken, when a search has ended, and each cap before it is tried. What it does with that has no bearing
/// on the status, on what is said, or on any file.
pub fn run_watched<D: Desk, W: Watcher>(
    alloc: Global,
    words: &[String],
    desk: &mut D,
    watcher: &mut W,
) -> Status
    ensures yes { result ≡ Status.Done → OfNames (codes "check") (λ names. SaidOfFiles Accepted (D.told desk.old) names (D.told desk.new)) (map string_bytes words.now) }
    ensures no { result ≡ Status.No → OfNames (codes "check") (λ names. SaidOfFiles NotAccepted (D.told desk.old) names (D.told desk.new)) (map string_bytes words.now) }
    ensures wrote { IsFoundStatus result → OfNames (codes "structure") (WroteAccepted IsAcceptedText (D.told desk.old) (D.told desk.new)) (map string_bytes words.now) }
    ensures means { IsTrue (is_reached result) → IfSome (command_of_words (map string_bytes words.now)) (λ command. Means (D.told desk.old) command result (D.told desk.new)) }
    ensures usage { IsTrue (is_reached result) → ((result ≡ Status.Usage) ↔ (command_of_words (map string_bytes words.now) ≡ None)) }
    ensures answers { IsTrue (is_reached result) → Reaches (IsOutcome (D.told desk.old) (command_of_words (map string_bytes words.now))) (D.told desk.old) result (D.told desk.new) }
    ensures bytes { AllSteady (D.counts desk.old) (D.counts desk.new) → result ≢ Status.NoMemory → IfSome (command_of_words (map string_bytes words.now)) (λ command. AnswersBytes (D.told desk.old) command result (D.told desk.new)) }
    ensures part { result ≡ Status.WriteFault → ReachesPart (IsOutcome (D.told desk.old) (command_of_words (map string_bytes words.now))) (D.told desk.old) (D.told desk.new) }
    ensures lacks { result ≡ Status.NoFile → LacksFile (D.told desk.old) (command_of_words (map string_bytes words.now)) }
    ensures no_read { IfSome (command_of_words (map string_bytes words.now)) (λ command. ReadsNoFile command result) }
    ensures counts { EndedAs result (D.counts desk.old) (D.counts desk.new) (D.told desk.old) (D.told desk.new) }
{
    match command_of(words) {
        None => say_usage(desk),
        Some(command) => carry_out(alloc, &command, desk, watcher),
    }
}
