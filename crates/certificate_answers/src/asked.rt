//! `check`, `check-cap`, `check-held`, `savings` and `roll`, from the names of their files to their answer.

ghost use Rattle.std.specs.Prelude.{◌≡◌, IfOk, IsErrOf, IsTrue};
ghost use Rattle.offer_book.specs.Book.{IsBook};
ghost use Rattle.case_file.specs.Case.{HasTerms, case_view};
ghost use Rattle.certificate_answers.specs.CaseOf.{AreWithin};
ghost use Rattle.certificate_answers.specs.Reading.{AreRead, CertificateAnswers, FilesAnswer, IsKeptFor, LacksAsked, LacksCertificate, asking_view, files_view, names_view};
ghost use Rattle.certificate_answers.specs.Answer.{answer_for};
ghost use Rattle.certificate_answers.specs.Meaning.{HoldsWhereTold, MeansNo, MeansYes, OfNamedFiles};
ghost use Rattle.certificate_answers.specs.Statuses.{is_checked};
ghost use Rattle.certificate_answers.specs.Accepted.{YesExactly};
ghost use Rattle.certificate_answers.specs.Stopping.{CountsStep};

use crate::answer::{Answer, refused, too_long, verdict_answer};
use crate::files::{InputFiles, Inputs, read_inputs};
use crate::hearing::{Heard, hear};
use crate::inquiry::Asking;
use crate::judging::judged_case;
use crate::status::Status;
use crate::stop::Stop;
use case_file::Case;
use escrow_desk::{CaseError, Desk, FileKind};
use std::alloc::Global;

// The answer to the certificate, for the case by which it is judged. It isn't inlined: its tables would stand on the stack while rows are
// read.
#[inline(never)]
fn answer_to_certificate<D: Desk>(
    alloc: Global,
    desk: &mut D,
    asking: &Asking<'_>,
    files: &InputFiles,
    case: &Case,
) -> Result<Answer, Stop>
    requires book { IsBook case.now.book }
    requires terms { HasTerms (case_view case.now) }
    requires within { AreWithin (files_view files.now) }
    requires kept { IsKeptFor asking.now.inquiry (files_view files.now) (case_view case.now) }
    ensures answer { IfOk result (λ answer. CertificateAnswers (D.told desk.old) (names_view asking.now.names).cert (answer_for asking.now.inquiry (files_view files.now) (case_view case.now)) answer) }
    ensures status { IfOk result (λ answer. IsTrue (is_checked answer.status)) }
    ensures absent { IsErrOf result Stop.NoFile → LacksCertificate (D.told desk.old) (names_view asking.now.names).cert }
    ensures told { D.told desk.new ≡ D.told desk.old }
    ensures counts { CountsStep result (D.counts desk.old) (D.counts desk.new) }
{
    match hear(alloc, desk, asking.names.cert, case)? {
        Heard::Whole(verdict) => Ok(verdict_answer(alloc, asking.inquiry, files, case, &verdict)?),
        Heard::TooLong => Ok(too_long(alloc, FileKind::Cert)?),
    }
}

// The answer to the input files that were read, and to the certificate, which is read only where they give a case.
fn answer_to_files<D: Desk>(
    alloc: Global,
    desk: &mut D,
    asking: &Asking<'_>,
    files: &InputFiles,
) -> Result<Answer, Stop>
    requires read { AreRead (D.told desk.old) (names_view asking.now.names) (files_view files.now) }
    requires within { AreWithin (files_view files.now) }
    ensures answer { IfOk result (λ answer. FilesAnswer (D.told desk.old) (asking_view asking.now) answer) }
    ensures status { IfOk result (λ answer. IsTrue (is_checked answer.status)) }
    ensures yes { IfOk result (λ answer. answer.status ≡ Status.Done → HoldsWhereTold (λ files cert. MeansYes asking.now.inquiry files cert answer.text) (D.told desk.old) (names_view asking.now.names)) }
    ensures no { IfOk result (λ answer. answer.status ≡ Status.No → HoldsWhereTold (λ files cert. MeansNo asking.now.inquiry files cert answer.text) (D.told desk.old) (names_view asking.now.names)) }
    ensures exactly { IfOk result (λ answer. OfNamedFiles (YesExactly answer.status asking.now.inquiry) (D.told desk.old) (names_view asking.now.names)) }
    ensures absent { IsErrOf result Stop.NoFile → LacksAsked (D.told desk.old) (asking_view asking.now) }
    ensures told { D.told desk.new ≡ D.told desk.old }
    ensures counts { CountsStep result (D.counts desk.old) (D.counts desk.new) }
{
    match judged_case(alloc, asking.inquiry, files) {
        Ok(case) => answer_to_certificate(alloc, desk, asking, files, &case),
        Err(CaseError::Refused(refusal)) => Ok(refused(alloc, &refusal)?),
        Err(CaseError::NoMemory) => Err(Stop::NoMemory),
    }
}

/// The answer to what is asked of the files of these names. The input files are read first, in their order, and the
/// certificate only where they give a case. No content changes.
///
/// # Errors
///
/// `NoFile` where a file that is read isn't there, `ReadFault` where a read failed, and `NoMemory`.
pub fn check<D: Desk>(alloc: Global, desk: &mut D, asking: &Asking<'_>) -> Result<Answer, Stop>
    ensures answer { IfOk result (λ answer. FilesAnswer (D.told desk.old) (asking_view asking.now) answer) }
    ensures status { IfOk result (λ answer. IsTrue (is_checked answer.status)) }
    ensures yes { IfOk result (λ answer. answer.status ≡ Status.Done → HoldsWhereTold (λ files cert. MeansYes asking.now.inquiry files cert answer.text) (D.told desk.old) (names_view asking.now.names)) }
    ensures no { IfOk result (λ answer. answer.status ≡ Status.No → HoldsWhereTold (λ files cert. MeansNo asking.now.inquiry files cert answer.text) (D.told desk.old) (names_view asking.now.names)) }
    ensures exactly { IfOk result (λ answer. OfNamedFiles (YesExactly answer.status asking.now.inquiry) (D.told desk.old) (names_view asking.now.names)) }
    ensures absent { IsErrOf result Stop.NoFile → LacksAsked (D.told desk.old) (asking_view asking.now) }
    ensures told { D.told desk.new ≡ D.told desk.old }
    ensures counts { CountsStep result (D.counts desk.old) (D.counts desk.new) }
{
    match read_inputs(alloc, desk, &asking.names)? {
        Inputs::Within(files) => answer_to_files(alloc, desk, asking, &files),
        Inputs::TooLong(kind) => Ok(too_long(alloc, kind)?),
    }
}
