//! The case that input files give, and the one by which a certificate is judged.

ghost use Rattle.std.specs.Prelude.{◌≡◌, ◌≤◌, IfOk, Ok, length};
ghost use Rattle.escrow_desk.specs.Rows.{rows_of};
ghost use Rattle.escrow_desk.specs.declared.limits.TheConstants.{FILE_LIMIT};
ghost use Rattle.case_file.specs.Case.{CaseAnswers, HasTerms, IsKept, case_view};
ghost use Rattle.held_escrow.specs.HeldForm.{held_of};
ghost use Rattle.offer_book.specs.Book.{IsBook};
ghost use Rattle.certificate_answers.specs.Answer.{case_of, held_case_by, judged_case as judged_case_of, judged_of};
ghost use Rattle.certificate_answers.specs.CaseOf.{AreWithin, GiveCase, GiveWorkedCase};
ghost use Rattle.certificate_answers.specs.Judged.{IsJudged};
ghost use Rattle.certificate_answers.specs.Reading.{IsKeptFor, files_view};

use crate::files::InputFiles;
use crate::inquiry::Inquiry;
use case_file::{Case, read_case};
use escrow_desk::{CaseError, read_rows};
use held_escrow::{held_case, read_held};
use rate_cap::{at_cap, cap_laws};
use std::alloc::Global;

/// The case that input files give, holdings apart.
///
/// # Errors
///
/// `Refused` with the first refusal of their rows, as `read_case` has it, and `NoMemory`.
pub fn given_case(alloc: Global, files: &InputFiles) -> Result<Case, CaseError>
    requires { AreWithin (files_view files.now) }
    ensures case { CaseAnswers result (case_of (files_view files.now)) }
    ensures given { IfOk result (λ case. GiveWorkedCase (files_view files.now) (case_view case)) }
    ensures gives { IfOk result (λ case. GiveCase (files_view files.now) (case_view case)) }
    ensures kept { IfOk result (λ case. IsKept (rows_of (files_view files.now).issue) (rows_of (files_view files.now).rates) (rows_of (files_view files.now).prices) (case_view case)) }
{
    read_case(
        alloc,
        files.issue.as_slice(),
        files.rates.as_slice(),
        files.prices.as_slice(),
    )
}

// A case beside the holdings of a file.
fn beside_file(alloc: Global, case: &Case, bytes: &[u8]) -> Result<Case, CaseError>
    requires book { IsBook case.now.book }
    requires terms { HasTerms (case_view case.now) }
    requires within { length bytes.now ≤ FILE_LIMIT }
    ensures case { CaseAnswers result (held_case_by (case_view case.now) (held_of case.now.book.days.settle (rows_of bytes.now))) }
    ensures book { IfOk result (λ kept. IsBook kept.book) }
    ensures terms { IfOk result (λ kept. HasTerms (case_view kept)) }
{
    let rows = read_rows(alloc, bytes)?;
    let held = read_held(alloc, case.book.settle(), &rows)?;
    Ok(held_case(alloc, case, held.as_slice())?)
}

// The case by which a certificate is judged, of the one that input files give.
fn judged_by(
    alloc: Global,
    inquiry: Inquiry,
    files: &InputFiles,
    case: Case,
) -> Result<Case, CaseError>
    requires within { AreWithin (files_view files.now) }
    requires book { IsBook case.book }
    requires terms { HasTerms (case_view case) }
    ensures case { CaseAnswers result (judged_case_of inquiry (files_view files.now).held (case_view case)) }
    ensures book { IfOk result (λ judged. IsBook judged.book) }
    ensures terms { IfOk result (λ judged. HasTerms (case_view judged)) }
{
    // There is one case at each cap.
    cap_laws();
    match inquiry {
        Inquiry::Check => match &files.held {
            Some(bytes) => beside_file(alloc, &case, bytes.as_slice()),
            None => Ok(case),
        },
        Inquiry::Savings | Inquiry::Roll => Ok(case),
        Inquiry::AtCap(cap) => Ok(at_cap(alloc, &case, cap)?),
    }
}

/// The case by which a certificate is judged, by what is asked: that of the input files, that one beside the holdings where they are
/// given, or that one at a cap.
///
/// # Errors
///
/// `Refused` with the first refusal of the input files' rows, or else of the holdings' rows where `check` goes by them; and `NoMemory`.
pub fn judged_case(alloc: Global, inquiry: Inquiry, files: &InputFiles) -> Result<Case, CaseError>
    requires { AreWithin (files_view files.now) }
    ensures case { CaseAnswers result (judged_of inquiry (files_view files.now)) }
    ensures judged { IfOk result (λ case. IsJudged inquiry (files_view files.now) (case_view case)) }
    ensures kept { IfOk result (λ case. IsKeptFor inquiry (files_view files.now) (case_view case)) }
{
    let case = given_case(alloc, files)?;
    judged_by(alloc, inquiry, files, case)
}
