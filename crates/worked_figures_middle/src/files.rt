//! The files of a sheet.

ghost use Rattle.std.specs.Prelude.{◌≤◌, IfOk, length};

use crate::issue::ReadIssue;
use crate::{issue, lines, portfolio};
use case_file::{Case, read_case};
use escrow_desk::{CaseError, FILE_LIMIT, Refusal};
use figure_sheets::{Figures, Part, Unread, have_heads, lines_of};
use std::alloc::{AllocError, Global};

/// What the files of a sheet say: the issue file alone, and all three.
#[derive(Drop)]
pub(crate) struct Files {
    issue: Result<ReadIssue, Refusal>,
    case: Result<Case, Refusal>,
}

// The bytes of a file.
fn bytes_in<'s>(parts: &'s [Part], head: &str) -> Result<&'s [u8], Unread>
    ensures { IfOk result (λ bytes. length bytes.now ≤ FILE_LIMIT) }
{
    let bytes = lines_of(parts, head).ok_or(Unread::NoPart)?.as_bytes();
    if bytes.len() as u64 > FILE_LIMIT {
        return Err(Unread::Part);
    }
    Ok(bytes)
}

// A refusal: the file, the row, and why.
fn refusal_shown(alloc: Global, refusal: &Refusal) -> Result<String, AllocError> {
    format!(in alloc; "{:?} {} {:?}", refusal.file, refusal.row, refusal.kind)
}

impl Files {
    // Whether the issue is read, or why it is refused.
    fn issue_shown(&self, alloc: Global) -> Result<String, AllocError> {
        match &self.issue {
            Ok(_) => String::from_str(alloc, "read"),
            Err(refusal) => refusal_shown(alloc, refusal),
        }
    }

    // The limit of the case, or why a file of it is refused.
    fn case_shown(&self, alloc: Global) -> Result<String, AllocError> {
        match &self.case {
            Ok(case) => format!(in alloc; "{}", case.limit.0),
            Err(refusal) => refusal_shown(alloc, refusal),
        }
    }

    // What a call comes to that is about what the files say.
    fn answer_about(
        &self,
        alloc: Global,
        name: &str,
        arguments: &[&str],
    ) -> Result<String, Unread> {
        let Ok(issue) = &self.issue else {
            return Err(Unread::Part);
        };
        match (issue::answer(alloc, issue, name, arguments), &self.case) {
            (Err(Unread::NoCall), Ok(case)) => case_answer(alloc, case, name, arguments),
            (answer, _) => answer,
        }
    }
}

// What a call on a case comes to.
fn case_answer(
    alloc: Global,
    case: &Case,
    name: &str,
    arguments: &[&str],
) -> Result<String, Unread> {
    match (name.as_bytes(), arguments) {
        (b"allowance", []) => Ok(format!(in alloc; "{}", case.allowance.0)?),
        (b"budget", []) => Ok(format!(in alloc; "{}", case.budget)?),
        _ => match lines::answer(alloc, &case.book, name, arguments) {
            Err(Unread::NoCall) => portfolio::answer(alloc, &case.book, name, arguments),
            answer => answer,
        },
    }
}

impl Figures for Files {
    fn read(alloc: Global, parts: &[Part]) -> Result<Files, Unread> {
        if !have_heads(parts, &["issue", "rates", "prices"]) {
            return Err(Unread::Part);
        }
        let issue = bytes_in(parts, "issue")?;
        let (rates, prices) = (bytes_in(parts, "rates")?, bytes_in(parts, "prices")?);
        Ok(Files {
            issue: ReadIssue::read(alloc, issue)?,
            case: match read_case(alloc, issue, rates, prices) {
                Ok(case) => Ok(case),
                Err(CaseError::Refused(refusal)) => Err(refusal),
                Err(CaseError::NoMemory) => return Err(Unread::NoMemory),
            },
        })
    }

    fn answer(&self, alloc: Global, words: &[&str]) -> Result<String, Unread> {
        let [name, arguments @ ..] = words else {
            return Err(Unread::NoCall);
        };
        match (name.as_bytes(), arguments) {
            (b"issue", []) => Ok(self.issue_shown(alloc)?),
            (b"case", []) => Ok(self.case_shown(alloc)?),
            _ => self.answer_about(alloc, name, arguments),
        }
    }
}
