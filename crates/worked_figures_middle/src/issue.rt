//! An issue, and what it needs.

ghost use Rattle.std.specs.Prelude.{◌≤◌, length};

use escrow_desk::{CaseError, FILE_LIMIT, Refusal, read_rows};
use escrow_units::{Flow, print_day};
use figure_sheets::{Unread, base_day, shown_day, shown_flows};
use issue_schedule::{Call, Issue, Restricted, needs, read_issue};
use std::alloc::{AllocError, Global};

/// An issue, and its needs.
#[derive(Drop)]
pub(crate) struct ReadIssue {
    issue: Issue,
    needs: Vec<Flow>,
}

impl ReadIssue {
    /// The issue of a file's bytes, or why the file is refused.
    pub(crate) fn read(alloc: Global, bytes: &[u8]) -> Result<Result<ReadIssue, Refusal>, Unread>
        requires { length bytes.now ≤ FILE_LIMIT }
    {
        let Ok(rows) = read_rows(alloc, bytes) else {
            return Err(Unread::NoMemory);
        };
        let issue = match read_issue(alloc, &rows) {
            Ok(issue) => issue,
            Err(CaseError::Refused(refusal)) => return Ok(Err(refusal)),
            Err(CaseError::NoMemory) => return Err(Unread::NoMemory),
        };
        match needs(alloc, &issue) {
            Ok(needs) => Ok(Ok(ReadIssue { issue, needs })),
            Err(_) => Err(Unread::NoMemory),
        }
    }
}

// The day of the call and its price in units of 10^-8 percent, where there is one.
fn call_shown(alloc: Global, call: Option<Call>) -> Result<String, AllocError> {
    match call {
        Some(call) => format!(in alloc; "{} {}", print_day(call.day).as_str(), call.price.0),
        None => String::from_str(alloc, "none"),
    }
}

// The restricted yield, or the row and the price from which it is computed.
fn restricted_shown(alloc: Global, restricted: Restricted) -> Result<String, AllocError> {
    match restricted {
        Restricted::Given(units) => format!(in alloc; "given {}", units.0),
        Restricted::Computed { row, price } => format!(in alloc; "row {row} price {}", price.0),
    }
}

/// What a call on an issue comes to, if it is one.
pub(crate) fn answer(
    alloc: Global,
    read: &ReadIssue,
    name: &str,
    arguments: &[&str],
) -> Result<String, Unread> {
    let issue = &read.issue;
    let text = match (name.as_bytes(), arguments) {
        (b"settle", []) => shown_day(alloc, Some(issue.settle)),
        (b"call", []) => call_shown(alloc, issue.call),
        (b"restricted", []) => restricted_shown(alloc, issue.restricted),
        (b"cash", []) => format!(in alloc; "{}", issue.cash.0),
        (b"given_allowance", []) => format!(in alloc; "{}", issue.allowance.0),
        (b"given_budget", []) => format!(in alloc; "{}", issue.budget),
        (b"bonds", []) => format!(in alloc; "{}", issue.bonds.as_slice().len()),
        (b"direct", []) => shown_flows(alloc, issue.direct.as_slice()),
        (b"pays", []) => shown_flows(alloc, issue.pays.as_slice()),
        (b"needs", []) => shown_flows(alloc, read.needs.as_slice()),
        (b"need_dates", []) => format!(in alloc; "{}", read.needs.len()),
        (b"closed_days", []) => format!(in alloc; "{}", issue.closed.days().len()),
        (b"open_day", [date]) => shown_day(alloc, Some(issue.closed.open_day(base_day(date)?))),
        _ => return Err(Unread::NoCall),
    };
    Ok(text?)
}
