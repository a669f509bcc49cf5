//! The limit of closed days.

ghost use Rattle.std.specs.Prelude.{◌≤◌};

use escrow_desk::{CaseError, FILE_LIMIT, FileKind, Refusal, RefusalKind, read_rows};
use escrow_units::{Day, print_day};
use issue_schedule::read_issue;
use std::alloc::{AllocError, Global};
use std::test::Fail;

// An issue with so many `closed` rows, of days one after the other.
fn closing(alloc: Global, count: u32) -> Result<Vec<u8>, AllocError>
    requires { count ≤ 2_000 }
{
    let mut text = Vec::from_slice(alloc, b"settle,2025-01-15\nrestricted,4\n")?;
    for place in 0..count {
        text.extend_from_slice(b"closed,")?;
        let day = Day::new(20_104 + place as i32);
        text.extend_from_slice(print_day(day).as_str().as_bytes())?;
        text.extend_from_slice(b"\n")?;
    }
    Ok(text)
}

// How many closed days the issue of a text has, or its refusal.
fn closed_days_of(alloc: Global, text: &[u8]) -> Result<Result<usize, CaseError>, Fail> {
    if text.len() as u64 > FILE_LIMIT {
        return Err(Fail::new("too long"));
    }
    let issue = read_issue(alloc, &read_rows(alloc, text)?);
    Ok(issue.map(|issue| issue.closed.days().len()))
}

#[test]
fn closed_days_are_limited(rt: HostRuntime) -> Result<(), Fail> {
    let most = closing(rt.alloc(), 1000)?;
    assert_eq!(rt; closed_days_of(rt.alloc(), most.as_slice())?, Ok(1000));
    let more = closing(rt.alloc(), 1001)?;
    let refusal = Refusal {
        file: FileKind::Issue,
        row: 0,
        kind: RefusalKind::TooManyDates,
    };
    let read = closed_days_of(rt.alloc(), more.as_slice())?;
    assert_eq!(rt; read, Err(CaseError::Refused(refusal)));
    Ok(())
}
