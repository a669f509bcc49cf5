//! Worked figures.
ghost use Rattle.std.specs.Prelude.{All, IfOk};
ghost use Rattle.case_file.specs.Case.{HasTerms, case_view};
ghost use Rattle.rate_cap.specs.CaseAt.{slgs_rates};
ghost use Rattle.rate_table.specs.Table.{IsTableRate};

use crate::{CapEnd, Obstacle, Unfound, find_cap};
use branch_search::Unwatched;
use case_file::{Case, read_case};
use escrow_desk::FILE_LIMIT;
use escrow_units::{Day, Rate};
use rate_cap::cap_laws;
use std::alloc::Global;
use std::process::Abort;
use std::test::Fail;

// Why no escrow is found.
#[derive(Clone, Copy, Debug, PartialEq, Eq)]
enum Cause {
    Short(Day),
    NoneWithinYield,
    BudgetSpent { bound: u64 },
}

// What the search of a cap comes to.
#[derive(Clone, Copy, Debug, PartialEq, Eq)]
enum Told {
    Found {
        cap: u32,
        gap: u64,
        next: Option<(u32, Cause)>,
    },
    NoneFound(Cause),
}

// Files, and what their case comes to.
#[derive(Clone, Copy)]
struct Row {
    issue: &'static [u8],
    rates: &'static [u8],
    told: Told,
}

fn case_of(rt: &impl Abort, alloc: Global, row: &Row) -> Result<Case, Fail>
    ensures terms { IfOk result (λ case. HasTerms (case_view case)) }
    ensures rates { IfOk result (λ case. All IsTableRate (slgs_rates case.book.lines)) }
{
    cap_laws();
    assert!(rt; row.issue.len() as u64 <= FILE_LIMIT && row.rates.len() as u64 <= FILE_LIMIT);
    match read_case(alloc, row.issue, row.rates, b"") {
        Ok(case) => Ok(case),
        Err(_) => Err(Fail::new("no case")),
    }
}

fn cause_of(obstacle: &Obstacle) -> Cause {
    match obstacle {
        Obstacle::Short(day) => Cause::Short(*day),
        Obstacle::NoneWithinYield(_) => Cause::NoneWithinYield,
        Obstacle::BudgetSpent(spent) => Cause::BudgetSpent {
            bound: spent.bound.0,
        },
    }
}

fn next_of(next: Option<&Unfound>) -> Option<(u32, Cause)> {
    let unfound = next?;
    Some((unfound.cap.0, cause_of(&unfound.obstacle)))
}

fn told_of(end: &CapEnd) -> Told {
    match end {
        CapEnd::Found(greatest) => Told::Found {
            cap: greatest.escrow.cap.0,
            gap: greatest.escrow.found.gap,
            next: next_of(greatest.next.as_ref()),
        },
        CapEnd::NoneFound(zero) => Told::NoneFound(cause_of(&zero.obstacle)),
    }
}

fn try_row(rt: &impl Abort, alloc: Global, row: &Row) -> Result<(), Fail> {
    let case = case_of(rt, alloc, row)?;
    let end = find_cap(alloc, &case, &mut Unwatched)?;
    assert_eq!(rt; told_of(&end), row.told);
    Ok(())
}

#[test]
fn greatest_caps(rt: HostRuntime) -> Result<(), Fail> {
    let rows = [
        // At 3.02 percent the interest is 14.98, and at 3.03 percent it is 15.03.
        Row {
            issue: b"settle,2025-01-15\nneed,2025-07-15,1000.00\nrestricted,3.00\n",
            rates: b"terms,1000,1000\nrate,2025-02-14,2026-01-15,4.00\noffer,2025-07-15,4.00,,2000\n",
            told: Told::Found {
                cap: 3_020,
                gap: 0,
                next: Some((3_030, Cause::NoneWithinYield)),
            },
        },
        // The top is 0, and an escrow is found at it.
        Row {
            issue: b"settle,2025-01-15\nneed,2025-04-15,5000.00\nrestricted,4.00\n",
            rates: b"terms,1000,100\noffer,2025-04-15,0.00,,10000\n",
            told: Told::Found {
                cap: 0,
                gap: 0,
                next: None,
            },
        },
        // The case itself has an escrow.
        Row {
            issue: b"settle,2025-01-15\nneed,2025-07-15,1000.00\nrestricted,4.00\n",
            rates: b"terms,1000,1000\nrate,2025-02-14,2026-01-15,4.00\noffer,2025-07-15,4.00,,2000\n",
            told: Told::Found {
                cap: 4_000,
                gap: 0,
                next: None,
            },
        },
        // Nothing pays by the need date, at whatever rate.
        Row {
            issue: b"settle,2025-01-15\ncash,50.00\nneed,2025-01-20,100.00\nrestricted,4.00\n",
            rates: b"terms,1000,1000\nrate,2025-02-14,2026-01-15,4.00\noffer,2025-07-15,4.00,,2000\n",
            told: Told::NoneFound(Cause::Short(Day::new(20_108))),
        },
        // A top of 0.
        Row {
            issue: b"settle,2025-01-15\ncash,50.00\nneed,2025-01-20,100.00\nrestricted,4.00\n",
            rates: b"",
            told: Told::NoneFound(Cause::Short(Day::new(20_108))),
        },
    ];
    for row in &rows {
        try_row(&rt, rt.alloc(), row)?;
    }
    Ok(())
}
