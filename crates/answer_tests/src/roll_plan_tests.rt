//! Rolls of a note that pays 102,000.00 dollars on 2025-07-15, long before they are needed.

ghost use Rattle.std.specs.Prelude.{◌≡◌, length, IfOk};

use case_file::{Case, read_case};
use cash_table::{Plan, first_short, first_unpermitted};
use escrow_desk::FILE_LIMIT;
use escrow_units::{Cents, Day, Flow};
use roll_plan::{Roll, rolled, rolls, terms_of};
use std::alloc::Global;
use std::process::Abort;
use std::test::Fail;

// The issue and the rate file beside the note, and the day to which what it pays is rolled, if it is.
#[derive(Clone, Copy)]
struct Row {
    issue: &'static [u8],
    rates: &'static [u8],
    next: Option<i32>,
}

const NOTE: &[u8] = b"terms,1000,1000\nnote,2025-07-15,4.000,100,200000\n";

// The case of a row.
fn case_of(rt: &impl Abort, alloc: Global, row: &Row) -> Result<Case, Fail> {
    assert!(rt; row.issue.len() as u64 <= FILE_LIMIT && row.rates.len() as u64 <= FILE_LIMIT);
    Ok(read_case(alloc, row.issue, row.rates, NOTE)?)
}

// A hundred notes.
fn hundred(rt: &impl Abort, alloc: Global, case: &Case) -> Result<Plan, Fail>
    ensures { IfOk result (λ plan. length plan ≡ length case.now.book.lines) }
{
    let mut plan = Plan::zero(alloc, &case.book)?;
    assert_eq!(rt; case.book.line_count(), 2);
    plan.put(1, 100);
    Ok(plan)
}

// What the note pays is rolled as the row says, and then comes on the day to which it is.
fn is_rolled(
    rt: &impl Abort,
    alloc: Global,
    case: &Case,
    plan: &Plan,
    row: &Row,
) -> Result<(), Fail>
    requires { length plan.now ≡ length case.now.book.lines }
{
    assert!(rt; first_unpermitted(&case.book, plan).is_none());
    assert!(rt; first_short(&case.book, plan).is_none());
    assert!(rt; row.rates.len() as u64 <= FILE_LIMIT);
    let Ok(terms) = terms_of(alloc, case.book.settle(), row.rates) else {
        return Err(Fail::new("no terms"));
    };
    let planned = rolls(alloc, case, plan, terms)?;
    let moved = rolled(alloc, case, plan, planned.as_slice())?;
    let paid = Flow {
        day: Day::new(20_284),
        cents: Cents(10_200_000),
    };
    if let Some(next) = row.next {
        assert!(rt; next >= 0 && next < 100_000);
        let roll = Roll {
            day: paid.day,
            next: Day::new(next),
            cents: paid.cents,
        };
        let later = Flow {
            day: roll.next,
            ..paid
        };
        assert_eq!(rt; planned.as_slice(), [roll].as_slice());
        assert_eq!(rt; moved.as_slice(), [later].as_slice());
    } else {
        assert!(rt; planned.is_empty());
        assert_eq!(rt; moved.as_slice(), [paid].as_slice());
    }
    Ok(())
}

#[test]
fn idle_cash_is_rolled(rt: HostRuntime) -> Result<(), Fail> {
    let wide: &[u8] = b"terms,1000,1000\n";
    let rows = [
        (
            b"settle,2025-01-15\nneed,2026-01-15,102000.00\nrestricted,4.00\n".as_slice(),
            wide,
            Some(20_468),
        ),
        // Opening cash isn't rolled.
        (
            b"settle,2025-01-15\ncash,5000.00\nneed,2026-01-15,102000.00\nrestricted,4.00\n",
            wide,
            Some(20_468),
        ),
        // 14 and 15 days later; a year, and a day more.
        (
            b"settle,2025-01-15\nneed,2025-07-29,102000.00\nrestricted,4.00\n",
            wide,
            None,
        ),
        (
            b"settle,2025-01-15\nneed,2025-07-30,102000.00\nrestricted,4.00\n",
            wide,
            Some(20_299),
        ),
        (
            b"settle,2025-01-15\nneed,2026-07-15,102000.00\nrestricted,4.00\n",
            wide,
            Some(20_649),
        ),
        (
            b"settle,2025-01-15\nneed,2026-07-16,102000.00\nrestricted,4.00\n",
            wide,
            None,
        ),
        // The day of the need is closed, which doesn't move it.
        (
            b"settle,2025-01-15\nneed,2026-01-15,102000.00\nrestricted,4.00\nclosed,2026-01-15\n",
            wide,
            None,
        ),
        // A step and a minimum above what is paid, and no denominations.
        (
            b"settle,2025-01-15\nneed,2026-01-15,102000.00\nrestricted,4.00\n",
            b"terms,103000,103000\n",
            None,
        ),
        (
            b"settle,2025-01-15\nneed,2026-01-15,102000.00\nrestricted,4.00\n",
            b"terms,103000,1000\n",
            None,
        ),
        (
            b"settle,2025-01-15\nneed,2026-01-15,102000.00\nrestricted,4.00\n",
            b"",
            None,
        ),
    ];
    for (issue, rates, next) in &rows {
        let row = Row {
            issue,
            rates,
            next: *next,
        };
        let case = case_of(&rt, rt.alloc(), &row)?;
        let plan = hundred(&rt, rt.alloc(), &case)?;
        is_rolled(&rt, rt.alloc(), &case, &plan, &row)?;
    }
    Ok(())
}
