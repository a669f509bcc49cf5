//! Worked figures. Those of present values were worked out apart, by exact decimals of 80 places.
ghost use Rattle.std.specs.Prelude.{◌≡◌, ◌≤◌, length, IfOk, Ok};
ghost use Rattle.escrow_desk.specs.Rows.{rows_of};
ghost use Rattle.issue_schedule.specs.IssueForm.{issue_of as issue_of_rows};
ghost use Rattle.issue_schedule.specs.IssueTerms.{IsIssue};
ghost use Rattle.case_file.specs.Case.{IsKept, case_view};
ghost use Rattle.savings_table.specs.Savings.{AreOfOneSet};

use crate::plans::plan_with;
use case_file::{Case, read_case};
use cash_table::first_unpermitted;
use escrow_desk::{FILE_LIMIT, read_rows};
use escrow_units::{Cents, Day, Flow, YieldUnits, read_day, years_after};
use issue_schedule::{Issue, read_issue};
use savings_table::{
    PvRange, SERVICE_LIMIT, Savings, SignedRange, old_service, one_set, present, print_signed,
    savings_of,
};
use std::alloc::Global;
use std::process::Abort;
use std::test::Fail;

#[test]
fn amounts_below_zero_have_a_sign(rt: HostRuntime) {
    let rows = [
        (0, "0.00"),
        (1, "0.01"),
        (-1, "-0.01"),
        (-100, "-1.00"),
        (10_000_001, "100000.01"),
        (i128::MAX, "1701411834604692317316873037158841057.27"),
        (i128::MIN, "-1701411834604692317316873037158841057.28"),
    ];
    for (value, text) in &rows {
        assert_eq!(rt; print_signed(*value).as_str(), *text);
    }
}

// A yield, how long after settlement an amount falls, the amount, and between which cents it is worth then.
#[derive(Clone, Copy)]
struct Valued {
    n: u64,
    years: u32,
    cents: u64,
    lo: u64,
    hi: u64,
}

// A row's amount is worth this.
fn is_valued(rt: &impl Abort, alloc: Global, row: &Valued) -> Result<(), Fail> {
    assert!(rt; row.n <= 3_000_000_000 && row.years <= 40 && row.cents <= SERVICE_LIMIT);
    let settle = Day::new(20_103);
    let day = years_after(settle, row.years);
    assert!(rt; settle <= day && day <= years_after(settle, 40));
    let flow = Flow {
        day,
        cents: Cents(row.cents),
    };
    let range = present(alloc, settle, YieldUnits(row.n), &[flow])?;
    assert_eq!(rt;
        range,
        PvRange {
            lo: row.lo,
            hi: row.hi
        }
    );
    Ok(())
}

#[test]
fn present_values_lie_between_cents(rt: HostRuntime) -> Result<(), Fail> {
    let rows = [
        Valued {
            n: 400_000_000,
            years: 0,
            cents: 123,
            lo: 123,
            hi: 123,
        },
        Valued {
            n: 0,
            years: 40,
            cents: SERVICE_LIMIT,
            lo: SERVICE_LIMIT,
            hi: SERVICE_LIMIT,
        },
        Valued {
            n: 2_999_000_000,
            years: 40,
            cents: 10_000_000_000_000,
            lo: 139_856_737,
            hi: 139_856_738,
        },
        Valued {
            n: 3_000_000_000,
            years: 40,
            cents: SERVICE_LIMIT,
            lo: 27_874_222_820,
            hi: 27_874_222_821,
        },
    ];
    for row in &rows {
        is_valued(&rt, rt.alloc(), row)?;
    }
    let none = present(rt.alloc(), Day::new(20_103), YieldUnits(0), &[])?;
    assert_eq!(rt; none, PvRange { lo: 0, hi: 0 });
    Ok(())
}

// The issue of a file.
fn issue_of(alloc: Global, text: &[u8]) -> Result<Issue, Fail>
    requires { length text.now ≤ FILE_LIMIT }
    ensures issue { IfOk result IsIssue }
    ensures bonds { IfOk result (λ issue. length issue.bonds ≤ FILE_LIMIT) }
    ensures rows { IfOk result (λ issue. issue_of_rows (rows_of text.now) ≡ Ok issue) }
{
    one_set();
    let rows = read_rows(alloc, text)?;
    match read_issue(alloc, &rows) {
        Ok(issue) => Ok(issue),
        Err(_) => Err(Fail::new("no issue")),
    }
}

#[test]
fn the_old_service_is_not_called(rt: HostRuntime) -> Result<(), Fail> {
    let text = b"settle,2025-01-15\ncall,2026-07-01,101\nbond,2026-01-01,2000000.00,4.000\n\
        bond,2030-07-01,10000000.00,5.000\nneed,2025-03-01,7.00\nrestricted,4.00\n";
    let issue = issue_of(rt.alloc(), text)?;
    let service = old_service(rt.alloc(), &issue)?;
    let days: [(&[u8], u64); 11] = [
        (b"2025-07-01", 29_000_000),
        (b"2026-01-01", 229_000_000),
        (b"2026-07-01", 25_000_000),
        (b"2027-01-01", 25_000_000),
        (b"2027-07-01", 25_000_000),
        (b"2028-01-01", 25_000_000),
        (b"2028-07-01", 25_000_000),
        (b"2029-01-01", 25_000_000),
        (b"2029-07-01", 25_000_000),
        (b"2030-01-01", 25_000_000),
        (b"2030-07-01", 1_025_000_000),
    ];
    assert_eq!(rt; service.len(), days.len());
    for (flow, (day, cents)) in service.iter().zip(&days) {
        assert!(rt; read_day(day) == Ok(flow.day));
        assert_eq!(rt; flow.cents, Cents(*cents));
    }
    Ok(())
}

// Files, the units of the lines, and what is saved by them.
#[derive(Clone, Copy)]
struct Row {
    issue: &'static [u8],
    rates: &'static [u8],
    prices: &'static [u8],
    units: &'static [u64],
    savings: Savings,
}

// The case of a row's files.
fn case_of(alloc: Global, row: &Row) -> Result<Case, Fail>
    requires issue { length row.now.issue.now ≤ FILE_LIMIT }
    requires rates { length row.now.rates.now ≤ FILE_LIMIT }
    requires prices { length row.now.prices.now ≤ FILE_LIMIT }
    ensures { IfOk result (λ case. IsKept (rows_of row.now.issue.now) (rows_of row.now.rates.now) (rows_of row.now.prices.now) (case_view case)) }
{
    Ok(read_case(alloc, row.issue, row.rates, row.prices)?)
}

// The savings of a portfolio are those of the row.
fn are_saved(
    rt: &impl Abort,
    alloc: Global,
    issue: &Issue,
    case: &Case,
    row: &Row,
) -> Result<(), Fail>
    requires { AreOfOneSet issue.now (case_view case.now) }
{
    let plan = plan_with(rt, alloc, &case.book, row.units)?;
    assert!(rt; first_unpermitted(&case.book, &plan).is_none());
    assert_eq!(rt; savings_of(alloc, issue, case, &plan)?, row.savings);
    Ok(())
}

// The savings of a row are these.
fn is_saved(rt: &impl Abort, alloc: Global, row: &Row) -> Result<(), Fail> {
    one_set();
    assert!(rt;
        row.issue.len() as u64 <= FILE_LIMIT
            && row.rates.len() as u64 <= FILE_LIMIT
            && row.prices.len() as u64 <= FILE_LIMIT
    );
    let issue = issue_of(alloc, row.issue)?;
    let case = case_of(alloc, row)?;
    are_saved(rt, alloc, &issue, &case, row)
}

fn given(old: PvRange, idle: SignedRange) -> Savings {
    Savings {
        old_value: old,
        new_value: None,
        saved: None,
        idle,
    }
}

#[test]
fn refundings_save(rt: HostRuntime) -> Result<(), Fail> {
    let note = b"terms,1000,1000\nnote,2025-07-15,4.000,100,200000\n";
    let nothing = PvRange { lo: 0, hi: 0 };
    let rows = [
        Row {
            issue: b"settle,2025-01-15\nbond,2025-07-15,100000.00,4.000\nrestricted,4.00\nallowance,0.01\n",
            rates: b"",
            prices: note,
            units: &[0, 100],
            savings: given(
                PvRange {
                    lo: 9_999_999,
                    hi: 10_000_001,
                },
                SignedRange { lo: -1, hi: 1 },
            ),
        },
        Row {
            issue: b"settle,2025-01-15\nbond,2025-07-15,100000.00,4.000\nprice,100000.00\n\
                pay,2025-07-15,102000.00\nallowance,0.01\n",
            rates: b"",
            prices: note,
            units: &[0, 100],
            savings: Savings {
                old_value: PvRange {
                    lo: 10_000_000,
                    hi: 10_000_001,
                },
                new_value: Some(PvRange {
                    lo: 10_000_000,
                    hi: 10_000_001,
                }),
                saved: Some(SignedRange { lo: -1, hi: 1 }),
                idle: SignedRange { lo: -1, hi: 0 },
            },
        },
        // The old bond pays on a day that is closed to receipts: the note pays a day later, and is worth less.
        Row {
            issue: b"settle,2025-01-15\nbond,2025-07-15,100000.00,4.000\nrestricted,4.00\nclosed,2025-07-15\n",
            rates: b"",
            prices: note,
            units: &[0, 100],
            savings: given(
                PvRange {
                    lo: 9_999_999,
                    hi: 10_000_001,
                },
                SignedRange {
                    lo: 1_100,
                    hi: 1_101,
                },
            ),
        },
        // No bonds, and opening cash, which is no part of what the securities cost.
        Row {
            issue: b"settle,2025-01-15\nneed,2025-07-15,1050.00\ncash,50.00\nrestricted,4.00\n",
            rates: b"terms,1000,100\nrate,2025-02-14,2026-07-15,4.00\noffer,2025-04-15,0,,10000\n\
                offer,2026-07-15,4.00,,10000\n",
            prices: b"",
            units: &[5_000, 10, 20],
            savings: given(nothing, SignedRange { lo: 985, hi: 986 }),
        },
        // Nothing bought, at the least and the greatest restricted yield, of a bond near the limits that is called at a tenth.
        Row {
            issue: b"settle,2025-01-15\ncall,2025-07-15,10\nbond,2065-01-15,100000000000.00,30.000\nrestricted,0\n",
            rates: b"",
            prices: note,
            units: &[0, 0],
            savings: given(
                PvRange {
                    lo: 130_000_000_000_000,
                    hi: 130_000_000_000_000,
                },
                SignedRange { lo: 0, hi: 0 },
            ),
        },
        Row {
            issue: b"settle,2025-01-15\ncall,2025-07-15,10\nbond,2065-01-15,100000000000.00,30.000\nrestricted,29.99\n",
            rates: b"",
            prices: note,
            units: &[0, 0],
            savings: given(
                PvRange {
                    lo: 10_003_334_398_180,
                    hi: 10_003_334_398_181,
                },
                SignedRange { lo: 0, hi: 0 },
            ),
        },
    ];
    for row in &rows {
        is_saved(&rt, rt.alloc(), row)?;
    }
    Ok(())
}
