//! Reports of four escrows: one of a certificate, one of a marketable note, one with cash that lies idle, and one with closed days.
ghost use Rattle.std.specs.Prelude.{◌≡◌, length};

use crate::plans::plan_with;
use case_file::{Case, read_case};
use cash_table::{Plan, first_short, first_unpermitted};
use escrow_desk::FILE_LIMIT;
use escrow_units::Cents;
use std::alloc::Global;
use std::process::Abort;
use std::test::Fail;
use verification_report::{report, summary};

// Files, the units of the lines, and what is reported of them with a gap.
#[derive(Clone, Copy)]
struct Row {
    issue: &'static [u8],
    rates: &'static [u8],
    prices: &'static [u8],
    units: &'static [u64],
    gap: Cents,
    summary: &'static [u8],
    report: &'static [u8],
}

// The case of a row's files.
fn case_of(rt: &impl Abort, alloc: Global, row: &Row) -> Result<Case, Fail> {
    assert!(rt;
        row.issue.len() as u64 <= FILE_LIMIT
            && row.rates.len() as u64 <= FILE_LIMIT
            && row.prices.len() as u64 <= FILE_LIMIT
    );
    Ok(read_case(alloc, row.issue, row.rates, row.prices)?)
}

// The texts of a permitted portfolio that meets the needs are those of the row.
fn are_texts(
    rt: &impl Abort,
    alloc: Global,
    case: &Case,
    plan: &Plan,
    row: &Row,
) -> Result<(), Fail>
    requires { length plan.now ≡ length case.now.book.lines }
{
    assert!(rt; first_unpermitted(&case.book, plan).is_none());
    assert!(rt; first_short(&case.book, plan).is_none());
    assert_eq!(rt;
        summary(alloc, case, plan, row.gap)?.as_slice(),
        row.summary
    );
    assert_eq!(rt; report(alloc, case, plan, row.gap)?.as_slice(), row.report);
    Ok(())
}

// The texts of a row are these.
fn is_reported(rt: &impl Abort, alloc: Global, row: &Row) -> Result<(), Fail> {
    let case = case_of(rt, alloc, row)?;
    let plan = plan_with(rt, alloc, &case.book, row.units)?;
    are_texts(rt, alloc, &case, &plan, row)
}

#[test]
fn escrows_are_reported(rt: HostRuntime) -> Result<(), Fail> {
    let rows = [
        Row {
            issue: b"settle,2025-01-15\nneed,2025-04-15,5000.00\nrestricted,4.00\n",
            rates: b"terms,1000,100\noffer,2025-04-15,0.00,,10000\n",
            prices: b"",
            units: &[0, 50],
            gap: Cents(0),
            summary: b"cost 5000.00\nyield 0.00000000 0.00000000\nlimit 4.00100000\ngap 0.00\n",
            report: b"escrow report\nsettlement 2025-01-15\n\
                buy 1 certificate 2025-04-15 0.000 5000.00 5000.00\ncash 0.00\n\
                cost 5000.00\nyield 0.00000000 0.00000000\nlimit 4.00100000\ngap 0.00\n\
                pay 1 2025-04-15 5000.00\n\
                date 2025-01-15 0.00 0.00 0.00\ndate 2025-04-15 5000.00 5000.00 0.00\n\
                proof 2025-04-15 5000.00 5000.00 5000.00\nend\n",
        },
        Row {
            issue: b"settle,2025-01-15\nneed,2025-07-15,102000.00\nrestricted,4.00\nallowance,0.01\n",
            rates: b"",
            prices: b"terms,1000,1000\nnote,2025-07-15,4.000,100,200000\n",
            units: &[0, 100],
            gap: Cents(1),
            summary: b"cost 100000.00\nyield 3.99999999 4.00000001\nlimit 4.00100000\ngap 0.01\n",
            report: b"escrow report\nsettlement 2025-01-15\n\
                buy 1 market 2025-07-15 4.000 100000.00 100000.00\ncash 0.00\n\
                cost 100000.00\nyield 3.99999999 4.00000001\nlimit 4.00100000\ngap 0.01\n\
                pay 1 2025-07-15 102000.00\n\
                date 2025-01-15 0.00 0.00 0.00\ndate 2025-07-15 102000.00 102000.00 0.00\n\
                proof 2025-07-15 102000.00 100000.00 100000.00\nend\n",
        },
        Row {
            issue: b"settle,2025-01-15\nneed,2025-07-15,1050.00\nneed,2026-01-15,60.00\ncash,50.00\nrestricted,4.00\n",
            rates: b"terms,1000,100\nrate,2025-02-14,2026-07-15,4.00\noffer,2025-04-15,0,,10000\n\
                offer,2026-07-15,4.00,,10000\noffer,2026-01-15,4.00,,10000\n",
            prices: b"",
            units: &[5_000, 10, 20, 0],
            gap: Cents(12_345),
            summary: b"cost 3050.00\nyield 3.68579668 3.68579669\nlimit 4.00100000\ngap 123.45\n",
            report: b"escrow report\nsettlement 2025-01-15\n\
                buy 1 certificate 2025-04-15 0.000 1000.00 1000.00\n\
                buy 2 note 2026-07-15 4.000 2000.00 2000.00\ncash 50.00\n\
                cost 3050.00\nyield 3.68579668 3.68579669\nlimit 4.00100000\ngap 123.45\n\
                pay 1 2025-04-15 1000.00\npay 2 2025-07-15 40.00\npay 2 2026-01-15 40.00\npay 2 2026-07-15 2040.00\n\
                date 2025-01-15 50.00 0.00 50.00\nidle 2025-01-15 2025-04-15 50.00\n\
                date 2025-04-15 1000.00 0.00 1050.00\nidle 2025-04-15 2025-07-15 1050.00\n\
                date 2025-07-15 40.00 1050.00 40.00\nidle 2025-07-15 2026-01-15 40.00\n\
                date 2026-01-15 40.00 60.00 20.00\nidle 2026-01-15 2026-07-15 20.00\n\
                date 2026-07-15 2040.00 0.00 2060.00\n\
                proof 2025-04-15 1000.00 990.91 990.92\nproof 2025-07-15 40.00 39.27 39.28\n\
                proof 2026-01-15 40.00 38.56 38.57\nproof 2026-07-15 2040.00 1931.24 1931.25\nend\n",
        },
        // The certificate's day is closed, and three of the note's four are of weekends: purchases show their maturities, and
        // all else the open days.
        Row {
            issue: b"settle,2025-01-15\nneed,2025-04-16,1000.00\nneed,2026-08-17,1020.00\nrestricted,4.00\n\
                weekends\nclosed,2025-04-15\n",
            rates: b"terms,1000,100\noffer,2025-04-15,0.00,,10000\n",
            prices: b"terms,1000,100\nnote,2026-08-15,4.000,100,200000\n",
            units: &[0, 10, 10],
            gap: Cents(0),
            summary: b"cost 2016.63\nyield 3.42869892 3.42869893\nlimit 4.00100000\ngap 0.00\n",
            report: b"escrow report\nsettlement 2025-01-15\n\
                buy 1 certificate 2025-04-15 0.000 1000.00 1000.00\n\
                buy 2 market 2026-08-15 4.000 1000.00 1016.63\ncash 0.00\n\
                cost 2016.63\nyield 3.42869892 3.42869893\nlimit 4.00100000\ngap 0.00\n\
                pay 1 2025-04-16 1000.00\npay 2 2025-02-17 20.00\npay 2 2025-08-15 20.00\npay 2 2026-02-16 20.00\n\
                pay 2 2026-08-17 1020.00\n\
                date 2025-01-15 0.00 0.00 0.00\ndate 2025-02-17 20.00 0.00 20.00\nidle 2025-02-17 2025-04-16 20.00\n\
                date 2025-04-16 1000.00 1000.00 20.00\nidle 2025-04-16 2025-08-15 20.00\n\
                date 2025-08-15 20.00 0.00 40.00\nidle 2025-08-15 2026-02-16 40.00\n\
                date 2026-02-16 20.00 0.00 60.00\nidle 2026-02-16 2026-08-17 60.00\n\
                date 2026-08-17 1020.00 1020.00 60.00\n\
                proof 2025-02-17 20.00 19.93 19.94\nproof 2025-04-16 1000.00 991.44 991.45\n\
                proof 2025-08-15 20.00 19.60 19.61\nproof 2026-02-16 20.00 19.27 19.28\n\
                proof 2026-08-17 1020.00 966.36 966.37\nend\n",
        },
    ];
    for row in &rows {
        is_reported(&rt, rt.alloc(), row)?;
    }
    Ok(())
}
