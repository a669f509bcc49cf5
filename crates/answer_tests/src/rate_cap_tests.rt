//! Worked figures.

use case_file::{Case, read_case};
use escrow_units::{Cents, Day, Rate};
use rate_cap::{CapSearch, at_cap, cap_laws, search_laws, top_rate};
use std::alloc::Global;
use std::process::Abort;
use std::test::Fail;

const ISSUE: &[u8] = b"settle,2025-01-15\nneed,2025-07-15,1000.00\nrestricted,3.00\n";

// Rates of 4 and 2 percent.
const RATES: &[u8] =
    b"terms,1000,1000\nrate,2025-02-14,2026-01-15,4.00\noffer,2025-07-15,4.00,,2000\noffer,2025-07-15,2.00,,2000\n";

// A note of 4.5 percent.
const PRICES: &[u8] = b"terms,1000,1000\nnote,2025-07-15,4.500,100,200000\n";

// The case of three short files.
fn read(alloc: Global, issue: &[u8], rates: &[u8], prices: &[u8]) -> Result<Case, Fail> {
    if issue.len() > 200 || rates.len() > 200 || prices.len() > 200 {
        return Err(Fail::new("a long file"));
    }
    Ok(read_case(alloc, issue, rates, prices)?)
}

// An issue in which 2025-07-15 is closed, as are weekends.
const CLOSED: &[u8] =
    b"settle,2025-01-15\nneed,2025-07-16,1000.00\nrestricted,3.00\nweekends\nclosed,2025-07-15\n";

// A case at a cap: the rates of its lines, and what 1,000.00 of the first security pays.
#[derive(Clone, Copy)]
struct Capped {
    cap: u32,
    rates: [u32; 3],
    cents: u64,
}

fn try_cap(rt: &impl Abort, alloc: Global, case: &Case, row: &Capped) -> Result<(), Fail> {
    let Ok(at) = at_cap(alloc, case, Rate(row.cap)) else {
        return Err(Fail::new("no memory"));
    };
    assert!(rt; at.book.line_count() == 4);
    assert!(rt; at.book.line(1).rate() == Rate(row.rates[0]));
    assert!(rt; at.book.line(2).rate() == Rate(row.rates[1]));
    assert!(rt; at.book.line(3).rate() == Rate(row.rates[2]));
    assert!(rt; at.book.line(1).most == 2);
    let payments = at.book.line_payments(1, 1);
    assert!(rt; payments.len() == 1);
    assert!(rt; payments[0].cents == Cents(row.cents));
    assert!(rt; at.book.need_count() == 1);
    assert!(rt;
        at.limit == case.limit && at.allowance == case.allowance && at.budget == case.budget
    );
    Ok(())
}

#[test]
fn cases_at_caps(rt: HostRuntime) -> Result<(), Fail> {
    cap_laws();
    let rows = [
        Capped {
            cap: 0,
            rates: [0, 0, 4_500],
            cents: 100_000,
        },
        Capped {
            cap: 2_000,
            rates: [2_000, 2_000, 4_500],
            cents: 100_992,
        },
        Capped {
            cap: 3_020,
            rates: [3_020, 2_000, 4_500],
            cents: 101_498,
        },
        Capped {
            cap: 3_030,
            rates: [3_030, 2_000, 4_500],
            cents: 101_503,
        },
        Capped {
            cap: 4_000,
            rates: [4_000, 2_000, 4_500],
            cents: 101_984,
        },
        Capped {
            cap: 30_000,
            rates: [4_000, 2_000, 4_500],
            cents: 101_984,
        },
    ];
    let case = read(rt.alloc(), ISSUE, RATES, PRICES)?;
    for row in &rows {
        try_cap(&rt, rt.alloc(), &case, row)?;
    }
    Ok(())
}

// At a cap a security is still paid on the next open day.
#[test]
fn closed_days_stay(rt: HostRuntime) -> Result<(), Fail> {
    let case = read(rt.alloc(), CLOSED, RATES, PRICES)?;
    let Ok(at) = at_cap(rt.alloc(), &case, Rate(2_000)) else {
        return Err(Fail::new("no memory"));
    };
    assert!(&rt; at.book.closed().weekends());
    assert_eq!(&rt; at.book.closed().days(), case.book.closed().days());
    assert!(&rt; at.book.line_count() == 4 && at.book.line(1).most == 2);
    let payments = at.book.line_payments(1, 1);
    assert!(&rt; payments.len() == 1);
    assert_eq!(&rt; payments[0].day, Day::new(20_285));
    assert_eq!(&rt; payments[0].cents, Cents(100_992));
    Ok(())
}

#[test]
fn tops(rt: HostRuntime) -> Result<(), Fail> {
    let zero = b"terms,1000,1000\noffer,2025-07-15,0.00,,2000\n";
    assert_eq!(&rt;
        top_rate(&read(rt.alloc(), ISSUE, RATES, PRICES)?),
        Rate(4_000)
    );
    assert_eq!(&rt; top_rate(&read(rt.alloc(), ISSUE, zero, PRICES)?), Rate(0));
    assert_eq!(&rt; top_rate(&read(rt.alloc(), ISSUE, b"", PRICES)?), Rate(0));
    Ok(())
}

// A search below a top, where an escrow is found at each cap up to the greatest, if there is one; and how many caps are told.
#[derive(Clone, Copy)]
struct Walk {
    top: u32,
    greatest: Option<u32>,
    tells: u32,
}

// How many caps are told until nothing more is asked.
fn walked(search: &mut CapSearch, greatest: Option<u32>) -> u32 {
    for tells in 0..15 {
        let Some(cap) = search.ask() else {
            return tells;
        };
        let found = match greatest {
            Some(greatest) => cap.0 <= greatest,
            None => false,
        };
        search.tell(found);
    }
    15
}

fn try_walk(rt: &impl Abort, walk: &Walk) {
    assert!(rt; walk.top <= 30_000 && walk.top % 10 == 0);
    let mut search = CapSearch::start(Rate(walk.top));
    assert!(rt; walked(&mut search, walk.greatest) == walk.tells);
    assert!(rt; search.best() == walk.greatest.map(Rate));
}

#[test]
fn searches(rt: HostRuntime) {
    search_laws();
    let walks = [
        Walk {
            top: 4_000,
            greatest: Some(3_020),
            tells: 11,
        },
        Walk {
            top: 4_000,
            greatest: Some(4_000),
            tells: 1,
        },
        Walk {
            top: 4_000,
            greatest: None,
            tells: 2,
        },
        // A greatest rate of 0 is told once.
        Walk {
            top: 0,
            greatest: Some(0),
            tells: 1,
        },
        Walk {
            top: 0,
            greatest: None,
            tells: 1,
        },
        Walk {
            top: 10,
            greatest: Some(0),
            tells: 2,
        },
        // The most that are told.
        Walk {
            top: 30_000,
            greatest: Some(29_990),
            tells: 14,
        },
        Walk {
            top: 30_000,
            greatest: Some(0),
            tells: 13,
        },
    ];
    for walk in &walks {
        try_walk(&rt, walk);
    }
}
