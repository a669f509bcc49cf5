//! Worked figures. Settlement is on 2025-01-15.

ghost use Rattle.std.specs.Prelude.{◌≡◌, ◌≤◌, IfOk};
ghost use Rattle.escrow_units.specs.DayNumber.{IsDayNumber};
ghost use Rattle.escrow_units.specs.Flows.{ComeInOrder, total};
ghost use Rattle.day_sums.specs.Summed.{on as on_day};

use case_file::{Case, read_case};
use escrow_desk::{FILE_LIMIT, read_rows};
use escrow_units::{AMOUNT_LIMIT, Cents, Day, Flow};
use held_escrow::{held_case, held_laws, read_held, residual};
use std::alloc::Global;
use std::process::Abort;
use std::test::Fail;

// So many cents on a day, by its number.
fn on(day: i32, cents: u64) -> Flow
    requires { IsDayNumber day }
    ensures { result ≡ on_day day cents }
{
    Flow {
        day: Day::new(day),
        cents: Cents(cents),
    }
}

#[test]
fn holdings_are_summed_by_day(rt: HostRuntime) -> Result<(), Fail> {
    let none = holdings(&rt, rt.alloc(), b"")?;
    assert_eq!(&rt; none.len(), 0);
    // From settlement to 40 years later, and at most 10^13 cents.
    let text =
        b"held,2065-01-15,99999999999.96\nheld,2025-07-15,0\nheld,2025-01-15,0.01\nheld,2025-01-15,0.03\n";
    let expected = [on(20_103, 4), on(34_713, 9_999_999_999_996)];
    let held = holdings(&rt, rt.alloc(), text)?;
    assert_eq!(&rt; held.as_slice(), expected.as_slice());
    Ok(())
}

// The holdings of a text that isn't refused.
fn holdings(rt: &impl Abort, alloc: Global, text: &[u8]) -> Result<Vec<Flow>, Fail>
    ensures order { IfOk result (λ held. ComeInOrder held.items) }
    ensures sum { IfOk result (λ held. total held.items ≤ AMOUNT_LIMIT) }
{
    assert!(rt; text.len() as u64 <= FILE_LIMIT);
    let rows = read_rows(alloc, text)?;
    match read_held(alloc, Day::new(20_103), &rows) {
        Ok(held) => Ok(held),
        Err(_) => Err(Fail::new("refused")),
    }
}

// Needs and holdings, and what is still needed beside them, each as rows of holdings.
#[derive(Clone, Copy)]
struct Beside {
    needs: &'static [u8],
    held: &'static [u8],
    left: &'static [u8],
}

// What is still needed is as a row says.
fn is_left(rt: &impl Abort, alloc: Global, beside: &Beside) -> Result<(), Fail> {
    let needs = holdings(rt, alloc, beside.needs)?;
    let held = holdings(rt, alloc, beside.held)?;
    let left = holdings(rt, alloc, beside.left)?;
    let residual = residual(alloc, needs.as_slice(), held.as_slice())?;
    assert_eq!(rt; residual.as_slice(), left.as_slice());
    Ok(())
}

#[test]
fn what_is_still_needed(rt: HostRuntime) -> Result<(), Fail> {
    held_laws();
    let two: &'static [u8] = b"held,2025-04-15,5000.00\nheld,2025-07-15,2000.00\n";
    let rows = [
        Beside {
            needs: two,
            held: b"held,2025-04-15,6000.00\n",
            left: b"held,2025-07-15,1000.00\n",
        },
        // A day late for the first need.
        Beside {
            needs: two,
            held: b"held,2025-04-16,6000.00\n",
            left: b"held,2025-04-15,5000.00\n",
        },
        // All needs, and a cent less; before the first need, and on the last.
        Beside {
            needs: two,
            held: b"held,2025-01-15,7000.00\n",
            left: b"",
        },
        Beside {
            needs: two,
            held: b"held,2025-01-15,6999.99\n",
            left: b"held,2025-07-15,0.01\n",
        },
        Beside {
            needs: two,
            held: b"held,2025-04-15,5000.00\nheld,2025-07-15,2000.01\n",
            left: b"",
        },
        // Nothing is held, or needed.
        Beside {
            needs: two,
            held: b"",
            left: two,
        },
        Beside {
            needs: b"",
            held: two,
            left: b"",
        },
        // The shortfall falls and grows again: 100, 50, 150 and 150 dollars.
        Beside {
            needs: b"held,2025-04-15,100\nheld,2025-07-15,100\nheld,2025-10-15,100\nheld,2026-01-15,100\n",
            held: b"held,2025-07-01,150\nheld,2025-12-31,100\nheld,2026-02-01,1\n",
            left: b"held,2025-04-15,100\nheld,2025-10-15,50\n",
        },
        // The most.
        Beside {
            needs: b"held,2025-04-15,100000000000\n",
            held: b"held,2025-04-15,0.01\nheld,2025-04-16,99999999999.99\n",
            left: b"held,2025-04-15,99999999999.99\n",
        },
    ];
    for row in &rows {
        is_left(&rt, rt.alloc(), row)?;
    }
    Ok(())
}

const ISSUE: &[u8] =
    b"settle,2025-01-15\nneed,2025-04-15,5000.00\nneed,2025-07-15,2000.00\nrestricted,4.00\nallowance,0.01\nbudget,7\nweekends\nclosed,2025-07-04\n";

const RATES: &[u8] = b"terms,1000,100\noffer,2025-04-15,0.00,,10000\n";

// The case of the files beside holdings.
fn kept_case(rt: &impl Abort, alloc: Global, text: &[u8]) -> Result<Case, Fail> {
    let case = read_case(alloc, ISSUE, RATES, b"")?;
    let held = holdings(rt, alloc, text)?;
    Ok(held_case(alloc, &case, held.as_slice())?)
}

#[test]
fn a_case_beside_holdings(rt: HostRuntime) -> Result<(), Fail> {
    let case = kept_case(&rt, rt.alloc(), b"held,2025-04-15,6000.00\n")?;
    let left = [on(20_284, 100_000)];
    assert_eq!(&rt; case.book.needs(), left.as_slice());
    assert_eq!(&rt; case.book.settle(), Day::new(20_103));
    assert!(&rt; case.book.closed().weekends());
    assert_eq!(&rt; case.book.closed().days().len(), 1);
    assert_eq!(&rt; case.book.line_count(), 2);
    assert_eq!(&rt; case.book.line(1).most, 100);
    assert_eq!(&rt; case.limit.0, 400_100_000);
    assert_eq!(&rt; case.allowance, Cents(1));
    assert_eq!(&rt; case.budget, 7);
    // Holdings above all needs.
    let case = kept_case(&rt, rt.alloc(), b"held,2025-01-15,7000.01\n")?;
    assert_eq!(&rt; case.book.need_count(), 0);
    // Nothing is held.
    let case = kept_case(&rt, rt.alloc(), b"")?;
    let needs = [on(20_193, 500_000), on(20_284, 200_000)];
    assert_eq!(&rt; case.book.needs(), needs.as_slice());
    Ok(())
}
