//! Whole runs of `make` over a desk in memory.

use crate::test_runs::{FIRST, Files, Outcome, outcome_of};
use case_maker::{Made, make};
use certificate_answers::Status;
use escrow_top::run;
use std::alloc::Global;
use std::process::Abort;
use std::test::Fail;

const MAKE: [&str; 5] = ["make", "7", "i", "r", "p"];

// The files that stand before a run.
const BEFORE: Files = Files {
    prices: b"terms,1000,1000\n",
    cert: b"x",
    ..FIRST
};

// The files of the case of 7 stand whole under the names of a desk that was left, and the others as they were.
fn stands(rt: &impl Abort, ran: &Outcome, made: &Made) {
    assert_eq!(rt; ran.desk.bytes_of("i"), Some(made.issue.as_slice()));
    assert_eq!(rt; ran.desk.bytes_of("r"), Some(made.rates.as_slice()));
    assert_eq!(rt; ran.desk.bytes_of("p"), Some(made.prices.as_slice()));
    assert_eq!(rt; ran.desk.bytes_of("c"), Some(BEFORE.cert));
}

// The case of 7 is made, and then structured from its files, with a tree of one node each time.
#[test]
fn made_and_structured(rt: HostRuntime) -> Result<(), Fail> {
    let alloc = rt.alloc();
    let ran = outcome_of(alloc, &MAKE, &BEFORE, u64::MAX)?;
    assert_eq!(rt; ran.status, Status::Done);
    stands(&rt, &ran, &make(alloc, 7)?);
    let rates = ran.desk.bytes_of("r").unwrap_or(b"");
    assert!(rt; rates.starts_with(b"terms,1000,1\nrate,2026-02-14,2046-01-15,4.78\noffer,"));
    let said = ran.desk.said();
    assert!(rt; said.starts_with(b"number 7\ncost "));
    assert!(rt; said.ends_with(b"nodes 1\n"));
    let mut desk = ran.desk;
    let mut words = Vec::new(alloc);
    for word in &["structure", "i", "r", "p", "c"] {
        words.push(String::from_str(alloc, word)?)?;
    }
    assert_eq!(rt; run(alloc, words.as_slice(), &mut desk), Status::Done);
    let cert = desk.bytes_of("c").unwrap_or(b"");
    let nodes = cert
        .split(|byte| *byte == b'\n')
        .any(|line| line == b"nodes 1".as_slice());
    assert!(rt; nodes);
    Ok(())
}

// A number, how what is said begins, and how the rates begin, whose greatest rate was worked out apart from this program.
#[derive(Clone, Copy)]
struct Row {
    number: &'static str,
    said: &'static [u8],
    rates: &'static [u8],
}

#[test]
fn numbers(rt: HostRuntime) -> Result<(), Fail> {
    let rows = [
        Row {
            number: "0",
            said: b"number 0\ncost ",
            rates: b"terms,1000,1\nrate,2026-02-14,2046-01-15,3.07\n",
        },
        Row {
            number: "1",
            said: b"number 1\ncost ",
            rates: b"terms,1000,1\nrate,2026-02-14,2046-01-15,2.74\n",
        },
        Row {
            number: "18446744073709551615",
            said: b"number 18446744073709551615\ncost ",
            rates: b"terms,1000,1\nrate,2026-02-14,2046-01-15,2.88\n",
        },
    ];
    for row in &rows {
        let words = ["make", row.number, "i", "r", "p"];
        let ran = outcome_of(rt.alloc(), &words, &BEFORE, u64::MAX)?;
        assert_eq!(rt; ran.status, Status::Done);
        assert!(rt; ran.desk.said().starts_with(row.said));
        assert!(rt; ran.desk.bytes_of("r").unwrap_or(b"").starts_with(row.rates));
    }
    Ok(())
}

// Of equal names the later text stands.
#[test]
fn equal_names(rt: HostRuntime) -> Result<(), Fail> {
    let made = make(rt.alloc(), 7)?;
    let rows = [
        (["make", "7", "x", "x", "x"], made.prices.as_slice()),
        (["make", "7", "x", "x", "p"], made.rates.as_slice()),
        (["make", "7", "x", "r", "x"], made.prices.as_slice()),
        (["make", "7", "i", "x", "x"], made.prices.as_slice()),
    ];
    for (words, text) in &rows {
        let ran = outcome_of(rt.alloc(), words, &BEFORE, u64::MAX)?;
        assert_eq!(rt; ran.status, Status::Done);
        assert_eq!(rt; ran.desk.bytes_of("x"), Some(*text));
    }
    Ok(())
}

// What a file holds after a call failed.
#[derive(Clone, Copy)]
enum Holds {
    Before,
    Nothing,
    Text,
}

// Whether bytes are those that a file held before, none, or those of its text.
fn are(bytes: &[u8], holds: Holds, before: &[u8], text: &[u8]) -> bool {
    match holds {
        Holds::Before => bytes == before,
        Holds::Nothing => bytes.is_empty(),
        Holds::Text => bytes == text,
    }
}

// After the failure of a call: of the files in their order, each is whole up to the one at fault, and later ones are as before.
#[test]
fn each_call_of_make_fails_in_turn(rt: HostRuntime) -> Result<(), Fail> {
    let made = make(rt.alloc(), 7)?;
    let rows = [
        [Holds::Before, Holds::Before, Holds::Before],
        [Holds::Nothing, Holds::Before, Holds::Before],
        [Holds::Text, Holds::Before, Holds::Before],
        [Holds::Text, Holds::Nothing, Holds::Before],
        [Holds::Text, Holds::Text, Holds::Before],
        [Holds::Text, Holds::Text, Holds::Nothing],
        [Holds::Text, Holds::Text, Holds::Text],
    ];
    for (call, row) in rows.iter().enumerate() {
        let ran = outcome_of(rt.alloc(), &MAKE, &BEFORE, call as u64)?;
        assert_eq!(rt; ran.status, Status::WriteFault);
        assert_eq!(rt; ran.desk.said(), b"".as_slice());
        assert_eq!(rt; ran.desk.calls(), call as u64 + 1);
        let issue = ran.desk.bytes_of("i").unwrap_or(b"missing");
        let rates = ran.desk.bytes_of("r").unwrap_or(b"missing");
        let prices = ran.desk.bytes_of("p").unwrap_or(b"missing");
        assert!(rt;
            are(issue, row[0], BEFORE.issue, made.issue.as_slice()),
            "call {call}"
        );
        assert!(rt;
            are(rates, row[1], BEFORE.rates, made.rates.as_slice()),
            "call {call}"
        );
        assert!(rt;
            are(prices, row[2], BEFORE.prices, made.prices.as_slice()),
            "call {call}"
        );
    }
    let whole = outcome_of(rt.alloc(), &MAKE, &BEFORE, 7)?;
    assert_eq!(rt; whole.status, Status::Done);
    assert_eq!(rt; whole.desk.calls(), 7);
    stands(&rt, &whole, &made);
    Ok(())
}
