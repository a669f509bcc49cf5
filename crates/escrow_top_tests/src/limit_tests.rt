//! Limits whose files have lines that differ, and a certificate that is cut off after each number of bytes. Other limits are cases of
//! `escrow_cases`.

use crate::test_runs::{CHECK, FIRST, FIRST_TEXT, Files, named, outcome_of};
use certificate_answers::Status;
use escrow_desk::MemoryDesk;
use escrow_top::run;
use escrow_units::{Day, print_day};
use std::alloc::Global;
use std::process::Abort;
use std::test::Fail;

// The need date of the first case.
const FIRST_DATE: i32 = 20_193;

// The line is one more than the number of line feeds that are left.
#[test]
fn certificates_cut_off(rt: HostRuntime) -> Result<(), Fail> {
    let alloc = rt.alloc();
    for length in 0..FIRST.cert.len() {
        let cert = &FIRST.cert[..length];
        let line = 1 + cert.iter().filter(|byte| **byte == b'\n').count();
        let ran = outcome_of(alloc, &CHECK, &Files { cert, ..FIRST }, u64::MAX)?;
        let mut said = Vec::from_slice(alloc, b"no Grammar ")?;
        said.extend_from_slice(line.to_string(alloc)?.as_bytes())?;
        said.extend_from_slice(b" Truncated\n")?;
        assert_eq!(rt; ran.status, Status::No, "after {length} bytes");
        assert_eq!(rt; ran.desk.said(), said.as_slice(), "after {length} bytes");
    }
    Ok(())
}

// The bytes of the four files, as a test builds them.
#[derive(Drop)]
struct Built {
    issue: Vec<u8>,
    rates: Vec<u8>,
    cert: Vec<u8>,
}

fn first(alloc: Global) -> Result<Built, Fail> {
    Ok(Built {
        issue: Vec::from_slice(alloc, FIRST.issue)?,
        rates: Vec::from_slice(alloc, FIRST.rates)?,
        cert: Vec::from_slice(alloc, FIRST.cert)?,
    })
}

// What `check` says of files.
fn try_built(
    rt: &impl Abort,
    alloc: Global,
    built: &Built,
    status: Status,
    said: &[u8],
) -> Result<(), Fail> {
    let issue = named(alloc, "i", built.issue.as_slice())?;
    let rates = named(alloc, "r", built.rates.as_slice())?;
    let prices = named(alloc, "p", b"")?;
    let cert = named(alloc, "c", built.cert.as_slice())?;
    let files = vec![in alloc; issue, rates, prices, cert]?;
    let mut desk = MemoryDesk::make(alloc, files, Vec::new(alloc));
    let mut words = Vec::new(alloc);
    for word in &CHECK {
        words.push(String::from_str(alloc, word)?)?;
    }
    assert_eq!(rt; run(alloc, words.as_slice(), &mut desk), status);
    assert_eq!(rt; desk.said(), said);
    Ok(())
}

// So many needs, each on a day of its own.
fn with_needs(alloc: Global, needs: u16) -> Result<Built, Fail> {
    let mut built = first(alloc)?;
    built.issue.truncate(0);
    built
        .issue
        .extend_from_slice(b"settle,2025-01-15\nrestricted,4.00\n")?;
    for after in 0..needs {
        built.issue.extend_from_slice(b"need,")?;
        built.issue.extend_from_slice(print_day(Day::new(
            FIRST_DATE + i32::from(after),
        )).as_bytes())?;
        built.issue.extend_from_slice(b",1.00\n")?;
    }
    Ok(built)
}

#[test]
fn most_need_dates(rt: HostRuntime) -> Result<(), Fail> {
    let alloc = rt.alloc();
    // The leaf has a price for one need date.
    let most = with_needs(alloc, 480)?;
    try_built(&rt, alloc, &most, Status::No, b"no Grammar 6 Count\n")?;
    let more = with_needs(alloc, 481)?;
    let said = b"refused issue row 0 TooManyDates\n";
    try_built(&rt, alloc, &more, Status::Refused, said)
}

// So many offers, all alike.
fn with_offers(alloc: Global, offers: u32) -> Result<Built, Fail> {
    let mut built = first(alloc)?;
    for _ in 1..offers {
        built
            .rates
            .extend_from_slice(b"offer,2025-04-15,0.00,,10000\n")?;
    }
    Ok(built)
}

// The purchases of ten steps of each of so many offers.
fn push_purchases(cert: &mut Vec<u8>, alloc: Global, offers: u32) -> Result<(), Fail> {
    for line in 0..offers {
        cert.extend_from_slice(b"buy ")?;
        cert.extend_from_slice((line + 1).to_string(alloc)?.as_bytes())?;
        cert.extend_from_slice(b" 10\n")?;
    }
    Ok(())
}

// A certificate of version 2 buys of each of 512 offers, and a dollar of opening cash.
#[test]
fn most_purchases(rt: HostRuntime) -> Result<(), Fail> {
    let alloc = rt.alloc();
    let mut built = with_offers(alloc, 512)?;
    built.issue = Vec::from_slice(
        alloc,
        b"settle,2025-01-15\ncash,1.00\nneed,2025-04-15,512001.00\nrestricted,4.00\n",
    )?;
    built.cert = Vec::from_slice(alloc, b"escrow-certificate 2\nportfolio 513\nbuy 0 100\n")?;
    push_purchases(&mut built.cert, alloc, 512)?;
    built.cert.extend_from_slice(b"gap 0\nvectors 1\nv 1000000000000\nnodes 1\nl 1 0 1\nend\n")?;
    let said = b"yes\ncost 512001.00\nyield 0.00000000 0.00000000\nlimit 4.00100000\ngap 0.00\n";
    try_built(&rt, alloc, &built, Status::Done, said)
}

// A tree of 9,999 nodes: the one line is split at each number of dollars from 1,001 to 5,999.
#[test]
fn largest_tree(rt: HostRuntime) -> Result<(), Fail> {
    let alloc = rt.alloc();
    let leaf = b"l 1 0 1000000000000\n";
    let mut built = first(alloc)?;
    built.rates = Vec::from_slice(alloc, b"terms,1000,1\noffer,2025-04-15,0.00,,10000\n")?;
    built.cert = Vec::from_slice(
        alloc,
        b"escrow-certificate 1\nportfolio 1\nbuy 1 5000\ngap 0\nnodes 9999\n",
    )?;
    for at in 1_001..6_000u32 {
        built.cert.extend_from_slice(b"s 1 ")?;
        built
            .cert
            .extend_from_slice(at.to_string(alloc)?.as_bytes())?;
        built.cert.push(b'\n')?;
        built.cert.extend_from_slice(leaf)?;
    }
    built.cert.extend_from_slice(leaf)?;
    built.cert.extend_from_slice(b"end\n")?;
    try_built(&rt, alloc, &built, Status::Done, FIRST_TEXT)
}
