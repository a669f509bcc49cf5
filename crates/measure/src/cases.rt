//! A case of three files in a folder.

use crate::plans::measure_plans;
use crate::random::try_random;
use crate::roots::{measure_root, measure_steps};
use case_file::{Case, read_case};
use escrow_desk::FILE_LIMIT;
use std::fs::File;
use std::io;
use std::io::Read;

// The bytes of a file in a folder.
fn bytes(rt: &HostRuntime, folder: &str, name: &str) -> io::Result<Vec<u8>> {
    let path = format!(in rt.alloc(); "{folder}/{name}")?;
    let mut file = File::open(rt, path.as_str())?;
    let mut bytes = Vec::new(rt.alloc());
    file.read_to_end(&mut bytes)?;
    Ok(bytes)
}

// The case of a folder; None where its files are refused.
fn case_of(rt: &HostRuntime, folder: &str) -> io::Result<Option<Case>> {
    let issue = bytes(rt, folder, "issue.csv")?;
    let rates = bytes(rt, folder, "rates.csv")?;
    let prices = bytes(rt, folder, "prices.csv")?;
    if issue.len() as u64 > FILE_LIMIT
        || rates.len() as u64 > FILE_LIMIT
        || prices.len() as u64 > FILE_LIMIT
    {
        return Ok(None);
    }
    let read = read_case(
        rt.alloc(),
        issue.as_slice(),
        rates.as_slice(),
        prices.as_slice(),
    );
    match read {
        Ok(case) => Ok(Some(case)),
        Err(_) => Ok(None),
    }
}

/// Measures the case of a folder, or solves so many random programs of it.
pub(crate) fn measure(rt: &HostRuntime, folder: &str, random: Option<u32>) -> io::Result<()> {
    let Some(case) = case_of(rt, folder)? else {
        println!(rt; "{folder}: refused")?;
        return Ok(());
    };
    print!(rt;
        "{folder}: {} dates, {} lines",
        case.book.need_count(),
        case.book.line_count()
    )?;
    if case.limit.0 == 0 || case.limit.0 > 3_000_000_000 {
        println!(rt; ", no limit")?;
        return Ok(());
    }
    if let Some(programs) = random {
        return try_random(rt, &case.book, case.limit, programs);
    }
    measure_root(rt, &case.book, case.limit)?;
    let bound = measure_steps(rt, &case.book, case.limit)?;
    measure_plans(rt, &case.book, case.limit, bound)
}
