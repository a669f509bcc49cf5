//! Tries cases of the program's one call over desks in memory, and says of each whether it ended as wanted.
//!
//! A case is some lines of a file in `data/`, which `CONTRIBUTING.md` explains.
#![tactic(auto)]

mod case;
mod escaped;
mod trial;
mod unread;

use case::{Case, read_cases};
use std::{env, fs};
use trial::{Outcome, try_case};

// Tries each case of a file in its order.
fn try_cases(rt: &HostRuntime, cases: &[Case]) -> anyhow::Result<()> {
    if cases.is_empty() {
        println!(rt; "no case stands here")?;
    }
    for case in cases {
        match try_case(rt.alloc(), cases, case)? {
            Outcome::AsWanted => println!(rt; "{}: as wanted", case.name)?,
            Outcome::Other(what) => println!(rt; "{}: {what}", case.name)?,
            Outcome::Unread(why) => println!(rt; "{}: not tried: {why}", case.name)?,
        }
    }
    Ok(())
}

fn main(rt: HostRuntime) -> anyhow::Result<()> {
    for name in env::args(&rt)?.skip(1) {
        println!(rt; "== {name}")?;
        match fs::read_to_string(&rt, name.as_str()) {
            Ok(text) => try_cases(&rt, read_cases(rt.alloc(), text.as_str())?.as_slice())?,
            Err(_) => println!(rt; "not tried: the file can't be read")?,
        }
    }
    Ok(())
}
