//! Measures prices and plans: for each folder that is named, with issue.csv, rates.csv and prices.csv, what pricing the root of the
//! case takes and comes to, what a changed range takes, and what plans take and cost. Of the folders behind `--random=COUNT` so
//! many linear programs with ranges that are drawn are solved in place of that. It is no part of the program.
#![tactic(auto)]

mod cases;
mod plans;
mod random;
mod roots;

use std::{env, io};

fn main(rt: HostRuntime) -> io::Result<()> {
    let mut random = None;
    for argument in env::args(&rt)?.skip(1) {
        match argument.as_str().strip_prefix("--random=") {
            Some(count) => random = count.parse().ok(),
            None => cases::measure(&rt, argument.as_str(), random)?,
        }
    }
    Ok(())
}
