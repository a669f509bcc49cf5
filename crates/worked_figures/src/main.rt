//! Tries the worked figures of sheets: numbers and days as text, requests, powers, yields, payments, rates and notes.
//!
//! A figure is a line of a file in `data/`, which `docs/DEVELOPING.md` explains. Amounts stand in cents and yields in
//! units of 10^-10.
#![tactic(auto)]

mod days;
mod notes;
mod numbers;
mod payments;
mod powers;
mod rates;
mod requests;
mod subject;
mod yields;

use figure_sheets::told;
use std::{env, fs};
use subject::Subject;

fn main(rt: HostRuntime) -> anyhow::Result<()> {
    for name in env::args(&rt)?.skip(1) {
        let text = fs::read_to_string(&rt, name.as_str()).ok();
        let told = told::<Subject>(
            rt.alloc(),
            name.as_str(),
            text.as_ref().map(|text| text.as_str()),
        )?;
        print!(rt; "{told}")?;
    }
    Ok(())
}
