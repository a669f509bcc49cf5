//! Tries the worked figures of sheets: what an issue needs, what the lines of a case cost and pay, and what a portfolio
//! of them comes to.
//!
//! A figure is a line of a file in `data/`, which `docs/DEVELOPING.md` explains. The parts of a sheet are the files of
//! a case. Amounts stand in cents and yields in units of 10^-10.
#![tactic(auto)]

mod files;
mod issue;
mod lines;
mod portfolio;

use figure_sheets::told;
use files::Files;
use std::{env, fs};

fn main(rt: HostRuntime) -> anyhow::Result<()> {
    for name in env::args(&rt)?.skip(1) {
        let text = fs::read_to_string(&rt, name.as_str()).ok();
        let text = text.as_ref().map(|text| text.as_str());
        print!(rt; "{}", told::<Files>(rt.alloc(), name.as_str(), text)?)?;
    }
    Ok(())
}
