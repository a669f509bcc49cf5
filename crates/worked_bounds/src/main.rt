//! Worked figures of bounds, of what is built from offers, and of verdicts on certificates.
//!
//! They stand in the sheets of `data/`, a line a call; `docs/DEVELOPING.md` says how to add one.
#![tactic(auto)]

mod bounds;
mod plans;
mod verdicts;

use bounds::{bounds, needs};
use figure_cases::Files;
use figure_sheets::{Figures, Part, Unread, bytes_of, told};
use plans::{built, curve, own, trimmed, trimmed_by_cost, trimmed_by_leaf};
use std::alloc::Global;
use std::{env, fs};
use verdicts::judged;

// What the calls of a sheet are about: a case.
#[derive(Drop)]
struct CaseFigures {
    files: Files,
}

impl Figures for CaseFigures {
    fn read(alloc: Global, parts: &[Part]) -> Result<CaseFigures, Unread> {
        let files = Files::of(alloc, parts)?;
        Ok(CaseFigures { files })
    }

    fn answer(&self, alloc: Global, words: &[&str]) -> Result<String, Unread> {
        let case = self.files.case(alloc)?;
        match words {
            ["bound", leaves @ ..] => bounds(alloc, &case, leaves),
            ["needs", leaf @ ..] => needs(alloc, &case, leaf),
            ["own", place] => own(alloc, &case.book, place),
            ["curve"] => curve(alloc, &case.book),
            ["build"] => built(alloc, &case.book),
            ["trim", units @ ..] => trimmed(alloc, &case.book, units),
            ["trim-by-cost", units @ ..] => trimmed_by_cost(alloc, &case.book, units),
            ["trim-by-leaf", words @ ..] => trimmed_by_leaf(alloc, &case.book, words),
            ["check", text] => judged(alloc, &case, bytes_of(alloc, text)?.as_slice()),
            _ => Err(Unread::NoCall),
        }
    }
}

fn main(rt: HostRuntime) -> anyhow::Result<()> {
    for name in env::args(&rt)?.skip(1) {
        let text = fs::read_to_string(&rt, name.as_str()).ok();
        let text = text.as_ref().map(|text| text.as_str());
        rt.print(told::<CaseFigures>(rt.alloc(), name.as_str(), text)?)?;
    }
    Ok(())
}
