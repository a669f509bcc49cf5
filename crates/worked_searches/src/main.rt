//! Worked figures of searches: of better leaves, of plans that are found, and of what a search comes to.
//!
//! They stand in the sheets of `data/`, a line a call; `docs/DEVELOPING.md` says how to add one.
#![tactic(auto)]

mod improved;
mod plans;
mod searches;

use figure_cases::Files;
use figure_sheets::{Figures, Part, Unread, told};
use improved::improved;
use plans::{dives, found};
use searches::searched;
use std::alloc::Global;
use std::{env, fs};

// What the calls of a sheet are about: a case, and the case of a search before its own, if there is one.
#[derive(Drop)]
struct SearchFigures {
    files: Files,
    before: Option<Files>,
}

impl Figures for SearchFigures {
    fn read(alloc: Global, parts: &[Part]) -> Result<SearchFigures, Unread> {
        Ok(SearchFigures {
            files: Files::of(alloc, parts)?,
            before: Files::before(alloc, parts)?,
        })
    }

    fn answer(&self, alloc: Global, words: &[&str]) -> Result<String, Unread> {
        let case = self.files.case(alloc)?;
        match words {
            ["improved", whole] => improved(alloc, &case, whole),
            ["find", limit] => found(alloc, &case.book, limit),
            ["dive", limit, dives_words @ ..] => dives(alloc, &case.book, limit, dives_words),
            ["search"] => searched(alloc, &case, self.before.as_ref()),
            _ => Err(Unread::NoCall),
        }
    }
}

fn main(rt: HostRuntime) -> anyhow::Result<()> {
    for name in env::args(&rt)?.skip(1) {
        let text = fs::read_to_string(&rt, name.as_str()).ok();
        let text = text.as_ref().map(|text| text.as_str());
        rt.print(told::<SearchFigures>(rt.alloc(), name.as_str(), text)?)?;
    }
    Ok(())
}
