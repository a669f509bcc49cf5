//! Worked figures of certificates' texts, and of the pools of a search's nodes.
//!
//! They stand in the sheets of `data/`, a line a call; `docs/DEVELOPING.md` says how to add one.
#![tactic(auto)]

mod arguments;
mod deep;
mod drawn;
mod items;
mod leaves;
mod pools;
mod texts;

use arguments::dates_of;
use deep::deep;
use drawn::drawn;
use figure_sheets::{Figures, Part, Unread, bytes_of, number_of, told};
use items::items;
use leaves::{put, zeros};
use pools::steps;
use std::alloc::Global;
use std::{env, fs};
use texts::{Rewriting, Version, changed_text, fault, fault_by, rewritten};

// The calls of the sheets, which are about no part.
#[derive(Drop)]
struct Certificates;

// How a text is read or written: what a call about one does.
#[derive(Clone, Copy)]
enum Reading {
    // Its fault, by all readers.
    Any,
    // Its fault, by the reader of a version alone.
    By(Version),
    // What it becomes.
    As(Rewriting),
}

// What a call about a text comes to.
fn read_text(alloc: Global, reading: Reading, dates: &str, text: &str) -> Result<String, Unread> {
    let dates = dates_of(dates)?;
    let text = bytes_of(alloc, text)?;
    match reading {
        Reading::Any => fault(alloc, text.as_slice(), dates),
        Reading::By(version) => fault_by(alloc, text.as_slice(), dates, version),
        Reading::As(rewriting) => rewritten(alloc, text.as_slice(), dates, rewriting),
    }
}

// The fault of a text of a front, a part so many times, and a line feed.
fn long_fault(
    alloc: Global,
    dates: &str,
    front: &str,
    part: &str,
    times: &str,
) -> Result<String, Unread> {
    let dates = dates_of(dates)?;
    let times: u16 = times.parse().map_err(|_| Unread::Argument)?;
    let mut text = bytes_of(alloc, front)?;
    let part = bytes_of(alloc, part)?;
    for _ in 0..times {
        text.extend_from_slice(part.as_slice())?;
    }
    text.push(b'\n')?;
    fault(alloc, text.as_slice(), dates)
}

// A leaf of which each price is another than its vector's, read and written.
fn changed(alloc: Global, dates: &str, old: &str, new: &str) -> Result<String, Unread> {
    let dates = dates_of(dates)?;
    let text = changed_text(alloc, dates, number_of(old)?, number_of(new)?)?;
    rewritten(alloc, text.as_bytes(), dates, Rewriting::Written)
}

impl Figures for Certificates {
    fn read(_alloc: Global, parts: &[Part]) -> Result<Certificates, Unread> {
        if parts.is_empty() {
            Ok(Certificates)
        } else {
            Err(Unread::Part)
        }
    }

    fn answer(&self, alloc: Global, words: &[&str]) -> Result<String, Unread> {
        match words {
            ["fault", dates, text] => read_text(alloc, Reading::Any, dates, text),
            ["plain", dates, text] => read_text(alloc, Reading::By(Version::Plain), dates, text),
            ["packed", dates, text] => read_text(alloc, Reading::By(Version::Packed), dates, text),
            ["pack", dates, text] => read_text(alloc, Reading::As(Rewriting::Packed), dates, text),
            ["repack", dates, text] => {
                read_text(alloc, Reading::As(Rewriting::PackedAgain), dates, text)
            }
            ["write", dates, text] => read_text(
                alloc,
                Reading::As(Rewriting::Written),
                dates,
                text,
            ),
            ["long", dates, front, part, times] => long_fault(alloc, dates, front, part, times),
            ["changed", dates, old, new] => changed(alloc, dates, old, new),
            ["items", dates, pieces @ ..] => items(alloc, pieces, dates_of(dates)?),
            ["zeros", whole, dates] => zeros(alloc, whole, dates),
            ["put", place, price, prices @ ..] => put(alloc, place, price, prices),
            ["pool", capacity, key, words @ ..] => steps(alloc, capacity, key, words),
            ["drawn", splits, below] => drawn(alloc, splits, below),
            ["deepest", cents, side, splits] => deep(alloc, cents, side, splits),
            _ => Err(Unread::NoCall),
        }
    }
}

fn main(rt: HostRuntime) -> anyhow::Result<()> {
    for name in env::args(&rt)?.skip(1) {
        let text = fs::read_to_string(&rt, name.as_str()).ok();
        let text = text.as_ref().map(|text| text.as_str());
        rt.print(told::<Certificates>(rt.alloc(), name.as_str(), text)?)?;
    }
    Ok(())
}
