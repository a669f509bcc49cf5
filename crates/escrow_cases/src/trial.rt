//! Trying a case.

use crate::case::Case;
use crate::unread::fault_of;
use escrow_desk::{Desk, MemoryDesk};
use escrow_top::run;
use std::alloc::{AllocError, Global};

/// How a case ended.
#[derive(Drop)]
pub enum Outcome {
    /// Status, text and files are those that are wanted.
    AsWanted,
    /// What is otherwise.
    Other(String),
    /// It can't be read, and wasn't tried: why.
    Unread(String),
}

// A file before a run.
#[derive(Drop)]
struct GivenFile<'c> {
    name: &'c str,
    bytes: Vec<u8>,
}

// The most cases of which each is like the next.
const MOST_ALIKE: u32 = 8;

// The calls of the desk that put a file there.
const CALLS_A_FILE: u64 = 2;

// A case behind the one that it is like, that one behind the one that it is like, and so on; none where there are too many, as where
// cases are like each other.
fn alike<'c>(
    alloc: Global,
    cases: &'c [Case],
    case: &'c Case,
) -> Result<Option<Vec<&'c Case>>, AllocError> {
    let mut found = vec![in alloc; case]?;
    let mut next = named_like(cases, case);
    for _ in 0..MOST_ALIKE {
        let Some(other) = next else {
            break;
        };
        found.push(other)?;
        next = named_like(cases, other);
    }
    found.reverse();
    Ok(match next {
        None => Some(found),
        Some(_) => None,
    })
}

// The case that a case is like.
fn named_like<'c>(cases: &'c [Case], case: &'c Case) -> Option<&'c Case> {
    let name = case.like()?;
    cases.iter().find(|other| other.name.as_str() == name)
}

// The files of cases, of which a later one replaces an earlier one of its name.
fn files_of<'c>(alloc: Global, cases: &[&'c Case]) -> Result<Vec<GivenFile<'c>>, AllocError> {
    let mut files: Vec<GivenFile<'c>> = Vec::new(alloc);
    for case in cases {
        for part in &case.parts {
            if let Some(name) = part.name_of("file") {
                files.retain(|file| file.name != name);
                files.push(GivenFile {
                    name,
                    bytes: part.bytes(alloc)?,
                })?;
            }
        }
    }
    Ok(files)
}

// The words that the last of cases gives under a head, of those that give any.
fn words_of(alloc: Global, cases: &[&Case], head: &str) -> Result<Vec<String>, AllocError> {
    let mut words = Vec::new(alloc);
    for case in cases {
        if let Some(part) = case.part(head) {
            words = part.words(alloc)?;
        }
    }
    Ok(words)
}

// A desk that holds the files, and fails the call of a number, counted from 0 behind those that put the files there.
fn desk_of(
    alloc: Global,
    files: &[GivenFile<'_>],
    fails: Option<u64>,
) -> Result<MemoryDesk, AllocError> {
    let mut failing = Vec::new(alloc);
    if let Some(call) = fails {
        failing.push(call.saturating_add(calls_before(files)))?;
    }
    let mut desk = MemoryDesk::make(alloc, Vec::new(alloc), failing);
    for file in files {
        desk.begin(file.name).map_err(|_| AllocError)?;
        desk.append(file.name, file.bytes.as_slice())
            .map_err(|_| AllocError)?;
    }
    Ok(desk)
}

// The calls that put the files there.
fn calls_before(files: &[GivenFile<'_>]) -> u64 {
    (files.len() as u64).saturating_mul(CALLS_A_FILE)
}

// Bytes as they are shown where they aren't those that are wanted.
fn shown(alloc: Global, bytes: &[u8]) -> Result<String, AllocError> {
    format!(in alloc; "{:?}", str::from_utf8(bytes).unwrap_or("no text"))
}

// Whether what was said is what is wanted: all of it, or how it begins and ends, or nothing.
fn is_said(alloc: Global, case: &Case, said: &[u8]) -> Result<bool, AllocError> {
    let mut right = true;
    let mut open = false;
    if let Some(part) = case.part("says") {
        right = said == part.bytes(alloc)?.as_slice();
        open = true;
    }
    if let Some(part) = case.part("begins") {
        right = right && said.starts_with(part.bytes(alloc)?.as_slice());
        open = true;
    }
    if let Some(part) = case.part("ends") {
        right = right && said.ends_with(part.bytes(alloc)?.as_slice());
        open = true;
    }
    Ok(right && (open || said.is_empty()))
}

// Tells which files aren't as they were, of those of which the case doesn't say what they are after the run; of no file where another
// run came before.
fn tell_files(
    case: &Case,
    files: &[GivenFile<'_>],
    desk: &MemoryDesk,
    told: &mut String,
) -> Result<(), AllocError> {
    for file in files {
        let changes = case.part("before").is_some()
            || case
                .parts
                .iter()
                .any(|part| part.name_of("after") == Some(file.name));
        if !changes && desk.bytes_of(file.name) != Some(file.bytes.as_slice()) {
            told.push_str("; another file ")?;
            told.push_str(file.name)?;
        }
    }
    Ok(())
}

// Tells which files aren't after the run what the case says.
fn tell_after(
    alloc: Global,
    case: &Case,
    desk: &MemoryDesk,
    told: &mut String,
) -> Result<(), AllocError> {
    for part in &case.parts {
        let Some(name) = part.name_of("after") else {
            continue;
        };
        let bytes = part.bytes(alloc)?;
        if desk.bytes_of(name) != Some(bytes.as_slice()) {
            told.push_str("; file ")?;
            told.push_str(name)?;
            told.push_str(" is ")?;
            let shown = shown(alloc, desk.bytes_of(name).unwrap_or(b""))?;
            told.push_str(shown.as_str())?;
        }
    }
    Ok(())
}

// Tells a number that isn't the one that is wanted.
fn tell_number(
    alloc: Global,
    what: &str,
    number: u64,
    wanted: u64,
    told: &mut String,
) -> Result<(), AllocError> {
    if number != wanted {
        let text = format!(in alloc; "; {what} {number}")?;
        told.push_str(text.as_str())?;
    }
    Ok(())
}

/// Tries a case of a file, where it can be read: its words are carried out over a desk that holds its files.
pub fn try_case(alloc: Global, cases: &[Case], case: &Case) -> Result<Outcome, AllocError> {
    if let Some(why) = fault_of(alloc, cases, case)? {
        return Ok(Outcome::Unread(why));
    }
    let Some(chain) = alike(alloc, cases, case)? else {
        let why = String::from_str(alloc, "too many cases are like each other")?;
        return Ok(Outcome::Unread(why));
    };
    let told = carried_out(alloc, chain.as_slice(), case)?;
    match told.as_str().strip_prefix("; ") {
        None => Ok(Outcome::AsWanted),
        Some(text) => Ok(Outcome::Other(String::from_str(alloc, text)?)),
    }
}

// Carries a case out, and tells what is otherwise than it says; the last of the cases is this one.
fn carried_out(alloc: Global, chain: &[&Case], case: &Case) -> Result<String, AllocError> {
    let files = files_of(alloc, chain)?;
    let mut desk = desk_of(alloc, files.as_slice(), case.fails())?;
    if case.part("before").is_some() {
        let before = words_of(alloc, chain, "before")?;
        let _ = run(alloc, before.as_slice(), &mut desk);
    }
    let said_before = desk.said().len();
    let words = words_of(alloc, chain, "words")?;
    let status = u64::from(run(alloc, words.as_slice(), &mut desk).code());
    let mut told = String::new(alloc);
    tell_number(alloc, "status", status, case.status(), &mut told)?;
    let calls = desk.calls().saturating_sub(calls_before(files.as_slice()));
    let wanted = case.calls().unwrap_or(calls);
    tell_number(alloc, "calls", calls, wanted, &mut told)?;
    let said = desk.said().get(said_before..).unwrap_or(b"");
    if !is_said(alloc, case, said)? {
        told.push_str("; says ")?;
        told.push_str(shown(alloc, said)?.as_str())?;
    }
    tell_files(case, files.as_slice(), &desk, &mut told)?;
    tell_after(alloc, case, &desk, &mut told)?;
    Ok(told)
}
