//! Why a case can't be read. Such a case isn't tried, and says so.

use crate::case::{Case, Part};
use crate::escaped::is_escaped;
use std::alloc::{AllocError, Global};

// The heads that stand alone.
const HEADS: [&str; 8] = [
    "words", "before", "fails", "status", "says", "begins", "ends", "calls",
];

// Those of which the lines are a number.
const NUMBERS: [&str; 3] = ["fails", "status", "calls"];

// The kinds of heads that a name follows.
const KINDS: [&str; 3] = ["file", "after", "like"];

// Whether a head is known.
fn is_known(part: &Part) -> bool {
    HEADS.contains(&part.head.as_str()) || KINDS.iter().any(|kind| part.name_of(kind).is_some())
}

// Why a part can't be read.
fn part_fault(part: &Part) -> Option<&'static str> {
    if !is_known(part) {
        Some("is no head")
    } else if NUMBERS.contains(&part.head.as_str()) && part.number().is_none() {
        Some("isn't a number")
    } else if part.name_of("like").is_some() && !part.body.is_empty() {
        Some("has lines of its own")
    } else if part.escaped && !is_escaped(part.body.as_slice()) {
        Some("has an escape that stands for no byte")
    } else {
        None
    }
}

// How many parts of a case have a head.
fn count_of(case: &Case, head: &str) -> usize {
    case.parts
        .iter()
        .filter(|part| part.head.as_str() == head)
        .count()
}

// Why the parts of a case can't be read: the first that can't, and its head.
fn parts_fault(case: &Case) -> Option<(&'static str, &str)> {
    for part in &case.parts {
        let head = part.head.as_str();
        if let Some(why) = part_fault(part) {
            return Some((why, head));
        }
        if count_of(case, head) > 1 {
            return Some(("stands twice", head));
        }
    }
    None
}

// How many cases have a name.
fn named(cases: &[Case], name: &str) -> usize {
    cases
        .iter()
        .filter(|case| case.name.as_str() == name)
        .count()
}

/// Why a case of a file can't be read, if it can't.
pub fn fault_of(alloc: Global, cases: &[Case], case: &Case) -> Result<Option<String>, AllocError> {
    if case.stray {
        return Ok(Some(String::from_str(alloc, "a line stands before any head")?));
    }
    if named(cases, case.name.as_str()) > 1 {
        return Ok(Some(String::from_str(alloc, "another case has its name")?));
    }
    if let Some((why, head)) = parts_fault(case) {
        return Ok(Some(format!(in alloc; "`{head}` {why}")?));
    }
    match case.like() {
        Some(name) if named(cases, name) == 0 => {
            Ok(Some(format!(in alloc; "there is no case `{name}`")?))
        }
        _ => Ok(None),
    }
}
