//! Trying the calls of a sheet, and what is told of them.

use crate::sheet::{Calls, Part, Sheet};
use crate::unread::Unread;
use crate::words::words_of;
use std::alloc::{AllocError, Global};

/// What calls of a sheet are about.
pub trait Figures: Sized {
    /// What the calls behind these parts are about.
    ///
    /// # Errors
    ///
    /// Why no such call can be tried.
    fn read(alloc: Global, parts: &[Part]) -> Result<Self, Unread>;

    /// What a call comes to, in the words in which it is wanted. The first of its words is its name.
    ///
    /// # Errors
    ///
    /// Why it can't be tried.
    fn answer(&self, alloc: Global, words: &[&str]) -> Result<String, Unread>;
}

/// What is told of a sheet: a line with its name, and for each of its calls a line that says that it came to what is
/// wanted, or what came instead, or why it wasn't tried. `text` is what its file has, where it can be read.
///
/// # Errors
///
/// Where memory ran out.
pub fn told<F: Figures + Drop>(
    alloc: Global,
    name: &str,
    text: Option<&str>,
) -> Result<String, AllocError> {
    let mut told = format!(in alloc; "== {name}\n")?;
    match text {
        Some(text) => tell_sheet::<F>(alloc, &Sheet::read(alloc, text)?, &mut told)?,
        None => told.push_str("not tried: the file can't be read\n")?,
    }
    Ok(told)
}

// Tells of each call of a sheet.
fn tell_sheet<F: Figures + Drop>(
    alloc: Global,
    sheet: &Sheet,
    told: &mut String,
) -> Result<(), AllocError> {
    if sheet.calls.iter().all(|calls| calls.lines.is_empty()) {
        told.push_str("no call stands here\n")?;
    }
    for calls in &sheet.calls {
        let parts = sheet.parts.get(..calls.parts).unwrap_or(&[]);
        tell_calls::<F>(alloc, parts, calls, told)?;
    }
    Ok(())
}

// Tells of calls that are about the parts before them.
fn tell_calls<F: Figures + Drop>(
    alloc: Global,
    parts: &[Part],
    calls: &Calls,
    told: &mut String,
) -> Result<(), AllocError> {
    let subject = F::read(alloc, parts);
    for line in &calls.lines {
        let told_line = told_line::<F>(alloc, &subject, line.as_str())?;
        told.push_str(told_line.as_str())?;
    }
    Ok(())
}

// What is told of a line.
fn told_line<F: Figures + Drop>(
    alloc: Global,
    subject: &Result<F, Unread>,
    line: &str,
) -> Result<String, AllocError> {
    let (call, wanted) = line.split_once(" = ").unwrap_or((line, ""));
    match answer::<F>(alloc, subject, call, wanted) {
        Ok(answer) if answer.as_str() == wanted => format!(in alloc; "{call}: as wanted\n"),
        Ok(answer) => format!(in alloc; "{call}: {answer}\n"),
        Err(why) => format!(in alloc; "{call}: not tried: {why}\n"),
    }
}

// What a call comes to.
fn answer<F: Figures + Drop>(
    alloc: Global,
    subject: &Result<F, Unread>,
    call: &str,
    wanted: &str,
) -> Result<String, Unread> {
    if wanted.is_empty() {
        return Err(Unread::NothingWanted);
    }
    match subject {
        Ok(subject) => subject.answer(alloc, words_of(alloc, call)?.as_slice()),
        Err(why) => Err(*why),
    }
}
