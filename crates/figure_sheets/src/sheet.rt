//! A sheet: its parts, and its calls.

use std::alloc::{AllocError, Global};

/// A part of a sheet: what it gives, and its lines, each ended by a line feed.
#[derive(Drop)]
pub struct Part {
    /// What it gives, as `issue`.
    pub head: String,
    /// Its lines.
    pub body: String,
}

/// Calls that follow each other, which are about the parts before them.
#[derive(Drop)]
pub struct Calls {
    /// How many parts of the sheet stand before them.
    pub parts: usize,
    /// Their lines.
    pub lines: Vec<String>,
}

/// A sheet: its parts and its calls, in their order.
#[derive(Drop)]
pub struct Sheet {
    /// Its parts.
    pub parts: Vec<Part>,
    /// Its calls.
    pub calls: Vec<Calls>,
}

// What the next line is.
#[derive(Clone, Copy)]
enum Place {
    /// It says what the sheet is about.
    About,
    /// It belongs to the last part.
    Part,
    /// It is one of the last calls.
    Calls,
}

impl Part {
    // Takes in one more line; one that begins with a star and a number stands for so many.
    fn take(&mut self, line: &str) -> Result<(), AllocError> {
        let (count, text) = repeated(line).unwrap_or((1, line));
        for _ in 0..count {
            self.body.push_str(text)?;
            self.body.push('\n')?;
        }
        Ok(())
    }
}

// How often a line stands for, and what comes behind the number: of `*3 x` three times `x`.
fn repeated(line: &str) -> Option<(u32, &str)> {
    let (count, text) = line.strip_prefix('*')?.split_once(' ')?;
    Some((count.parse().ok()?, text))
}

impl Sheet {
    /// The sheet of a text. What it is about ends at the first blank line, or where a line says what is wanted. Blank
    /// lines are passed over, and so are, among calls, lines that begin with `#`. A line of a part that begins with a
    /// star and a number, as `*3 x`, stands for so many lines `x`.
    ///
    /// # Errors
    ///
    /// Where memory ran out.
    pub fn read(alloc: Global, text: &str) -> Result<Sheet, AllocError> {
        let mut sheet = Sheet {
            parts: Vec::new(alloc),
            calls: Vec::new(alloc),
        };
        let mut place = Place::About;
        for line in text.lines() {
            place = sheet.take(alloc, place, line)?;
        }
        Ok(sheet)
    }

    // Takes in one more line, and says what the next one is.
    fn take(&mut self, alloc: Global, place: Place, line: &str) -> Result<Place, AllocError> {
        if let Some(head) = line.strip_prefix("-- ") {
            return self.begin(alloc, head);
        }
        let place = match place {
            Place::About if line.is_empty() || line.contains(" = ") => self.begin(alloc, "calls")?,
            place => place,
        };
        match place {
            Place::About => {}
            Place::Part if line.is_empty() => {}
            Place::Part => self.take_row(line)?,
            Place::Calls => self.take_call(alloc, line)?,
        }
        Ok(place)
    }

    // Begins a part, or calls.
    fn begin(&mut self, alloc: Global, head: &str) -> Result<Place, AllocError> {
        if head == "calls" {
            self.calls.push(Calls {
                parts: self.parts.len(),
                lines: Vec::new(alloc),
            })?;
            return Ok(Place::Calls);
        }
        self.parts.push(Part {
            head: String::from_str(alloc, head)?,
            body: String::new(alloc),
        })?;
        Ok(Place::Part)
    }

    // Takes in one more line of the last part.
    fn take_row(&mut self, line: &str) -> Result<(), AllocError> {
        match self.parts.last_mut() {
            Some(part) => part.take(line),
            None => Ok(()),
        }
    }

    // Takes in one more line of the last calls.
    fn take_call(&mut self, alloc: Global, line: &str) -> Result<(), AllocError> {
        if let Some(calls) = self.calls.last_mut() {
            if !line.is_empty() && !line.starts_with('#') {
                calls.lines.push(String::from_str(alloc, line)?)?;
            }
        }
        Ok(())
    }
}

/// Whether each part has one of these heads.
pub fn have_heads(parts: &[Part], heads: &[&str]) -> bool {
    parts.iter().all(|part| heads.contains(&part.head.as_str()))
}

/// The lines of the last part of a head, where there is one.
pub fn lines_of<'s>(parts: &'s [Part], head: &str) -> Option<&'s str> {
    let part = parts.iter().rev().find(|part| part.head.as_str() == head)?;
    Some(part.body.as_str())
}
