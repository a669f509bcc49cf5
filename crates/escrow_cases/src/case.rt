//! Cases as text. A case begins with a line `== NAME`; each of its parts with a line `-- HEAD`, whose lines follow. What stands
//! before the first case is a comment, and blank lines are passed over.

use crate::escaped::unescape;
use std::alloc::{AllocError, Global};

/// A part of a case: what it gives, and its lines, each ended by a line feed.
#[derive(Drop)]
pub struct Part {
    /// What it gives, as `file c`.
    pub head: String,
    /// Whether its head ends with `escaped`, which `head` is without.
    pub escaped: bool,
    /// Its lines, as they stand.
    pub body: Vec<u8>,
}

/// A case: what is run over which files, and what has to come out.
#[derive(Drop)]
pub struct Case {
    /// What it is called.
    pub name: String,
    /// Whether a line stands before its first part, which belongs to none.
    pub stray: bool,
    /// Its parts.
    pub parts: Vec<Part>,
}

impl Case {
    // A case of a name, of which nothing more is known.
    fn named(alloc: Global, name: &str) -> Result<Case, AllocError> {
        Ok(Case {
            name: String::from_str(alloc, name)?,
            stray: false,
            parts: Vec::new(alloc),
        })
    }

    // Takes in one more line.
    fn take(&mut self, alloc: Global, line: &str) -> Result<(), AllocError> {
        if let Some(head) = line.strip_prefix("-- ") {
            self.parts.push(Part::headed(alloc, head)?)?;
        } else if !line.is_empty() {
            match self.parts.last_mut() {
                Some(part) => part.take(line)?,
                None => self.stray = true,
            }
        }
        Ok(())
    }

    /// The name of the case whose files and words it has where it gives none of its own.
    pub fn like(&self) -> Option<&str> {
        self.parts.iter().find_map(|part| part.name_of("like"))
    }

    /// The part of a head.
    pub fn part(&self, head: &str) -> Option<&Part> {
        self.parts.iter().find(|part| part.head.as_str() == head)
    }

    // The number that a part of a head gives, if it is there and gives one.
    fn number(&self, head: &str) -> Option<u64> {
        self.part(head)?.number()
    }

    /// The number of the call of the desk that fails, counted from 0, if one does.
    pub fn fails(&self) -> Option<u64> {
        self.number("fails")
    }

    /// How many calls of the desk are wanted, if that is said.
    pub fn calls(&self) -> Option<u64> {
        self.number("calls")
    }

    /// The exit status that is wanted.
    pub fn status(&self) -> u64 {
        self.number("status").unwrap_or(0)
    }
}

impl Part {
    // A part of a head, without a line.
    fn headed(alloc: Global, head: &str) -> Result<Part, AllocError> {
        let plain = head.strip_suffix(" escaped");
        Ok(Part {
            head: String::from_str(alloc, plain.unwrap_or(head))?,
            escaped: plain.is_some(),
            body: Vec::new(alloc),
        })
    }

    // Takes in one more line; one that begins with a star and a number stands for so many lines.
    fn take(&mut self, line: &str) -> Result<(), AllocError> {
        let (count, text) = repeated(line).unwrap_or((1, line));
        for _ in 0..count {
            self.body.extend_from_slice(text.as_bytes())?;
            self.body.push(b'\n')?;
        }
        Ok(())
    }

    /// The name that it gives, where its head is `KIND NAME`, for a kind as `file`.
    pub fn name_of(&self, kind: &str) -> Option<&str> {
        self.head.as_str().strip_prefix(kind)?.strip_prefix(" ")
    }

    /// The number that its lines are, if they are one.
    pub fn number(&self) -> Option<u64> {
        let text = str::from_utf8(self.body.as_slice()).ok()?;
        text.trim().parse().ok()
    }

    /// The words of its lines; `""` is the empty word.
    pub fn words(&self, alloc: Global) -> Result<Vec<String>, AllocError> {
        let mut words = Vec::new(alloc);
        for word in str::from_utf8(self.body.as_slice())
            .unwrap_or("")
            .split_whitespace()
        {
            let word = if word == "\"\"" { "" } else { word };
            words.push(String::from_str(alloc, word)?)?;
        }
        Ok(words)
    }

    /// The bytes, of a part whose head ends with `escaped` those that its escapes stand for.
    pub fn bytes(&self, alloc: Global) -> Result<Vec<u8>, AllocError> {
        if self.escaped {
            unescape(alloc, self.body.as_slice())
        } else {
            Vec::from_slice(alloc, self.body.as_slice())
        }
    }
}

// How often a line stands for, and what comes behind the number: of `*3 x` three times `x`.
fn repeated(line: &str) -> Option<(u32, &str)> {
    let (count, text) = line.strip_prefix("*")?.split_once(' ')?;
    Some((count.parse().ok()?, text))
}

/// The cases of a text, in their order.
pub fn read_cases(alloc: Global, text: &str) -> Result<Vec<Case>, AllocError> {
    let mut cases: Vec<Case> = Vec::new(alloc);
    for line in text.lines() {
        if let Some(name) = line.strip_prefix("== ") {
            cases.push(Case::named(alloc, name)?)?;
        } else if let Some(case) = cases.last_mut() {
            case.take(alloc, line)?;
        }
    }
    Ok(cases)
}
