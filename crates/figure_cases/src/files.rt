//! The files of a case.
ghost use Rattle.std.specs.Prelude.{◌≤◌, IfOk, length};
ghost use Rattle.case_file.specs.Case.{HasTerms, case_view};

use case_file::{Case, read_case};
use escrow_desk::FILE_LIMIT;
use figure_sheets::{Part, Unread, have_heads, lines_of};
use std::alloc::{AllocError, Global};

/// The files of a case, as the parts of a sheet give them.
#[derive(Drop)]
pub struct Files {
    issue: String,
    rates: String,
    prices: String,
}

// The heads of the files of a case, and of one before it.
const HEADS: [&str; 6] = [
    "issue",
    "rates",
    "prices",
    "issue before",
    "rates before",
    "prices before",
];

// The bytes of a file, where they aren't too many.
fn bytes_in(file: &str) -> Result<&[u8], Unread>
    ensures { IfOk result (λ bytes. length bytes.now ≤ FILE_LIMIT) }
{
    let bytes = file.as_bytes();
    if bytes.len() as u64 > FILE_LIMIT {
        return Err(Unread::Part);
    }
    Ok(bytes)
}

// The last part of a head as a file; an empty one where there is none.
fn file_of(alloc: Global, parts: &[Part], head: &str) -> Result<String, AllocError> {
    String::from_str(alloc, lines_of(parts, head).unwrap_or(""))
}

impl Files {
    /// The files that are the last parts of the names `issue`, `rates` and `prices`. Where there are none of rates or of prices
    /// they are empty.
    ///
    /// # Errors
    ///
    /// `Part` where there is another part, `NoPart` where there is no issue, and `NoMemory` where memory ran out.
    pub fn of(alloc: Global, parts: &[Part]) -> Result<Files, Unread> {
        if !have_heads(parts, &HEADS) {
            return Err(Unread::Part);
        }
        if lines_of(parts, "issue").is_none() {
            return Err(Unread::NoPart);
        }
        Ok(Files {
            issue: file_of(alloc, parts, "issue")?,
            rates: file_of(alloc, parts, "rates")?,
            prices: file_of(alloc, parts, "prices")?,
        })
    }

    /// Those of a case before this one, the last parts of the names `issue before`, `rates before` and `prices before`; None where
    /// there is no such issue.
    ///
    /// # Errors
    ///
    /// Where memory ran out.
    pub fn before(alloc: Global, parts: &[Part]) -> Result<Option<Files>, AllocError> {
        if lines_of(parts, "issue before").is_none() {
            return Ok(None);
        }
        Ok(Some(Files {
            issue: file_of(alloc, parts, "issue before")?,
            rates: file_of(alloc, parts, "rates before")?,
            prices: file_of(alloc, parts, "prices before")?,
        }))
    }

    /// The case of the files.
    ///
    /// # Errors
    ///
    /// `Part` where they give none, or memory ran out.
    pub fn case(&self, alloc: Global) -> Result<Case, Unread>
        ensures { IfOk result (λ case. HasTerms (case_view case)) }
    {
        let issue = bytes_in(self.issue.as_str())?;
        let rates = bytes_in(self.rates.as_str())?;
        let prices = bytes_in(self.prices.as_str())?;
        match read_case(alloc, issue, rates, prices) {
            Ok(case) => Ok(case),
            Err(_) => Err(Unread::Part),
        }
    }
}
