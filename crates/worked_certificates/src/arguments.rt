//! Arguments of calls.
ghost use Rattle.std.specs.Prelude.{◌≤◌, IfOk};

use bound_certificate::MOST_DATES;
use figure_sheets::{Unread, number_of, up_to};
use std::alloc::Global;

/// How many need dates there are, at most 480.
pub(crate) fn dates_of(word: &str) -> Result<u16, Unread>
    ensures { IfOk result (λ dates. dates ≤ MOST_DATES) }
{
    Ok(up_to(word, MOST_DATES as u64)? as u16)
}

/// The numbers of words.
pub(crate) fn numbers_of(alloc: Global, words: &[&str]) -> Result<Vec<u64>, Unread> {
    let mut numbers = Vec::new(alloc);
    for word in words {
        numbers.push(number_of(word)?)?;
    }
    Ok(numbers)
}
