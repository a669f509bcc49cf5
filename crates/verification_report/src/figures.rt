//! The summary of an escrow.

ghost use Rattle.std.specs.Prelude.{◌≡◌, ◌++◌, OnOk};
ghost use Rattle.verification_report.specs.Summary.{summary_text, text_line, yield_words};

use crate::text::push_line;
use escrow_desk::NoMemory;
use escrow_units::{Cents, YieldUnits, print_cents, print_yield};
use yield_enclosure::YieldAnswer;

/// What a summary says of an escrow.
#[derive(Clone, Copy, Debug, PartialEq, Eq)]
pub struct Figures {
    /// What it costs, opening cash included, in cents.
    pub cost: Cents,
    /// What is known of its yield.
    pub answer: YieldAnswer,
    /// The limit on its yield, in units of 10^-10.
    pub limit: YieldUnits,
    /// By how much a rival may cost less, in cents.
    pub gap: Cents,
}

// Adds both ends of the interval of a yield, in percent, or a word where it has none.
fn push_interval(text: &mut Vec<u8>, answer: YieldAnswer) -> Result<(), NoMemory>
    ensures { OnOk result (text.new.items ≡ text.old.items ++ yield_words answer) }
{
    match answer {
        YieldAnswer::Empty => text.extend_from_slice(b"empty")?,
        YieldAnswer::Negative => text.extend_from_slice(b"negative")?,
        YieldAnswer::Above => text.extend_from_slice(b"above")?,
        YieldAnswer::Between { lo, hi } => {
            text.extend_from_slice(print_yield(lo).as_bytes())?;
            text.push(b' ')?;
            text.extend_from_slice(print_yield(hi).as_bytes())?;
        }
    }
    Ok(())
}

/// Adds a line of words and a yield: both ends of its interval, in percent, or a word where it has none.
///
/// # Errors
///
/// Where memory ran out; then a part of the line may have been added.
pub fn push_yield(text: &mut Vec<u8>, words: &[u8], answer: YieldAnswer) -> Result<(), NoMemory>
    ensures { OnOk result (text.new.items ≡ text.old.items ++ text_line words.now (yield_words answer)) }
{
    text.extend_from_slice(words)?;
    push_interval(text, answer)?;
    text.push(b'\n')?;
    Ok(())
}

/// Adds the four lines of a summary: the cost, the yield, the limit and the gap.
///
/// # Errors
///
/// Where memory ran out; then a part of the lines may have been added.
pub fn push_summary(text: &mut Vec<u8>, figures: &Figures) -> Result<(), NoMemory>
    ensures { OnOk result (text.new.items ≡ text.old.items ++ summary_text figures.now) }
{
    push_line(text, b"cost ", print_cents(figures.cost).as_bytes())?;
    push_yield(text, b"yield ", figures.answer)?;
    push_line(text, b"limit ", print_yield(figures.limit).as_bytes())?;
    push_line(text, b"gap ", print_cents(figures.gap).as_bytes())
}
