//! Plans that are found within a limit.
ghost use Rattle.std.specs.Prelude.{◌≡◌};
ghost use Rattle.node_ranges.specs.Ranges.{AreTight};

use escrow_desk::NoMemory;
use escrow_units::{Cents, GREATEST_YIELD, YieldUnits};
use figure_cases::ranges_of;
use figure_sheets::{Unread, up_to};
use node_ranges::Ranges;
use offer_book::Book;
use plan_finder::{Finder, Proposal, YieldLimit, find};
use price_lp::Basis;
use std::alloc::{AllocError, Global};

// The effort of a plan's finder.
const EFFORT: u32 = 40;

// The limit on the yield that a word gives.
fn limit_of(alloc: Global, word: &str) -> Result<YieldLimit, Unread> {
    let units = up_to(word, GREATEST_YIELD)?;
    if units == 0 {
        return Err(Unread::Argument);
    }
    match YieldLimit::make(alloc, YieldUnits(units)) {
        Ok(limit) => Ok(limit),
        Err(_) => Err(Unread::NoMemory),
    }
}

// What a plan costs, if there is one.
fn cost_text(alloc: Global, proposal: Option<&Proposal>) -> Result<String, AllocError> {
    match proposal {
        Some(proposal) => format!(in alloc; "{}", proposal.cost.0),
        None => String::from_str(alloc, "none"),
    }
}

/// What the plan costs that is found within a limit.
pub(crate) fn found(alloc: Global, book: &Book, limit: &str) -> Result<String, Unread> {
    let limit = limit_of(alloc, limit)?;
    match find(alloc, book, &limit, EFFORT, Cents(0)) {
        Ok(proposal) => Ok(cost_text(alloc, proposal.as_ref())?),
        Err(_) => Err(Unread::NoMemory),
    }
}

// Dives within ranges, from a basis or not.
fn dive(
    finder: &mut Finder,
    ranges: &Ranges,
    basis: Option<&Basis>,
) -> Result<Option<Proposal>, NoMemory>
    requires { AreTight finder.old.book ranges.now }
    ensures { finder.new ≡ finder.old }
{
    finder.dive(ranges, basis)
}

// Tells what the plan of a dive costs: `cold`, or `warm` from a basis, and the sides that lead to its ranges.
fn tell_dive(
    alloc: Global,
    finder: &mut Finder,
    book: &Book,
    basis: &Basis,
    words: &[&str],
    told: &mut String,
) -> Result<(), Unread>
    requires { finder.old.book ≡ book.now }
    ensures { finder.new ≡ finder.old }
{
    let [start, sides @ ..] = words else {
        return Err(Unread::Argument);
    };
    let ranges = ranges_of(alloc, book, sides)?;
    let start = if *start == "warm" { Some(basis) } else { None };
    let Ok(proposal) = dive(finder, &ranges, start) else {
        return Err(Unread::NoMemory);
    };
    told.push_str(cost_text(alloc, proposal.as_ref())?.as_str())?;
    Ok(())
}

/// What the plans of dives cost that `;` parts, within a limit: by the same finder, one dive after another.
pub(crate) fn dives(
    alloc: Global,
    book: &Book,
    limit: &str,
    words: &[&str],
) -> Result<String, Unread> {
    let limit = limit_of(alloc, limit)?;
    let Ok(basis) = Basis::with_room(alloc, book.line_count(), book.need_count()) else {
        return Err(Unread::NoMemory);
    };
    let Ok(mut finder) = Finder::make(alloc, book, &limit) else {
        return Err(Unread::NoMemory);
    };
    let mut told = String::new(alloc);
    let mut own = Vec::new(alloc);
    for word in words {
        if *word == ";" {
            tell_dive(alloc, &mut finder, book, &basis, own.as_slice(), &mut told)?;
            told.push_str(" ; ")?;
            own.clear();
        } else {
            own.push(*word)?;
        }
    }
    tell_dive(alloc, &mut finder, book, &basis, own.as_slice(), &mut told)?;
    Ok(told)
}
