//! Orders of lines.
ghost use Rattle.std.specs.Prelude.{◌≡◌, ℕ, ◌<◌, ◌≤◌, All, IfOk, length};
ghost use Rattle.escrow_units.specs.Flows.{Rise};

use crate::ledger::Ledger;
use cash_table::place_of;
use escrow_desk::NoMemory;
use escrow_units::{Flow, MOST_NEED_DATES};
use offer_book::Book;
use std::alloc::Global;

/// A line, and where it stands: lesser ranks come first.
#[derive(Clone, Copy)]
pub(crate) struct Ranked {
    /// The rank.
    pub rank: u64,
    /// The line, counted from 0.
    pub line: u16,
}

/// By what lines are ordered.
#[derive(Clone, Copy, Debug, PartialEq, Eq)]
pub(crate) enum By {
    /// The lines with the greatest steps first.
    CoarseFirst,
    /// The lines that pay last first.
    LatestFirst,
    /// The lines that pay first first.
    EarliestFirst,
}

// The last need date that payments serve, counted from 1: 0 where they serve none.
fn end_of(needs: &[Flow], flows: &[Flow]) -> u16
    requires rising { Rise needs.now }
    requires few { length needs.now ≤ MOST_NEED_DATES }
{
    let mut end = 0;
    for flow in flows {
        let place = place_of(needs, flow.day);
        if place < needs.len() {
            end = place as u16 + 1;
        }
    }
    end
}

/// The last need date that each line's payments serve, counted from 1: 0 where they serve none.
///
/// # Errors
///
/// Where memory ran out.
#[inline(never)]
pub(crate) fn ends_of(alloc: Global, ledger: &Ledger) -> Result<Vec<u16>, NoMemory>
    ensures { IfOk result (λ ends. length ends.items ≡ length ledger.now.book.lines) }
{
    let mut ends = Vec::new(alloc);
    for line in 0..ledger.book().line_count() {
        let nothing = ledger.purchase(line, 0);
        ends.push(end_of(ledger.book().needs(), nothing.payments.as_slice()))?;
    }
    Ok(ends)
}

// Where a line stands.
fn rank(by: By, step: u64, end: u16) -> u64 {
    match by {
        By::CoarseFirst => u64::MAX - step,
        By::LatestFirst => u64::MAX - u64::from(end),
        By::EarliestFirst => u64::from(end),
    }
}

/// Every line once, in an order; those that stand alike in the order of the book. The ends are those of the lines.
///
/// # Errors
///
/// Where memory ran out.
pub(crate) fn order(
    alloc: Global,
    book: &Book,
    ends: &[u16],
    by: By,
) -> Result<Vec<Ranked>, NoMemory>
    requires { length ends.now ≡ length book.now.lines }
    ensures { IfOk result (λ order. All (λ ranked. ranked.line < length book.now.lines) order.items) }
{
    let mut order = Vec::new(alloc);
    for line in 0..book.line_count() {
        let rank = rank(by, book.line(line).step, ends[usize::from(line)]);
        order.push(Ranked { rank, line })?;
    }
    match order.sort_by_key(|ranked| ranked.rank) {
        Ok(()) => Ok(order),
        Err(_) => Err(NoMemory),
    }
}
