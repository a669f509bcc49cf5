//! The sums over the coarse lines: how many of them count a line.
ghost use Rattle.std.specs.Prelude.{◌≡◌, ◌≤◌, IfOk, length};
ghost use Rattle.escrow_units.specs.Flows.{Rise};
ghost use Rattle.escrow_units.specs.declared.limits.TheConstants.{MOST_NEED_DATES};
ghost use Rattle.escrow_units.specs.SlgsTerms.{IsSettlement};
ghost use Rattle.offer_book.specs.Book.{IsBook, IsLine};
ghost use Rattle.offer_book.specs.Sums.{coarse_step as coarse_step_of, depth_on as depth_on_day, depths, greatest_step as greatest_step_of, kind_depth, line_depth as line_depth_of};

use crate::book::Book;
use crate::line::{Line, LineKind};
use escrow_desk::NoMemory;
use escrow_units::{Day, Flow};
use std::alloc::Global;

// The greatest step of some lines, in cents.
fn greatest_step(lines: &[Line]) -> u64
    ensures { result ≡ greatest_step_of lines.now }
{
    let mut step = 0;
    for line in lines {
        if step < line.step {
            step = line.step;
        }
    }
    step
}

/// The step of the coarse lines, in cents: the greatest of all lines but opening cash, and 0 where there is no other.
pub fn coarse_step(book: &Book) -> u64
    ensures { result ≡ coarse_step_of book.now }
{
    match book.lines().split_first() {
        Some((_, securities)) => greatest_step(securities),
        None => 0,
    }
}

// The place, from 1, of the first need date on or after a day, by binary search; the number of need dates where there is none.
fn depth_on(needs: &[Flow], day: Day) -> u16
    requires rising { Rise needs.now }
    requires few { length needs.now ≤ MOST_NEED_DATES }
    ensures { result ≡ depth_on_day needs.now day }
{
    let before = needs.partition_point(|need| need.day < day);
    if before < needs.len() {
        before as u16 + 1
    } else {
        before as u16
    }
}

// The depth of what a line offers, were it coarse.
fn depth_of(book: &Book, line: &Line) -> u16
    requires limits { IsBook book.now }
    requires line { IsLine book.now.days line.now }
    ensures { result ≡ kind_depth book.now line.now.kind }
{
    match line.kind {
        LineKind::Cash => 0,
        LineKind::Security(slgs) => depth_on(book.needs(), book.closed().open_day(slgs.maturity)),
        LineKind::Market(note) => depth_on(book.needs(), book.closed().open_day(note.maturity)),
    }
}

/// How many sums count a line of a book: those of the need dates up to its last payment where its step is that of the coarse lines,
/// and else none. It is at most the number of need dates.
pub fn line_depth(book: &Book, coarse_step: u64, line: &Line) -> u16
    requires limits { IsBook book.now }
    requires coarse { coarse_step ≡ coarse_step_of book.now }
    requires line { IsLine book.now.days line.now }
    ensures { result ≡ line_depth_of book.now line.now }
{
    if line.step == coarse_step {
        depth_of(book, line)
    } else {
        0
    }
}

/// How many sums count each line of a book, in the order of the lines: at most one for each need date.
///
/// # Errors
///
/// Where memory ran out.
pub fn line_depths(alloc: Global, book: &Book) -> Result<Vec<u16>, NoMemory>
    ensures { IfOk result (λ found. found.items ≡ depths book.now) }
{
    let coarse = coarse_step(book);
    let lines = book.lines();
    let mut found = Vec::with_capacity(alloc, lines.len())?;
    for line in lines {
        found.push(line_depth(book, coarse, line))?;
    }
    Ok(found)
}
