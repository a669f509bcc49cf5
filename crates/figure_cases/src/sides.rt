//! Ranges as words of a line: the sides of the splits that lead to them.
ghost use Rattle.std.specs.Prelude.{IfOk};
ghost use Rattle.node_ranges.specs.Ranges.{AreTight};

use figure_sheets::Unread;
use node_ranges::{Ranges, range_laws};
use offer_book::Book;
use proof_tree::Part;
use std::alloc::Global;

// A side of a split of a line's interval.
#[derive(Clone, Copy)]
struct Side {
    line: u16,
    at: u64,
    right: bool,
}

// The side of a word such as `1<=1000` or `1>1000`.
fn side_of(word: &str) -> Option<Side> {
    let (right, line, at) = match word.split_once("<=") {
        Some((line, at)) => (false, line, at),
        None => {
            let (line, at) = word.split_once('>')?;
            (true, line, at)
        }
    };
    Some(Side {
        line: line.parse().ok()?,
        at: at.parse().ok()?,
        right,
    })
}

/// Whether a word is one of a side.
pub fn is_side(word: &str) -> bool {
    word.contains('<') || word.contains('>')
}

// The ranges of the root, which are tight.
fn root_ranges(alloc: Global, book: &Book) -> Result<Ranges, Unread>
    ensures { IfOk result (λ ranges. AreTight book.now ranges) }
{
    range_laws();
    let _lines = book.line_count();
    match Ranges::root(alloc, book) {
        Ok(ranges) => Ok(ranges),
        Err(_) => Err(Unread::NoMemory),
    }
}

// Goes to a side of a split.
fn go_down(book: &Book, ranges: &mut Ranges, word: &str) -> Result<(), Unread>
    requires { AreTight book.now ranges.old }
    ensures { AreTight book.now ranges.new }
{
    match side_of(word) {
        Some(side) if ranges.proper(Part::Line(side.line), side.at) => {
            ranges.narrow(book, Part::Line(side.line), side.at, side.right);
            Ok(())
        }
        _ => Err(Unread::Argument),
    }
}

/// The ranges to which the sides of splits lead from the root: `1<=1000` to at most 1,000 units of line 1, and `1>1000` to more.
///
/// # Errors
///
/// `Argument` where a word is none of a side of a proper split, and `NoMemory` where memory ran out.
pub fn ranges_of(alloc: Global, book: &Book, sides: &[&str]) -> Result<Ranges, Unread>
    ensures { IfOk result (λ ranges. AreTight book.now ranges) }
{
    let mut ranges = root_ranges(alloc, book)?;
    for side in sides {
        go_down(book, &mut ranges, side)?;
    }
    Ok(ranges)
}
