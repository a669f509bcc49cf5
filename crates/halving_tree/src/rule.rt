//! Where a node is split.
ghost use Rattle.std.specs.Prelude.{◌≡◌, ◌<◌, ◌*◌, ◌-◌, false, length, slice_index_or, IsTrue};
ghost use Rattle.node_ranges.specs.Ranges.{AreTight, is_proper, is_single};
ghost use Rattle.proof_tree.specs.declared.tree.Part.TheVariants as parts;
ghost use Rattle.offer_book.specs.CaseBook.{cash_line};
ghost use Rattle.halving_tree.specs.Halving.{IsHalved, IsWidest, width_at};

use node_ranges::Ranges;
use offer_book::Book;
use proof_tree::Part;

/// A split of a line's interval: its left side has the units up to a number, its right side those from the next one on.
#[derive(Clone, Copy, Debug, PartialEq, Eq)]
pub struct Split {
    /// The line, counted from 0.
    pub line: u16,
    /// The most units of the left side.
    pub at: u64,
}

/// The rule by which a search splits nodes.
#[derive(Clone, Copy, Debug, PartialEq, Eq)]
pub enum SplitRule {
    /// At the middle of the first line whose interval is widest, in cents: the rule of the halving tree.
    Halving,
    /// Where the linear relaxation points, if that is a proper split; else as the halving tree.
    Relaxation,
}

// How wide a line's interval is, in cents.
fn width(book: &Book, ranges: &Ranges, line: u16) -> u128
    requires lines { line < length book.now.lines }
    requires ranges { line < length ranges.now.lines }
    ensures { result ≡ width_at book.now.lines ranges.now.lines line }
{
    let interval = ranges.intervals()[usize::from(line)];
    u128::from(interval.high - interval.low) * u128::from(book.line(line).step)
}

// The first line of the greatest width.
fn widest(book: &Book, ranges: &Ranges) -> u16
    requires { AreTight book.now ranges.now }
    ensures { IsWidest book.now.lines ranges.now.lines result }
{
    let count = book.line_count();
    let mut line = 0;
    let mut greatest = width(book, ranges, 0);
    for other in 1..count {
        let own = width(book, ranges, other);
        if greatest < own {
            line = other;
            greatest = own;
        }
    }
    line
}

// The middle of the first line of the greatest width.
fn middle(book: &Book, ranges: &Ranges) -> Split
    requires tight { AreTight book.now ranges.now }
    requires several { is_single ranges.now ≡ false }
    ensures proper { IsTrue (is_proper ranges.now (parts.Line result.line) result.at) }
    ensures there { result.line < length book.now.lines }
    ensures halved { IsHalved book.now.lines ranges.now.lines result.line result.at }
{
    // A book keeps its limits.
    let _count = book.line_count();
    let line = widest(book, ranges);
    let interval = ranges.intervals()[usize::from(line)];
    Split {
        line,
        at: interval.low + (interval.high - interval.low) / 2,
    }
}

// What the relaxation points to, where that is a proper split; else the middle of the first line of the greatest width.
fn pointed_or_middle(book: &Book, ranges: &Ranges, pointed: Option<Split>) -> Split
    requires tight { AreTight book.now ranges.now }
    requires several { is_single ranges.now ≡ false }
    ensures proper { IsTrue (is_proper ranges.now (parts.Line result.line) result.at) }
    ensures there { result.line < length book.now.lines }
{
    match pointed {
        Some(split) if ranges.proper(Part::Line(split.line), split.at) => split,
        _ => middle(book, ranges),
    }
}

impl SplitRule {
    /// Where a node of these ranges is split, which hold more than one portfolio: the line is there, and the split is proper. What the
    /// relaxation points to is given, if anything; it is tested.
    pub fn split(self, book: &Book, ranges: &Ranges, pointed: Option<Split>) -> Split
        requires tight { AreTight book.now ranges.now }
        requires several { is_single ranges.now ≡ false }
        ensures proper { IsTrue (is_proper ranges.now (parts.Line result.line) result.at) }
        ensures there { result.line < length book.now.lines }
        ensures halved { self ≡ SplitRule.Halving → IsHalved book.now.lines ranges.now.lines result.line result.at }
    {
        match self {
            SplitRule::Halving => middle(book, ranges),
            SplitRule::Relaxation => pointed_or_middle(book, ranges, pointed),
        }
    }
}
