//! What may stand on a line, after the lines before it.
ghost use Rattle.std.specs.Prelude.{◌≡◌, ◌+◌, ◌≤◌, false};
ghost use Rattle.bound_certificate.specs.Due.{IsDue, IsSaid, buys_due as buys_due_of, is_over, lines_left, next_due, nodes_due as nodes_due_of, tree_due as tree_due_of, vectors_due as vectors_due_of};

use crate::item::Item;
use crate::limits::GREATEST_GAP;
use crate::version::Version;

/// What may stand on the next line.
#[derive(Clone, Copy, Debug, PartialEq, Eq)]
pub(crate) enum Due {
    /// The first line.
    Title,
    /// `portfolio`.
    Portfolio,
    /// `buy`: so many are left, of which the next has a line from `least` on.
    Buy { left: u16, least: u32 },
    /// `gap`, with at most so many cents.
    Gap { most: u64 },
    /// `vectors`.
    VectorCount,
    /// `v`: so many are left.
    Vector { left: u16 },
    /// `nodes`.
    Count,
    /// A node: so many are left, and so many trees are still to come.
    Node { left: u16, trees: u16 },
    /// `end`, once no tree is still to come.
    End { trees: u16 },
    /// Nothing: the last line came.
    Nothing,
}

// `buy` lines, of which so many are left, or what follows them.
fn buys_due(left: u16, least: u32) -> Due
    ensures { result ≡ buys_due_of left least }
{
    if left == 0 {
        return Due::Gap { most: GREATEST_GAP };
    }
    Due::Buy { left, least }
}

// What follows the gap.
fn tree_due(version: Version) -> Due
    ensures { result ≡ tree_due_of version }
{
    match version {
        Version::One => Due::Count,
        Version::Packed(_) => Due::VectorCount,
    }
}

// Vectors, of which so many are left, or what follows them.
fn vectors_due(left: u16) -> Due
    ensures { result ≡ vectors_due_of left }
{
    if left == 0 {
        return Due::Count;
    }
    Due::Vector { left }
}

// Nodes, of which so many are left, or what follows them.
fn nodes_due(left: u16, trees: u16) -> Due
    ensures { result ≡ nodes_due_of left trees }
{
    if left == 0 {
        return Due::End { trees };
    }
    Due::Node { left, trees }
}

impl Due {
    /// Whether the last line came.
    pub(crate) fn is_over(self) -> bool
        ensures { result ≡ is_over self }
    {
        matches!(self, Due::Nothing)
    }

    /// What may stand after a line that says this.
    pub(crate) fn after(self, version: Version, item: Item) -> Due
        requires due { IsDue self }
        requires going { is_over self ≡ false }
        requires item { IsSaid self item }
        ensures value { result ≡ next_due version self item }
        ensures kept { IsDue result }
        ensures lines { lines_left result + 1 ≤ lines_left self }
    {
        match (self, item) {
            (Due::Title, _) => Due::Portfolio,
            (Due::Portfolio, Item::Portfolio(Some(count))) => buys_due(count as u16, 0),
            (Due::Portfolio, _) => Due::Gap { most: 0 },
            (Due::Buy { left, .. }, Item::Buy(buy)) => {
                buys_due(left - 1, u32::from(buy.line) + 1)
            }
            (Due::Gap { .. }, _) => tree_due(version),
            (Due::VectorCount, Item::Vectors(count)) => vectors_due(count as u16),
            (Due::Vector { left }, _) => vectors_due(left - 1),
            (Due::Count, Item::Nodes(count)) => nodes_due(count as u16, 1),
            (Due::Node { left, trees }, Item::Split { .. }) => nodes_due(left - 1, trees + 1),
            (Due::Node { left, trees }, _) => nodes_due(left - 1, trees - 1),
            _ => Due::Nothing,
        }
    }
}
