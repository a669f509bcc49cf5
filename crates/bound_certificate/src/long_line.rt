//! Lines longer than any right one.
ghost use Rattle.std.specs.Prelude.{◌≡◌, ◌≤◌, List, ℕ, Err};
ghost use Rattle.bound_certificate.specs.Grammar.{line_said, node_said};
ghost use Rattle.bound_certificate.specs.LongLine.{IsLongLine};

use crate::due::Due;
use crate::fault::FaultKind;
use crate::limits::MOST_DATES;
use crate::line::{begins_with, node_row};
use crate::row::Row;
use crate::seen::Seen;
use crate::version::Version;

// Which fault a long line has that may begin with no other word than a row's.
fn long_row_fault(row: Row, may: bool, dates: u16, head: &[u8], seen: Seen) -> FaultKind
    requires { dates ≤ MOST_DATES }
    ensures { (vectors : List (List ℕ)) (line : List ℕ) → IsLongLine head.now seen line → node_said dates vectors row may line ≡ Err result }
{
    if !begins_with(row.word(), head) {
        return FaultKind::Header;
    }
    if !may || !seen.fits(row, dates) {
        return FaultKind::Count;
    }
    FaultKind::Number
}

/// Which fault a line has that is longer than any right one, by its first bytes and what its words are.
pub(crate) fn long_fault(
    version: Version,
    due: Due,
    dates: u16,
    head: &[u8],
    seen: Seen,
) -> FaultKind
    requires { dates ≤ MOST_DATES }
    ensures { (vectors : List (List ℕ)) (line : List ℕ) → IsLongLine head.now seen line → line_said version dates vectors due line ≡ Err result }
{
    let row = match due {
        Due::Title => return FaultKind::Header,
        Due::End { trees } if trees > 0 => return FaultKind::Count,
        Due::Nothing => return FaultKind::Trailing,
        Due::Node { trees, .. } => {
            return long_row_fault(node_row(version, head), trees > 0, dates, head, seen);
        }
        Due::Portfolio => Row::Portfolio {
            most: version.most_buys(),
        },
        Due::Buy { least, .. } => Row::Buy { least },
        Due::Gap { most } => Row::Gap { most },
        Due::VectorCount => Row::Vectors,
        Due::Vector { .. } => Row::Vector,
        Due::Count => Row::Nodes,
        Due::End { .. } => Row::End,
    };
    long_row_fault(row, true, dates, head, seen)
}
