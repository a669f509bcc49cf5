//! The permitted numbers of units next to an amount.
ghost use Rattle.std.specs.Prelude.{◌^◌, ◌<◌, ◌≤◌};
ghost use Rattle.offer_book.specs.Portfolio.{IsPermittedUnits};

use offer_book::Line;

/// Permitted numbers of units on both sides of an amount.
#[derive(Clone, Copy, Debug, PartialEq, Eq)]
pub struct Neighbours {
    /// The greatest that comes to at most the amount.
    pub below: u64,
    /// The next one, or the same where there is none.
    pub above: u64,
    /// Whether the amount is just the one below.
    pub exact: bool,
}

// A unit of an amount: 2^-10 of a cent.
const AMOUNT_SCALE: u64 = 1 << 10;

/// The greatest permitted number of units up to a number.
pub(crate) fn permitted_below(line: &Line, units: u64) -> u64
    ensures { IsPermittedUnits line.now result }
{
    if units < line.least || line.most < line.least {
        0
    } else {
        units.min(line.most)
    }
}

// The least permitted number of units above 0 from a number on, or the most where there is none.
fn permitted_above(line: &Line, units: u64) -> u64
    ensures { IsPermittedUnits line.now result }
{
    if line.most < line.least {
        0
    } else {
        units.max(line.least).min(line.most)
    }
}

/// The permitted numbers of units next to an amount at par, in units of 2^-10 of a cent.
pub fn next_to(line: &Line, amount: i64) -> Neighbours
    ensures below { IsPermittedUnits line.now result.below }
    ensures above { IsPermittedUnits line.now result.above }
{
    let bought = u64::try_from(amount).unwrap_or(0);
    let step = line.step.saturating_mul(AMOUNT_SCALE).max(1);
    let whole = bought / step;
    let below = permitted_below(line, whole);
    Neighbours {
        below,
        above: permitted_above(line, whole + 1),
        exact: 0 <= amount && bought % step == 0 && below == whole,
    }
}
