//! Intervals of units of lines.
ghost use Rattle.std.specs.Prelude.{◌≡◌, ◌<◌, IfOk, map};
ghost use Rattle.node_ranges.specs.Ranges.{side_of as side_of_interval, tightened, whole_interval};

use escrow_desk::NoMemory;
use offer_book::Line;
use proof_tree::Interval;
use std::alloc::Global;

// Every number of units of a line.
fn whole(line: &Line) -> Interval
    ensures { result ≡ whole_interval line.now }
{
    Interval {
        low: 0,
        high: line.most,
    }
}

// For each line every number of its units.
pub(crate) fn whole_lines(alloc: Global, lines: &[Line]) -> Result<Vec<Interval>, NoMemory>
    ensures { IfOk result (λ intervals. intervals.items ≡ map whole_interval lines.now) }
{
    let mut intervals = Vec::with_capacity(alloc, lines.len())?;
    for line in lines {
        intervals.push(whole(line))?;
    }
    Ok(intervals)
}

// An interval without the numbers at its ends that aren't permitted.
pub(crate) fn tighten(line: &Line, interval: Interval) -> Interval
    ensures { result ≡ tightened line.now interval }
{
    let low = if 0 < interval.low && interval.low < line.least {
        line.least
    } else {
        interval.low
    };
    let high = if interval.high < line.least {
        0
    } else {
        interval.high
    };
    Interval { low, high }
}

// A side of a split of an interval.
pub(crate) fn side_of(interval: Interval, at: u64, right: bool) -> Interval
    requires { at < interval.high }
    ensures { result ≡ side_of_interval interval at right }
{
    if right {
        Interval {
            low: at + 1,
            high: interval.high,
        }
    } else {
        Interval {
            low: interval.low,
            high: at,
        }
    }
}
