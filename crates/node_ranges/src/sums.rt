//! Intervals of units of sums over the coarse lines.
ghost use Rattle.std.specs.Prelude.{◌≡◌, ◌+◌, ◌*◌, ◌^◌, ◌<◌, ◌≤◌, ℕ, IfOk, All, drop, length, map, slice_index_or, sum, zip};
ghost use Rattle.escrow_units.specs.declared.limits.TheConstants.{AMOUNT_LIMIT, MOST_LINES};
ghost use Rattle.offer_book.specs.Sums.{sums_of};
ghost use Rattle.node_ranges.specs.Ranges.{up_to};
ghost use Rattle.node_ranges.specs.Depths.{most_at};

use escrow_desk::NoMemory;
use offer_book::{Book, Line, line_depths};
use proof_tree::Interval;
use std::alloc::Global;

// What the most of the lines of each depth comes to, for so many depths, from 1.
fn most_by_depth(
    alloc: Global,
    lines: &[Line],
    depths: &[u16],
    dates: u16,
) -> Result<Vec<u64>, NoMemory>
    requires same { length depths.now ≡ length lines.now }
    requires few { length lines.now ≤ MOST_LINES + 1 }
    requires deep { All (λ depth. depth ≤ dates) depths.now }
    requires small { All (λ line. line.most ≤ AMOUNT_LIMIT) lines.now }
    ensures every { IfOk result (λ counts. length counts.items ≡ dates) }
    ensures counts { IfOk result (λ counts. (k d : ℕ) → k < dates → slice_index_or counts.items k d ≡ most_at (k + 1) depths.now lines.now) }
{
    let mut counts = vec![in alloc; 0u64; usize::from(dates)]?;
    for place in 0..lines.len() {
        let depth = usize::from(depths[place]);
        if depth > 0 {
            counts[depth - 1] += lines[place].most;
        }
    }
    Ok(counts)
}

// Each count becomes the sum of those from its place on.
fn sum_up(counts: &mut [u64])
    requires { sum counts.old < 2 ^ 64 }
    ensures same { length counts.new ≡ length counts.old }
    ensures sums { (k d : ℕ) → k < length counts.old → slice_index_or counts.new k d ≡ sum (drop k counts.old) }
{
    let mut after = 0;
    for place in (0..counts.len()).rev() {
        after += counts[place];
        counts[place] = after;
    }
}

// Intervals from 0 up to each of these numbers.
fn intervals_up_to(alloc: Global, most: &[u64]) -> Result<Vec<Interval>, NoMemory>
    ensures { IfOk result (λ intervals. intervals.items ≡ map up_to most.now) }
{
    let mut intervals = Vec::with_capacity(alloc, most.len())?;
    for high in most {
        intervals.push(Interval {
            low: 0,
            high: *high,
        })?;
    }
    Ok(intervals)
}

// For each sum of a book every number of the units that it counts.
pub(crate) fn whole_sums(alloc: Global, book: &Book) -> Result<Vec<Interval>, NoMemory>
    ensures { IfOk result (λ intervals. intervals.items ≡ map up_to (sums_of book.now (map (λ line. line.most) book.now.lines))) }
{
    let depths = line_depths(alloc, book)?;
    let mut counts = most_by_depth(alloc, book.lines(), depths.as_slice(), book.need_count())?;
    sum_up(counts.as_mut_slice());
    intervals_up_to(alloc, counts.as_slice())
}
