//! Ranges of units, one for each line and one for each sum of a book.
ghost use Rattle.std.specs.Prelude.{All, ◌≡◌, ◌<◌, ◌≤◌, length, slice_index_or, slice_set, IfOk, IsTrue, List, ℕ};
ghost use Rattle.proof_tree.specs.declared.interval.Interval.{Interval};
ghost use Rattle.std.specs.List.{AllZip};
ghost use Rattle.node_ranges.specs.Ranges.{AreTight, IsOrdered, IsTight, IsUpTo, intervals_of, is_proper, is_single, narrowed, narrowed_lines, narrowed_sums, place_of, root_of, splits as splits_at, with_interval};

use crate::lines::{side_of, tighten, whole_lines};
use crate::sums::whole_sums;
use escrow_desk::NoMemory;
use offer_book::Book;
use proof_tree::{Interval, Part};
use std::alloc::Global;
use std::marker::Model;

// Whether a split of the interval at a place, counted from 0, at a number of units is proper: the interval is there, and both
// sides have numbers of it.
fn splits(intervals: &[Interval], place: u16, at: u64) -> bool
    ensures { result ≡ splits_at intervals.now place at }
{
    match intervals.get(usize::from(place)) {
        Some(interval) => interval.low <= at && at < interval.high,
        None => false,
    }
}

// Narrows the interval of a line, counted from 0, to a side of a proper split.
fn narrow_line(intervals: &mut [Interval], book: &Book, line: u16, at: u64, right: bool)
    requires tight { AllZip IsTight book.now.lines intervals.old }
    requires proper { IsTrue (splits_at intervals.old line at) }
    ensures value { intervals.new ≡ narrowed_lines book.now.lines intervals.old line at right }
    ensures tight { AllZip IsTight book.now.lines intervals.new }
    ensures ordered { All IsOrdered intervals.new }
{
    let place = usize::from(line);
    intervals[place] = tighten(book.line(line), side_of(intervals[place], at, right));
}

// Narrows the interval of a sum, counted from 0, to a side of a proper split.
fn narrow_sum(intervals: &mut [Interval], sum: u16, at: u64, right: bool)
    requires proper { IsTrue (splits_at intervals.old sum at) }
    requires ordered { All IsOrdered intervals.old }
    ensures value { intervals.new ≡ narrowed_sums intervals.old sum at right }
    ensures ordered { All IsOrdered intervals.new }
    ensures room { (most : List ℕ) → AllZip IsUpTo most intervals.old → AllZip IsUpTo most intervals.new }
{
    let place = usize::from(sum);
    intervals[place] = side_of(intervals[place], at, right);
}

/// The ranges of units of a node: an interval for each line of a book, line 0 included, and one for each of its sums, of which
/// there is one for each need date. Contracts see the two lists.
#[derive(Debug, Drop)]
pub struct Ranges {
    lines: Vec<Interval>,
    sums: Vec<Interval>,
}

impl Model for Ranges {
    ghost use Rattle.std.specs.Prelude.{All};
    ghost use Rattle.node_ranges.specs.Ranges.{IsOrdered, RangesContents};

    ghost Value = { RangesContents };

    ghost view = { λ r. record { lines = r.lines.items; sums = r.sums.items } };

    ghost invariant = { λ r. All IsOrdered r.lines.items × All IsOrdered r.sums.items };
}

impl Ranges {
    /// The ranges of a tree's root: for each line every number of units up to its most, and for each sum every number up to what
    /// it counts of these.
    ///
    /// # Errors
    ///
    /// Where memory ran out.
    pub fn root(alloc: Global, book: &Book) -> Result<Ranges, NoMemory>
        ensures { IfOk result (λ ranges. ranges ≡ root_of book.now) }
    {
        Ok(Ranges {
            lines: whole_lines(alloc, book.lines())?,
            sums: whole_sums(alloc, book)?,
        })
    }

    /// The least number of units of a line, counted from 0.
    pub fn low(&self, line: u16) -> u64
        requires { line < length self.now.lines }
        ensures { (d : Interval) → result ≡ (slice_index_or self.now.lines line d).low }
    {
        self.lines[usize::from(line)].low
    }

    /// The greatest number of units of a line, counted from 0.
    pub fn high(&self, line: u16) -> u64
        requires { line < length self.now.lines }
        ensures { (d : Interval) → result ≡ (slice_index_or self.now.lines line d).high }
    {
        self.lines[usize::from(line)].high
    }

    /// The intervals of the lines, in their order; in each the low end is at most the high one, as in those of the sums.
    pub fn intervals(&self) -> &[Interval]
        ensures value { result.now ≡ self.now.lines }
        ensures ordered { All IsOrdered self.now.lines }
        ensures sums_ordered { All IsOrdered self.now.sums }
    {
        &self.lines
    }

    /// The intervals of the sums, in the order of the need dates; in each the low end is at most the high one.
    pub fn sums(&self) -> &[Interval]
        ensures value { result.now ≡ self.now.sums }
        ensures ordered { All IsOrdered self.now.sums }
    {
        &self.sums
    }

    /// The interval of a line or of a sum.
    pub fn interval(&self, part: Part) -> Interval
        requires { place_of part < length (intervals_of self.now part) }
        ensures value { result ≡ slice_index_or (intervals_of self.now part) (place_of part) result }
        ensures ordered { IsOrdered result }
    {
        match part {
            Part::Line(line) => self.lines[usize::from(line)],
            Part::Sum(sum) => self.sums[usize::from(sum)],
        }
    }

    /// Whether a split of a line or of a sum at a number of units is proper: the line or the sum is there, and both sides have
    /// numbers of its interval.
    pub fn proper(&self, part: Part, at: u64) -> bool
        ensures { result ≡ is_proper self.now part at }
    {
        match part {
            Part::Line(line) => splits(&self.lines, line, at),
            Part::Sum(sum) => splits(&self.sums, sum, at),
        }
    }

    /// Goes to a side of a proper split of a line or of a sum: on the left its units up to a number, on the right those from the
    /// next number on; of a line without numbers at the ends that aren't permitted. It takes no memory.
    pub fn narrow(&mut self, book: &Book, part: Part, at: u64, right: bool)
        requires tight { AreTight book.now self.old }
        requires proper { IsTrue (is_proper self.old part at) }
        ensures value { self.new ≡ narrowed book.now self.old part at right }
        ensures tight { AreTight book.now self.new }
    {
        match part {
            Part::Line(line) => narrow_line(self.lines.as_mut_slice(), book, line, at, right),
            Part::Sum(sum) => narrow_sum(self.sums.as_mut_slice(), sum, at, right),
        }
    }

    /// Puts back an interval of a line or of a sum, whose low end is at most its high one. It takes no memory.
    pub fn restore(&mut self, part: Part, interval: Interval)
        requires part { place_of part < length (intervals_of self.old part) }
        requires ordered { IsOrdered interval }
        ensures { self.new ≡ with_interval self.old part interval }
    {
        match part {
            Part::Line(line) => self.lines[usize::from(line)] = interval,
            Part::Sum(sum) => self.sums[usize::from(sum)] = interval,
        }
    }

    /// Takes over the intervals of other ranges of the same book. It takes no memory.
    pub fn copy(&mut self, other: &Ranges)
        requires lines { length self.old.lines ≡ length other.now.lines }
        requires sums { length self.old.sums ≡ length other.now.sums }
        ensures { self.new ≡ other.now }
    {
        self.lines.as_mut_slice().copy_from_slice(&other.lines);
        self.sums.as_mut_slice().copy_from_slice(&other.sums);
    }

    /// Whether each line has one number of units: where the ranges are tight, exactly where the lines hold one portfolio.
    pub fn single(&self) -> bool
        ensures { result ≡ is_single self.now }
    {
        for interval in self.lines.as_slice() {
            if interval.low != interval.high {
                return false;
            }
        }
        true
    }
}
