//! Ranges of rates by their first days.
ghost use Rattle.std.specs.Prelude.{◌≡◌, [], ◌∷◌, ◌++◌, false, if◌then◌else◌, int_le, is_ok, IfOk, MatchOption};
ghost use Rattle.std.specs.BTreeMap.{BTreeMap};
ghost use Rattle.std.specs.List.{list_any};
ghost use Rattle.rate_table.specs.RangeIndex.{HasNoneBy, IsLatest};
ghost use Rattle.rate_table.specs.Table.{IsRange, IsRateFile, maximum_of, overlap};

use crate::table::{RateFile, RateRange, RateRanges};
use escrow_desk::NoMemory;
use escrow_units::{Day, Rate};
use std::alloc::Global;
use std::collections::BTreeMap;
use std::marker::Model;

/// Ranges of maturities that have no day in common, for many questions about one file's greatest rates. Contracts see the
/// list of them.
#[derive(Drop)]
pub struct RateIndex {
    ranges: Vec<RateRange>,
    // The same ranges, by the numbers of their first days.
    by_first: BTreeMap<i32, RateRange>,
}

impl Model for RateIndex {
    ghost use Rattle.std.specs.Prelude.{List};
    ghost use Rattle.rate_table.specs.declared.table.RateRange.{RateRange};

    ghost Value = { List RateRange };

    ghost use Rattle.rate_table.specs.RangeIndex.{IsRateIndex};

    ghost view = { λ index. index.ranges.items };

    ghost invariant = { λ index. IsRateIndex index.ranges.items index.by_first };
}

// The range at the latest first day up to this day.
fn latest_by(by_first: &BTreeMap<i32, RateRange>, day: Day) -> Option<RateRange>
    ensures { MatchOption result (HasNoneBy by_first.now day) (IsLatest by_first.now day) }
{
    match by_first.range(..=day.number()).next_back() {
        Some((_, range)) => Some(*range),
        None => None,
    }
}

// Whether a range ends on this day or later.
fn ends_from(range: &RateRange, day: Day) -> bool
    ensures { result ≡ int_le day range.now.to }
{
    day <= range.to
}

impl RateIndex {
    /// No ranges.
    pub(crate) fn new(alloc: Global) -> RateIndex
        ensures { result ≡ [] }
    {
        RateIndex {
            ranges: Vec::new(alloc),
            by_first: BTreeMap::new(alloc),
        }
    }

    /// The ranges of a file that was read, each of which is copied.
    ///
    /// # Errors
    ///
    /// `NoMemory` where memory ran out, and nothing else.
    pub fn make(alloc: Global, file: &RateFile) -> Result<RateIndex, NoMemory>
        requires { IsRateFile file.now }
        ensures { IfOk result (λ index. index ≡ file.now.ranges) }
    {
        let mut index = RateIndex::new(alloc);
        for range in file.ranges.as_slice() {
            index.add(range)?;
        }
        Ok(index)
    }

    /// One more range, which has no day in common with an earlier one. Where memory ran out the ranges stay.
    pub(crate) fn add(&mut self, range: &RateRange) -> Result<(), NoMemory>
        requires range { IsRange range.now }
        requires apart { list_any (overlap range.now) self.old ≡ false }
        ensures { self.new ≡ (if is_ok result then self.old ++ range.now ∷ [] else self.old) }
    {
        self.ranges.reserve(1)?;
        self.by_first.insert(range.from.number(), *range)?;
        self.ranges.push(*range)?;
        Ok(())
    }

    /// Whether a range has a day in common with one of these.
    ///
    /// The range here that begins last among those that begin by the other's end also ends last among them.
    pub(crate) fn overlaps(&self, range: &RateRange) -> bool
        ensures { result ≡ list_any (overlap range.now) self.now }
    {
        match latest_by(&self.by_first, range.to) {
            Some(latest) => ends_from(&latest, range.from),
            None => false,
        }
    }

    /// The ranges, in the order in which they came.
    pub(crate) fn into_ranges(self) -> RateRanges
        ensures { result ≡ self }
    {
        RateRanges::new(self.ranges)
    }

    /// The greatest rate for a maturity, in thousandths of a percentage point: that of the range that holds the day.
    ///
    /// None exactly where no range holds it. It takes no memory. It looks at the ranges by their first days and not at each
    /// of them, so its time is that of a look-up in a `BTreeMap`; no contract speaks of time.
    pub fn maximum(&self, maturity: Day) -> Option<Rate>
        ensures { result ≡ maximum_of self.now maturity }
    {
        let latest = latest_by(&self.by_first, maturity)?;
        if ends_from(&latest, maturity) {
            Some(latest.most)
        } else {
            None
        }
    }
}
